//! Calls of the parties of lanes, by steps and whole.
use crate::said::{NONE, Said, UNKNOWN};
use crate::words::{number, word};
use iox_lanes_base::calls::Receipt;
use iox_lanes_machine::LaneMachine;
use iox_lanes_parties::publisher::LoanAnswer;
use iox_lanes_parties::{Answer, Call, Move, Party};
use iox_queues_steps::Stepped;
use std::alloc::{AllocError, Global};
use std::str::SplitWhitespace;

// No call of a case has this many steps.
const MOST: u64 = 100_000;

// What each word of a user header is, where a line names none.
const USER_HEADER: u64 = 6;

/// The outcome of a line that names a party.
#[derive(Clone, Copy)]
pub(crate) enum CameTo {
    /// A step that was skipped, or that isn't the last one of its call.
    Step(Stepped),
    /// The end of a call. The answer is that of the call that ended last, if any did.
    End,
    /// The end of a read, whose words begin at this place.
    Words(usize),
    /// Nothing, because the line isn't understood.
    Nothing,
}

// The words that were read, from a place on.
fn words_from(lanes: &LaneMachine, from: usize) -> Said<'_> {
    Said::Words(lanes.words_read().get(from..).unwrap_or(&[]))
}

// What the call that ended last answered, and of a read its words.
fn ended(lanes: &LaneMachine) -> Said<'_> {
    let Some(call) = lanes.finished().last() else {
        return NONE;
    };
    match call.answer {
        Answer::Read { from } => words_from(lanes, from),
        answer => Said::Ended(answer),
    }
}

/// The answer to a line with this outcome.
pub(crate) fn said(lanes: &LaneMachine, came_to: CameTo) -> Said<'_> {
    match came_to {
        CameTo::Step(stepped) => Said::Stepped(stepped),
        CameTo::End => ended(lanes),
        CameTo::Words(from) => words_from(lanes, from),
        CameTo::Nothing => UNKNOWN,
    }
}

// What a call came to whose last step came to this.
fn came_to(stepped: Stepped) -> CameTo {
    match stepped {
        Stepped::Finished => CameTo::End,
        stepped => CameTo::Step(stepped),
    }
}

fn step(lanes: &mut LaneMachine, party: Party, next: Move) -> Stepped {
    lanes.step(party, &next)
}

// Makes this many steps at most of the call that a party is in; what the last one came to.
fn goes_on(lanes: &mut LaneMachine, party: Party, steps: u64) -> Stepped {
    for _ in 0..steps {
        let stepped = step(lanes, party, Move::GoOn);
        if stepped != Stepped::Went {
            return stepped;
        }
    }
    Stepped::Went
}

// Makes a call of this many steps at most, its begin among them; what its last one came to.
fn called(lanes: &mut LaneMachine, party: Party, call: Call, steps: u64) -> Stepped {
    match step(lanes, party, Move::Begin(call)) {
        Stepped::Went => goes_on(lanes, party, steps.saturating_sub(1)),
        stepped => stepped,
    }
}

// Makes a whole call; whether it came to its end.
fn ends(lanes: &mut LaneMachine, party: Party, call: Call) -> bool {
    called(lanes, party, call, MOST) == Stepped::Finished
}

// This many words of this value.
fn filled(alloc: Global, value: u64, count: u64) -> Result<Vec<u64>, AllocError> {
    let mut words = Vec::new(alloc);
    for _ in 0..count {
        words.push(value)?;
    }
    Ok(words)
}

// The call that writes a value into each word of a loan's payload.
fn filling(alloc: Global, lanes: &LaneMachine, loan: u64, value: u64) -> Result<Call, AllocError> {
    let sizes = lanes.table().sizes();
    let user_header = filled(alloc, USER_HEADER, sizes.user_header_words)?;
    Ok(Call::Write {
        loan,
        payload: filled(alloc, value, sizes.payload_words)?,
        user_header,
    })
}

// This many numbers of a line, or as many as it has left.
fn numbers(
    alloc: Global,
    words: &mut SplitWhitespace<'_>,
    count: u64,
) -> Result<Vec<u64>, AllocError> {
    let mut numbers = Vec::new(alloc);
    for _ in 0..count {
        let Some(word) = words.next() else {
            return Ok(numbers);
        };
        numbers.push(word.parse::<u64>().unwrap_or(u64::MAX))?;
    }
    Ok(numbers)
}

// The call that writes the words that a line names: this many of the user header first, and the payload after them.
fn write(alloc: Global, words: &mut SplitWhitespace<'_>) -> Result<Call, AllocError> {
    let loan = number(words);
    let count = number(words);
    let user_header = numbers(alloc, words, count)?;
    Ok(Call::Write {
        loan,
        payload: numbers(alloc, words, u64::MAX)?,
        user_header,
    })
}

// The call of a verb, at the loan or sample that a line names.
fn call_of(
    alloc: Global,
    verb: &str,
    words: &mut SplitWhitespace<'_>,
) -> Result<Option<Call>, AllocError> {
    let call = match verb {
        "loan" => Call::LoanUninit,
        "receive" => Call::Receive,
        "write" => write(alloc, words)?,
        "send" => Call::Send {
            loan: number(words),
        },
        "drop" => Call::DropLoan {
            loan: number(words),
        },
        "read" => Call::Read {
            sample: number(words),
        },
        "release" => Call::Release {
            sample: number(words),
        },
        _ => return Ok(None),
    };
    Ok(Some(call))
}

// The slot that a whole call gives: a loan, or a receive.
fn given(lanes: &mut LaneMachine, party: Party, call: Call) -> Option<u64> {
    if !ends(lanes, party, call) {
        return None;
    }
    match lanes.finished().last()?.answer {
        Answer::Lent(LoanAnswer::Slot(slot)) | Answer::Received(Receipt::Taken { slot, .. }) => {
            Some(slot)
        }
        _ => None,
    }
}

// Loans, writes this value and sends; whether it came to the end of the send.
fn put(
    alloc: Global,
    lanes: &mut LaneMachine,
    party: Party,
    value: u64,
) -> Result<bool, AllocError> {
    let Some(loan) = given(lanes, party, Call::LoanUninit) else {
        return Ok(false);
    };
    let write = filling(alloc, lanes, loan, value)?;
    Ok(ends(lanes, party, write) && ends(lanes, party, Call::Send { loan }))
}

// Receives, reads and releases; whether all that came to its end.
fn take(lanes: &mut LaneMachine, party: Party) -> bool {
    match given(lanes, party, Call::Receive) {
        Some(sample) => {
            ends(lanes, party, Call::Read { sample })
                && ends(lanes, party, Call::Release { sample })
        }
        None => false,
    }
}

// Does what a verb says once, with this value; whether it came to its end.
fn goes(
    alloc: Global,
    lanes: &mut LaneMachine,
    party: Party,
    verb: &str,
    value: u64,
) -> Result<bool, AllocError> {
    match verb {
        "loans" => Ok(given(lanes, party, Call::LoanUninit).is_some()),
        "receives" => Ok(given(lanes, party, Call::Receive).is_some()),
        "takes" => Ok(take(lanes, party)),
        _ => put(alloc, lanes, party, value),
    }
}

// Does what a verb says with the values from one up to another, as long as that goes on. Where all of that are reads, it comes to the
// words of the last one.
fn repeated(
    alloc: Global,
    lanes: &mut LaneMachine,
    party: Party,
    verb: &str,
    (from, to): (u64, u64),
) -> Result<CameTo, AllocError> {
    let mut last = 0;
    for value in from..to {
        last = lanes.words_read().len();
        if !goes(alloc, lanes, party, verb, value)? {
            return Ok(CameTo::End);
        }
    }
    Ok(if verb == "takes" {
        CameTo::Words(last)
    } else {
        CameTo::End
    })
}

// What this many of a verb come to.
fn counted(
    alloc: Global,
    lanes: &mut LaneMachine,
    party: Party,
    verb: &str,
    number: u64,
) -> Result<CameTo, AllocError> {
    match verb {
        "go" => Ok(came_to(goes_on(lanes, party, number))),
        "put" => repeated(
            alloc,
            lanes,
            party,
            verb,
            (number, number.saturating_add(1)),
        ),
        "puts" | "loans" | "receives" | "takes" => repeated(alloc, lanes, party, verb, (0, number)),
        _ => Ok(CameTo::Nothing),
    }
}

// A call, of this many steps at most if that is named; else this many of a verb.
fn within(
    alloc: Global,
    lanes: &mut LaneMachine,
    party: Party,
    (verb, steps): (&str, Option<u64>),
    words: &mut SplitWhitespace<'_>,
) -> Result<CameTo, AllocError> {
    match (call_of(alloc, verb, words)?, steps) {
        (Some(call), steps) => Ok(came_to(called(lanes, party, call, steps.unwrap_or(MOST)))),
        (None, None) => counted(alloc, lanes, party, verb, number(words)),
        (None, Some(_)) => Ok(CameTo::Nothing),
    }
}

/// Carries out a line that names a party, and returns its outcome.
pub(crate) fn answer(
    alloc: Global,
    lanes: &mut LaneMachine,
    party: Party,
    words: &mut SplitWhitespace<'_>,
) -> Result<CameTo, AllocError> {
    let (verb, steps) = match word(words) {
        "begin" => (word(words), Some(1)),
        "within" => {
            let steps = number(words);
            (word(words), Some(steps))
        }
        "take" => return repeated(alloc, lanes, party, "takes", (0, 1)),
        verb => (verb, None),
    };
    within(alloc, lanes, party, (verb, steps), words)
}
