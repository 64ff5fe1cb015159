//! Cases of machines whose calls are made one step at a time: the first line names the machine, and each further line is a question to it,
//! or a call.
//!
//! `2 acquire 7` is a whole call of party 2, `2 begin acquire 7` only its first step, and `2 go 3` three steps of its call in progress. The
//! answer is the outcome of the last step, or the call's answer if that step ended the call. `N times LINES` prints the answers of each
//! repetition, unless they are those of the repetition before. A line `measure N times LINES` is answered like `N times LINES`; a case of
//! `./check` counts the instructions that it takes.
mod bits;
mod indices;
mod loaded;
mod members;
mod plain;
mod rings;
mod robust;
mod values;

use crate::counted;
use crate::said::Said;
use crate::words::{number, word};
use iox_queues_steps::Stepped;
use std::alloc::{AllocError, Global};
use std::io;
use std::str::SplitWhitespace;

// No call of a case has this many steps.
const MOST: u64 = 100_000;

/// The call that a line asks for: its verb, the numbers after it, and whether it is to lock the set.
#[derive(Clone, Copy)]
pub(crate) struct Asked<'a> {
    pub(crate) verb: &'a str,
    pub(crate) first: u64,
    pub(crate) second: u64,
    pub(crate) locks: bool,
}

/// A machine whose parties make their calls a step at a time.
pub(crate) trait Machine: Drop {
    /// The party begins a call, if that is possible.
    fn begin(&mut self, party: usize, asked: Asked<'_>) -> Stepped;

    /// The party makes the next step of its call.
    fn go_on(&mut self, party: usize) -> Stepped;

    /// The answer of the party's last finished call.
    fn ended(&self, party: usize) -> Said<'static>;

    /// The answer to a question about the machine's state.
    fn seen(&self, what: &str, place: u64) -> Said<'static>;
}

// Makes this many steps at most of the call that a party is in; what the last one came to.
fn goes_on<M: Machine>(machine: &mut M, party: usize, steps: u64) -> Stepped {
    for _ in 0..steps {
        let stepped = machine.go_on(party);
        if stepped != Stepped::Went {
            return stepped;
        }
    }
    Stepped::Went
}

// What a step came to, or what its call answered.
fn said<M: Machine>(machine: &M, party: usize, stepped: Stepped) -> Said<'static> {
    match stepped {
        Stepped::Finished => machine.ended(party),
        stepped => Said::Stepped(stepped),
    }
}

// Makes a call of a party, or only its first step.
fn called<M: Machine>(
    machine: &mut M,
    party: usize,
    verb: &str,
    words: &mut SplitWhitespace<'_>,
) -> Stepped {
    let (verb, steps) = if verb == "begin" {
        (word(words), 0)
    } else {
        (verb, MOST)
    };
    let asked = Asked {
        verb,
        first: number(words),
        second: number(words),
        locks: word(words) == "lock",
    };
    match machine.begin(party, asked) {
        Stepped::Went => goes_on(machine, party, steps),
        stepped => stepped,
    }
}

// What a line of a party answers.
fn of_party<M: Machine>(
    machine: &mut M,
    party: usize,
    words: &mut SplitWhitespace<'_>,
) -> Said<'static> {
    let stepped = match word(words) {
        "go" => goes_on(machine, party, number(words)),
        verb => called(machine, party, verb, words),
    };
    said(machine, party, stepped)
}

// What a line answers that is said once.
fn answered<M: Machine>(machine: &mut M, line: &str) -> Said<'static> {
    let mut words = line.split_whitespace();
    let first = word(&mut words);
    match first.parse::<usize>() {
        Ok(party) => of_party(machine, party, &mut words),
        Err(_) => machine.seen(first, number(&mut words)),
    }
}

// What lines answer, each answer after a space.
fn heard<M: Machine>(alloc: Global, machine: &mut M, lines: &str) -> Result<String, AllocError> {
    let mut told = String::new(alloc);
    for line in lines.split("; ") {
        let said = answered(machine, line);
        told = format!(in alloc; "{told} {said}")?;
    }
    Ok(told)
}

// What lines answer the next time that they are said; a `#` in them is the number of the time.
fn heard_again<M: Machine>(
    alloc: Global,
    machine: &mut M,
    lines: &str,
    time: usize,
) -> Result<String, AllocError> {
    let number = format!(in alloc; "{}", time.saturating_add(1))?;
    let said = lines.replace(alloc, "#", number.as_str())?;
    heard(alloc, machine, said.as_str())
}

// Prints what lines answer each time that they are said, but where that is what they answered the time before.
fn tell<M: Machine>(
    rt: &HostRuntime,
    alloc: Global,
    machine: &mut M,
    (times, once): (usize, &str),
) -> io::Result<()> {
    let mut last = String::new(alloc);
    for time in 0..times {
        let heard = heard_again(alloc, machine, once, time)?;
        if heard.as_str() != last.as_str() {
            print!(rt; "{heard}")?;
        }
        last = heard;
    }
    Ok(())
}

// Prints a line with its answers.
fn tell_line<M: Machine>(
    rt: &HostRuntime,
    alloc: Global,
    machine: &mut M,
    line: &str,
) -> io::Result<()> {
    print!(rt; "{line} ->")?;
    tell(rt, alloc, machine, counted(line))?;
    println!(rt; "")
}

// Prints each line with what it answers.
fn tell_lines<M: Machine>(
    rt: &HostRuntime,
    alloc: Global,
    machine: &mut M,
    lines: &str,
) -> io::Result<()> {
    for line in lines.lines() {
        tell_line(rt, alloc, machine, line)?;
    }
    Ok(())
}

// The same of a machine that was made; nothing where no memory was found for it.
fn serve<M: Machine>(
    rt: &HostRuntime,
    alloc: Global,
    made: Result<M, AllocError>,
    lines: &str,
) -> io::Result<()> {
    match made {
        Ok(mut machine) => tell_lines(rt, alloc, &mut machine, lines),
        Err(AllocError) => Ok(()),
    }
}

/// Prints the first line, which names the machine, and each line after it with its answers.
pub(crate) fn answer_steps(rt: &HostRuntime, alloc: Global, lines: &str) -> io::Result<()> {
    let (head, rest) = lines.split_once('\n').unwrap_or((lines, ""));
    println!(rt; "{head}")?;
    let mut words = head.split_whitespace();
    let _ = word(&mut words);
    match word(&mut words) {
        "overflowing" | "refusing" => serve(rt, alloc, rings::ring(alloc, head), rest),
        "bits" => serve(rt, alloc, bits::set(alloc, head), rest),
        "plain" | "counts" => serve(rt, alloc, plain::set(alloc, head), rest),
        "indices" => serve(rt, alloc, indices::set(alloc, head), rest),
        "value" => serve(rt, alloc, values::value(alloc, head), rest),
        "robust" => serve(rt, alloc, robust::set(alloc, head), rest),
        "members" => serve(rt, alloc, members::container(alloc, head), rest),
        _ => Ok(()),
    }
}
