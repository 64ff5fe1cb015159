//! What lanes find before their first step, and what can be seen of them.
use crate::lanes::calling;
use crate::lanes::parties::party;
use crate::said::{NONE, Said, UNKNOWN};
use crate::words::{number, number_if, word};
use iox_lanes_base::words::SlotWord;
use iox_lanes_machine::{Found, LaneMachine};
use iox_lanes_parties::Party;
use std::alloc::{AllocError, Global};
use std::str::SplitWhitespace;

// What is found of a publisher, and at the connection at a place of its.
fn found_at(kind: &str, publisher: usize, place: u64, third: u64) -> Option<Found> {
    match kind {
        "waiting" => Some(Found::Waiting {
            publisher,
            place,
            slot: third,
        }),
        "back" => Some(Found::GivenBack {
            publisher,
            place,
            slot: third,
        }),
        "newest" => Some(Found::Newest {
            publisher,
            slot: place,
        }),
        "buffer" => Some(Found::Buffer {
            publisher,
            place,
            messages: third,
        }),
        "slots" => Some(Found::Slots {
            publisher,
            slots: place,
            most_loans: third,
        }),
        _ => None,
    }
}

// What is found of a sender: a line may say a last number of a message; without one messages have no numbers.
fn sender(
    publisher: usize,
    (node_id, publisher_id): (u64, u64),
    fails: bool,
    last: Option<u64>,
) -> Found {
    Found::Sender {
        publisher,
        node_id,
        publisher_id,
        fails,
        last,
    }
}

fn held(slot: u64, word: SlotWord, value: u64) -> Found {
    Found::Held { slot, word, value }
}

// What a line says is found.
fn found(words: &mut SplitWhitespace<'_>) -> Option<Found> {
    let kind = word(words);
    let port = number(words);
    let place = number(words);
    let third = number(words);
    match kind {
        "payload" => Some(held(port, SlotWord::Payload(place), third)),
        "user_header" => Some(held(port, SlotWord::UserHeader(place), third)),
        "sender" | "failing" => Some(sender(
            port as usize,
            (place, third),
            kind == "failing",
            number_if(words),
        )),
        "swapped" => Some(Found::Swapped {
            subscriber: port as usize,
            one: place,
            other: third,
        }),
        _ => found_at(kind, port as usize, place, third),
    }
}

fn find<'a>(
    lanes: &mut LaneMachine,
    words: &mut SplitWhitespace<'_>,
) -> Result<Said<'a>, AllocError> {
    match found(words) {
        Some(found) => Ok(Said::Is(lanes.find(found)?)),
        None => Ok(UNKNOWN),
    }
}

// The first `count` slots wait at the first connection; how many of them were taken in.
fn find_first<'a>(lanes: &mut LaneMachine, count: u64) -> Result<Said<'a>, AllocError> {
    for slot in 0..count {
        if !lanes.find(Found::Waiting {
            publisher: 0,
            place: 0,
            slot,
        })? {
            return Ok(Said::Number(slot));
        }
    }
    Ok(Said::Number(count))
}

fn position(lanes: &LaneMachine, connection: u64) -> Said<'_> {
    if connection < lanes.links().len() as u64 {
        Said::Positions(lanes.position(connection))
    } else {
        NONE
    }
}

fn link(lanes: &LaneMachine, connection: u64) -> Said<'_> {
    match lanes.links().get(connection as usize) {
        Some(link) => Said::Waited(link.found().len(), link.limit()),
        None => NONE,
    }
}

// The slot at a place of a publisher's history, the oldest at 0.
fn history(lanes: &LaneMachine, publisher: u64, at: u64) -> Said<'_> {
    let Some(lane) = lanes.publishers().get(publisher as usize) else {
        return NONE;
    };
    match lane.port().book().history().get(at as usize) {
        Some(slot) => Said::Number(*slot),
        None => NONE,
    }
}

fn order(lanes: &LaneMachine, connection: u64, at: u64) -> Said<'_> {
    match lanes.order(connection).get(at as usize) {
        Some(placed) => Said::Placed(*placed),
        None => NONE,
    }
}

// What is seen of the lanes.
fn view<'a>(lanes: &'a LaneMachine, verb: &str, words: &mut SplitWhitespace<'_>) -> Said<'a> {
    match verb {
        "links" => Said::Number(lanes.links().len() as u64),
        "moments" => Said::Number(lanes.moments()),
        "link" => link(lanes, number(words)),
        "position" => position(lanes, number(words)),
        "history" => history(lanes, number(words), number(words)),
        "order" => order(lanes, number(words), number(words)),
        _ => UNKNOWN,
    }
}

// What a line of a party answers.
fn called<'a>(
    alloc: Global,
    lanes: &'a mut LaneMachine,
    party: Party,
    words: &mut SplitWhitespace<'_>,
) -> Result<Said<'a>, AllocError> {
    let came_to = calling::answer(alloc, lanes, party, words)?;
    Ok(calling::said(lanes, came_to))
}

/// The answer to a line about the state of lanes.
pub(crate) fn answer<'a>(
    alloc: Global,
    lanes: &'a mut LaneMachine,
    first: &str,
    words: &mut SplitWhitespace<'_>,
) -> Result<Said<'a>, AllocError> {
    if let Some(party) = party(first) {
        return called(alloc, lanes, party, words);
    }
    match first {
        "find" => find(lanes, words),
        "find_first" => find_first(lanes, number(words)),
        verb => Ok(view(lanes, verb, words)),
    }
}
