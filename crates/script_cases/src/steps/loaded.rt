//! Values of several words, and what a call loaded of them.
use iox_queues::sets::Event;
use iox_queues_steps::{Access, Word};
use std::alloc::{AllocError, Global};

// How many values there are; the number of one is the digit of its words.
const VALUES: u64 = 10;

// The value of a digit, in this many words: its first word is the digit, and each further one ten times the one before it.
fn value(alloc: Global, digit: u64, words: u64) -> Result<Vec<u64>, AllocError> {
    let mut value = Vec::new(alloc);
    let mut word = digit;
    for _ in 0..words {
        value.push(word)?;
        word = word.saturating_mul(10);
    }
    Ok(value)
}

/// A value for each digit. The digits of the sum of some words show which values these words belong to.
pub(crate) fn values(alloc: Global, words: u64) -> Result<Vec<Vec<u64>>, AllocError> {
    let mut values = Vec::new(alloc);
    for digit in 0..VALUES {
        values.push(value(alloc, digit, words)?)?;
    }
    Ok(values)
}

// What a step loaded of the cells from this one on.
fn loaded_by(event: &Event, from: u64) -> u64 {
    match event.access {
        Access::Load(Word::Cell(cell)) if cell >= from => event.answer,
        _ => 0,
    }
}

/// The sum of the words that a party loaded, from this cell on and from the step with this number on.
pub(crate) fn loaded(events: &[Event], party: usize, first: u64, from: u64) -> u64 {
    let mut sum = 0u64;
    for event in events.get(first as usize..).unwrap_or(&[]) {
        if event.party == party {
            sum = sum.saturating_add(loaded_by(event, from));
        }
    }
    sum
}
