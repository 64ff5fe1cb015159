//! Plain sets of bits, and of counts, each of whose calls is a single step.
use super::{Asked, Machine};
use crate::said::{NONE, Said, UNKNOWN};
use crate::words::size;
use iox_queues::{BitSet, CountingBitSet};
use iox_queues_steps::Stepped;
use std::alloc::{AllocError, Global};

#[derive(Drop)]
enum Kind {
    Bits(BitSet),
    Counts(CountingBitSet),
}

/// A set, and what its last call answered.
#[derive(Drop)]
pub(crate) struct Plain {
    set: Kind,
    told: Said<'static>,
}

fn new_set(alloc: Global, line: &str) -> Result<Kind, AllocError> {
    let capacity = size(line, "capacity", 1) as usize;
    if line.starts_with("steps counts ") {
        Ok(Kind::Counts(CountingBitSet::new(alloc, capacity)?))
    } else {
        Ok(Kind::Bits(BitSet::new(alloc, capacity)?))
    }
}

/// The empty set that a line names.
pub(crate) fn set(alloc: Global, line: &str) -> Result<Plain, AllocError> {
    Ok(Plain {
        set: new_set(alloc, line)?,
        told: NONE,
    })
}

// Sets a place, if the set has it.
fn sets(set: &mut BitSet, place: usize) -> Option<Said<'static>> {
    if place < set.capacity() {
        Some(Said::Is(set.set(place)))
    } else {
        None
    }
}

// Counts a place up, if the set has it.
fn counts(set: &mut CountingBitSet, place: usize) -> Option<Said<'static>> {
    if place < set.capacity() {
        Some(Said::Is(set.set(place)))
    } else {
        None
    }
}

// What a call of a bit set answers; nothing where it doesn't fit.
fn told_of_bits(set: &mut BitSet, asked: Asked<'_>) -> Option<Said<'static>> {
    match asked.verb {
        "set" => sets(set, asked.first as usize),
        "next" => Some(
            set.reset_next()
                .map_or(NONE, |place| Said::Number(place as u64)),
        ),
        _ => None,
    }
}

// What a call answers; nothing where it doesn't fit.
fn told(set: &mut Kind, asked: Asked<'_>) -> Option<Said<'static>> {
    match set {
        Kind::Bits(bits) => told_of_bits(bits, asked),
        Kind::Counts(set) => match asked.verb {
            "set" => counts(set, asked.first as usize),
            _ => None,
        },
    }
}

impl Machine for Plain {
    fn begin(&mut self, _party: usize, asked: Asked<'_>) -> Stepped {
        match told(&mut self.set, asked) {
            Some(told) => {
                self.told = told;
                Stepped::Finished
            }
            None => Stepped::Skipped,
        }
    }

    fn go_on(&mut self, _party: usize) -> Stepped {
        Stepped::Skipped
    }

    fn ended(&self, _party: usize) -> Said<'static> {
        self.told
    }

    fn seen(&self, _what: &str, _place: u64) -> Said<'static> {
        UNKNOWN
    }
}
