//! A model of the cell that makes one byte step at a time.
ghost use Rattle.std.specs.Prelude.{◌≡◌, ℕ, ◌<◌, List, [], ◌∷◌, length, IsOk, IfOk, OnErr};
ghost use Rattle.iox_container.specs.ByteSteps.{AnswersInTurn, HoldsAfter, answer_after};

use std::alloc::{AllocError, Global};
use std::marker::Model;

/// A step on one byte of a cell.
#[derive(Clone, Copy, Debug)]
pub enum ByteStep {
    /// Store a byte at a place.
    Store(usize, u8),

    /// Load the byte at a place.
    Load(usize),
}

/// What a byte step returns.
#[derive(Clone, Copy, Debug)]
pub enum ByteAnswer {
    /// The byte was stored.
    Stored,

    /// The byte that was loaded.
    Loaded(u8),

    /// The place lies past the cell, so nothing was done.
    Skipped,
}

/// A cell of `SIZE` bytes that is stored and loaded one byte at a time, by any number of callers and in any order.
///
/// Contracts see it as the list of its bytes.
///
/// New in this port: it represents the steps of several threads on a `FixedSizeByteAtomic` of the crate `iceoryx2_bb_container`.
#[derive(Drop)]
pub struct ByteMachine<const SIZE: usize> {
    bytes: [u8; SIZE],
}

impl<const SIZE: usize> Model for ByteMachine<SIZE> {
    ghost use Rattle.std.specs.Prelude.{ℕ, List};

    ghost Value = { List ℕ };

    ghost view = { λ m. m.bytes };
}

impl<const SIZE: usize> ByteMachine<SIZE> {
    /// A cell with these bytes, for example those of a value's encoding.
    pub fn new(bytes: [u8; SIZE]) -> Self
        ensures { result ≡ bytes.entry }
    {
        ByteMachine { bytes }
    }

    /// Makes one step.
    pub fn step(&mut self, step: ByteStep) -> ByteAnswer
        ensures answer { result ≡ answer_after self.old [] step }
        ensures bytes { HoldsAfter self.old (step ∷ []) self.new }
        ensures size { length self.old ≡ SIZE }
    {
        match step {
            ByteStep::Store(place, byte) => {
                if place < SIZE {
                    self.bytes[place] = byte;
                    ByteAnswer::Stored
                } else {
                    ByteAnswer::Skipped
                }
            }
            ByteStep::Load(place) => {
                if place < SIZE {
                    ByteAnswer::Loaded(self.bytes[place])
                } else {
                    ByteAnswer::Skipped
                }
            }
        }
    }

    /// Makes the steps one after another and returns their results. It fails only if the allocation for the results fails, never for an
    /// empty list of steps, and then makes no step.
    pub fn run(&mut self, alloc: Global, steps: &[ByteStep]) -> Result<Vec<ByteAnswer>, AllocError>
        ensures answers { IfOk result (λ answers. AnswersInTurn self.old steps.now answers.items) }
        ensures bytes { IfOk result (λ _. HoldsAfter self.old steps.now self.new) }
        ensures err { OnErr result (self.new ≡ self.old) }
        ensures succeeds { length steps.now ≡ 0 → IsOk result }
    {
        let mut answers = Vec::with_capacity(alloc, steps.len())?;
        for step in steps {
            answers.push_reserved(self.step(*step));
        }
        Ok(answers)
    }
}
