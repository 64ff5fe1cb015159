//! Memory for the values of a line.
ghost use Rattle.std.specs.Prelude.{◌≡◌, ◌<◌, [], ◌∷◌, ◌++◌, length, IfOk};

use std::alloc::{AllocError, Global};
use std::marker::Model;

/// More values than a line of 1,024 bytes can have.
const MOST_VALUES: usize = 1_025;

/// Memory for the values of one line, which is allocated once and used for line after line.
/// Contracts see it as the list of the values in it.
///
/// Not in `iceoryx2`.
#[derive(Drop)]
pub struct Scratch {
    room: Vec<u64>,
}

impl Model for Scratch {
    ghost use Rattle.std.specs.Prelude.{ℕ, ◌≤◌, List, length};
    ghost use Rattle.std.specs.Vec.{vec_items, vec_capacity};

    ghost Value = { List ℕ };

    ghost view = { λ scratch. vec_items scratch.room };

    ghost invariant = { λ scratch. 1025 ≤ vec_capacity scratch.room };
}

impl Scratch {
    /// A scratch with capacity for the values of any line. Fails only if an allocation fails.
    pub fn new(alloc: Global) -> Result<Self, AllocError>
        ensures { IfOk result (λ scratch. scratch ≡ []) }
    {
        Ok(Scratch {
            room: Vec::with_capacity(alloc, MOST_VALUES)?,
        })
    }

    /// Removes all values.
    pub(crate) fn clear(&mut self)
        ensures { self.new ≡ [] }
    {
        self.room.clear();
    }

    /// Appends a value.
    pub(crate) fn push(&mut self, value: u64)
        requires { length self.old < 1025 }
        ensures { self.new ≡ self.old ++ value ∷ [] }
    {
        self.room.push_reserved(value);
    }

    /// The values.
    pub(crate) fn as_slice(&self) -> &[u64]
        ensures { result.now ≡ self.now }
    {
        self.room.as_slice()
    }
}
