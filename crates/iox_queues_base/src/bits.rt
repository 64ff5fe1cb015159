//! Sets of numbers below a capacity, and counters for such numbers.
//!
//! Ported from `BitSet` and `CountingBitSet` of iceoryx2 and their fixed-size forms.
mod counting;
mod set;

ghost use Rattle.std.specs.Prelude.{◌≡◌};

pub use counting::{CountingBitSet, FixedSizeCountingBitSet};
pub use set::{BitSet, FixedSizeBitSet};

/// A number of a counting bit set, and how often it was set since the last reset.
#[derive(Clone, Copy, Debug, PartialEq, Eq)]
pub struct BitState {
    bit: usize,
    count: u64,
}

impl BitState {
    pub(crate) fn new(bit: usize, count: u64) -> BitState
        ensures { result ≡ record { bit = bit; count = count } }
    {
        BitState { bit, count }
    }

    /// The number.
    pub fn bit(&self) -> usize
        ensures { result ≡ self.now.bit }
    {
        self.bit
    }

    /// How often it was set.
    pub fn count(&self) -> u64
        ensures { result ≡ self.now.count }
    {
        self.count
    }
}
