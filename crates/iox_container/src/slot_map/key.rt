//! The key of a slot map.
ghost use Rattle.std.specs.Prelude.{◌≡◌};

use std::marker::Model;

/// The key of a value in a slot map. A key that the map gave out is a number below the map's capacity.
///
/// Contracts see it as that number.
///
/// Ported from `iceoryx2_bb_container::slotmap::SlotMapKey`.
#[derive(Clone, Copy, Debug, PartialEq, Eq, PartialOrd, Ord, Hash)]
pub struct SlotMapKey {
    value: usize,
}

impl Model for SlotMapKey {
    ghost use Rattle.std.specs.Prelude.{ℕ};

    ghost Value = { ℕ };

    ghost view = { λ k. k.value };

    ghost inverse = { λ n. record { value = n } };
}

impl SlotMapKey {
    /// The key with this number.
    pub fn new(value: usize) -> Self
        ensures { result ≡ value }
    {
        SlotMapKey { value }
    }

    /// The number of the key.
    pub fn value(&self) -> usize
        ensures { result ≡ self.now }
    {
        self.value
    }
}
