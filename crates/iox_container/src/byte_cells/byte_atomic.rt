//! A cell that holds the encoding of a value.
ghost use Rattle.std.specs.Prelude.{◌≡◌, ℕ};

use crate::byte_cells::{Coded, MaybeTorn};
use std::marker::{Model, PhantomData};

/// A cell that holds a value as the `SIZE` bytes of its encoding.
///
/// Contracts see it as the list of its bytes.
///
/// Ported from `FixedSizeByteAtomic` of the crate `iceoryx2_bb_container`.
#[derive(Drop)]
pub struct FixedSizeByteAtomic<T, const SIZE: usize> {
    bytes: [u8; SIZE],
    holds: PhantomData<T>,
}

impl<T, const SIZE: usize> Model for FixedSizeByteAtomic<T, SIZE> {
    ghost use Rattle.std.specs.Prelude.{ℕ, List};

    ghost Value = { List ℕ };

    ghost view = { λ a. a.bytes };
}

impl<T: Coded<SIZE>, const SIZE: usize> FixedSizeByteAtomic<T, SIZE> {
    /// A cell that holds the value.
    pub fn new(value: T) -> Self
        ensures bytes { result ≡ T.encoding.bytes_of value }
        ensures value { T.encoding.is_value value }
    {
        FixedSizeByteAtomic {
            bytes: value.to_bytes(),
            holds: PhantomData,
        }
    }

    /// A copy of the cell's bytes.
    pub fn read(&self) -> MaybeTorn<T, SIZE>
        ensures { result ≡ self.now }
    {
        MaybeTorn::new(self.bytes)
    }

    /// Replaces the content of the cell by the value.
    pub fn write(&mut self, value: T)
        ensures bytes { self.new ≡ T.encoding.bytes_of value }
        ensures value { T.encoding.is_value value }
    {
        self.bytes = value.to_bytes();
    }
}
