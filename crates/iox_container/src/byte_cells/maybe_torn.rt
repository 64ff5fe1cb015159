//! Bytes that were read one by one.
ghost use Rattle.std.specs.Prelude.{◌≡◌, ℕ, ◌↔◌, Some, IfSome};

use crate::byte_cells::Coded;
use std::marker::{Model, PhantomData};

/// Bytes that were read one by one, so that some may be of one value and some of another.
///
/// Contracts see it as the list of its bytes.
///
/// Ported from `MaybeTorn` of the crate `iceoryx2_bb_container`.
#[derive(Drop)]
pub struct MaybeTorn<T, const SIZE: usize> {
    bytes: [u8; SIZE],
    read_as: PhantomData<T>,
}

impl<T, const SIZE: usize> Model for MaybeTorn<T, SIZE> {
    ghost use Rattle.std.specs.Prelude.{ℕ, List};

    ghost Value = { List ℕ };

    ghost view = { λ t. t.bytes };
}

impl<T, const SIZE: usize> MaybeTorn<T, SIZE> {
    /// These bytes.
    pub fn new(bytes: [u8; SIZE]) -> Self
        ensures { result ≡ bytes.entry }
    {
        MaybeTorn {
            bytes,
            read_as: PhantomData,
        }
    }

    /// The bytes.
    pub fn as_bytes(&self) -> &[u8; SIZE]
        ensures { result.now ≡ self.now }
    {
        &self.bytes
    }

    /// The value whose encoding these bytes are, or `None` if they aren't the encoding of any value.
    pub fn assume_consistent(&self) -> Option<T>
    where
        T: Coded<SIZE>,
        ensures same { (v : T) → T.encoding.is_value v → ((result ≡ Some v) ↔ (self.now ≡ T.encoding.bytes_of v)) }
        ensures value { IfSome result (λ v. T.encoding.is_value v × (self.now ≡ T.encoding.bytes_of v)) }
    {
        let value = T::of_bytes(&self.bytes);
        if value.to_bytes() == self.bytes {
            Some(value)
        } else {
            None
        }
    }
}
