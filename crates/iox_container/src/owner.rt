//! The id of an index's owner.
ghost use Rattle.std.specs.Prelude.{◌≡◌, ◌<◌, ◌^◌, ◌↔◌, IsOk, IfOk};
ghost use Rattle.iox_container.specs.Owner.{IsOwner};

use crate::error::OwnerIdNewError;
use std::marker::Model;

const RESERVED: u64 = 1 << 63;

/// The id of an owner of indices: a number in 1..=2^63 - 1.
///
/// Ported from `iceoryx2_bb_lock_free::mpmc::robust_unique_index_set::OwnerId`.
#[derive(Clone, Copy, Debug, PartialEq, Eq)]
pub struct OwnerId {
    value: u64,
}

impl Model for OwnerId {
    ghost use Rattle.std.specs.Prelude.{ℕ};
    ghost use Rattle.iox_container.specs.Owner.{IsOwner};

    ghost Value = { ℕ };

    ghost view = { λ o. o.value };

    ghost invariant = { λ o. IsOwner o.value };

    ghost inverse = { λ n. record { value = n } };
}

impl OwnerId {
    /// The owner id with this number. Refused with `ValueReserved` if the number is 0, or is 2^63 or more.
    pub fn new(value: u64) -> Result<Self, OwnerIdNewError>
        ensures accepted { IsOk result ↔ IsOwner value }
        ensures value { IfOk result (λ owner. owner ≡ value) }
    {
        if value == 0 || value >= RESERVED {
            return Err(OwnerIdNewError::ValueReserved);
        }
        Ok(OwnerId { value })
    }

    /// The number.
    pub fn value(&self) -> u64
        ensures value { result ≡ self.now }
        ensures within { IsOwner self.now }
    {
        self.value
    }
}
