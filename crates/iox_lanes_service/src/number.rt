//! The numbers by which commands name the loans and samples of lanes whose calls don't overlap.
ghost use Rattle.std.specs.Prelude.{ℕ, ◌≡◌};

use std::marker::Model;

/// A number for proofs only. It takes no memory.
///
/// Not in `iceoryx2`.
#[derive(Drop)]
pub struct TurnNumber {
    pub ghost value: { ℕ },
}

impl Model for TurnNumber {
    ghost use Rattle.std.specs.Borrow.{ftrue};

    ghost also_owns = { λ number. ftrue };
}

impl TurnNumber {
    // The number that the caller states, made from what is at hand.
    pub(crate) fn given<A>(_from: &A) -> TurnNumber
        ghost value: { ℕ }
        ensures { result.value ≡ value }
    {
        TurnNumber {}
    }
}
