//! Ports, factories, loans and samples with their numbers in the machine.
ghost use Rattle.std.specs.Prelude.{ℕ, ◌≡◌};

use std::marker::Model;

/// A number that only proofs read. It takes no memory.
///
/// Not in `iceoryx2`.
#[derive(Drop)]
pub struct Number {
    pub ghost value: { ℕ },
}

impl Model for Number {
    ghost use Rattle.std.specs.Borrow.{ftrue};

    ghost also_owns = { λ number. ftrue };
}

impl Number {
    // The number that its caller states, from the values at hand.
    pub(crate) fn given<A>(_from: &A) -> Number
        ghost value: { ℕ }
        ensures { result.value ≡ value }
    {
        Number {}
    }
}

/// A port, a factory, a loan or a sample of a recorded hub, with its number there, which only proofs read.
///
/// Not in `iceoryx2`.
#[derive(Drop)]
pub struct Named<S> {
    /// The value itself.
    pub it: S,
    /// The number by which commands name it.
    pub number: Number,
}
