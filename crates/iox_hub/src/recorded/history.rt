//! What a hub was asked, and what it answered; only proofs read it.
ghost use Rattle.std.specs.Prelude.{◌≡◌};
ghost use Rattle.iox_hub.specs.Recorded.{Calls};

use std::marker::{Model, PhantomData};

/// What a hub was asked, and what it answered. It takes no memory, and nothing is done with it at run time.
///
/// Not in `iceoryx2`.
#[derive(Drop)]
pub(crate) struct History<T> {
    of: PhantomData<T>,
    pub(crate) ghost calls: { Calls T },
}

impl<T> Model for History<T> {
    ghost use Rattle.std.specs.Borrow.{ftrue};

    ghost also_owns = { λ history. ftrue };
}

impl<T> History<T> {
    // The history that its caller states: from the one before, the command, the answer, and the hub afterwards.
    pub(crate) fn told<A, B, C, D>(_before: &A, _asked: &B, _answer: &C, _after: &D) -> History<T>
        ghost calls: { Calls T }
        ensures { result.calls ≡ calls }
    {
        History { of: PhantomData }
    }
}
