//! What lanes were before a call, for proofs only.
ghost use Rattle.std.specs.Prelude.{◌≡◌};
ghost use Rattle.iox_lanes_machine.specs.World.{World};

use std::marker::Model;

/// Lanes as they were. It takes no memory, and nothing is done with it at run time.
///
/// Not in `iceoryx2`.
#[derive(Drop)]
pub(crate) struct Seen {
    pub(crate) ghost lanes: { World },
}

impl Model for Seen {
    ghost use Rattle.std.specs.Borrow.{ftrue};

    ghost also_owns = { λ seen. ftrue };
}

impl Seen {
    // The lanes that the caller states, made from what is at hand.
    pub(crate) fn of<A>(_from: &A) -> Seen
        ghost lanes: { World }
        ensures { result.lanes ≡ lanes }
    {
        Seen {}
    }
}
