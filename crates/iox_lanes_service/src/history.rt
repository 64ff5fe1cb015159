//! What was asked of lanes by calls that don't overlap, and their answers, for proofs only.
ghost use Rattle.std.specs.Prelude.{◌≡◌, true, Some};
ghost use Rattle.iox_lanes_service.specs.InTurn.{Turns};

use crate::in_turn::RanOut;
use std::marker::Model;

/// What was asked of lanes by calls that don't overlap, and their answers. It takes no memory, and nothing is done with it at run time.
///
/// Not in `iceoryx2`.
#[derive(Drop)]
pub(crate) struct TurnHistory {
    pub(crate) ghost turns: { Turns },
}

impl Model for TurnHistory {
    ghost use Rattle.std.specs.Borrow.{ftrue};

    ghost also_owns = { λ history. ftrue };
}

impl TurnHistory {
    // The history that the caller states, made from the history before, what was asked, and the answer.
    pub(crate) fn told<A, B, C>(_before: &A, _asked: &B, _answer: &C) -> TurnHistory
        ghost turns: { Turns }
        ensures { result.turns ≡ turns }
    {
        TurnHistory {}
    }

    // The same history, but the last call got stuck for this reason.
    pub(crate) fn stopped(&self, why: RanOut) -> TurnHistory
        ensures { result.turns ≡ record self.now.turns { stuck = true; ran_out = Some why } }
    {
        TurnHistory::told(self, &why, &())
    }
}
