//! The handler that is used if none is set.
ghost use Rattle.iox_domain.specs.Handling.{passes_over, waits};

use iox_domain_values::{
    BackpressureDecision, BackpressureInfo, Decides, DegradationAction, DegradationCause,
    DegradationInfo, Degrades,
};

/// The handler that is used if none is set: a send blocks at a full mailbox, and a failed connection is answered with `Warn`.
/// `Nobody` has no backpressure strategy: if it is a publisher's handler, a send blocks whatever strategy the publisher's builder was
/// given, also after `.backpressure_strategy(DiscardData)`. With safe overflow no mailbox is found full, so no send blocks.
#[derive(Drop)]
pub struct Nobody;

impl Degrades for Nobody {
    ghost degrades = { λ nobody. passes_over };

    fn degrade(&self, _cause: DegradationCause, _info: &DegradationInfo) -> DegradationAction {
        DegradationAction::Warn
    }
}

impl Decides for Nobody {
    ghost decides = { λ nobody. waits };

    fn decide(&self, _info: &BackpressureInfo) -> BackpressureDecision {
        BackpressureDecision::Retry
    }
}
