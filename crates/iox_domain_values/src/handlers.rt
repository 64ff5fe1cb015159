//! The strategy and the handlers of a publisher.
ghost use Rattle.iox_domain_values.specs.HandlersAnswers.{MayAnswer, MayDecide, may_degrade};
ghost use Rattle.iox_domain_values.specs.declared.backpressure.BackpressureDecision.{BackpressureDecision};
ghost use Rattle.iox_domain_values.specs.declared.backpressure.BackpressureInfo.{BackpressureInfo};

use crate::backpressure::{BackpressureAction, BackpressureDecision, BackpressureInfo, decision};
use crate::backpressure_handler::{BackpressureFn, BackpressureHandler};
use crate::backpressure_strategy::BackpressureStrategy;
use crate::degradation::{DegradationAction, DegradationCause, DegradationInfo};
use crate::degradation_handler::{DegradationFn, DegradationHandler, Degrades};

/// What decides at a full mailbox. For each info it states which decisions it may make.
pub trait Decides: Drop {
    ghost decides: { Self → BackpressureInfo → BackpressureDecision → Type 0 };

    /// What the send does at this full mailbox: one of the decisions that may be made.
    fn decide(&self, info: &BackpressureInfo) -> BackpressureDecision
        ensures { decides self.now info.now result };
}

/// The strategy and the handlers of a publisher.
#[derive(Drop)]
pub struct Handlers {
    /// What a send does at a full mailbox if no handler says otherwise.
    pub strategy: BackpressureStrategy,
    /// The handler for full mailboxes, if there is one.
    pub backpressure: Option<BackpressureHandler>,
    /// The handler for failed connections.
    pub degradation: DegradationHandler,
}

impl Decides for Handlers {
    ghost decides = { MayDecide (λ object. (BackpressureFn-box object).allows object.value) };

    fn decide(&self, info: &BackpressureInfo) -> BackpressureDecision {
        decision(self.strategy, ask(&self.backpressure, info))
    }
}

impl Degrades for Handlers {
    ghost degrades = { may_degrade (λ object. (DegradationFn-box object).allows object.value) };

    fn degrade(&self, cause: DegradationCause, info: &DegradationInfo) -> DegradationAction {
        self.degradation.degrade(cause, info)
    }
}

// What the handler answers, if there is one.
fn ask(handler: &Option<BackpressureHandler>, info: &BackpressureInfo) -> Option<BackpressureAction>
    ensures { MayAnswer (λ object. (⟦<dyn BackpressureFn as BackpressureFn>⟧ object.vtable).allows object.value) handler.now info.now
        result }
{
    match handler {
        Some(handler) => Some(handler.call(info)),
        None => None,
    }
}
