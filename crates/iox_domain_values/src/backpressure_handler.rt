//! Handlers for a full mailbox.
ghost use Rattle.std.specs.Prelude.{◌≡◌};
ghost use Rattle.iox_domain_values.specs.BackpressureAnswers.{Allowed, fixed_action_of};
ghost use Rattle.iox_domain_values.specs.declared.backpressure.BackpressureInfo.{BackpressureInfo};
ghost use Rattle.iox_domain_values.specs.declared.backpressure.BackpressureAction.{BackpressureAction};
ghost use Rattle.iox_domain_values.specs.declared.backpressure_handler.BackpressureHandler.TheVariants as handler;

use crate::backpressure::{BackpressureAction, BackpressureInfo};

/// An object that decides at a full mailbox.
///
/// Ported from `iceoryx2::port::BackpressureFn`, which is a closure there. For each info the object states which actions it may
/// answer (`allows`), and a call answers one of these. State that it keeps from call to call must be in cells.
pub trait BackpressureFn: Drop {
    ghost allows: { Self → BackpressureInfo → BackpressureAction → Type 0 };

    /// What the send does at this full mailbox.
    fn call(&self, info: &BackpressureInfo) -> BackpressureAction
        ensures { allows self.now info.now result };
}

/// A handler for full mailboxes: the same action each time, or an object that the caller made.
///
/// Ported from `iceoryx2::port::BackpressureHandler`.
#[derive(Drop)]
pub enum BackpressureHandler {
    /// This action, each time.
    Fixed(BackpressureAction),
    /// The action that the object answers.
    Boxed(Box<dyn BackpressureFn>),
}

impl BackpressureHandler {
    /// A handler that answers this action each time.
    pub fn new_with(action: BackpressureAction) -> Self
        ensures { result ≡ handler.Fixed action }
    {
        BackpressureHandler::Fixed(action)
    }

    /// A handler that answers what the object answers.
    pub fn boxed(object: Box<dyn BackpressureFn>) -> Self
        ensures { result ≡ handler.Boxed object }
    {
        BackpressureHandler::Boxed(object)
    }

    /// The action of a fixed handler; None for a boxed one.
    pub fn fixed_action(&self) -> Option<BackpressureAction>
        ensures { result ≡ fixed_action_of self.now }
    {
        match self {
            BackpressureHandler::Fixed(action) => Some(*action),
            BackpressureHandler::Boxed(_) => None,
        }
    }

    /// What the send does at this full mailbox: an action that the handler may answer.
    pub fn call(&self, info: &BackpressureInfo) -> BackpressureAction
        ensures { Allowed (λ object. allows object) self.now info.now result }
    {
        match self {
            BackpressureHandler::Fixed(action) => *action,
            BackpressureHandler::Boxed(object) => object.call(info),
        }
    }
}
