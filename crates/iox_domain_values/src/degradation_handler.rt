//! Handlers for failed connections.
ghost use Rattle.std.specs.Prelude.{◌≡◌};
ghost use Rattle.iox_domain_values.specs.DegradationAnswers.{Allowed, fixed_action_of};
ghost use Rattle.iox_domain_values.specs.declared.degradation.DegradationAction.TheVariants as action;
ghost use Rattle.iox_domain_values.specs.declared.degradation.DegradationAction.{DegradationAction};
ghost use Rattle.iox_domain_values.specs.declared.degradation.DegradationCause.{DegradationCause};
ghost use Rattle.iox_domain_values.specs.declared.degradation.DegradationInfo.{DegradationInfo};
ghost use Rattle.iox_domain_values.specs.declared.degradation_handler.DegradationHandler.TheVariants as handler;

use crate::degradation::{DegradationAction, DegradationCause, DegradationInfo};

/// An object that decides what a call does if a connection failed.
///
/// Ported from `iceoryx2::port::DegradationFn`, which is a closure there. For each cause and info the object states which
/// actions it may answer (`allows`), and a call answers one of these. State that it keeps from call to call must be in cells.
pub trait DegradationFn: Drop {
    ghost allows: { Self → DegradationCause → DegradationInfo → DegradationAction → Type 0 };

    /// What the call does about this connection.
    fn call(&self, cause: DegradationCause, info: &DegradationInfo) -> DegradationAction
        ensures { allows self.now cause info.now result };
}

/// What decides if a connection failed. For each cause and info it states which actions it may answer.
///
/// Ports are generic over this trait and take no box, so neither they nor what contains them have a `dyn` in them.
pub trait Degrades: Drop {
    ghost degrades: { Self → DegradationCause → DegradationInfo → DegradationAction → Type 0 };

    /// What the call does about this connection: an action that may be answered.
    fn degrade(&self, cause: DegradationCause, info: &DegradationInfo) -> DegradationAction
        ensures { degrades self.now cause info.now result };
}

/// A handler for failed connections: the same action each time, or an object that the caller made.
///
/// Ported from `iceoryx2::port::DegradationHandler`.
#[derive(Drop)]
pub enum DegradationHandler {
    /// This action, each time.
    Fixed(DegradationAction),
    /// The action that the object answers.
    Boxed(Box<dyn DegradationFn>),
}

impl DegradationHandler {
    /// A handler that answers this action each time.
    pub fn new_with(action: DegradationAction) -> Self
        ensures { result ≡ handler.Fixed action }
    {
        DegradationHandler::Fixed(action)
    }

    /// A handler that answers what the object answers.
    pub fn boxed(object: Box<dyn DegradationFn>) -> Self
        ensures { result ≡ handler.Boxed object }
    {
        DegradationHandler::Boxed(object)
    }

    /// The action of a fixed handler; None for a boxed one.
    pub fn fixed_action(&self) -> Option<DegradationAction>
        ensures { result ≡ fixed_action_of self.now }
    {
        match self {
            DegradationHandler::Fixed(action) => Some(*action),
            DegradationHandler::Boxed(_) => None,
        }
    }
}

impl Degrades for DegradationHandler {
    ghost degrades = { Allowed (λ object. (DegradationFn-box object).allows object.value) };

    fn degrade(&self, cause: DegradationCause, info: &DegradationInfo) -> DegradationAction {
        match self {
            DegradationHandler::Fixed(action) => *action,
            DegradationHandler::Boxed(object) => object.call(cause, info),
        }
    }
}

/// The handler of a port for which none is set: `Warn`, each time.
impl Default for DegradationHandler {
    ghost is_default = { λ made. made ≡ handler.Fixed action.Warn };

    fn default() -> Self {
        DegradationHandler::Fixed(DegradationAction::Warn)
    }
}
