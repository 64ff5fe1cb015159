//! Handlers of ports that a command made: fixed actions, as the command named them.
ghost use Rattle.std.specs.Prelude.{◌≡◌, ℕ, Option};
ghost use Rattle.std.specs.Option.{option_map, unwrap_or};
ghost use Rattle.iox_command.specs.DomainValues.Actions.{decision_of};
ghost use Rattle.iox_command.specs.DomainValues.declared.backpressure.BackpressureAction.{BackpressureAction};
ghost use Rattle.iox_command.specs.DomainValues.declared.backpressure_handler.BackpressureHandler.TheVariants as backpressure;
ghost use Rattle.iox_command.specs.DomainValues.declared.backpressure_strategy.BackpressureStrategy.{BackpressureStrategy};
ghost use Rattle.iox_command.specs.DomainValues.declared.degradation.DegradationAction.{DegradationAction};
ghost use Rattle.iox_command.specs.DomainValues.declared.degradation_handler.DegradationHandler.TheVariants as degradation;

use iox_domain::Nobody;
use iox_domain_values::backpressure::decision;
use iox_domain_values::{
    BackpressureAction, BackpressureDecision, BackpressureHandler, BackpressureInfo,
    BackpressureStrategy, Decides, DegradationAction, DegradationCause, DegradationHandler,
    DegradationInfo, Degrades, Handlers, Overrides,
};

/// Handlers of a publisher that can be made of fixed actions, as a command names them.
///
/// Not in `iceoryx2`.
pub trait PublisherHandlers: Decides + Degrades {
    // the handlers with this strategy and these actions
    ghost fixed: { BackpressureStrategy → Option BackpressureAction → DegradationAction → Self };

    /// The handlers with this strategy, with this action at a full mailbox, if one is named, and with this action at a failed connection.
    fn with_actions(
        strategy: BackpressureStrategy,
        backpressure: Option<BackpressureAction>,
        degradation: DegradationAction,
    ) -> Self
        ensures { result ≡ fixed strategy backpressure degradation };
}

/// A handler of a subscriber that can be made of a fixed action, as a command names it.
///
/// Not in `iceoryx2`.
pub trait SubscriberHandler: Degrades {
    // the handler with this action
    ghost fixed: { DegradationAction → Self };

    /// The handler with this action at a failed connection.
    fn with_action(degradation: DegradationAction) -> Self
        ensures { result ≡ fixed degradation };
}

impl PublisherHandlers for Handlers {
    ghost fixed = { λ strategy action degrading. record {
      strategy = strategy;
      backpressure = option_map (λ named. backpressure.Fixed named) action;
      degradation
          = degradation.Fixed degrading;
    } };

    fn with_actions(
        strategy: BackpressureStrategy,
        backpressure: Option<BackpressureAction>,
        degradation: DegradationAction,
    ) -> Self {
        Handlers {
            strategy,
            backpressure: match backpressure {
                Some(action) => Some(BackpressureHandler::Fixed(action)),
                None => None,
            },
            degradation: DegradationHandler::Fixed(degradation),
        }
    }
}

impl SubscriberHandler for DegradationHandler {
    ghost fixed = { λ action. degradation.Fixed action };

    fn with_action(degradation: DegradationAction) -> Self {
        DegradationHandler::Fixed(degradation)
    }
}

/// Handlers of a publisher that are fixed actions. A hub whose ports are made only by commands needs no other handlers, and no boxes.
///
/// Not in `iceoryx2`.
#[derive(Clone, Copy)]
pub struct FixedHandlers {
    /// The strategy at a full mailbox, if no action is named.
    pub strategy: BackpressureStrategy,
    /// The action at a full mailbox, if one is named.
    pub backpressure: Option<BackpressureAction>,
    /// The action at a failed connection.
    pub degradation: DegradationAction,
}

impl Decides for FixedHandlers {
    ghost decides = { λ handlers info decided. decided ≡ decision_of handlers.strategy handlers.backpressure };

    fn decide(&self, info: &BackpressureInfo) -> BackpressureDecision {
        decision(self.strategy, self.backpressure)
    }
}

impl Degrades for FixedHandlers {
    ghost degrades = { λ handlers cause info action. action ≡ handlers.degradation };

    fn degrade(&self, cause: DegradationCause, info: &DegradationInfo) -> DegradationAction {
        self.degradation
    }
}

impl PublisherHandlers for FixedHandlers {
    ghost fixed = { λ strategy action degrading. record { strategy = strategy; backpressure = action; degradation = degrading } };

    fn with_actions(
        strategy: BackpressureStrategy,
        backpressure: Option<BackpressureAction>,
        degradation: DegradationAction,
    ) -> Self {
        FixedHandlers {
            strategy,
            backpressure,
            degradation,
        }
    }
}

/// A handler of a subscriber that has one action at a failed connection.
///
/// Not in `iceoryx2`.
#[derive(Clone, Copy)]
pub struct FixedDegradation {
    /// The action.
    pub action: DegradationAction,
}

impl Degrades for FixedDegradation {
    ghost degrades = { λ handler cause info action. action ≡ handler.action };

    fn degrade(&self, cause: DegradationCause, info: &DegradationInfo) -> DegradationAction {
        self.action
    }
}

impl SubscriberHandler for FixedDegradation {
    ghost fixed = { λ action. record { action = action } };

    fn with_action(degradation: DegradationAction) -> Self {
        FixedDegradation {
            action: degradation,
        }
    }
}

// `Nobody` has no actions: it waits and warns, whatever a command names.
impl PublisherHandlers for Nobody {
    ghost fixed = { λ strategy action degrading. record {} };

    fn with_actions(
        _strategy: BackpressureStrategy,
        _backpressure: Option<BackpressureAction>,
        _degradation: DegradationAction,
    ) -> Self {
        Nobody
    }
}

impl SubscriberHandler for Nobody {
    ghost fixed = { λ action. record {} };

    fn with_action(_degradation: DegradationAction) -> Self {
        Nobody
    }
}

/// The number of slots of a publisher: the one that a command named, or else as many as the publisher needs in the worst case.
///
/// Not in `iceoryx2`.
#[derive(Clone, Copy)]
pub struct NamedSlots {
    /// The number of slots, if one is named.
    pub slots: Option<u64>,
}

impl Overrides for NamedSlots {
    ghost overrides = { λ named worst_case answer. answer ≡ unwrap_or named.slots worst_case };

    fn number(&self, worst_case: usize) -> usize {
        match self.slots {
            Some(slots) => slots as usize,
            None => worst_case,
        }
    }
}
