//! Handlers of a publisher that are made of handed-in ones.
ghost use Rattle.std.specs.Prelude.{◌≡◌, Option, None, Some, refl};
ghost use Rattle.std.specs.Option.{option_map, option_or, unwrap_or};
ghost use Rattle.iox_hub_commands.specs.DomainValues.declared.backpressure.BackpressureAction.{BackpressureAction};
ghost use Rattle.iox_hub_commands.specs.DomainValues.declared.backpressure_handler.BackpressureHandler.TheVariants as full;
ghost use Rattle.iox_hub_commands.specs.DomainValues.declared.backpressure_strategy.BackpressureStrategy.{BackpressureStrategy};
ghost use Rattle.iox_hub_commands.specs.DomainValues.declared.degradation.DegradationAction.{DegradationAction};
ghost use Rattle.iox_hub_commands.specs.DomainValues.declared.degradation_handler.DegradationHandler.TheVariants as failed;

use iox_domain_values::{
    BackpressureAction, BackpressureHandler, BackpressureStrategy, DegradationAction,
    DegradationHandler, Handlers,
};
use iox_hub_commands::PublisherHandlers;

/// Handlers of a publisher that can be made of handed-in ones: of one that decides at a full mailbox, and of one that decides at a failed
/// connection. A fixed action takes the place of a handler that isn't handed in.
///
/// Not in `iceoryx2`.
pub trait TakesHandlers<P, D>: PublisherHandlers {
    // the handlers with this strategy and these handed-in handlers, and with these actions in the place of missing ones
    ghost handled: { BackpressureStrategy → Option BackpressureAction → DegradationAction → Option P → Option D → Self };

    /// The handlers with this strategy and these handed-in handlers, and with these actions in the place of missing ones.
    /// Example: `Handlers::with_handlers(strategy, None, DegradationAction::Warn, Some(at_full), None)`
    fn with_handlers(
        strategy: BackpressureStrategy,
        backpressure: Option<BackpressureAction>,
        degradation: DegradationAction,
        at_full: Option<P>,
        at_failure: Option<D>,
    ) -> Self
        ensures { result ≡ handled strategy backpressure degradation at_full at_failure };

    // without handed-in handlers they are those that are made of the actions alone
    ghost unhandled: { (strategy : BackpressureStrategy) (action : Option BackpressureAction) (degrading : DegradationAction)
        → handled strategy action degrading None None ≡ Self.fixed strategy action degrading };
}

impl TakesHandlers<BackpressureHandler, DegradationHandler> for Handlers {
    ghost handled = { λ strategy action degrading at_full at_failure. record {
      strategy = strategy;
      backpressure = option_or at_full (option_map (λ named. full.Fixed named) action);
      degradation = unwrap_or at_failure (failed.Fixed degrading);
    } };

    ghost unhandled = { λ strategy action degrading. refl };

    fn with_handlers(
        strategy: BackpressureStrategy,
        backpressure: Option<BackpressureAction>,
        degradation: DegradationAction,
        at_full: Option<BackpressureHandler>,
        at_failure: Option<DegradationHandler>,
    ) -> Self
        ensures { result ≡ record {
          strategy = strategy;
          backpressure = option_or at_full (option_map (λ named. full.Fixed named) backpressure);
          degradation = unwrap_or at_failure (failed.Fixed degradation);
        } }
    {
        let named = match backpressure {
            Some(action) => Some(BackpressureHandler::Fixed(action)),
            None => None,
        };
        Handlers {
            strategy,
            backpressure: match at_full {
                Some(handler) => Some(handler),
                None => named,
            },
            degradation: match at_failure {
                Some(handler) => handler,
                None => DegradationHandler::Fixed(degradation),
            },
        }
    }
}
