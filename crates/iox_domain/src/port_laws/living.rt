//! How much is alive, and how each call changes that.
ghost use Rattle.iox_domain.specs.DomainValues.declared.degradation.DegradationCause.TheVariants as cause;
ghost use Rattle.iox_domain.specs.LivingLaws.{LivingTells};
ghost use Rattle.iox_domain.specs.LivingSteps.{PublisherSteps, SubscriberSteps, CreatingSteps};

use iox_domain_values::{Decides, Degrades, Overrides};

/// Nothing is alive in a new service. The count of all owners is 0 exactly if no port is open, no loan exists, no send is blocked
/// and no sample is held. The count of one owner is at most that of all. This is a theorem: the function does nothing.
pub fn living_tells<T, U>()
    ensures { LivingTells T U }
{}

/// How each call at a publisher changes the count of what is alive of its owner, whatever the handlers answer. This is a
/// theorem: the function does nothing.
pub fn publisher_steps<T, U, B: Decides + Degrades>(_handlers: &B)
    ensures { PublisherSteps T U (B.degrades _handlers.now cause.FailedToEstablishConnection) (B.decides _handlers.now) }
{}

/// How each call at a subscriber changes the count of what is alive of its owner, whatever the handler answers. This is a
/// theorem: the function does nothing.
pub fn subscriber_steps<T, U, D: Degrades>(_handler: &D)
    ensures { SubscriberSteps T U (D.degrades _handler.now cause.FailedToEstablishConnection) }
{}

/// A port that is created, under a new number, adds one to what is alive of its owner. This is a theorem: the function does
/// nothing.
pub fn creating_steps<T, U, O: Overrides, D: Degrades>(_overriding: &O, _handler: &D)
    ensures { CreatingSteps T U (O.overrides _overriding.now)
        (D.degrades _handler.now cause.FailedToEstablishConnection) }
{}
