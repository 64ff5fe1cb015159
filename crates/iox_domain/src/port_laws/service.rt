//! The service to which ports belong, and what it allows.
ghost use Rattle.iox_domain.specs.DomainValues.declared.degradation.DegradationCause.TheVariants as cause;
ghost use Rattle.iox_domain.specs.ServiceLaws.{ServiceStays};
ghost use Rattle.iox_domain.specs.SizeLaws.{SizesAgree};

use iox_domain_values::{Decides, Degrades, Overrides};

/// No call of a port changes the service to which the ports belong, nor its limits, whatever the override and the handlers
/// answer. This is a theorem: the function does nothing.
pub fn service_stays<T, U, O: Overrides, B: Decides + Degrades>(_overriding: &O, _handlers: &B)
    ensures { ServiceStays T U (O.overrides _overriding.now)
        (B.degrades _handlers.now cause.FailedToEstablishConnection)
        (B.decides _handlers.now) }
{}

/// Each publisher is made for just what the service allows, from its creation until it is removed: whether a full mailbox drops
/// its oldest message, how many messages are kept for later subscribers, how many of each connection may wait and be borrowed,
/// and whether messages are numbered. No more messages of a connection wait, or are borrowed, than these limits allow. This
/// holds whatever was called before, and whatever the override and the handlers answered. This is a theorem: the function does
/// nothing.
pub fn sizes_agree<T, U, O: Overrides, B: Decides + Degrades>(_overriding: &O, _handlers: &B)
    ensures { SizesAgree T U (O.overrides _overriding.now)
        (B.degrades _handlers.now cause.FailedToEstablishConnection)
        (B.decides _handlers.now) }
{}
