//! Each number is given to at most one port.
ghost use Rattle.iox_domain.specs.DomainValues.declared.degradation.DegradationCause.TheVariants as cause;
ghost use Rattle.iox_domain.specs.NumberLaws.{NumbersStay};

use iox_domain_values::{Decides, Degrades, Overrides};

/// The number of each port is below the next one, in a new service and after each call, whatever the handlers answer. This is a
/// theorem: the function does nothing.
pub fn numbers_stay<T, U, O: Overrides, B: Decides + Degrades>(_overriding: &O, _handlers: &B)
    ensures { NumbersStay T U (O.overrides _overriding.now)
        (B.degrades _handlers.now cause.FailedToEstablishConnection)
        (B.decides _handlers.now) }
{}
