//! Theorems about domains and homes. They are the contracts of functions that do nothing.
ghost use Rattle.iox_domain.specs.DomainValues.declared.degradation.DegradationCause.TheVariants as cause;
ghost use Rattle.iox_domain.specs.HomesLaws.{AreApart};
ghost use Rattle.iox_domain.specs.PartsLaws.{PartsAgree};

use crate::home::Home;
use iox_domain_values::{Decides, Degrades, Overrides};

/// The parts of a new domain agree, and each call of its ports preserves this, whatever the override and the handlers answer.
/// So what `Domain::into_parts` gives meets the precondition of `Domain::of_parts`.
pub fn parts_agree<T, U, B: Decides + Degrades, D, O: Overrides>(_overriding: &O, _handlers: &B)
    ensures { PartsAgree T U B D (O.overrides _overriding.now)
        (B.degrades _handlers.now cause.FailedToEstablishConnection)
        (B.decides _handlers.now) }
{}

/// In every home, storing and removing a port's handlers changes the ports of no domain, and other ports in one domain change
/// no stored handlers.
pub fn parts_are_apart<T, U, H: Home<T, U>>(_home: &H)
    ensures { AreApart H.domain_of H.changed }
{}
