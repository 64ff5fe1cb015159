//! How many more loans may be made.
ghost use Rattle.std.specs.Prelude.{◌≡◌, ◌-◌, ◌^◌, min};
ghost use Rattle.iox_domain.specs.DomainValues.declared.degradation.DegradationCause.TheVariants as cause;
ghost use Rattle.iox_domain.specs.Loans.{spare_loans, loans_left, LoansLeft};

use crate::ports::ServicePorts;
use iox_domain_ports::PublisherPort;
use iox_domain_ports::living::add;
use iox_domain_values::{Decides, Degrades, Overrides};

/// How many more loans the publishers of a service may make: each open one as many as its limit, less those that exist. At most
/// 2^64 - 1 is answered.
pub fn loans_left<T: Copy, U: Copy>(ports: &ServicePorts<T, U>) -> u64
    ensures { result ≡ min (loans_left ports.now) (2 ^ 64 - 1) }
{
    let mut left = 0;
    for (_number, port) in ports.publishers.iter() {
        left = add(left, spare_loans(port));
    }
    left
}

// How many more loans the publisher may make.
fn spare_loans<T: Copy, U: Copy>(port: &PublisherPort<T, U>) -> u64
    ensures { result ≡ min (spare_loans port.now) (2 ^ 64 - 1) }
{
    if !port.stands {
        return 0;
    }
    let slots = port.sender.slots();
    slots.most_loans().saturating_sub(slots.loans()) as u64
}

/// In a new service no loan may be made. A call raises this number at most by one for a loan that it dropped or began to send, and by
/// the limit of loans of a publisher that it created; a loan that it made lowers the number by one. What a closed publisher could
/// still make no longer counts. This holds whatever the override and the handlers answer. This is a theorem: the function does
/// nothing.
pub fn loans_left_by_calls<T, U, O: Overrides, B: Decides + Degrades>(
    _overriding: &O,
    _handlers: &B,
)
    ensures { LoansLeft T U (O.overrides _overriding.now)
        (B.degrades _handlers.now cause.FailedToEstablishConnection)
        (B.decides _handlers.now) }
{}
