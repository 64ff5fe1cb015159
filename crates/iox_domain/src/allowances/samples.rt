//! How many more samples the subscribers of a service may receive, beyond those that they hold, and how each call of a port
//! changes that. The theorem is the contract of a function that does nothing. A proof cites a theorem by calling its function;
//! what the theorem states is then among the facts of the caller:
//!
//! ```
//! samples_left_by_calls::<T, U, O, B>(overriding, handlers);
//! ```
ghost use Rattle.std.specs.Prelude.{◌≡◌, ◌≤◌, ◌-◌, ◌^◌, min};
ghost use Rattle.iox_domain.specs.DomainValues.declared.degradation.DegradationCause.TheVariants as cause;
ghost use Rattle.iox_domain.specs.SampleLaws.{SamplesLeft};
ghost use Rattle.iox_domain.specs.Samples.{samples_left, samples_at_most, most_held, held_by_one, held_of_one};

use crate::ports::ServicePorts;
use iox_domain_ports::SubscriberPort;
use iox_domain_ports::living::add;
use iox_domain_values::{Decides, Degrades, Overrides};

/// How many samples the subscribers of a service may hold at once: each open subscriber as many as the limit of a connection, for
/// each existing publisher. At most as many more may be received. At most 2^64 - 1 is answered.
pub fn samples_at_most<T: Copy, U: Copy>(ports: &ServicePorts<T, U>) -> u64
    ensures value { result ≡ min (samples_at_most ports.now) (2 ^ 64 - 1) }
    ensures enough { samples_left ports.now ≤ samples_at_most ports.now }
{
    let mut count = 0;
    for (_number, port) in ports.subscribers.iter() {
        count = add(count, most_held(ports, port));
    }
    count
}

// How many samples the subscriber may hold at once.
fn most_held<T: Copy, U: Copy>(ports: &ServicePorts<T, U>, port: &SubscriberPort) -> u64
    ensures { result ≡ min (most_held ports.now.sizes.subscriber_max_borrowed_samples port.now ports.now.publishers) (2 ^ 64 - 1) }
{
    if !port.stands {
        return 0;
    }
    held_by_one(ports)
}

/// How many samples a new subscriber of the service may hold at once, of the existing publishers. At most 2^64 - 1 is answered.
pub fn held_by_one<T: Copy, U: Copy>(ports: &ServicePorts<T, U>) -> u64
    ensures { result ≡ min (held_by_one ports.now) (2 ^ 64 - 1) }
{
    (ports.publishers.len() as u64).saturating_mul(
        ports.sizes.subscriber_max_borrowed_samples as u64,
    )
}

/// How many samples of a new publisher of the service may be held at once, by the existing subscribers. At most 2^64 - 1 is
/// answered.
pub fn held_of_one<T: Copy, U: Copy>(ports: &ServicePorts<T, U>) -> u64
    ensures { result ≡ min (held_of_one ports.now) (2 ^ 64 - 1) }
{
    (ports.subscribers.len() as u64).saturating_mul(
        ports.sizes.subscriber_max_borrowed_samples as u64,
    )
}

/// How many more samples the subscribers of a service may receive, beyond those that they hold. In a new service it is none. A call
/// raises this number at most by the samples that it releases and by those that may be held because of a port that it creates; a
/// sample that it receives lowers the number by one. This holds whatever the override and the handlers answer. So a caller that
/// reserves, with each new port, capacity for as many samples as may be held because of it always has capacity for a received sample.
/// This is a theorem: the function does nothing.
pub fn samples_left_by_calls<T, U, O: Overrides, B: Decides + Degrades>(
    _overriding: &O,
    _handlers: &B,
)
    ensures { SamplesLeft T U (O.overrides _overriding.now)
        (B.degrades _handlers.now cause.FailedToEstablishConnection)
        (B.decides _handlers.now) }
{}
