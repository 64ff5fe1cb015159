//! How much is alive: open ports, loans and samples.
ghost use Rattle.std.specs.Prelude.{◌≡◌, ◌+◌, ◌-◌, ◌^◌, min};
ghost use Rattle.iox_domain_ports.specs.Living.{living_of_publisher, living_of_subscriber, counted};

use crate::PublisherPort;
use crate::subscriber_port::SubscriberPort;

/// How much of a publisher is alive: itself while it is open, each of its loans, and the message of a send that isn't finished.
/// At most 2^64 - 1 is answered.
pub fn living_of_publisher<T: Copy, U: Copy>(port: &PublisherPort<T, U>) -> u64
    ensures { result ≡ min (living_of_publisher port.now) (2 ^ 64 - 1) }
{
    let sending = u64::from(port.sender.is_sending());
    let loans = (port.sender.slots().loans() as u64).saturating_add(sending);
    u64::from(port.stands).saturating_add(loans)
}

/// How much of a subscriber is alive: itself while it is open, and each sample that it received and that is held.
/// At most 2^64 - 1 is answered.
pub fn living_of_subscriber(port: &SubscriberPort) -> u64
    ensures { result ≡ min (living_of_subscriber port.now) (2 ^ 64 - 1) }
{
    u64::from(port.stands).saturating_add(port.held as u64)
}

/// The count of a port of owner `number`, if that is the named owner or none is named; otherwise 0.
pub fn counted(owner: Option<u64>, number: u64, count: u64) -> u64
    ensures { result ≡ counted owner number count }
{
    match owner {
        Some(owner) if owner != number => 0,
        _ => count,
    }
}

/// The sum of both counts, at most 2^64 - 1.
pub fn add(count: u64, more: u64) -> u64
    ensures { result ≡ min (count + more) (2 ^ 64 - 1) }
{
    count.saturating_add(more)
}
