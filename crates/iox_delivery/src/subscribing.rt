//! The calls that a subscriber of single values and one of slices, and their samples, have in common, by port and message.
ghost use Rattle.iox_domain.specs.Homes as homes;
ghost use Rattle.std.specs.Prelude.{◌≡◌, true, Some, option_map};
ghost use Rattle.iox_delivery.specs.Holding.{subscriber_stands, message_found, holds_message};
ghost use Rattle.iox_delivery.specs.Subscribing.{header_found, FollowsPublishers, TellsSamples, TakesMessage, SubscriberGoes};
ghost use Rattle.iox_delivery.specs.Subscribing.{EndsSubscriber, ReleasesSample, DropsSample};

use crate::port_id::PortId;
use iox_describe_base::Header;
use iox_domain::{Home, calls};
use iox_domain_ports::Taken;
use iox_domain_values::{ConnectionFailure, ReceiveError};
use std::alloc::Global;

/// Whether the subscriber is open.
///
/// Not in `iceoryx2`.
/// Example: `let is_there = subscribing::holds(port, home);`
pub fn holds<T: Copy, U: Copy, H: Home<T, U>>(port: PortId, home: &H) -> bool
    ensures { result ≡ subscriber_stands port.number (homes.ports_of H.domain_of port.domain home.now) }
{
    let Some(ports) = calls::ports(home, port.domain) else {
        return false;
    };
    match ports.subscribers.get(port.number) {
        Some(subscriber) => subscriber.stands,
        None => false,
    }
}

/// Whether some connection of the subscriber has data, after it followed the list of publishers. The call fails if following
/// the list does.
///
/// Ported from `iceoryx2::port::subscriber::Subscriber::has_samples`.
/// Example: `let has = subscribing::has_samples(port, alloc, home)?;`
pub fn has_samples<T: Copy, U: Copy, H: Home<T, U>>(
    port: PortId,
    alloc: Global,
    home: &mut H,
) -> Result<bool, ConnectionFailure>
    requires { subscriber_stands port.number (homes.ports_of H.domain_of port.domain home.old) ≡ true }
    ensures { TellsSamples (homes.ports_of H.domain_of) (homes.with_ports H.changed)
        (homes.subscriber_degrades (λ kept. H.ForSubscribers.degrades kept) H.domain_of) port home.old result home.new }
{
    match calls::has_samples(home, alloc, port.domain, port.number) {
        Some(outcome) => outcome,
        None => unreachable!(),
    }
}

/// The subscriber receives the next message, if one waits: `ServicePorts::receive` says which one, and when the call fails.
///
/// Ported from `iceoryx2::port::subscriber::Subscriber::receive`.
/// Example: `let taken = subscribing::take(port, alloc, home)?;`
pub fn take<T: Copy, U: Copy, H: Home<T, U>>(
    port: PortId,
    alloc: Global,
    home: &mut H,
) -> Result<Option<Taken>, ReceiveError>
    requires { subscriber_stands port.number (homes.ports_of H.domain_of port.domain home.old) ≡ true }
    ensures { TakesMessage (homes.ports_of H.domain_of) (homes.with_ports H.changed)
        (homes.subscriber_degrades (λ kept. H.ForSubscribers.degrades kept) H.domain_of) port home.old result home.new }
{
    match calls::receive(home, alloc, port.domain, port.number) {
        Some(outcome) => outcome,
        None => unreachable!(),
    }
}

/// The subscriber follows the list of publishers: `ServicePorts::update_subscriber` says what that does, and when it fails.
///
/// Ported from `iceoryx2::port::update_connections::UpdateConnections`.
/// Example: `subscribing::update(port, alloc, home)?;`
pub fn update<T: Copy, U: Copy, H: Home<T, U>>(
    port: PortId,
    alloc: Global,
    home: &mut H,
) -> Result<(), ConnectionFailure>
    requires { subscriber_stands port.number (homes.ports_of H.domain_of port.domain home.old) ≡ true }
    ensures { FollowsPublishers (homes.ports_of H.domain_of) (homes.with_ports H.changed)
        (homes.subscriber_degrades (λ kept. H.ForSubscribers.degrades kept) H.domain_of) port home.old result home.new }
{
    match calls::update_subscriber(home, alloc, port.domain, port.number) {
        Some(outcome) => outcome,
        None => unreachable!(),
    }
}

/// Drops the subscriber: it is closed, and its handler is dropped, if it is open; otherwise nothing happens. The call answers
/// whether the subscriber was closed.
///
/// Ported from dropping an `iceoryx2::port::subscriber::Subscriber`.
/// Example: `let has_left = subscribing::drop_port(port, home);`
#[tactic(auto, using(crate::proofs::Ending::subscriber_end_tells))]
pub fn drop_port<T: Copy, U: Copy, H: Home<T, U>>(port: PortId, home: &mut H) -> bool
    ensures ends { EndsSubscriber (homes.ports_of H.domain_of) (homes.with_ports H.changed) (homes.without_subscriber H.changed) port
        home.old result home.new }
    ensures left { result ≡ subscriber_stands port.number (homes.ports_of H.domain_of port.domain home.old) }
{
    calls::leave_subscriber(home, port.domain, port.number)
}

/// Closes the subscriber, and drops its handler.
///
/// Ported from dropping an `iceoryx2::port::subscriber::Subscriber`.
/// Example: `subscribing::leave(port, home);`
pub fn leave<T: Copy, U: Copy, H: Home<T, U>>(port: PortId, home: &mut H)
    requires { subscriber_stands port.number (homes.ports_of H.domain_of port.domain home.old) ≡ true }
    ensures { SubscriberGoes (homes.ports_of H.domain_of) (homes.with_ports H.changed) (homes.without_subscriber H.changed) port
        home.old home.new }
{
    if !calls::leave_subscriber(home, port.domain, port.number) {
        unreachable!();
    }
}

/// The values of a held message.
///
/// Ported from `iceoryx2::sample::Sample::payload`.
/// Example: `let first = subscribing::values(port, taken, home).get(0);`
pub fn values<'a, T: Copy, U: Copy, H: Home<T, U>>(
    port: PortId,
    taken: Taken,
    home: &'a H,
) -> &'a [T]
where
    T: 'a,
    U: 'a,
    requires { holds_message port.number taken (homes.ports_of H.domain_of port.domain home.now) ≡ true }
    ensures { Some result.now ≡ option_map (λ message. message.values)
        (message_found taken (homes.ports_of H.domain_of port.domain home.now)) }
{
    let Some(ports) = calls::ports(home, port.domain) else {
        unreachable!();
    };
    match ports.payload(taken) {
        Some(values) => values,
        None => unreachable!(),
    }
}

/// The user header of a held message.
///
/// Ported from `iceoryx2::sample::Sample::user_header`.
/// Example: `let stamp = *subscribing::user_header(port, taken, home);`
pub fn user_header<'a, T: Copy, U: Copy, H: Home<T, U>>(
    port: PortId,
    taken: Taken,
    home: &'a H,
) -> &'a U
where
    T: 'a,
    U: 'a,
    requires { holds_message port.number taken (homes.ports_of H.domain_of port.domain home.now) ≡ true }
    ensures { Some result.now ≡ option_map (λ message. message.user_header)
        (message_found taken (homes.ports_of H.domain_of port.domain home.now)) }
{
    let Some(ports) = calls::ports(home, port.domain) else {
        unreachable!();
    };
    match ports.user_header(taken) {
        Some(user_header) => user_header,
        None => unreachable!(),
    }
}

/// What the header of a held message says: the node and the publisher that sent the message, how many elements it has, and its
/// sequence number, if the service numbers messages.
///
/// Ported from `iceoryx2::sample::Sample::header`.
/// Example: `let header = subscribing::header(port, taken, home);`
pub fn header<T: Copy, U: Copy, H: Home<T, U>>(port: PortId, taken: Taken, home: &H) -> Header
    requires { holds_message port.number taken (homes.ports_of H.domain_of port.domain home.now) ≡ true }
    ensures { Some result ≡ header_found taken (homes.ports_of H.domain_of port.domain home.now) }
{
    let Some(ports) = calls::ports(home, port.domain) else {
        unreachable!();
    };
    match ports.header(taken) {
        Some(header) => header,
        None => unreachable!(),
    }
}

/// Releases a held message.
///
/// Ported from dropping an `iceoryx2::sample::Sample`.
/// Example: `subscribing::release(port, taken, home);`
pub fn release<T: Copy, U: Copy, H: Home<T, U>>(port: PortId, taken: Taken, home: &mut H)
    requires { holds_message port.number taken (homes.ports_of H.domain_of port.domain home.old) ≡ true }
    ensures { ReleasesSample (homes.ports_of H.domain_of) (homes.with_ports H.changed) port taken home.old home.new }
{
    let Some(ports) = calls::ports_mut(home, port.domain) else {
        unreachable!();
    };
    if !ports.release(port.number, taken) {
        unreachable!();
    }
}

/// Drops a message: it is released, if it is held; otherwise nothing happens. The call answers whether it was released.
///
/// Ported from dropping an `iceoryx2::sample::Sample`.
/// Example: `let was_held = subscribing::drop_sample(port, taken, home);`
#[tactic(auto, using(crate::proofs::Ending::drop_tells))]
pub fn drop_sample<T: Copy, U: Copy, H: Home<T, U>>(
    port: PortId,
    taken: Taken,
    home: &mut H,
) -> bool
    ensures drops { DropsSample (homes.ports_of H.domain_of) (homes.with_ports H.changed) port taken home.old result home.new }
    ensures was_held { result ≡ holds_message port.number taken (homes.ports_of H.domain_of port.domain home.old) }
{
    match calls::ports_mut(home, port.domain) {
        Some(ports) => ports.release(port.number, taken),
        None => false,
    }
}

/// Whether this subscriber received the message and holds it.
///
/// Not in `iceoryx2`.
/// Example: `let is_held = subscribing::holds_message(port, taken, home);`
pub fn holds_message<T: Copy, U: Copy, H: Home<T, U>>(port: PortId, taken: Taken, home: &H) -> bool
    ensures { result ≡ holds_message port.number taken (homes.ports_of H.domain_of port.domain home.now) }
{
    match calls::ports(home, port.domain) {
        Some(ports) => {
            ports.subscribers.get(port.number).is_some()
                && ports.payload(taken).is_some()
                && taken.subscriber == port.number
        }
        None => false,
    }
}
