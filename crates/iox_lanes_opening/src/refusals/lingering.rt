//! Loans and samples that exist, and closed ports that still exist.
ghost use Rattle.std.specs.Prelude.{◌≡◌};
ghost use Rattle.std.specs.List.{list_any};
ghost use Rattle.iox_domain.specs.DomainPorts.Ports.{connection_of};
ghost use Rattle.iox_domain.specs.DomainPorts.Subscribing.{attached_at};
ghost use Rattle.iox_lanes_opening.specs.Lingering.{connection_lingers, has_out, is_listed_publisher, publisher_lingers, leads_nowhere};
ghost use Rattle.iox_lanes_opening.specs.Lingering.{has_left_over, is_listed_subscriber, subscriber_lingers, is_lingering};

use crate::refusals::each_asked::{Question, has_such};
use iox_domain::ports::ServicePorts;
use iox_domain_ports::{PublisherPort, Publishers, SubscriberPort};

/// Whether a loan or a sample exists, a connection of a closed publisher still exists, expired or at its place, or a closed port still
/// exists.
pub fn is_lingering<T: Copy, U: Copy>(ports: &ServicePorts<T, U>) -> bool
    ensures { result ≡ is_lingering ports.now }
{
    has_such(ports, Question::Lingering) || has_lingering_subscriber(ports)
}

/// Whether a publisher is closed or isn't listed at its place, has a loan, or has a connection that ended or has a borrowed message.
pub(crate) fn publisher_lingers<T: Copy, U: Copy>(
    ports: &ServicePorts<T, U>,
    number: u64,
    port: &PublisherPort<T, U>,
) -> bool
    ensures { result ≡ publisher_lingers ports.now.publisher_list (number, port.now) }
{
    !port.stands || !is_listed_publisher(ports, number, port) || has_out(port)
}

// Whether the publisher with this number is listed at its place.
fn is_listed_publisher<T: Copy, U: Copy>(
    ports: &ServicePorts<T, U>,
    number: u64,
    port: &PublisherPort<T, U>,
) -> bool
    ensures { result ≡ is_listed_publisher ports.now.publisher_list number port.now }
{
    match ports.publisher_list.listed().get(port.place) {
        Some(Some(member)) => member.value.publisher == number,
        Some(None) | None => false,
    }
}

// Whether a publisher has a loan, or one of its connections ended or has a borrowed message.
fn has_out<T: Copy, U: Copy>(port: &PublisherPort<T, U>) -> bool
    ensures { result ≡ has_out port.now }
{
    0 < port.sender.slots().loans() || has_lingering_connection(port)
}

fn has_lingering_connection<T: Copy, U: Copy>(port: &PublisherPort<T, U>) -> bool
    ensures { result ≡ list_any connection_lingers port.now.sender.uses.connections }
{
    for index in 0..port.sender.indices() {
        if connection_lingers(port, index) {
            return true;
        }
    }
    false
}

// Whether the connection with this index ended and still exists, or a message of it is borrowed.
fn connection_lingers<T: Copy, U: Copy>(port: &PublisherPort<T, U>, index: usize) -> bool
    ensures { result ≡ connection_lingers (connection_of index port.now) }
{
    match port.sender.link(index) {
        Some(link) if link.is_ended() => true,
        Some(link) => 0 < link.borrowed(),
        None => false,
    }
}

fn has_lingering_subscriber<T: Copy, U: Copy>(ports: &ServicePorts<T, U>) -> bool
    ensures { result ≡ list_any (subscriber_lingers ports.now.subscriber_list ports.now.publishers) ports.now.subscribers }
{
    for (number, port) in ports.subscribers.iter() {
        if subscriber_lingers(ports, *number, port) {
            return true;
        }
    }
    false
}

// Whether a subscriber is closed or isn't listed at its place, holds a sample, or has a connection that expired or comes from a closed
// publisher.
fn subscriber_lingers<T: Copy, U: Copy>(
    ports: &ServicePorts<T, U>,
    number: u64,
    port: &SubscriberPort,
) -> bool
    ensures { result ≡ subscriber_lingers ports.now.subscriber_list ports.now.publishers (number, port.now) }
{
    !port.stands
        || !is_listed_subscriber(ports, number, port)
        || has_left_over(&ports.publishers, port)
}

// Whether the subscriber with this number is listed at its place.
fn is_listed_subscriber<T: Copy, U: Copy>(
    ports: &ServicePorts<T, U>,
    number: u64,
    port: &SubscriberPort,
) -> bool
    ensures { result ≡ is_listed_subscriber ports.now.subscriber_list number port.now }
{
    match ports.subscriber_list.listed().get(port.place) {
        Some(Some(member)) => member.value.subscriber == number,
        Some(None) | None => false,
    }
}

// Whether a subscriber holds a sample, or a connection of it expired or comes from a closed publisher.
fn has_left_over<T: Copy, U: Copy>(publishers: &Publishers<T, U>, port: &SubscriberPort) -> bool
    ensures { result ≡ has_left_over publishers.now port.now }
{
    0 < port.held || 0 < port.expired.len() || leads_nowhere(publishers, port)
}

fn leads_nowhere<T: Copy, U: Copy>(publishers: &Publishers<T, U>, port: &SubscriberPort) -> bool
    ensures { result ≡ list_any (leads_nowhere publishers.now) port.now.connections.values }
{
    for key in 0..port.connections.reached() {
        if leads_nowhere_by(publishers, port, key) {
            return true;
        }
    }
    false
}

// Whether the connection with this key comes from a closed publisher.
fn leads_nowhere_by<T: Copy, U: Copy>(
    publishers: &Publishers<T, U>,
    port: &SubscriberPort,
    key: usize,
) -> bool
    ensures { result ≡ leads_nowhere publishers.now (attached_at key port.now) }
{
    match port.attached(key) {
        Some(attached) => !publishers.stands(attached.publisher),
        None => false,
    }
}
