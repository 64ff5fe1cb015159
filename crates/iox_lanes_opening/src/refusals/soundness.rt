//! States of the ports of a service that no calls leave.
ghost use Rattle.std.specs.Prelude.{◌≡◌, true};
ghost use Rattle.std.specs.List.{list_any};
ghost use Rattle.iox_domain.specs.DomainPorts.Ports.{connection_of};
ghost use Rattle.iox_domain.specs.DomainPorts.Subscribing.{attached_at};
ghost use Rattle.iox_domain.specs.DomainSlots.Uses.{is_there};
ghost use Rattle.iox_lanes_opening.specs.Listed.{holds_at, of_each_listed};
ghost use Rattle.iox_lanes_opening.specs.Soundness.{are_placed, is_misfit, is_publisher_placed, is_subscriber_placed};
ghost use Rattle.iox_lanes_opening.specs.Soundness.{attaches_twice, comes_again, is_misnumbered, is_unsound, remembers_ill};
ghost use Rattle.iox_lanes_opening.specs.Soundness.{share_publisher, waits_ill};

use crate::refusals::each_asked::{Question, has_such};
use crate::refusals::shared_slots::{Messages, has_twice};
use iox_domain::ports::ServicePorts;
use iox_domain_ports::reading::{limit_at, waiting_at};
use iox_domain_ports::{
    Attached, Member, PublisherEntry, PublisherPort, SubscriberEntry, SubscriberPort,
};
use iox_domain_values::ServiceSizes;

/// Whether the ports are in a state that no calls leave, provided that no publisher's capacity may grow: a port is listed at another place
/// than its own; a publisher has slots of several segments, has another history size than agreed, or has sequence numbers though the
/// service doesn't, or the reverse; the maximum number of waiting messages of a connection is 0 or more than agreed; a history or a mailbox
/// has more messages than its maximum, or two in one slot; or two connections of a subscriber come from one publisher.
pub fn is_unsound<T: Copy, U: Copy>(ports: &ServicePorts<T, U>) -> bool
    ensures { result ≡ is_unsound ports.now }
{
    !are_placed(ports) || has_such(ports, Question::Misfit) || has_attached_twice(ports)
}

// Whether each port is listed only at its own place.
fn are_placed<T: Copy, U: Copy>(ports: &ServicePorts<T, U>) -> bool
    ensures { result ≡ are_placed ports.now }
{
    are_publishers_placed(ports) && are_subscribers_placed(ports)
}

fn are_publishers_placed<T: Copy, U: Copy>(ports: &ServicePorts<T, U>) -> bool
    ensures { result ≡ of_each_listed (is_publisher_placed ports.now) 0 ports.now.publisher_list.places }
{
    let listed = ports.publisher_list.listed();
    for place in 0..listed.len() {
        if !is_publisher_placed_at(ports, place, listed[place]) {
            return false;
        }
    }
    true
}

fn is_publisher_placed_at<T: Copy, U: Copy>(
    ports: &ServicePorts<T, U>,
    place: usize,
    listed: Option<Member<PublisherEntry>>,
) -> bool
    ensures { result ≡ holds_at (is_publisher_placed ports.now) place listed }
{
    match listed {
        Some(member) => is_publisher_placed(ports, place, member.value),
        None => true,
    }
}

// Whether the publisher that is listed at this place has this place.
fn is_publisher_placed<T: Copy, U: Copy>(
    ports: &ServicePorts<T, U>,
    place: usize,
    entry: PublisherEntry,
) -> bool
    ensures { result ≡ is_publisher_placed ports.now place entry }
{
    match ports.publishers.get(entry.publisher) {
        Some(port) => port.place == place,
        None => false,
    }
}

fn are_subscribers_placed<T: Copy, U: Copy>(ports: &ServicePorts<T, U>) -> bool
    ensures { result ≡ of_each_listed (is_subscriber_placed ports.now) 0 ports.now.subscriber_list.places }
{
    let listed = ports.subscriber_list.listed();
    for place in 0..listed.len() {
        if !is_subscriber_placed_at(ports, place, listed[place]) {
            return false;
        }
    }
    true
}

fn is_subscriber_placed_at<T: Copy, U: Copy>(
    ports: &ServicePorts<T, U>,
    place: usize,
    listed: Option<Member<SubscriberEntry>>,
) -> bool
    ensures { result ≡ holds_at (is_subscriber_placed ports.now) place listed }
{
    match listed {
        Some(member) => is_subscriber_placed(ports, place, member.value),
        None => true,
    }
}

// Whether the subscriber that is listed at this place has this place.
fn is_subscriber_placed<T: Copy, U: Copy>(
    ports: &ServicePorts<T, U>,
    place: usize,
    entry: SubscriberEntry,
) -> bool
    ensures { result ≡ is_subscriber_placed ports.now place entry }
{
    match ports.subscribers.get(entry.subscriber) {
        Some(port) => port.place == place,
        None => false,
    }
}

/// Whether a publisher has slots of several segments, doesn't have what the service agreed on, or has messages that don't keep to the
/// agreement.
pub(crate) fn is_misfit<T: Copy, U: Copy>(sizes: ServiceSizes, port: &PublisherPort<T, U>) -> bool
    ensures { result ≡ is_misfit sizes port.now }
{
    is_misnumbered(sizes, port)
        || 0 < port.sender.slots().first()
        || port.sender.slots().kept() != sizes.history_size as usize
        || remembers_ill(sizes, port)
        || has_ill_connection(sizes, port)
}

// Whether a publisher has sequence numbers though the service doesn't, or the reverse.
fn is_misnumbered<T: Copy, U: Copy>(sizes: ServiceSizes, port: &PublisherPort<T, U>) -> bool
    ensures { result ≡ is_misnumbered sizes port.now }
{
    port.last_sequence.is_some() != sizes.sequence_numbers
}

// Whether a publisher's history has more messages than agreed, or two in one slot.
fn remembers_ill<T: Copy, U: Copy>(sizes: ServiceSizes, port: &PublisherPort<T, U>) -> bool
    ensures { result ≡ remembers_ill sizes port.now }
{
    (sizes.history_size as usize) < port.sender.slots().history()
        || has_twice(port, Messages::Remembered)
}

fn has_ill_connection<T: Copy, U: Copy>(sizes: ServiceSizes, port: &PublisherPort<T, U>) -> bool
    ensures { result ≡ list_any (waits_ill sizes) port.now.sender.uses.connections }
{
    for index in 0..port.sender.indices() {
        if waits_ill_at(sizes, port, index) {
            return true;
        }
    }
    false
}

fn waits_ill_at<T: Copy, U: Copy>(
    sizes: ServiceSizes,
    port: &PublisherPort<T, U>,
    index: usize,
) -> bool
    ensures { result ≡ waits_ill sizes (connection_of index port.now) }
{
    match port.sender.link(index) {
        Some(_) => waits_ill(sizes, port, index),
        None => false,
    }
}

// Whether the maximum number of waiting messages of a connection is 0 or more than agreed, or more messages wait there than this maximum,
// or two of them are in one slot.
fn waits_ill<T: Copy, U: Copy>(
    sizes: ServiceSizes,
    port: &PublisherPort<T, U>,
    index: usize,
) -> bool
    requires { is_there (connection_of index port.now) ≡ true }
    ensures { result ≡ waits_ill sizes (connection_of index port.now) }
{
    let limit = limit_at(port, index);
    limit == 0
        || (sizes.subscriber_max_buffer_size as usize) < limit
        || limit < waiting_at(port, index)
        || has_twice(port, Messages::Waiting(index))
}

fn has_attached_twice<T: Copy, U: Copy>(ports: &ServicePorts<T, U>) -> bool
    ensures { result ≡ list_any (λ entry. attaches_twice entry.1) ports.now.subscribers }
{
    for (_number, port) in ports.subscribers.iter() {
        if attaches_twice(port) {
            return true;
        }
    }
    false
}

// Whether two connections of a subscriber come from one publisher.
fn attaches_twice(port: &SubscriberPort) -> bool
    ensures { result ≡ attaches_twice port.now }
{
    for key in 0..port.connections.reached() {
        if comes_again(port, key) {
            return true;
        }
    }
    false
}

// Whether the connection with this key comes from the publisher of an earlier one.
fn comes_again(port: &SubscriberPort, key: usize) -> bool
    ensures { result ≡ comes_again port.now key }
{
    for other in 0..key {
        if share_publisher(port.attached(other), port.attached(key)) {
            return true;
        }
    }
    false
}

fn share_publisher(one: Option<Attached>, other: Option<Attached>) -> bool
    ensures { result ≡ share_publisher one other }
{
    match (one, other) {
        (Some(one), Some(other)) => one.publisher == other.publisher,
        _ => false,
    }
}
