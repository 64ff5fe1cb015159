//! Whether each port has followed the current list of the other side, and is connected to its ports.
ghost use Rattle.std.specs.Prelude.{◌≡◌, get_or, None};
ghost use Rattle.iox_domain.specs.Rolls.{is_listed};
ghost use Rattle.iox_lanes_opening.specs.Listed.{holds_at, of_each_listed};
ghost use Rattle.iox_lanes_opening.specs.UpToDate.{is_reader, is_read_by, reads_from, is_joined_to, is_connected, is_current_publisher};
ghost use Rattle.iox_lanes_opening.specs.UpToDate.{has_stray_tie, is_stray, is_current_subscriber, is_up_to_date};

use iox_domain::ports::{Roll, ServicePorts};
use iox_domain_ports::{Member, PublisherEntry, PublisherPort, SubscriberEntry, SubscriberPort};

/// Whether each listed port has followed the current list of the other side, and each listed publisher is connected to each listed
/// subscriber: the subscriber's place is tied to a live connection of the publisher, and the subscriber reads there by the key that it has
/// for the publisher's place. A place where nobody is listed must not be tied to a connection of a listed publisher; no calls leave such a
/// place tied after the list was followed.
pub fn is_up_to_date<T: Copy, U: Copy>(ports: &ServicePorts<T, U>) -> bool
    ensures { result ≡ is_up_to_date ports.now }
{
    are_publishers_current(ports) && are_subscribers_current(ports)
}

fn are_publishers_current<T: Copy, U: Copy>(ports: &ServicePorts<T, U>) -> bool
    ensures { result ≡ of_each_listed (is_current_publisher ports.now) 0 ports.now.publisher_list.places }
{
    let listed = ports.publisher_list.listed();
    for place in 0..listed.len() {
        if !is_current_publisher_at(ports, place, listed[place]) {
            return false;
        }
    }
    true
}

fn is_current_publisher_at<T: Copy, U: Copy>(
    ports: &ServicePorts<T, U>,
    place: usize,
    listed: Option<Member<PublisherEntry>>,
) -> bool
    ensures { result ≡ holds_at (is_current_publisher ports.now) place listed }
{
    match listed {
        Some(member) => is_current_publisher(ports, place, member.value),
        None => true,
    }
}

fn is_current_publisher<T: Copy, U: Copy>(
    ports: &ServicePorts<T, U>,
    place: usize,
    entry: PublisherEntry,
) -> bool
    ensures { result ≡ is_current_publisher ports.now place entry }
{
    match ports.publishers.get(entry.publisher) {
        Some(port) => port.seen == ports.subscriber_list.changes()
            && is_connected_to_all(ports, place, entry.publisher, port)
            && !has_stray_tie(&ports.subscriber_list, port),
        None => false,
    }
}

// Whether a publisher is connected to each listed subscriber.
fn is_connected_to_all<T: Copy, U: Copy>(
    ports: &ServicePorts<T, U>,
    place: usize,
    number: u64,
    port: &PublisherPort<T, U>,
) -> bool
    ensures { result ≡ of_each_listed (is_connected place number port.now ports.now.subscribers) 0 ports.now.subscriber_list.places }
{
    let listed = ports.subscriber_list.listed();
    for other in 0..listed.len() {
        if !is_connected_at(ports, place, number, port, other, listed[other]) {
            return false;
        }
    }
    true
}

fn is_connected_at<T: Copy, U: Copy>(
    ports: &ServicePorts<T, U>,
    place: usize,
    number: u64,
    port: &PublisherPort<T, U>,
    other: usize,
    listed: Option<Member<SubscriberEntry>>,
) -> bool
    ensures { result ≡ holds_at (is_connected place number port.now ports.now.subscribers) other listed }
{
    match listed {
        Some(member) => is_connected(ports, place, number, port, other, member.value),
        None => true,
    }
}

fn is_connected<T: Copy, U: Copy>(
    ports: &ServicePorts<T, U>,
    place: usize,
    number: u64,
    port: &PublisherPort<T, U>,
    other: usize,
    entry: SubscriberEntry,
) -> bool
    ensures { result ≡ is_connected place number port.now ports.now.subscribers other entry }
{
    match ports.subscribers.get(entry.subscriber) {
        Some(subscriber) => is_joined_to(place, number, port, other, entry.subscriber, subscriber),
        None => false,
    }
}

// Whether a publisher and a subscriber share a connection.
fn is_joined_to<T: Copy, U: Copy>(
    place: usize,
    number: u64,
    port: &PublisherPort<T, U>,
    other: usize,
    reader: u64,
    subscriber: &SubscriberPort,
) -> bool
    ensures { result ≡ is_joined_to place number port.now other reader subscriber.now }
{
    match port.ties.get(other) {
        Some(index) => is_read_by(port, reader, index)
            && reads_from(subscriber, place, number, index),
        None => false,
    }
}

// Whether the connection with this index is live, and this subscriber reads there.
fn is_read_by<T: Copy, U: Copy>(port: &PublisherPort<T, U>, reader: u64, index: usize) -> bool
    ensures { result ≡ is_read_by reader port.now index }
{
    port.is_live(index) && is_reader(port, reader, index)
}

fn is_reader<T: Copy, U: Copy>(port: &PublisherPort<T, U>, number: u64, index: usize) -> bool
    ensures { result ≡ is_reader number (get_or port.now.readers index None) }
{
    match port.readers.get(index) {
        Some(reader) => reader.subscriber == number && reader.attached,
        None => false,
    }
}

// Whether a subscriber has this publisher's connection by the key that it has for this place of the list of publishers.
fn reads_from(subscriber: &SubscriberPort, place: usize, publisher: u64, index: usize) -> bool
    ensures { result ≡ reads_from publisher index subscriber.now (get_or subscriber.now.places.items place None) }
{
    match subscriber.places.get(place) {
        Some(key) => match subscriber.attached(key) {
            Some(attached) => attached.publisher == publisher && attached.index == index,
            None => false,
        },
        None => false,
    }
}

// Whether a place where nobody is listed is tied to a connection of this publisher.
fn has_stray_tie<T: Copy, U: Copy>(list: &Roll<SubscriberEntry>, port: &PublisherPort<T, U>) -> bool
    ensures { result ≡ has_stray_tie list.now port.now }
{
    for place in 0..port.ties.len() {
        if is_stray(list, port, place) {
            return true;
        }
    }
    false
}

fn is_stray<T: Copy, U: Copy>(
    list: &Roll<SubscriberEntry>,
    port: &PublisherPort<T, U>,
    place: usize,
) -> bool
    ensures { result ≡ is_stray list.now port.now place }
{
    port.ties.get(place).is_some() && !lists_somebody(list, place)
}

// Whether somebody is listed at a place.
fn lists_somebody(list: &Roll<SubscriberEntry>, place: usize) -> bool
    ensures { result ≡ is_listed place list.now }
{
    match list.listed().get(place) {
        Some(Some(_member)) => true,
        Some(None) | None => false,
    }
}

fn are_subscribers_current<T: Copy, U: Copy>(ports: &ServicePorts<T, U>) -> bool
    ensures { result ≡ of_each_listed (λ at entry. is_current_subscriber ports.now entry) 0 ports.now.subscriber_list.places }
{
    let listed = ports.subscriber_list.listed();
    for place in 0..listed.len() {
        if !is_current_subscriber_at(ports, place, listed[place]) {
            return false;
        }
    }
    true
}

fn is_current_subscriber_at<T: Copy, U: Copy>(
    ports: &ServicePorts<T, U>,
    place: usize,
    listed: Option<Member<SubscriberEntry>>,
) -> bool
    ensures { result ≡ holds_at (λ at entry. is_current_subscriber ports.now entry) place listed }
{
    match listed {
        Some(member) => is_current_subscriber(ports, member.value),
        None => true,
    }
}

fn is_current_subscriber<T: Copy, U: Copy>(
    ports: &ServicePorts<T, U>,
    entry: SubscriberEntry,
) -> bool
    ensures { result ≡ is_current_subscriber ports.now entry }
{
    match ports.subscribers.get(entry.subscriber) {
        Some(port) => port.seen == ports.publisher_list.changes() && !port.again,
        None => false,
    }
}
