//! Publishers and messages that don't have single values.
ghost use Rattle.std.specs.Prelude.{◌≡◌, ◌<◌, true, length, slice_get};
ghost use Rattle.std.specs.List.{list_any};
ghost use Rattle.iox_domain.specs.DomainSlots.Uses.{is_there};
ghost use Rattle.iox_domain.specs.DomainPorts.Ports.{connection_of};
ghost use Rattle.iox_lanes_opening.specs.Slices.{is_slice, is_slice_in, slice_waits, keeps_slice, deals_in_slices, has_slices};

use crate::refusals::each_asked::{Question, has_such};
use iox_domain::Domain;
use iox_domain_ports::PublisherPort;
use iox_domain_ports::reading::waiting_at;

/// Whether some publisher has slices: an element of it has another number of values than one, its slots have capacity for another number,
/// or one of its messages, waiting or in its history, has another number.
pub fn has_slices<T: Copy, U: Copy, B, D>(domain: &Domain<T, U, B, D>) -> bool
    ensures { result ≡ has_slices domain.now }
{
    has_such(&domain.state.ports, Question::Slices)
}

/// Whether a publisher has slices.
pub(crate) fn deals_in_slices<T: Copy, U: Copy>(port: &PublisherPort<T, U>) -> bool
    ensures { result ≡ deals_in_slices port.now }
{
    port.unit != 1 || port.sender.room() != 1 || keeps_slice(port)
}

fn keeps_slice<T: Copy, U: Copy>(port: &PublisherPort<T, U>) -> bool
    ensures { result ≡ keeps_slice port.now }
{
    remembers_slice(port) || has_slice_waiting(port)
}

fn remembers_slice<T: Copy, U: Copy>(port: &PublisherPort<T, U>) -> bool
    ensures { result ≡ list_any is_slice port.now.sender.uses.history }
{
    for place in 0..port.sender.slots().history() {
        if is_slice_remembered(port, place) {
            return true;
        }
    }
    false
}

// Whether the message at this place of the history isn't a single value.
fn is_slice_remembered<T: Copy, U: Copy>(port: &PublisherPort<T, U>, place: usize) -> bool
    requires { place < length port.now.sender.uses.history }
    ensures { result ≡ is_slice_in (slice_get port.now.sender.uses.history place) }
{
    let slot = port.sender.remembered(place);
    port.sender.payload(slot).len() != 1
}

fn has_slice_waiting<T: Copy, U: Copy>(port: &PublisherPort<T, U>) -> bool
    ensures { result ≡ list_any slice_waits port.now.sender.uses.connections }
{
    for index in 0..port.sender.indices() {
        if slice_waits_at(port, index) {
            return true;
        }
    }
    false
}

fn slice_waits_at<T: Copy, U: Copy>(port: &PublisherPort<T, U>, index: usize) -> bool
    ensures { result ≡ slice_waits (connection_of index port.now) }
{
    match port.sender.link(index) {
        Some(_) => slice_waits(port, index),
        None => false,
    }
}

// Whether a message that waits at this connection isn't a single value.
fn slice_waits<T: Copy, U: Copy>(port: &PublisherPort<T, U>, index: usize) -> bool
    requires { is_there (connection_of index port.now) ≡ true }
    ensures { result ≡ slice_waits (connection_of index port.now) }
{
    for at in 0..waiting_at(port, index) {
        if is_slice_waiting(port, index, at) {
            return true;
        }
    }
    false
}

// Whether the message that waits at this place of the connection isn't a single value.
fn is_slice_waiting<T: Copy, U: Copy>(port: &PublisherPort<T, U>, index: usize, at: usize) -> bool
    requires there { is_there (connection_of index port.now) ≡ true }
    requires waits { at < length (connection_of index port.now).waiting }
    ensures { result ≡ is_slice_in (slice_get (connection_of index port.now).waiting at) }
{
    let slot = port.sender.waiting_slot(index, at);
    port.sender.payload(slot).len() != 1
}
