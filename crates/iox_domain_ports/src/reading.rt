//! What a subscriber does at one publisher.
ghost use Rattle.std.specs.Prelude.{◌≡◌, ◌+◌, ◌<◌, true, length, map, is_some, option_copied, option_map, slice_get, Some};
ghost use Rattle.std.specs.List.{list_any};
ghost use Rattle.iox_domain_slots.specs.Uses.{is_there};
ghost use Rattle.iox_domain_ports.specs.Ports.{connection_of};
ghost use Rattle.iox_domain_ports.specs.Reading.{borrowed_in, is_over, place_of, taken_at, given_back_at};

use crate::PublisherPort;

/// How many messages wait in the connection at this index; 0 if there is none.
pub fn waiting_at<T: Copy, U: Copy>(port: &PublisherPort<T, U>, index: usize) -> usize
    ensures { result ≡ length (connection_of index port.now).waiting }
{
    match port.sender.link(index) {
        Some(link) => link.waiting(),
        None => 0,
    }
}

/// How many messages are borrowed from the connection at this index; 0 if there is none.
pub fn borrowed_at<T: Copy, U: Copy>(port: &PublisherPort<T, U>, index: usize) -> usize
    ensures { result ≡ length (connection_of index port.now).borrowed }
{
    match port.sender.link(index) {
        Some(link) => link.borrowed(),
        None => 0,
    }
}

/// The maximum number of messages that wait in the connection at this index; 0 if there is none.
pub fn limit_at<T: Copy, U: Copy>(port: &PublisherPort<T, U>, index: usize) -> usize
    ensures { result ≡ (connection_of index port.now).limit }
{
    match port.sender.link(index) {
        Some(link) => link.limit(),
        None => 0,
    }
}

/// Borrows the oldest waiting message of the connection at this index, and answers its slot.
pub fn take_at<T: Copy, U: Copy>(port: &mut PublisherPort<T, U>, index: usize) -> usize
    requires data { 0 < length (connection_of index port.old).waiting }
    requires room { length (connection_of index port.old).borrowed < port.old.sender.uses.most_borrowed }
    ensures there { is_there (connection_of index port.old) ≡ true }
    ensures slot { slice_get (map (λ message. message.slot) (connection_of index port.old).waiting) 0 ≡ Some result }
    ensures new { port.new ≡ taken_at index port.old }
{
    is_there_with_data(port, index);
    port.sender.take(index)
}

// A connection in which a message waits exists.
fn is_there_with_data<T: Copy, U: Copy>(port: &PublisherPort<T, U>, index: usize)
    requires { 0 < length (connection_of index port.now).waiting }
    ensures { is_there (connection_of index port.now) ≡ true }
{
    match port.sender.link(index) {
        Some(_) => {}
        None => unreachable!(),
    }
}

/// Releases the first message in this slot that is borrowed from the connection at this index; answers false, and changes
/// nothing, if there is none.
pub fn give_back_at<T: Copy, U: Copy>(
    port: &mut PublisherPort<T, U>,
    index: usize,
    slot: usize,
) -> bool
    ensures answer { result ≡ is_some (place_of slot (connection_of index port.old)) }
    ensures new { port.new ≡ given_back_at index (place_of slot (connection_of index port.old)) port.old }
{
    if !has_at(port, index, slot) {
        return false;
    }
    port.sender.give_back(index, slot);
    true
}

// Whether a message in this slot is borrowed from the connection at this index.
fn has_at<T: Copy, U: Copy>(port: &PublisherPort<T, U>, index: usize, slot: usize) -> bool
    ensures answer { result ≡ is_some (place_of slot (connection_of index port.now)) }
    ensures inside { result ≡ true → slot < port.now.sender.uses.first + port.now.sender.uses.size }
{
    match port.sender.link(index) {
        Some(_) => port.sender.has_borrowed(index, slot),
        None => false,
    }
}

/// The values of the first message in this slot that is borrowed from the connection at this index; None if there is none.
pub fn payload_at<T: Copy, U: Copy>(
    port: &PublisherPort<T, U>,
    index: usize,
    slot: usize,
) -> Option<&[T]>
    ensures { option_copied result ≡ option_map (λ message. message.values) (borrowed_in slot (connection_of index port.now)) }
{
    if !has_at(port, index, slot) {
        return None;
    }
    Some(port.sender.payload(slot))
}

/// The user header of the first message in this slot that is borrowed from the connection at this index; None if there is none.
pub fn user_header_at<T: Copy, U: Copy>(
    port: &PublisherPort<T, U>,
    index: usize,
    slot: usize,
) -> Option<&U>
    ensures { option_copied result ≡ option_map (λ message. message.user_header) (borrowed_in slot (connection_of index port.now)) }
{
    if !has_at(port, index, slot) {
        return None;
    }
    Some(port.sender.user_header(slot))
}

/// How many elements the first message in this slot has that is borrowed from the connection at this index; None if there is
/// none.
pub fn elements_at<T: Copy, U: Copy>(
    port: &PublisherPort<T, U>,
    index: usize,
    slot: usize,
) -> Option<u64>
    ensures { result ≡ option_map (λ message. message.elements) (borrowed_in slot (connection_of index port.now)) }
{
    if !has_at(port, index, slot) {
        return None;
    }
    Some(port.sender.elements(slot))
}

/// The sequence number of the first message in this slot that is borrowed from the connection at this index, which is
/// `Some(None)` if messages aren't numbered; None if no message in this slot is borrowed.
pub fn sequence_at<T: Copy, U: Copy>(
    port: &PublisherPort<T, U>,
    index: usize,
    slot: usize,
) -> Option<Option<u64>>
    ensures { result ≡ option_map (λ message. message.sequence) (borrowed_in slot (connection_of index port.now)) }
{
    if !has_at(port, index, slot) {
        return None;
    }
    Some(port.sender.sequence(slot))
}

/// Whether the publisher is over: it is closed, and has neither loans nor connections nor a blocked send.
pub fn is_over<T: Copy, U: Copy>(port: &PublisherPort<T, U>) -> bool
    ensures { result ≡ is_over port.now }
{
    !port.stands
        && port.sender.slots().loans() == 0
        && !port.sender.is_sending()
        && !has_connections(port)
}

// Whether the publisher has a connection: a live one, or one that ended and still holds something.
fn has_connections<T: Copy, U: Copy>(port: &PublisherPort<T, U>) -> bool
    ensures { result ≡ list_any is_there port.now.sender.uses.connections }
{
    port.sender.top() > 0
}
