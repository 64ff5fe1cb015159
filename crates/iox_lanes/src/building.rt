//! Builds lanes that find what a domain has.
ghost use Rattle.std.specs.Prelude.{◌≡◌, ◌+◌, ◌-◌, ◌*◌, ◌++◌, ◌^◌, ◌<◌, ℕ, [], length, map, max, option_copied, slice_get, slice_index};
ghost use Rattle.std.specs.Prelude.{is_some, set, true, IfOk, OnOk, None, Some};
ghost use Rattle.std.specs.List.{position};
ghost use Rattle.iox_domain.specs.DomainPorts.Messages.{Message};
ghost use Rattle.iox_domain.specs.DomainPorts.Ports.{connection_of};
ghost use Rattle.iox_domain.specs.DomainPorts.Publishers.{port_of};
ghost use Rattle.iox_domain.specs.Kept.{kept_under};
ghost use Rattle.iox_domain.specs.Subscribers.{subscriber_of};
ghost use Rattle.iox_lanes_opening.specs.Deciding.{would_fail};
ghost use Rattle.iox_lanes_opening.specs.Middles.{middle_count, middle_words};
ghost use Rattle.iox_lanes_opening.specs.Refusals.{first_reason};
ghost use Rattle.iox_lanes.specs.Alone.{AreAlone, HasOne, KeepAlone};
ghost use Rattle.iox_lanes.specs.Behind.{behind_findings, behind_finding};
ghost use Rattle.iox_lanes.specs.Built.{slots_if, AreBuilt, HaveSlots};
ghost use Rattle.iox_lanes.specs.Exact.{loans_if, most_loans_of, most_slots_of, sizes_for};
ghost use Rattle.iox_lanes.specs.Finding.{NothingCameBack};
ghost use Rattle.iox_lanes.specs.Laid.{first_slot, flat_listed, header_findings, history_findings, link_findings, message_findings};
ghost use Rattle.iox_lanes.specs.Laid.{publishers_behind, sender_behind, slots_in, value_findings, waiting_findings};
ghost use Rattle.iox_lanes.specs.Ordered.{keys_behind, leads_here, route_place, reader_behind, readers_behind};
ghost use Rattle.iox_lanes.specs.Failing.{asked, failing, FailAsAsked};
ghost use Rattle.iox_lanes.specs.Holding.{kind_of, numbers_of, reader_if, AreThere};
ghost use Rattle.iox_lanes.specs.Sized.{AreAgreed, AreSized};
ghost use Rattle.iox_lanes.specs.Spelling.{spelling_of};
ghost use Rattle.iox_lanes.specs.Tied.{tie_for, ties_for, AreTies};
ghost use Rattle.iox_lanes_machine.specs.Resting.{AllBetween};
ghost use Rattle.iox_lanes_machine.specs.WholeReads.{CameTo};

use crate::domain_lanes::Opened;
use crate::finding::NewLanes;
use crate::listed::{publishers_listed, subscribers_listed};
use iox_domain::Domain;
use iox_domain_ports::reading::{limit_at, waiting_at};
use iox_domain_ports::{PublisherPort, SubscriberPort};
use iox_lanes_base::calls::Route;
use iox_lanes_base::words::SlotWord;
use iox_lanes_machine::{Found, LaneMachine, LaneSizes};
use iox_lanes_opening::leaving::words::middle_count;
use iox_lanes_opening::refusals::deciding::would_fail;
use iox_lanes_opening::refusals::{AsksCaller, FixedDecision};
use iox_queues_base::Words;
use iox_queues_steps::rings::RingKind;
use std::alloc::{AllocError, Global};

/// Builds lanes that found all that the domain has. No reason of `refusal` may apply to the domain. `AllocError` is returned only where an
/// allocation fails.
pub(crate) fn build<T: Words, U: Words, B: FixedDecision, D: AsksCaller>(
    alloc: Global,
    domain: &Domain<T, U, B, D>,
) -> Result<Opened<T>, AllocError>
    requires { first_reason B.decision D.asks domain.now ≡ None }
    ensures came { IfOk result (λ opened. CameTo opened.lanes) }
    ensures between { IfOk result (λ opened. AllBetween opened.lanes) }
    ensures sized { IfOk result (λ opened. AreSized domain.now.state.ports.sizes (length opened.publishers.items)
        (length opened.subscribers.items) T.WORDS (middle_count domain.now.state.ports.sizes.sequence_numbers U.WORDS) opened.lanes) }
    ensures exact { IfOk result (λ opened. NothingCameBack (sizes_for T.WORDS
        (middle_count domain.now.state.ports.sizes.sequence_numbers U.WORDS) domain.now.state.ports opened.publishers.items
        (length opened.subscribers.items)) opened.lanes) }
    ensures publishers { IfOk result (λ opened. opened.publishers.items
        ≡ numbers_of (λ entry. entry.publisher) domain.now.state.ports.publisher_list.places) }
    ensures subscribers { IfOk result (λ opened. opened.subscribers.items
        ≡ numbers_of (λ entry. entry.subscriber) domain.now.state.ports.subscriber_list.places) }
    ensures built { IfOk result (λ opened. AreBuilt B.decision
        (spelling_of domain.now.state.ports.sizes.sequence_numbers T.parts T.WORDS U.parts U.WORDS) domain.now opened.publishers.items
        opened.subscribers.items opened.lanes) }
    ensures some { IfOk result (λ opened. 0 < length opened.one.items) }
    ensures fails { IfOk result (λ opened. FailAsAsked B.decision domain.now opened.lanes opened.publishers.items) }
    ensures ties { IfOk result (λ opened. AreTies domain.now.state.ports opened.publishers.items opened.subscribers.items
        opened.connections.items) }
{
    let publishers = publishers_listed(alloc, &domain.state.ports.publisher_list)?;
    let subscribers = subscribers_listed(alloc, &domain.state.ports.subscriber_list)?;
    let mut lanes = NewLanes::new(
        alloc,
        sizes_of(
            domain,
            &publishers,
            publishers.len() as u64,
            subscribers.len() as u64,
        ),
    )?;
    let mut connections = Vec::new(alloc);
    find_publishers(
        &mut lanes,
        domain,
        &publishers,
        &subscribers,
        &mut connections,
    )?;
    find_orders(&mut lanes, domain, &publishers, &subscribers)?;
    let mut one = Vec::new(alloc);
    one.push(domain.state.blank)?;
    Ok(Opened {
        lanes: lanes.into_lanes(),
        publishers,
        subscribers,
        connections,
        one,
    })
}

// The sizes of the lanes: the loan limit and the number of slots are the largest that one of the publishers has.
fn sizes_of<T: Words, U: Words, B, D>(
    domain: &Domain<T, U, B, D>,
    numbers: &[u64],
    publishers: u64,
    subscribers: u64,
) -> LaneSizes
    ensures some { 0 < result.buffer }
    ensures small { (result.buffer < 2 ^ 61) × (result.most_borrowed < 2 ^ 61) }
    ensures agreed { AreAgreed domain.now.state.ports.sizes publishers subscribers T.WORDS
        (middle_count domain.now.state.ports.sizes.sequence_numbers U.WORDS) result }
    ensures room { HaveSlots domain.now.state.ports.publishers numbers.now result.slots }
    ensures exact { publishers ≡ length numbers.now
        → result ≡ sizes_for T.WORDS (middle_count domain.now.state.ports.sizes.sequence_numbers U.WORDS) domain.now.state.ports
        numbers.now subscribers }
{
    let sizes = domain.state.ports.sizes;
    LaneSizes {
        publishers,
        subscribers,
        kind: kind_of(sizes.enable_safe_overflow),
        buffer: (sizes.subscriber_max_buffer_size as u64).max(1),
        most_borrowed: sizes.subscriber_max_borrowed_samples as u64,
        history: sizes.history_size as u64,
        most_loans: most_loans(domain, numbers),
        slots: most_slots(domain, numbers),
        user_header_words: middle_count::<U>(sizes.sequence_numbers) as u64,
        payload_words: T::WORDS as u64,
    }
}

fn kind_of(overflows: bool) -> RingKind
    ensures { result ≡ kind_of overflows }
{
    if overflows {
        RingKind::Overflowing
    } else {
        RingKind::Refusing
    }
}

// The largest loan limit of the publishers with these numbers.
fn most_loans<T: Words, U: Words, B, D>(domain: &Domain<T, U, B, D>, numbers: &[u64]) -> u64
    ensures { result ≡ most_loans_of domain.now.state.ports.publishers numbers.now }
{
    let mut most = 0;
    for place in 0..numbers.len() {
        most = loans_at(domain, numbers[place]).max(most);
    }
    most
}

// The loan limit of the publisher with this number; 0 if there is none.
fn loans_at<T: Words, U: Words, B, D>(domain: &Domain<T, U, B, D>, number: u64) -> u64
    ensures { result ≡ loans_if (port_of number domain.now.state.ports.publishers) }
{
    match domain.state.ports.publishers.get(number) {
        Some(port) => port.sender.slots().most_loans() as u64,
        None => 0,
    }
}

// The most slots that any of the publishers with these numbers has.
fn most_slots<T: Words, U: Words, B, D>(domain: &Domain<T, U, B, D>, numbers: &[u64]) -> u64
    ensures most { HaveSlots domain.now.state.ports.publishers numbers.now result }
    ensures exact { result ≡ most_slots_of domain.now.state.ports.publishers numbers.now }
{
    let mut most = 0;
    for place in 0..numbers.len() {
        most = slots_at(domain, numbers[place]).max(most);
    }
    most
}

// How many slots the publisher with this number has; 0 if there is none.
fn slots_at<T: Words, U: Words, B, D>(domain: &Domain<T, U, B, D>, number: u64) -> u64
    ensures { result ≡ slots_if (port_of number domain.now.state.ports.publishers) }
{
    match domain.state.ports.publishers.get(number) {
        Some(port) => slots_of(port),
        None => 0,
    }
}

// The number of slots that a publisher has, including those of segments from which it no longer loans.
fn slots_of<T: Words, U: Words>(port: &PublisherPort<T, U>) -> u64
    ensures { result ≡ slots_in port.now }
{
    let slots = port.sender.slots();
    (slots.first() as u64).saturating_add(slots.size() as u64)
}

fn find_publishers<T: Words, U: Words, B: FixedDecision, D>(
    lanes: &mut NewLanes,
    domain: &Domain<T, U, B, D>,
    publishers: &[u64],
    subscribers: &[u64],
    connections: &mut Vec<usize>,
) -> Result<(), AllocError>
    requires publishers { length (failing lanes.old.lanes) ≡ length publishers.now }
    requires there { AreThere domain.now.state.ports.publishers publishers.now }
    requires none { connections.old.items ≡ [] }
    ensures sizes { lanes.new.sizes ≡ lanes.old.sizes }
    ensures fails { OnOk result (failing lanes.new.lanes ≡ asked B.decision domain.now.state.publisher_handlers publishers.now) }
    ensures alone { OnOk result (KeepAlone domain.now.state.ports publishers.now subscribers.now) }
    ensures ties { OnOk result (AreTies domain.now.state.ports publishers.now subscribers.now connections.new.items) }
    ensures behind { OnOk result (lanes.new.lanes ≡ publishers_behind B.decision
        (spelling_of domain.now.state.ports.sizes.sequence_numbers T.parts T.WORDS U.parts U.WORDS) domain.now publishers.now
        subscribers.now lanes.old.lanes (length publishers.now)) }
{
    for place in 0..publishers.len() {
        let port = publisher_of(domain, publishers[place]);
        find_publisher(lanes, domain, place, publishers[place], port)?;
        let first = first_slot(lanes.lanes(), place);
        let numbered = domain.state.ports.sizes.sequence_numbers;
        find_history(lanes, numbered, place, first, port)?;
        find_connections(lanes, domain, place, first, port, subscribers, connections)?;
    }
    Ok(())
}

// The publisher with this number.
fn publisher_of<T: Words, U: Words, B, D>(
    domain: &Domain<T, U, B, D>,
    number: u64,
) -> &PublisherPort<T, U>
    requires { is_some (port_of number domain.now.state.ports.publishers) ≡ true }
    ensures { port_of number domain.now.state.ports.publishers ≡ Some result.now }
{
    match domain.state.ports.publishers.get(number) {
        Some(port) => port,
        None => unreachable!(),
    }
}

// The lanes find a publisher's number of slots, its loan limit, the node and number that its headers name, and whether its sends fail.
fn find_publisher<T: Words, U: Words, B: FixedDecision, D>(
    lanes: &mut NewLanes,
    domain: &Domain<T, U, B, D>,
    place: usize,
    number: u64,
    port: &PublisherPort<T, U>,
) -> Result<(), AllocError>
    ensures sizes { lanes.new.sizes ≡ lanes.old.sizes }
    ensures fails { OnOk result (failing lanes.new.lanes
        ≡ set (failing lanes.old.lanes) place (would_fail B.decision (kept_under number domain.now.state.publisher_handlers))) }
    ensures behind { OnOk result (lanes.new.lanes ≡ sender_behind lanes.old.lanes place
        (would_fail B.decision (kept_under number domain.now.state.publisher_handlers)) port.now) }
{
    lanes.find(Found::Slots {
        publisher: place,
        slots: slots_of(port),
        most_loans: port.sender.slots().most_loans() as u64,
    })?;
    lanes.find(Found::Sender {
        publisher: place,
        node_id: port.owner.node_id,
        publisher_id: port.number,
        fails: would_fail(domain.state.publisher_handlers.get(number)),
        last: port.last_sequence,
    })
}

// The number of a publisher's first slot in the lanes.
fn first_slot(lanes: &LaneMachine, place: usize) -> u64
    ensures { result ≡ first_slot (slice_get lanes.now.publishers place) }
{
    match lanes.publishers().get(place) {
        Some(lane) => lane.port().book().first(),
        None => 0,
    }
}

fn find_history<T: Words, U: Words>(
    lanes: &mut NewLanes,
    numbered: bool,
    place: usize,
    first: u64,
    port: &PublisherPort<T, U>,
) -> Result<(), AllocError>
    ensures sizes { lanes.new.sizes ≡ lanes.old.sizes }
    ensures fails { failing lanes.new.lanes ≡ failing lanes.old.lanes }
    ensures behind { OnOk result (lanes.new.lanes ≡ behind_findings lanes.old.lanes
        (history_findings (spelling_of numbered T.parts T.WORDS U.parts U.WORDS) place first port.now
        port.now.sender.uses.history)) }
    ensures alone { OnOk result (AreAlone port.now port.now.sender.uses.history) }
{
    for at in 0..port.sender.slots().history() {
        let slot = port.sender.remembered(at);
        find_message(lanes, numbered, first, port, slot)?;
        lanes.find(Found::Newest {
            publisher: place,
            slot: first.saturating_add(slot as u64),
        })?;
    }
    Ok(())
}

fn find_connections<T: Words, U: Words, B, D>(
    lanes: &mut NewLanes,
    domain: &Domain<T, U, B, D>,
    place: usize,
    first: u64,
    port: &PublisherPort<T, U>,
    subscribers: &[u64],
    connections: &mut Vec<usize>,
) -> Result<(), AllocError>
    ensures sizes { lanes.new.sizes ≡ lanes.old.sizes }
    ensures fails { failing lanes.new.lanes ≡ failing lanes.old.lanes }
    ensures ties { OnOk result (connections.new.items
        ≡ connections.old.items ++ ties_for domain.now.state.ports.subscribers subscribers.now port.now) }
    ensures behind { OnOk result (lanes.new.lanes ≡ behind_findings lanes.old.lanes
        (flat_listed (λ other. link_findings (spelling_of domain.now.state.ports.sizes.sequence_numbers T.parts T.WORDS U.parts U.WORDS)
        place other first port.now
        (tie_for port.now (subscriber_of (slice_index subscribers.now other) domain.now.state.ports.subscribers)))
        (length subscribers.now))) }
    ensures alone { OnOk result ((other : ℕ) → other < length subscribers.now → AreAlone port.now
        (connection_of (tie_for port.now (subscriber_of (slice_index subscribers.now other) domain.now.state.ports.subscribers))
        port.now).waiting) }
{
    for other in 0..subscribers.len() {
        let index = tie_to(domain, port, subscribers[other]);
        connections.push(index)?;
        lanes.find(Found::Buffer {
            publisher: place,
            place: other as u64,
            messages: limit_at(port, index) as u64,
        })?;
        let numbered = domain.state.ports.sizes.sequence_numbers;
        find_waiting(lanes, numbered, place, first, port, other as u64, index)?;
    }
    Ok(())
}

// The index of the connection to which a publisher has tied a subscriber's place; 0 if there is none.
fn tie_to<T: Words, U: Words, B, D>(
    domain: &Domain<T, U, B, D>,
    port: &PublisherPort<T, U>,
    subscriber: u64,
) -> usize
    ensures { result ≡ tie_for port.now (subscriber_of subscriber domain.now.state.ports.subscribers) }
{
    match domain.state.ports.subscribers.get(subscriber) {
        Some(reader) => port.ties.get(reader.place).unwrap_or(0),
        None => 0,
    }
}

fn find_waiting<T: Words, U: Words>(
    lanes: &mut NewLanes,
    numbered: bool,
    place: usize,
    first: u64,
    port: &PublisherPort<T, U>,
    other: u64,
    index: usize,
) -> Result<(), AllocError>
    ensures sizes { lanes.new.sizes ≡ lanes.old.sizes }
    ensures fails { failing lanes.new.lanes ≡ failing lanes.old.lanes }
    ensures behind { OnOk result (lanes.new.lanes ≡ behind_findings lanes.old.lanes
        (waiting_findings (spelling_of numbered T.parts T.WORDS U.parts U.WORDS) place other first port.now
        (connection_of index port.now).waiting)) }
    ensures alone { OnOk result (AreAlone port.now (connection_of index port.now).waiting) }
{
    for at in 0..waiting_at(port, index) {
        let slot = waiting_slot(port, index, at);
        find_message(lanes, numbered, first, port, slot)?;
        lanes.find(Found::Waiting {
            publisher: place,
            place: other,
            slot: first.saturating_add(slot as u64),
        })?;
    }
    Ok(())
}

/// The slot of the message that waits at this place of a connection.
pub(crate) fn waiting_slot<T: Words, U: Words>(
    port: &PublisherPort<T, U>,
    index: usize,
    at: usize,
) -> usize
    requires { at < length (connection_of index port.now).waiting }
    ensures slot { slice_get (map (λ message. message.slot) (connection_of index port.now).waiting) at ≡ Some result }
    ensures inside { result < port.now.sender.uses.first + port.now.sender.uses.size }
{
    match port.sender.link(index) {
        Some(_) => port.sender.waiting_slot(index, at),
        None => unreachable!(),
    }
}

// The lanes find the words of the message in a slot.
fn find_message<T: Words, U: Words>(
    lanes: &mut NewLanes,
    numbered: bool,
    first: u64,
    port: &PublisherPort<T, U>,
    slot: usize,
) -> Result<(), AllocError>
    requires { slot < port.now.sender.uses.first + port.now.sender.uses.size }
    ensures sizes { lanes.new.sizes ≡ lanes.old.sizes }
    ensures fails { failing lanes.new.lanes ≡ failing lanes.old.lanes }
    ensures waiting { OnOk result ((index at : ℕ) (message : Message T U)
        → slice_get (connection_of index port.now).waiting at ≡ Some message → message.slot ≡ slot
        → lanes.new.lanes ≡ behind_findings lanes.old.lanes (message_findings (spelling_of numbered T.parts T.WORDS U.parts U.WORDS) first
        port.now message)) }
    ensures remembered { OnOk result ((at : ℕ) (message : Message T U) → slice_get port.now.sender.uses.history at ≡ Some message
        → message.slot ≡ slot
        → lanes.new.lanes ≡ behind_findings lanes.old.lanes (message_findings (spelling_of numbered T.parts T.WORDS U.parts U.WORDS) first
        port.now message)) }
    ensures one { OnOk result (HasOne port.now slot) }
{
    let at = first.saturating_add(slot as u64);
    find_word(lanes, at, SlotWord::Header(0), port.owner.node_id)?;
    find_word(lanes, at, SlotWord::Header(1), port.number)?;
    find_word(lanes, at, SlotWord::Header(2), port.sender.elements(slot))?;
    find_middle(
        lanes,
        numbered,
        at,
        port.sender.sequence(slot),
        port.sender.user_header(slot),
    )?;
    match port.sender.payload(slot).first() {
        Some(value) => find_value(lanes, at, value),
        None => Ok(()),
    }
}

fn find_word(lanes: &mut NewLanes, slot: u64, word: SlotWord, value: u64) -> Result<(), AllocError>
    ensures sizes { lanes.new.sizes ≡ lanes.old.sizes }
    ensures fails { failing lanes.new.lanes ≡ failing lanes.old.lanes }
    ensures behind { OnOk result (lanes.new.lanes ≡ behind_finding lanes.old.lanes (Found.Held slot word value)) }
{
    lanes.find(Found::Held { slot, word, value })
}

// The lanes find what lies between header and payload: the sequence number, where messages have one, and the words of the user header.
fn find_middle<U: Words>(
    lanes: &mut NewLanes,
    numbered: bool,
    slot: u64,
    sequence: Option<u64>,
    user_header: &U,
) -> Result<(), AllocError>
    ensures sizes { lanes.new.sizes ≡ lanes.old.sizes }
    ensures fails { failing lanes.new.lanes ≡ failing lanes.old.lanes }
    ensures behind { OnOk result (lanes.new.lanes ≡ behind_findings lanes.old.lanes
        (header_findings (middle_words numbered U.parts) (middle_count numbered U.WORDS) slot (sequence, user_header.now))) }
{
    for word in 0..middle_count::<U>(numbered) {
        let value = middle_word(numbered, sequence, user_header, word);
        find_word(lanes, slot, SlotWord::UserHeader(word as u64), value)?;
    }
    Ok(())
}

// One of the words between header and payload, by its place.
fn middle_word<U: Words>(numbered: bool, sequence: Option<u64>, user_header: &U, word: usize) -> u64
    ensures { result ≡ slice_index (middle_words numbered U.parts (sequence, user_header.now)) word }
{
    if !numbered {
        return user_header.word(word);
    }
    match word.checked_sub(1) {
        Some(behind) => user_header.word(behind),
        None => sequence.unwrap_or(0),
    }
}

fn find_value<T: Words>(lanes: &mut NewLanes, slot: u64, value: &T) -> Result<(), AllocError>
    ensures sizes { lanes.new.sizes ≡ lanes.old.sizes }
    ensures fails { failing lanes.new.lanes ≡ failing lanes.old.lanes }
    ensures behind { OnOk result (lanes.new.lanes ≡ behind_findings lanes.old.lanes (value_findings T.parts T.WORDS slot value.now)) }
{
    for word in 0..T::WORDS {
        find_word(
            lanes,
            slot,
            SlotWord::Payload(word as u64),
            value.word(word),
        )?;
    }
    Ok(())
}

// Each subscriber goes over its connections in the order of its keys.
fn find_orders<T: Words, U: Words, B, D>(
    lanes: &mut NewLanes,
    domain: &Domain<T, U, B, D>,
    publishers: &[u64],
    subscribers: &[u64],
) -> Result<(), AllocError>
    ensures sizes { lanes.new.sizes ≡ lanes.old.sizes }
    ensures fails { failing lanes.new.lanes ≡ failing lanes.old.lanes }
    ensures behind { OnOk result (lanes.new.lanes ≡ readers_behind publishers.now domain.now.state.ports.subscribers subscribers.now
        lanes.old.lanes (length subscribers.now)) }
{
    for place in 0..subscribers.len() {
        find_reader(
            lanes,
            place,
            subscriber_at(domain, subscribers, place),
            publishers,
        )?;
    }
    Ok(())
}

/// The subscriber whose number is at this place of the list, if there is one.
pub(crate) fn subscriber_at<'a, T: Words, U: Words, B, D>(
    domain: &'a Domain<T, U, B, D>,
    subscribers: &[u64],
    place: usize,
) -> Option<&'a SubscriberPort>
    ensures { option_copied result ≡ reader_if domain.now.state.ports.subscribers (slice_get subscribers.now place) }
{
    match subscribers.get(place) {
        Some(number) => domain.state.ports.subscribers.get(*number),
        None => None,
    }
}

fn find_reader(
    lanes: &mut NewLanes,
    place: usize,
    port: Option<&SubscriberPort>,
    publishers: &[u64],
) -> Result<(), AllocError>
    ensures sizes { lanes.new.sizes ≡ lanes.old.sizes }
    ensures fails { failing lanes.new.lanes ≡ failing lanes.old.lanes }
    ensures behind { OnOk result (lanes.new.lanes
        ≡ reader_behind publishers.now place lanes.old.lanes (option_copied port.entry)) }
{
    match port {
        Some(port) => find_order(lanes, place, port, publishers),
        None => Ok(()),
    }
}

fn find_order(
    lanes: &mut NewLanes,
    place: usize,
    port: &SubscriberPort,
    publishers: &[u64],
) -> Result<(), AllocError>
    ensures sizes { lanes.new.sizes ≡ lanes.old.sizes }
    ensures fails { failing lanes.new.lanes ≡ failing lanes.old.lanes }
    ensures behind { OnOk result (lanes.new.lanes ≡ keys_behind publishers.now place port.now.connections.values lanes.old.lanes
        (length port.now.connections.values)) }
{
    let mut to = 0u64;
    for key in 0..port.connections.reached() {
        if let Some(attached) = port.attached(key) {
            let from = route_place(lanes.lanes(), place, publishers, attached.publisher);
            lanes.find(Found::Swapped {
                subscriber: place,
                one: to,
                other: from,
            })?;
            to += 1;
        }
    }
    Ok(())
}

// The place at which a subscriber of the lanes has the connection from the publisher with this number; 2^64 - 1 if it has none.
fn route_place(lanes: &LaneMachine, place: usize, publishers: &[u64], number: u64) -> u64
    ensures { result ≡ route_place lanes.now publishers.now number (slice_get lanes.now.subscribers place) }
{
    let Some(lane) = lanes.subscribers().get(place) else {
        return u64::MAX;
    };
    match route_from(lanes, publishers, number, lane.port().routes()) {
        Some(at) => at as u64,
        None => u64::MAX,
    }
}

fn route_from(
    lanes: &LaneMachine,
    publishers: &[u64],
    number: u64,
    routes: &[Route],
) -> Option<usize>
    ensures { result ≡ position (leads_here lanes.now publishers.now number) routes.now }
{
    routes
        .iter()
        .position(|route| leads_here(lanes, publishers, number, *route))
}

// Whether a connection comes from the publisher with this number.
fn leads_here(lanes: &LaneMachine, publishers: &[u64], number: u64, route: Route) -> bool
    ensures { result ≡ leads_here lanes.now publishers.now number route }
{
    let Some(link) = lanes.links().get(route.connection as usize) else {
        return false;
    };
    match publishers.get(link.publisher() as usize) {
        Some(own) => *own == number,
        None => false,
    }
}
