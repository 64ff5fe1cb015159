//! Makes a domain of lanes again.
ghost use Rattle.std.specs.Prelude.{◌≡◌, ◌+◌, ◌*◌, ◌^◌, ◌<◌, ◌≤◌, ℕ, IfErr, IfOk, OnOk, length, slice_get, option_copied, vec_capacity};
ghost use Rattle.std.specs.Prelude.{IfSome, None, Some, false};
ghost use Rattle.std.specs.Bool.{OnTrue};
ghost use Rattle.iox_domain.specs.DomainPorts.MessagesSending.{with_uses};
ghost use Rattle.iox_domain.specs.DomainPorts.Publishers.{port_of};
ghost use Rattle.iox_lanes_opening.specs.Middles.{middle_count, middle_of};
ghost use Rattle.iox_lanes_opening.specs.Restored.{IsRested, IsRestored, place_of};
ghost use Rattle.iox_lanes_opening.specs.Restoring.{IsWhole};
ghost use Rattle.iox_lanes_machine.specs.Kept.{IsWithin};
ghost use Rattle.iox_lanes_machine.specs.Owned.{MailIsOwn, MailHasRoom, HistoriesAreOwn};
ghost use Rattle.iox_lanes.specs.Joined.{IsJoined, row_of};
ghost use Rattle.iox_lanes_machine.specs.Resting.{AllBetween, NoneOut, IsUnrest};
ghost use Rattle.iox_lanes.specs.Returning.{AllRest, ArePortsLeft, IsPortLeftIf, JoinsAt, OnlyPublishers, unrest_of};
ghost use Rattle.iox_lanes.specs.Spelling.{reading_back, spelling_of};

use crate::domain_lanes::DomainLanes;
use crate::into_domain_error::IntoDomainError;
use iox_domain::Domain;
use iox_domain_ports::{PublisherPort, Publishers};
use iox_domain_values::{DegradationHandler, Handlers};
use iox_lanes_machine::{LaneMachine, Unrest};
use iox_lanes_opening::leaving::words::middle_count;
use iox_lanes_opening::leaving::{LeftPublisher, restore};
use iox_lanes_parties::PublisherLane;
use iox_queues_base::Words;

/// Lanes that didn't become a domain, as they were, and why.
#[derive(Drop)]
pub struct StillLanes<T, U, B = Handlers, D = DegradationHandler> {
    /// Why the lanes didn't become a domain.
    pub error: IntoDomainError,
    /// The lanes, with their domain.
    pub lanes: DomainLanes<T, U, B, D>,
}

impl<T: Words, U: Words, B, D> DomainLanes<T, U, B, D> {
    /// The domain as the lanes leave it. The messages that wait at each connection of the lanes, by its order, wait at the same connection
    /// of the domain. Each publisher's history is that of its lane. Each message has the values, user header, number of elements and
    /// sequence number that its slot contains, and each publisher has the last sequence number of its lane. All else is as it was when the
    /// lanes began; if the lanes made no step, the domain is as it was. Nothing is allocated.
    ///
    /// Returns `PartyInCall` while a party is inside a call, otherwise `SamplesOut` while a loan or a sample is out; then the lanes come
    /// back as they were. What this comment says of the messages holds for lanes that made at most 2^63 steps and are joined with the
    /// domain beside them (`IsJoined`). The lanes of `into_lanes` are joined, and remain so after any steps.
    ///
    /// Not in `iceoryx2`.
    pub fn into_domain(self) -> Result<Domain<T, U, B, D>, StillLanes<T, U, B, D>>
        ensures told { IfErr result (λ still. IsUnrest (unrest_of still.error) self.lanes.lanes) }
        ensures kept { IfErr result (λ still. still.lanes ≡ self) }
        ensures rests { OnOk result (AllBetween self.lanes.lanes × NoneOut self.lanes.lanes) }
        ensures same { IfOk result (λ domain. self.lanes.lanes.moments ≡ 0 → domain ≡ self.domain) }
        ensures rest { IfOk result (λ domain. OnlyPublishers self.domain domain) }
        ensures left { IfOk result (λ domain. 0 < self.lanes.lanes.moments → self.lanes.lanes.moments ≤ 2 ^ 63
            → IsJoined (spelling_of self.domain.state.ports.sizes.sequence_numbers T.parts T.WORDS U.parts U.WORDS) (length self.one.items)
            self.lanes.lanes self.domain.state.ports.publishers self.publishers.items
            (length self.subscribers.items) self.connections.items
            → ArePortsLeft (reading_back self.domain.state.ports.sizes.sequence_numbers T.of_parts U.of_parts) self.lanes.lanes
            self.publishers.items (length self.subscribers.items)
            self.connections.items self.domain.state.ports.publishers domain.state.ports.publishers) }
    {
        if let Some(unrest) = self.lanes.lanes().unrest() {
            return Err(StillLanes {
                error: error_of(unrest),
                lanes: self,
            });
        }
        if self.lanes.lanes().moments() == 0 {
            let DomainLanes { domain, .. } = self;
            return Ok(domain);
        }
        Ok(returned(self))
    }
}

fn error_of(unrest: Unrest) -> IntoDomainError
    ensures { unrest_of result ≡ unrest }
{
    match unrest {
        Unrest::PartyInCall => IntoDomainError::PartyInCall,
        Unrest::SamplesOut => IntoDomainError::SamplesOut,
    }
}

// The domain with the messages that the lanes leave, if the lanes are joined with it.
fn returned<T: Words, U: Words, B, D>(opened: DomainLanes<T, U, B, D>) -> Domain<T, U, B, D>
    ensures rest { OnlyPublishers opened.domain result }
    ensures left { AllRest opened.lanes.lanes
        → IsJoined (spelling_of opened.domain.state.ports.sizes.sequence_numbers T.parts T.WORDS U.parts U.WORDS) (length opened.one.items)
        opened.lanes.lanes opened.domain.state.ports.publishers opened.publishers.items
        (length opened.subscribers.items) opened.connections.items
        → ArePortsLeft (reading_back opened.domain.state.ports.sizes.sequence_numbers T.of_parts U.of_parts) opened.lanes.lanes
        opened.publishers.items (length opened.subscribers.items)
        opened.connections.items opened.domain.state.ports.publishers result.state.ports.publishers }
{
    let DomainLanes {
        lanes,
        domain,
        publishers,
        subscribers,
        connections,
        one,
    } = opened;
    let lanes = lanes.into_machine();
    let mut domain = domain;
    let mut one = one;
    if one.is_empty() {
        return domain;
    }
    let numbered = domain.state.ports.sizes.sequence_numbers;
    if !has_words::<T, U>(&lanes, numbered) {
        return domain;
    }
    let readers = count(&subscribers);
    let left = LeftLanes {
        lanes: &lanes,
        numbered,
        readers,
        indices: &connections,
    };
    restore_publishers(
        &left,
        &publishers,
        &mut domain.state.ports.publishers,
        &mut one,
    );
    domain
}

fn count(numbers: &[u64]) -> usize
    ensures { result ≡ length numbers.now }
{
    numbers.len()
}

// Whether the lanes' payloads and user headers have as many words as values of `T` and user headers of `U`.
fn has_words<T: Words, U: Words>(lanes: &LaneMachine, numbered: bool) -> bool
    ensures whole { OnTrue result (IsWhole T.WORDS (middle_count numbered U.WORDS) lanes.now.table) }
    ensures not { result ≡ false → lanes.now.table.sizes.payload_words ≡ T.WORDS → lanes.now.table.sizes.user_header_words ≡
        (middle_count numbered U.WORDS) → ⊥ }
{
    lanes.are_of_one_service();
    let sizes = lanes.table().sizes();
    if sizes.payload_words != T::WORDS as u64 {
        return false;
    }
    if sizes.user_header_words != middle_count::<U>(numbered) as u64 {
        return false;
    }
    true
}

// The lanes that go back, and the index that each of their connections has in the domain, `readers` for each publisher. `numbered` says
// whether each slot has the sequence number of its message.
#[derive(Clone, Copy)]
struct LeftLanes<'a> {
    lanes: &'a LaneMachine,
    numbered: bool,
    readers: usize,
    indices: &'a [usize],
}

// Gives the publishers the messages that the lanes leave, if the lanes are joined with them.
fn restore_publishers<T: Words, U: Words>(
    left: &LeftLanes<'_>,
    numbers: &[u64],
    publishers: &mut Publishers<T, U>,
    one: &mut Vec<T>,
)
    requires room { 0 < vec_capacity one.old }
    requires whole { IsWhole T.WORDS (middle_count left.now.numbered U.WORDS) left.now.lanes.now.table }
    ensures { AllRest left.now.lanes.now → (places : ℕ)
        → IsJoined (spelling_of left.now.numbered T.parts T.WORDS U.parts U.WORDS) places left.now.lanes.now publishers.old numbers.now
        left.now.readers
        left.now.indices.now
        → ArePortsLeft (reading_back left.now.numbered T.of_parts U.of_parts) left.now.lanes.now numbers.now left.now.readers
        left.now.indices.now publishers.old publishers.new }
{
    for place in 0..numbers.len() {
        restore_publisher(left, numbers[place], place, publishers, one);
    }
}

// Gives the publisher with this number what the lanes leave of the publisher at this place.
fn restore_publisher<T: Words, U: Words>(
    left: &LeftLanes<'_>,
    number: u64,
    place: usize,
    publishers: &mut Publishers<T, U>,
    one: &mut Vec<T>,
)
    requires room { 0 < vec_capacity one.old }
    requires whole { IsWhole T.WORDS (middle_count left.now.numbered U.WORDS) left.now.lanes.now.table }
    ensures others { (other : ℕ) → (other ≡ number → ⊥) → port_of other publishers.new ≡ port_of other publishers.old }
    ensures this { AllRest left.now.lanes.now
        → JoinsAt left.now.lanes.now (port_of number publishers.old) place left.now.readers left.now.indices.now
        → IsPortLeftIf (reading_back left.now.numbered T.of_parts U.of_parts) left.now.lanes.now (place * left.now.readers)
        (row_of left.now.readers left.now.indices.now place) (slice_get left.now.lanes.now.publishers place)
        (port_of number publishers.old) (port_of number publishers.new) }
    ensures room { vec_capacity one.new ≡ vec_capacity one.old }
{
    if let Some(port) = publishers.get_mut(number) {
        restore_port(left, place, port, one);
    }
}

// Gives a publisher what the lanes leave of the publisher at this place.
fn restore_port<T: Words, U: Words>(
    left: &LeftLanes<'_>,
    place: usize,
    port: &mut PublisherPort<T, U>,
    one: &mut Vec<T>,
)
    requires room { 0 < vec_capacity one.old }
    requires whole { IsWhole T.WORDS (middle_count left.now.numbered U.WORDS) left.now.lanes.now.table }
    ensures left { AllRest left.now.lanes.now → JoinsAt left.now.lanes.now (Some port.old) place left.now.readers left.now.indices.now
        → IsPortLeftIf (reading_back left.now.numbered T.of_parts U.of_parts) left.now.lanes.now (place * left.now.readers)
        (row_of left.now.readers left.now.indices.now place) (slice_get left.now.lanes.now.publishers place) (Some port.old)
        (Some port.new) }
    ensures room { vec_capacity one.new ≡ vec_capacity one.old }
{
    left.lanes.are_of_one_service();
    let Some(lane) = lane_at(left.lanes, place) else {
        return;
    };
    let Some((from, row)) = row_at(left.lanes, place, left.readers, left.indices) else {
        return;
    };
    restore_lane(left.lanes, left.numbered, from, row, lane, port, one);
}

// The publisher's lane at this place, if there is one.
fn lane_at(lanes: &LaneMachine, place: usize) -> Option<&PublisherLane>
    ensures { option_copied result ≡ slice_get lanes.now.publishers place }
{
    lanes.publishers().get(place)
}

// The indices of the connections of the publisher at this place, out of the indices of all connections, and the number of its first
// connection.
fn row_at<'a>(
    lanes: &LaneMachine,
    place: usize,
    readers: usize,
    indices: &'a [usize],
) -> Option<(u64, &'a [usize])>
    ensures row { IfSome result (λ it. (it.0 ≡ place * readers) × (it.1.now ≡ row_of readers indices.now place)) }
    ensures within { IfSome result (λ it. it.0 + length it.1.now ≤ length lanes.now.links) }
    ensures none { result ≡ None → place * readers + readers ≤ length lanes.now.links → place * readers + readers ≤ length indices.now → ⊥ }
{
    let from = place.checked_mul(readers)?;
    let end = from.checked_add(readers)?;
    if end > lanes.links().len() {
        return None;
    }
    let row = indices.get(from..end)?;
    Some((from as u64, row))
}

// Gives a publisher what its lane leaves.
fn restore_lane<T: Words, U: Words>(
    lanes: &LaneMachine,
    numbered: bool,
    from: u64,
    row: &[usize],
    lane: &PublisherLane,
    port: &mut PublisherPort<T, U>,
    one: &mut Vec<T>,
)
    requires room { 0 < vec_capacity one.old }
    requires connections { from + length row.now ≤ length lanes.now.links }
    requires whole { IsWhole T.WORDS (middle_count numbered U.WORDS) lanes.now.table }
    ensures rest { port.new ≡ record port.old { last_sequence = lane.now.last; sender = port.new.sender } }
    ensures restored { IsRested port.old.sender
        → IsRestored T.of_parts (middle_of numbered U.of_parts) lanes.now from row.now lane.now.port.book.first
        lane.now.port.book.history port.old.sender
        port.new.sender }
    ensures room { vec_capacity one.new ≡ vec_capacity one.old }
{
    let book = lane.port().book();
    let source = LeftPublisher {
        lanes,
        numbered,
        from,
        indices: row,
        first: book.first(),
        history: book.history(),
    };
    let _rested = restore(&source, &mut port.sender, one);
    port.last_sequence = lane.last_sequence();
}
