//! Lanes with the domain that they were made from.
ghost use Rattle.std.specs.Prelude.{◌≡◌, ◌<◌, ◌^◌, length, IfOk, IfErr, OnOk, None};
ghost use Rattle.iox_lanes_opening.specs.Middles.{middle_count};
ghost use Rattle.iox_lanes_opening.specs.Refusals.{first_reason};
ghost use Rattle.iox_lanes_laws.specs.Numbered.{found_messages};
ghost use Rattle.iox_lanes_laws.specs.Recorded.{AreAsHeld, ArePast};
ghost use Rattle.iox_lanes_machine.specs.Resting.{AllBetween};
ghost use Rattle.iox_lanes_machine.specs.WholeReads.{CameTo};
ghost use Rattle.iox_lanes.specs.Opening.{told_of};
ghost use Rattle.iox_lanes.specs.Failing.{FailAsAsked};
ghost use Rattle.iox_lanes.specs.Holding.{LanesHold};
ghost use Rattle.iox_lanes.specs.Joined.{IsJoined};
ghost use Rattle.iox_lanes.specs.Exact.{sizes_for};
ghost use Rattle.iox_lanes.specs.Finding.{NothingCameBack};
ghost use Rattle.iox_lanes.specs.Sized.{AreSized};
ghost use Rattle.iox_lanes.specs.Spelling.{spelling_of};

use crate::building::build;
use iox_domain::Domain;
use iox_domain_values::{DegradationHandler, Handlers};
use iox_lanes_laws::messages::Lanes;
use iox_lanes_machine::LaneMachine;
use iox_lanes_opening::refusals::{AsksCaller, FixedDecision, IntoLanesError, refusal};
use iox_queues_base::Words;
use std::alloc::{AllocError, Global};

/// The ports of a domain as lanes, and the domain as it was when they began.
///
/// Not in `iceoryx2`.
#[derive(Drop)]
pub struct DomainLanes<T, U, B = Handlers, D = DegradationHandler> {
    /// The lanes: a publisher and a subscriber for each one that the domain lists, in the order of their places there. They keep their
    /// messages, each under its number.
    pub lanes: Lanes,
    /// The domain, as it was when the lanes began.
    pub domain: Domain<T, U, B, D>,
    /// The numbers of the publishers in the domain, by place in the lanes.
    pub publishers: Vec<u64>,
    /// The numbers of the subscribers in the domain, by place in the lanes.
    pub subscribers: Vec<u64>,
    /// For each connection of the lanes, its index at its publisher in the domain.
    pub connections: Vec<usize>,
    /// A place for one value, which holds each value on its way back into the domain.
    pub one: Vec<T>,
}

/// A domain that didn't become lanes, as it was, and why.
#[derive(Drop)]
pub struct Refused<T, U, B = Handlers, D = DegradationHandler> {
    /// Why the domain didn't become lanes.
    pub error: IntoLanesError,
    /// The domain, as it was.
    pub domain: Domain<T, U, B, D>,
}

/// Lanes, and which ports and connections of the domain they have.
#[derive(Drop)]
pub(crate) struct Opened<T> {
    pub(crate) lanes: LaneMachine,
    pub(crate) publishers: Vec<u64>,
    pub(crate) subscribers: Vec<u64>,
    pub(crate) connections: Vec<usize>,
    pub(crate) one: Vec<T>,
}

// The opened lanes with the messages that they keep.
#[derive(Drop)]
struct Recorded<T> {
    lanes: Lanes,
    publishers: Vec<u64>,
    subscribers: Vec<u64>,
    connections: Vec<usize>,
    one: Vec<T>,
}

/// Makes lanes of a domain. They have each publisher and subscriber that the domain lists, in the order of their places; the buffer size of
/// each connection; the slots, loan limit and history of each publisher, and whether its sends fail at a full mailbox; what waits at each
/// connection; the words of each message; and the order in which each subscriber goes over its connections. The completion rings are empty.
///
/// The lanes are made by `LaneMachine::new` and then find what the domain has, and no port is inside a call; so each theorem on lanes
/// applies to them. Their sizes are those that the service agreed on: its buffer size (at least one), its borrow limit and its history
/// size. Each publisher gets the largest loan limit and the largest number of slots that a publisher of the domain has. There are fewer
/// than 2^64 slots.
///
/// The lanes keep their messages. Those that wait or are in a history have the first numbers, publisher by publisher and slot by slot; each
/// message that is sent gets the next number.
///
/// If the service agreed on `sequence_numbers`, a slot has a fourth word of header, directly after the three: the sequence number of its
/// message. Each send stores its publisher's next number there. So what a write passes between header and payload, and what a read returns
/// there, has one word more than a user header, in front of it. It doesn't matter what a write passes in that word. As values, the user
/// header is a [`WithSequence`](iox_lanes_parties::WithSequence).
///
/// Returns the first error of `refusal` that applies, before anything is built. Otherwise it returns `OutOfMemory` only if an allocation
/// fails, as it does for the numbers of 2^61 subscribers. With an error, the domain is returned as it was. The lanes check each piece that
/// they take in; it is proved that none is left out, so they have all that the domain has.
/// Example: `let lanes = into_lanes(alloc, domain).map_err(|refused| refused.error)?;`
pub fn into_lanes<T: Words, U: Words, B: FixedDecision, D: AsksCaller>(
    alloc: Global,
    domain: Domain<T, U, B, D>,
) -> Result<DomainLanes<T, U, B, D>, Refused<T, U, B, D>>
    ensures lanes { IfOk result (λ opened. LanesHold
        (spelling_of domain.state.ports.sizes.sequence_numbers T.parts T.WORDS U.parts U.WORDS)
        domain opened.lanes.lanes opened.publishers.items
        opened.subscribers.items opened.connections.items) }
    ensures fails { IfOk result (λ opened. FailAsAsked B.decision domain opened.lanes.lanes opened.publishers.items) }
    ensures came { IfOk result (λ opened. CameTo opened.lanes.lanes) }
    ensures between { IfOk result (λ opened. AllBetween opened.lanes.lanes) }
    ensures sized { IfOk result (λ opened. AreSized domain.state.ports.sizes (length opened.publishers.items)
        (length opened.subscribers.items) T.WORDS (middle_count domain.state.ports.sizes.sequence_numbers U.WORDS) opened.lanes.lanes) }
    ensures exact { IfOk result (λ opened. NothingCameBack (sizes_for T.WORDS
        (middle_count domain.state.ports.sizes.sequence_numbers U.WORDS) domain.state.ports opened.publishers.items
        (length opened.subscribers.items)) opened.lanes.lanes) }
    ensures few { IfOk result (λ opened. opened.lanes.lanes.table.sizes.slots < 2 ^ 64) }
    ensures messages { IfOk result (λ opened. opened.lanes.messages ≡ found_messages opened.lanes.lanes) }
    ensures held { IfOk result (λ opened. AreAsHeld opened.lanes.lanes opened.lanes.messages
        × ArePast opened.lanes.lanes opened.lanes.messages) }
    ensures domain { IfOk result (λ opened. opened.domain ≡ domain) }
    ensures joined { IfOk result (λ opened. IsJoined (spelling_of domain.state.ports.sizes.sequence_numbers T.parts T.WORDS U.parts U.WORDS)
        (length opened.one.items) opened.lanes.lanes
        domain.state.ports.publishers opened.publishers.items (length opened.subscribers.items) opened.connections.items) }
    ensures none { OnOk result (first_reason B.decision D.asks domain ≡ None) }
    ensures told { IfErr result (λ refused. refused.error ≡ told_of (first_reason B.decision D.asks domain)) }
    ensures same { IfErr result (λ refused. refused.domain ≡ domain) }
{
    if let Some(error) = refusal(&domain) {
        return Err(Refused { error, domain });
    }
    match open(alloc, &domain) {
        Ok(opened) => Ok(with(opened, domain)),
        Err(_) => Err(Refused {
            error: IntoLanesError::OutOfMemory,
            domain,
        }),
    }
}

// The lanes with their domain beside them.
fn with<T, U, B, D>(opened: Recorded<T>, domain: Domain<T, U, B, D>) -> DomainLanes<T, U, B, D>
    ensures { result ≡ record {
      lanes = opened.lanes;
      domain = domain;
      publishers = opened.publishers;
      subscribers = opened.subscribers;
      connections
          = opened.connections;
      one = opened.one;
    } }
{
    DomainLanes {
        lanes: opened.lanes,
        domain,
        publishers: opened.publishers,
        subscribers: opened.subscribers,
        connections: opened.connections,
        one: opened.one,
    }
}

// The lanes of a domain, unless an allocation fails.
fn open<T: Words, U: Words, B: FixedDecision, D: AsksCaller>(
    alloc: Global,
    domain: &Domain<T, U, B, D>,
) -> Result<Recorded<T>, AllocError>
    requires { first_reason B.decision D.asks domain.now ≡ None }
    ensures came { IfOk result (λ opened. CameTo opened.lanes.lanes) }
    ensures between { IfOk result (λ opened. AllBetween opened.lanes.lanes) }
    ensures sized { IfOk result (λ opened. AreSized domain.now.state.ports.sizes (length opened.publishers.items)
        (length opened.subscribers.items) T.WORDS (middle_count domain.now.state.ports.sizes.sequence_numbers U.WORDS) opened.lanes.lanes) }
    ensures exact { IfOk result (λ opened. NothingCameBack (sizes_for T.WORDS
        (middle_count domain.now.state.ports.sizes.sequence_numbers U.WORDS) domain.now.state.ports opened.publishers.items
        (length opened.subscribers.items)) opened.lanes.lanes) }
    ensures few { IfOk result (λ opened. opened.lanes.lanes.table.sizes.slots < 2 ^ 64) }
    ensures messages { IfOk result (λ opened. opened.lanes.messages ≡ found_messages opened.lanes.lanes) }
    ensures held { IfOk result (λ opened. AreAsHeld opened.lanes.lanes opened.lanes.messages
        × ArePast opened.lanes.lanes opened.lanes.messages) }
    ensures joined { IfOk result (λ opened. IsJoined
        (spelling_of domain.now.state.ports.sizes.sequence_numbers T.parts T.WORDS U.parts U.WORDS)
        (length opened.one.items) opened.lanes.lanes
        domain.now.state.ports.publishers opened.publishers.items (length opened.subscribers.items) opened.connections.items) }
    ensures holds { IfOk result (λ opened. LanesHold
        (spelling_of domain.now.state.ports.sizes.sequence_numbers T.parts T.WORDS U.parts U.WORDS)
        domain.now opened.lanes.lanes opened.publishers.items
        opened.subscribers.items opened.connections.items) }
    ensures fails { IfOk result (λ opened. FailAsAsked B.decision domain.now opened.lanes.lanes opened.publishers.items) }
{
    let opened = build(alloc, domain)?;
    let kept = with_messages(alloc, opened)?;
    Ok(kept)
}

// The lanes with the messages that they found, unless an allocation fails.
fn with_messages<T: Words>(alloc: Global, opened: Opened<T>) -> Result<Recorded<T>, AllocError>
    ensures made { IfOk result (λ made. made ≡ record {
      lanes = record { lanes = opened.lanes; messages = found_messages opened.lanes };
      publishers = opened.publishers;
      subscribers = opened.subscribers;
      connections = opened.connections;
      one = opened.one;
    }) }
    ensures held { IfOk result (λ made. AreAsHeld made.lanes.lanes made.lanes.messages
        × ArePast made.lanes.lanes made.lanes.messages) }
{
    let Opened {
        lanes,
        publishers,
        subscribers,
        connections,
        one,
    } = opened;
    match Lanes::with_found(alloc, lanes) {
        Ok(lanes) => Ok(Recorded {
            lanes,
            publishers,
            subscribers,
            connections,
            one,
        }),
        Err(_) => Err(AllocError),
    }
}
