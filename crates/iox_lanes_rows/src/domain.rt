//! A domain of numbers, and the calls of its ports. Ports are identified by their numbers, which count from 1 in the order in which the
//! ports are created.
ghost use Rattle.std.specs.Prelude.{⊤};

use crate::answers::in_memory;
use iox_describe_base::{AttributeSpecifier, Header, MessageTypeDetails, ServiceName, TypeVariant};
use iox_describe_settings::publish_subscribe::StaticConfig;
use iox_describe_settings::{Description, Settings};
use iox_domain::ports::{PublisherConfig, SubscriberConfig};
use iox_domain::{Domain, DomainId, DomainState, ServicePorts};
use iox_domain_ports::{Member, PublisherEntry, Sent, Taken, Ties};
use iox_domain_values::{
    AllocationStrategy, BackpressureAction, BackpressureFn, BackpressureHandler, BackpressureInfo,
    BackpressureStrategy, DegradationAction, DegradationHandler, Handlers, PortOwner,
    PreallocatedSamplesOverride, SendError,
};
use std::alloc::{AllocError, Global};

/// A domain of numbers of two words, with no user header.
pub(crate) type Numbers = Domain<u128, ()>;

/// The state that the domain hands to the calls of its ports.
pub(crate) type State = DomainState<u128, ()>;

type Ports = ServicePorts<u128, ()>;

// Above each number of one word.
const ABOVE: u128 = 1 << 64;

/// A number in both words of a value.
pub(crate) fn in_both_words(number: u64) -> u128 {
    u128::from(number).saturating_mul(ABOVE + 1)
}

/// The settings of a service.
#[derive(Clone, Copy)]
pub(crate) struct Service {
    pub(crate) variant: TypeVariant,
    pub(crate) overflow: bool,
    pub(crate) buffer: u64,
    pub(crate) history: u64,
    /// The maximum number of samples that a subscriber may hold.
    pub(crate) borrowed: u64,
    pub(crate) numbered: bool,
    /// The maximum number of publishers, and of subscribers.
    pub(crate) ports: u64,
}

// Who answers at a full mailbox.
#[derive(Clone, Copy)]
enum Answering {
    Nobody,
    Fails,
    Object,
}

/// How a publisher is created.
#[derive(Clone, Copy)]
pub(crate) struct Plan {
    pub(crate) config: PublisherConfig,
    strategy: BackpressureStrategy,
    answering: Answering,
}

const OWNER: PortOwner = PortOwner {
    number: 3,
    node_id: 8,
};

const CONFIG: PublisherConfig = PublisherConfig {
    owner: OWNER,
    max_loaned_samples: 1,
    values: 1,
    unit: 1,
    allocation: AllocationStrategy::Static,
    first_sequence: 1,
};

/// A publisher that has at most one loan, and skips full mailboxes.
pub(crate) const PLAIN: Plan = Plan {
    config: CONFIG,
    strategy: BackpressureStrategy::DiscardData,
    answering: Answering::Nobody,
};

/// A publisher whose sends fail at a full mailbox.
pub(crate) const FAILING: Plan = Plan {
    answering: Answering::Fails,
    ..PLAIN
};

/// A publisher whose sends are blocked at a full mailbox.
pub(crate) const WAITING: Plan = Plan {
    strategy: BackpressureStrategy::RetryUntilDelivered,
    ..PLAIN
};

/// A publisher with a boxed handler for full mailboxes.
pub(crate) const ASKING: Plan = Plan {
    answering: Answering::Object,
    ..PLAIN
};

/// A publisher whose slots grow.
pub(crate) const GROWING: Plan = Plan {
    config: PublisherConfig {
        allocation: AllocationStrategy::BestFit,
        ..CONFIG
    },
    ..PLAIN
};

/// A publisher whose last sequence number before its first send is 2^63.
pub(crate) const FAR: Plan = Plan {
    config: PublisherConfig {
        first_sequence: (1 << 63) + 1,
        ..CONFIG
    },
    ..PLAIN
};

/// A publisher whose slots have capacity for two values.
pub(crate) const PAIRS: Plan = Plan {
    config: PublisherConfig {
        values: 2,
        ..CONFIG
    },
    ..PLAIN
};

/// A step of a case in a domain, with its result. Ports are identified by their numbers.
#[derive(Clone, Copy)]
pub(crate) enum InDomain {
    /// A publisher sends a value, with this result.
    Sends(u64, u64, Result<Sent, SendError>),
    /// A subscriber receives the message with this sequence number and this value, and releases it.
    Gets(u64, u64, u64),
    /// A subscriber receives nothing.
    Nothing(u64),
    /// A subscriber is closed.
    Departs(u64),
    /// A publisher is listed a second time, which no call does.
    Relists(u64),
    /// A subscriber receives this value, and the sample is held.
    Holds(u64, u64),
    /// That sample is released.
    Frees,
}

/// A step of a case in a domain that succeeds unless memory runs out.
#[derive(Clone, Copy)]
pub(crate) enum Arrival {
    /// A publisher is created.
    Publisher(Plan),
    /// A subscriber is created, with this buffer size if one is named.
    Subscriber(Option<usize>),
    /// This many subscribers and as many publishers are created, and all update their connections.
    Crowd(u64),
    /// All ports update their connections.
    Meeting,
    /// A publisher sends this many values, from 0 on, and nobody receives them.
    Fill(u64, u64),
}

// An object that decides as little as it can.
#[derive(Drop)]
struct Quiet;

impl BackpressureFn for Quiet {
    ghost allows = { λ _ _ _. ⊤ };

    fn call(&self, _info: &BackpressureInfo) -> BackpressureAction {
        BackpressureAction::DiscardData
    }
}

// What is agreed, as it is described.
fn described(service: &Service) -> Option<Description> {
    let name = ServiceName::new(b"A").ok()?;
    let types = MessageTypeDetails::from::<Header, (), u128>(service.variant);
    let mut config = StaticConfig::new(types);
    config.enable_safe_overflow = service.overflow;
    config.subscriber_max_buffer_size = service.buffer;
    config.history_size = service.history;
    config.sequence_numbers = service.numbered;
    config.subscriber_max_borrowed_samples = service.borrowed;
    config.max_publishers = service.ports;
    config.max_subscribers = service.ports;
    let settings = Settings::PublishSubscribe(config);
    Some(Description::new(name, settings, AttributeSpecifier::new()))
}

// A domain of what is described.
fn new_domain(alloc: Global, description: &Description) -> Option<Numbers> {
    if !Numbers::fits(description) {
        return None;
    }
    let id = DomainId { hub: 7, service: 9 };
    Domain::new(alloc, id, description, 5).ok()
}

/// A domain of a service, without ports.
pub(crate) fn make(alloc: Global, service: &Service) -> Option<Numbers> {
    match described(service) {
        Some(description) => new_domain(alloc, &description),
        None => None,
    }
}

fn backpressure(
    alloc: Global,
    answering: Answering,
) -> Result<Option<BackpressureHandler>, AllocError> {
    Ok(match answering {
        Answering::Nobody => None,
        Answering::Fails => Some(BackpressureHandler::Fixed(
            BackpressureAction::DiscardDataAndFail,
        )),
        Answering::Object => Some(BackpressureHandler::boxed(Box::new(alloc, Quiet)?)),
    })
}

// Whether each place that lists somebody is tied to a connection: a port that comes where memory for one was refused has none there.
fn ties_all<V>(ties: &Ties, listed: &[Option<Member<V>>]) -> bool {
    for place in 0..listed.len() {
        if listed[place].is_some() && ties.get(place).is_none() {
            return false;
        }
    }
    true
}

fn publisher_ties_all(ports: &Ports, number: u64) -> bool {
    match ports.publishers.get(number) {
        Some(port) => ties_all(&port.ties, ports.subscriber_list.listed()),
        None => false,
    }
}

fn subscriber_ties_all(ports: &Ports, number: u64) -> bool {
    match ports.subscribers.get(number) {
        Some(port) => ties_all(&port.places, ports.publisher_list.listed()),
        None => false,
    }
}

// Whether a publisher comes, with all its connections.
fn publish(alloc: Global, state: &mut State, plan: &Plan) -> bool {
    let Ok(backpressure) = backpressure(alloc, plan.answering) else {
        return false;
    };
    let by = Handlers {
        strategy: plan.strategy,
        backpressure,
        degradation: DegradationHandler::Fixed(DegradationAction::DegradeAndFail),
    };
    let slots = PreallocatedSamplesOverride::WorstCase;
    match state.create_publisher(alloc, plan.config, (), &slots, by) {
        Ok(number) => publisher_ties_all(&state.ports, number),
        Err(_) => false,
    }
}

// Whether a subscriber comes, with all its connections.
fn subscribe(alloc: Global, state: &mut State, buffer_size: Option<usize>) -> bool {
    let by = DegradationHandler::Fixed(DegradationAction::DegradeAndFail);
    let config = SubscriberConfig {
        owner: OWNER,
        buffer_size,
    };
    match state.create_subscriber(alloc, config, by) {
        Ok(number) => subscriber_ties_all(&state.ports, number),
        Err(_) => false,
    }
}

// Whether all ports follow the others.
fn meet(alloc: Global, state: &mut State) -> bool {
    for number in 1..state.ports.next_port {
        let answers = [
            state.update_publisher(alloc, number),
            state.update_subscriber(alloc, number),
        ];
        if !answers.contains(&Some(Ok(()))) {
            return false;
        }
    }
    true
}

// Whether this many subscribers come, then as many publishers, and all follow the others.
fn crowd(alloc: Global, state: &mut State, count: u64) -> bool {
    for place in 0..count.saturating_mul(2) {
        let came = if place < count {
            subscribe(alloc, state, None)
        } else {
            publish(alloc, state, &PLAIN)
        };
        if !came {
            return false;
        }
    }
    meet(alloc, state)
}

// What comes of a value that a publisher sends.
fn send(
    alloc: Global,
    state: &mut State,
    number: u64,
    value: u64,
) -> Option<Result<Sent, SendError>> {
    let Some(Ok(slot)) = state.loan(alloc, number, 1, 1) else {
        return None;
    };
    state
        .ports
        .write_payload(number, slot, in_both_words(value));
    state.send(alloc, number, slot)
}

// Whether nobody takes any of this many values that it sends, from 0 on.
fn fill(alloc: Global, state: &mut State, number: u64, count: u64) -> Result<bool, AllocError> {
    for value in 0..count {
        match send(alloc, state, number, value) {
            Some(Ok(Sent::Delivered(0))) => {}
            Some(Ok(_)) => return Ok(false),
            _ => return Err(AllocError),
        }
    }
    Ok(true)
}

// What a subscriber receives.
fn received(alloc: Global, state: &mut State, number: u64) -> Option<Taken> {
    match state.receive(alloc, number) {
        Some(Ok(taken)) => taken,
        _ => None,
    }
}

// Whether it receives nothing.
fn gets_nothing(alloc: Global, state: &mut State, number: u64) -> bool {
    matches!(state.receive(alloc, number), Some(Ok(None)))
}

// Whether a sample has this value.
fn has_value(ports: &Ports, sample: Taken, value: u64) -> bool {
    ports.payload(sample) == Some(&[in_both_words(value)])
}

// Whether its message has this number.
fn has_sequence(ports: &Ports, sample: Taken, sequence: u64) -> bool {
    match ports.header(sample) {
        Some(header) => header.sequence() == Some(sequence),
        None => false,
    }
}

// Whether a subscriber receives this message, and releases it.
fn gets(alloc: Global, state: &mut State, number: u64, sequence: u64, value: u64) -> bool {
    let Some(sample) = received(alloc, state, number) else {
        return false;
    };
    has_sequence(&state.ports, sample, sequence)
        && has_value(&state.ports, sample, value)
        && state.ports.release(number, sample)
}

// Whether it receives this value; the sample is kept.
fn holds(
    alloc: Global,
    state: &mut State,
    kept: &mut Option<Taken>,
    number: u64,
    value: u64,
) -> bool {
    *kept = received(alloc, state, number);
    match *kept {
        Some(sample) => has_value(&state.ports, sample, value),
        None => false,
    }
}

// Whether the sample that is kept is released.
fn frees(ports: &mut Ports, kept: &Option<Taken>) -> bool {
    match *kept {
        Some(sample) => ports.release(sample.subscriber, sample),
        None => false,
    }
}

// Whether a publisher is listed once more.
fn relists(ports: &mut Ports, publisher: u64) -> bool {
    let entry = PublisherEntry { publisher };
    ports.publisher_list.enter(entry).is_some()
}

/// Whether the step succeeds.
pub(crate) fn comes(
    alloc: Global,
    domain: &mut Option<Numbers>,
    step: &Arrival,
) -> Result<bool, AllocError> {
    let Some(domain) = domain else {
        return Ok(false);
    };
    let state = &mut domain.state;
    in_memory(match step {
        Arrival::Publisher(plan) => publish(alloc, state, plan),
        Arrival::Subscriber(buffer_size) => subscribe(alloc, state, *buffer_size),
        Arrival::Crowd(count) => crowd(alloc, state, *count),
        Arrival::Meeting => meet(alloc, state),
        Arrival::Fill(number, count) => return fill(alloc, state, *number, *count),
    })
}

/// Whether a step has the stated result.
pub(crate) fn goes(
    alloc: Global,
    domain: &mut Option<Numbers>,
    kept: &mut Option<Taken>,
    step: &InDomain,
) -> bool {
    let Some(domain) = domain else {
        return false;
    };
    let state = &mut domain.state;
    match *step {
        InDomain::Sends(number, value, answer) => send(alloc, state, number, value) == Some(answer),
        InDomain::Gets(number, sequence, value) => gets(alloc, state, number, sequence, value),
        InDomain::Nothing(number) => gets_nothing(alloc, state, number),
        InDomain::Departs(number) => state.leave_subscriber(number),
        InDomain::Relists(number) => relists(&mut state.ports, number),
        InDomain::Holds(number, value) => holds(alloc, state, kept, number, value),
        InDomain::Frees => frees(&mut state.ports, kept),
    }
}
