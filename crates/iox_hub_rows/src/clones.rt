//! What ports report about themselves whose builders were cloned, and what they do at a full mailbox.
use crate::ports::{must_be_free, must_be_there, sent_to};
use iox_delivery::{Publisher, Subscriber, UpdateConnections};
use iox_delivery_factories::{
    publisher_builder, slice_publisher_builder, slice_subscriber_builder, subscriber_builder,
};
use iox_describe_base::{AttributeSpecifier, Header, MessageTypeDetails, ServiceName, TypeVariant};
use iox_describe_settings::publish_subscribe::StaticConfig;
use iox_describe_settings::{Description, Settings};
use iox_domain::{Domain, DomainId, Home};
use iox_domain_values::{BackpressureStrategy, DegradationHandler, Handlers, SendError};
use std::alloc::Global;
use std::process::Abort;

/// Which domain it is.
pub(crate) const DOMAIN: DomainId = DomainId { hub: 2, service: 7 };

// Messages of `u64`, for whose ports handlers may decide.
type Asking = Domain<u64, u8, Handlers, DegradationHandler>;

/// A service of messages of `u64` in which three may wait, and a full mailbox holds a send up, for whose ports these decide.
pub(crate) fn made<B: Drop, D: Drop>(
    alloc: Global,
    variant: TypeVariant,
) -> Option<Domain<u64, u8, B, D>> {
    let types = MessageTypeDetails::from::<Header, u8, u64>(variant);
    let mut agreed = StaticConfig::new(types);
    agreed.enable_safe_overflow = false;
    agreed.subscriber_max_buffer_size = 3;
    let name = ServiceName::new(b"A").ok()?;
    let description = Description::new(
        name,
        Settings::PublishSubscribe(agreed),
        AttributeSpecifier::new(),
    );
    if Domain::<u64, u8, B, D>::fits(&description) {
        Domain::new(alloc, DOMAIN, &description, 5).ok()
    } else {
        None
    }
}

// What is done at a full mailbox, how many messages may wait, and for how many values a slot has room at first.
type Told = (BackpressureStrategy, usize, usize);

// What ports report if two messages may wait, and no send is blocked.
const TOLD: Told = (BackpressureStrategy::DiscardData, 2, 5);

// How many mailboxes take a message that is sent once more.
fn sends<T: Copy, U: Copy, H: Home<T, U>>(
    rt: &impl Abort,
    alloc: Global,
    home: &mut H,
    publisher: Publisher<T, U>,
    value: T,
) -> Result<usize, SendError> {
    must_be_free(rt, publisher.holds(home), publisher.is_blocked(home));
    sent_to(publisher.send_copy(alloc, home, value), home)
}

// Which node and which port sent what is received, by its header and by its origin, and how many elements it has.
fn received<T: Copy, U: Copy, H: Home<T, U>>(
    rt: &impl Abort,
    alloc: Global,
    home: &mut H,
    subscriber: Subscriber<T, U>,
) -> Option<[u64; 4]> {
    must_be_there(rt, subscriber.holds(home));
    let sample = subscriber.receive(alloc, home).ok()??;
    must_be_there(rt, sample.holds(home));
    let header = sample.header(home);
    let origin = sample.origin(home);
    sample.release(home);
    Some([
        header.node_id,
        header.publisher_id,
        origin,
        header.number_of_elements,
    ])
}

// Whether two messages are taken and the mailbox is skipped for a third one, and the first one's header reports its sender: the node,
// the number, and one element.
fn passes_over<H: Home<u64, u8>>(
    rt: &impl Abort,
    alloc: Global,
    home: &mut H,
    publisher: Publisher<u64, u8>,
    subscriber: Subscriber<u64, u8>,
) -> bool {
    must_be_there(rt, subscriber.holds(home));
    let follows = subscriber.update_connections(alloc, home) == Ok(());
    let sent = [
        sends(rt, alloc, home, publisher, 1),
        sends(rt, alloc, home, publisher, 2),
        sends(rt, alloc, home, publisher, 3),
    ];
    let number = publisher.id();
    follows
        && sent == [Ok(1), Ok(1), Ok(0)]
        && received(rt, alloc, home, subscriber) == Some([4, number, number, 1])
}

// Whether these are the second and the first port of the domain.
fn are_numbered<T: Copy, U: Copy>(
    publisher: Publisher<T, U>,
    subscriber: Subscriber<T, U>,
) -> bool {
    let ids = (publisher.id(), publisher.domain());
    ids == (2, DOMAIN) && (subscriber.id(), subscriber.domain()) == (1, DOMAIN)
}

// What ports of single values report whose builders were cloned; and whether a send of them skips a full mailbox.
fn values(rt: &impl Abort, alloc: Global, domain: &mut Asking) -> Option<bool> {
    let publishers = publisher_builder(domain, 4, 3)?
        .backpressure_strategy(TOLD.0)
        .partial_clone();
    let subscribers = subscriber_builder(domain, 4, 3)?
        .buffer_size(TOLD.1)
        .partial_clone();
    must_be_there(rt, subscribers.holds(domain));
    let subscriber = subscribers.create(alloc, domain).ok()?;
    must_be_there(rt, publishers.holds(domain));
    let publisher = publishers.create(alloc, domain).ok()?;
    let told = (publisher.backpressure_strategy(), subscriber.buffer_size());
    Some(
        told == (TOLD.0, TOLD.1)
            && are_numbered(publisher, subscriber)
            && passes_over(rt, alloc, domain, publisher, subscriber),
    )
}

// The same of slices, but for what is sent.
fn slices(rt: &impl Abort, alloc: Global, domain: &mut Asking) -> Option<Told> {
    let publishers = slice_publisher_builder(domain, 4, 3)?
        .backpressure_strategy(TOLD.0)
        .initial_max_slice_len(TOLD.2)
        .partial_clone();
    let subscribers = slice_subscriber_builder(domain, 4, 3)?
        .buffer_size(TOLD.1)
        .partial_clone();
    must_be_there(rt, subscribers.holds(domain));
    let subscriber = subscribers.create_slice(alloc, domain).ok()?;
    must_be_there(rt, publishers.holds(domain));
    let publisher = publishers.create_slice(alloc, domain).ok()?;
    Some((
        publisher.backpressure_strategy(),
        subscriber.buffer_size(),
        publisher.initial_max_slice_len(),
    ))
}

// Whether both are so, each in a domain of its kind.
fn are_told(rt: &impl Abort, alloc: Global) -> Option<bool> {
    let mut of_values = made(alloc, TypeVariant::FixedSize)?;
    let mut of_slices = made(alloc, TypeVariant::Dynamic)?;
    let values = values(rt, alloc, &mut of_values)?;
    let slices = slices(rt, alloc, &mut of_slices)?;
    Some(values && slices == TOLD)
}

#[test]
fn ports_tell_what_their_copied_builders_were_told(rt: HostRuntime) {
    let told = are_told(&rt, rt.alloc());
    assert!(rt; told == Some(true));
}
