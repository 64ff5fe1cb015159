//! Messages of slices.
use crate::custom::make;
use crate::ports::{is_given_up, meet, must_be_free, must_be_there, sent_to, taken};
use crate::values::kept_once;
use iox_delivery::slices::{Publisher, SampleMutUninit, Subscriber};
use iox_delivery_factories::slices::{PortFactoryPublisher, PortFactorySubscriber};
use iox_delivery_factories::{slice_publisher_builder, slice_subscriber_builder};
use iox_describe_base::{Header, MessageTypeDetails, TypeVariant};
use iox_describe_settings::publish_subscribe::StaticConfig;
use iox_domain::{Domain, Home, Nobody};
use iox_domain_values::{Decides, Degrades, Overrides};
use std::alloc::Global;
use std::process::Abort;

// How many values a slice has.
const LENGTHS: [usize; 6] = [0, 1, 2, 7, 64, 1000];

// As many values as any slice has.
const SEVENS: [u64; 1000] = [7; 1000];

// Slices of `u64`, with a `u8` for a user header, for whose ports nobody decides.
type Slices = Domain<u64, u8, Nobody, Nobody>;

// One call of a publisher or of a subscriber.
enum Call {
    // This many defaults are loaned, and given up again.
    LendsDefaults,
    // This many values are loaned, as the header tells, and given up again.
    Lends,
    // This many values are sent to one mailbox.
    Sends,
    // This many values are received with this number, and released.
    Receives(u64),
}

const CALLS: &[Call] = &[
    Call::LendsDefaults,
    Call::Lends,
    Call::Sends,
    Call::Sends,
    Call::Receives(41),
    Call::Receives(42),
];

// What is agreed on slices, whose messages have numbers.
fn agreed() -> StaticConfig {
    let types = MessageTypeDetails::from::<Header, u8, u64>(TypeVariant::Dynamic);
    let mut agreed = StaticConfig::new(types);
    agreed.sequence_numbers = true;
    agreed
}

// What makes a publisher of slices of this many values at first, with this many slots as it is decided once. Its first message has number
// 41.
fn publishers(
    alloc: Global,
    domain: &Slices,
    len: usize,
) -> Option<PortFactoryPublisher<u64, u8, Nobody>> {
    let overriding = kept_once(alloc).ok()?;
    let builder = slice_publisher_builder(domain, 4, 3)?
        .override_sample_preallocation(overriding)
        .initial_max_slice_len(len)
        .first_sequence(41)
        .set_handlers(Nobody);
    Some(builder)
}

// Whether the header of a loan names the node and this many values. It is dropped again.
fn tells<T: Copy, U: Copy, H: Home<T, U>>(
    rt: &impl Abort,
    home: &mut H,
    loan: SampleMutUninit<T, U>,
    len: usize,
) -> bool {
    must_be_there(rt, loan.holds(home));
    let header = loan.header(home);
    is_given_up(loan, home) && (header.node_id, header.number_of_elements) == (4, len as u64)
}

// Whether a call goes as stated, with these values.
fn goes<T: Copy + Default + PartialEq, U: Copy, H: Home<T, U>>(
    rt: &impl Abort,
    alloc: Global,
    home: &mut H,
    (publisher, subscriber): (Publisher<T, U>, Subscriber<T, U>),
    call: &Call,
    values: &[T],
) -> bool {
    must_be_free(rt, publisher.holds(home), publisher.is_blocked(home));
    must_be_there(rt, subscriber.holds(home));
    let len = values.len();
    match *call {
        Call::LendsDefaults => match publisher.loan_slice(alloc, home, len) {
            Ok(sample) => is_given_up(sample, home),
            Err(_) => false,
        },
        Call::Lends => match publisher.loan_slice_uninit(alloc, home, len) {
            Ok(loan) => tells(rt, home, loan, len),
            Err(_) => false,
        },
        Call::Sends => sent_to(publisher.send_slice(alloc, home, values), home) == Ok(1),
        Call::Receives(number) => match subscriber.receive(alloc, home) {
            Ok(Some(sample)) => taken(rt, home, sample)
                == (len as u64, len, values.last().copied(), Some(number)),
            Ok(None) => false,
            Err(_) => false,
        },
    }
}

// Whether new ports converse with these values.
fn converse<
    T: Copy + Default + PartialEq,
    U: Copy + Default,
    B: Decides + Degrades,
    O: Overrides,
    D: Degrades,
    H: Home<T, U, ForPublishers = B, ForSubscribers = D>,
>(
    rt: &impl Abort,
    alloc: Global,
    home: &mut H,
    publishers: PortFactoryPublisher<T, U, B, O>,
    subscribers: PortFactorySubscriber<T, U, D>,
    values: &[T],
) -> bool {
    let Some(ports) = meet(rt, alloc, home, publishers, subscribers) else {
        return false;
    };
    for call in CALLS {
        if !goes(rt, alloc, home, ports, call, values) {
            return false;
        }
    }
    true
}

// The same with new ports of a domain, and with this many values.
fn goes_in(rt: &impl Abort, alloc: Global, domain: &mut Slices, len: usize) -> bool {
    let Some(subscribers) = slice_subscriber_builder(domain, 4, 3) else {
        return false;
    };
    let subscribers = subscribers.set_handler(Nobody);
    match (publishers(alloc, domain, len), SEVENS.get(..len)) {
        (Some(publishers), Some(values)) => {
            converse(rt, alloc, domain, publishers, subscribers, values)
        }
        _ => false,
    }
}

// Whether slices of this many values go through a new domain.
fn go(rt: &impl Abort, alloc: Global, len: usize) -> bool {
    match make(alloc, agreed()) {
        Some(mut domain) => goes_in(rt, alloc, &mut domain, len),
        None => false,
    }
}

// Whether a loan that is dropped in another domain comes back, and is then dropped in its own.
fn loan_comes_back(
    rt: &impl Abort,
    alloc: Global,
    domain: &mut Slices,
    other: &mut Slices,
    publisher: Publisher<u64, u8>,
) -> bool {
    must_be_free(rt, publisher.holds(domain), publisher.is_blocked(domain));
    match publisher.loan_slice_uninit(alloc, domain, 1) {
        Ok(loan) => match loan.drop_with(other) {
            Ok(()) => false,
            Err(kept) => is_given_up(kept, domain),
        },
        Err(_) => false,
    }
}

// Whether a sample that is dropped in another domain comes back, and is then read and released in its own.
fn sample_comes_back(
    rt: &impl Abort,
    alloc: Global,
    domain: &mut Slices,
    other: &mut Slices,
    subscriber: Subscriber<u64, u8>,
) -> bool {
    must_be_there(rt, subscriber.holds(domain));
    match subscriber.receive(alloc, domain) {
        Ok(Some(sample)) => match sample.drop_with(other) {
            Ok(()) => false,
            Err(kept) => taken(rt, domain, kept) == (1, 1, Some(7), Some(41)),
        },
        Ok(None) => false,
        Err(_) => false,
    }
}

// Whether what is dropped in another domain comes back.
fn comes_back(rt: &impl Abort, alloc: Global) -> Option<bool> {
    let mut domain = make(alloc, agreed())?;
    let mut other = make(alloc, agreed())?;
    let subscribers = slice_subscriber_builder(&domain, 4, 3)?.set_handler(Nobody);
    let publishers = publishers(alloc, &domain, 1)?;
    let (publisher, subscriber) = meet(rt, alloc, &mut domain, publishers, subscribers)?;
    let loan_stays = loan_comes_back(rt, alloc, &mut domain, &mut other, publisher);
    must_be_free(rt, publisher.holds(&domain), publisher.is_blocked(&domain));
    let sent = publisher.send_slice(alloc, &mut domain, &[7]);
    let is_sent = sent_to(sent, &mut domain) == Ok(1);
    let sample_stays = sample_comes_back(rt, alloc, &mut domain, &mut other, subscriber);
    Some(loan_stays && is_sent && sample_stays)
}

#[test]
fn what_is_dropped_in_another_domain_comes_back(rt: HostRuntime) {
    assert!(&rt; comes_back(&rt, rt.alloc()) == Some(true));
}

#[test]
fn slices_of_all_lengths_are_sent(rt: HostRuntime) {
    for len in &LENGTHS {
        assert!(&rt; go(&rt, rt.alloc(), *len), "{len}");
    }
}
