//! Ports of a payload type that only the description defines.
use crate::ports::{is_given_up, meet, must_be_free, must_be_there, sent_to, taken};
use iox_delivery::Sent;
use iox_delivery::slices::{Publisher, SampleMutUninit, Subscriber};
use iox_delivery_factories::slices::{PortFactoryPublisher, PortFactorySubscriber};
use iox_delivery_factories::{slice_publisher_builder, slice_subscriber_builder};
use iox_describe_base::{
    AttributeSpecifier, Header, MessageTypeDetails, ServiceName, TypeDetail, TypeVariant,
    ZeroCopySend,
};
use iox_describe_settings::publish_subscribe::StaticConfig;
use iox_describe_settings::{Description, Settings};
use iox_domain::settings::{CustomHeaderMarker, CustomPayloadMarker};
use iox_domain::{Domain, DomainId, Home, Nobody, calls};
use iox_domain_values::{AllocationStrategy, Decides, Degrades, LoanError, Overrides, SendError};
use iox_queues_base::Words;
use std::alloc::Global;
use std::process::Abort;

// Which domain it is.
const DOMAIN: DomainId = DomainId { hub: 2, service: 7 };

// A byte.
type Byte = CustomPayloadMarker;

// Each byte of what is sent.
const SEVEN_BYTE: Byte = CustomPayloadMarker { byte: 7 };

// A user header that isn't reached.
type Any = CustomHeaderMarker;

// Elements, as bytes, for whose ports nobody decides.
type Elements = Domain<Byte, Any, Nobody, Nobody>;

/// The domain of a service with these settings, whose ports have no handlers.
pub(crate) fn make<T: Words + ZeroCopySend, U: Copy + ZeroCopySend>(
    alloc: Global,
    agreed: StaticConfig,
) -> Option<Domain<T, U, Nobody, Nobody>> {
    let name = ServiceName::new(b"A").ok()?;
    let settings = Settings::PublishSubscribe(agreed);
    let description = Description::new(name, settings, AttributeSpecifier::new());
    if Domain::<T, U, Nobody, Nobody>::fits(&description) {
        Domain::new(alloc, DOMAIN, &description, 5).ok()
    } else {
        None
    }
}

// What is agreed on slices whose elements have this many bytes. A full mailbox holds a send up.
fn agreed(size: u64) -> Option<StaticConfig> {
    let mut types = MessageTypeDetails::from::<Header, u16, u64>(TypeVariant::Dynamic);
    types.payload = TypeDetail::new(TypeVariant::Dynamic, b"Element", size, 1).ok()?;
    let mut agreed = StaticConfig::new(types);
    agreed.enable_safe_overflow = false;
    Some(agreed)
}

// How many bytes an element has, how many elements a publisher loans at first, what a longer loan does, and what is asked of it.
struct Case {
    size: u64,
    first: usize,
    allocation: AllocationStrategy,
    calls: &'static [Call],
}

// One call, and what it answers.
enum Call {
    // This many elements are loaned, which are this many bytes, or why not; they are dropped again.
    Lends(usize, Result<usize, LoanError>),
    // This many bytes fit in a slot.
    Room(usize),
    // This many elements are sent, and received as this many bytes.
    Sends(usize, usize),
    // No elements are sent, and not received. Or a send of them is blocked, is tried again in vain, and given up.
    SendsNothing(bool),
}

// What makes a publisher with one loan.
fn publishers(domain: &Elements, case: &Case) -> Option<PortFactoryPublisher<Byte, Any, Nobody>> {
    let builder = slice_publisher_builder(domain, 4, 3)?
        .max_loaned_samples(1)
        .allocation_strategy(case.allocation)
        .initial_max_slice_len(case.first)
        .set_handlers(Nobody);
    Some(builder)
}

// How many values were loaned. They are dropped again.
fn values_of<T: Copy, U: Copy, H: Home<T, U>>(
    lent: Result<SampleMutUninit<T, U>, LoanError>,
    home: &mut H,
) -> Result<usize, LoanError> {
    match lent {
        Ok(loan) => {
            let values = loan.len();
            if is_given_up(loan, home) {
                Ok(values)
            } else {
                Err(LoanError::InternalFailure)
            }
        }
        Err(error) => Err(error),
    }
}

// How many values fit in a slot of the publisher.
fn room<T: Copy, U: Copy, H: Home<T, U>>(home: &H, publisher: Publisher<T, U>) -> Option<usize> {
    let ports = calls::ports(home, publisher.domain())?;
    let publisher = ports.publishers.get(publisher.id())?;
    Some(publisher.sender.room())
}

// To how many mailboxes a loan is sent, each of whose values is this one, or why to none.
fn sends<T: Copy, U: Copy, H: Home<T, U>>(
    rt: &impl Abort,
    alloc: Global,
    home: &mut H,
    loan: SampleMutUninit<T, U>,
    value: T,
) -> Result<usize, SendError> {
    must_be_there(rt, loan.holds(home));
    let sample = loan.write_from_fn(home, &mut |_place: usize| value);
    must_be_free(rt, sample.holds(home), sample.is_blocked(home));
    sent_to(sample.send(alloc, home), home)
}

// Whether this many elements are received as this many bytes, the last of which is 7.
fn receives<U: Copy, H: Home<Byte, U>>(
    rt: &impl Abort,
    alloc: Global,
    home: &mut H,
    subscriber: Subscriber<Byte, U>,
    elements: usize,
    bytes: usize,
) -> bool {
    must_be_there(rt, subscriber.holds(home));
    let last = if bytes == 0 { None } else { Some(SEVEN_BYTE) };
    match subscriber.receive_custom_payload(alloc, home) {
        Ok(Some(sample)) => taken(rt, home, sample) == (elements as u64, bytes, last, None),
        Ok(None) => false,
        Err(_) => false,
    }
}

// Whether a send goes to one mailbox; or it waits, also when it is tried again, and its publisher can't be closed then, and stays.
fn is_sent<T: Copy, U: Copy, H: Home<T, U>>(
    rt: &impl Abort,
    sent: Result<Sent<T, U>, SendError>,
    home: &mut H,
    publisher: Publisher<T, U>,
    waits: bool,
) -> bool {
    match sent {
        Ok(Sent::Delivered(delivered)) => delivered == 1 && !waits,
        Ok(Sent::Blocked(blocked)) => {
            let stays = publisher.drop_with(home).is_err();
            must_be_there(rt, blocked.holds(home));
            let retried = sent_to(blocked.retry(home, 5), home);
            stays && retried == Err(SendError::UnableToDeliver) && waits
        }
        Err(_) => false,
    }
}

// Whether a call goes as stated.
fn goes<U: Copy, H: Home<Byte, U>>(
    rt: &impl Abort,
    alloc: Global,
    home: &mut H,
    (publisher, subscriber): (Publisher<Byte, U>, Subscriber<Byte, U>),
    call: &Call,
) -> bool {
    must_be_free(rt, publisher.holds(home), publisher.is_blocked(home));
    match *call {
        Call::Lends(len, bytes) => {
            must_be_there(rt, publisher.may_have(len));
            values_of(publisher.loan_custom_payload(alloc, home, len), home) == bytes
        }
        Call::Room(bytes) => room(home, publisher) == Some(bytes),
        Call::Sends(len, bytes) => {
            must_be_there(rt, publisher.may_have(len));
            match publisher.loan_custom_payload(alloc, home, len) {
                Ok(loan) => sends(rt, alloc, home, loan, SEVEN_BYTE) == Ok(1)
                    && receives(rt, alloc, home, subscriber, len, bytes),
                Err(_) => false,
            }
        }
        Call::SendsNothing(waits) => {
            let sent = publisher.send_slice(alloc, home, &[]);
            is_sent(rt, sent, home, publisher, waits)
        }
    }
}

// How many calls go as stated with new ports, one after the other.
fn converse<
    U: Copy + Default,
    B: Decides + Degrades,
    O: Overrides,
    D: Degrades,
    H: Home<Byte, U, ForPublishers = B, ForSubscribers = D>,
>(
    rt: &impl Abort,
    alloc: Global,
    home: &mut H,
    publishers: PortFactoryPublisher<Byte, U, B, O>,
    subscribers: PortFactorySubscriber<Byte, U, D>,
    calls: &[Call],
) -> usize {
    let Some(ports) = meet(rt, alloc, home, publishers, subscribers) else {
        return 0;
    };
    for (place, call) in calls.iter().enumerate() {
        if !goes(rt, alloc, home, ports, call) {
            return place;
        }
    }
    calls.len()
}

// How many calls of a case go as stated with new ports of a domain.
fn goes_in(rt: &impl Abort, alloc: Global, domain: &mut Elements, case: &Case) -> usize {
    match (
        publishers(domain, case),
        slice_subscriber_builder(domain, 4, 3),
    ) {
        (Some(publishers), Some(subscribers)) => {
            let subscribers = subscribers.set_handler(Nobody);
            converse(rt, alloc, domain, publishers, subscribers, case.calls)
        }
        _ => 0,
    }
}

// How many calls go as stated in a new domain.
fn go(rt: &impl Abort, alloc: Global, case: &Case) -> usize {
    let Some(agreed) = agreed(case.size) else {
        return 0;
    };
    match make(alloc, agreed) {
        Some(mut domain) => goes_in(rt, alloc, &mut domain, case),
        None => 0,
    }
}

const STATIC: AllocationStrategy = AllocationStrategy::Static;

const BEST_FIT: AllocationStrategy = AllocationStrategy::BestFit;

const POWER_OF_TWO: AllocationStrategy = AllocationStrategy::PowerOfTwo;

// Elements of eight bytes, five at most. A mailbox holds two messages.
const EIGHT: Case = Case {
    size: 8,
    first: 5,
    allocation: STATIC,
    calls: &[
        Call::Lends(6, Err(LoanError::ExceedsMaxLoanSize)),
        Call::Room(40),
        Call::Lends(5, Ok(40)),
        Call::Sends(5, 40),
        Call::Sends(0, 0),
        Call::SendsNothing(false),
        Call::SendsNothing(false),
        Call::SendsNothing(true),
    ],
};

// A longer loan takes the next power of two elements.
const POWERS: Case = Case {
    size: 3,
    first: 4,
    allocation: POWER_OF_TWO,
    calls: &[
        Call::Lends(4, Ok(12)),
        Call::Room(12),
        Call::Lends(5, Ok(15)),
        Call::Room(24),
        Call::Lends(8, Ok(24)),
        Call::Room(24),
        Call::Lends(9, Ok(27)),
        Call::Room(48),
        Call::Lends(2, Ok(6)),
        Call::Room(48),
        Call::Sends(1000, 3000),
        Call::Room(3072),
    ],
};

// A longer loan takes just as many elements.
const FITS: Case = Case {
    size: 3,
    first: 4,
    allocation: BEST_FIT,
    calls: &[
        Call::Lends(4, Ok(12)),
        Call::Room(12),
        Call::Lends(5, Ok(15)),
        Call::Room(15),
        Call::Lends(8, Ok(24)),
        Call::Room(24),
        Call::Lends(9, Ok(27)),
        Call::Room(27),
        Call::Lends(2, Ok(6)),
        Call::Room(27),
        Call::Sends(1000, 3000),
        Call::Room(3000),
    ],
};

// Elements without bytes are counted.
const NOTHING: Case = Case {
    size: 0,
    first: 2,
    allocation: STATIC,
    calls: &[
        Call::Lends(2, Ok(0)),
        Call::Lends(3, Err(LoanError::ExceedsMaxLoanSize)),
        Call::Sends(2, 0),
    ],
};

// Elements of one byte, of two and of seven, as many as are named.
const ONE: Case = Case {
    size: 1,
    first: 0,
    allocation: BEST_FIT,
    calls: &[
        Call::Sends(0, 0),
        Call::Sends(1, 1),
        Call::Sends(2, 2),
        Call::Sends(7, 7),
        Call::Sends(64, 64),
        Call::Sends(1000, 1000),
    ],
};

const TWO: Case = Case {
    size: 2,
    first: 0,
    allocation: BEST_FIT,
    calls: &[
        Call::Sends(1, 2),
        Call::Sends(7, 14),
        Call::Sends(1000, 2000),
    ],
};

const SEVEN: Case = Case {
    size: 7,
    first: 1000,
    allocation: STATIC,
    calls: &[
        Call::Sends(1, 7),
        Call::Sends(64, 448),
        Call::Sends(1000, 7000),
    ],
};

// Elements of 64 bytes and of 1000.
const LARGE: Case = Case {
    size: 64,
    first: 64,
    allocation: STATIC,
    calls: &[Call::Sends(1, 64), Call::Sends(64, 4096)],
};

const LARGEST: Case = Case {
    size: 1000,
    first: 1,
    allocation: POWER_OF_TWO,
    calls: &[Call::Sends(1, 1000), Call::Sends(7, 7000), Call::Room(8000)],
};

// Longer segments than 2^32 - 1 bytes aren't opened, however many elements are asked for.
const ENDS: Case = Case {
    size: 8,
    first: 1,
    allocation: POWER_OF_TWO,
    calls: &[
        Call::Lends(0x1000_0001, Err(LoanError::OutOfMemory)),
        Call::Room(8),
        Call::Lends(0x1_0000_0000, Err(LoanError::OutOfMemory)),
        Call::Room(8),
        Call::Lends(usize::MAX, Err(LoanError::OutOfMemory)),
        Call::Room(8),
        Call::Sends(1, 8),
    ],
};

const CASES: [Case; 10] = [
    EIGHT, POWERS, FITS, NOTHING, ONE, TWO, SEVEN, LARGE, LARGEST, ENDS,
];

#[test]
fn elements_of_all_sizes_are_sent(rt: HostRuntime) {
    for (place, case) in CASES.iter().enumerate() {
        let gone = go(&rt, rt.alloc(), case);
        assert!(&rt; gone == case.calls.len(), "case {place}, call {gone}");
    }
}
