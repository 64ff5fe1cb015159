//! Messages of single values from node to node, up to the last sequence number.
use crate::ports::{must_be_free, must_be_there, sent_to};
use crate::services::{Course, How, Messages, Service, come_new, go};
use iox_delivery::{Publisher, Sample, SampleMut, Subscriber, UpdateConnections};
use iox_delivery_factories::{PortFactoryPublisher, PortFactorySubscriber};
use iox_domain::{Home, Nobody};
use iox_domain_values::{Decides, Degrades, LoanError, Overrides, ReceiveError, SendError};
use std::alloc::Global;
use std::process::Abort;
use std::test::Fail;

// What a publisher does.
#[derive(Clone, Copy)]
enum Publishing<T> {
    // It follows the subscribers.
    Follows,
    // A value is loaned, written and sent.
    Lends(T),
    // A default is loaned and sent.
    LendsDefault,
    // A copy is sent.
    Copies(T),
}

// What a subscriber does, and what it is answered.
#[derive(Clone, Copy)]
enum Listening<T> {
    // It follows the publishers.
    Follows,
    // Whether it has samples.
    Has(bool),
    // It receives this value and number, or none, and releases it.
    Receives(Option<(T, Option<u64>)>),
}

// One call. That of a publisher sends to this many mailboxes, or says why not.
enum Call<T> {
    Publisher(Publishing<T>, Result<usize, SendError>),
    Subscriber(Listening<T>),
}

// The number of the first message: three follow.
const FIRST: u64 = u64::MAX - 3;

const USED_UP: Result<usize, SendError> = Err(SendError::InternalError);

// Of four messages in a mailbox of three the oldest goes. After the last number nothing is sent, and the loan ends.
const CALLS: &[Call<u64>] = &[
    Call::Publisher(Publishing::Follows, Ok(0)),
    Call::Subscriber(Listening::Follows),
    Call::Subscriber(Listening::Has(false)),
    Call::Subscriber(Listening::Receives(None)),
    Call::Publisher(Publishing::Copies(1), Ok(1)),
    Call::Publisher(Publishing::Lends(2), Ok(1)),
    Call::Publisher(Publishing::LendsDefault, Ok(1)),
    Call::Publisher(Publishing::Copies(3), Ok(1)),
    Call::Publisher(Publishing::Copies(4), USED_UP),
    Call::Publisher(Publishing::Lends(5), USED_UP),
    Call::Publisher(Publishing::LendsDefault, USED_UP),
    Call::Subscriber(Listening::Has(true)),
    Call::Subscriber(Listening::Receives(Some((2, Some(u64::MAX - 2))))),
    Call::Subscriber(Listening::Receives(Some((0, Some(u64::MAX - 1))))),
    Call::Subscriber(Listening::Receives(Some((3, Some(u64::MAX))))),
    Call::Subscriber(Listening::Receives(None)),
];

// To how many mailboxes a loan is sent that is written, or why to none.
fn lent_to<T: Copy, U: Copy, H: Home<T, U>>(
    rt: &impl Abort,
    alloc: Global,
    lent: Result<SampleMut<T, U>, LoanError>,
    home: &mut H,
) -> Result<usize, SendError> {
    match lent {
        Ok(sample) => {
            must_be_free(rt, sample.holds(home), sample.is_blocked(home));
            sent_to(sample.send(alloc, home), home)
        }
        Err(error) => Err(SendError::LoanError(error)),
    }
}

// What came, and its number; it is released again.
fn taken<T: Copy, U: Copy, H: Home<T, U>>(
    rt: &impl Abort,
    received: Result<Option<Sample<T, U>>, ReceiveError>,
    home: &mut H,
) -> Result<Option<(T, Option<u64>)>, ReceiveError> {
    match received {
        Ok(Some(sample)) => {
            must_be_there(rt, sample.holds(home));
            let came = (*sample.payload(home), sample.header(home).sequence());
            sample.release(home);
            Ok(Some(came))
        }
        Ok(None) => Ok(None),
        Err(error) => Err(error),
    }
}

// To how many mailboxes a publisher sends, or why to none.
fn publishes<T: Copy + Default, U: Copy, H: Home<T, U>>(
    rt: &impl Abort,
    alloc: Global,
    home: &mut H,
    publisher: Publisher<T, U>,
    publishing: Publishing<T>,
) -> Result<usize, SendError> {
    must_be_free(rt, publisher.holds(home), publisher.is_blocked(home));
    match publishing {
        Publishing::Follows => match publisher.update_connections(alloc, home) {
            Ok(()) => Ok(0),
            Err(failure) => Err(SendError::ConnectionError(failure)),
        },
        Publishing::Lends(value) => {
            let lent = match publisher.loan_uninit(alloc, home) {
                Ok(loan) => Ok(loan.write_payload(home, value)),
                Err(error) => Err(error),
            };
            lent_to(rt, alloc, lent, home)
        }
        Publishing::LendsDefault => lent_to(rt, alloc, publisher.loan(alloc, home), home),
        Publishing::Copies(value) => sent_to(publisher.send_copy(alloc, home, value), home),
    }
}

// Whether a subscriber is answered as stated.
fn listens<T: Copy + PartialEq, U: Copy, H: Home<T, U>>(
    rt: &impl Abort,
    alloc: Global,
    home: &mut H,
    subscriber: Subscriber<T, U>,
    listening: Listening<T>,
) -> bool {
    must_be_there(rt, subscriber.holds(home));
    match listening {
        Listening::Follows => subscriber.update_connections(alloc, home) == Ok(()),
        Listening::Has(has) => subscriber.has_samples(alloc, home) == Ok(has),
        Listening::Receives(came) => taken(rt, subscriber.receive(alloc, home), home) == Ok(came),
    }
}

// How many calls go as stated between new ports, one after the other.
fn converse<
    T: Copy + Default + PartialEq,
    U: Copy + Default,
    B: Decides + Degrades,
    O: Overrides,
    D: Degrades,
    H: Home<T, U, ForPublishers = B, ForSubscribers = D>,
>(
    rt: &impl Abort,
    alloc: Global,
    home: &mut H,
    publishers: PortFactoryPublisher<T, U, B, O>,
    subscribers: PortFactorySubscriber<T, U, D>,
    calls: &[Call<T>],
) -> usize {
    must_be_there(rt, subscribers.holds(home));
    let subscriber = subscribers.create(alloc, home).ok();
    must_be_there(rt, publishers.holds(home));
    let publisher = publishers.create(alloc, home).ok();
    let (Some(publisher), Some(subscriber)) = (publisher, subscriber) else {
        return 0;
    };
    for (place, call) in calls.iter().enumerate() {
        let goes = match *call {
            Call::Publisher(publishing, sent) => {
                publishes(rt, alloc, home, publisher, publishing) == sent
            }
            Call::Subscriber(listening) => listens(rt, alloc, home, subscriber, listening),
        };
        if !goes {
            return place;
        }
    }
    calls.len()
}

// What makes publishers of a service.
fn publishers(
    rt: &impl Abort,
    hub: &Messages,
    service: &Service,
) -> Option<PortFactoryPublisher<u64, u8, Nobody>> {
    must_be_there(rt, hub.holds(service));
    let builder = hub.publisher_builder(service)?.first_sequence(FIRST);
    Some(builder.set_handlers(Nobody))
}

// What makes subscribers of a service.
fn subscribers(
    rt: &impl Abort,
    hub: &Messages,
    service: &Service,
) -> Option<PortFactorySubscriber<u64, u8, Nobody>> {
    must_be_there(rt, hub.holds(service));
    Some(hub.subscriber_builder(service)?.set_handler(Nobody))
}

/// Sends messages from the node that created the service to a node that opened it.
pub(crate) fn agree(rt: &impl Abort, alloc: Global, hub: &mut Messages) -> Result<(), Fail> {
    let made = come_new(rt, alloc, hub, How::Create)?;
    let publishers = publishers(rt, hub, &made);
    let opened = come_new(rt, alloc, hub, How::Open)?;
    let subscribers = subscribers(rt, hub, &opened);
    let gone = match (publishers, subscribers) {
        (Some(publishers), Some(subscribers)) => {
            converse(rt, alloc, hub, publishers, subscribers, CALLS)
        }
        _ => 0,
    };
    assert!(rt; gone == CALLS.len(), "call {gone}");
    Ok(())
}

#[test]
fn a_message_goes_from_node_to_node(rt: HostRuntime) -> Result<(), Fail> {
    go(&rt, rt.alloc(), Course::Values)
}
