//! A recorded hub, called as a program calls it: its answers, why services are refused, and that each received message is known to fit in a
//! vector.
ghost use Rattle.std.specs.Prelude.{◌≡◌, ◌++◌, ◌∷◌, [], Some, IfSome, codes};
ghost use Rattle.std.specs.Option.{option_map};
ghost use Rattle.iox_command.specs.declared.command.Command.TheVariants as command;
ghost use Rattle.iox_hub_commands.specs.Container.NumberTable.{value_at};
ghost use Rattle.iox_hub_commands.specs.Asked.{types_of};
ghost use Rattle.iox_hub_commands.specs.declared.services.made.MadeFactory.TheVariants as made_factory;
ghost use Rattle.iox_hub.specs.Machine.Choices.{Handed, chosen_by};
ghost use Rattle.iox_hub.specs.Recorded.{AreFollowed};
ghost use Rattle.iox_hub.specs.RecordedLaws.{WasSentBefore};

use iox_command::{ForeignStep, PublishSubscribeOptions, PublisherOptions, SubscriberOptions};
use iox_hub::prelude::*;
use iox_hub::recorded::{Named, RecordedHub};
use iox_hub_commands::{PublisherHandlers, SubscriberHandler};
use std::alloc::Global;

// A recorded hub of messages of numbers.
type Recorded = RecordedHub<u64, ()>;

// A service where one message may wait, and none is dropped for a new one.
const SERVICE: PublishSubscribeOptions = PublishSubscribeOptions {
    max_subscribers: None,
    max_publishers: None,
    max_nodes: None,
    subscriber_max_buffer_size: Some(1),
    subscriber_max_borrowed_samples: None,
    history_size: None,
    enable_safe_overflow: Some(false),
    sequence_numbers: None,
};

// A service that numbers messages.
const NUMBERED: PublishSubscribeOptions = PublishSubscribeOptions {
    max_subscribers: None,
    max_publishers: None,
    max_nodes: None,
    subscriber_max_buffer_size: None,
    subscriber_max_borrowed_samples: None,
    history_size: None,
    enable_safe_overflow: None,
    sequence_numbers: Some(true),
};

// Its sends block at a full mailbox.
const PUBLISHER: PublisherOptions = PublisherOptions {
    max_loaned_samples: None,
    backpressure_strategy: Some(BackpressureStrategy::RetryUntilDelivered),
    preallocated_samples: None,
    initial_max_slice_len: Some(64),
    allocation_strategy: None,
    backpressure_handler: None,
    degradation_handler: None,
};

// Nothing is named.
const SUBSCRIBER: SubscriberOptions = SubscriberOptions {
    buffer_size: None,
    degradation_handler: None,
};

// A buffer of 0, which has room for one message.
const NO_BUFFER: SubscriberOptions = SubscriberOptions {
    buffer_size: Some(0),
    degradation_handler: None,
};

// Values of the first message: the longest one is as long as its publisher's first slots.
const VALUES: [&[u64]; 3] = [&[], &[7; 7], &[7; 64]];

// One step of a publisher and of a subscriber, and what it comes to. Values that aren't named are those of the first message.
enum Step {
    // The publisher follows the subscribers.
    PublisherFollows,
    // The subscriber follows the publishers.
    SubscriberFollows,
    // Whether messages wait for the subscriber.
    Has(bool),
    // Values are sent to one subscriber at once; or the send is blocked at the full mailbox, and is still blocked when it is retried.
    Sends(Option<&'static [u64]>, bool),
    // Values are received with this number, or without one, and released.
    Receives(Option<&'static [u64]>, Option<u64>),
    // A loan of defaults is given up.
    GivesUp,
    // A loan of values is written and sent to one subscriber, or refused for this reason.
    Lends(Option<&'static [u64]>, Result<bool, LoanError>),
}

// Messages are exchanged, one of which finds no capacity. Then loans are given up, refused where they are longer than the publisher's
// slots, and sent.
const MESSAGES: &[Step] = &[
    Step::PublisherFollows,
    Step::SubscriberFollows,
    Step::Has(false),
    Step::Sends(None, false),
    Step::Has(true),
    Step::Receives(None, None),
    Step::Sends(Some(&[9]), false),
    Step::Sends(Some(&[10]), true),
    Step::Receives(Some(&[9]), None),
    Step::GivesUp,
    Step::Lends(Some(&[7; 65]), Err(LoanError::ExceedsMaxLoanSize)),
    Step::Lends(None, Ok(true)),
    Step::Receives(None, None),
];

// Messages have the numbers 1 and 2.
const NUMBERS: &[Step] = &[
    Step::Sends(Some(&[7]), false),
    Step::Sends(Some(&[8]), false),
    Step::Receives(Some(&[7]), Some(1)),
    Step::Receives(Some(&[8]), Some(2)),
];

// Whether values are sent to one subscriber at once, or the send is blocked, and is still blocked when it is retried.
fn is_sent(
    alloc: Global,
    hub: &mut Recorded,
    publisher: &Named<slice::Publisher<u64, ()>>,
    values: &[u64],
    waits: bool,
) -> bool
    requires { option_map (λ made. made.port) (value_at hub.old.calls.made.publishers publisher.now.number.value)
        ≡ Some publisher.now.it.port }
    ensures publishers { hub.new.calls.made.publishers ≡ hub.old.calls.made.publishers }
    ensures subscribers { hub.new.calls.made.subscribers ≡ hub.old.calls.made.subscribers }
{
    match hub.send_slice(alloc, publisher, values) {
        Some(Ok(Sent::Delivered(delivered))) => delivered == 1 && !waits,
        Some(Ok(Sent::Blocked(blocked))) => match hub.retry(publisher, blocked, 1) {
            Ok(Ok(Sent::Blocked(blocked))) => hub.give_up(publisher, blocked) == Some(0) && waits,
            Ok(Ok(Sent::Delivered(_))) => false,
            Ok(Err(_)) => false,
            Err(blocked) => {
                let _ = hub.give_up(publisher, blocked);
                false
            }
        },
        Some(Err(_)) => false,
        None => false,
    }
}

// The values of a sample. They were put earlier if `AreFollowed` holds. It says that the services named in the commands have different
// hashes, that there are fewer than 2^56 commands, that the values of each message received before fit in a vector, and that the machine
// has the handlers of the ports, or a handler made of a fixed action always decides by this action.
fn put_values<'a, B: PublisherHandlers, D: SubscriberHandler>(
    hub: &'a RecordedHub<u64, (), B, D>,
    sample: &Named<slice::Sample<u64, ()>>,
) -> Option<&'a [u64]>
    requires { value_at hub.now.calls.made.samples sample.now.number.value
        ≡ Some (record { port = sample.now.it.port; taken = sample.now.it.taken }) }
    ensures put { IfSome result (λ values. (handed : Handed B D) → AreFollowed B.fixed (λ handlers. B.degrades handlers)
        (λ handlers. B.decides handlers) D.fixed (λ handler. D.degrades handler) handed
        (record hub.now.calls { asked = hub.now.calls.asked ++ command.Read sample.now.number.value ∷ [] })
        → WasSentBefore (types_of (codes "u64") 8 8 (codes "()") 0 1) (chosen_by (λ value. value ≡ 0)
        (λ handlers. B.decides handlers) (λ handlers. B.degrades handlers) (λ handler. D.degrades handler) handed)
        hub.now.calls.config.expired_connection_buffer sample.now.number.value values.now hub.now.calls.asked hub.now.calls.answers) }
{
    let values = hub.payload(sample)?;
    if values.len() < 9_223_372_036_854_775_808 {
        Some(values)
    } else {
        None
    }
}

// Whether a subscriber receives these values with this number, or without one, and releases them.
fn is_received(
    alloc: Global,
    hub: &mut Recorded,
    subscriber: &Named<slice::Subscriber<u64, ()>>,
    values: &[u64],
    number: Option<u64>,
) -> bool
    requires { value_at hub.old.calls.made.subscribers subscriber.now.number.value ≡ Some subscriber.now.it.port }
    ensures publishers { hub.new.calls.made.publishers ≡ hub.old.calls.made.publishers }
    ensures subscribers { hub.new.calls.made.subscribers ≡ hub.old.calls.made.subscribers }
{
    match hub.receive(alloc, subscriber) {
        Some(Ok(Some(sample))) => {
            let is = match put_values(hub, &sample) {
                Some(read) => read == values,
                None => false,
            };
            let has = hub.sequence(&sample) == Some(number);
            hub.release(sample) && is && has
        }
        Some(Ok(None)) => false,
        Some(Err(_)) => false,
        None => false,
    }
}

// Whether a loan of these values is written and sent to one subscriber, or why it is refused.
fn lends(
    alloc: Global,
    hub: &mut Recorded,
    publisher: &Named<slice::Publisher<u64, ()>>,
    values: &[u64],
) -> Result<bool, LoanError>
    requires { option_map (λ made. made.port) (value_at hub.old.calls.made.publishers publisher.now.number.value)
        ≡ Some publisher.now.it.port }
    ensures publishers { hub.new.calls.made.publishers ≡ hub.old.calls.made.publishers }
    ensures subscribers { hub.new.calls.made.subscribers ≡ hub.old.calls.made.subscribers }
{
    let loan = match hub.loan_slice_uninit(alloc, publisher, values.len()) {
        Some(Ok(loan)) => loan,
        Some(Err(error)) => return Err(error),
        None => return Ok(false),
    };
    let (sample, is_written) = hub.write_from_slice(loan, values);
    match hub.send(alloc, sample) {
        Ok(Ok(Sent::Delivered(delivered))) => Ok(is_written && delivered == 1),
        Ok(Ok(Sent::Blocked(blocked))) => {
            let _ = hub.give_up(publisher, blocked);
            Ok(false)
        }
        Ok(Err(_)) => Ok(false),
        Err(sample) => {
            hub.drop_loan(sample);
            Ok(false)
        }
    }
}

// Whether a step comes to that.
fn goes(
    alloc: Global,
    hub: &mut Recorded,
    publisher: &Named<slice::Publisher<u64, ()>>,
    subscriber: &Named<slice::Subscriber<u64, ()>>,
    step: &Step,
    values: &[u64],
) -> bool
    requires publisher { option_map (λ made. made.port) (value_at hub.old.calls.made.publishers publisher.now.number.value)
        ≡ Some publisher.now.it.port }
    requires subscriber { value_at hub.old.calls.made.subscribers subscriber.now.number.value ≡ Some subscriber.now.it.port }
    ensures publishers { hub.new.calls.made.publishers ≡ hub.old.calls.made.publishers }
    ensures subscribers { hub.new.calls.made.subscribers ≡ hub.old.calls.made.subscribers }
{
    match *step {
        Step::PublisherFollows => match hub.update_publisher(alloc, publisher) {
            Some(Ok(())) => true,
            Some(Err(_)) => false,
            None => false,
        },
        Step::SubscriberFollows => match hub.update_subscriber(alloc, subscriber) {
            Some(Ok(())) => true,
            Some(Err(_)) => false,
            None => false,
        },
        Step::Has(waits) => match hub.has_samples(alloc, subscriber) {
            Some(Ok(has)) => has == waits,
            Some(Err(_)) => false,
            None => false,
        },
        Step::Sends(other, waits) => {
            is_sent(alloc, hub, publisher, other.unwrap_or(values), waits)
        }
        Step::Receives(other, number) => {
            is_received(alloc, hub, subscriber, other.unwrap_or(values), number)
        }
        Step::GivesUp => match hub.loan_slice(alloc, publisher, 3) {
            Some(Ok(sample)) => {
                hub.drop_loan(sample);
                true
            }
            Some(Err(_)) => false,
            None => false,
        },
        Step::Lends(other, lent) => {
            lends(alloc, hub, publisher, other.unwrap_or(values)) == lent
        }
    }
}

// Whether steps come to that, one after the other.
fn go_on(
    alloc: Global,
    hub: &mut Recorded,
    publisher: &Named<slice::Publisher<u64, ()>>,
    subscriber: &Named<slice::Subscriber<u64, ()>>,
    steps: &[Step],
    values: &[u64],
) -> bool
    requires publisher { option_map (λ made. made.port) (value_at hub.old.calls.made.publishers publisher.now.number.value)
        ≡ Some publisher.now.it.port }
    requires subscriber { value_at hub.old.calls.made.subscribers subscriber.now.number.value ≡ Some subscriber.now.it.port }
    ensures publishers { hub.new.calls.made.publishers ≡ hub.old.calls.made.publishers }
    ensures subscribers { hub.new.calls.made.subscribers ≡ hub.old.calls.made.subscribers }
{
    for step in steps {
        if !goes(alloc, hub, publisher, subscriber, step, values) {
            return false;
        }
    }
    true
}

// Whether ports of the service are made as the options ask, go on so, and leave.
fn converse(
    alloc: Global,
    hub: &mut Recorded,
    service: &Named<PortFactory<PublishSubscribe>>,
    buffer_size: usize,
    steps: &[Step],
    values: &[u64],
) -> bool
    requires { value_at hub.old.calls.factories service.now.number.value ≡ Some (made_factory.PublishSubscribe service.now.it) }
{
    let Some(Ok(publisher)) = hub.publisher(alloc, service, &PUBLISHER) else {
        return false;
    };
    let Some(Ok(subscriber)) = hub.subscriber(alloc, service, &SUBSCRIBER) else {
        return false;
    };
    let sizes = (
        publisher.it.initial_max_slice_len(),
        subscriber.it.buffer_size(),
    );
    let goes = go_on(alloc, hub, &publisher, &subscriber, steps, values);
    let fits = hub.received_fit();
    match hub.end_publisher(publisher) {
        Ok(()) => hub.end_subscriber(subscriber).is_ok()
            && (sizes, goes, fits) == ((64, buffer_size), true, true),
        Err(_) => false,
    }
}

// Whether a service is opened, and messages go through it.
fn begin(alloc: Global, hub: &mut Recorded, values: &[u64]) -> bool {
    let Ok(node) = hub.new_node() else {
        return false;
    };
    let Ok(name) = ServiceName::new(b"odometry") else {
        return false;
    };
    match hub.open_or_create(alloc, &node, name, &SERVICE, AttributeVerifier::new()) {
        Some(Ok(service)) => converse(alloc, hub, &service, 1, MESSAGES, values),
        _ => false,
    }
}

// Whether messages of a service have numbers that is created so.
fn is_created_with_numbers(alloc: Global, hub: &mut Recorded) -> bool {
    let Ok(node) = hub.new_node() else {
        return false;
    };
    let Ok(name) = ServiceName::new(b"ticks") else {
        return false;
    };
    match hub.create(alloc, &node, name, &NUMBERED, &AttributeSpecifier::new()) {
        Some(Ok(service)) => converse(alloc, hub, &service, 2, NUMBERS, &[]),
        _ => false,
    }
}

// Whether a node is refused that creates a service where another is about to, and one that opens a service where none exists.
fn is_refused(alloc: Global, hub: &mut Recorded) -> bool {
    let Ok(node) = hub.new_node() else {
        return false;
    };
    let Ok(name) = ServiceName::new(b"odometry") else {
        return false;
    };
    let Ok(()) = hub.foreign(
        alloc,
        MessagingPattern::PublishSubscribe,
        name,
        &[ForeignStep::Lock(1)],
    ) else {
        return false;
    };
    let Some(Err(PublishSubscribeCreateError::HangsInCreation)) = hub.create(
        alloc,
        &node,
        name,
        &SERVICE,
        &AttributeSpecifier::new(),
    ) else {
        return false;
    };
    let Ok(()) = hub.foreign(
        alloc,
        MessagingPattern::PublishSubscribe,
        name,
        &[ForeignStep::GiveUp(1)],
    ) else {
        return false;
    };
    let Some(Err(PublishSubscribeOpenError::DoesNotExist)) = hub.open(
        alloc,
        &node,
        name,
        &SERVICE,
        AttributeVerifier::new(),
    ) else {
        return false;
    };
    true
}

// Whether a service is closed once its port left, and not before. The port has room for one message.
fn is_closed(
    alloc: Global,
    hub: &mut Recorded,
    service: Named<PortFactory<PublishSubscribe>>,
) -> bool
    requires made { value_at hub.old.calls.factories service.number.value ≡ Some (made_factory.PublishSubscribe service.it) }
    requires here { service.it.service.membership.storage ≡ hub.old.calls.config.id }
{
    let Some(Ok(subscriber)) = hub.subscriber(alloc, &service, &NO_BUFFER) else {
        return false;
    };
    let size = subscriber.it.buffer_size();
    let Err((CloseError::StillInUse, Some(service))) = hub.close(service) else {
        return false;
    };
    match hub.end_subscriber(subscriber) {
        Ok(()) => hub.close(service).is_ok() && size == 1,
        Err(_) => false,
    }
}

// Whether a service is created, and opened beside that, and the second factory is closed.
fn begins_and_ends(alloc: Global, hub: &mut Recorded) -> bool {
    let Ok(node) = hub.new_node() else {
        return false;
    };
    let Ok(name) = ServiceName::new(b"odometry") else {
        return false;
    };
    let Some(Ok(_)) = hub.create(alloc, &node, name, &SERVICE, &AttributeSpecifier::new()) else {
        return false;
    };
    let Some(Ok(service)) = hub.open(alloc, &node, name, &SERVICE, AttributeVerifier::new()) else {
        return false;
    };
    is_closed(alloc, hub, service)
}

// What is done in a new hub.
#[derive(Clone, Copy)]
enum Course {
    // Messages go through a service, the first one with these values.
    Messages(&'static [u64]),
    // Services are created and removed.
    Services,
}

// Whether that goes well.
fn take(alloc: Global, hub: &mut Recorded, course: Course) -> bool {
    match course {
        Course::Messages(values) => begin(alloc, hub, values),
        Course::Services => is_refused(alloc, hub)
            && begins_and_ends(alloc, hub)
            && is_created_with_numbers(alloc, hub),
    }
}

// Whether that goes well in a new hub.
fn go(alloc: Global, course: Course) -> bool {
    take(
        alloc,
        &mut Recorded::new(alloc, HubConfig::default()),
        course,
    )
}

#[test]
fn calls_are_made(rt: HostRuntime) {
    for values in &VALUES {
        assert!(&rt;
            go(rt.alloc(), Course::Messages(*values)),
            "{}",
            values.len()
        );
    }
}

#[test]
fn services_come_and_go(rt: HostRuntime) {
    assert!(&rt; go(rt.alloc(), Course::Services));
}
