//! What calls of a recorded hub do to the hub, and how values get their numbers.
ghost use Rattle.std.specs.Prelude.{◌≡◌, ◌&&◌, List, is_ok};
ghost use Rattle.std.specs.Result.{result_ok};
ghost use Rattle.iox_command.specs.declared.command.Command.TheVariants as command;
ghost use Rattle.iox_delivery.specs.Holding.{publisher_blocked, subscriber_stands};
ghost use Rattle.iox_delivery.specs.Publishing.{EndsSend, FollowsSubscribers, GivesUpLoan, RetriesSend};
ghost use Rattle.iox_delivery.specs.Slices.{SendsSlice};
ghost use Rattle.iox_delivery.specs.Subscribing.{DropsSample, FollowsPublishers, ReceivesSample, TellsSamples};
ghost use Rattle.iox_domain.specs.Homes as homes;
ghost use Rattle.iox_hub_commands.specs.Calls.{may_lend};
ghost use Rattle.iox_hub_commands.specs.DescribeSettings.declared.static_config.Settings.TheVariants as settings;
ghost use Rattle.iox_hub_commands.specs.DescribeSettings.declared.static_config.publish_subscribe.StaticConfig.{StaticConfig};
ghost use Rattle.iox_hub.specs.Recorded.{Calls, asked_too};
ghost use Rattle.iox_hub.specs.RecordedNames.{back_by, named_by, port_made};
ghost use Rattle.iox_hub.specs.RecordedNames.{publisher_side, received_by, subscriber_side};
ghost use Rattle.iox_hub.specs.Recording.{IsDoneIf, IsDoneOrBack, is_known, newest_is_known, told_came, told_sent_if};

use crate::recorded::history::History;
use crate::recorded::named::{Named, Number};
use iox_command::{PublisherOptions, SubscriberOptions};
use iox_delivery::kind::Slice;
use iox_delivery::loan::{Loan, LoanState};
use iox_delivery::{BlockedSend, PortId, Sent, UpdateConnections, slices as slice};
use iox_describe::pattern::PublishSubscribe;
use iox_describe_base::{TypeVariant, ZeroCopySend};
use iox_domain::settings::PublisherSettings;
use iox_domain::{DomainId, Home};
use iox_domain_values::{
    ConnectionFailure, PublisherCreateError, ReceiveError, SendError, SubscriberCreateError,
};
use iox_hub_base::{Hub, PortFactory};
use iox_hub_commands::{PublisherHandlers, SubscriberHandler, first_length};
use iox_queues_base::Words;
use std::alloc::Global;

// Loans a slot of a publisher for these values, writes and sends them, if it may loan.
pub(crate) fn put_if<T: Copy, U: Copy, H: Home<T, U>>(
    home: &mut H,
    alloc: Global,
    publisher: &slice::Publisher<T, U>,
    values: &[T],
) -> Option<Result<Sent<T, U>, SendError>>
    ensures { IsDoneIf (may_lend (homes.ports_of H.domain_of) publisher.now.port home.old)
        (SendsSlice (homes.ports_of H.domain_of) (homes.with_ports H.changed)
        (homes.publisher_degrades (λ kept. H.ForPublishers.degrades kept) H.domain_of)
        (homes.publisher_decides (λ kept. H.ForPublishers.decides kept) H.domain_of) publisher.now.port values.now)
        home.old result home.new }
{
    if !publisher.holds(home) {
        return None;
    }
    if publisher.is_blocked(home) {
        return None;
    }
    Some(publisher.send_slice(alloc, home, values))
}

// Tries a send again if it is blocked; otherwise hands it back.
pub(crate) fn retry_if<T: Copy, U: Copy, H: Home<T, U>>(
    home: &mut H,
    blocked: BlockedSend<T, U>,
    elapsed_ns: u64,
) -> Result<Result<Sent<T, U>, SendError>, BlockedSend<T, U>>
    ensures { IsDoneOrBack (publisher_blocked blocked.port.number (homes.ports_of H.domain_of blocked.port.domain home.old)) blocked
        (RetriesSend (homes.ports_of H.domain_of) (homes.with_ports H.changed)
        (homes.publisher_decides (λ kept. H.ForPublishers.decides kept) H.domain_of) blocked.port elapsed_ns) home.old result home.new }
{
    if blocked.holds(home) {
        Ok(blocked.retry(home, elapsed_ns))
    } else {
        Err(blocked)
    }
}

// Gives up a send if it is blocked, and answers how many mailboxes took the message.
pub(crate) fn give_up_if<T: Copy, U: Copy, H: Home<T, U>>(
    home: &mut H,
    blocked: BlockedSend<T, U>,
) -> Option<usize>
    ensures { EndsSend (homes.ports_of H.domain_of) (homes.with_ports H.changed) blocked.port home.old result home.new }
{
    match blocked.drop_with(home) {
        Ok(delivered) => Some(delivered),
        Err(kept) => {
            let _ = kept.into_port();
            None
        }
    }
}

// Drops a loan, if it is there.
pub(crate) fn drop_loan_if<T: Copy, U: Copy, S: LoanState<T, U, Slice> + Copy, H: Home<T, U>>(
    home: &mut H,
    loan: Loan<T, U, Slice, S>,
)
    ensures { GivesUpLoan (homes.ports_of H.domain_of) (homes.with_ports H.changed) loan.port loan.slot home.old home.new }
{
    if let Err(kept) = loan.drop_with(home) {
        let _ = kept.into_slot();
    }
}

// Releases a sample if it is held, and answers whether it was.
pub(crate) fn release_if<T: Copy, U: Copy, H: Home<T, U>>(
    home: &mut H,
    sample: slice::Sample<T, U>,
) -> bool
    ensures { DropsSample (homes.ports_of H.domain_of) (homes.with_ports H.changed) sample.port sample.taken home.old result home.new }
{
    match sample.drop_with(home) {
        Ok(()) => true,
        Err(kept) => {
            let _ = kept.into_taken();
            false
        }
    }
}

// Updates the connections of a publisher, if it may loan.
pub(crate) fn update_publisher_if<T: Copy, U: Copy, H: Home<T, U>>(
    home: &mut H,
    alloc: Global,
    publisher: &slice::Publisher<T, U>,
) -> Option<Result<(), ConnectionFailure>>
    ensures { IsDoneIf (may_lend (homes.ports_of H.domain_of) publisher.now.port home.old)
        (FollowsSubscribers (homes.ports_of H.domain_of) (homes.with_ports H.changed)
        (homes.publisher_degrades (λ kept. H.ForPublishers.degrades kept) H.domain_of) publisher.now.port) home.old result home.new }
{
    if !publisher.holds(home) {
        return None;
    }
    if publisher.is_blocked(home) {
        return None;
    }
    Some(publisher.update_connections(alloc, home))
}

// Updates the connections of a subscriber, if it is open.
pub(crate) fn update_subscriber_if<T: Copy, U: Copy, H: Home<T, U>>(
    home: &mut H,
    alloc: Global,
    subscriber: &slice::Subscriber<T, U>,
) -> Option<Result<(), ConnectionFailure>>
    ensures { IsDoneIf (subscriber_stands subscriber.now.port.number (homes.ports_of H.domain_of subscriber.now.port.domain home.old))
        (FollowsPublishers (homes.ports_of H.domain_of) (homes.with_ports H.changed)
        (homes.subscriber_degrades (λ kept. H.ForSubscribers.degrades kept) H.domain_of) subscriber.now.port) home.old result home.new }
{
    if subscriber.holds(home) {
        Some(subscriber.update_connections(alloc, home))
    } else {
        None
    }
}

// Whether messages wait for a subscriber, if it is open.
pub(crate) fn has_samples_if<T: Copy, U: Copy, H: Home<T, U>>(
    home: &mut H,
    alloc: Global,
    subscriber: &slice::Subscriber<T, U>,
) -> Option<Result<bool, ConnectionFailure>>
    ensures { IsDoneIf (subscriber_stands subscriber.now.port.number (homes.ports_of H.domain_of subscriber.now.port.domain home.old))
        (TellsSamples (homes.ports_of H.domain_of) (homes.with_ports H.changed)
        (homes.subscriber_degrades (λ kept. H.ForSubscribers.degrades kept) H.domain_of) subscriber.now.port) home.old result home.new }
{
    if subscriber.holds(home) {
        Some(subscriber.has_samples(alloc, home))
    } else {
        None
    }
}

// Receives by a subscriber, if it is open.
pub(crate) fn receive_if<T: Copy, U: Copy, H: Home<T, U>>(
    home: &mut H,
    alloc: Global,
    subscriber: &slice::Subscriber<T, U>,
) -> Option<Result<Option<slice::Sample<T, U>>, ReceiveError>>
    ensures { IsDoneIf (subscriber_stands subscriber.now.port.number (homes.ports_of H.domain_of subscriber.now.port.domain home.old))
        (ReceivesSample (homes.ports_of H.domain_of) (homes.with_ports H.changed)
        (homes.subscriber_degrades (λ kept. H.ForSubscribers.degrades kept) H.domain_of) subscriber.now.port) home.old result home.new }
{
    if subscriber.holds(home) {
        Some(subscriber.receive(alloc, home))
    } else {
        None
    }
}

// Whether it is known that all messages fit in vectors, this one included.
pub(crate) fn newest_is_known<
    T: Words + ZeroCopySend + Default,
    U: Copy + ZeroCopySend + Default,
    B: PublisherHandlers,
    D: SubscriberHandler,
>(
    fit: bool,
    answer: &Option<Result<Option<slice::Sample<T, U>>, ReceiveError>>,
    hub: &Hub<T, U, B, D>,
) -> bool
    ensures { result ≡ (fit && newest_is_known answer.now hub.now) }
{
    match answer {
        Some(Ok(Some(sample))) => fit && is_known(sample, hub),
        _ => fit,
    }
}

// Whether a message is held, and fits in a vector.
pub(crate) fn is_known<
    T: Words + ZeroCopySend + Default,
    U: Copy + ZeroCopySend + Default,
    B: PublisherHandlers,
    D: SubscriberHandler,
>(sample: &slice::Sample<T, U>, hub: &Hub<T, U, B, D>) -> bool
    ensures { result ≡ is_known sample.now hub.now }
{
    sample.holds(hub) && sample.payload(hub).len() < 9_223_372_036_854_775_808
}

// The history, if a publisher with this number was asked to send these values.
pub(crate) fn told_put<T: Words + ZeroCopySend + Default, U: Copy + ZeroCopySend + Default>(
    history: &History<T>,
    number: &Number,
    answer: &Option<Result<Sent<T, U>, SendError>>,
    values: &[T],
) -> History<T>
    ghost sent: { List T }
    requires { values.now ≡ sent }
    ensures { result.calls ≡ asked_too (command.Put number.now.value values.now) (told_sent_if answer.now) history.now.calls }
{
    let _values = values;
    let came = put_came(answer);
    History::told(history, number, &came, &())
}

// The history that its caller states: a subscriber with this number received, with this answer, and this is the hub afterwards.
pub(crate) fn told_received<
    T: Words + ZeroCopySend + Default,
    U: Copy + ZeroCopySend + Default,
    B: PublisherHandlers,
    D: SubscriberHandler,
>(
    history: &History<T>,
    number: &Number,
    _answer: &Option<Result<Option<slice::Sample<T, U>>, ReceiveError>>,
    _hub: &Hub<T, U, B, D>,
) -> History<T>
    ghost calls: { Calls T }
    ensures { result.calls ≡ calls }
{
    History::told(history, number, &(), &())
}

// How many messages of one publisher may wait for a subscriber of a service.
pub(crate) fn most_waiting(factory: &PortFactory<PublishSubscribe>) -> usize
    ensures { (config : StaticConfig) → factory.now.service.membership.service.description.settings ≡ settings.PublishSubscribe config
        → result ≡ config.subscriber_max_buffer_size }
{
    factory.static_config().subscriber_max_buffer_size as usize
}

// The publisher that was created in a domain with a number, as a value.
pub(crate) fn publisher_of<T: Copy, U: Copy>(
    domain: DomainId,
    options: &PublisherOptions,
    answer: Option<Result<u64, PublisherCreateError>>,
) -> Option<Result<slice::Publisher<T, U>, PublisherCreateError>>
    ensures { result ≡ port_made domain (publisher_side options.now) answer }
{
    match answer {
        Some(Ok(number)) => Some(Ok(slice::Publisher::of_port(
            PortId { domain, number },
            options
                .backpressure_strategy
                .unwrap_or(PublisherSettings::default().strategy),
            first_length(options),
            TypeVariant::Dynamic,
        ))),
        Some(Err(why)) => Some(Err(why)),
        None => None,
    }
}

// The subscriber that was created in a domain with a number, as a value.
pub(crate) fn subscriber_of<T: Copy, U: Copy>(
    domain: DomainId,
    options: &SubscriberOptions,
    most: usize,
    answer: Option<Result<u64, SubscriberCreateError>>,
) -> Option<Result<slice::Subscriber<T, U>, SubscriberCreateError>>
    ensures { result ≡ port_made domain (subscriber_side most options.now) answer }
{
    match answer {
        Some(Ok(number)) => Some(Ok(slice::Subscriber::of_port(
            PortId { domain, number },
            match options.buffer_size {
                Some(size) => (size as usize).max(1),
                None => most,
            },
        ))),
        Some(Err(why)) => Some(Err(why)),
        None => None,
    }
}

// The value that was made, with its number.
pub(crate) fn with_number<S, E>(
    answer: Option<Result<S, E>>,
    number: Number,
) -> Option<Result<Named<S>, E>>
    ensures { result ≡ named_by number answer }
{
    match answer {
        Some(Ok(it)) => Some(Ok(Named { it, number })),
        Some(Err(why)) => Some(Err(why)),
        None => None,
    }
}

// The value that was received, with its number.
pub(crate) fn received_with_number<S, E>(
    answer: Option<Result<Option<S>, E>>,
    number: Number,
) -> Option<Result<Option<Named<S>>, E>>
    ensures { result ≡ received_by number answer }
{
    match answer {
        Some(Ok(Some(it))) => Some(Ok(Some(Named { it, number }))),
        Some(Ok(None)) => Some(Ok(None)),
        Some(Err(why)) => Some(Err(why)),
        None => None,
    }
}

// The value that was handed back, with its number.
pub(crate) fn back_with_number<A, S>(left: Result<A, S>, number: Number) -> Result<A, Named<S>>
    ensures { result ≡ back_by number left }
{
    match left {
        Ok(answer) => Ok(answer),
        Err(it) => Err(Named { it, number }),
    }
}

// The result of a send, without a blocked send.
fn put_came<T: Copy, U: Copy>(
    answer: &Option<Result<Sent<T, U>, SendError>>,
) -> Option<Result<Option<usize>, SendError>>
    ensures { told_came result ≡ told_sent_if answer.now }
{
    match answer {
        Some(Ok(Sent::Delivered(count))) => Some(Ok(Some(*count))),
        Some(Ok(Sent::Blocked(_))) => Some(Ok(None)),
        Some(Err(why)) => Some(Err(*why)),
        None => None,
    }
}

// The result of a send that was begun or tried again, without a blocked send; None if what it consumes was handed back.
pub(crate) fn sent_came<T: Copy, U: Copy, W>(
    answer: &Result<Result<Sent<T, U>, SendError>, W>,
) -> Option<Result<Option<usize>, SendError>>
    ensures { told_came result ≡ told_sent_if (result_ok answer.now) }
{
    match answer {
        Ok(Ok(Sent::Delivered(count))) => Some(Ok(Some(*count))),
        Ok(Ok(Sent::Blocked(_))) => Some(Ok(None)),
        Ok(Err(why)) => Some(Err(*why)),
        Err(_) => None,
    }
}

// Whether a port was closed, or a loan was sent.
pub(crate) fn has_left<A, S>(left: &Result<A, S>) -> bool
    ensures { result ≡ is_ok left.now }
{
    left.is_ok()
}
