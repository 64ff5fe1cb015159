//! The calls of ports at the home of their domain: each looks up the domain once, and then makes the call of the domain's
//! state.
ghost use Rattle.std.specs.Prelude.{◌≡◌, option_copied};
ghost use Rattle.std.specs.Borrow.{sem, LendsIf};
ghost use Rattle.std.specs.Option.{option_copied_mut};
ghost use Rattle.iox_domain.specs.DomainValues.declared.degradation.DegradationCause.TheVariants.{FailedToEstablishConnection};
ghost use Rattle.iox_domain.specs.contracts.ports.service_ports.ServicePorts as service_ports;
ghost use Rattle.iox_domain.specs.AtHomes.{AtDomain, LeavesDomain, MakesAt};
ghost use Rattle.iox_domain.specs.Steps.{LoansBy, UpdatesBy, SendsBy, PutsBy, RetriesBy, PublisherLeaves, FollowsBy, TellsBy, ReceivesBy};
ghost use Rattle.iox_domain.specs.Steps.{SubscriberLeaves, PublisherComes, SubscriberComes, why_no_publisher, why_no_subscriber};
ghost use Rattle.iox_domain.specs.Homes.{ports_of, with_ports, with_publisher, with_subscriber, without_publisher, without_subscriber};
ghost use Rattle.iox_domain.specs.Homes.{publisher_degrades, publisher_decides, subscriber_degrades};

use crate::domain_id::DomainId;
use crate::home::{Home, domain, domain_mut};
use crate::ports::{PublisherConfig, ServicePorts, SubscriberConfig};
use iox_domain_ports::{Sent, Taken};
use iox_domain_values::{
    ConnectionFailure, LoanError, Overrides, PublisherCreateError, ReceiveError, SendError,
    SubscriberCreateError,
};
use std::alloc::Global;

/// The ports of the domain with this id, if the home contains it.
///
/// Not in `iceoryx2`.
pub fn ports<'a, T: Copy, U: Copy, H: Home<T, U>>(
    home: &'a H,
    id: DomainId,
) -> Option<&'a ServicePorts<T, U>>
where
    T: 'a,
    U: 'a,
    ensures { option_copied result ≡ ports_of H.domain_of id home.now }
{
    match domain(home, id) {
        Some(domain) => Some(&domain.ports),
        None => None,
    }
}

/// A mutable reference to the ports of the domain with this id, if the home contains it.
///
/// Not in `iceoryx2`.
pub fn ports_mut<'a, T: Copy, U: Copy, H: Home<T, U>>(
    home: &'a mut H,
    id: DomainId,
) -> Option<&'a mut ServicePorts<T, U>>
where
    T: 'a,
    U: 'a,
    ensures* writes_back { sem 𝓛 (LendsIf H.row (service_ports.the_row T.row U.row) home.entry result
        (λ last. with_ports H.changed id last home.old) home.old) }
    ensures value { option_copied_mut result ≡ ports_of H.domain_of id home.old }
{
    match domain_mut(home, id) {
        Some(domain) => Some(&mut domain.ports),
        None => None,
    }
}

/// The publisher loans a slot for `values` values and `elements` elements: `ServicePorts::loan` says what that does. The call answers
/// None, and nothing happens, also if the home doesn't contain the domain.
///
/// Ported from `iceoryx2::port::publisher::Publisher::loan_slice_uninit`.
pub fn loan<T: Copy, U: Copy, H: Home<T, U>>(
    home: &mut H,
    alloc: Global,
    id: DomainId,
    number: u64,
    values: usize,
    elements: u64,
) -> Option<Result<usize, LoanError>>
    ensures { AtDomain (λ after. with_ports H.changed id after home.old) (LoansBy number values elements)
        (ports_of H.domain_of id home.old) home.old result home.new }
{
    let domain = domain_mut(home, id)?;
    domain.loan(alloc, number, values, elements)
}

/// The publisher follows the list of subscribers: `ServicePorts::update_publisher` says what that does. The call answers None,
/// and nothing happens, also if the home doesn't contain the domain.
///
/// Ported from `iceoryx2::port::publisher::Publisher::update_connections`.
pub fn update_publisher<T: Copy, U: Copy, H: Home<T, U>>(
    home: &mut H,
    alloc: Global,
    id: DomainId,
    number: u64,
) -> Option<Result<(), ConnectionFailure>>
    ensures { AtDomain (λ after. with_ports H.changed id after home.old)
        (UpdatesBy (publisher_degrades (λ kept. H.ForPublishers.degrades kept) H.domain_of id number home.old) number)
        (ports_of H.domain_of id home.old) home.old result home.new }
{
    let domain = domain_mut(home, id)?;
    domain.update_publisher(alloc, number)
}

/// The publisher sends the written loan in this slot: `ServicePorts::send` says what that does. The call answers None, and
/// nothing happens, also if the home doesn't contain the domain.
///
/// Ported from `iceoryx2::sample_mut::SampleMut::send`.
pub fn send<T: Copy, U: Copy, H: Home<T, U>>(
    home: &mut H,
    alloc: Global,
    id: DomainId,
    number: u64,
    slot: usize,
) -> Option<Result<Sent, SendError>>
    ensures { AtDomain (λ after. with_ports H.changed id after home.old)
        (SendsBy (publisher_degrades (λ kept. H.ForPublishers.degrades kept) H.domain_of id number home.old)
        (publisher_decides (λ kept. H.ForPublishers.decides kept) H.domain_of id number home.old) number slot)
        (ports_of H.domain_of id home.old) home.old result home.new }
{
    let domain = domain_mut(home, id)?;
    domain.send(alloc, number, slot)
}

/// The publisher loans as many values, writes them and sends them: `ServicePorts::put` says what that does. The call answers
/// None, and nothing happens, also if the home doesn't contain the domain.
///
/// Ported from `iceoryx2::port::publisher::Publisher::send_copy`, for slices.
/// Example: `let sent = calls::put(home, alloc, id, number, &[7, 8]);`
pub fn put<T: Copy, U: Copy, H: Home<T, U>>(
    home: &mut H,
    alloc: Global,
    id: DomainId,
    number: u64,
    values: &[T],
) -> Option<Result<Sent, SendError>>
    ensures { AtDomain (λ after. with_ports H.changed id after home.old)
        (PutsBy (publisher_degrades (λ kept. H.ForPublishers.degrades kept) H.domain_of id number home.old)
        (publisher_decides (λ kept. H.ForPublishers.decides kept) H.domain_of id number home.old) number values.now)
        (ports_of H.domain_of id home.old) home.old result home.new }
{
    let domain = domain_mut(home, id)?;
    domain.put(alloc, number, values)
}

/// The publisher's blocked send is tried again, `elapsed` nanoseconds after its mailbox was first found full:
/// `ServicePorts::retry` says what that does. The call answers None, and nothing happens, also if the home doesn't contain the
/// domain.
///
/// Not in `iceoryx2`: `iceoryx2::port::publisher::Publisher::send` blocks its caller.
pub fn retry<T: Copy, U: Copy, H: Home<T, U>>(
    home: &mut H,
    id: DomainId,
    number: u64,
    elapsed: u64,
) -> Option<Result<Sent, SendError>>
    ensures { AtDomain (λ after. with_ports H.changed id after home.old)
        (RetriesBy (publisher_decides (λ kept. H.ForPublishers.decides kept) H.domain_of id number home.old) number elapsed)
        (ports_of H.domain_of id home.old) home.old result home.new }
{
    let domain = domain_mut(home, id)?;
    domain.retry(number, elapsed)
}

/// Closes the publisher: `ServicePorts::leave_publisher` says what that does. Its handlers are dropped. The call answers false,
/// and nothing happens, also if the home doesn't contain the domain.
///
/// Ported from dropping an `iceoryx2::port::publisher::Publisher`.
pub fn leave_publisher<T: Copy, U: Copy, H: Home<T, U>>(
    home: &mut H,
    id: DomainId,
    number: u64,
) -> bool
    ensures { LeavesDomain (λ after. with_ports H.changed id after home.old) (without_publisher H.changed id number)
        (PublisherLeaves number) (ports_of H.domain_of id home.old) home.old result home.new }
{
    let Some(domain) = domain_mut(home, id) else {
        return false;
    };
    domain.leave_publisher(number)
}

/// The subscriber follows the list of publishers: `ServicePorts::update_subscriber` says what that does. The call answers None,
/// and nothing happens, also if the home doesn't contain the domain.
///
/// Ported from `iceoryx2::port::subscriber::Subscriber::update_connections`.
pub fn update_subscriber<T: Copy, U: Copy, H: Home<T, U>>(
    home: &mut H,
    alloc: Global,
    id: DomainId,
    number: u64,
) -> Option<Result<(), ConnectionFailure>>
    ensures { AtDomain (λ after. with_ports H.changed id after home.old)
        (FollowsBy (subscriber_degrades (λ kept. H.ForSubscribers.degrades kept) H.domain_of id number home.old) number)
        (ports_of H.domain_of id home.old) home.old result home.new }
{
    let domain = domain_mut(home, id)?;
    domain.update_subscriber(alloc, number)
}

/// Whether some connection of the subscriber has data: `ServicePorts::has_samples` says what that does. The call answers None,
/// and nothing happens, also if the home doesn't contain the domain.
///
/// Ported from `iceoryx2::port::subscriber::Subscriber::has_samples`.
pub fn has_samples<T: Copy, U: Copy, H: Home<T, U>>(
    home: &mut H,
    alloc: Global,
    id: DomainId,
    number: u64,
) -> Option<Result<bool, ConnectionFailure>>
    ensures { AtDomain (λ after. with_ports H.changed id after home.old)
        (TellsBy (subscriber_degrades (λ kept. H.ForSubscribers.degrades kept) H.domain_of id number home.old) number)
        (ports_of H.domain_of id home.old) home.old result home.new }
{
    let domain = domain_mut(home, id)?;
    domain.has_samples(alloc, number)
}

/// The subscriber receives: `ServicePorts::receive` says what that does. The call answers None, and nothing happens, also if
/// the home doesn't contain the domain.
///
/// Ported from `iceoryx2::port::subscriber::Subscriber::receive`.
pub fn receive<T: Copy, U: Copy, H: Home<T, U>>(
    home: &mut H,
    alloc: Global,
    id: DomainId,
    number: u64,
) -> Option<Result<Option<Taken>, ReceiveError>>
    ensures { AtDomain (λ after. with_ports H.changed id after home.old)
        (ReceivesBy (subscriber_degrades (λ kept. H.ForSubscribers.degrades kept) H.domain_of id number home.old) number)
        (ports_of H.domain_of id home.old) home.old result home.new }
{
    let domain = domain_mut(home, id)?;
    domain.receive(alloc, number)
}

/// Closes the subscriber: `ServicePorts::leave_subscriber` says what that does. Its handler is dropped. The call answers false,
/// and nothing happens, also if the home doesn't contain the domain.
///
/// Ported from dropping an `iceoryx2::port::subscriber::Subscriber`.
pub fn leave_subscriber<T: Copy, U: Copy, H: Home<T, U>>(
    home: &mut H,
    id: DomainId,
    number: u64,
) -> bool
    ensures { LeavesDomain (λ after. with_ports H.changed id after home.old) (without_subscriber H.changed id number)
        (SubscriberLeaves number) (ports_of H.domain_of id home.old) home.old result home.new }
{
    let Some(domain) = domain_mut(home, id) else {
        return false;
    };
    domain.leave_subscriber(number)
}

/// Creates a publisher, and answers its number: `ServicePorts::create_publisher` says what the publisher gets, and when the
/// call fails. Its handlers are stored until it is closed; a loan first has this user header. The call answers None, and
/// nothing happens, if the home doesn't contain the domain.
///
/// Ported from `iceoryx2::service::port_factory::publisher::PortFactoryPublisher::create`.
pub fn create_publisher<T: Copy, U: Copy, O: Overrides, H: Home<T, U>>(
    home: &mut H,
    alloc: Global,
    id: DomainId,
    config: PublisherConfig,
    user_header: U,
    overriding: &O,
    handlers: H::ForPublishers,
) -> Option<Result<u64, PublisherCreateError>>
    ensures { MakesAt (λ after. with_ports H.changed id after home.old) (λ number. with_publisher H.changed id number handlers)
        (PublisherComes (O.overrides overriding.now) (H.ForPublishers.degrades handlers FailedToEstablishConnection) config user_header)
        (why_no_publisher config)
        (ports_of H.domain_of id home.old) home.old result home.new }
{
    let domain = domain_mut(home, id)?;
    Some(domain.create_publisher(alloc, config, user_header, overriding, handlers))
}

/// Creates a subscriber, and answers its number: `ServicePorts::create_subscriber` says what the subscriber gets, and when the
/// call fails. Its handler is stored until it is closed. The call answers None, and nothing happens, if the home doesn't
/// contain the domain.
///
/// Ported from `iceoryx2::service::port_factory::subscriber::PortFactorySubscriber::create`.
pub fn create_subscriber<T: Copy, U: Copy, H: Home<T, U>>(
    home: &mut H,
    alloc: Global,
    id: DomainId,
    config: SubscriberConfig,
    handler: H::ForSubscribers,
) -> Option<Result<u64, SubscriberCreateError>>
    ensures { MakesAt (λ after. with_ports H.changed id after home.old) (λ number. with_subscriber H.changed id number handler)
        (SubscriberComes (H.ForSubscribers.degrades handler FailedToEstablishConnection) config) (why_no_subscriber config)
        (ports_of H.domain_of id home.old) home.old result home.new }
{
    let domain = domain_mut(home, id)?;
    Some(domain.create_subscriber(alloc, config, handler))
}
