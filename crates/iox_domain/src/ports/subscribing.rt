//! A subscriber follows the publishers, receives, releases and is closed.
ghost use Rattle.std.specs.Prelude.{◌≡◌, None};
ghost use Rattle.iox_domain_ports.specs.DomainValues.declared.degradation.DegradationCause.TheVariants as cause;
ghost use Rattle.iox_domain.specs.Ports.{AtSubscriber};
ghost use Rattle.iox_domain.specs.Subscribers.{subscriber_of};
ghost use Rattle.iox_domain.specs.PortsSubscribing.{UpdatesOne, HasSamplesOne, ReceivesOne, LeavesOne, LeavesAt, counted_by, let_go};
ghost use Rattle.iox_domain.specs.PortsSubscribing.{Releases};

use crate::ports::roll::Roll;
use crate::ports::service_ports::ServicePorts;
use iox_domain_ports::{PublisherEntry, Publishers, SubscriberPort, Taken};
use iox_domain_values::{ConnectionFailure, Degrades, ReceiveError};
use std::alloc::Global;

impl<T: Copy, U: Copy> ServicePorts<T, U> {
    /// The subscriber follows the list of publishers: `SubscriberPort::update` says what that does and when it fails. The call
    /// answers None, and nothing happens, if no open subscriber has this number.
    ///
    /// Ported from `iceoryx2::port::subscriber::Subscriber::update_connections`.
    pub fn update_subscriber<D: Degrades>(
        &mut self,
        alloc: Global,
        number: u64,
        handler: &D,
    ) -> Option<Result<(), ConnectionFailure>>
        ensures { AtSubscriber number (UpdatesOne (D.degrades handler.now cause.FailedToEstablishConnection) self.old.publisher_list)
            (subscriber_of number self.old.subscribers) self.old result self.new }
    {
        let port = self.subscribers.get_mut(number)?;
        update_one(
            port,
            alloc,
            &self.publisher_list,
            handler,
            &mut self.publishers,
        )
    }

    /// Whether some connection of the subscriber has data, after it followed the list of publishers:
    /// `SubscriberPort::has_samples` says when that fails. The call answers None, and nothing happens, if no open subscriber
    /// has this number.
    ///
    /// Ported from `iceoryx2::port::subscriber::Subscriber::has_samples`.
    pub fn has_samples<D: Degrades>(
        &mut self,
        alloc: Global,
        number: u64,
        handler: &D,
    ) -> Option<Result<bool, ConnectionFailure>>
        ensures { AtSubscriber number (HasSamplesOne (D.degrades handler.now cause.FailedToEstablishConnection) self.old.publisher_list)
            (subscriber_of number self.old.subscribers) self.old result self.new }
    {
        let port = self.subscribers.get_mut(number)?;
        has_samples_one(
            port,
            alloc,
            &self.publisher_list,
            handler,
            &mut self.publishers,
        )
    }

    /// The subscriber receives: `SubscriberPort::receive` says which message it gets, and when that fails. A received message
    /// is held until it is released. The call answers None, and nothing happens, if no open subscriber has this number.
    ///
    /// Ported from `iceoryx2::port::subscriber::Subscriber::receive`.
    pub fn receive<D: Degrades>(
        &mut self,
        alloc: Global,
        number: u64,
        handler: &D,
    ) -> Option<Result<Option<Taken>, ReceiveError>>
        ensures { AtSubscriber number (ReceivesOne (D.degrades handler.now cause.FailedToEstablishConnection) self.old.publisher_list)
            (subscriber_of number self.old.subscribers) self.old result self.new }
    {
        let port = self.subscribers.get_mut(number)?;
        receive_one(
            port,
            alloc,
            &self.publisher_list,
            handler,
            &mut self.publishers,
        )
    }

    /// Releases a sample that the subscriber holds, also if the subscriber is closed. The sample's publisher is removed then if
    /// it is closed and nothing else of it is in use, and so is the subscriber if it is closed and held only this sample. The
    /// call answers false, and nothing happens, if no subscriber has this number, if another subscriber received the sample, or
    /// if no such sample is borrowed.
    ///
    /// Ported from dropping an `iceoryx2::sample::Sample`.
    pub fn release(&mut self, number: u64, sample: Taken) -> bool
        ensures { Releases number sample self.old result self.new }
    {
        if sample.subscriber != number {
            return false;
        }
        let Some(port) = self.subscribers.get_mut(number) else {
            return false;
        };
        if !self
            .publishers
            .give_back(sample.publisher, sample.index, sample.slot)
        {
            return false;
        }
        port.held = port.held.saturating_sub(1);
        // An open subscriber isn't over.
        if !port.stands {
            self.subscribers.settle(number);
        }
        true
    }

    /// Closes the subscriber: it is removed from the list and receives no more. Samples that it holds can still be read and
    /// released; messages that wait for it are lost when its publishers notice. The call answers false, and nothing happens, if
    /// no open subscriber has this number.
    ///
    /// Ported from dropping an `iceoryx2::port::subscriber::Subscriber`.
    pub fn leave_subscriber(&mut self, number: u64) -> bool
        ensures { LeavesAt number (subscriber_of number self.old.subscribers) self.old result self.new }
    {
        let Some(port) = self.subscribers.get_mut(number) else {
            return false;
        };
        let Some(place) = leave_one(port, &mut self.publishers) else {
            return false;
        };
        self.subscribers.settle(number);
        self.subscriber_list.leave(place);
        true
    }
}

// A subscriber follows the list of publishers.
fn update_one<T: Copy, U: Copy, D: Degrades>(
    port: &mut SubscriberPort,
    alloc: Global,
    list: &Roll<PublisherEntry>,
    handler: &D,
    publishers: &mut Publishers<T, U>,
) -> Option<Result<(), ConnectionFailure>>
    ensures updates { UpdatesOne (D.degrades handler.now cause.FailedToEstablishConnection) list.now port.old publishers.old result
        port.new publishers.new }
    ensures port_stays { result ≡ None → port.new ≡ port.old }
    ensures publishers_stay { result ≡ None → publishers.new ≡ publishers.old }
{
    if !port.stands {
        return None;
    }
    Some(port.update(alloc, list.listed(), list.changes(), handler, publishers))
}

// Whether some connection of a subscriber has data.
fn has_samples_one<T: Copy, U: Copy, D: Degrades>(
    port: &mut SubscriberPort,
    alloc: Global,
    list: &Roll<PublisherEntry>,
    handler: &D,
    publishers: &mut Publishers<T, U>,
) -> Option<Result<bool, ConnectionFailure>>
    ensures has { HasSamplesOne (D.degrades handler.now cause.FailedToEstablishConnection) list.now port.old publishers.old result
        port.new publishers.new }
    ensures port_stays { result ≡ None → port.new ≡ port.old }
    ensures publishers_stay { result ≡ None → publishers.new ≡ publishers.old }
{
    if !port.stands {
        return None;
    }
    Some(port.has_samples(alloc, list.listed(), list.changes(), handler, publishers))
}

// A subscriber receives, and counts the samples that it holds.
fn receive_one<T: Copy, U: Copy, D: Degrades>(
    port: &mut SubscriberPort,
    alloc: Global,
    list: &Roll<PublisherEntry>,
    handler: &D,
    publishers: &mut Publishers<T, U>,
) -> Option<Result<Option<Taken>, ReceiveError>>
    ensures receives { ReceivesOne (D.degrades handler.now cause.FailedToEstablishConnection) list.now port.old publishers.old result
        port.new publishers.new }
    ensures port_stays { result ≡ None → port.new ≡ port.old }
    ensures publishers_stay { result ≡ None → publishers.new ≡ publishers.old }
{
    if !port.stands {
        return None;
    }
    let outcome = port.receive(alloc, list.listed(), list.changes(), handler, publishers);
    count(port, &outcome);
    Some(outcome)
}

// Counts one more sample that the subscriber holds, if it received one.
fn count(port: &mut SubscriberPort, outcome: &Result<Option<Taken>, ReceiveError>)
    ensures { port.new ≡ counted_by outcome.now port.old }
{
    if let Ok(Some(_)) = outcome {
        port.held = port.held.saturating_add(1);
    }
}

// A subscriber is closed, if it is open; answers the place at which it was listed.
fn leave_one<T: Copy, U: Copy>(
    port: &mut SubscriberPort,
    publishers: &mut Publishers<T, U>,
) -> Option<usize>
    ensures leaves { LeavesOne port.old publishers.old result port.new publishers.new }
    ensures port_stays { result ≡ None → port.new ≡ port.old }
    ensures publishers_stay { result ≡ None → publishers.new ≡ publishers.old }
{
    if !port.stands {
        return None;
    }
    let place = port.place;
    port.leave(publishers);
    Some(place)
}
