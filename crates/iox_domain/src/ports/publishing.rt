//! A publisher follows the subscribers, sends and is closed.
ghost use Rattle.std.specs.Prelude.{◌≡◌, None};
ghost use Rattle.iox_domain_ports.specs.DomainValues.declared.degradation.DegradationCause.TheVariants as cause;
ghost use Rattle.iox_domain_ports.specs.Publishers.{port_of};
ghost use Rattle.iox_domain.specs.Ports.{AtPublisher};
ghost use Rattle.iox_domain.specs.PortsPublishing.{UpdatesOne, SendsOne, RetriesOne, GivesUpOne, LeavesOne, LeavesAt};

use crate::ports::roll::Roll;
use crate::ports::service_ports::ServicePorts;
use iox_domain_ports::{PublisherPort, Sent, SubscriberEntry};
use iox_domain_values::{ConnectionFailure, Decides, Degrades, SendError};
use std::alloc::Global;

impl<T: Copy, U: Copy> ServicePorts<T, U> {
    /// The publisher follows the list of subscribers: `PublisherPort::update` says what that does and when it fails. The call
    /// answers None, and nothing happens, if no open publisher has this number, and while a send of it is blocked.
    ///
    /// Ported from `iceoryx2::port::publisher::Publisher::update_connections`.
    pub fn update_publisher<D: Degrades>(
        &mut self,
        alloc: Global,
        number: u64,
        handler: &D,
    ) -> Option<Result<(), ConnectionFailure>>
        ensures { AtPublisher number (UpdatesOne (D.degrades handler.now cause.FailedToEstablishConnection) self.old.subscriber_list)
            (port_of number self.old.publishers) self.old result self.new }
    {
        let port = self.publishers.get_mut(number)?;
        let outcome = update_one(port, alloc, &self.subscriber_list, handler)?;
        self.publishers.settle(number);
        Some(outcome)
    }

    /// The publisher sends the written loan in this slot: `PublisherPort::send` says what that does and answers. The call
    /// answers None, and nothing happens, if no publisher has this number, if it has no written loan in the slot, or if another
    /// send of it is blocked.
    ///
    /// Ported from `iceoryx2::sample_mut::SampleMut::send`.
    pub fn send<B: Decides + Degrades>(
        &mut self,
        alloc: Global,
        number: u64,
        slot: usize,
        handlers: &B,
    ) -> Option<Result<Sent, SendError>>
        ensures { AtPublisher number (SendsOne (B.degrades handlers.now cause.FailedToEstablishConnection) (B.decides handlers.now)
            self.old.subscriber_list slot) (port_of number self.old.publishers) self.old result self.new }
    {
        let port = self.publishers.get_mut(number)?;
        let stands = port.stands;
        let outcome = send_one(port, alloc, slot, &self.subscriber_list, handlers)?;
        // An open publisher isn't over, whatever it sends.
        if !stands {
            self.publishers.settle(number);
        }
        Some(outcome)
    }

    /// Tries once more the place at which the publisher's send is blocked, `elapsed` nanoseconds after its mailbox was first found
    /// full, and continues; answers as `send` does. The call answers None, and nothing happens, if no publisher has this
    /// number, or no send of it is blocked.
    ///
    /// Not in `iceoryx2`: `iceoryx2::port::publisher::Publisher::send` blocks its caller.
    pub fn retry<B: Decides>(
        &mut self,
        number: u64,
        elapsed: u64,
        handlers: &B,
    ) -> Option<Result<Sent, SendError>>
        ensures { AtPublisher number (RetriesOne (B.decides handlers.now) elapsed) (port_of number self.old.publishers) self.old result
            self.new }
    {
        let port = self.publishers.get_mut(number)?;
        let outcome = retry_one(port, elapsed, handlers)?;
        self.publishers.settle(number);
        Some(outcome)
    }

    /// Gives up the publisher's blocked send, and answers how many connections took its message. The call answers None, and
    /// nothing happens, if no publisher has this number, or no send of it is blocked.
    ///
    /// Not in `iceoryx2`.
    pub fn give_up(&mut self, number: u64) -> Option<usize>
        ensures { AtPublisher number GivesUpOne (port_of number self.old.publishers) self.old result self.new }
    {
        let port = self.publishers.get_mut(number)?;
        let delivered = give_up_one(port)?;
        self.publishers.settle(number);
        Some(delivered)
    }

    /// Closes the publisher: it is removed from the list and sends no more. What it sent can still be read; its connections end
    /// when their subscribers notice. The call answers false, and nothing happens, if no open publisher has this number, and
    /// while a send of it is blocked.
    ///
    /// Ported from dropping an `iceoryx2::port::publisher::Publisher`.
    pub fn leave_publisher(&mut self, number: u64) -> bool
        ensures { LeavesAt number (port_of number self.old.publishers) self.old result self.new }
    {
        let Some(port) = self.publishers.get_mut(number) else {
            return false;
        };
        let Some(place) = leave_one(port) else {
            return false;
        };
        self.publishers.settle(number);
        self.publisher_list.leave(place);
        true
    }
}

// A publisher follows the list of subscribers.
fn update_one<T: Copy, U: Copy, D: Degrades>(
    port: &mut PublisherPort<T, U>,
    alloc: Global,
    list: &Roll<SubscriberEntry>,
    handler: &D,
) -> Option<Result<(), ConnectionFailure>>
    ensures updates { UpdatesOne (D.degrades handler.now cause.FailedToEstablishConnection) list.now port.old result port.new }
    ensures none { result ≡ None → port.new ≡ port.old }
{
    if !port.stands || port.sender.is_sending() {
        return None;
    }
    Some(port.update(alloc, list.listed(), list.changes(), handler))
}

// A publisher sends the loan in this slot.
pub(crate) fn send_one<T: Copy, U: Copy, B: Decides + Degrades>(
    port: &mut PublisherPort<T, U>,
    alloc: Global,
    slot: usize,
    list: &Roll<SubscriberEntry>,
    handlers: &B,
) -> Option<Result<Sent, SendError>>
    ensures sends { SendsOne (B.degrades handlers.now cause.FailedToEstablishConnection) (B.decides handlers.now) list.now slot port.old
        result port.new }
    ensures none { result ≡ None → port.new ≡ port.old }
    ensures stands { port.new.stands ≡ port.old.stands }
{
    port.send(alloc, slot, list.listed(), list.changes(), handlers)
}

// A publisher tries its blocked send again, if there is one.
fn retry_one<T: Copy, U: Copy, B: Decides>(
    port: &mut PublisherPort<T, U>,
    elapsed: u64,
    handlers: &B,
) -> Option<Result<Sent, SendError>>
    ensures retries { RetriesOne (B.decides handlers.now) elapsed port.old result port.new }
    ensures none { result ≡ None → port.new ≡ port.old }
{
    if !port.sender.is_sending() {
        return None;
    }
    Some(port.retry(elapsed, handlers))
}

// A publisher gives up its blocked send, if there is one.
fn give_up_one<T: Copy, U: Copy>(port: &mut PublisherPort<T, U>) -> Option<usize>
    ensures gives_up { GivesUpOne port.old result port.new }
    ensures none { result ≡ None → port.new ≡ port.old }
{
    if !port.sender.is_sending() {
        return None;
    }
    Some(port.give_up())
}

// A publisher is closed, if it is open and no send of it is blocked; answers the place at which it was listed.
fn leave_one<T: Copy, U: Copy>(port: &mut PublisherPort<T, U>) -> Option<usize>
    ensures leaves { LeavesOne port.old result port.new }
    ensures none { result ≡ None → port.new ≡ port.old }
{
    if !port.stands || port.sender.is_sending() {
        return None;
    }
    let place = port.place;
    port.leave();
    Some(place)
}
