//! A publisher loans as many values as it is given, writes them and sends them, at once.
ghost use Rattle.std.specs.Prelude.{◌≡◌, true, false, None, Some, IsSome};
ghost use Rattle.iox_domain_ports.specs.DomainValues.declared.degradation.DegradationCause.TheVariants as cause;
ghost use Rattle.iox_domain_ports.specs.Loaning.{Loans};
ghost use Rattle.iox_domain_ports.specs.Publishers.{port_of};
ghost use Rattle.iox_domain.specs.Ports.{AtPublisher};
ghost use Rattle.iox_domain.specs.PortsPublishing.{is_blocked};
ghost use Rattle.iox_domain.specs.Putting.{PutsOne, PutsValues};

use crate::ports::publishing::send_one;
use crate::ports::roll::Roll;
use crate::ports::service_ports::ServicePorts;
use iox_domain_ports::{PublisherPort, Sent, SubscriberEntry};
use iox_domain_values::{Decides, Degrades, LoanError, SendError};
use std::alloc::Global;

impl<T: Copy, U: Copy> ServicePorts<T, U> {
    /// The publisher loans as many values as given, writes them and sends them, like `loan`, `write_from_slice` and `send` one
    /// after the other, but its number is looked up once. If the loan fails the error is `SendError::LoanError`, and nothing is
    /// sent; `blank` fills a new segment.
    ///
    /// The call answers None, and nothing happens, if no open publisher has this number, and while a send of it is blocked.
    ///
    /// Ported from `iceoryx2::port::publisher::Publisher::send_copy`, for slices.
    /// Example: `let sent = ports.put(alloc, number, &[7, 8], 0, handlers);`
    pub fn put<B: Decides + Degrades>(
        &mut self,
        alloc: Global,
        number: u64,
        values: &[T],
        blank: T,
        handlers: &B,
    ) -> Option<Result<Sent, SendError>>
        ensures { AtPublisher number (PutsOne (B.degrades handlers.now cause.FailedToEstablishConnection) (B.decides handlers.now)
            self.old.subscriber_list values.now) (port_of number self.old.publishers) self.old result self.new }
    {
        // An open publisher isn't over, whatever it sends, so that isn't checked.
        let port = self.publishers.get_mut(number)?;
        put_one(port, alloc, values, blank, &self.subscriber_list, handlers)
    }
}

// A publisher puts values, if it is open and no send of it is blocked.
#[tactic(auto, using(crate::proofs::Putting::puts_free, crate::proofs::Putting::puts_none))]
fn put_one<T: Copy, U: Copy, B: Decides + Degrades>(
    port: &mut PublisherPort<T, U>,
    alloc: Global,
    values: &[T],
    blank: T,
    list: &Roll<SubscriberEntry>,
    handlers: &B,
) -> Option<Result<Sent, SendError>>
    ensures puts { PutsOne (B.degrades handlers.now cause.FailedToEstablishConnection) (B.decides handlers.now) list.now values.now
        port.old result port.new }
    ensures none { result ≡ None → port.new ≡ port.old }
    ensures stands { IsSome result → port.new.stands ≡ true }
{
    if !port.stands || port.sender.is_sending() {
        return None;
    }
    Some(put_free(port, alloc, values, blank, list, handlers))
}

// An open publisher, of which no send is blocked, puts values.
#[tactic(auto, using(crate::proofs::Putting::refused_stands))]
fn put_free<T: Copy, U: Copy, B: Decides + Degrades>(
    port: &mut PublisherPort<T, U>,
    alloc: Global,
    values: &[T],
    blank: T,
    list: &Roll<SubscriberEntry>,
    handlers: &B,
) -> Result<Sent, SendError>
    requires stands { port.old.stands ≡ true }
    requires free { is_blocked port.old ≡ false }
    ensures puts { PutsValues (B.degrades handlers.now cause.FailedToEstablishConnection) (B.decides handlers.now) list.now values.now
        port.old result port.new }
    ensures stands { port.new.stands ≡ true }
{
    let slot = lend_free(port, alloc, values.len(), blank)?;
    let _ = port.write_from_slice(slot, values);
    match send_one(port, alloc, slot, list, handlers) {
        Some(sent) => sent,
        None => unreachable!(),
    }
}

// A publisher of which no send is blocked loans a slot for `count` values.
fn lend_free<T: Copy, U: Copy>(
    port: &mut PublisherPort<T, U>,
    alloc: Global,
    count: usize,
    blank: T,
) -> Result<usize, LoanError>
    requires { is_blocked port.old ≡ false }
    ensures { Loans port.old.allocation count count port.old (Some result) port.new }
{
    let allocation = port.allocation;
    match port.loan(alloc, count, count as u64, allocation, blank) {
        Some(lent) => lent,
        None => unreachable!(),
    }
}
