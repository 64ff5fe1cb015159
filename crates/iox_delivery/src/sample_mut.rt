//! A loan that is written.
ghost use Rattle.iox_domain.specs.Homes as homes;
ghost use Rattle.std.specs.Prelude.{◌≡◌, true, false, Some};
ghost use Rattle.std.specs.Borrow.{sem, LendsIf};
ghost use Rattle.std.specs.Option.{option_copied_mut};
ghost use Rattle.iox_domain.specs.DomainPorts.Messages.{write_value};
ghost use Rattle.iox_domain.specs.DomainPorts.Writing.{value_at};
ghost use Rattle.iox_delivery.specs.Holding.{loan_found, is_sample, publisher_blocked};
ghost use Rattle.iox_delivery.specs.Publishing.{sample_mut_of, loan_changed, SendsSample};

use crate::kind::{Kind, Single};
use crate::loan::{Loan, Written};
use crate::port_id::PortId;
use crate::sent::Sent;
use crate::{lending, publishing};
use iox_domain::{Home, calls};
use iox_domain_values::SendError;
use std::alloc::Global;
use std::marker::PhantomData;

/// A loan that is written, and may be sent: of a single value, if no other kind is given.
///
/// Ported from `iceoryx2::sample_mut::SampleMut`.
pub type SampleMut<T, U, K = Single> = Loan<T, U, K, Written>;

impl<T: Copy, U: Copy, K: Kind<T, U>> SampleMut<T, U, K> {
    // The written loan of a publisher in a slot.
    pub(crate) fn of_loan(port: PortId, slot: usize) -> Self
        ensures { result ≡ sample_mut_of port slot }
    {
        Loan {
            port,
            slot,
            state: Written,
            of: PhantomData,
        }
    }

    /// Whether a send of the loan's publisher is blocked; `send` requires that none is.
    /// Example: `let waits = sample.is_blocked(home);`
    pub fn is_blocked<H: Home<T, U>>(&self, home: &H) -> bool
        ensures { result ≡ publisher_blocked self.now.port.number (homes.ports_of H.domain_of self.now.port.domain home.now) }
    {
        publishing::is_blocked(self.port, home)
    }

    /// Sends the message: `ServicePorts::send` says which connections take it, and when the call fails. The loan is consumed in
    /// every case.
    ///
    /// Ported from `iceoryx2::sample_mut::SampleMut::send`.
    /// Example: `let sent = sample.send(alloc, home)?;`
    pub fn send<H: Home<T, U>>(self, alloc: Global, home: &mut H) -> Result<Sent<T, U>, SendError>
        requires holds { K.is_ready (loan_found self.port.number self.slot (homes.ports_of H.domain_of self.port.domain home.old)) ≡ true }
        requires free { publisher_blocked self.port.number (homes.ports_of H.domain_of self.port.domain home.old) ≡ false }
        ensures { SendsSample (homes.ports_of H.domain_of) (homes.with_ports H.changed)
            (homes.publisher_degrades (λ kept. H.ForPublishers.degrades kept) H.domain_of)
            (homes.publisher_decides (λ kept. H.ForPublishers.decides kept) H.domain_of) self.port self.slot home.old result home.new }
    {
        let Loan {
            port,
            slot,
            state: Written,
            of: _,
        } = self;
        lending::send(port, slot, alloc, home)
    }
}

impl<T: Copy, U: Copy> SampleMut<T, U> {
    /// The value.
    ///
    /// Ported from `iceoryx2::sample_mut::SampleMut::payload`.
    /// Example: `let value = *sample.payload(home);`
    pub fn payload<'a, H: Home<T, U>>(&self, home: &'a H) -> &'a T
    where
        T: 'a,
        U: 'a,
        requires { is_sample (loan_found self.now.port.number self.now.slot (homes.ports_of H.domain_of self.now.port.domain home.now))
            ≡ true }
        ensures { Some result.now ≡ value_at 0
            (loan_found self.now.port.number self.now.slot (homes.ports_of H.domain_of self.now.port.domain home.now)) }
    {
        let Some(ports) = calls::ports(home, self.port.domain) else {
            unreachable!();
        };
        match ports.value(self.port.number, self.slot, 0) {
            Some(value) => value,
            None => unreachable!(),
        }
    }

    /// A mutable reference to the value; None if the loan doesn't exist in this home, or if the value isn't written.
    ///
    /// Ported from `iceoryx2::sample_mut::SampleMut::payload_mut`.
    /// Example: `let value = SampleMut::payload_mut(home, &sample)?;`
    pub fn payload_mut<'a, H: Home<T, U>>(home: &'a mut H, sample: &Self) -> Option<&'a mut T>
    where
        T: 'a,
        U: 'a,
        ensures* writes_back { sem 𝓛 (LendsIf H.row T.row home.entry result
            (λ last. loan_changed (homes.ports_of H.domain_of) (homes.with_ports H.changed) sample.now.port sample.now.slot
            (write_value 0 last) home.old) home.old) }
        ensures value { option_copied_mut result
            ≡ value_at 0 (loan_found sample.now.port.number sample.now.slot (homes.ports_of H.domain_of sample.now.port.domain home.old)) }
    {
        lending::value_mut(home, sample.port, sample.slot, 0)
    }
}
