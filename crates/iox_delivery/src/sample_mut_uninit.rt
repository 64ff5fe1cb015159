//! A loan that isn't written yet.
ghost use Rattle.iox_domain.specs.Homes as homes;
ghost use Rattle.std.specs.Prelude.{◌≡◌, true, option_copied};
ghost use Rattle.iox_domain.specs.DomainPorts.Writing.{value_at};
ghost use Rattle.iox_delivery.specs.Holding.{loan_found};
ghost use Rattle.iox_delivery.specs.Publishing.{loan_of, sample_mut_of, WritesPayload};

use crate::kind::{Kind, Single};
use crate::loan::{Loan, Uninit};
use crate::port_id::PortId;
use crate::sample_mut::SampleMut;
use iox_domain::{Home, calls};
use std::marker::PhantomData;

/// A loan that isn't written yet: of a single value, if no other kind is given.
///
/// Ported from `iceoryx2::sample_mut_uninit::SampleMutUninit`.
pub type SampleMutUninit<T, U, K = Single> = Loan<T, U, K, Uninit>;

impl<T: Copy, U: Copy, K: Kind<T, U>> SampleMutUninit<T, U, K> {
    // The loan of a publisher in a slot, of `len` values.
    pub(crate) fn of_loan(port: PortId, slot: usize, len: usize) -> Self
        ensures { result ≡ loan_of len port slot }
    {
        Loan {
            port,
            slot,
            state: Uninit { len },
            of: PhantomData,
        }
    }

    /// Whether each value is written, which `assume_init` requires.
    /// Example: `let may_be_sent = loan.is_written(home);`
    pub fn is_written<H: Home<T, U>>(&self, home: &H) -> bool
        ensures { result ≡ K.is_ready (loan_found self.now.port.number self.now.slot
            (homes.ports_of H.domain_of self.now.port.domain home.now)) }
    {
        K::is_ready_in(self.port, self.slot, home)
    }

    /// Turns the loan into one that is written.
    ///
    /// Ported from `iceoryx2::sample_mut_uninit::SampleMutUninit::assume_init`.
    /// Example: `let sample = loan.assume_init(home);`
    pub fn assume_init<H: Home<T, U>>(self, home: &H) -> SampleMut<T, U, K>
        requires { K.is_ready (loan_found self.port.number self.slot (homes.ports_of H.domain_of self.port.domain home.now)) ≡ true }
        ensures { result ≡ sample_mut_of self.port self.slot }
    {
        let Loan {
            port,
            slot,
            state: _,
            of: _,
        } = self;
        let _ = calls::ports(home, port.domain);
        SampleMut::of_loan(port, slot)
    }
}

impl<T: Copy, U: Copy> SampleMutUninit<T, U> {
    /// The value, if it is written.
    ///
    /// Ported from `iceoryx2::sample_mut_uninit::SampleMutUninit::payload`, which returns a `MaybeUninit`.
    /// Example: `let value = loan.payload(home);`
    pub fn payload<'a, H: Home<T, U>>(&self, home: &'a H) -> Option<&'a T>
    where
        T: 'a,
        U: 'a,
        ensures { option_copied result ≡ value_at 0
            (loan_found self.now.port.number self.now.slot (homes.ports_of H.domain_of self.now.port.domain home.now)) }
    {
        match calls::ports(home, self.port.domain) {
            Some(ports) => ports.value(self.port.number, self.slot, 0),
            None => None,
        }
    }

    /// Writes the value, if the loan exists in this home.
    ///
    /// Ported from writing through `iceoryx2::sample_mut_uninit::SampleMutUninit::payload_mut`.
    /// Example: `loan.payload_write(home, 7);`
    pub fn payload_write<H: Home<T, U>>(&mut self, home: &mut H, value: T)
        ensures writes { WritesPayload (homes.ports_of H.domain_of) (homes.with_ports H.changed) self.old.port self.old.slot value
            home.old home.new }
        ensures same { self.new ≡ self.old }
    {
        write(self.port, self.slot, home, value);
    }

    /// Writes the value, and turns the loan into one that is written.
    ///
    /// Ported from `iceoryx2::sample_mut_uninit::SampleMutUninit::write_payload`.
    /// Example: `let sample = loan.write_payload(home, 7);`
    pub fn write_payload<H: Home<T, U>>(self, home: &mut H, value: T) -> SampleMut<T, U>
        ensures writes { WritesPayload (homes.ports_of H.domain_of) (homes.with_ports H.changed) self.port self.slot value home.old
            home.new }
        ensures same { result ≡ sample_mut_of self.port self.slot }
    {
        let Loan {
            port,
            slot,
            state: _,
            of: _,
        } = self;
        write(port, slot, home, value);
        SampleMut::of_loan(port, slot)
    }
}

// Writes the value of a loan.
pub(crate) fn write<T: Copy, U: Copy, H: Home<T, U>>(
    port: PortId,
    slot: usize,
    home: &mut H,
    value: T,
)
    ensures { WritesPayload (homes.ports_of H.domain_of) (homes.with_ports H.changed) port slot value home.old home.new }
{
    if let Some(ports) = calls::ports_mut(home, port.domain) {
        let _ = ports.write_payload(port.number, slot, value);
    }
}
