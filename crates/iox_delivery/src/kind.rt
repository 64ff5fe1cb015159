//! The kinds of payload: single values, and slices.
ghost use Rattle.iox_domain.specs.Homes as homes;
ghost use Rattle.std.specs.Prelude.{◌≡◌, ℕ, Bool, Option, true, is_some};
ghost use Rattle.iox_domain.specs.declared.ports.service_ports.ServicePorts.{ServicePorts};
ghost use Rattle.iox_domain.specs.DomainPorts.Messages.{Loan};
ghost use Rattle.iox_domain.specs.DomainPorts.MessagesSending.{is_written_loan};
ghost use Rattle.iox_domain.specs.DomainPorts.declared.attached.Taken.{Taken};
ghost use Rattle.iox_delivery.specs.Holding.{loan_found, is_sample, holds_sample, holds_message};
ghost use Rattle.iox_delivery.specs.KindLaws as laws;

use crate::port_id::PortId;
use crate::{lending, subscribing};
use iox_domain::{Home, calls};
use iox_domain_ports::Taken;

/// A kind of payload: which loans may be sent, and which messages may be read.
pub trait Kind<T, U> {
    // Whether the loan may be sent and read.
    ghost is_ready: { Option (Loan T U) → Bool };

    // Whether the message that the subscriber with this number received may be read.
    ghost is_held: { ℕ → Taken → Option (ServicePorts T U) → Bool };

    /// Whether the publisher's loan in this slot may be sent and read; false if there is no such loan.
    ///
    /// Not in `iceoryx2`.
    /// Example: `let may_be_sent = K::is_ready_in(port, slot, home);`
    fn is_ready_in<H: Home<T, U>>(port: PortId, slot: usize, home: &H) -> bool
        ensures { result ≡ is_ready (loan_found port.number slot (homes.ports_of H.domain_of port.domain home.now)) };

    /// Whether the message that the subscriber received is held, and may be read.
    ///
    /// Not in `iceoryx2`.
    /// Example: `let may_be_read = K::is_held_in(port, taken, home);`
    fn is_held_in<H: Home<T, U>>(port: PortId, taken: Taken, home: &H) -> bool
        ensures { result ≡ is_held port.number taken (homes.ports_of H.domain_of port.domain home.now) };

    // A loan that may be sent is completely written.
    ghost ready_is_written: { (loan : Option (Loan T U)) → is_ready loan ≡ true → is_written_loan loan ≡ true };

    // A loan that may be sent exists.
    ghost ready_is_loan: { (loan : Option (Loan T U)) → is_ready loan ≡ true → is_some loan ≡ true };

    // A message that may be read is held.
    ghost held_is_message: { (number : ℕ) (taken : Taken) (ports : Option (ServicePorts T U)) → is_held number taken ports ≡ true
        → holds_message number taken ports ≡ true };
}

/// Single values: each loan and each sample has one value.
#[derive(Clone, Copy)]
pub struct Single;

/// Slices: each loan and each sample has any number of values.
#[derive(Clone, Copy)]
pub struct Slice;

impl<T: Copy, U: Copy> Kind<T, U> for Single {
    ghost is_ready = { λ loan. is_sample loan };

    ghost is_held = { λ number taken ports. holds_sample number taken ports };

    fn is_ready_in<H: Home<T, U>>(port: PortId, slot: usize, home: &H) -> bool {
        let Some(ports) = calls::ports(home, port.domain) else {
            return false;
        };
        match ports.values(port.number, slot) {
            Some(values) => !values.is_empty(),
            None => false,
        }
    }

    fn is_held_in<H: Home<T, U>>(port: PortId, taken: Taken, home: &H) -> bool {
        let Some(ports) = calls::ports(home, port.domain) else {
            return false;
        };
        if ports.subscribers.get(port.number).is_none() {
            return false;
        }
        match ports.payload(taken) {
            Some(values) => !values.is_empty() && taken.subscriber == port.number,
            None => false,
        }
    }

    ghost ready_is_written = { laws.sample_is_written };

    ghost ready_is_loan = { laws.sample_is_loan };

    ghost held_is_message = { laws.sample_is_message };
}

impl<T: Copy, U: Copy> Kind<T, U> for Slice {
    ghost is_ready = { λ loan. is_written_loan loan };

    ghost is_held = { λ number taken ports. holds_message number taken ports };

    fn is_ready_in<H: Home<T, U>>(port: PortId, slot: usize, home: &H) -> bool {
        lending::is_written(port, slot, home)
    }

    fn is_held_in<H: Home<T, U>>(port: PortId, taken: Taken, home: &H) -> bool {
        subscribing::holds_message(port, taken, home)
    }

    ghost ready_is_written = { λ loan written. written };

    ghost ready_is_loan = { laws.written_is_loan };

    ghost held_is_message = { λ number taken ports held. held };
}
