//! Theorems about the calls of ports. They are the contracts of functions that do nothing.
ghost use Rattle.std.specs.Prelude.{◌≡◌, ℕ, Option, is_some};
ghost use Rattle.iox_domain.specs.declared.ports.service_ports.ServicePorts.{ServicePorts};
ghost use Rattle.iox_domain.specs.DomainPorts.Messages.{Loan as Lent};
ghost use Rattle.iox_domain.specs.DomainPorts.MessagesSending.{is_written_loan};
ghost use Rattle.iox_domain.specs.DomainPorts.declared.attached.Taken.{Taken};
ghost use Rattle.iox_delivery.specs.Holding.{is_sample, holds_sample, holds_message};
ghost use Rattle.iox_delivery.specs.Lent.{LoanIsFresh};

use crate::kind::{Kind, Single, Slice};
use crate::loan::{LoanState, Uninit, Written};

/// A loan that was just made is found in its slot: none of its values is written, it has the user header that its publisher
/// gives new loans, and its header says that publisher and no sequence number. The publisher is open, and no send of it is blocked.
pub fn loan_is_fresh<T, U>()
    ensures { LoanIsFresh T U }
{}

/// A loan may be sent if each of its values is written; a loan of a single value must also have a value.
pub fn what_may_be_sent<T: Copy, U: Copy>()
    ensures slice { (loan : Option (Lent T U)) → ⟦<Slice as Kind<T, U>>⟧.is_ready loan ≡ is_written_loan loan }
    ensures single { (loan : Option (Lent T U)) → ⟦<Single as Kind<T, U>>⟧.is_ready loan ≡ is_sample loan }
{}

/// A message may be read if the subscriber that received it exists and holds it; a message of a single value must also have a
/// value.
pub fn what_may_be_read<T: Copy, U: Copy>()
    ensures slice { (number : ℕ) (taken : Taken) (ports : Option (ServicePorts T U))
        → ⟦<Slice as Kind<T, U>>⟧.is_held number taken ports ≡ holds_message number taken ports }
    ensures single { (number : ℕ) (taken : Taken) (ports : Option (ServicePorts T U))
        → ⟦<Single as Kind<T, U>>⟧.is_held number taken ports ≡ holds_sample number taken ports }
{}

/// The calls of a loan that isn't written require that it exists; those of a written one require that it may be sent.
pub fn how_far_a_loan_is<T: Copy, U: Copy, K: Kind<T, U>>()
    ensures uninit { (loan : Option (Lent T U)) → ⟦<Uninit as LoanState<T, U, K>>⟧.is_held loan ≡ is_some loan }
    ensures written { (loan : Option (Lent T U)) → ⟦<Written as LoanState<T, U, K>>⟧.is_held loan ≡ K.is_ready loan }
{}
