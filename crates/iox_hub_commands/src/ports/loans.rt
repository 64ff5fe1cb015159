//! How loans are written, dropped and sent.
ghost use Rattle.iox_domain.specs.Homes as homes;
ghost use Rattle.std.specs.Prelude.{◌≡◌, is_some, if◌then◌else◌, Some};
ghost use Rattle.iox_delivery.specs.Domain.Lending.{gave_up_in};
ghost use Rattle.iox_delivery.specs.Holding.{loan_found};
ghost use Rattle.iox_container.specs.NumberTable.{value_at};
ghost use Rattle.iox_hub_commands.specs.Loans.{loan_under, changed_under, is_set, set_in, is_filled, filled_in, SendsUnder};
ghost use Rattle.iox_hub_commands.specs.Numbering.{removed_if};
ghost use Rattle.iox_hub_commands.specs.Tables.{without_loan};

use crate::ports::made::Made;
use iox_delivery::lending;
use iox_domain::{Home, ServicePorts, calls};
use iox_domain_ports::Sent;
use iox_domain_values::SendError;
use std::alloc::Global;

impl Made {
    /// Writes one value of a written loan, at this place, counted from 0. Answers false, and nothing happens, if the number has no loan, if
    /// some value of the loan isn't written yet, if the loan has no such place, or if its domain isn't in the home.
    pub fn set<T: Copy, U: Copy, H: Home<T, U>>(
        &self,
        home: &mut H,
        loan: u64,
        place: usize,
        value: T,
    ) -> bool
        ensures answer { result ≡ is_set place (loan_under (homes.ports_of H.domain_of) (value_at self.now.loans loan) home.old) }
        ensures home { home.new ≡ (if result then changed_under (homes.ports_of H.domain_of) (homes.with_ports H.changed)
            (set_in place value) (value_at self.now.loans loan) home.old else home.old) }
    {
        let Some(made) = self.loans.get(loan).copied() else {
            return false;
        };
        match calls::ports_mut(home, made.port.domain) {
            Some(ports) => set_in(ports, made.port.number, made.slot, place, value),
            None => false,
        }
    }

    /// Writes all values of a loan. Answers false, and nothing happens, if the number has no loan, if the loan has another number of
    /// values, or if its domain isn't in the home.
    pub fn fill<T: Copy, U: Copy, H: Home<T, U>>(
        &self,
        home: &mut H,
        loan: u64,
        values: &[T],
    ) -> bool
        ensures answer { result ≡ is_filled (homes.ports_of H.domain_of) values.now (value_at self.now.loans loan) home.old }
        ensures home { home.new ≡ changed_under (homes.ports_of H.domain_of) (homes.with_ports H.changed) (filled_in values.now)
            (value_at self.now.loans loan) home.old }
    {
        let Some(made) = self.loans.get(loan).copied() else {
            return false;
        };
        match calls::ports_mut(home, made.port.domain) {
            Some(ports) => ports.write_from_slice(made.port.number, made.slot, values),
            None => false,
        }
    }

    /// Drops a loan, and its number names nothing any longer. Answers false, and nothing happens, if the number has no loan, or if the
    /// loan's domain isn't in the home.
    pub fn drop_loan<T: Copy, U: Copy, H: Home<T, U>>(&mut self, home: &mut H, loan: u64) -> bool
        ensures answer { result ≡ is_some (loan_under (homes.ports_of H.domain_of) (value_at self.old.loans loan) home.old) }
        ensures home { home.new ≡ (if result then changed_under (homes.ports_of H.domain_of) (homes.with_ports H.changed) gave_up_in
            (value_at self.old.loans loan) home.old else home.old) }
        ensures number { self.new ≡ removed_if result (without_loan loan) self.old }
    {
        let Some(made) = self.loans.get(loan).copied() else {
            return false;
        };
        if !lending::is_out(made.port, made.slot, home) {
            return false;
        }
        let _ = lending::drop_loan(made.port, made.slot, home);
        self.loans.remove(loan);
        true
    }

    /// Sends a loan, whose number names nothing any longer, even if the send is blocked or refused. None, and nothing happens, if the
    /// number has no loan, if some value of the loan isn't written yet, if a send of its publisher is blocked, or if its domain isn't in
    /// the home. Refused as `calls::send` refuses it.
    pub fn send<T: Copy, U: Copy, H: Home<T, U>>(
        &mut self,
        alloc: Global,
        home: &mut H,
        loan: u64,
    ) -> Option<Result<Sent, SendError>>
        ensures home { SendsUnder (homes.ports_of H.domain_of) (homes.with_ports H.changed)
            (homes.publisher_degrades (λ kept. H.ForPublishers.degrades kept) H.domain_of)
            (homes.publisher_decides (λ kept. H.ForPublishers.decides kept) H.domain_of) (value_at self.old.loans loan) home.old result
            home.new }
        ensures number { self.new ≡ removed_if (is_some result) (without_loan loan) self.old }
    {
        let made = self.loans.get(loan).copied()?;
        let sent = calls::send(home, alloc, made.port.domain, made.port.number, made.slot)?;
        self.loans.remove(loan);
        Some(sent)
    }
}

// Writes one value of the written loan in a slot, if the loan has this place.
fn set_in<T: Copy, U: Copy>(
    ports: &mut ServicePorts<T, U>,
    number: u64,
    slot: usize,
    place: usize,
    value: T,
) -> bool
    ensures answer { result ≡ is_set place (loan_found number slot (Some ports.old)) }
    ensures ports { ports.new ≡ (if result then set_in place value number slot ports.old else ports.old) }
{
    if !ports.is_written(number, slot) || ports.value(number, slot, place).is_none() {
        return false;
    }
    let _ = ports.write(number, slot, place, value);
    true
}
