//! How publishers loan, put, retry, and are closed.
ghost use Rattle.iox_domain.specs.Homes as homes;
ghost use Rattle.std.specs.Prelude.{◌≡◌, ◌<◌, ◌+◌, ◌^◌, length, true, false, Some};
ghost use Rattle.iox_delivery.specs.Holding.{publisher_stands, publisher_blocked};
ghost use Rattle.iox_container.specs.NumberTable.{value_at};
ghost use Rattle.iox_hub_commands.specs.Calls.{AtPort, AtPortIf, ready, Lends, Puts, Follows, Retries, GivesUp, PublisherGoes};
ghost use Rattle.iox_hub_commands.specs.Numbering.{LendsNumbered, LendsWrittenNumbered, removed_if};
ghost use Rattle.iox_hub_commands.specs.Tables.{port_under, lender, without_publisher};

use crate::ports::made::{Made, MadeLoan};
use iox_delivery::PortId;
use iox_delivery::slices::filling;
use iox_domain::{Home, calls};
use iox_domain_ports::Sent;
use iox_domain_values::{ConnectionFailure, LoanError, SendError};
use std::alloc::Global;

impl Made {
    /// Loans a slot of a publisher for this many elements, none of which is written, and answers the loan's number. It takes no memory for
    /// the number: there must be capacity for one more loan.
    ///
    /// None, and nothing happens, if the number has no publisher, if the publisher's messages are single values and another number of
    /// elements than one is asked for, if a send of it is blocked, or if its domain isn't in the home. Refused as `calls::loan` refuses it.
    pub fn loan_uninit<T: Copy, U: Copy, H: Home<T, U>>(
        &mut self,
        alloc: Global,
        home: &mut H,
        publisher: u64,
        elements: u64,
    ) -> Option<Result<u64, LoanError>>
        requires room { length self.old.loans.entries < self.old.loans.room }
        requires number { self.old.loans.next + 1 < 2 ^ 64 }
        ensures { LendsNumbered (homes.ports_of H.domain_of) (homes.with_ports H.changed) elements
            (lender elements (value_at self.old.publishers publisher)) self.old home.old result self.new home.new }
    {
        let port = self.lender(publisher, elements)?;
        self.loan_uninit_at(alloc, home, port, elements)
    }

    // Loans a slot of the publisher with this id for this many elements, none of which is written.
    pub(crate) fn loan_uninit_at<T: Copy, U: Copy, H: Home<T, U>>(
        &mut self,
        alloc: Global,
        home: &mut H,
        port: PortId,
        elements: u64,
    ) -> Option<Result<u64, LoanError>>
        requires room { length self.old.loans.entries < self.old.loans.room }
        requires number { self.old.loans.next + 1 < 2 ^ 64 }
        ensures { LendsNumbered (homes.ports_of H.domain_of) (homes.with_ports H.changed) elements (Some port) self.old home.old result
            self.new home.new }
    {
        let lent = calls::loan(
            home,
            alloc,
            port.domain,
            port.number,
            elements as usize,
            elements,
        )?;
        match lent {
            Ok(slot) => Some(Ok(self.loans.insert_next(MadeLoan { port, slot }))),
            Err(error) => Some(Err(error)),
        }
    }

    /// Loans a slot of a publisher for this many elements, each written with this value, and answers the loan's number. The loan may be
    /// sent at once. It takes no memory for the number: there must be capacity for one more loan.
    ///
    /// None, and nothing happens, if the number has no publisher, if the publisher's messages are single values and another number of
    /// elements than one is asked for, if a send of it is blocked, or if its domain isn't in the home. Refused as `loan_uninit` is.
    pub fn loan<T: Copy, U: Copy, H: Home<T, U>>(
        &mut self,
        alloc: Global,
        home: &mut H,
        publisher: u64,
        elements: u64,
        value: T,
    ) -> Option<Result<u64, LoanError>>
        requires room { length self.old.loans.entries < self.old.loans.room }
        requires number { self.old.loans.next + 1 < 2 ^ 64 }
        ensures { LendsWrittenNumbered (homes.ports_of H.domain_of) (homes.with_ports H.changed) elements value
            (ready (homes.ports_of H.domain_of) (lender elements (value_at self.old.publishers publisher)) home.old) self.old home.old
            result self.new home.new }
    {
        let port = self.ready_lender(home, publisher, elements)?;
        Some(self.loan_at(alloc, home, port, elements, value))
    }

    // Loans a slot of the publisher with this id, which may loan, for this many elements, each written with this value.
    pub(crate) fn loan_at<T: Copy, U: Copy, H: Home<T, U>>(
        &mut self,
        alloc: Global,
        home: &mut H,
        port: PortId,
        elements: u64,
        value: T,
    ) -> Result<u64, LoanError>
        requires room { length self.old.loans.entries < self.old.loans.room }
        requires number { self.old.loans.next + 1 < 2 ^ 64 }
        requires stands { publisher_stands port.number (homes.ports_of H.domain_of port.domain home.old) ≡ true }
        requires free { publisher_blocked port.number (homes.ports_of H.domain_of port.domain home.old) ≡ false }
        ensures { LendsWrittenNumbered (homes.ports_of H.domain_of) (homes.with_ports H.changed) elements value (Some port) self.old
            home.old (Some result) self.new home.new }
    {
        match filling::loan_filled(port, alloc, home, elements as usize, value) {
            Ok(slot) => Ok(self.loans.insert_next(MadeLoan { port, slot })),
            Err(error) => Err(error),
        }
    }

    /// Loans a slot of a publisher for these values, writes and sends them, and answers what the send answers. No loan gets a number. If
    /// the loan is refused, the answer is `SendError::LoanError`, and nothing is sent.
    ///
    /// None, and nothing happens, if the number has no publisher, if the publisher's messages are single values and the number of these
    /// values isn't one, if a send of it is blocked, or if its domain isn't in the home. Refused as `calls::send` refuses it.
    pub fn put<T: Copy, U: Copy, H: Home<T, U>>(
        &self,
        alloc: Global,
        home: &mut H,
        publisher: u64,
        values: &[T],
    ) -> Option<Result<Sent, SendError>>
        ensures { AtPort (Puts (homes.ports_of H.domain_of) (homes.with_ports H.changed)
            (homes.publisher_degrades (λ kept. H.ForPublishers.degrades kept) H.domain_of)
            (homes.publisher_decides (λ kept. H.ForPublishers.decides kept) H.domain_of) values.now)
            (ready (homes.ports_of H.domain_of) (lender (length values.now) (value_at self.now.publishers publisher)) home.old) home.old
            result home.new }
    {
        let port = self.lender(publisher, values.len() as u64)?;
        calls::put(home, alloc, port.domain, port.number, values)
    }

    /// Updates the connections of a publisher. None, and nothing happens, if the number has no publisher, if a send of it is blocked, or if
    /// its domain isn't in the home. Refused as `calls::update_publisher` refuses it.
    pub fn update_publisher<T: Copy, U: Copy, H: Home<T, U>>(
        &self,
        alloc: Global,
        home: &mut H,
        publisher: u64,
    ) -> Option<Result<(), ConnectionFailure>>
        ensures { AtPort (Follows (homes.ports_of H.domain_of) (homes.with_ports H.changed)
            (homes.publisher_degrades (λ kept. H.ForPublishers.degrades kept) H.domain_of))
            (port_under (value_at self.now.publishers publisher)) home.old result home.new }
    {
        let port = self.publisher(publisher)?;
        calls::update_publisher(home, alloc, port.domain, port.number)
    }

    /// Tries the blocked send of a publisher again, with this many nanoseconds elapsed. None, and nothing happens, if the number has no
    /// publisher, if no send of it is blocked, or if its domain isn't in the home. Refused as `calls::retry` refuses it.
    pub fn retry<T: Copy, U: Copy, H: Home<T, U>>(
        &self,
        home: &mut H,
        publisher: u64,
        elapsed: u64,
    ) -> Option<Result<Sent, SendError>>
        ensures { AtPort (Retries (homes.ports_of H.domain_of) (homes.with_ports H.changed)
            (homes.publisher_decides (λ kept. H.ForPublishers.decides kept) H.domain_of) elapsed)
            (port_under (value_at self.now.publishers publisher)) home.old result home.new }
    {
        let port = self.publisher(publisher)?;
        calls::retry(home, port.domain, port.number, elapsed)
    }

    /// Gives up the blocked send of a publisher, and answers how many connections took its message. None, and nothing happens, if the
    /// number has no publisher, if no send of it is blocked, or if its domain isn't in the home.
    pub fn give_up<T: Copy, U: Copy, H: Home<T, U>>(
        &self,
        home: &mut H,
        publisher: u64,
    ) -> Option<usize>
        ensures { AtPort (GivesUp (homes.ports_of H.domain_of) (homes.with_ports H.changed))
            (port_under (value_at self.now.publishers publisher)) home.old result home.new }
    {
        let port = self.publisher(publisher)?;
        calls::ports_mut(home, port.domain)?.give_up(port.number)
    }

    /// Closes a publisher, whose number names nothing any longer. Answers false, and nothing happens, if the number has no publisher, if a
    /// send of it is blocked, or if its domain isn't in the home.
    pub fn leave_publisher<T: Copy, U: Copy, H: Home<T, U>>(
        &mut self,
        home: &mut H,
        publisher: u64,
    ) -> bool
        ensures home { AtPortIf (PublisherGoes (homes.ports_of H.domain_of) (homes.with_ports H.changed)
            (homes.without_publisher H.changed)) (port_under (value_at self.old.publishers publisher)) home.old result home.new }
        ensures number { self.new ≡ removed_if result (without_publisher publisher) self.old }
    {
        let Some(port) = self.publisher(publisher) else {
            return false;
        };
        if !calls::leave_publisher(home, port.domain, port.number) {
            return false;
        }
        self.publishers.remove(publisher);
        true
    }
}
