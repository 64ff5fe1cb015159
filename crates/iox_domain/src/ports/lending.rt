//! A publisher loans a slot, what is to be sent is written there, and a loan is dropped.
ghost use Rattle.std.specs.Prelude.{◌≡◌, ℕ, length, is_some, true, None, IsSome, option_copied, option_map};
ghost use Rattle.std.specs.Borrow.{sem};
ghost use Rattle.std.specs.Option.{option_copied_mut};
ghost use Rattle.iox_domain_ports.specs.Messages.{write_value, write_all, write_user_header};
ghost use Rattle.iox_domain_ports.specs.MessagesSending.{has_loan, has_place, has_length, is_written_loan};
ghost use Rattle.iox_domain_ports.specs.Writing.{place_of, changed_if, value_at, values_at, given_up};
ghost use Rattle.iox_domain_ports.specs.Publishers.{port_of, changed, settled};
ghost use Rattle.iox_domain.specs.Lending.{LoansOne, passes, written_in, loan_in, loan_header_in, gave_up_in};
ghost use Rattle.iox_domain.specs.Ports.{AtPublisher};

use crate::ports::service_ports::ServicePorts;
use iox_describe_base::Header;
use iox_domain_ports::PublisherPort;
use iox_domain_values::LoanError;
use std::alloc::Global;

impl<T: Copy, U: Copy> ServicePorts<T, U> {
    ghost use Rattle.iox_domain.specs.LendingLends.{LendsValue, LendsUserHeader};

    /// The publisher loans a slot for `values` values: `PublisherPort::loan` says when that fails and what changes. The header
    /// of the message says `elements` elements, and `blank` fills a new segment. The call answers None, and nothing happens, if
    /// no open publisher has this number, and while a send of it is blocked.
    ///
    /// Ported from `iceoryx2::port::publisher::Publisher::loan_slice_uninit`.
    pub fn loan(
        &mut self,
        alloc: Global,
        number: u64,
        values: usize,
        elements: u64,
        blank: T,
    ) -> Option<Result<usize, LoanError>>
        ensures { AtPublisher number (LoansOne values elements) (port_of number self.old.publishers) self.old result self.new }
    {
        // An open publisher isn't over, whatever it lends, so that isn't checked.
        let port = self.publishers.get_mut(number)?;
        loan_one(port, alloc, values, elements, blank)
    }

    /// Writes a value at this place of the loan in this slot; answers whether the publisher has such a loan with this place.
    ///
    /// Ported from writing through `iceoryx2::sample_mut_uninit::SampleMutUninit::payload_mut`.
    pub fn write(&mut self, number: u64, slot: usize, place: usize, value: T) -> bool
        ensures answer { result ≡ passes number (λ port. has_place slot place port.sender.uses) self.old }
        ensures after { self.new ≡ written_in number (λ port. has_place slot place port.sender.uses) slot (write_value place value)
            self.old }
    {
        match self.publishers.get_mut(number) {
            Some(port) => port.write(slot, place, value),
            None => false,
        }
    }

    /// Writes all values of the loan in this slot at once; answers whether the publisher has such a loan of that many values.
    ///
    /// Ported from `iceoryx2::sample_mut_uninit::SampleMutUninit::write_from_slice`, which panics at another length.
    pub fn write_from_slice(&mut self, number: u64, slot: usize, values: &[T]) -> bool
        ensures answer { result ≡ passes number (λ port. has_length slot (length values.now) port.sender.uses) self.old }
        ensures after { self.new ≡ written_in number (λ port. has_length slot (length values.now) port.sender.uses) slot
            (write_all values.now) self.old }
    {
        match self.publishers.get_mut(number) {
            Some(port) => port.write_from_slice(slot, values),
            None => false,
        }
    }

    /// Writes the one value of the loan in this slot; answers whether the publisher has such a loan of one value.
    ///
    /// Ported from `iceoryx2::sample_mut_uninit::SampleMutUninit::write_payload`.
    pub fn write_payload(&mut self, number: u64, slot: usize, value: T) -> bool
        ensures answer { result ≡ passes number (λ port. has_length slot 1 port.sender.uses) self.old }
        ensures after { self.new ≡ written_in number (λ port. has_length slot 1 port.sender.uses) slot (write_value 0 value) self.old }
    {
        match self.publishers.get_mut(number) {
            Some(port) => port.write_payload(slot, value),
            None => false,
        }
    }

    /// Writes the user header of the loan in this slot; answers whether the publisher has such a loan.
    ///
    /// Ported from writing through `iceoryx2::sample_mut_uninit::SampleMutUninit::user_header_mut`.
    pub fn write_user_header(&mut self, number: u64, slot: usize, user_header: U) -> bool
        ensures answer { result ≡ passes number (λ port. has_loan slot port.sender.uses) self.old }
        ensures after { self.new ≡ written_in number (λ port. has_loan slot port.sender.uses) slot (write_user_header user_header)
            self.old }
    {
        match self.publishers.get_mut(number) {
            Some(port) => port.write_user_header(slot, user_header),
            None => false,
        }
    }

    /// The value at this place of the publisher's loan in this slot; None if there is no such loan, or if it doesn't have this
    /// place, or if the value there isn't written.
    pub fn value(&self, number: u64, slot: usize, place: usize) -> Option<&T>
        ensures { option_copied result ≡ value_at place (loan_in number slot self.now) }
    {
        match self.publishers.get(number) {
            Some(port) => port.value(slot, place),
            None => None,
        }
    }

    /// A mutable reference to the value at this place of the publisher's loan in this slot; None if there is no such loan, or
    /// if it doesn't have this place, or if the value there isn't written.
    ///
    /// Ported from changing it through `iceoryx2::sample_mut::SampleMut::payload_mut`.
    pub fn value_mut(&mut self, number: u64, slot: usize, place: usize) -> Option<&mut T>
        ensures* writes_back { sem 𝓛 (LendsValue T.row U.row self.entry number slot place result) }
        ensures value { option_copied_mut result ≡ value_at place (loan_in number slot self.old) }
    {
        match self.publishers.get_mut(number) {
            Some(port) => port.value_mut(slot, place),
            None => None,
        }
    }

    /// The values of the publisher's loan in this slot; None if there is no such loan, or if one of its values isn't written.
    ///
    /// Ported from `iceoryx2::sample_mut::SampleMut::payload`.
    pub fn values(&self, number: u64, slot: usize) -> Option<&[T]>
        ensures { option_copied result ≡ values_at (loan_in number slot self.now) }
    {
        match self.publishers.get(number) {
            Some(port) => port.values(slot),
            None => None,
        }
    }

    /// The user header of the publisher's loan in this slot; None if there is no such loan.
    ///
    /// Ported from `iceoryx2::sample_mut_uninit::SampleMutUninit::user_header`.
    pub fn loan_user_header(&self, number: u64, slot: usize) -> Option<&U>
        ensures { option_copied result ≡ option_map (λ loan. loan.user_header) (loan_in number slot self.now) }
    {
        match self.publishers.get(number) {
            Some(port) => port.user_header(slot),
            None => None,
        }
    }

    /// A mutable reference to the user header of the publisher's loan in this slot; None if there is no such loan.
    ///
    /// Ported from `iceoryx2::sample_mut_uninit::SampleMutUninit::user_header_mut`.
    pub fn user_header_mut(&mut self, number: u64, slot: usize) -> Option<&mut U>
        ensures* writes_back { sem 𝓛 (LendsUserHeader T.row U.row self.entry number slot result) }
        ensures value { option_copied_mut result ≡ option_map (λ loan. loan.user_header) (loan_in number slot self.old) }
    {
        match self.publishers.get_mut(number) {
            Some(port) => port.user_header_mut(slot),
            None => None,
        }
    }

    /// What the header of the publisher's loan in this slot says; None if there is no such loan. A loan has no sequence number:
    /// its send gives it one.
    ///
    /// Ported from `iceoryx2::sample_mut_uninit::SampleMutUninit::header`.
    pub fn loan_header(&self, number: u64, slot: usize) -> Option<Header>
        ensures { result ≡ loan_header_in number slot self.now }
    {
        let port = self.publishers.get(number)?;
        let elements = port.elements(slot)?;
        Some(Header {
            node_id: port.owner.node_id,
            publisher_id: port.number,
            number_of_elements: elements,
            sequence: None,
        })
    }

    /// Whether the publisher has a loan in this slot each value of which is written, which sending it requires.
    pub fn is_written(&self, number: u64, slot: usize) -> bool
        ensures { result ≡ is_written_loan (loan_in number slot self.now) }
    {
        match self.publishers.get(number) {
            Some(port) => port.sender.is_written(slot),
            None => false,
        }
    }

    /// Drops the loan in this slot; answers whether the publisher had one there. A closed publisher is removed then if nothing
    /// else of it is in use.
    ///
    /// Ported from dropping an `iceoryx2::sample_mut::SampleMut`.
    pub fn drop_loan(&mut self, number: u64, slot: usize) -> bool
        ensures answer { result ≡ passes number (λ port. is_some (place_of slot port)) self.old }
        ensures after { self.new ≡ gave_up_in number slot self.old }
    {
        let was_there = self.give_up_loan(number, slot);
        self.publishers.settle(number);
        was_there
    }

    // Drops the loan in this slot.
    fn give_up_loan(&mut self, number: u64, slot: usize) -> bool
        ensures answer { result ≡ passes number (λ port. is_some (place_of slot port)) self.old }
        ensures after { self.new ≡ record self.old { publishers = changed number (given_up slot) self.old.publishers } }
    {
        match self.publishers.get_mut(number) {
            Some(port) => port.drop_loan_in(slot),
            None => false,
        }
    }
}

// An open publisher loans a slot.
#[tactic(auto, using(crate::proofs::Putting::lends_stand))]
fn loan_one<T: Copy, U: Copy>(
    port: &mut PublisherPort<T, U>,
    alloc: Global,
    values: usize,
    elements: u64,
    blank: T,
) -> Option<Result<usize, LoanError>>
    ensures loans { LoansOne values elements port.old result port.new }
    ensures none { result ≡ None → port.new ≡ port.old }
    ensures stands { IsSome result → port.new.stands ≡ true }
{
    if !port.stands {
        return None;
    }
    let allocation = port.allocation;
    port.loan(alloc, values, elements, allocation, blank)
}
