//! What is in a loan is written and read, and a loan is dropped. A loan is identified by its slot; if the slot has no loan,
//! nothing happens.
ghost use Rattle.std.specs.Prelude.{◌≡◌, length, is_some, option_copied, option_map};
ghost use Rattle.std.specs.Borrow.{sem};
ghost use Rattle.std.specs.Option.{option_copied_mut};
ghost use Rattle.iox_domain_ports.specs.Messages.{write_value, write_all, write_user_header};
ghost use Rattle.iox_domain_ports.specs.MessagesSending.{has_loan, has_place, has_length};
ghost use Rattle.iox_domain_ports.specs.Writing.{place_of, loan_of, changed_if, value_at, values_at, given_up};

use crate::publisher_port::PublisherPort;

impl<T: Copy, U: Copy> PublisherPort<T, U> {
    ghost use Rattle.iox_domain_ports.specs.WritingLends.{LendsValue, LendsUserHeader};

    /// Writes a value at this place of the loan in this slot; answers whether there is such a loan and it has this place.
    ///
    /// Ported from writing through `iceoryx2::sample_mut_uninit::SampleMutUninit::payload_mut`.
    pub fn write(&mut self, slot: usize, place: usize, value: T) -> bool
        ensures answer { result ≡ has_place slot place self.old.sender.uses }
        ensures after { self.new ≡ changed_if (has_place slot place self.old.sender.uses) slot (write_value place value) self.old }
    {
        if !self.sender.has_place(slot, place) {
            return false;
        }
        self.sender.write(slot, place, value);
        true
    }

    /// Writes all values of the loan in this slot at once; answers whether there is a loan of that many values.
    ///
    /// Ported from `iceoryx2::sample_mut_uninit::SampleMutUninit::write_from_slice`, which panics at another length.
    pub fn write_from_slice(&mut self, slot: usize, values: &[T]) -> bool
        ensures answer { result ≡ has_length slot (length values.now) self.old.sender.uses }
        ensures after { self.new ≡ changed_if (has_length slot (length values.now) self.old.sender.uses) slot (write_all values.now)
            self.old }
    {
        if !self.sender.has_length(slot, values.len()) {
            return false;
        }
        self.sender.write_from_slice(slot, values);
        true
    }

    /// Writes the one value of the loan in this slot; answers whether there is a loan of one value.
    ///
    /// Ported from `iceoryx2::sample_mut_uninit::SampleMutUninit::write_payload`.
    pub fn write_payload(&mut self, slot: usize, value: T) -> bool
        ensures answer { result ≡ has_length slot 1 self.old.sender.uses }
        ensures after { self.new ≡ changed_if (has_length slot 1 self.old.sender.uses) slot (write_value 0 value) self.old }
    {
        if !self.sender.has_length(slot, 1) {
            return false;
        }
        self.sender.write(slot, 0, value);
        true
    }

    /// Writes the user header of the loan in this slot; answers whether there is such a loan.
    ///
    /// Ported from writing through `iceoryx2::sample_mut_uninit::SampleMutUninit::user_header_mut`.
    pub fn write_user_header(&mut self, slot: usize, user_header: U) -> bool
        ensures answer { result ≡ has_loan slot self.old.sender.uses }
        ensures after { self.new ≡ changed_if (has_loan slot self.old.sender.uses) slot (write_user_header user_header) self.old }
    {
        if !self.sender.has_loan(slot) {
            return false;
        }
        self.sender.write_user_header(slot, user_header);
        true
    }

    /// The value at this place of the loan in this slot; None if there is no such loan, or if it doesn't have this place, or if
    /// the value there isn't written.
    pub fn value(&self, slot: usize, place: usize) -> Option<&T>
        ensures { option_copied result ≡ value_at place (loan_of slot self.now) }
    {
        if !self.sender.has_place(slot, place) {
            return None;
        }
        self.sender.value(slot, place)
    }

    /// A mutable reference to the value at this place of the loan in this slot; None if there is no such loan, or if it doesn't
    /// have this place, or if the value there isn't written.
    ///
    /// Ported from changing it through `iceoryx2::sample_mut::SampleMut::payload_mut`.
    pub fn value_mut(&mut self, slot: usize, place: usize) -> Option<&mut T>
        ensures* writes_back { sem 𝓛 (LendsValue T.row U.row self.entry slot place result) }
        ensures value { option_copied_mut result ≡ value_at place (loan_of slot self.old) }
    {
        if self.sender.has_value(slot, place) {
            Some(self.sender.value_mut(slot, place))
        } else {
            None
        }
    }

    /// The values of the loan in this slot; None if there is no such loan, or if one of its values isn't written.
    ///
    /// Ported from `iceoryx2::sample_mut::SampleMut::payload`.
    pub fn values(&self, slot: usize) -> Option<&[T]>
        ensures { option_copied result ≡ values_at (loan_of slot self.now) }
    {
        if !self.sender.is_written(slot) {
            return None;
        }
        Some(self.sender.loan_values(slot))
    }

    /// How many elements the loan in this slot has; None if there is no such loan.
    pub fn elements(&self, slot: usize) -> Option<u64>
        ensures { result ≡ option_map (λ loan. loan.elements) (loan_of slot self.now) }
    {
        if !self.sender.has_loan(slot) {
            return None;
        }
        Some(self.sender.loan_elements(slot))
    }

    /// The user header of the loan in this slot; None if there is no such loan.
    ///
    /// Ported from `iceoryx2::sample_mut_uninit::SampleMutUninit::user_header`.
    pub fn user_header(&self, slot: usize) -> Option<&U>
        ensures { option_copied result ≡ option_map (λ loan. loan.user_header) (loan_of slot self.now) }
    {
        if !self.sender.has_loan(slot) {
            return None;
        }
        Some(self.sender.loan_user_header(slot))
    }

    /// A mutable reference to the user header of the loan in this slot; None if there is no such loan.
    ///
    /// Ported from `iceoryx2::sample_mut_uninit::SampleMutUninit::user_header_mut`.
    pub fn user_header_mut(&mut self, slot: usize) -> Option<&mut U>
        ensures* writes_back { sem 𝓛 (LendsUserHeader T.row U.row self.entry slot result) }
        ensures value { option_copied_mut result ≡ option_map (λ loan. loan.user_header) (loan_of slot self.old) }
    {
        if self.sender.has_loan(slot) {
            Some(self.sender.user_header_mut(slot))
        } else {
            None
        }
    }

    /// Drops the loan in this slot; answers whether there was one.
    ///
    /// Ported from dropping an `iceoryx2::sample_mut::SampleMut`.
    pub fn drop_loan_in(&mut self, slot: usize) -> bool
        ensures answer { result ≡ is_some (place_of slot self.old) }
        ensures after { self.new ≡ given_up slot self.old }
    {
        if !self.sender.has_loan(slot) {
            return false;
        }
        self.sender.drop_loan(slot);
        true
    }
}
