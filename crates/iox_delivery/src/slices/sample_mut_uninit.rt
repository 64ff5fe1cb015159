//! A loaned slice that isn't written yet.
ghost use Rattle.iox_domain.specs.Homes as homes;
ghost use Rattle.std.specs.Prelude.{◌≡◌, ◌==◌, ◌<◌, true, List, length, is_some, option_copied};
ghost use Rattle.iox_delivery.specs.Container.Vectors.{MakesInTurn};
ghost use Rattle.iox_delivery.specs.DomainPorts.Writing.{value_at};
ghost use Rattle.iox_delivery.specs.Holding.{loan_found};
ghost use Rattle.iox_delivery.specs.Publishing.{sample_mut_of};
ghost use Rattle.iox_delivery.specs.Slices.{WritesAt, WritesAll, WritesEach};

use crate::kind::Slice;
use crate::loan::{Loan, Uninit};
use crate::sample_mut_uninit;
use crate::slices::filling;
use crate::slices::sample_mut::SampleMut;
use iox_domain::{Home, calls};

/// A loaned slice that isn't written yet.
///
/// Ported from `iceoryx2::sample_mut_uninit::SampleMutUninit`.
pub type SampleMutUninit<T, U> = sample_mut_uninit::SampleMutUninit<T, U, Slice>;

impl<T: Copy, U: Copy> SampleMutUninit<T, U> {
    /// How many values the loan has.
    ///
    /// Not in `iceoryx2`: the length of what `iceoryx2::sample_mut_uninit::SampleMutUninit::payload` returns.
    /// Example: `let values = loan.len();`
    pub fn len(&self) -> usize
        ensures { result ≡ self.now.state.len }
    {
        self.state.len
    }

    /// Whether the loan has no values.
    /// Example: `let has_none = loan.is_empty();`
    pub fn is_empty(&self) -> bool
        ensures { result ≡ (self.now.state.len == 0) }
    {
        self.state.len == 0
    }

    /// The value at this place, if it is written.
    ///
    /// Ported from reading `iceoryx2::sample_mut_uninit::SampleMutUninit::payload`, which returns a slice of `MaybeUninit`.
    /// Example: `let value = loan.payload_at(home, 0);`
    pub fn payload_at<'a, H: Home<T, U>>(&self, home: &'a H, place: usize) -> Option<&'a T>
    where
        T: 'a,
        U: 'a,
        requires { place < self.now.state.len }
        ensures { option_copied result ≡ value_at place
            (loan_found self.now.port.number self.now.slot (homes.ports_of H.domain_of self.now.port.domain home.now)) }
    {
        match calls::ports(home, self.port.domain) {
            Some(ports) => ports.value(self.port.number, self.slot, place),
            None => None,
        }
    }

    /// Writes the value at this place, if the loan exists in this home.
    ///
    /// Ported from writing through `iceoryx2::sample_mut_uninit::SampleMutUninit::payload_mut`.
    /// Example: `loan.payload_write_at(home, 0, 7);`
    pub fn payload_write_at<H: Home<T, U>>(&mut self, home: &mut H, place: usize, value: T)
        requires { place < self.old.state.len }
        ensures writes { WritesAt (homes.ports_of H.domain_of) (homes.with_ports H.changed) self.old.port self.old.slot place value
            home.old home.new }
        ensures same { self.new ≡ self.old }
    {
        if let Some(ports) = calls::ports_mut(home, self.port.domain) {
            let _ = ports.write(self.port.number, self.slot, place, value);
        }
    }

    /// Writes all values, and turns the loan into one that is written.
    ///
    /// Ported from `iceoryx2::sample_mut_uninit::SampleMutUninit::write_from_slice`, which panics at another length.
    /// Example: `let sample = loan.write_from_slice(home, &[7, 8]);`
    pub fn write_from_slice<H: Home<T, U>>(self, home: &mut H, values: &[T]) -> SampleMut<T, U>
        requires { length values.now ≡ self.state.len }
        ensures writes { WritesAll (homes.ports_of H.domain_of) (homes.with_ports H.changed) self.port self.slot values.now home.old
            home.new }
        ensures same { result ≡ sample_mut_of self.port self.slot }
    {
        let Loan {
            port,
            slot,
            state: _,
            of: _,
        } = self;
        filling::write_all(port, slot, home, values);
        SampleMut::of_loan(port, slot)
    }

    /// Writes what `make` returns for 0, 1 and so on, with one call for each value and none beyond, and turns the loan into one
    /// that is written.
    ///
    /// Ported from `iceoryx2::sample_mut_uninit::SampleMutUninit::write_from_fn`.
    /// Example: `let sample = loan.write_from_fn(home, &mut |place: usize| place as u64);`
    pub fn write_from_fn<H: Home<T, U>, F: FnMut(usize) -> T>(
        self,
        home: &mut H,
        make: &mut F,
    ) -> SampleMut<T, U>
        requires holds { is_some (loan_found self.port.number self.slot (homes.ports_of H.domain_of self.port.domain home.old)) ≡ true }
        requires callable { F.IsAlwaysCallable make.old }
        ensures writes { (values : List T) × MakesInTurn (λ p place value q. F.step p place value q) make.old 0 values make.new
            × (length values ≡ self.state.len) × WritesEach (homes.ports_of H.domain_of) (homes.with_ports H.changed) self.port self.slot
            values home.old home.new }
        ensures still_callable { F.IsAlwaysCallable make.new }
        ensures same { result ≡ sample_mut_of self.port self.slot }
    {
        let Loan {
            port,
            slot,
            state: Uninit { len },
            of: _,
        } = self;
        filling::write_made(port, slot, home, len, make);
        SampleMut::of_loan(port, slot)
    }
}
