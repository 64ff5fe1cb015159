//! A loaned slice that is written.
ghost use Rattle.iox_domain.specs.Homes as homes;
ghost use Rattle.std.specs.Prelude.{◌≡◌, true, Some};
ghost use Rattle.std.specs.Borrow.{sem, LendsIf};
ghost use Rattle.std.specs.Option.{option_copied_mut};
ghost use Rattle.iox_delivery.specs.DomainPorts.Messages.{write_value};
ghost use Rattle.iox_delivery.specs.DomainPorts.Writing.{value_at, values_at};
ghost use Rattle.iox_delivery.specs.DomainPorts.MessagesSending.{is_written_loan};
ghost use Rattle.iox_delivery.specs.Holding.{loan_found};
ghost use Rattle.iox_delivery.specs.Publishing.{loan_changed};

use crate::kind::Slice;
use crate::{lending, sample_mut};
use iox_domain::{Home, calls};

/// A loaned slice that is written, and may be sent.
///
/// Ported from `iceoryx2::sample_mut::SampleMut`.
pub type SampleMut<T, U> = sample_mut::SampleMut<T, U, Slice>;

impl<T: Copy, U: Copy> SampleMut<T, U> {
    /// The values.
    ///
    /// Ported from `iceoryx2::sample_mut::SampleMut::payload`.
    /// Example: `let first = sample.payload(home).get(0);`
    pub fn payload<'a, H: Home<T, U>>(&self, home: &'a H) -> &'a [T]
    where
        T: 'a,
        U: 'a,
        requires { is_written_loan (loan_found self.now.port.number self.now.slot
            (homes.ports_of H.domain_of self.now.port.domain home.now)) ≡ true }
        ensures { Some result.now ≡ values_at
            (loan_found self.now.port.number self.now.slot (homes.ports_of H.domain_of self.now.port.domain home.now)) }
    {
        let Some(ports) = calls::ports(home, self.port.domain) else {
            unreachable!();
        };
        match ports.values(self.port.number, self.slot) {
            Some(values) => values,
            None => unreachable!(),
        }
    }

    /// A mutable reference to the value at this place; None if the loan doesn't exist in this home, or if it doesn't have this
    /// place, or if the value there isn't written.
    ///
    /// Ported from changing it through `iceoryx2::sample_mut::SampleMut::payload_mut`.
    /// Example: `let value = SampleMut::value_mut(home, &sample, 0)?;`
    pub fn value_mut<'a, H: Home<T, U>>(
        home: &'a mut H,
        sample: &Self,
        place: usize,
    ) -> Option<&'a mut T>
    where
        T: 'a,
        U: 'a,
        ensures* writes_back { sem 𝓛 (LendsIf H.row T.row home.entry result
            (λ last. loan_changed (homes.ports_of H.domain_of) (homes.with_ports H.changed) sample.now.port sample.now.slot
            (write_value place last) home.old) home.old) }
        ensures value { option_copied_mut result
            ≡ value_at place (loan_found sample.now.port.number sample.now.slot
            (homes.ports_of H.domain_of sample.now.port.domain home.old)) }
    {
        lending::value_mut(home, sample.port, sample.slot, place)
    }
}
