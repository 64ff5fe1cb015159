//! A publisher of slices.
ghost use Rattle.iox_domain.specs.Homes as homes;
ghost use Rattle.std.specs.Prelude.{◌≡◌, true, false, replicate, IfOk};
ghost use Rattle.iox_delivery.specs.Lent.{IsReady};
ghost use Rattle.iox_delivery.specs.Holding.{publisher_stands, publisher_blocked};
ghost use Rattle.iox_delivery.specs.Custom.{LendsElements, may_have, values_of};
ghost use Rattle.iox_delivery.specs.Slices.{LendsSlice, LendsDefaults, SendsSlice};

use crate::kind::Slice;
use crate::slices::filling;
use crate::slices::sample_mut::SampleMut;
use crate::slices::sample_mut_uninit::SampleMutUninit;
use crate::{PortId, Sent, lending, publisher, publishing};
use iox_describe_base::TypeVariant;
use iox_domain::settings::CustomPayloadMarker;
use iox_domain::{Home, calls};
use iox_domain_values::{LoanError, SendError};
use std::alloc::Global;

/// A publisher of slices. It is open until it is closed.
///
/// Ported from `iceoryx2::port::publisher::Publisher`.
pub type Publisher<T, U> = publisher::Publisher<T, U, Slice>;

impl<T: Copy, U: Copy> Publisher<T, U> {
    /// The maximum number of elements of a loan in the first segment.
    ///
    /// Ported from `iceoryx2::port::publisher::Publisher::initial_max_slice_len`.
    /// Example: `let values = publisher.initial_max_slice_len();`
    pub fn initial_max_slice_len(&self) -> usize
        ensures { result ≡ self.now.side.initial_max_slice_len }
    {
        self.side.initial_max_slice_len
    }

    /// Loans `len` values that aren't written. The call fails as `ServicePorts::loan` does: with `ExceedsMaxLoanSize` if the
    /// loan is longer than a slot and the strategy is static; otherwise with `ExceedsMaxLoans` if as many loans exist as the
    /// limit allows; otherwise with `OutOfMemory` if each slot is in use or a new segment can't be opened.
    ///
    /// Ported from `iceoryx2::port::publisher::Publisher::loan_slice_uninit`.
    /// Example: `let loan = publisher.loan_slice_uninit(alloc, home, 4)?;`
    pub fn loan_slice_uninit<H: Home<T, U>>(
        &self,
        alloc: Global,
        home: &mut H,
        len: usize,
    ) -> Result<SampleMutUninit<T, U>, LoanError>
        requires holds { publisher_stands self.now.port.number (homes.ports_of H.domain_of self.now.port.domain home.old) ≡ true }
        requires free { publisher_blocked self.now.port.number (homes.ports_of H.domain_of self.now.port.domain home.old) ≡ false }
        ensures { LendsSlice (homes.ports_of H.domain_of) (homes.with_ports H.changed) self.now.port len home.old result home.new }
    {
        let slot = publishing::loan(self.port, alloc, home, len, len as u64)?;
        Ok(SampleMutUninit::of_loan(self.port, slot, len))
    }

    /// Loans `len` values that are written, each as the same default. The call fails as `loan_slice_uninit` does. The loan can
    /// be sent at once: it is written, and no send is blocked.
    ///
    /// Ported from `iceoryx2::port::publisher::Publisher::loan_slice`.
    /// Example: `let sample = publisher.loan_slice(alloc, home, 4)?;`
    pub fn loan_slice<H: Home<T, U>>(
        &self,
        alloc: Global,
        home: &mut H,
        len: usize,
    ) -> Result<SampleMut<T, U>, LoanError>
    where
        T: Default,
        requires holds { publisher_stands self.now.port.number (homes.ports_of H.domain_of self.now.port.domain home.old) ≡ true }
        requires free { publisher_blocked self.now.port.number (homes.ports_of H.domain_of self.now.port.domain home.old) ≡ false }
        ensures lends { LendsDefaults (homes.ports_of H.domain_of) (homes.with_ports H.changed) T.is_default self.now.port len home.old
            result home.new }
        ensures ready { IfOk result (λ sample. (value : T) × T.is_default value
            × IsReady self.now.port.number (replicate len value) len sample.slot
            (homes.ports_of H.domain_of self.now.port.domain home.new)) }
    {
        let slot = filling::loan_filled(self.port, alloc, home, len, T::default())?;
        Ok(SampleMut::of_loan(self.port, slot))
    }

    /// Loans as many values as given, writes them and sends them. If the loan fails, as `loan_slice_uninit` does, the error is
    /// `SendError::LoanError`, and nothing is sent; otherwise the call answers as `SampleMut::send` does.
    ///
    /// Not in `iceoryx2`: `iceoryx2::port::publisher::Publisher::send_copy` for slices.
    /// Example: `let sent = publisher.send_slice(alloc, home, &[7, 8])?;`
    pub fn send_slice<H: Home<T, U>>(
        &self,
        alloc: Global,
        home: &mut H,
        values: &[T],
    ) -> Result<Sent<T, U>, SendError>
        requires holds { publisher_stands self.now.port.number (homes.ports_of H.domain_of self.now.port.domain home.old) ≡ true }
        requires free { publisher_blocked self.now.port.number (homes.ports_of H.domain_of self.now.port.domain home.old) ≡ false }
        ensures { SendsSlice (homes.ports_of H.domain_of) (homes.with_ports H.changed)
            (homes.publisher_degrades (λ kept. H.ForPublishers.degrades kept) H.domain_of)
            (homes.publisher_decides (λ kept. H.ForPublishers.decides kept) H.domain_of) self.now.port values.now home.old result home.new }
    {
        let len = values.len();
        let slot = publishing::loan(self.port, alloc, home, len, len as u64)?;
        filling::write_all(self.port, slot, home, values);
        lending::send(self.port, slot, alloc, home)
    }
}

impl<U: Copy> Publisher<CustomPayloadMarker, U> {
    /// Whether a message of the publisher may have `len` elements, which `loan_custom_payload` requires: one, or any number if a
    /// payload is a slice.
    ///
    /// Not in `iceoryx2`.
    /// Example: `let may = publisher.may_have(2);`
    pub fn may_have(&self, len: usize) -> bool
        ensures { result ≡ may_have len self.now.side.payload }
    {
        match self.side.payload {
            TypeVariant::FixedSize => len == 1,
            TypeVariant::Dynamic => true,
        }
    }

    /// Loans `len` elements of a payload that only the description defines: all of their bytes, not written. The header of the
    /// message says `len` elements. If a payload isn't a slice it has one element. The call fails as `loan_slice_uninit` does;
    /// lengths are counted in elements then.
    ///
    /// Ported from `iceoryx2::port::publisher::Publisher::loan_custom_payload`, which is unsafe.
    /// Example: `let loan = publisher.loan_custom_payload(alloc, home, 2)?;`
    pub fn loan_custom_payload<H: Home<CustomPayloadMarker, U>>(
        &self,
        alloc: Global,
        home: &mut H,
        len: usize,
    ) -> Result<SampleMutUninit<CustomPayloadMarker, U>, LoanError>
        requires holds { publisher_stands self.now.port.number (homes.ports_of H.domain_of self.now.port.domain home.old) ≡ true }
        requires free { publisher_blocked self.now.port.number (homes.ports_of H.domain_of self.now.port.domain home.old) ≡ false }
        requires elements { may_have len self.now.side.payload ≡ true }
        ensures { LendsElements (homes.ports_of H.domain_of) (homes.with_ports H.changed) self.now.port len home.old result home.new }
    {
        let bytes = values_of(self.port, len, home);
        let slot = publishing::loan(self.port, alloc, home, bytes, len as u64)?;
        Ok(SampleMutUninit::of_loan(self.port, slot, bytes))
    }
}

// How many values these elements of the publisher have.
fn values_of<T: Copy, U: Copy, H: Home<T, U>>(port: PortId, elements: usize, home: &H) -> usize
    ensures { result ≡ values_of port.number elements (homes.ports_of H.domain_of port.domain home.now) }
{
    let Some(ports) = calls::ports(home, port.domain) else {
        return 0;
    };
    match ports.publishers.get(port.number) {
        Some(publisher) => elements.saturating_mul(publisher.unit),
        None => 0,
    }
}
