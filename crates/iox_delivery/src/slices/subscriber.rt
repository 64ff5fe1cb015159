//! A subscriber of slices.
ghost use Rattle.iox_domain.specs.Homes as homes;
ghost use Rattle.std.specs.Prelude.{◌≡◌, true};
ghost use Rattle.iox_delivery.specs.Holding.{subscriber_stands};
ghost use Rattle.iox_delivery.specs.Subscribing.{ReceivesSample};

use crate::kind::Slice;
use crate::slices::sample::Sample;
use crate::subscriber;
use iox_domain::Home;
use iox_domain::settings::CustomPayloadMarker;
use iox_domain_values::ReceiveError;
use std::alloc::Global;

/// A subscriber of slices. It is open until it is closed.
///
/// Ported from `iceoryx2::port::subscriber::Subscriber`.
pub type Subscriber<T, U> = subscriber::Subscriber<T, U, Slice>;

impl<U: Copy> Subscriber<CustomPayloadMarker, U> {
    /// Receives the next message of a payload that only the description defines, as `receive` does: all bytes of its elements.
    ///
    /// Ported from `iceoryx2::port::subscriber::Subscriber::receive_custom_payload`, which is unsafe.
    /// Example: `let sample = subscriber.receive_custom_payload(alloc, home)?;`
    pub fn receive_custom_payload<H: Home<CustomPayloadMarker, U>>(
        &self,
        alloc: Global,
        home: &mut H,
    ) -> Result<Option<Sample<CustomPayloadMarker, U>>, ReceiveError>
        requires { subscriber_stands self.now.port.number (homes.ports_of H.domain_of self.now.port.domain home.old) ≡ true }
        ensures { ReceivesSample (homes.ports_of H.domain_of) (homes.with_ports H.changed)
            (homes.subscriber_degrades (λ kept. H.ForSubscribers.degrades kept) H.domain_of) self.now.port home.old result home.new }
    {
        self.receive(alloc, home)
    }
}
