//! A slice that was received.
ghost use Rattle.iox_domain.specs.Homes as homes;
ghost use Rattle.std.specs.Prelude.{◌≡◌, true, Some, option_map};
ghost use Rattle.iox_delivery.specs.Holding.{message_found, holds_message};

use crate::kind::Slice;
use crate::{sample, subscribing};
use iox_domain::Home;

/// A slice that was received. It stays as it was sent until it is released, whatever ports are closed.
///
/// Ported from `iceoryx2::sample::Sample`.
pub type Sample<T, U> = sample::Sample<T, U, Slice>;

impl<T: Copy, U: Copy> Sample<T, U> {
    /// The values, as they were sent.
    ///
    /// Ported from `iceoryx2::sample::Sample::payload`.
    /// Example: `let first = sample.payload(home).get(0);`
    pub fn payload<'a, H: Home<T, U>>(&self, home: &'a H) -> &'a [T]
    where
        T: 'a,
        U: 'a,
        requires { holds_message self.now.port.number self.now.taken (homes.ports_of H.domain_of self.now.port.domain home.now) ≡ true }
        ensures { Some result.now ≡ option_map (λ message. message.values)
            (message_found self.now.taken (homes.ports_of H.domain_of self.now.port.domain home.now)) }
    {
        subscribing::values(self.port, self.taken, home)
    }
}
