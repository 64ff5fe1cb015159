//! A message that was received.
ghost use Rattle.iox_domain.specs.Homes as homes;
ghost use Rattle.std.specs.Prelude.{◌≡◌, true, Some, is_ok, option_map};
ghost use Rattle.iox_delivery.specs.Holding.{message_found, value_found, holds_sample, holds_message, left_or_given_back};
ghost use Rattle.iox_delivery.specs.Subscribing.{header_found, ReleasesSample, DropsSample};

use crate::kind::{Kind, Single};
use crate::port_id::PortId;
use crate::subscribing;
use iox_describe_base::Header;
use iox_domain::Home;
use iox_domain_ports::Taken;
use std::marker::PhantomData;

/// A message that was received: a single value, if no other kind is given. It stays as it was sent until it is released,
/// whatever ports are closed.
///
/// Ported from `iceoryx2::sample::Sample`.
pub struct Sample<T, U, K = Single> {
    pub(crate) port: PortId,
    pub(crate) taken: Taken,
    pub(crate) of: PhantomData<(T, U, K)>,
}

impl<T: Copy, U: Copy, K: Kind<T, U>> Sample<T, U, K> {
    /// Whether the message is held in this home, which its calls require.
    /// Example: `let is_held = sample.holds(home);`
    pub fn holds<H: Home<T, U>>(&self, home: &H) -> bool
        ensures { result ≡ K.is_held self.now.port.number self.now.taken (homes.ports_of H.domain_of self.now.port.domain home.now) }
    {
        K::is_held_in(self.port, self.taken, home)
    }

    /// The user header, as it was sent.
    ///
    /// Ported from `iceoryx2::sample::Sample::user_header`.
    /// Example: `let stamp = *sample.user_header(home);`
    pub fn user_header<'a, H: Home<T, U>>(&self, home: &'a H) -> &'a U
    where
        T: 'a,
        U: 'a,
        requires { K.is_held self.now.port.number self.now.taken (homes.ports_of H.domain_of self.now.port.domain home.now) ≡ true }
        ensures { Some result.now ≡ option_map (λ message. message.user_header)
            (message_found self.now.taken (homes.ports_of H.domain_of self.now.port.domain home.now)) }
    {
        subscribing::user_header(self.port, self.taken, home)
    }

    /// What the header says: the node and the publisher that sent the message, how many elements it has, and its sequence
    /// number, if the service numbers messages.
    ///
    /// Ported from `iceoryx2::sample::Sample::header`.
    /// Example: `let header = sample.header(home);`
    pub fn header<H: Home<T, U>>(&self, home: &H) -> Header
        requires { K.is_held self.now.port.number self.now.taken (homes.ports_of H.domain_of self.now.port.domain home.now) ≡ true }
        ensures { Some result ≡ header_found self.now.taken (homes.ports_of H.domain_of self.now.port.domain home.now) }
    {
        subscribing::header(self.port, self.taken, home)
    }

    /// The number of the publisher that sent the message.
    ///
    /// Ported from `iceoryx2::sample::Sample::origin`, with a number of 64 bits.
    /// Example: `let publisher = sample.origin(home);`
    pub fn origin<H: Home<T, U>>(&self, home: &H) -> u64
        requires { K.is_held self.now.port.number self.now.taken (homes.ports_of H.domain_of self.now.port.domain home.now) ≡ true }
        ensures { Some result ≡ option_map (λ header. header.publisher_id)
            (header_found self.now.taken (homes.ports_of H.domain_of self.now.port.domain home.now)) }
    {
        self.header(home).publisher_id
    }

    /// What the subscriber took. The message stays borrowed: nothing can read or release it any longer, and its factory can't be
    /// closed.
    ///
    /// Not in `iceoryx2`.
    /// Example: `let taken = sample.into_taken();`
    pub fn into_taken(self) -> Taken
        ensures { result ≡ self.taken }
    {
        let Sample {
            port: _,
            taken,
            of: _,
        } = self;
        taken
    }

    /// Drops the sample: the message is released, if it is held in this home. Otherwise nothing happens, and the sample is
    /// returned, so that it can be dropped in its own home, or forgotten by `into_taken`.
    ///
    /// Ported from dropping an `iceoryx2::sample::Sample`.
    /// Example: `if let Err(kept) = sample.drop_with(home) { .. }`
    pub fn drop_with<H: Home<T, U>>(self, home: &mut H) -> Result<(), Self>
        ensures drops { DropsSample (homes.ports_of H.domain_of) (homes.with_ports H.changed) self.port self.taken home.old
            (is_ok result) home.new }
        ensures dropped { result ≡ left_or_given_back
            (holds_message self.port.number self.taken (homes.ports_of H.domain_of self.port.domain home.old)) self }
    {
        if subscribing::drop_sample(self.port, self.taken, home) {
            let _ = self.into_taken();
            Ok(())
        } else {
            Err(self)
        }
    }

    /// Releases the message: its slot may be loaned again once nothing else uses it.
    ///
    /// Ported from dropping an `iceoryx2::sample::Sample`.
    /// Example: `sample.release(home);`
    pub fn release<H: Home<T, U>>(self, home: &mut H)
        requires { K.is_held self.port.number self.taken (homes.ports_of H.domain_of self.port.domain home.old) ≡ true }
        ensures { ReleasesSample (homes.ports_of H.domain_of) (homes.with_ports H.changed) self.port self.taken home.old home.new }
    {
        let Sample { port, taken, of: _ } = self;
        subscribing::release(port, taken, home);
    }
}

impl<T: Copy, U: Copy> Sample<T, U> {
    /// The value, as it was sent.
    ///
    /// Ported from `iceoryx2::sample::Sample::payload`.
    /// Example: `let value = *sample.payload(home);`
    #[tactic(auto, using(crate::proofs::Ready::held_sample))]
    pub fn payload<'a, H: Home<T, U>>(&self, home: &'a H) -> &'a T
    where
        T: 'a,
        U: 'a,
        requires { holds_sample self.now.port.number self.now.taken (homes.ports_of H.domain_of self.now.port.domain home.now) ≡ true }
        ensures { Some result.now ≡ value_found 0
            (message_found self.now.taken (homes.ports_of H.domain_of self.now.port.domain home.now)) }
    {
        match subscribing::values(self.port, self.taken, home).first() {
            Some(value) => value,
            None => unreachable!(),
        }
    }
}
