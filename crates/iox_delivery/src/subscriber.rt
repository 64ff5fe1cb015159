//! A subscriber of single values or of slices.
ghost use Rattle.iox_domain.specs.Homes as homes;
ghost use Rattle.std.specs.Prelude.{◌≡◌, true, is_ok};
ghost use Rattle.iox_domain.specs.Steps.{FollowsBy};
ghost use Rattle.iox_delivery.specs.Holding.{subscriber_stands, left_or_given_back};
ghost use Rattle.iox_delivery.specs.Subscribing.{TellsSamples, ReceivesSample, SubscriberGoes, EndsSubscriber};

use crate::kind::Single;
use crate::port::Port;
use crate::port_id::PortId;
use crate::sample::Sample;
use crate::subscribing;
use crate::update_connections::UpdateConnections;
use iox_domain::Home;
use iox_domain_values::{ConnectionFailure, ReceiveError};
use std::alloc::Global;
use std::marker::PhantomData;

/// A subscriber, of single values if no other kind is given. It is open until it is closed.
///
/// Ported from `iceoryx2::port::subscriber::Subscriber`.
pub type Subscriber<T, U, K = Single> = Port<T, U, K, SubscriberSide>;

/// What the value of a subscriber has beside its id: the buffer size with which the subscriber was created.
#[derive(Clone, Copy)]
pub struct SubscriberSide {
    pub(crate) buffer_size: usize,
}

impl<T: Copy, U: Copy, K> Subscriber<T, U, K> {
    /// The subscriber with this id as a value.
    ///
    /// Not in `iceoryx2`: code that creates ports by number returns them in this way.
    /// Example: `let subscriber = Subscriber::of_port(port, 4);`
    pub fn of_port(port: PortId, buffer_size: usize) -> Self
        ensures port { result.port ≡ port }
        ensures buffer_size { result.side.buffer_size ≡ buffer_size }
    {
        Port {
            port,
            side: SubscriberSide { buffer_size },
            of: PhantomData,
        }
    }

    /// The maximum number of messages of one publisher that wait for the subscriber.
    ///
    /// Ported from `iceoryx2::port::subscriber::Subscriber::buffer_size`.
    /// Example: `let most = subscriber.buffer_size();`
    pub fn buffer_size(&self) -> usize
        ensures { result ≡ self.now.side.buffer_size }
    {
        self.side.buffer_size
    }

    /// Whether the subscriber is open in this home, which its calls require.
    /// Example: `let is_there = subscriber.holds(home);`
    pub fn holds<H: Home<T, U>>(&self, home: &H) -> bool
        ensures { result ≡ subscriber_stands self.now.port.number (homes.ports_of H.domain_of self.now.port.domain home.now) }
    {
        subscribing::holds(self.port, home)
    }

    /// Whether some connection of the subscriber has data, after it followed the list of publishers. The call fails if
    /// following the list does.
    ///
    /// Ported from `iceoryx2::port::subscriber::Subscriber::has_samples`.
    /// Example: `let has = subscriber.has_samples(alloc, home)?;`
    pub fn has_samples<H: Home<T, U>>(
        &self,
        alloc: Global,
        home: &mut H,
    ) -> Result<bool, ConnectionFailure>
        requires { subscriber_stands self.now.port.number (homes.ports_of H.domain_of self.now.port.domain home.old) ≡ true }
        ensures { TellsSamples (homes.ports_of H.domain_of) (homes.with_ports H.changed)
            (homes.subscriber_degrades (λ kept. H.ForSubscribers.degrades kept) H.domain_of) self.now.port home.old result home.new }
    {
        subscribing::has_samples(self.port, alloc, home)
    }

    /// Receives the next message, if one waits: `ServicePorts::receive` says which one, and when the call fails. The message is
    /// held until it is released.
    ///
    /// Ported from `iceoryx2::port::subscriber::Subscriber::receive`.
    /// Example: `let sample = subscriber.receive(alloc, home)?;`
    pub fn receive<H: Home<T, U>>(
        &self,
        alloc: Global,
        home: &mut H,
    ) -> Result<Option<Sample<T, U, K>>, ReceiveError>
        requires { subscriber_stands self.now.port.number (homes.ports_of H.domain_of self.now.port.domain home.old) ≡ true }
        ensures { ReceivesSample (homes.ports_of H.domain_of) (homes.with_ports H.changed)
            (homes.subscriber_degrades (λ kept. H.ForSubscribers.degrades kept) H.domain_of) self.now.port home.old result home.new }
    {
        match subscribing::take(self.port, alloc, home)? {
            Some(taken) => Ok(Some(Sample {
                port: self.port,
                taken,
                of: PhantomData,
            })),
            None => Ok(None),
        }
    }

    /// Drops the subscriber: it is closed as by `leave`, if it is open in this home. Otherwise nothing happens, and the
    /// subscriber is returned, so that it can be closed in its own home.
    ///
    /// Ported from dropping an `iceoryx2::port::subscriber::Subscriber`.
    /// Example: `if let Err(kept) = subscriber.drop_with(home) { .. }`
    pub fn drop_with<H: Home<T, U>>(self, home: &mut H) -> Result<(), Self>
        ensures ends { EndsSubscriber (homes.ports_of H.domain_of) (homes.with_ports H.changed) (homes.without_subscriber H.changed)
            self.port home.old (is_ok result) home.new }
        ensures left { result ≡ left_or_given_back
            (subscriber_stands self.port.number (homes.ports_of H.domain_of self.port.domain home.old)) self }
    {
        if subscribing::drop_port(self.port, home) {
            let _ = self.into_port();
            Ok(())
        } else {
            Err(self)
        }
    }

    /// Closes the subscriber: samples that it holds can still be read and released. Its handler is dropped.
    ///
    /// Ported from dropping an `iceoryx2::port::subscriber::Subscriber`.
    /// Example: `subscriber.leave(home);`
    pub fn leave<H: Home<T, U>>(self, home: &mut H)
        requires { subscriber_stands self.port.number (homes.ports_of H.domain_of self.port.domain home.old) ≡ true }
        ensures { SubscriberGoes (homes.ports_of H.domain_of) (homes.with_ports H.changed) (homes.without_subscriber H.changed)
            self.port home.old home.new }
    {
        subscribing::leave(self.into_port(), home);
    }
}

impl<T: Copy, U: Copy, K> UpdateConnections<T, U> for Subscriber<T, U, K> {
    ghost port_of = { λ subscriber. subscriber.port };

    ghost may_follow = { λ number ports. subscriber_stands number ports };

    ghost follows = { λ publishers subscribers number. FollowsBy subscribers number };

    fn update_connections<H: Home<T, U>>(
        &self,
        alloc: Global,
        home: &mut H,
    ) -> Result<(), ConnectionFailure> {
        subscribing::update(self.port, alloc, home)
    }
}
