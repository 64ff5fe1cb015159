//! The builder of a subscriber.
ghost use Rattle.iox_domain.specs.Homes as homes;
ghost use Rattle.std.specs.Prelude.{◌≡◌, ℕ, IsSome, Some, Result, is_some};
ghost use Rattle.iox_domain.specs.DomainValues.declared.create_error.SubscriberCreateError.{SubscriberCreateError};
ghost use Rattle.iox_domain.specs.DomainValues.declared.degradation.DegradationCause.TheVariants.{FailedToEstablishConnection};
ghost use Rattle.iox_domain.specs.AtHomes.{MakesAt};
ghost use Rattle.iox_domain.specs.Steps.{SubscriberComes, why_no_subscriber};
ghost use Rattle.iox_delivery_factories.specs.Factories.{subscriber_config, buffer_at, subscriber_of, subscriber_cloned};

use iox_delivery::kind::{Single, Slice};
use iox_delivery::{PortId, Subscriber, slices as slice};
use iox_domain::ports::SubscriberConfig;
use iox_domain::settings::SubscriberSettings;
use iox_domain::{DomainId, Home, calls};
use iox_domain_values::{
    DegradationAction, DegradationHandler, Degrades, PortOwner, SubscriberCreateError,
};
use std::alloc::Global;
use std::marker::PhantomData;

/// The builder of a subscriber of a domain: its settings and its handler. It is one of a subscriber of single values, if no other
/// kind is given.
///
/// Ported from `iceoryx2::service::port_factory::subscriber::PortFactorySubscriber`.
#[derive(Drop)]
pub struct PortFactorySubscriber<T, U, D = DegradationHandler, K = Single> {
    /// The domain in which the subscriber is created.
    pub domain: DomainId,
    /// The owner of the subscriber.
    pub owner: PortOwner,
    /// The settings of the subscriber.
    pub settings: SubscriberSettings,
    /// The handler of the subscriber.
    pub handler: D,
    /// The types of its values and of its user header, and the kind of its payloads.
    pub of: PhantomData<(T, U, K)>,
}

impl<T, U, K> PortFactorySubscriber<T, U, DegradationHandler, K> {
    /// Sets the maximum number of messages of one publisher that wait for the subscriber; 0 counts as 1.
    ///
    /// Ported from `PortFactorySubscriber::buffer_size`.
    /// Example: `builder.buffer_size(4)`
    pub fn buffer_size(mut self, value: usize) -> Self
        ensures { result ≡ record self { settings = record { buffer_size = Some value } } }
    {
        self.settings.buffer_size = Some(value);
        self
    }

    /// Sets the handler for failed connections.
    ///
    /// Ported from `PortFactorySubscriber::set_degradation_handler`.
    /// Example: `builder.set_degradation_handler(DegradationHandler::new_with(DegradationAction::Ignore))`
    pub fn set_degradation_handler(mut self, handler: DegradationHandler) -> Self
        ensures { result ≡ record self { handler = handler } }
    {
        self.handler = handler;
        self
    }

    /// A builder with the same settings whose subscribers have this handler, which may be of another type; for example `Nobody`.
    ///
    /// Not in `iceoryx2`.
    /// Example: `builder.set_handler(Nobody)`
    pub fn set_handler<D>(self, handler: D) -> PortFactorySubscriber<T, U, D, K>
        ensures { result ≡ record {
          domain = self.domain;
          owner = self.owner;
          settings = self.settings;
          handler = handler;
          of = self.of;
        } }
    {
        PortFactorySubscriber {
            domain: self.domain,
            owner: self.owner,
            settings: self.settings,
            handler,
            of: self.of,
        }
    }

    /// A builder with the same settings, but with `Warn` for failed connections.
    ///
    /// Ported from `PortFactorySubscriber::__internal_partial_clone`, which is unsafe and hidden.
    /// Example: `let second = builder.partial_clone();`
    pub fn partial_clone(&self) -> Self
        ensures { result ≡ subscriber_cloned self.now }
    {
        PortFactorySubscriber {
            domain: self.domain,
            owner: self.owner,
            settings: self.settings,
            handler: DegradationHandler::Fixed(DegradationAction::Warn),
            of: PhantomData,
        }
    }
}

impl<T: Copy, U: Copy, D: Degrades, K> PortFactorySubscriber<T, U, D, K> {
    /// Whether the home contains the domain of the subscriber, which `create` and `create_slice` require.
    ///
    /// Not in `iceoryx2`.
    /// Example: `let may = builder.holds(home);`
    pub fn holds<H: Home<T, U, ForSubscribers = D>>(&self, home: &H) -> bool
        ensures { result ≡ is_some (homes.ports_of H.domain_of self.now.domain home.now) }
    {
        calls::ports(home, self.domain).is_some()
    }

    // Creates the subscriber, and answers its number.
    fn make<H: Home<T, U, ForSubscribers = D>>(
        self,
        alloc: Global,
        home: &mut H,
    ) -> Result<u64, SubscriberCreateError>
        requires { IsSome (homes.ports_of H.domain_of self.domain home.old) }
        ensures { MakesAt (λ after. homes.with_ports H.changed self.domain after home.old)
            (λ number. homes.with_subscriber H.changed self.domain number self.handler)
            (SubscriberComes (D.degrades self.handler FailedToEstablishConnection) (subscriber_config self.owner self.settings))
            (why_no_subscriber (subscriber_config self.owner self.settings))
            (homes.ports_of H.domain_of self.domain home.old) home.old (Some result) home.new }
    {
        let PortFactorySubscriber {
            domain,
            owner,
            settings,
            handler,
            of: _,
        } = self;
        let config = SubscriberConfig {
            owner,
            buffer_size: settings.buffer_size,
        };
        match calls::create_subscriber(home, alloc, domain, config, handler) {
            Some(answer) => answer,
            None => unreachable!(),
        }
    }

    // How many messages of one publisher may wait for the subscriber in the service of its domain; 0 if the service doesn't
    // allow its buffer size.
    fn buffer_size_in<H: Home<T, U, ForSubscribers = D>>(&self, home: &H) -> usize
        ensures { result ≡ buffer_at self.now.settings (homes.ports_of H.domain_of self.now.domain home.now) }
    {
        match calls::ports(home, self.domain) {
            Some(ports) => self.settings.buffer_size_within(&ports.sizes).unwrap_or(0),
            None => 0,
        }
    }
}

impl<T: Copy, U: Copy, D: Degrades> PortFactorySubscriber<T, U, D> {
    /// Creates the subscriber, of single values, in the home of its domain. It is connected to the existing publishers. If a
    /// connection fails its handler is asked, and the subscriber is created nevertheless.
    ///
    /// The call fails with `BufferSizeExceedsMaxSupportedBufferSizeOfService` if more messages are to wait than the service
    /// allows; otherwise with `ExceedsMaxSupportedSubscribers` if no place is free; otherwise with `OutOfMemory` if an
    /// allocation fails. Then nothing has changed.
    ///
    /// Ported from `PortFactorySubscriber::create`.
    /// Example: `let subscriber = builder.create(alloc, home)?;`
    pub fn create<H: Home<T, U, ForSubscribers = D>>(
        self,
        alloc: Global,
        home: &mut H,
    ) -> Result<Subscriber<T, U>, SubscriberCreateError>
        requires { IsSome (homes.ports_of H.domain_of self.domain home.old) }
        ensures { (answer : Result ℕ SubscriberCreateError)
            × MakesAt (λ after. homes.with_ports H.changed self.domain after home.old)
            (λ number. homes.with_subscriber H.changed self.domain number self.handler)
            (SubscriberComes (D.degrades self.handler FailedToEstablishConnection) (subscriber_config self.owner self.settings))
            (why_no_subscriber (subscriber_config self.owner self.settings))
            (homes.ports_of H.domain_of self.domain home.old) home.old (Some answer) home.new
            × (result ≡ subscriber_of self.domain (buffer_at self.settings (homes.ports_of H.domain_of self.domain home.old)) answer) }
    {
        let domain = self.domain;
        let buffer_size = self.buffer_size_in(home);
        let number = self.make(alloc, home)?;
        Ok(Subscriber::of_port(PortId { domain, number }, buffer_size))
    }
}

impl<T: Copy, U: Copy, D: Degrades> PortFactorySubscriber<T, U, D, Slice> {
    /// Creates the subscriber, of slices, in the home of its domain, as `create` does; the call fails as `create` does.
    ///
    /// Ported from `PortFactorySubscriber::create`.
    /// Example: `let subscriber = builder.create_slice(alloc, home)?;`
    pub fn create_slice<H: Home<T, U, ForSubscribers = D>>(
        self,
        alloc: Global,
        home: &mut H,
    ) -> Result<slice::Subscriber<T, U>, SubscriberCreateError>
        requires { IsSome (homes.ports_of H.domain_of self.domain home.old) }
        ensures { (answer : Result ℕ SubscriberCreateError)
            × MakesAt (λ after. homes.with_ports H.changed self.domain after home.old)
            (λ number. homes.with_subscriber H.changed self.domain number self.handler)
            (SubscriberComes (D.degrades self.handler FailedToEstablishConnection) (subscriber_config self.owner self.settings))
            (why_no_subscriber (subscriber_config self.owner self.settings))
            (homes.ports_of H.domain_of self.domain home.old) home.old (Some answer) home.new
            × (result ≡ subscriber_of self.domain (buffer_at self.settings (homes.ports_of H.domain_of self.domain home.old)) answer) }
    {
        let domain = self.domain;
        let buffer_size = self.buffer_size_in(home);
        let number = self.make(alloc, home)?;
        Ok(slice::Subscriber::of_port(PortId { domain, number }, buffer_size))
    }
}
