//! The builder of a publisher.
ghost use Rattle.iox_domain.specs.Homes as homes;
ghost use Rattle.std.specs.Prelude.{◌≡◌, ℕ, IsSome, Some, Result, is_some};
ghost use Rattle.iox_domain.specs.DomainValues.declared.degradation.DegradationCause.TheVariants.{FailedToEstablishConnection};
ghost use Rattle.iox_domain.specs.AtHomes.{MakesAt};
ghost use Rattle.iox_domain.specs.Steps.{PublisherComes, why_no_publisher};
ghost use Rattle.iox_domain.specs.DomainValues.declared.create_error.PublisherCreateError.{PublisherCreateError};
ghost use Rattle.iox_delivery_factories.specs.Elements.{room_of};
ghost use Rattle.iox_delivery_factories.specs.Factories.{single_config, slice_config, publisher_of, slice_publisher_of, with_strategy};
ghost use Rattle.iox_delivery_factories.specs.Factories.{with_degradation, with_backpressure, cloned};

use iox_delivery::kind::{Single, Slice};
use iox_delivery::{PortId, Publisher, slices as slice};
use iox_describe_base::TypeVariant;
use iox_domain::ports::PublisherConfig;
use iox_domain::settings::PublisherSettings;
use iox_domain::{DomainId, Home, calls};
use iox_domain_ports::lengths::span;
use iox_domain_values::{
    AllocationStrategy, BackpressureHandler, BackpressureStrategy, Decides, DegradationAction,
    DegradationHandler, Degrades, Handlers, Overrides, PortOwner, PreallocatedSamplesOverride,
    PublisherCreateError,
};
use std::alloc::Global;
use std::marker::PhantomData;

/// The builder of a publisher of a domain: its settings and its handlers. It is one of a publisher of single values, if no other kind
/// is given.
///
/// Ported from `iceoryx2::service::port_factory::publisher::PortFactoryPublisher`.
#[derive(Drop)]
pub struct PortFactoryPublisher<T, U, B = Handlers, O = PreallocatedSamplesOverride, K = Single> {
    /// The domain in which the publisher is created.
    pub domain: DomainId,
    /// The owner of the publisher.
    pub owner: PortOwner,
    /// How many values an element has: 1, except if the values are the bytes of a payload that only the description defines.
    pub unit: usize,
    /// What the service agreed on: whether a payload is one element, or a slice of any number of them.
    pub payload: TypeVariant,
    /// The settings of the publisher.
    pub settings: PublisherSettings,
    /// The handlers of the publisher.
    pub handlers: B,
    /// How many slots the publisher gets.
    pub overriding: O,
    /// The types of its values and of its user header, and the kind of its payloads.
    pub of: PhantomData<(T, U, K)>,
}

impl<T, U, K> PortFactoryPublisher<T, U, Handlers, PreallocatedSamplesOverride, K> {
    /// Sets how many slots the publisher gets.
    ///
    /// Ported from `PortFactoryPublisher::override_sample_preallocation`.
    /// Example: `builder.override_sample_preallocation(PreallocatedSamplesOverride::new_with(16))`
    pub fn override_sample_preallocation(mut self, overriding: PreallocatedSamplesOverride) -> Self
        ensures { result ≡ record self { overriding = overriding } }
    {
        self.overriding = overriding;
        self
    }

    /// Sets the maximum number of loans at once.
    ///
    /// Ported from `PortFactoryPublisher::max_loaned_samples`.
    /// Example: `builder.max_loaned_samples(6)`
    pub fn max_loaned_samples(mut self, value: usize) -> Self
        ensures { result ≡ record self { settings = record self.settings { max_loaned_samples = value } } }
    {
        self.settings.max_loaned_samples = value;
        self
    }

    /// Sets what a send does at a full mailbox if the service doesn't overflow and no handler decides. The strategy is a part of the
    /// handlers of type `Handlers`; `set_handlers` replaces them, and the strategy with them.
    ///
    /// Ported from `PortFactoryPublisher::backpressure_strategy`.
    /// Example: `builder.backpressure_strategy(BackpressureStrategy::DiscardData)`
    pub fn backpressure_strategy(mut self, strategy: BackpressureStrategy) -> Self
        ensures { result ≡ with_strategy strategy self }
    {
        self.settings.strategy = strategy;
        self.handlers.strategy = strategy;
        self
    }

    /// Sets the handler for failed connections.
    ///
    /// Ported from `PortFactoryPublisher::set_degradation_handler`.
    /// Example: `builder.set_degradation_handler(DegradationHandler::new_with(DegradationAction::Ignore))`
    pub fn set_degradation_handler(mut self, handler: DegradationHandler) -> Self
        ensures { result ≡ with_degradation handler self }
    {
        self.handlers.degradation = handler;
        self
    }

    /// Sets the handler for full mailboxes.
    ///
    /// Ported from `PortFactoryPublisher::set_backpressure_handler`.
    /// Example: `builder.set_backpressure_handler(BackpressureHandler::new_with(BackpressureAction::DiscardData))`
    pub fn set_backpressure_handler(mut self, handler: BackpressureHandler) -> Self
        ensures { result ≡ with_backpressure (Some handler) self }
    {
        self.handlers.backpressure = Some(handler);
        self
    }

    /// Sets the sequence number of the first message, if the service numbers messages; 0 counts as 1.
    ///
    /// Not in `iceoryx2`: an iceoryx2 message has no sequence number.
    /// Example: `builder.first_sequence(7)`
    pub fn first_sequence(mut self, value: u64) -> Self
        ensures { result ≡ record self { settings = record self.settings { first_sequence = value } } }
    {
        self.settings.first_sequence = value;
        self
    }

    /// A builder with the same settings whose publishers have these handlers, which may be of another type; for example `Nobody`.
    ///
    /// The handlers set so far are replaced, and with them the strategy that `backpressure_strategy` set: what a send does at a full
    /// mailbox is then decided by `handlers` alone. So after `.backpressure_strategy(DiscardData).set_handlers(Nobody)` a send blocks
    /// at a full mailbox, unless the service has safe overflow.
    ///
    /// Not in `iceoryx2`.
    /// Example: `builder.set_handlers(Nobody)`
    pub fn set_handlers<B>(
        self,
        handlers: B,
    ) -> PortFactoryPublisher<T, U, B, PreallocatedSamplesOverride, K>
        ensures { result ≡ record {
          domain = self.domain;
          owner = self.owner;
          unit = self.unit;
          payload = self.payload;
          settings = self.settings;
          handlers = handlers;
          overriding = self.overriding;
          of = self.of;
        } }
    {
        PortFactoryPublisher {
            domain: self.domain,
            owner: self.owner,
            unit: self.unit,
            payload: self.payload,
            settings: self.settings,
            handlers,
            overriding: self.overriding,
            of: self.of,
        }
    }

    /// A builder with the same settings, but with as many slots as the worst case needs, no handler for full mailboxes, and `Warn`
    /// for failed connections.
    ///
    /// Ported from `PortFactoryPublisher::__internal_partial_clone`, which is unsafe and hidden.
    /// Example: `let second = builder.partial_clone();`
    pub fn partial_clone(&self) -> Self
        ensures { result ≡ cloned self.now }
    {
        PortFactoryPublisher {
            domain: self.domain,
            owner: self.owner,
            unit: self.unit,
            payload: self.payload,
            settings: self.settings,
            handlers: Handlers {
                strategy: self.settings.strategy,
                backpressure: None,
                degradation: DegradationHandler::Fixed(DegradationAction::Warn),
            },
            overriding: PreallocatedSamplesOverride::WorstCase,
            of: PhantomData,
        }
    }
}

impl<T, U> PortFactoryPublisher<T, U, Handlers, PreallocatedSamplesOverride, Slice> {
    /// Sets how many elements a loan of a slice may have at first.
    ///
    /// Ported from `PortFactoryPublisher::initial_max_slice_len`.
    /// Example: `builder.initial_max_slice_len(64)`
    pub fn initial_max_slice_len(mut self, value: usize) -> Self
        ensures { result ≡ record self { settings = record self.settings { initial_max_slice_len = value } } }
    {
        self.settings.initial_max_slice_len = value;
        self
    }

    /// Sets what a loan of a longer slice does.
    ///
    /// Ported from `PortFactoryPublisher::allocation_strategy`.
    /// Example: `builder.allocation_strategy(AllocationStrategy::PowerOfTwo)`
    pub fn allocation_strategy(mut self, value: AllocationStrategy) -> Self
        ensures { result ≡ record self { settings = record self.settings { allocation = value } } }
    {
        self.settings.allocation = value;
        self
    }
}

impl<T: Copy, U: Copy + Default, B: Decides + Degrades, O: Overrides, K> PortFactoryPublisher<
    T,
    U,
    B,
    O,
    K,
> {
    /// Whether the home contains the domain of the publisher, which `create` and `create_slice` require.
    ///
    /// Not in `iceoryx2`.
    /// Example: `let may = builder.holds(home);`
    pub fn holds<H: Home<T, U, ForPublishers = B>>(&self, home: &H) -> bool
        ensures { result ≡ is_some (homes.ports_of H.domain_of self.now.domain home.now) }
    {
        calls::ports(home, self.domain).is_some()
    }

    // Creates the publisher with this config, and answers its number.
    fn make<H: Home<T, U, ForPublishers = B>>(
        self,
        alloc: Global,
        home: &mut H,
        config: PublisherConfig,
    ) -> Result<u64, PublisherCreateError>
        requires { IsSome (homes.ports_of H.domain_of self.domain home.old) }
        ensures { (user_header : U) × U.is_default user_header
            × MakesAt (λ after. homes.with_ports H.changed self.domain after home.old)
            (λ number. homes.with_publisher H.changed self.domain number self.handlers)
            (PublisherComes (O.overrides self.overriding) (B.degrades self.handlers FailedToEstablishConnection) config user_header)
            (why_no_publisher config)
            (homes.ports_of H.domain_of self.domain home.old) home.old (Some result) home.new }
    {
        let PortFactoryPublisher {
            domain,
            owner: _,
            unit: _,
            payload: _,
            settings: _,
            handlers,
            overriding,
            of: _,
        } = self;
        match calls::create_publisher(
            home,
            alloc,
            domain,
            config,
            U::default(),
            &overriding,
            handlers,
        ) {
            Some(answer) => answer,
            None => unreachable!(),
        }
    }
}

impl<T: Copy, U: Copy + Default, B: Decides + Degrades, O: Overrides> PortFactoryPublisher<
    T,
    U,
    B,
    O,
> {
    /// Creates the publisher, of single values, in the home of its domain. It gets as many slots as it needs in the worst case,
    /// or fewer if the override says so, and is connected to the existing subscribers. If a connection fails its handler is
    /// asked, and the publisher is created nevertheless.
    ///
    /// The call fails with `UnableToCreateDataSegment` if the worst case needs 2^32 slots or more; otherwise with
    /// `ExceedsMaxSupportedPublishers` if no place is free; otherwise with `UnableToCreateDataSegment` if an allocation fails.
    /// Then nothing has changed.
    ///
    /// Ported from `PortFactoryPublisher::create`.
    /// Example: `let publisher = builder.create(alloc, home)?;`
    pub fn create<H: Home<T, U, ForPublishers = B>>(
        self,
        alloc: Global,
        home: &mut H,
    ) -> Result<Publisher<T, U>, PublisherCreateError>
        requires { IsSome (homes.ports_of H.domain_of self.domain home.old) }
        ensures { (user_header : U) × U.is_default user_header × (answer : Result ℕ PublisherCreateError)
            × MakesAt (λ after. homes.with_ports H.changed self.domain after home.old)
            (λ number. homes.with_publisher H.changed self.domain number self.handlers)
            (PublisherComes (O.overrides self.overriding) (B.degrades self.handlers FailedToEstablishConnection)
            (single_config self.owner self.settings) user_header) (why_no_publisher (single_config self.owner self.settings))
            (homes.ports_of H.domain_of self.domain home.old) home.old (Some answer) home.new
            × (result ≡ publisher_of self.domain self.settings answer) }
    {
        let domain = self.domain;
        let settings = self.settings;
        let config = PublisherConfig {
            owner: self.owner,
            max_loaned_samples: settings.max_loaned_samples,
            values: 1,
            unit: 1,
            allocation: AllocationStrategy::Static,
            first_sequence: settings.first_sequence,
        };
        let number = self.make(alloc, home, config)?;
        Ok(Publisher::of_port(
            PortId { domain, number },
            settings.strategy,
            1,
            TypeVariant::FixedSize,
        ))
    }
}

impl<T: Copy, U: Copy + Default, B: Decides + Degrades, O: Overrides> PortFactoryPublisher<
    T,
    U,
    B,
    O,
    Slice,
> {
    /// Creates the publisher, of slices, in the home of its domain, as `create` does. A slot of the first segment has capacity for as
    /// many elements as `initial_max_slice_len` says.
    ///
    /// The call fails as `create` does, and with `UnableToCreateDataSegment` also if these are 2^32 elements or more, or have 2^32
    /// values or more.
    ///
    /// Ported from `PortFactoryPublisher::create`.
    /// Example: `let publisher = builder.create_slice(alloc, home)?;`
    pub fn create_slice<H: Home<T, U, ForPublishers = B>>(
        self,
        alloc: Global,
        home: &mut H,
    ) -> Result<slice::Publisher<T, U>, PublisherCreateError>
        requires { IsSome (homes.ports_of H.domain_of self.domain home.old) }
        ensures { (user_header : U) × U.is_default user_header × (answer : Result ℕ PublisherCreateError)
            × MakesAt (λ after. homes.with_ports H.changed self.domain after home.old)
            (λ number. homes.with_publisher H.changed self.domain number self.handlers)
            (PublisherComes (O.overrides self.overriding) (B.degrades self.handlers FailedToEstablishConnection)
            (slice_config self.owner self.unit self.settings) user_header)
            (why_no_publisher (slice_config self.owner self.unit self.settings))
            (homes.ports_of H.domain_of self.domain home.old) home.old (Some answer) home.new
            × (result ≡ slice_publisher_of self.domain self.payload self.settings answer) }
    {
        let domain = self.domain;
        let payload = self.payload;
        let settings = self.settings;
        let config = PublisherConfig {
            owner: self.owner,
            max_loaned_samples: settings.max_loaned_samples,
            values: room_of(self.unit, settings.initial_max_slice_len),
            unit: self.unit,
            allocation: settings.allocation,
            first_sequence: settings.first_sequence,
        };
        let number = self.make(alloc, home, config)?;
        Ok(slice::Publisher::of_port(
            PortId { domain, number },
            settings.strategy,
            settings.initial_max_slice_len,
            payload,
        ))
    }
}

// How many values these elements take memory for, counted up to 2^64 - 1.
fn room_of(unit: usize, elements: usize) -> usize
    ensures { result ≡ room_of unit elements }
{
    span(unit, elements as u64).min(usize::MAX as u128) as usize
}
