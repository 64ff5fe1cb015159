//! A publisher and a subscriber are created.
ghost use Rattle.std.specs.Prelude.{◌≡◌, ◌+◌, ◌<◌, ◌^◌, Some, IfSome};
ghost use Rattle.iox_domain_ports.specs.DomainValues.declared.degradation.DegradationCause.TheVariants as cause;
ghost use Rattle.iox_domain_ports.specs.DomainValues.Sizes.{buffer_of};
ghost use Rattle.iox_domain.specs.Subscribers.{subscriber_of};
ghost use Rattle.iox_domain.specs.Making.{slots_needed, publisher_place, subscriber_place, publisher_refusal, subscriber_refusal};
ghost use Rattle.iox_domain.specs.Making.{segments_of, sender_config, identity_of, AddsPublisher, CreatesPublisher, FollowsFirst};
ghost use Rattle.iox_domain.specs.Making.{AddsSubscriber, CreatesSubscriber, refuses_publisher, refuses_subscriber};

use crate::ports::service_ports::ServicePorts;
use iox_domain_ports::{
    PublisherEntry, PublisherPort, SenderConfig, SubscriberEntry, SubscriberPort,
};
use iox_domain_values::{
    AllocationStrategy, Degrades, Overrides, PortIdentity, PortOwner, PublisherCreateError,
    SubscriberCreateError, before_first, number_of_places,
};
use std::alloc::{AllocError, Global};

/// The parameters with which a publisher is created.
#[derive(Clone, Copy)]
pub struct PublisherConfig {
    /// Its owner.
    pub owner: PortOwner,
    /// The maximum number of loans at once.
    pub max_loaned_samples: usize,
    /// The maximum number of values in a slot of the first segment: 1 if a message is a single value.
    pub values: usize,
    /// How many values an element has: 1, except if the values are the bytes of a payload that only the description defines.
    pub unit: usize,
    /// What a loan that is too long for the slots does.
    pub allocation: AllocationStrategy,
    /// The sequence number of its first message, if the service numbers messages; 0 counts as 1.
    pub first_sequence: u64,
}

/// The parameters with which a subscriber is created.
#[derive(Clone, Copy)]
pub struct SubscriberConfig {
    /// Its owner.
    pub owner: PortOwner,
    /// The maximum number of messages that wait in a connection: 0 counts as 1, and None is the service's limit.
    pub buffer_size: Option<usize>,
}

impl<T: Copy, U: Copy> ServicePorts<T, U> {
    /// Creates a publisher, and answers its number. It gets as many slots as it needs in the worst case, or fewer if
    /// `overriding` says so; `blank` fills them, and a loan first has this user header. If the service numbers messages, the
    /// first one gets the number that the config says. The publisher is connected to the listed subscribers; if a connection
    /// fails the handler is asked, and the publisher is created nevertheless.
    ///
    /// The call fails with `UnableToCreateDataSegment` if the worst case needs 2^32 slots or more, or `values` is 2^32 or more;
    /// otherwise with `ExceedsMaxSupportedPublishers` if no place is free; otherwise with `UnableToCreateDataSegment` if an
    /// allocation fails. Then nothing has changed.
    ///
    /// Ported from `iceoryx2::service::port_factory::publisher::PortFactoryPublisher::create`.
    pub fn create_publisher<O: Overrides, D: Degrades>(
        &mut self,
        alloc: Global,
        config: PublisherConfig,
        blank: T,
        user_header: U,
        overriding: &O,
        handler: &D,
    ) -> Result<u64, PublisherCreateError>
        ensures { CreatesPublisher (O.overrides overriding.now)
            (D.degrades handler.now cause.FailedToEstablishConnection)
            config user_header (slots_needed config self.old) (publisher_place self.old) self.old result self.new }
    {
        let Some(needed) = self.slots_needed(&config) else {
            return Err(PublisherCreateError::UnableToCreateDataSegment);
        };
        let Some(place) = self.publisher_place() else {
            return Err(PublisherCreateError::ExceedsMaxSupportedPublishers);
        };
        let slots = number_of_places(overriding, needed.max(1));
        match self.add_publisher(alloc, config, place, slots, blank, user_header, handler) {
            Ok(number) => Ok(number),
            Err(_) => Err(PublisherCreateError::UnableToCreateDataSegment),
        }
    }

    /// Why a publisher with this config can't be created, if it can't: the error of a failed allocation, if nothing else
    /// forbids it.
    pub fn publisher_refusal(&self, config: &PublisherConfig) -> PublisherCreateError
        ensures { result ≡ publisher_refusal (slots_needed config.now self.now) (publisher_place self.now) }
    {
        if self.slots_needed(config).is_some() && self.publisher_place().is_none() {
            PublisherCreateError::ExceedsMaxSupportedPublishers
        } else {
            PublisherCreateError::UnableToCreateDataSegment
        }
    }

    /// Whether a publisher of this config is refused however much memory there is: the number of slots that it needs isn't allowed, or
    /// no place is free.
    pub fn refuses_publisher(&self, config: &PublisherConfig) -> bool
        ensures { result ≡ refuses_publisher config.now self.now }
    {
        self.slots_needed(config).is_none() || self.publisher_place().is_none()
    }

    // How many slots a publisher needs; None if that is 2^32 or more, or if one slot needs 2^32 values or more.
    fn slots_needed(&self, config: &PublisherConfig) -> Option<usize>
        ensures slots { result ≡ slots_needed config.now self.now }
        ensures loans { IfSome result (λ _. config.now.max_loaned_samples < 2 ^ 32) }
    {
        if config.values >= 0x1_0000_0000 {
            return None;
        }
        self.sizes.worst_case(config.max_loaned_samples)
    }

    // The place of the next publisher, if one is free and there is a number for the publisher.
    fn publisher_place(&self) -> Option<usize>
        ensures place { result ≡ publisher_place self.now }
        ensures number { IfSome result (λ _. self.now.next_port + 1 < 2 ^ 64) }
    {
        if self.next_port == u64::MAX {
            return None;
        }
        self.publisher_list.free_place()
    }

    // Creates a publisher at the free place.
    fn add_publisher<D: Degrades>(
        &mut self,
        alloc: Global,
        config: PublisherConfig,
        place: usize,
        slots: usize,
        blank: T,
        user_header: U,
        handler: &D,
    ) -> Result<u64, AllocError>
        requires loans { config.max_loaned_samples < 2 ^ 32 }
        requires place { publisher_place self.old ≡ Some place }
        requires number { self.old.next_port + 1 < 2 ^ 64 }
        ensures { AddsPublisher (D.degrades handler.now cause.FailedToEstablishConnection)
            config user_header place slots self.old result self.new }
    {
        let number = self.next_port;
        let mut port = PublisherPort::new(
            alloc,
            self.identity(config.owner, place),
            self.sizes.max_subscribers as usize,
            config.allocation,
            config.unit,
            before_first(self.sizes.sequence_numbers, config.first_sequence),
            self.sender_config(&config, slots),
            blank,
            user_header,
        )?;
        let listed = self.subscriber_list.listed();
        let changes = self.subscriber_list.changes();
        // The publisher is created even if a connection fails.
        let _ = port.update(alloc, listed, changes, handler);
        self.publishers.insert(number, port)?;
        let _ = self
            .publisher_list
            .enter(PublisherEntry { publisher: number });
        self.next_port = number + 1;
        Ok(number)
    }

    // The identity of the next port.
    fn identity(&self, owner: PortOwner, place: usize) -> PortIdentity
        ensures { result ≡ identity_of owner place self.now }
    {
        PortIdentity {
            service: self.service,
            number: self.next_port,
            owner,
            place,
        }
    }

    // The capacities of a publisher and of its connections.
    fn sender_config(&self, config: &PublisherConfig, slots: usize) -> SenderConfig
        ensures config { result ≡ sender_config config.now slots self.now }
        ensures history { result.history < 2 ^ 32 }
        ensures waiting { result.most_waiting < 2 ^ 32 }
        ensures borrowed { result.most_borrowed < 2 ^ 32 }
    {
        SenderConfig {
            overflows: self.sizes.enable_safe_overflow,
            slots,
            most_segments: segments_of(config.allocation),
            room: config.values,
            most_loans: config.max_loaned_samples,
            history: self.sizes.history_size as usize,
            most_waiting: self.sizes.subscriber_max_buffer_size as usize,
            most_borrowed: self.sizes.subscriber_max_borrowed_samples as usize,
        }
    }

    /// Creates a subscriber, and answers its number. It is connected to the listed publishers; if a connection fails `handler`
    /// is asked, and the subscriber is created nevertheless.
    ///
    /// The call fails with `BufferSizeExceedsMaxSupportedBufferSizeOfService` if more messages are to wait than the service
    /// allows; otherwise with `ExceedsMaxSupportedSubscribers` if no place is free; otherwise with `OutOfMemory` if an
    /// allocation fails. Then nothing has changed.
    ///
    /// Ported from `iceoryx2::service::port_factory::subscriber::PortFactorySubscriber::create`.
    pub fn create_subscriber<D: Degrades>(
        &mut self,
        alloc: Global,
        config: SubscriberConfig,
        handler: &D,
    ) -> Result<u64, SubscriberCreateError>
        ensures { CreatesSubscriber (D.degrades handler.now cause.FailedToEstablishConnection)
            config.owner (buffer_of config.buffer_size self.old.sizes) (subscriber_place self.old) self.old result self.new }
    {
        let buffer_size = self.sizes.buffer_size(config.buffer_size)?;
        let Some(place) = self.subscriber_place() else {
            return Err(SubscriberCreateError::ExceedsMaxSupportedSubscribers);
        };
        match self.add_subscriber(alloc, config.owner, place, buffer_size, handler) {
            Ok(number) => Ok(number),
            Err(_) => Err(SubscriberCreateError::OutOfMemory),
        }
    }

    /// Why a subscriber with this buffer size can't be created, if it can't: the error of a failed allocation, if nothing else
    /// forbids it.
    pub fn subscriber_refusal(&self, buffer_size: Option<usize>) -> SubscriberCreateError
        ensures { result ≡ subscriber_refusal (buffer_of buffer_size self.now.sizes) (subscriber_place self.now) }
    {
        match self.sizes.buffer_size(buffer_size) {
            Err(refusal) => refusal,
            Ok(_) if self.subscriber_place().is_none() =>
                SubscriberCreateError::ExceedsMaxSupportedSubscribers,
            Ok(_) => SubscriberCreateError::OutOfMemory,
        }
    }

    /// Whether a subscriber with this buffer size is refused however much memory there is: for the size, or because no place is free.
    pub fn refuses_subscriber(&self, buffer_size: Option<usize>) -> bool
        ensures { result ≡ refuses_subscriber buffer_size self.now }
    {
        self.sizes.buffer_size(buffer_size).is_err() || self.subscriber_place().is_none()
    }

    // The place of the next subscriber, if one is free and there is a number for the subscriber.
    fn subscriber_place(&self) -> Option<usize>
        ensures place { result ≡ subscriber_place self.now }
        ensures number { IfSome result (λ _. self.now.next_port + 1 < 2 ^ 64) }
    {
        if self.next_port == u64::MAX {
            return None;
        }
        self.subscriber_list.free_place()
    }

    // Creates a subscriber at the free place.
    fn add_subscriber<D: Degrades>(
        &mut self,
        alloc: Global,
        owner: PortOwner,
        place: usize,
        buffer_size: usize,
        handler: &D,
    ) -> Result<u64, AllocError>
        requires place { subscriber_place self.old ≡ Some place }
        requires number { self.old.next_port + 1 < 2 ^ 64 }
        ensures { AddsSubscriber (D.degrades handler.now cause.FailedToEstablishConnection)
            owner place buffer_size self.old result self.new }
    {
        let number = self.next_port;
        let port = SubscriberPort::new(
            alloc,
            self.identity(owner, place),
            buffer_size,
            self.sizes.max_publishers as usize,
            self.sizes.expired_connections as usize,
        )?;
        self.subscribers.insert(number, port)?;
        self.follow_first(alloc, number, handler);
        let entry = SubscriberEntry {
            subscriber: number,
            buffer_size,
        };
        let _ = self.subscriber_list.enter(entry);
        self.next_port = number + 1;
        Ok(number)
    }

    // A new subscriber follows the list of publishers for the first time. It is created even if a connection fails.
    fn follow_first<D: Degrades>(&mut self, alloc: Global, number: u64, handler: &D)
        ensures { FollowsFirst (D.degrades handler.now cause.FailedToEstablishConnection)
            number (subscriber_of number self.old.subscribers) self.old self.new }
    {
        let Some(port) = self.subscribers.get_mut(number) else {
            return;
        };
        let listed = self.publisher_list.listed();
        let changes = self.publisher_list.changes();
        let _ = port.update(alloc, listed, changes, handler, &mut self.publishers);
    }
}

// The maximum number of segments of a publisher.
fn segments_of(allocation: AllocationStrategy) -> usize
    ensures segments { result ≡ segments_of allocation }
    ensures some { 0 < result }
{
    match allocation {
        AllocationStrategy::Static => 1,
        AllocationStrategy::BestFit | AllocationStrategy::PowerOfTwo => 255,
    }
}
