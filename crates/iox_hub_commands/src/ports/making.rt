//! How ports are created, and get numbers.
ghost use Rattle.iox_domain.specs.Homes as homes;
ghost use Rattle.std.specs.Prelude.{◌≡◌, ◌<◌, ◌+◌, ◌^◌, length, Err, option_map};
ghost use Rattle.iox_delivery.specs.Domain.AtHomes.{MakesAt};
ghost use Rattle.iox_delivery.specs.Domain.Steps.{PublisherComes, SubscriberComes, why_no_publisher, why_no_subscriber};
ghost use Rattle.iox_delivery.specs.DomainValues.declared.degradation.DegradationCause.TheVariants.{FailedToEstablishConnection};
ghost use Rattle.iox_hub_commands.specs.Making.{MakesNumbered, MakesRoomFirst, with_publisher, with_subscriber};
ghost use Rattle.iox_hub_commands.specs.Tables.{SameMessages};

use crate::ports::growing::room_for_one;
use crate::ports::made::{Made, MadePublisher};
use iox_delivery::PortId;
use iox_domain::ports::{PublisherConfig, SubscriberConfig};
use iox_domain::{DomainId, Home, calls};
use iox_domain_values::{Overrides, PublisherCreateError, SubscriberCreateError};
use std::alloc::Global;

/// What a publisher is created with.
#[derive(Drop)]
pub struct PublisherParts<'a, U, B, O> {
    /// The configuration of the publisher.
    pub config: PublisherConfig,
    /// The user header with which each loan starts.
    pub user_header: U,
    /// The object that says how many slots the publisher gets.
    pub overriding: &'a O,
    /// The handlers of the publisher.
    pub handlers: B,
    /// Whether its messages are slices; otherwise each is one value.
    pub holds_slices: bool,
}

impl Made {
    /// Creates a publisher in a domain, and answers its number in this table. It takes no memory for the number: there must be capacity for
    /// one more.
    ///
    /// None, and nothing happens, if the domain isn't in the home. Refused as `calls::create_publisher` refuses it.
    pub fn create_publisher<T: Copy, U: Copy, O: Overrides, H: Home<T, U>>(
        &mut self,
        alloc: Global,
        home: &mut H,
        domain: DomainId,
        parts: PublisherParts<'_, U, H::ForPublishers, O>,
    ) -> Option<Result<u64, PublisherCreateError>>
        requires room { length self.old.publishers.entries < self.old.publishers.room }
        requires number { self.old.publishers.next + 1 < 2 ^ 64 }
        ensures { MakesNumbered (MakesAt (λ after. homes.with_ports H.changed domain after home.old)
            (λ number. homes.with_publisher H.changed domain number parts.entry.handlers)
            (PublisherComes (O.overrides parts.entry.overriding.now)
            (H.ForPublishers.degrades parts.entry.handlers FailedToEstablishConnection) parts.entry.config parts.entry.user_header)
            (why_no_publisher parts.entry.config) (homes.ports_of H.domain_of domain home.old))
            (with_publisher domain parts.entry.holds_slices) self.old.publishers.next self.old home.old result self.new home.new }
    {
        let PublisherParts {
            config,
            user_header,
            overriding,
            handlers,
            holds_slices,
        } = parts;
        match calls::create_publisher(
            home,
            alloc,
            domain,
            config,
            user_header,
            overriding,
            handlers,
        )? {
            Ok(number) => Some(Ok(
                self.publishers.insert_next(MadePublisher {
                    port: PortId { domain, number },
                    holds_slices,
                }),
            )),
            Err(error) => Some(Err(error)),
        }
    }

    /// Creates a subscriber in a domain, and answers its number in this table. It takes no memory for the number: there must be capacity
    /// for one more.
    ///
    /// None, and nothing happens, if the domain isn't in the home. Refused as `calls::create_subscriber` refuses it.
    pub fn create_subscriber<T: Copy, U: Copy, H: Home<T, U>>(
        &mut self,
        alloc: Global,
        home: &mut H,
        domain: DomainId,
        config: SubscriberConfig,
        handler: H::ForSubscribers,
    ) -> Option<Result<u64, SubscriberCreateError>>
        requires room { length self.old.subscribers.entries < self.old.subscribers.room }
        requires number { self.old.subscribers.next + 1 < 2 ^ 64 }
        ensures { MakesNumbered (MakesAt (λ after. homes.with_ports H.changed domain after home.old)
            (λ number. homes.with_subscriber H.changed domain number handler)
            (SubscriberComes (H.ForSubscribers.degrades handler FailedToEstablishConnection) config) (why_no_subscriber config)
            (homes.ports_of H.domain_of domain home.old)) (with_subscriber domain) self.old.subscribers.next self.old home.old result
            self.new home.new }
    {
        match calls::create_subscriber(home, alloc, domain, config, handler)? {
            Ok(number) => Some(Ok(self.subscribers.insert_next(PortId { domain, number }))),
            Err(error) => Some(Err(error)),
        }
    }

    /// Like `create_publisher`, but first makes capacity for one more, if there is none. If the publisher isn't created nothing else
    /// changes.
    ///
    /// None, and only capacity may have grown, if the domain isn't in the home. Refused as `create_publisher` is, and if an allocation
    /// fails for that capacity: with `ExceedsMaxSupportedPublishers` if no place is free, otherwise with `UnableToCreateDataSegment`.
    pub fn make_publisher<T: Copy, U: Copy, O: Overrides, H: Home<T, U>>(
        &mut self,
        alloc: Global,
        home: &mut H,
        domain: DomainId,
        parts: PublisherParts<'_, U, H::ForPublishers, O>,
    ) -> Option<Result<u64, PublisherCreateError>>
        requires number { self.old.publishers.next + 1 < 2 ^ 64 }
        ensures makes { MakesRoomFirst (MakesAt (λ after. homes.with_ports H.changed domain after home.old)
            (λ number. homes.with_publisher H.changed domain number parts.entry.handlers)
            (PublisherComes (O.overrides parts.entry.overriding.now)
            (H.ForPublishers.degrades parts.entry.handlers FailedToEstablishConnection) parts.entry.config parts.entry.user_header)
            (why_no_publisher parts.entry.config) (homes.ports_of H.domain_of domain home.old))
            (with_publisher domain parts.entry.holds_slices) self.old.publishers.next self.old home.old result self.new home.new }
        ensures messages { SameMessages self.old self.new }
    {
        if room_for_one(&mut self.publishers).is_err() {
            return why_no_publisher(home, domain, &parts.config);
        }
        self.create_publisher(alloc, home, domain, parts)
    }

    /// Like `create_subscriber`, but first makes capacity for one more, if there is none. If the subscriber isn't created nothing else
    /// changes.
    ///
    /// None, and only capacity may have grown, if the domain isn't in the home. Refused as `create_subscriber` is, and if an allocation
    /// fails for that capacity: with `BufferSizeExceedsMaxSupportedBufferSizeOfService` if its buffer is larger than the service allows,
    /// otherwise with `ExceedsMaxSupportedSubscribers` if no place is free, otherwise with `OutOfMemory`.
    pub fn make_subscriber<T: Copy, U: Copy, H: Home<T, U>>(
        &mut self,
        alloc: Global,
        home: &mut H,
        domain: DomainId,
        config: SubscriberConfig,
        handler: H::ForSubscribers,
    ) -> Option<Result<u64, SubscriberCreateError>>
        requires number { self.old.subscribers.next + 1 < 2 ^ 64 }
        ensures makes { MakesRoomFirst (MakesAt (λ after. homes.with_ports H.changed domain after home.old)
            (λ number. homes.with_subscriber H.changed domain number handler)
            (SubscriberComes (H.ForSubscribers.degrades handler FailedToEstablishConnection) config) (why_no_subscriber config)
            (homes.ports_of H.domain_of domain home.old)) (with_subscriber domain) self.old.subscribers.next self.old home.old result
            self.new home.new }
        ensures messages { SameMessages self.old self.new }
    {
        if room_for_one(&mut self.subscribers).is_err() {
            return why_no_subscriber(home, domain, &config);
        }
        self.create_subscriber(alloc, home, domain, config, handler)
    }
}

// Why a publisher with this configuration can't be created in a domain, if the domain is in the home.
pub(crate) fn why_no_publisher<T: Copy, U: Copy, H: Home<T, U>>(
    home: &H,
    domain: DomainId,
    config: &PublisherConfig,
) -> Option<Result<u64, PublisherCreateError>>
    ensures { result ≡ option_map (λ ports. Err (why_no_publisher config.now ports)) (homes.ports_of H.domain_of domain home.now) }
{
    let ports = calls::ports(home, domain)?;
    Some(Err(ports.publisher_refusal(config)))
}

// Why a subscriber with this configuration can't be created in a domain, if the domain is in the home.
pub(crate) fn why_no_subscriber<T: Copy, U: Copy, H: Home<T, U>>(
    home: &H,
    domain: DomainId,
    config: &SubscriberConfig,
) -> Option<Result<u64, SubscriberCreateError>>
    ensures { result ≡ option_map (λ ports. Err (why_no_subscriber config.now ports)) (homes.ports_of H.domain_of domain home.now) }
{
    let ports = calls::ports(home, domain)?;
    Some(Err(ports.subscriber_refusal(config.buffer_size)))
}
