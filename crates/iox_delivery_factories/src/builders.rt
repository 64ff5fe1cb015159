//! Builders for the ports of a domain.
ghost use Rattle.std.specs.Prelude.{◌≡◌};
ghost use Rattle.iox_domain.specs.DescribeBase.Detail.{detail};
ghost use Rattle.iox_domain.specs.DescribeBase.declared.type_detail.TypeVariant.TheVariants as variant;
ghost use Rattle.iox_delivery_factories.specs.Elements.{values_each, is_of_values, is_of_slices};
ghost use Rattle.iox_delivery_factories.specs.Factories.{value_publishers, slice_publishers, value_subscribers, slice_subscribers};

use crate::publisher::PortFactoryPublisher;
use crate::slices;
use crate::subscriber::PortFactorySubscriber;
use iox_describe_base::{TypeDetail, TypeVariant, ZeroCopySend};
use iox_domain::Domain;
use iox_domain::settings::{CustomPayloadMarker, PublisherSettings, SubscriberSettings};
use iox_domain_values::{
    BackpressureStrategy, DegradationAction, DegradationHandler, Handlers, PortOwner,
    PreallocatedSamplesOverride,
};
use std::marker::PhantomData;

/// A builder of publishers of single values of a domain, for a node and an owner. Its defaults are two loans, sends that block at a full
/// mailbox, sequence numbers from 1 on, as many slots as the worst case needs, no handler for full mailboxes, and `Warn` for failed
/// connections. None if the service agreed on slices.
///
/// Ported from `iceoryx2::service::port_factory::publish_subscribe::PortFactory::publisher_builder`.
/// Example: `let builder = publisher_builder(&domain, 5, 9)?;`
pub fn publisher_builder<T: ZeroCopySend, U, B, D>(
    domain: &Domain<T, U, B, D>,
    node_id: u64,
    owner: u64,
) -> Option<PortFactoryPublisher<T, U>>
    ensures { result ≡ value_publishers T.size node_id owner domain.now }
{
    if !is_of_values::<T>(&domain.agreed.types.payload) {
        return None;
    }
    Some(PortFactoryPublisher {
        domain: domain.id,
        owner: PortOwner {
            number: owner,
            node_id,
        },
        unit: values_each::<T>(&domain.agreed.types.payload),
        payload: domain.agreed.types.payload.variant(),
        settings: PublisherSettings::default(),
        handlers: Handlers {
            strategy: BackpressureStrategy::RetryUntilDelivered,
            backpressure: None,
            degradation: DegradationHandler::Fixed(DegradationAction::Warn),
        },
        overriding: PreallocatedSamplesOverride::WorstCase,
        of: PhantomData,
    })
}

/// A builder of publishers of slices of a domain, for a node and an owner. Its defaults are those of `publisher_builder`, slices of one
/// value, and slots that don't grow. An element has more than one value only if the values are the bytes of a payload that the
/// description defines. None if the service agreed on single values; if the values are such bytes there is always a builder.
///
/// Ported from `iceoryx2::service::port_factory::publish_subscribe::PortFactory::publisher_builder`, whose factory has the payload in its
/// type.
/// Example: `let builder = slice_publisher_builder(&domain, 5, 9)?;`
pub fn slice_publisher_builder<T: ZeroCopySend, U, B, D>(
    domain: &Domain<T, U, B, D>,
    node_id: u64,
    owner: u64,
) -> Option<slices::PortFactoryPublisher<T, U>>
    ensures { result ≡ slice_publishers (detail variant.FixedSize T.name T.size T.alignment) node_id owner domain.now }
{
    if !is_of_slices::<T>(&domain.agreed.types.payload) {
        return None;
    }
    Some(PortFactoryPublisher {
        domain: domain.id,
        owner: PortOwner {
            number: owner,
            node_id,
        },
        unit: values_each::<T>(&domain.agreed.types.payload),
        payload: domain.agreed.types.payload.variant(),
        settings: PublisherSettings::default(),
        handlers: Handlers {
            strategy: BackpressureStrategy::RetryUntilDelivered,
            backpressure: None,
            degradation: DegradationHandler::Fixed(DegradationAction::Warn),
        },
        overriding: PreallocatedSamplesOverride::WorstCase,
        of: PhantomData,
    })
}

/// A builder of subscribers of single values of a domain, for a node and an owner. Its defaults are the service's limit of waiting
/// messages, and `Warn` for failed connections. None if the service agreed on slices.
///
/// Ported from `iceoryx2::service::port_factory::publish_subscribe::PortFactory::subscriber_builder`.
/// Example: `let builder = subscriber_builder(&domain, 5, 9)?;`
pub fn subscriber_builder<T: ZeroCopySend, U, B, D>(
    domain: &Domain<T, U, B, D>,
    node_id: u64,
    owner: u64,
) -> Option<PortFactorySubscriber<T, U>>
    ensures { result ≡ value_subscribers T.size node_id owner domain.now }
{
    if !is_of_values::<T>(&domain.agreed.types.payload) {
        return None;
    }
    Some(PortFactorySubscriber {
        domain: domain.id,
        owner: PortOwner {
            number: owner,
            node_id,
        },
        settings: SubscriberSettings::default(),
        handler: DegradationHandler::Fixed(DegradationAction::Warn),
        of: PhantomData,
    })
}

/// A builder of subscribers of slices of a domain, for a node and an owner, with the defaults of `subscriber_builder`. None if the
/// service agreed on single values; if the values are the bytes of a payload that the description defines there is always a builder.
///
/// Ported from `iceoryx2::service::port_factory::publish_subscribe::PortFactory::subscriber_builder`, whose factory has the payload in its
/// type.
/// Example: `let builder = slice_subscriber_builder(&domain, 5, 9)?;`
pub fn slice_subscriber_builder<T: ZeroCopySend, U, B, D>(
    domain: &Domain<T, U, B, D>,
    node_id: u64,
    owner: u64,
) -> Option<slices::PortFactorySubscriber<T, U>>
    ensures { result ≡ slice_subscribers (detail variant.FixedSize T.name T.size T.alignment) node_id owner domain.now }
{
    if !is_of_slices::<T>(&domain.agreed.types.payload) {
        return None;
    }
    Some(PortFactorySubscriber {
        domain: domain.id,
        owner: PortOwner {
            number: owner,
            node_id,
        },
        settings: SubscriberSettings::default(),
        handler: DegradationHandler::Fixed(DegradationAction::Warn),
        of: PhantomData,
    })
}

/// Whether a service with this payload has ports of single values of `T`: a payload is one element, which is one value. A payload that
/// only the description defines is one only if it has one byte.
///
/// Not in `iceoryx2`, whose factories have the payload in their type.
/// Example: `let of_values = is_of_values::<u64>(&domain.agreed.types.payload);`
pub fn is_of_values<T: ZeroCopySend>(payload: &TypeDetail) -> bool
    ensures { result ≡ is_of_values T.size payload.now }
{
    match payload.variant() {
        TypeVariant::FixedSize => values_each::<T>(payload) == 1,
        TypeVariant::Dynamic => false,
    }
}

/// Whether a service with this payload has ports of slices of `T`: a payload is a slice, or `T` is `CustomPayloadMarker`, so that values
/// are bytes.
///
/// Not in `iceoryx2`, whose factories have the payload in their type.
/// Example: `let of_slices = is_of_slices::<u64>(&domain.agreed.types.payload);`
pub fn is_of_slices<T: ZeroCopySend>(payload: &TypeDetail) -> bool
    ensures { result ≡ is_of_slices (detail variant.FixedSize T.name T.size T.alignment) payload.now }
{
    match payload.variant() {
        TypeVariant::FixedSize => {
            T::type_detail(TypeVariant::FixedSize)
                == CustomPayloadMarker::type_detail(TypeVariant::FixedSize)
        }
        TypeVariant::Dynamic => true,
    }
}

/// How many values of `T` an element of this payload has: 1, except if the values are the bytes of a payload that the description defines.
///
/// Not in `iceoryx2`.
/// Example: `let unit = values_each::<u64>(&domain.agreed.types.payload);`
pub fn values_each<T: ZeroCopySend>(payload: &TypeDetail) -> usize
    ensures { result ≡ values_each payload.now.size T.size }
{
    let value = T::type_detail(TypeVariant::FixedSize).size();
    if value == 0 {
        return 1;
    }
    (payload.size() / value) as usize
}
