//! What a publish-subscribe program needs if it keeps the domain of a service itself, without a hub.
//!
//! Ports of slices have the names of those of single values, so they are named by their module: `slices::Publisher`.
//!
//! ```
//! use iox_delivery_factories::prelude::*;
//!
//! let settings = Settings::PublishSubscribe(config);
//! let description = Description::new(name, settings, AttributeSpecifier::new());
//! let mut domain = Domain::<u64, ()>::new(alloc, id, &description, 128).ok()?;
//! let builder = publisher_builder(&domain, 5, 9)?;
//! ```
pub use crate::{
    PortFactoryPublisher, PortFactorySubscriber, publisher_builder, slice_publisher_builder,
    slice_subscriber_builder, subscriber_builder,
};
pub use iox_delivery::{
    BlockedSend, PortId, Publisher, Sample, SampleMut, SampleMutUninit, Sent, Subscriber,
    UpdateConnections, slices,
};
pub use iox_describe_base::{
    AttributeSpecifier, Header, MessageTypeDetails, ServiceName, TypeDetail, TypeVariant,
    ZeroCopySend,
};
pub use iox_describe_settings::{Description, Settings, publish_subscribe};
pub use iox_domain::{Domain, DomainId, Home, Nobody};
pub use iox_domain_values::{
    AllocationStrategy, BackpressureAction, BackpressureHandler, BackpressureStrategy,
    ConnectionFailure, DegradationAction, DegradationHandler, DomainError, Handlers, LoanError,
    PreallocatedSamplesOverride, PublisherCreateError, ReceiveError, SendError,
    SubscriberCreateError,
};
pub use iox_queues_base::Words;
pub use std::alloc::Global;
