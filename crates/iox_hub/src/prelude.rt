//! What a first publish-subscribe program needs.
//!
//! Ports of slices have the same names as those of single values, so they are named with their module: `slice::Publisher`.
//!
//! ```
//! use iox_hub::prelude::*;
//!
//! let asked = hub.service_builder(&node, ServiceName::new(b"odometry")?).publish_subscribe::<Slice<u64>>();
//! let service = asked.open_or_create_in(alloc, &mut hub, Vec::new(alloc))?;
//! let builder = hub.slice_publisher_builder(&service)?.initial_max_slice_len(8);
//! let publisher = builder.create_slice(alloc, &mut hub)?;
//! ```
pub use crate::slice;
pub use iox_command::HubError;
pub use iox_container::CallbackProgression;
pub use iox_delivery::{
    BlockedSend, PortId, Publisher, Sample, SampleMut, SampleMutUninit, Sent, Subscriber,
    UpdateConnections,
};
pub use iox_delivery_factories::{PortFactoryPublisher, PortFactorySubscriber};
pub use iox_describe::pattern::PublishSubscribe;
pub use iox_describe::{
    AttributeSpecifier, AttributeVerifier, Header, MessagingPattern, ServiceName, TypeDetail,
    TypeVariant, ZeroCopySend,
};
pub use iox_domain::{Home, Nobody};
pub use iox_domain_values::{
    AllocationStrategy, BackpressureAction, BackpressureHandler, BackpressureStrategy,
    ConnectionFailure, DegradationAction, DegradationHandler, Handlers, LoanError,
    PreallocatedSamplesOverride, PublisherCreateError, ReceiveError, SendError,
    SubscriberCreateError,
};
pub use iox_hub_base::{Hub, HubBuilder, HubConfig, NodeHandle, NotClosed, PortFactory};
pub use iox_negotiate::{Payload, ServiceBuilder, Slice};
pub use iox_negotiate_base::errors::{
    CloseError, PublishSubscribeCreateError, PublishSubscribeOpenError,
    PublishSubscribeOpenOrCreateError,
};
pub use iox_queues_base::Words;
pub use std::alloc::Global;
