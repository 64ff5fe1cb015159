//! Builders of ports: a hub returns one for a factory of its own, and the functions here return one for a domain.
pub use iox_delivery_factories::{
    PortFactoryPublisher, PortFactorySubscriber, publisher_builder, slice_publisher_builder,
    slice_subscriber_builder, slices, subscriber_builder,
};
