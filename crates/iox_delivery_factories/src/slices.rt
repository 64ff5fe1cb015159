//! The builders of ports of slices.
use crate::{publisher, subscriber};
use iox_delivery::kind::Slice;
use iox_domain_values::{DegradationHandler, Handlers, PreallocatedSamplesOverride};

/// The builder of a publisher of slices.
///
/// Ported from `iceoryx2::service::port_factory::publisher::PortFactoryPublisher`.
pub type PortFactoryPublisher<T, U, B = Handlers, O = PreallocatedSamplesOverride> =
    publisher::PortFactoryPublisher<T, U, B, O, Slice>;

/// The builder of a subscriber of slices.
///
/// Ported from `iceoryx2::service::port_factory::subscriber::PortFactorySubscriber`.
pub type PortFactorySubscriber<T, U, D = DegradationHandler> = subscriber::PortFactorySubscriber<
    T,
    U,
    D,
    Slice,
>;
