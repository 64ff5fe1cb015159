//! Ports of publish-subscribe: publishers and subscribers as values, the types of their calls, and their handlers.
pub mod publisher;
pub mod subscriber;

pub use iox_delivery::{PortId, UpdateConnections};
pub use iox_domain::Nobody;
pub use iox_domain_values::{
    AllocationStrategy, BackpressureAction, BackpressureDecision, BackpressureFn,
    BackpressureHandler, BackpressureInfo, BackpressureStrategy, BackpressureToReceiverAction,
    ConnectionFailure, DataSegmentType, Decides, DegradationAction, DegradationCause,
    DegradationFn, DegradationHandler, DegradationInfo, Degrades, Handlers, LoanError, Overrides,
    PortIdentity, PortOwner, PreallocatedSamplesFn, PreallocatedSamplesOverride,
    PublisherCreateError, ReceiveError, SendError, SubscriberCreateError, ZeroCopyCreationError,
};
