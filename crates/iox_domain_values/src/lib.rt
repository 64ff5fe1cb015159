//! What the ports of a service take and answer: plain values, errors, and the objects that a caller passes. No item here
//! contains a port or a message.
//!
//! | Module | What it has |
//! |---|---|
//! | `backpressure_strategy` | what a publisher does at a full mailbox if no handler decides, with its text form |
//! | `backpressure` | what a handler is given about a full mailbox, what it may answer, and what strategy and answer decide |
//! | `degradation` | what a handler is given about a failed connection, and what it may answer |
//! | `data_segment` | how the slots of a publisher grow |
//! | `port_owner` | the owner and the identity of a port |
//! | `sequences` | the sequence number before the first, if a service numbers its messages |
//! | `service_sizes` | the limits that a service sets for its ports, and how many slots a publisher needs there |
//! | `connection_failure` | why a connection fails |
//! | `port_error`, `create_error` | why a call of a port fails; why a port or a domain couldn't be created |
//! | `laws` | theorems about the definitions |
//! | `backpressure_handler`, `degradation_handler`, `samples_override` | handlers: an object that the caller passes, or one fixed answer |
//! | `handlers` | the strategy and the handlers of a publisher |
//!
//! Each error displays as its type's name, `::` and the variant's name; the name of an inner variant follows in parentheses, at
//! any depth.
//!
//! First calls. `Handlers` asks a handler in this way, and decides.
//!
//! ```
//! let handler = BackpressureHandler::new_with(BackpressureAction::DiscardData);
//! let answer = handler.call(&info);
//! let decision = backpressure::decision(strategy, Some(answer));
//! ```
#![tactic(auto)]

pub mod backpressure;
pub mod backpressure_handler;
pub mod backpressure_strategy;
pub mod connection_failure;
pub mod create_error;
pub mod data_segment;
pub mod degradation;
pub mod degradation_handler;
pub mod handlers;
pub mod laws;
pub mod port_error;
pub mod port_owner;
pub mod samples_override;
pub mod sequences;
pub mod service_sizes;

pub use backpressure::{
    BackpressureAction, BackpressureDecision, BackpressureInfo, BackpressureToReceiverAction,
};
pub use backpressure_handler::{BackpressureFn, BackpressureHandler};
pub use backpressure_strategy::BackpressureStrategy;
pub use connection_failure::{ConnectionFailure, ZeroCopyCreationError};
pub use create_error::{DomainError, PublisherCreateError, SubscriberCreateError};
pub use data_segment::{AllocationStrategy, DataSegmentType};
pub use degradation::{DegradationAction, DegradationCause, DegradationInfo};
pub use degradation_handler::{DegradationFn, DegradationHandler, Degrades};
pub use handlers::{Decides, Handlers};
pub use port_error::{LoanError, ReceiveError, SendError};
pub use port_owner::{PortIdentity, PortOwner};
pub use samples_override::{
    Overrides, PreallocatedSamplesFn, PreallocatedSamplesOverride, number_of_places,
};
pub use sequences::before_first;
pub use service_sizes::ServiceSizes;
