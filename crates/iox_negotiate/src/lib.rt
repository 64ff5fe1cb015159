//! Builders of services for any storage, and the factories of ports that they return.
//!
//! | Module | What it has (lower modules first) |
//! |---|---|
//! | `asked` | what a builder asks of a service, as a request of the rounds |
//! | `patterns` | the three patterns with their errors |
//! | `factory` | an open service: what its nodes agree on, and its closing |
//! | `negotiation` | turns what is asked into a factory |
//! | `payload` | the payload of messages: a single value of a type, or a slice |
//! | `builder` | builders of the three patterns |
//! | `laws` | theorems about every open service |
//! | `whole_calls` | theorems about every table of services, whatever is done to it |
//!
//! The storage trait, the table in memory with its actions of other nodes, and the errors of all calls are re-exported.
//!
//! First calls:
//!
//! ```
//! let builder = Builder::new(node, name).publish_subscribe::<u64>();
//! let factory = builder.open_or_create(alloc, &mut table)?;
//! let _ = factory.close(&mut table);
//! ```
#![tactic(auto)]

pub mod asked;
pub mod builder;
pub mod factory;
pub mod laws;
mod negotiation;
pub mod patterns;
pub mod payload;
pub mod whole_calls;

pub use asked::{Asked, settings_refusal};
pub use builder::{Builder, ServiceBuilder};
pub use factory::{Membership, NotClosed, PortFactory};
pub use iox_negotiate_base::errors::{
    CloseError, EventCreateError, EventOpenError, EventOpenOrCreateError,
    PublishSubscribeCreateError, PublishSubscribeOpenError, PublishSubscribeOpenOrCreateError,
    RequestResponseCreateError, RequestResponseOpenError, RequestResponseOpenOrCreateError,
};
pub use iox_negotiate_base::{CreateFailure, OpenFailure, OpenOrCreateFailure, Storage};
pub use iox_negotiate_table::{ForeignStep, StepList, Stepped, Table};
pub use patterns::Negotiated;
pub use payload::{Payload, Slice};
