//! How nodes agree on a service: rounds of storage operations, whatever their results are.
//!
//! | Module | What it has (lower modules first) |
//! |---|---|
//! | `boxed` | a description in memory of its own |
//! | `answer` | the results of storage operations |
//! | `storage` | the trait of a storage |
//! | `request` | what a node asks of a service, for any pattern |
//! | `failure` | why a service isn't created or opened |
//! | `sight` | what a lookup of a service shows |
//! | `creation` | creates a service under a lock, or undoes the creation |
//! | `opening` | checks a description, and registers the node in its service |
//! | `rounds` | `create`, `open`, `open_or_create` |
//! | `laws` | theorems about all of these |
//! | `errors` | why a service isn't opened or created, by its pattern; why a factory isn't closed |
//!
//! A first call, as the builders of `iox_negotiate` make it:
//!
//! ```
//! let opened = open_or_create(alloc, &request, &mut storage)?;
//! ```
#![tactic(auto)]

pub mod answer;
pub mod boxed;
pub mod creation;
pub mod errors;
pub mod failure;
pub mod laws;
pub mod opening;
pub mod request;
pub mod rounds;
pub mod sight;
pub mod storage;

pub use answer::{
    LeaveAnswer, LockAnswer, LookAnswer, MakeSegmentAnswer, OpenSegmentAnswer, PublishAnswer,
    RemoveAnswer, StoredDescription,
};
pub use boxed::BoxedDescription;
pub use errors::{
    CloseError, EventCreateError, EventOpenError, EventOpenOrCreateError,
    PublishSubscribeCreateError, PublishSubscribeOpenError, PublishSubscribeOpenOrCreateError,
    RequestResponseCreateError, RequestResponseOpenError, RequestResponseOpenOrCreateError,
};
pub use failure::{CreateFailure, OpenFailure, OpenOrCreateFailure};
pub use request::{Opened, Request};
pub use rounds::{ROUNDS, create, open, open_or_create};
pub use storage::Storage;
