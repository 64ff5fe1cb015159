//! Why a service isn't opened or created, by its pattern, and why a factory isn't closed. Each error is displayed as the name of its type,
//! `::` and the variant, with an inner variant in parentheses.
//!
//! | Module | What it has |
//! |---|---|
//! | `publish_subscribe`, `event`, `request_response` | the three errors of a pattern, made from the failures of the rounds |
//! | `close` | the error of closing a factory |
//! | `tables` | the tables of names that all patterns share |
//!
//! First calls, with a failure of the rounds, as the builders of `iox_negotiate` make them to return these errors:
//!
//! ```
//! let error = PublishSubscribeOpenError::from(failure);
//! error.text()
//! ```

pub mod close;
pub mod event;
pub mod publish_subscribe;
pub mod request_response;
mod tables;

pub use close::CloseError;
pub use event::{EventCreateError, EventOpenError, EventOpenOrCreateError};
pub use publish_subscribe::{
    PublishSubscribeCreateError, PublishSubscribeOpenError, PublishSubscribeOpenOrCreateError,
};
pub use request_response::{
    RequestResponseCreateError, RequestResponseOpenError, RequestResponseOpenOrCreateError,
};
