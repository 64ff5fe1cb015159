//! What a command asks of negotiation: requirements, descriptions and actions of other nodes, from the options that the command names.
//!
//! | Module | What it has |
//! |---|---|
//! | `asked` | what is asked of a service of each pattern |
//! | `described` | the service that another node publishes |
//! | `steps` | the actions of other nodes before each storage operation |
//!
//! The messages of a hub's services over values of `T` are slices of them, with a user header of `U`; those of request-response in both
//! directions.
//!
//! First calls, with a publish-subscribe service. `Factories` makes them.
//!
//! ```
//! let types = message_types::<u64, ()>();
//! publish_subscribe(options, types)
//! ```

pub mod asked;
pub mod described;
pub mod steps;

pub use asked::{event, message_types, publish_subscribe, request_response};
pub use described::description;
pub use steps::{acts_first, step_list, step_lists};
