//! How a line names a service: its node, its pattern and name, and the options of the pattern.
//!
//! `specs/Services.antt` says how each is written.
//!
//! | Module | What it has |
//! |---|---|
//! | `value` | switches, numbers that can be off, patterns and names |
//! | `options` | the options of each pattern |
//! | `service` | the service that a line names |
//!
//! A first call. `read_command` makes it.
//!
//! ```
//! let service = named_service(words)?;
//! ```

pub mod options;
pub mod service;
pub mod value;

pub use service::{NamedService, named_service};
