//! How a line gives attributes: `@KEY=VALUE` defines or requires a pair, `@KEY` requires a key.
//!
//! `specs/Attributes.antt` says how each is written.
//!
//! | Module | What it has |
//! |---|---|
//! | `part` | one word of attributes |
//! | `specifier` | the attributes that words define |
//! | `verifier` | the attributes that words require |
//!
//! First calls. `read_command` makes them.
//!
//! ```
//! let attributes = defined_attributes(alloc, words)?;
//! let verifier = required_attributes(alloc, words)?;
//! ```

pub mod part;
pub mod specifier;
pub mod verifier;

pub use specifier::defined_attributes;
pub use verifier::required_attributes;
