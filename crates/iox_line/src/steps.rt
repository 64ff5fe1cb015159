//! How a line names actions of other nodes: after `foreign`, and in lists `|I STEP..` before the storage operations of a call.
//!
//! `specs/Steps.antt` says how each is written.
//!
//! | Module | What it has |
//! |---|---|
//! | `step` | one action |
//! | `foreign` | the actions of a `foreign` line |
//! | `lists` | the lists of actions before storage operations |
//!
//! First calls. `read_command` makes them.
//!
//! ```
//! let lists = listed_steps(alloc, pattern, words)?;
//! let steps = foreign_steps(alloc, pattern, words)?;
//! ```

pub mod foreign;
pub mod lists;
pub mod step;

pub use foreign::foreign_steps;
pub use lists::listed_steps;
