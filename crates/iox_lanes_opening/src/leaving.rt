//! Puts the messages that lanes leave in the slots of a publisher back into a publisher of a domain, each message into its slot.
//!
//! - [`words`]: reads a message from the words of a slot.
//! - [`clearing`]: a publisher of a domain forgets its messages.
//! - [`restoring`]: the publisher gets the messages that the lanes leave at a connection, and those of a history.
//! - [`restored`]: the publisher gets all of them.
//!
//! First calls, for a publisher that forgets its messages. `into_domain` of `iox_lanes` calls `restore`.
//!
//! ```
//! if is_rested(sender) {
//!     forget_messages(sender);
//!     return true;
//! }
//! false
//! ```

pub mod clearing;
pub mod restored;
pub mod restoring;
pub mod words;

pub use clearing::{forget_messages, is_rested};
pub use restored::{LeftPublisher, restore};
