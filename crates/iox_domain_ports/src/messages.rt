//! One publisher: its messages and loans by their contents, over the slots that they are in.
//!
//! - [`rows`]: the values of the slots of one segment.
//! - [`payloads`]: the values of the slots of all segments.
//! - [`marks`]: which of them are written.
//! - [`slot_header`]: the header of a message.
//! - [`sender_config`]: the capacities of a publisher.
//! - [`laws`]: theorems about the steps of a publisher.
//! - [`sender`]: all of one publisher together.
//!
//! First calls. `PublisherPort` makes them.
//!
//! ```
//! if sender.slots().may_loan() {
//!     let slot = sender.loan(values, elements);
//! }
//! ```

pub mod laws;
pub mod marks;
pub mod payloads;
pub mod rows;
pub mod sender;
pub mod sender_config;
pub mod slot_header;

pub use iox_domain_slots::Member;
pub use payloads::Payloads;
pub use sender::Sender;
pub use sender_config::SenderConfig;
pub use slot_header::SlotHeader;
