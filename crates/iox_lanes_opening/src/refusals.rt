//! Why the domain of a service can't become lanes.
//!
//! - [`into_lanes_error`]: the reasons.
//! - [`up_to_date`]: whether each port has followed the current list of the other side, and is connected to its ports.
//! - [`deciding`]: which ports have handlers of the caller, and which publishers would block or fail at a full mailbox.
//! - [`lingering`]: loans and samples that exist, and closed ports that still exist.
//! - [`slices`]: publishers and messages that don't have single values.
//! - [`soundness`]: states of the ports that no calls leave.
//! - `shared_slots`: whether two messages of a publisher are in one slot.
//! - [`sequences`]: which sequence numbers are too large.
//! - [`each_asked`]: a question asked of each publisher.
//! - [`reasons`]: the first reason that applies.
//!
//! First calls, for a domain:
//!
//! ```
//! let error = refusal(domain)?;
//! Some(error.text())
//! ```

pub mod deciding;
mod each_asked;
pub mod into_lanes_error;
pub mod lingering;
pub mod reasons;
pub mod sequences;
mod shared_slots;
pub mod slices;
pub mod soundness;
pub mod up_to_date;

pub use deciding::{AsksCaller, FixedDecision};
pub use into_lanes_error::IntoLanesError;
pub use reasons::refusal;
