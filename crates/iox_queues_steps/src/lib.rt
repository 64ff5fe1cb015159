//! Step machines: calls that access shared words one access at a time, the log of a machine, and rings that are run step by step.
//!
//! - [`access`]: the shared words of a ring, and the accesses to them.
//! - [`schedule`]: the steps that a machine can be asked for, and the steps that it made.
//! - [`order`]: the order of puts and takes, and the calls that made them.
//! - [`log`]: what a machine records.
//! - [`end`]: a call that requests one access after another, and the memory that performs them.
//! - [`rings`]: rings of either kind, their two ends, and a machine that runs them.
//!
//! First calls, through the trait `End`; a `RingMachine` makes these calls itself.
//!
//! ```
//! let answer = ring.apply(push.next());
//! let push = push.take(answer);
//! ```
#![tactic(auto)]

pub mod access;
pub mod end;
pub mod log;
pub mod order;
pub mod rings;
pub mod schedule;

pub use access::{Access, Ring, Word};
pub use end::{End, Memory};
pub use order::{Act, Placed, PopAnswer, PopCall, PushAnswer, PushCall};
pub use rings::{Pop, Push, RingKind, RingMachine};
pub use schedule::{Call, Event, Move, Party, Stepped};
