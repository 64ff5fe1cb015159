//! The ends of a ring of either kind, and its machine, one word at a time.
pub use iox_queues_steps::rings::{Pop, Push, RingKind, RingMachine};
