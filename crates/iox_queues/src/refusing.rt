//! The ends of the ring that refuses a push when it is full, one word at a time.
pub use iox_queues_steps::rings::refusing::{Pop, Push};
