//! The ends of the ring that removes its oldest number when it is full, one word at a time.
pub use iox_queues_steps::rings::overflowing::{Pop, Push};
