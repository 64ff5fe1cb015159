//! A publisher of single values, and the results of its sends.
pub use iox_delivery::{BlockedSend, Publisher, Sent};
