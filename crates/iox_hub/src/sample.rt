//! A received message.
pub use iox_delivery::Sample;
