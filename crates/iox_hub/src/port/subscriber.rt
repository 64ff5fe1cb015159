//! A subscriber of single values.
pub use iox_delivery::Subscriber;
