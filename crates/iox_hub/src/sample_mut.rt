//! A written loan, which may be sent.
pub use iox_delivery::SampleMut;
