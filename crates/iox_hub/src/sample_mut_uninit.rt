//! A loan that is still to be written.
pub use iox_delivery::SampleMutUninit;
