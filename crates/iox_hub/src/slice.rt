//! The ports of a service of slices, their loans and their samples. Those of single values are in `port`, `sample`, `sample_mut` and
//! `sample_mut_uninit`.
pub use iox_delivery::slices::{Publisher, Sample, SampleMut, SampleMutUninit, Subscriber};
