//! The ports of a service of slices as values, like those of single values in the crate's root.
//!
//! - [`publisher`]: a publisher of slices.
//! - [`sample_mut_uninit`]: a loaned slice that isn't written yet.
//! - [`sample_mut`]: a loaned slice that is written.
//! - [`subscriber`]: a subscriber of slices.
//! - [`sample`]: a slice that was received.
//! - [`filling`]: slices that are loaned and written at once, by port.
//!
//! Publishers and subscribers are copied, as numbers are. A loan and a sample are consumed by the call that ends them.
//!
//! First calls, of a publisher:
//!
//! ```
//! let loan = publisher.loan_slice_uninit(alloc, home, 4).ok()?;
//! let sample = loan.write_from_slice(home, &[1, 2, 3, 4]);
//! let may = sample.holds(home);
//! if let Err(kept) = sample.drop_with(home) {
//!     kept.into_slot();
//! }
//! ```

pub mod filling;
pub mod publisher;
pub mod sample;
pub mod sample_mut;
pub mod sample_mut_uninit;
pub mod subscriber;

pub use publisher::Publisher;
pub use sample::Sample;
pub use sample_mut::SampleMut;
pub use sample_mut_uninit::SampleMutUninit;
pub use subscriber::Subscriber;
