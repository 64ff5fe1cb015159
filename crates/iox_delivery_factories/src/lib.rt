//! How ports are created: builders that set what a port is to have, and create it in the home of its domain.
//!
//! | Module | What it has |
//! |---|---|
//! | `builders` | builders for the ports of a domain |
//! | `laws` | theorems about builders |
//! | `prelude` | what a program without a hub needs |
//! | `publisher` | the builder of a publisher of single values, or of slices |
//! | `slices` | the builders of ports of slices, under the names of those of single values |
//! | `subscriber` | the builder of a subscriber of single values, or of slices |
//!
//! First calls, of a publisher of six loans:
//!
//! ```
//! let mut domain = Domain::<u64, ()>::new(alloc, id, description, 128).ok()?;
//! let builder = publisher_builder(&domain, 5, 9)?.max_loaned_samples(6);
//! // with the home that has the domain
//! let publisher = builder.create(alloc, domain)?;
//! ```
#![tactic(auto)]

pub mod builders;
pub mod laws;
pub mod prelude;
pub mod publisher;
pub mod slices;
pub mod subscriber;

pub use builders::{
    publisher_builder, slice_publisher_builder, slice_subscriber_builder, subscriber_builder,
};
pub use publisher::PortFactoryPublisher;
pub use subscriber::PortFactorySubscriber;
