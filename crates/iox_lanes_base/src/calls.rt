//! The calls of one publisher and of one subscriber, one access to a shared word at a time.
//!
//! Each call is plain data and contains no shared words: it says which access comes next, takes the answer of that access, and says what
//! the answer changes of what its port keeps for itself. The accesses to rings are those of the ring ends of `iox_queues_steps`.
//!
//! - [`route`]: a connection as its two ports know it.
//! - [`answers`]: the answer of a push or a pop that is over.
//! - [`publisher`]: a loan, a write, a send and the dropping of a loan.
//! - [`subscriber`]: a receive, a read and a release.
//!
//! First calls, of a write of one word; `LaneMachine` of `iox_lanes_machine` makes them with the words of a service.
//!
//! ```
//! let mut call = PublisherCall::write(&[word], slot);
//! let access = call.next();
//! let change = call.take(0, &[], &[word]);
//! ```

pub mod answers;
pub mod publisher;
pub mod route;
pub mod subscriber;

pub use publisher::{Delivery, PublisherCall, PublisherChange};
pub use route::{Route, reroute};
pub use subscriber::{Receipt, SubscriberCall, SubscriberChange};
