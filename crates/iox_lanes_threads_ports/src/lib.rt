//! Publishers and subscribers in threads: each access to the words that they share is a step of a lane.
//!
//! - `publishing`: the steps of a publisher's call.
//! - `subscribing`: the steps of a subscriber's call.
//! - [`publisher`]: a publisher.
//! - [`subscriber`]: a subscriber.
//! - [`laws`]: theorems, mainly that at each stage of a call the port knows what its next step needs.
//!
//! First calls, of a publisher and a subscriber over one table `words`. `open_threads` of `iox_lanes_threads` makes both from lanes.
//!
//! ```
//! let loan = publisher.loan_uninit(&words);
//! let sent = publisher.send(&words, slot);
//! let given = subscriber.receive(&rt, &words);
//! ```
#![tactic(auto)]

mod ahead;
pub mod laws;
pub mod publisher;
mod publishing;
mod ring_calls;
mod ring_strides;
mod strides;
pub mod subscriber;
mod subscriber_strides;
mod subscribing;

pub use publisher::{ThreadedPublisher, write_room};
pub use subscriber::{ReleaseAnswer, ThreadedSubscriber};
