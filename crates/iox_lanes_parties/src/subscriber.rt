//! A subscriber of a service whose words are shared: the call that it is in, and what it keeps for itself.
//!
//! - [`lane_subscriber`]: the subscriber.
//!
//! First calls, of the first access of a read; `LaneMachine` of `iox_lanes_machine` makes them with the words of a service.
//!
//! ```
//! let mut subscriber = LaneSubscriber::new(alloc, &[], 4, ONE_WORD, 4, 1)?;
//! subscriber.begin_read(slot);
//! let access = subscriber.call().next();
//! subscriber.take(answer);
//! ```

pub mod lane_subscriber;

pub use lane_subscriber::LaneSubscriber;
