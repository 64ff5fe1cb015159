//! The publishers and subscribers of one service, each with the call that it is in, without the shared words.
//!
//! - [`call`]: what ports may be asked to do, and their answers.
//! - [`head`]: the header and user header of a slot.
//! - [`publisher`], [`subscriber`]: a port, and what it keeps for itself.
//! - [`laws`]: theorems that ports stay within their own service.
//! - `places`: changes at places of lists, which do nothing beyond the end.
//! - `sequences`: the sequence numbers of messages.
//! - [`values`]: a program's own values as the words of a call.
//! - [`with_sequence`]: a user header with the sequence number of its message.
//! - [`publisher_lane`], [`subscriber_lane`]: a port with the call that it began last.
//!
//! First calls, of a subscriber without connections; `LaneMachine` of `iox_lanes_machine` makes them with the words of a service.
//!
//! ```
//! let mut lane = SubscriberLane::new(port);
//! lane.begin(moment, &Call::Receive);
//! Ok(lane.go_on(0, 0))
//! ```
#![tactic(auto)]

pub mod call;
pub mod head;
pub mod laws;
mod places;
pub mod publisher;
pub mod publisher_lane;
mod sequences;
pub mod subscriber;
pub mod subscriber_lane;
pub mod values;
pub mod with_sequence;

pub use call::{Answer, Call, CallName, Entry, FinishedCall, Move, Party, SendAnswer};
pub use head::Head;
pub use publisher_lane::PublisherLane;
pub use subscriber_lane::SubscriberLane;
pub use values::values_in;
pub use with_sequence::{FewWords, WithSequence};
