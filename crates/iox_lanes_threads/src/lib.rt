//! Publishers and subscribers of one service in threads of their own: they make the lanes' steps on one table of atomic words, without any
//! lock.
//!
//! - [`table`]: the words that the ports share, and the seats that they step with.
//! - [`publisher`], [`subscriber`]: a port with its share of the words.
//! - [`threads`]: all ports of a service.
//! - [`errors`]: why they aren't opened or ended.
//! - [`opening`]: from lanes to threads.
//! - `room`: the memory that the ports need.
//! - [`ending`]: from threads back to lanes.
//!
//! First calls, of lanes of which no port is inside a call. The program `example_threads` runs the ports in threads of their own.
//!
//! ```
//! let mut threads = iox_lanes_threads::open_threads(alloc, 1, lanes).ok()?;
//! let publisher = threads.publishers.first_mut()?;
//! // the publisher's
//! let Some(LoanAnswer::Slot(loan)) = publisher.loan_uninit() else {
//!     return None;
//! };
//! if publisher.write(loan, payload, &[]) {
//!     return Some(loan);
//! }
//! ```
#![tactic(auto)]

pub mod ending;
pub mod errors;
pub mod opening;
pub mod publisher;
mod room;
pub mod subscriber;
pub mod table;
pub mod threads;

pub use ending::{EndedThreads, are_all, end};
pub use errors::{EndError, OpenError};
pub use iox_lanes_threads_ports::ReleaseAnswer;
pub use opening::open_threads;
pub use publisher::LanePublisher;
pub use subscriber::LaneSubscriber;
pub use threads::{Board, LaneThreads, OnBoard};
