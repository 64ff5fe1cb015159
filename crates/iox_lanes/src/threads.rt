//! The ports of a domain in threads of their own: its lanes make their steps as `iox_lanes_threads` describes, and the board keeps the
//! domain until they end.
//!
//! - [`threads`]: the ports, and the board with the domain.
//! - [`opening`]: from the lanes of a domain to threads.
//! - [`ending`]: from threads back to the domain, without its messages.
//! - [`abandoning`]: from threads back to the domain, without the ports that are lost.
//! - `emptying`: makes publishers of a domain forget their messages.
//! - [`publisher`], [`subscriber`]: a port that knows the types of its service.
//! - [`tokens`]: loans and samples as values of their own.
//! - [`message`]: a message as a subscriber reads it.
//! - [`errors`]: why a call did nothing, or not all that it was asked.
//!
//! First calls. `take_publisher` and `take_subscriber` of `DomainThreads` give the ports between opening and ending.
//!
//! ```
//! let DomainThreads {
//!     board,
//!     publishers,
//!     subscribers,
//! } = open_threads(alloc, 1, lanes).ok()?;
//! let domain = end(board, publishers, subscribers).ok()?;
//! ```

pub mod abandoning;
mod emptying;
pub mod ending;
pub mod errors;
pub mod message;
pub mod opening;
pub mod publisher;
pub mod subscriber;
pub mod threads;
pub mod tokens;

pub use abandoning::{Abandoned, abandon};
pub use ending::{end, has_all};
pub use errors::{LoanError, ReceiveError, ReleaseError, SendError, WriteError};
pub use iox_lanes_threads::{EndError, OpenError};
pub use message::Message;
pub use opening::open_threads;
pub use publisher::{Publisher, Unsent};
pub use subscriber::{Subscriber, Unreleased};
pub use threads::{DomainBoard, DomainThreads};
pub use tokens::{Loan, Sample};
