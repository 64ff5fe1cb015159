//! A publisher of a service whose words are shared: the call that it is in, and what it keeps for itself.
//!
//! - [`slot_book`]: what its slots are used for.
//! - [`use_counts`]: how many uses each slot has.
//! - [`lane_publisher`]: the publisher.
//!
//! First calls, of a loan of a publisher that nobody is connected to; `LaneMachine` of `iox_lanes_machine` makes them with the words of
//! a service.
//!
//! ```
//! let book = SlotBook::new(alloc, 8, 2, 0, most_loans, 0)?;
//! let mut publisher = LanePublisher::new(alloc, &[], book, 1, 3)?;
//! publisher.begin_loan();
//! publisher.take(0);
//! Ok(publisher.book().answer())
//! ```

pub mod lane_publisher;
pub mod slot_book;
pub mod use_counts;

pub use lane_publisher::LanePublisher;
pub use slot_book::{LoanAnswer, LoanMark, SlotBook};
