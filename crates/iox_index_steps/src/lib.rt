//! Index sets, and a single value, which are accessed one word at a time.
//!
//! The head of a set is one word: the next free index, a count of its changes, and how many indices are held (`HeadDetails`). Each index
//! has a cell that names the index that is free after it. Any number of parties acquire and release indices, one access at a time.
//!
//! - [`call`]: the accesses of a call, independent of any set.
//! - [`machine`]: a set with its parties, whose steps are made in any order.
//! - [`atomic`]: a machine for a single value that one party at a time stores and any party loads.
//!
//! A first call:
//!
//! ```
//! /// `iox_index_steps`: a new set of eight indices on which the parties made these steps. If the head changes fewer than 2^16 times
//! /// within each acquire, no index has two holders, and an acquire took exactly the index that it returns.
//! fn ran(
//!     alloc: Global,
//!     parties: usize,
//!     schedule: &[Move],
//! ) -> Result<(usize, IndexSetMachine), AllocError>
//!     ensures runs { IfOk result (λ ran. RunsTo (start 8 parties) schedule.now ran.0 ran.1) }
//!     ensures orderly { IfOk result (λ ran. HasFewChanges ran.1 → IsOrderly ran.1) }
//! {
//!     let mut set = IndexSetMachine::new(alloc, 8, parties)?;
//!     let made = set.run(schedule);
//!     Ok((made, set))
//! }
//! ```
#![tactic(auto)]

pub mod atomic;
pub mod call;
pub mod machine;
mod state;

pub use call::{Answer, Call, IndexCall};
pub use machine::{Finished, IndexSetMachine, Move};
