//! Index sets that know the owner of each held index, and containers over them, which are accessed one word at a time.
//!
//! Each index has a cell: 0, or the owner that holds the index, or the owner that is about to take it. A further word is a count that is
//! raised before an index is taken; its largest value locks the set for good. Any number of parties acquire, release and recover indices,
//! one access at a time.
//!
//! - [`call`]: the accesses of a call, independent of any set.
//! - [`machine`]: a set with its parties, whose steps are made in any order.
//! - [`container`]: a container of members over such a set, with its parties.
//!
//! A first call:
//!
//! ```
//! /// `iox_robust_steps`: a new set of eight indices on which the parties made these steps; recoveries free what they find. If
//! /// fewer than 2^64 - 1 steps were made, no index has two holders, and an acquire took exactly the index that it returns.
//! fn ran(
//!     alloc: Global,
//!     parties: usize,
//!     schedule: &[Move],
//! ) -> Result<(usize, RobustSetMachine), AllocError>
//!     ensures orderly { IfOk result (λ ran. HasFewSteps ran.1 → IsOrderly ran.1) }
//! {
//!     let decisions = vec![in alloc; vec![in alloc; true; 8]?]?;
//!     let mut set = RobustSetMachine::new(alloc, 8, parties, decisions)?;
//!     let made = set.run(schedule);
//!     Ok((made, set))
//! }
//! ```
#![tactic(auto)]

pub mod call;
pub mod container;
pub mod machine;
mod state;

pub use call::{Answer, Call, RobustCall};
pub use machine::{Finished, Move, RobustSetMachine};
