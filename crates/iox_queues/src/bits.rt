//! Bit sets and counting bit sets one word at a time.
//!
//! Each place of a set has a word of its own: 0 or 1 in a bit set, a count in a counting bit set. Any number of parties work on one set,
//! which has any number of places.
//!
//! - [`call`]: the accesses of a call, independent of any set.
//! - [`machine`]: a set with its parties, whose steps are made in any order.
//!
//! A first call:
//!
//! ```
//! /// `iox_queues`: a new set of eight places on which the parties made these steps; the result of each finished call is
//! /// what its own steps did.
//! fn ran(
//!     alloc: Global,
//!     parties: usize,
//!     schedule: &[SetMove],
//! ) -> Result<(usize, SetMachine), AllocError>
//!     ensures runs { IfOk result (λ ran. RunsTo (start 1 8 parties) schedule.now ran.0 ran.1) }
//!     ensures told { IfOk result (λ ran. IsTold ran.1) }
//!     ensures balanced { IfOk result (λ ran. IsBalanced ran.1) }
//! {
//!     let mut set = SetMachine::new(alloc, 1, 8, parties)?;
//!     let made = set.run(schedule);
//!     Ok((made, set))
//! }
//! ```

pub mod call;
pub mod machine;
mod state;

pub use call::{Answer, Call, SetCall};
pub use machine::{Event, Finished, Move, SetMachine};
