//! Rings of either kind, which are accessed one word at a time: their two ends, and a machine that runs them.
//!
//! - [`overflowing`], [`refusing`]: the two ends of each kind, independent of any ring.
//! - [`ends`]: an end of either kind.
//! - [`machine`]: a ring with its two ends, whose steps are made in any order.
//! - [`waiting`]: what one step does to the waiting numbers.
//!
//! First calls:
//!
//! ```
//! let mut machine = RingMachine::overflowing(alloc, 2, &[])?;
//! machine.run(&schedule);
//! let order = machine.order();
//! ```

pub mod ends;
pub mod machine;
pub mod overflowing;
pub mod refusing;
mod state;
pub mod waiting;

pub use ends::{Pop, Push, RingKind};
pub use machine::RingMachine;
