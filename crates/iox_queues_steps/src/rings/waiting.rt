//! What one step of either end of a ring does to the waiting numbers.
//!
//! A number is called aside while its push has stored the write position, but its put only takes effect at the next move of the read
//! position. Each of the two theorems is the contract of a function that does nothing.
//!
//! A proof uses a theorem by calling its function, after which the statement is among the facts of the caller:
//!
//! ```
//! push_moves();
//! ```

ghost use Rattle.iox_queues_steps.specs.Moves.{PopMoves, PushMoves};

/// A step of a push leaves the waiting numbers and the number aside unchanged, or appends a number to either, or removes the oldest waiting
/// number and appends the number aside.
pub fn push_moves()
    ensures { PushMoves }
{}

/// A step of a pop or a look leaves the waiting numbers and the number aside unchanged, or removes the oldest waiting number and appends
/// the number aside.
pub fn pop_moves()
    ensures { PopMoves }
{}
