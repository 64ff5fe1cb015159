//! A theorem that a publisher counts what its slots are used for.
//!
//! The theorem is the contract of a function that does nothing; it speaks of the definitions that the contracts of a publisher's lane cite.
//!
//! A proof uses the theorem by calling its function; then the theorem is among the facts that the caller knows:
//!
//! ```
//! changes_keep_count();
//! ```

ghost use Rattle.iox_lanes_machine.specs.LedgerUses.{ChangesKeepCount};

/// The uses that a publisher counts of a slot are those that the slot has: one as a loan, one in the history, one at each connection that
/// has it.
pub fn changes_keep_count()
    ensures { ChangesKeepCount }
{}
