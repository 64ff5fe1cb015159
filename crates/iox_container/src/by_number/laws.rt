//! Theorems about the calls of a table. Each one is the contract of a function that does nothing.
ghost use Rattle.iox_container.specs.NumberLaws.{FoundAndGone, GivenOnce};

/// A value is found under its number until it is removed. Calls at other numbers don't change it. A number that wasn't given out has no
/// value. This theorem is the contract of a function that does nothing.
pub fn found_and_gone<V>()
    ensures { FoundAndGone V }
{}

/// Over any sequence of calls, each number that is given out is above all earlier ones; a removed value never comes back, and a value that
/// no call removes or writes stays. This theorem is the contract of a function that does nothing.
pub fn given_once<V>()
    ensures { GivenOnce V }
{}
