//! A theorem about the numbers of factories: a consequence of the contracts of the calls. It is the contract of a function that does
//! nothing.
ghost use Rattle.iox_hub_commands.specs.FactoryLaws.{FoundUntilClosed};

/// A number that is answered named nothing before, and names a factory of the pattern that was asked for, until that factory is closed.
/// Every other number names what it named, and so does each if a call is refused, or answers None. This is the contract of a function that
/// does nothing.
pub fn found_until_closed<T, U, B, D>()
    ensures { FoundUntilClosed T U B D }
{}
