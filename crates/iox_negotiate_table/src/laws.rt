//! Theorems about every table. Each one is the contract of a function that does nothing.
ghost use Rattle.iox_negotiate_table.specs.Laws.{StaysOpen, StaysOpenThrough, OpenedIsOpen, CreatedIsOpen};
ghost use Rattle.iox_negotiate_table.specs.Phases.{GivesUpItsOwn, LookShowsThePhase, RemovesItsOwn};

/// A service that is open for an own node stays open for it, whatever action one foreign node makes.
pub fn stays_open()
    ensures { StaysOpen }
{}

/// A service that is open for an own node stays open for it, whatever actions foreign nodes make.
pub fn stays_open_through()
    ensures { StaysOpenThrough }
{}

/// What an own node opens under a number is exactly the service with this number, and afterwards the service is open for the node.
pub fn opened_is_open()
    ensures { OpenedIsOpen }
{}

/// A service that an own node makes and publishes is open for it.
pub fn created_is_open()
    ensures { CreatedIsOpen }
{}

/// Only the foreign node that is creating the service releases its lock; a release by any other node, or in any other phase, changes
/// nothing.
pub fn gives_up_its_own()
    ensures { GivesUpItsOwn }
{}

/// Only the foreign node that left the service last removes its description and segment; a removal by any other node, or in any other
/// phase, changes nothing.
pub fn removes_its_own()
    ensures { RemovesItsOwn }
{}

/// A lookup shows the phase of the service under its hash, and changes nothing.
pub fn look_shows_the_phase()
    ensures { LookShowsThePhase }
{}
