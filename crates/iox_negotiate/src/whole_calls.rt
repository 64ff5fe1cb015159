//! Theorems about every table of services that can be reached, whatever its own nodes and foreign nodes do. Each one is the contract of a
//! function that does nothing.
//!
//! A proof uses a theorem by calling its function, after which the statement is among the facts of the caller:
//!
//! ```
//! few_are_in();
//! ```
ghost use Rattle.iox_negotiate_base.specs.DescribeSettings.Agreement.{AreWithinLimits, HasNoRoomForHistory};
ghost use Rattle.iox_negotiate.specs.Agreements.{AgreesAsBefore};
ghost use Rattle.iox_negotiate.specs.Built.{BuildersMakeCalls};
ghost use Rattle.iox_negotiate.specs.Calls.{OpenFactoriesStand, StandInsideCalls, of_three};
ghost use Rattle.iox_negotiate.specs.Closing.{ClosesOne};
ghost use Rattle.iox_negotiate.specs.Counts.{FactoriesAreCounted, CountedInsideCalls};
ghost use Rattle.iox_negotiate.specs.Lives.{TakenOnce, OneLife, PublishedByItsLock, FewAreIn, OpenedStands};
ghost use Rattle.iox_negotiate.specs.Refused.{RefusedLeavesAll};
ghost use Rattle.iox_negotiate.specs.Rooms.{RoomsAreAgreed, RoomsInsideCalls};

use iox_describe::pattern::Pattern;
use iox_negotiate_base::Request;

/// No number is given out twice: the number of each lifetime is above those of all lifetimes before.
pub fn taken_once()
    ensures { TakenOnce }
{}

/// A number belongs to one hash for good, and no other description is ever published under it.
pub fn one_life()
    ensures { OneLife }
{}

/// A description is published under a number only by the node that has the lock with this number, and it replaces this lock.
pub fn published_by_its_lock()
    ensures { PublishedByItsLock }
{}

/// No more nodes are registered in any segment than its maximum.
pub fn few_are_in()
    ensures { FewAreIn }
{}

/// What an own node opens under a number is exactly the service with this number, and afterwards the service is open for the node.
pub fn opened_stands()
    ensures { OpenedStands }
{}

/// After any calls in a new table, with any actions of other nodes before each storage operation and between the calls, the service of each
/// open factory exists: what the factory states is published under its number, its segment exists, its node is registered, no more nodes
/// are registered than the maximum, and the node has at least as many registered factories as are open. The calls may be on services of
/// three patterns.
pub fn open_factories_stand<P: Request, Q: Request, R: Request>()
    ensures { OpenFactoriesStand (of_three P.ClauseError Q.ClauseError R.ClauseError) }
{}

/// What [`open_factories_stand`] says also holds after each storage operation within a call, for each open factory that the call doesn't
/// close.
pub fn stand_inside_calls<P: Request, Q: Request, R: Request>()
    ensures { StandInsideCalls (of_three P.ClauseError Q.ClauseError R.ClauseError) }
{}

/// Exactly the open factories are registered: after any calls in a new table, with any actions of other nodes before each storage operation
/// and between the calls, the segment of each published service has exactly those own nodes that have open factories of it, and counts as
/// many factories of each node as are open.
pub fn factories_are_counted<P: Request, Q: Request, R: Request>()
    ensures { FactoriesAreCounted (of_three P.ClauseError Q.ClauseError R.ClauseError) }
{}

/// What [`factories_are_counted`] says also holds after each storage operation within a call: exactly the factories that were open before
/// the call are registered, or exactly those that are open after it.
pub fn counted_inside_calls<P: Request, Q: Request, R: Request>()
    ensures { CountedInsideCalls (of_three P.ClauseError Q.ClauseError R.ClauseError) }
{}

/// Closing a factory in its table succeeds: the node then has one factory fewer, and is removed if it was its last one. If it was the
/// last factory of the last node, the description and the segment are removed. What is under any other hash is unchanged.
pub fn closes_one()
    ensures { ClosesOne }
{}

/// Whatever a builder does in a table (create, open, or either), with any actions of other nodes before its storage operations, is a call
/// to which these theorems apply, and what it agrees on is within the limits. So `rooms_are_agreed` holds for the calls of builders. The
/// builder is of the pattern `B`, and its error is of any type.
pub fn builders_make_calls<B: Pattern, P: Request, Q: Request, R: Request, E>()
    ensures { BuildersMakeCalls (λ (config : B.StaticConfig). AreWithinLimits (B.settings config))
        (λ (config : B.StaticConfig). HasNoRoomForHistory (B.settings config)) (of_three P.ClauseError Q.ClauseError R.ClauseError) E }
{}

/// After any calls in a new table, the maximum number of nodes in the segment of each published service is the agreed one.
pub fn rooms_are_agreed<P: Request, Q: Request, R: Request>()
    ensures { RoomsAreAgreed (of_three P.ClauseError Q.ClauseError R.ClauseError) }
{}

/// What [`rooms_are_agreed`] says also holds after each storage operation within a call.
pub fn rooms_inside_calls<P: Request, Q: Request, R: Request>()
    ensures { RoomsInsideCalls (of_three P.ClauseError Q.ClauseError R.ClauseError) }
{}

/// What is opened or created under a number is exactly what was ever agreed under it: no service has two agreements under one number,
/// whoever acts on the table in the meantime. The calls may be on services of three patterns.
pub fn agrees_as_before<P: Request, Q: Request, R: Request>()
    ensures { AgreesAsBefore (of_three P.ClauseError Q.ClauseError R.ClauseError) }
{}

/// A refused call leaves the contents of the table unchanged, provided that other nodes do nothing between its storage operations; only the
/// next number may have risen. The calls may be on services of three patterns.
pub fn refused_leaves_all<P: Request, Q: Request, R: Request>()
    ensures { RefusedLeavesAll (of_three P.ClauseError Q.ClauseError R.ClauseError) }
{}
