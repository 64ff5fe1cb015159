//! The table of services does what the machine does in its phases: the definitions of `iox_negotiate_table` related to those of
//! `iox_machine`.
//!
//! The functions here do nothing: the contract of each is a theorem about the definitions. `TableStands` says which phases of a machine a
//! table represents. No two services of the names that are asked for may share a hash; that is a premise, as it can't be proved. A proof
//! cites a theorem by a call of its function; the statement is then among the facts of the caller:
//!
//! ```
//! foreign_steps_match::<u64>();
//! ```
#![tactic(auto)]

ghost use Rattle.iox_machine.specs.Choices.{Handed, chosen_by};
ghost use Rattle.iox_negotiate_machine.specs.CallLaws.{CreateMatches, OpenMatches, OpenOrCreateMatches};
ghost use Rattle.iox_negotiate_machine.specs.CloseLaws.{CloseMatches};
ghost use Rattle.iox_negotiate_machine.specs.FactoryLaws.{OpenIsPublished, FewAreOpen};
ghost use Rattle.iox_negotiate_machine.specs.Laws.{NewTableStands, ForeignStepsMatch, ForeignMatches};
ghost use Rattle.iox_negotiate_machine.specs.LookLaws.{LookMatches};

use iox_domain_values::{Decides, Degrades};

/// An empty table represents the phases of a new machine, whatever names are asked for.
pub fn new_table_stands<T>()
    ensures { NewTableStands T }
{}

/// Actions of other nodes change the phase of their pattern and name as the machine says, and no other phase changes. If one runs out of
/// memory, those before it stay done. Numbers for locks must be left, and what is published must have the form of a description, as each
/// description that the code makes (`iox_negotiate::laws::parts_have_form`).
pub fn foreign_steps_match<T>()
    ensures { ForeignStepsMatch T }
{}

/// The reply to a command that names actions of other nodes is one that the machine may give.
pub fn foreign_command_matches<T: Default, B: Decides + Degrades, D: Degrades>()
    ensures { (handed : Handed B D) → ForeignMatches T (chosen_by T.is_default (λ who. B.decides who) (λ who. B.degrades who)
        (λ who. D.degrades who) handed) }
{}

/// A lookup under a pattern and name finds the phase that the machine has there: nothing; a service that is being made; or the
/// agreement, under the number that was taken last, unless memory runs out. It never finds a description that can't be read.
pub fn look_matches<T>()
    ensures { LookMatches T }
{}

/// A builder that creates a service over a table does what the machine does. It refuses impossible settings before the lookup, a service
/// that exists or is being made before the lock, and a service that another node began between lookup and lock at the lock. The actions of
/// other nodes that are named before a storage operation are done before it. Whether the service is new, or why it isn't created, is the
/// machine's answer; a created service is published under the number that was taken last, and the node is registered in it. Premises:
/// numbers for locks are left, no two services of the names share a hash, what the actions before the first sixteen storage operations
/// publish has the form of a description, and the lists of actions are those that are named.
pub fn create_matches<T, E>()
    ensures { CreateMatches T E }
{}

/// A builder that opens a service over a table, if the service meets what is asked, does what the machine does, in at most five
/// rounds: it looks the service up, and the node registers in the lifetime that it saw. Whether a service was opened, or why it
/// wasn't, is the machine's answer; an opened service is published under the number that was taken last, and the node is registered
/// in it. The premises are those of a creation; moreover the description must be judged as the agreement that it describes, and the
/// node must have fewer than 2 ^ 64 - 1 factories of the service.
pub fn open_matches<T, V, E>()
    ensures { OpenMatches T V E }
{}

/// A builder that opens a service over a table, or creates it if it doesn't exist, does what the machine does: a lock of another node, or a
/// service that another node published meanwhile, leads to the next round. The premises are those of an opening, and a number must be left
/// for the builder's own lock.
pub fn open_or_create_matches<T, V, E>()
    ensures { OpenOrCreateMatches T V E }
{}

/// A factory is closed over a table as the machine closes it, and the close succeeds: the node has one factory fewer, and is no
/// longer registered after its last one; the last node removes description and segment. The node must be registered in the service
/// that is published under this number.
pub fn close_matches<T>()
    ensures { CloseMatches T }
{}

/// A service that is open for a node in a table is published in the machine, and the node is registered in it: so the premise of
/// `close_matches` holds of each open factory (`iox_negotiate::whole_calls::open_factories_stand`).
pub fn open_is_published<T>()
    ensures { OpenIsPublished T }
{}

/// Each node may get one factory more of any service if the table counts exactly the open factories, which it does after any calls
/// (`iox_negotiate::whole_calls::factories_are_counted`), and they are fewer than 2 ^ 64 - 1: so the premise of `open_matches` holds.
pub fn few_are_open<T>()
    ensures { FewAreOpen T }
{}
