//! Theorems: lanes whose calls don't overlap do what a service of the machine does. They relate the definitions of lanes to those of
//! `iox_machine`.
//!
//! `LanesStandFor` says which service of the machine lanes represent between calls, and under which names. Each theorem is about one kind
//! of call: if lanes represent a service, and a call runs alone from its beginning to its end, then a machine that has only this service
//! can do the command that corresponds to the call, with the same answer, and afterwards has a service that the lanes represent. Sends and
//! receives of the machine begin with an update; lanes need none, since no list of ports changes there.
//!
//! [`LanesInTurn`] are lanes that make one whole call after the other. They record, for proofs only, which commands were asked and what was
//! answered: a run of the machine, stated without lanes. A call that fits is answered, unless memory or steps ran out ([`RanOut`]).
//!
//! The functions here do nothing; the contract of each is a theorem. A proof uses a theorem by calling its function; then the theorem is
//! among the facts that the caller knows:
//!
//! ```
//! subscribers_take_steps::<u64, Handlers, DegradationHandler>();
//! ```
#![tactic(auto)]

ghost use Rattle.std.specs.Prelude.{ℕ, List};
ghost use Rattle.iox_command.specs.NegotiateBase.DescribeBase.declared.message_type.MessageTypeDetails.{MessageTypeDetails};
ghost use Rattle.iox_machine.specs.Choices.{Handed, chosen_by};
ghost use Rattle.iox_lanes_service.specs.Laws.{NumbersAreTold, ReceivesAreSteps, ReadsAreSteps, ReleasesAreSteps, WritesAreSteps};
ghost use Rattle.iox_lanes_service.specs.Laws.{DropsAreSteps};
ghost use Rattle.iox_lanes_service.specs.InTurn.{TurnsBegin};
ghost use Rattle.iox_lanes_service.specs.NewLanes.{NewLanesStand};
ghost use Rattle.iox_lanes_service.specs.Laws.{LoansAreSteps, SendsAreSteps};
ghost use Rattle.iox_lanes_service.specs.TurnLaws.{TurnsAreRuns};

mod history;
pub mod in_turn;
pub mod number;
mod seen;
mod turn;

pub use in_turn::{LanesInTurn, RanOut, TurnLoan, TurnSample};
use iox_domain_values::{Decides, Degrades};

/// Lanes that were just made represent a service where at least as many ports were created, with the same sizes, if the ports are connected
/// and nothing was loaned or sent yet. If mailboxes don't overflow, the service's publishers must be allowed to skip full mailboxes.
pub fn new_lanes_stand<T: Default, B: Decides + Degrades, D: Degrades>()
    ensures { (handed : Handed B D) (value : List ℕ → T) → NewLanesStand (chosen_by T.is_default
        (λ who. B.decides who) (λ who. B.degrades who) (λ who. D.degrades who) handed) value }
{}

/// A receive, a read and a release that no other call overlaps are steps of the machine's service that the lanes represent. A sample that
/// is taken gets the next number, which no sample has yet. A read returns the value that the machine answers, one for each message, and the
/// sequence number that the machine reports, if messages have one. The step doesn't say from which place a receive took. This holds as long
/// as at most 2^63 steps were made.
pub fn subscribers_take_steps<T: Default, B: Decides + Degrades, D: Degrades>()
    ensures receives { (handed : Handed B D) (value : List ℕ → T) (types : MessageTypeDetails) (buffer : ℕ)
        → ReceivesAreSteps (chosen_by T.is_default (λ who. B.decides who) (λ who. B.degrades who)
        (λ who. D.degrades who) handed) value types buffer }
    ensures reads { (handed : Handed B D) (value : List ℕ → T) (types : MessageTypeDetails) (buffer : ℕ)
        → ReadsAreSteps (chosen_by T.is_default (λ who. B.decides who) (λ who. B.degrades who)
        (λ who. D.degrades who) handed) value types buffer }
    ensures numbers { (handed : Handed B D) (value : List ℕ → T) (types : MessageTypeDetails) (buffer : ℕ)
        → NumbersAreTold (chosen_by T.is_default (λ who. B.decides who) (λ who. B.degrades who)
        (λ who. D.degrades who) handed) value types buffer }
    ensures releases { (handed : Handed B D) (value : List ℕ → T) (types : MessageTypeDetails) (buffer : ℕ)
        → ReleasesAreSteps (chosen_by T.is_default (λ who. B.decides who) (λ who. B.degrades who)
        (λ who. D.degrades who) handed) value types buffer }
{}

/// A loan, a write, a send and the dropping of a loan that no other call overlaps are steps of the machine's service that the lanes
/// represent. A loan gets the next number, which no loan has yet, for slots with numbers less than 2^64. A write fills its loan with the
/// value of its words. A send finds nothing new in the list of subscribers, and skips each full mailbox, with or without failing: the
/// machine's publisher must be allowed to decide so, if mailboxes don't overflow. The message gets the same sequence number as in the
/// machine, if messages have one. What else is in headers and user headers isn't part of a step, nor is how many mailboxes refused a
/// message. This holds as long as at most 2^63 steps were made.
pub fn publishers_take_steps<T: Default, B: Decides + Degrades, D: Degrades>()
    ensures loans { (handed : Handed B D) (value : List ℕ → T) (types : MessageTypeDetails) (buffer : ℕ)
        → LoansAreSteps (chosen_by T.is_default (λ who. B.decides who) (λ who. B.degrades who)
        (λ who. D.degrades who) handed) value types buffer }
    ensures writes { (handed : Handed B D) (value : List ℕ → T) (types : MessageTypeDetails) (buffer : ℕ)
        → WritesAreSteps (chosen_by T.is_default (λ who. B.decides who) (λ who. B.degrades who)
        (λ who. D.degrades who) handed) value types buffer }
    ensures sends { (handed : Handed B D) (value : List ℕ → T) (types : MessageTypeDetails) (buffer : ℕ)
        → SendsAreSteps (chosen_by T.is_default (λ who. B.decides who) (λ who. B.degrades who)
        (λ who. D.degrades who) handed) value types buffer }
    ensures drops { (handed : Handed B D) (value : List ℕ → T) (types : MessageTypeDetails) (buffer : ℕ)
        → DropsAreSteps (chosen_by T.is_default (λ who. B.decides who) (λ who. B.degrades who)
        (λ who. D.degrades who) handed) value types buffer }
{}

/// Whole calls of lanes that don't overlap are a run of the machine: each call is a command, with its reply, and afterwards the lanes
/// represent the service that the machine has. Before, the lanes must represent the machine's one service, no number of a loan or a sample
/// may be larger than the count of those that were made, and there must be fewer than 2^64 slots. This holds as long as at most 2^63 steps
/// were made.
pub fn turns_are_a_run<T: Default, B: Decides + Degrades, D: Degrades>()
    ensures { (handed : Handed B D) (value : List ℕ → T) (types : MessageTypeDetails) (buffer : ℕ)
        → TurnsAreRuns (chosen_by T.is_default (λ who. B.decides who) (λ who. B.degrades who)
        (λ who. D.degrades who) handed) value types buffer }
{}

/// For any sizes there is a state of the machine from which lanes of these sizes go on: it has one service with these sizes, where as many
/// ports were created, and nothing was loaned or sent yet. The theorem doesn't say that a new machine can reach this state.
pub fn turns_begin()
    ensures { TurnsBegin }
{}
