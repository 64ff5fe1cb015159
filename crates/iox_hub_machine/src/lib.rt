//! A hub does what a machine does: theorems that relate the definitions of `iox_hub_commands` to those of `iox_machine`.
//!
//! The functions here do nothing: the contract of each is a theorem about the definitions. `PortsStandFor` says which state of a machine
//! the ports of a hub represent, with the numbered loans and samples, and `HubStandsFor` which state a whole hub represents. Each theorem
//! is about one command: if a hub represents a state, and replies to the command, the machine may give the same reply, and the hub
//! represents the state that the machine reaches by it. A proof cites a theorem by a call of its function; the statement is then among the
//! facts of the caller:
//!
//! ```
//! making_a_node_matches::<u64, (), FixedHandlers, FixedDegradation>();
//! ```
//!
//! `runs` has the consequences: the replies of a run are those that a machine may give, and the hub represents the machine's state then.
#![tactic(auto)]

pub mod runs;
pub mod typed;

ghost use Rattle.std.specs.Prelude.{Option};
ghost use Rattle.iox_hub_commands.specs.DomainValues.declared.backpressure.BackpressureAction.{BackpressureAction};
ghost use Rattle.iox_hub_commands.specs.DomainValues.declared.backpressure_strategy.BackpressureStrategy.{BackpressureStrategy};
ghost use Rattle.iox_hub_commands.specs.DomainValues.declared.degradation.DegradationAction.{DegradationAction};
ghost use Rattle.iox_hub_commands.specs.Terms.{terms_of};
ghost use Rattle.iox_machine.specs.Choices.{Handed, chosen_by};
ghost use Rattle.iox_hub_machine.specs.ArrivalLaws.{AnswersAsFixed, DecidesAsFixed, SubscriberComingIsFollowed};
ghost use Rattle.iox_hub_machine.specs.ArrivalLaws.{PublisherComingIsFollowed};
ghost use Rattle.iox_hub_machine.specs.ClosingLaws.{ClosingMatches};
ghost use Rattle.iox_hub_machine.specs.CreateLaws.{CreateMatches};
ghost use Rattle.iox_hub_machine.specs.Laws.{SetIsSimulated, FillIsSimulated, ReadIsSimulated, DropIsSimulated, ReleaseIsSimulated};
ghost use Rattle.iox_hub_machine.specs.Laws.{GiveUpIsSimulated, SequenceIsSimulated};
ghost use Rattle.iox_hub_machine.specs.ReceiveLaws.{PublisherUpdateIsSimulated, SubscriberUpdateIsSimulated, HasIsSimulated};
ghost use Rattle.iox_hub_machine.specs.ReceiveLaws.{ReceiveIsSimulated};
ghost use Rattle.iox_hub_machine.specs.SendLaws.{RetryIsSimulated, SendIsSimulated, PutIsSimulated};
ghost use Rattle.iox_hub_machine.specs.LeavingLaws.{PublisherLeaveIsSimulated, SubscriberLeaveIsSimulated};
ghost use Rattle.iox_hub_machine.specs.LoanLaws.{LendUninitIsSimulated, LendIsSimulated};
ghost use Rattle.iox_hub_machine.specs.OpenLaws.{OpeningMatches, OpeningOrCreatingMatches};
ghost use Rattle.iox_hub_machine.specs.ServiceLaws.{ListsAreNamed, NewHubStands, NodeMatches, ForeignMatches, SkippedMatches};

use iox_describe_base::ZeroCopySend;
use iox_domain_values::{Decides, DegradationHandler, Degrades, Handlers};
use iox_hub_commands::{FixedDegradation, FixedHandlers, PublisherHandlers, SubscriberHandler};

/// Writing a value at a place of a numbered loan is a step of the machine. Nothing happens if the loan isn't written or doesn't have this
/// place, or if the number has no loan.
pub fn setting_a_value_is_simulated<T: Default, U: Default, B: Decides + Degrades, D: Degrades>()
    ensures { (handed : Handed B D) → SetIsSimulated (chosen_by T.is_default (λ handlers. B.decides handlers)
        (λ handlers. B.degrades handlers) (λ handler. D.degrades handler) handed) U.is_default (λ handlers. B.degrades handlers)
        (λ handlers. B.decides handlers)
        (λ handler. D.degrades handler) }
{}

/// Writing all values of a numbered loan at once is a step of the machine. Nothing happens if the loan has another number of values, or if
/// the number has no loan.
pub fn filling_a_loan_is_simulated<T: Default, U: Default, B: Decides + Degrades, D: Degrades>()
    ensures { (handed : Handed B D) → FillIsSimulated (chosen_by T.is_default (λ handlers. B.decides handlers)
        (λ handlers. B.degrades handlers) (λ handler. D.degrades handler) handed) U.is_default (λ handlers. B.degrades handlers)
        (λ handlers. B.decides handlers)
        (λ handler. D.degrades handler) }
{}

/// Reading a numbered sample is a step of the machine, and changes nothing. Nothing is read if the number has no sample.
pub fn reading_is_simulated<T: Default, U: Default, B: Decides + Degrades, D: Degrades>()
    ensures { (handed : Handed B D) → ReadIsSimulated (chosen_by T.is_default (λ handlers. B.decides handlers)
        (λ handlers. B.degrades handlers) (λ handler. D.degrades handler) handed) U.is_default (λ handlers. B.degrades handlers)
        (λ handlers. B.decides handlers)
        (λ handler. D.degrades handler) }
{}

/// Reporting the sequence number of a numbered sample's message, if its service numbers messages, is a step of the machine, and changes
/// nothing. Nothing is reported if the number has no sample.
pub fn telling_a_sequence_number_is_simulated<
    T: Default,
    U: Default,
    B: Decides + Degrades,
    D: Degrades,
>()
    ensures { (handed : Handed B D) → SequenceIsSimulated (chosen_by T.is_default (λ handlers. B.decides handlers)
        (λ handlers. B.degrades handlers) (λ handler. D.degrades handler) handed) U.is_default (λ handlers. B.degrades handlers)
        (λ handlers. B.decides handlers)
        (λ handler. D.degrades handler) }
{}

/// Dropping a numbered loan, whose number then names nothing any longer, is a step of the machine. Nothing happens if the number has no
/// loan. Premise: the domains of the hub have grown by calls of ports, as `NumberedHub::new` and `NumberedHub::step` say of each hub.
pub fn dropping_a_loan_is_simulated<T: Default, U: Default, B: Decides + Degrades, D: Degrades>()
    ensures { (handed : Handed B D) → DropIsSimulated (chosen_by T.is_default (λ handlers. B.decides handlers)
        (λ handlers. B.degrades handlers) (λ handler. D.degrades handler) handed) U.is_default (λ handlers. B.degrades handlers)
        (λ handlers. B.decides handlers)
        (λ handler. D.degrades handler) }
{}

/// Releasing a numbered sample, whose number then names nothing any longer, is a step of the machine. Nothing happens if the number has no
/// sample. Premise: the domains of the hub have grown by calls of ports, as `NumberedHub::new` and `NumberedHub::step` say of each hub.
pub fn releasing_a_sample_is_simulated<T: Default, U: Default, B: Decides + Degrades, D: Degrades>()
    ensures { (handed : Handed B D) → ReleaseIsSimulated (chosen_by T.is_default (λ handlers. B.decides handlers)
        (λ handlers. B.degrades handlers) (λ handler. D.degrades handler) handed) U.is_default (λ handlers. B.degrades handlers)
        (λ handlers. B.decides handlers)
        (λ handler. D.degrades handler) }
{}

/// Giving up the blocked send of a numbered publisher is a step of the machine; the reply says how many mailboxes took its message. Nothing
/// happens if no send is blocked, or if the number has no publisher.
pub fn giving_up_a_send_is_simulated<T: Default, U: Default, B: Decides + Degrades, D: Degrades>()
    ensures { (handed : Handed B D) → GiveUpIsSimulated (chosen_by T.is_default (λ handlers. B.decides handlers)
        (λ handlers. B.degrades handlers) (λ handler. D.degrades handler) handed) U.is_default (λ handlers. B.degrades handlers)
        (λ handlers. B.decides handlers)
        (λ handler. D.degrades handler) }
{}

/// Trying the blocked send of a numbered publisher again is a step of the machine. Nothing happens if no send is blocked, or if the number
/// has no publisher. Premise: the domains of the hub have grown by calls of ports, as `NumberedHub::new` and `NumberedHub::step` say of
/// each hub.
pub fn retrying_a_send_is_simulated<T: Default, U: Default, B: Decides + Degrades, D: Degrades>()
    ensures { (handed : Handed B D) → RetryIsSimulated (chosen_by T.is_default (λ handlers. B.decides handlers)
        (λ handlers. B.degrades handlers) (λ handler. D.degrades handler) handed) U.is_default (λ handlers. B.degrades handlers)
        (λ handlers. B.decides handlers)
        (λ handler. D.degrades handler) }
{}

/// Sending a numbered loan, whose number then names nothing any longer, is a step of the machine, if the loan is written and no send of its
/// publisher is blocked. Nothing happens otherwise, nor if the number has no loan. The publisher updates its connections first, if the list
/// of subscribers changed. Premise: the domains of the hub have grown by calls of ports, as `NumberedHub::new` and `NumberedHub::step` say
/// of each hub.
pub fn sending_a_loan_is_simulated<T: Default, U: Default, B: Decides + Degrades, D: Degrades>()
    ensures { (handed : Handed B D) → SendIsSimulated (chosen_by T.is_default (λ handlers. B.decides handlers)
        (λ handlers. B.degrades handlers) (λ handler. D.degrades handler) handed) U.is_default (λ handlers. B.degrades handlers)
        (λ handlers. B.decides handlers)
        (λ handler. D.degrades handler) }
{}

/// Loaning values of a numbered publisher, writing and sending them at once is a step of the machine, and so is its refusal. Nothing
/// happens if a send of the publisher is blocked, or if the number has no publisher. Premise: the domains of the hub have grown by calls of
/// ports, as `NumberedHub::new` and `NumberedHub::step` say of each hub.
pub fn putting_is_simulated<T: Default, U: Default, B: Decides + Degrades, D: Degrades>()
    ensures { (handed : Handed B D) → PutIsSimulated (chosen_by T.is_default (λ handlers. B.decides handlers)
        (λ handlers. B.degrades handlers) (λ handler. D.degrades handler) handed) U.is_default (λ handlers. B.degrades handlers)
        (λ handlers. B.decides handlers)
        (λ handler. D.degrades handler) }
{}

/// Updating the connections of a numbered publisher is a step of the machine: those to closed subscribers end, and each listed subscriber
/// gets one, with as much of the history as may wait, unless memory runs out for it. The command is skipped if a send of the publisher is
/// blocked, and if the number has no publisher. Premise: the domains of the hub have grown by calls of ports, as `NumberedHub::new` and
/// `NumberedHub::step` say of each hub.
pub fn updating_a_publisher_is_simulated<
    T: Default,
    U: Default,
    B: Decides + Degrades,
    D: Degrades,
>()
    ensures { (handed : Handed B D) → PublisherUpdateIsSimulated (chosen_by T.is_default (λ handlers. B.decides handlers)
        (λ handlers. B.degrades handlers) (λ handler. D.degrades handler) handed) U.is_default (λ handlers. B.degrades handlers)
        (λ handlers. B.decides handlers)
        (λ handler. D.degrades handler) }
{}

/// Updating the connections of a numbered subscriber is a step of the machine: those to closed publishers end or expire, and the subscriber
/// is connected to the listed ones, or the connection fails. The command is skipped if the number has no subscriber. Premise: the domains
/// of the hub have grown by calls of ports, as `NumberedHub::new` and `NumberedHub::step` say of each hub.
pub fn updating_a_subscriber_is_simulated<
    T: Default,
    U: Default,
    B: Decides + Degrades,
    D: Degrades,
>()
    ensures { (handed : Handed B D) → SubscriberUpdateIsSimulated (chosen_by T.is_default (λ handlers. B.decides handlers)
        (λ handlers. B.degrades handlers) (λ handler. D.degrades handler) handed) U.is_default (λ handlers. B.degrades handlers)
        (λ handlers. B.decides handlers)
        (λ handler. D.degrades handler) }
{}

/// Reporting whether some connection of a numbered subscriber has data, after an update of its connections, is a step of the machine. The
/// command is skipped if the number has no subscriber. Premise: the domains of the hub have grown by calls of ports, as `NumberedHub::new`
/// and `NumberedHub::step` say of each hub.
pub fn asking_for_samples_is_simulated<T: Default, U: Default, B: Decides + Degrades, D: Degrades>()
    ensures { (handed : Handed B D) → HasIsSimulated (chosen_by T.is_default (λ handlers. B.decides handlers)
        (λ handlers. B.degrades handlers) (λ handler. D.degrades handler) handed) U.is_default (λ handlers. B.degrades handlers)
        (λ handlers. B.decides handlers)
        (λ handler. D.degrades handler) }
{}

/// Receiving by a numbered subscriber, after an update of its connections, is a step of the machine: a received sample gets the next
/// number, and the reply has its values; otherwise the reply says why there is none. The command is skipped if the number has no
/// subscriber. Premises: the domains of the hub have grown by calls of ports, and its numbers rise, as `NumberedHub::new` and
/// `NumberedHub::run` say of each hub; and the next number of a sample is less than 2 ^ 64. From these it follows that a subscriber holds
/// fewer than 2 ^ 64 - 1 samples, and that the next number names nothing.
pub fn receiving_is_simulated<T: Default, U: Default, B: Decides + Degrades, D: Degrades>()
    ensures { (handed : Handed B D) → ReceiveIsSimulated (chosen_by T.is_default (λ handlers. B.decides handlers)
        (λ handlers. B.degrades handlers) (λ handler. D.degrades handler) handed) U.is_default (λ handlers. B.degrades handlers)
        (λ handlers. B.decides handlers)
        (λ handler. D.degrades handler) }
{}

/// The lists of actions that a hub makes of those that a command names are the ones that the theorems about calls over a table require
/// (`iox_negotiate_machine::create_matches`, `open_matches`, `open_or_create_matches`).
pub fn lists_are_named()
    ensures { ListsAreNamed }
{}

/// A new hub represents a new machine, whatever names are asked for.
pub fn new_hub_stands<T: Default, U, B: PublisherHandlers, D: SubscriberHandler>()
    ensures { (handed : Handed B D) → NewHubStands T U (chosen_by T.is_default (λ handlers. B.decides handlers)
        (λ handlers. B.degrades handlers) (λ handler. D.degrades handler) handed) (λ handlers. B.degrades handlers)
        (λ handlers. B.decides handlers) (λ handler. D.degrades handler) }
{}

/// Making a node is a step of the machine. Fewer than 2 ^ 64 - 1 nodes must have been made.
pub fn making_a_node_matches<
    T: ZeroCopySend + Default,
    U: ZeroCopySend + Default,
    B: PublisherHandlers,
    D: SubscriberHandler,
>()
    ensures { (handed : Handed B D) → NodeMatches (terms_of T.name T.size T.alignment T.is_default U.name U.size U.alignment U.is_default
        B.fixed (λ handlers. B.degrades handlers) (λ handlers. B.decides handlers) D.fixed (λ handler. D.degrades handler))
        (chosen_by T.is_default (λ handlers. B.decides handlers) (λ handlers. B.degrades handlers) (λ handler. D.degrades handler) handed) }
{}

/// Actions of other nodes under a name that is asked for are a step of the machine: they do to the hub's table what the machine says, and
/// the rest of the hub represents the same as before. No two services of the names that are asked for may share a hash, and numbers must be
/// left for as many locks as there are actions.
pub fn steps_of_others_match<
    T: ZeroCopySend + Default,
    U: ZeroCopySend + Default,
    B: PublisherHandlers,
    D: SubscriberHandler,
>()
    ensures { (handed : Handed B D)
        → ForeignMatches (terms_of T.name T.size T.alignment T.is_default U.name U.size U.alignment U.is_default B.fixed
        (λ handlers. B.degrades handlers) (λ handlers. B.decides handlers) D.fixed (λ handler. D.degrades handler))
        (chosen_by T.is_default (λ handlers. B.decides handlers) (λ handlers. B.degrades handlers) (λ handler. D.degrades handler) handed) }
{}

/// If a hub skips a creation, an opening, or the closing of a factory, since it has no node or no factory with the number, the machine
/// skips it, too.
pub fn skipped_commands_match<
    T: ZeroCopySend + Default,
    U: ZeroCopySend + Default,
    B: PublisherHandlers,
    D: SubscriberHandler,
>()
    ensures { (handed : Handed B D)
        → SkippedMatches (terms_of T.name T.size T.alignment T.is_default U.name U.size U.alignment U.is_default B.fixed
        (λ handlers. B.degrades handlers) (λ handlers. B.decides handlers) D.fixed (λ handler. D.degrades handler))
        (chosen_by T.is_default (λ handlers. B.decides handlers) (λ handlers. B.degrades handlers) (λ handler. D.degrades handler) handed) }
{}

/// Handlers that are only fixed actions decide by these: the first premise of the theorems about creating ports.
pub fn fixed_actions_are_answered()
    ensures publisher { DecidesAsFixed ⟦<FixedHandlers as PublisherHandlers>⟧.fixed ⟦<FixedHandlers as Degrades>⟧.degrades
        ⟦<FixedHandlers as Decides>⟧.decides }
    ensures subscriber { AnswersAsFixed ⟦<FixedDegradation as SubscriberHandler>⟧.fixed ⟦<FixedDegradation as Degrades>⟧.degrades }
{}

/// `Handlers` and `DegradationHandler`, which could decide otherwise, decide by fixed actions if they are made of fixed actions, as they
/// are for each port that a command creates. Of the arguments only the types matter.
pub fn handlers_of_actions_are_answered(_handlers: &Handlers, _handler: &DegradationHandler)
    ensures publisher { DecidesAsFixed ⟦<Handlers as PublisherHandlers>⟧.fixed ⟦<Handlers as Degrades>⟧.degrades
        ⟦<Handlers as Decides>⟧.decides }
    ensures subscriber { AnswersAsFixed ⟦<DegradationHandler as SubscriberHandler>⟧.fixed ⟦<DegradationHandler as Degrades>⟧.degrades }
{}

/// Creating a subscriber by a numbered factory of the hub is a step of the machine: the subscriber gets the next number; or it is refused
/// if the machine's is; or the command is skipped if the hub has no factory with the number, or one of another pattern. Premises: whatever
/// the subscriber's handler may answer, handed in or made of the named action, may be chosen for the subscriber with the number that it
/// gets; the domains of the hub have grown by calls of ports, and each of its services has one agreement, as `NumberedHub::new` and
/// `NumberedHub::step` say of each hub; and each service can count one more port, and one more change of each of its port lists.
pub fn coming_of_a_subscriber_is_followed<
    T: ZeroCopySend + Default,
    U: ZeroCopySend + Default,
    B: Decides + Degrades,
    D: Degrades,
>()
    ensures { (handed : Handed B D)
        (fixed : BackpressureStrategy → Option BackpressureAction → DegradationAction → B) (fixed_reader : DegradationAction → D)
        → SubscriberComingIsFollowed (terms_of T.name T.size T.alignment T.is_default U.name U.size U.alignment U.is_default fixed
        (λ handlers. B.degrades handlers) (λ handlers. B.decides handlers) fixed_reader (λ handler. D.degrades handler))
        (chosen_by T.is_default (λ handlers. B.decides handlers) (λ handlers. B.degrades handlers) (λ handler. D.degrades handler) handed) }
{}

/// Creating a publisher by a numbered factory of the hub is a step of the machine: the publisher gets the next number; or it is refused if
/// the machine's is; or the command is skipped if the hub has no factory with the number, or one of another pattern. The publisher gets the
/// slots that the command names, or those that it needs. Premises: its handlers are handed in, or made of what the command names, and the
/// machine may choose whatever they may decide and answer for the publisher with the number that it gets; the domains of the hub have grown
/// by calls of ports, and each of its services has one agreement, as `NumberedHub::new` and `NumberedHub::step` say of each hub; and each
/// service can count one more port, and one more change of each of its port lists.
pub fn coming_of_a_publisher_is_followed<
    T: ZeroCopySend + Default,
    U: ZeroCopySend + Default,
    B: Decides + Degrades,
    D: Degrades,
>()
    ensures { (handed : Handed B D)
        (fixed : BackpressureStrategy → Option BackpressureAction → DegradationAction → B) (fixed_reader : DegradationAction → D)
        → PublisherComingIsFollowed (terms_of T.name T.size T.alignment T.is_default U.name U.size U.alignment U.is_default fixed
        (λ handlers. B.degrades handlers) (λ handlers. B.decides handlers) fixed_reader (λ handler. D.degrades handler))
        (chosen_by T.is_default (λ handlers. B.decides handlers) (λ handlers. B.degrades handlers) (λ handler. D.degrades handler) handed) }
{}

/// Loaning this many values of a numbered publisher, none of which is written, is a step of the machine: the loan gets the next number, or
/// is refused. Nothing happens if a send of the publisher is blocked, or if the number has no publisher. Premise: the domains of the hub
/// have grown by calls of ports, and its numbers rise, as `NumberedHub::new` and `NumberedHub::run` say of each hub.
pub fn lending_uninit_is_simulated<T: Default, U: Default, B: Decides + Degrades, D: Degrades>()
    ensures { (handed : Handed B D) → LendUninitIsSimulated (chosen_by T.is_default (λ handlers. B.decides handlers)
        (λ handlers. B.degrades handlers) (λ handler. D.degrades handler) handed) U.is_default (λ handlers. B.degrades handlers)
        (λ handlers. B.decides handlers)
        (λ handler. D.degrades handler) }
{}

/// Loaning this many values of a numbered publisher, each written with a default value, is a step of the machine: the loan gets the next
/// number, or is refused. Nothing happens if a send of the publisher is blocked, or if the number has no publisher. Premise: the domains of
/// the hub have grown by calls of ports, and its numbers rise, as `NumberedHub::new` and `NumberedHub::run` say of each hub.
pub fn lending_is_simulated<T: Default, U: Default, B: Decides + Degrades, D: Degrades>()
    ensures { (handed : Handed B D) → LendIsSimulated (chosen_by T.is_default (λ handlers. B.decides handlers)
        (λ handlers. B.degrades handlers) (λ handler. D.degrades handler) handed) U.is_default (λ handlers. B.degrades handlers)
        (λ handlers. B.decides handlers)
        (λ handler. D.degrades handler) }
{}

/// Closing a numbered publisher, whose number then names nothing any longer, is a step of the machine. Nothing happens if a send of the
/// publisher is blocked, or if the number has no publisher. Premises: the domains of the hub have grown by calls of ports, and its numbers
/// rise, as `NumberedHub::new` and `NumberedHub::run` say of each hub; and the port lists of each domain changed fewer than 2^64 - 1 times.
pub fn leaving_of_a_publisher_is_simulated<
    T: Default,
    U: Default,
    B: Decides + Degrades,
    D: Degrades,
>()
    ensures { (handed : Handed B D) → PublisherLeaveIsSimulated (chosen_by T.is_default (λ handlers. B.decides handlers)
        (λ handlers. B.degrades handlers) (λ handler. D.degrades handler) handed) U.is_default (λ handlers. B.degrades handlers)
        (λ handlers. B.decides handlers)
        (λ handler. D.degrades handler) }
{}

/// Closing a numbered subscriber, whose number then names nothing any longer, is a step of the machine. Nothing happens if the number has
/// no subscriber. Premises: the domains of the hub have grown by calls of ports, and its numbers rise, as `NumberedHub::new` and
/// `NumberedHub::run` say of each hub; and the port lists of each domain changed fewer than 2^64 - 1 times.
pub fn leaving_of_a_subscriber_is_simulated<
    T: Default,
    U: Default,
    B: Decides + Degrades,
    D: Degrades,
>()
    ensures { (handed : Handed B D) → SubscriberLeaveIsSimulated (chosen_by T.is_default (λ handlers. B.decides handlers)
        (λ handlers. B.degrades handlers) (λ handler. D.degrades handler) handed) U.is_default (λ handlers. B.degrades handlers)
        (λ handlers. B.decides handlers)
        (λ handler. D.degrades handler) }
{}

/// Creating a service under a name that is asked for, as options ask and with these attributes, is a step of the machine: the node is
/// refused, or gets a factory, exactly as the machine says, and the hub then represents the machine's state; a publish-subscribe service
/// that is created has a new domain. Premises: no two services of the names that are asked for share a hash; the numbers of factories rise,
/// as `NumberedHub::new` and `NumberedHub::run` say of each hub, and fewer than 2 ^ 64 - 2 of them were given; and numbers are left for as
/// many locks as other nodes may take meanwhile, and for one more.
pub fn creating_matches<
    T: ZeroCopySend + Default,
    U: ZeroCopySend + Default,
    B: PublisherHandlers,
    D: SubscriberHandler,
>()
    ensures { (handed : Handed B D)
        → CreateMatches (terms_of T.name T.size T.alignment T.is_default U.name U.size U.alignment U.is_default B.fixed
        (λ handlers. B.degrades handlers) (λ handlers. B.decides handlers) D.fixed (λ handler. D.degrades handler))
        (chosen_by T.is_default (λ handlers. B.decides handlers) (λ handlers. B.degrades handlers) (λ handler. D.degrades handler) handed) }
{}

/// Opening a service by a name that is asked for, if it meets what is asked for, is a step of the machine: the hub replies as the machine
/// may, and then represents the machine's state. This holds if the service is refused, if memory runs out, and if it is opened, whether or
/// not the hub had it open before. Premises: no two services of the names that are asked for share a hash; the numbers of factories rise,
/// as `NumberedHub::new` and `NumberedHub::run` say of each hub; and numbers are left for the new factory, and for as many locks as there
/// are actions of other nodes.
pub fn opening_matches<
    T: ZeroCopySend + Default,
    U: ZeroCopySend + Default,
    B: PublisherHandlers,
    D: SubscriberHandler,
>()
    ensures { (handed : Handed B D)
        → OpeningMatches (terms_of T.name T.size T.alignment T.is_default U.name U.size U.alignment U.is_default B.fixed
        (λ handlers. B.degrades handlers) (λ handlers. B.decides handlers) D.fixed (λ handler. D.degrades handler))
        (chosen_by T.is_default (λ handlers. B.decides handlers) (λ handlers. B.degrades handlers) (λ handler. D.degrades handler) handed) }
{}

/// Opening a service, or creating it with the required pairs as its attributes if it doesn't exist, is a step of the machine. The premises
/// are those of an opening, and a number must be left for the service's own lock.
pub fn opening_or_creating_matches<
    T: ZeroCopySend + Default,
    U: ZeroCopySend + Default,
    B: PublisherHandlers,
    D: SubscriberHandler,
>()
    ensures { (handed : Handed B D)
        → OpeningOrCreatingMatches (terms_of T.name T.size T.alignment T.is_default U.name U.size U.alignment U.is_default B.fixed
        (λ handlers. B.degrades handlers) (λ handlers. B.decides handlers) D.fixed (λ handler. D.degrades handler))
        (chosen_by T.is_default (λ handlers. B.decides handlers) (λ handlers. B.degrades handlers) (λ handler. D.degrades handler) handed) }
{}

/// Closing a factory is a step of the machine, and so is the refusal to close one that is in use. When the last factory of a
/// publish-subscribe service is closed, its ports end. Premises: each service of the hub has one agreement, as `NumberedHub::new` and
/// `NumberedHub::step` say of each hub; no two services of the hub have the same number, and the factories of a service are counted once,
/// since these numbers rise in each hub after a run (`StandsAfter`); no two services of the names that are asked for share a hash; and a
/// run of a new machine reached the state that the hub represents.
pub fn closing_matches<
    T: ZeroCopySend + Default,
    U: ZeroCopySend + Default,
    B: PublisherHandlers,
    D: SubscriberHandler,
>()
    ensures { (handed : Handed B D)
        → ClosingMatches (terms_of T.name T.size T.alignment T.is_default U.name U.size U.alignment U.is_default B.fixed
        (λ handlers. B.degrades handlers) (λ handlers. B.decides handlers) D.fixed (λ handler. D.degrades handler))
        (chosen_by T.is_default (λ handlers. B.decides handlers) (λ handlers. B.degrades handlers) (λ handler. D.degrades handler) handed) }
{}
