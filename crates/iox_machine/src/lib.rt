//! The machine that specifies a hub: what each command does and replies, in terms of nodes, agreements, and bounded mailboxes of messages
//! that never change. `docs/MACHINE.md` says how to read its definitions, which are in `specs/`.
//!
//! The functions here do nothing: the contract of each is a theorem about the definitions. A proof cites a theorem by a call of its
//! function; the statement is then among the facts of the caller:
//!
//! ```
//! received_was_sent::<u64, Handlers, DegradationHandler>();
//! ```
#![tactic(auto)]

ghost use Rattle.iox_machine.specs.AgreementLaws.{AgreementIsDescribed, AgreementStays, CreatesAsDescribed, LivesStartAnew};
ghost use Rattle.iox_machine.specs.AgreementLaws.{NodesAreAgreed, OneAgreement, ServicesStartEmpty};
ghost use Rattle.iox_machine.specs.AmongLaws.{StepsAmong, UnknownIsSkipped};
ghost use Rattle.iox_machine.specs.Choices.{Handed, chosen_by};
ghost use Rattle.iox_machine.specs.ConnectionLaws.{ConnectedAreJoined, PairsConnectOnce, StandingAreListed};
ghost use Rattle.iox_machine.specs.FollowLaws.{PublisherIsConnected, SubscriberIsConnected};
ghost use Rattle.iox_machine.specs.GoingLaws.{EachIsAnswered};
ghost use Rattle.iox_machine.specs.IndependenceLaws.{NumbersAreCountedAnew, OthersAreLeft, ServicesAreAsIfAlone};
ghost use Rattle.iox_machine.specs.Laws.{PutAtUnknownIsSkipped, OverflowDropsTheOldest};
ghost use Rattle.iox_machine.specs.LossLaws.{GapsHaveCauses};
ghost use Rattle.iox_machine.specs.MessageLaws.{HeldIsRead, OrderIsOfSends, ReceivedInOrder, ReceivedWasSent};
ghost use Rattle.iox_machine.specs.NumberLaws.{NumbersGoUp, NumbersNameOne};
ghost use Rattle.iox_machine.specs.OpeningLaws.{EitherMeetsAsked, OpenedMeetsAsked};
ghost use Rattle.iox_machine.specs.RefusalLaws.{RefusedCallsLeaveNodes, RefusedCallsLeaveSteps, RefusedPortsLeave, RetriesLeave};
ghost use Rattle.iox_machine.specs.RefusalLaws.{UndeliveredLeaves};
ghost use Rattle.iox_machine.specs.OnceLaws.{LoansAreSpentOnce, MessagesGoOnce};
ghost use Rattle.iox_machine.specs.RunLaws.{MessagesAreShort, MessagesWereSent, RefusedCallsLeaveServices, RefusedChangesNothing};
ghost use Rattle.iox_machine.specs.RunLaws.{SamplesReadTheSame, SizesAreAgreed, SkippedChangesNothing};
ghost use Rattle.iox_machine.specs.SequenceLaws.{GapsAreLosses, SequenceStays, SequencesGoUp};
ghost use Rattle.iox_machine.specs.UseLaws.{UseIsOwned};
ghost use Rattle.iox_machine.specs.UpdateLaws.{PublisherIsUpdated, PublisherKeepsMailboxes, SubscriberIsUpdated, SubscriberKeepsMailboxes};

use iox_domain_values::{Decides, Degrades};

pub mod named;
pub mod replies;

/// A new machine skips a put at any publisher; it has no other reply to it, and nothing changes.
pub fn put_at_unknown_is_skipped()
    ensures { PutAtUnknownIsSkipped }
{}

/// A worked script: a new machine may answer it so that the first of three messages is dropped, since two may wait; the other two are
/// received, and then nothing waits.
pub fn overflow_drops_the_oldest()
    ensures { OverflowDropsTheOldest }
{}

/// In every run of a new machine, no more messages wait in a mailbox, are borrowed from it, or are kept as history than the settings of the
/// service allow, and no subscriber has a longer buffer. The lists of ports have exactly as many places as the settings say. Each publisher
/// has the number of slots and the loan limit that follow from the settings and from the command that created it.
pub fn sizes_are_agreed<T: Default, B: Decides + Degrades, D: Degrades>()
    ensures { (handed : Handed B D) → SizesAreAgreed (chosen_by T.is_default (λ who. B.decides who) (λ who. B.degrades who)
        (λ who. D.degrades who) handed) }
{}

/// In every run of a new machine, each message that waits, is borrowed, is kept as history or is held as a sample has the values with which
/// its publisher began to send it, earlier in the run.
pub fn messages_were_sent<T: Default, B: Decides + Degrades, D: Degrades>()
    ensures { (handed : Handed B D) → MessagesWereSent (chosen_by T.is_default (λ who. B.decides who) (λ who. B.degrades who)
        (λ who. D.degrades who) handed) }
{}

/// In every run of a new machine, each message that waits, is borrowed, is kept as history or is held as a sample has fewer than 2^32
/// values. So the values of each message fit in a vector.
pub fn messages_are_short<T: Default, B: Decides + Degrades, D: Degrades>()
    ensures { (handed : Handed B D) → MessagesAreShort (chosen_by T.is_default (λ who. B.decides who) (λ who. B.degrades who)
        (λ who. D.degrades who) handed) }
{}

/// A sample reads the values with which it was received, whichever ports and factories are closed meanwhile.
pub fn samples_read_the_same<T: Default, B: Decides + Degrades, D: Degrades>()
    ensures { (handed : Handed B D) → SamplesReadTheSame (chosen_by T.is_default (λ who. B.decides who) (λ who. B.degrades who)
        (λ who. D.degrades who) handed) }
{}

/// A command that is skipped changes nothing.
pub fn skipped_changes_nothing<T: Default, B: Decides + Degrades, D: Degrades>()
    ensures { (handed : Handed B D) → SkippedChangesNothing (chosen_by T.is_default (λ who. B.decides who) (λ who. B.degrades who)
        (λ who. D.degrades who) handed) }
{}

/// A command that makes a node or a port, loans, or closes a factory changes nothing if it is refused.
pub fn refused_changes_nothing<T: Default, B: Decides + Degrades, D: Degrades>()
    ensures { (handed : Handed B D) → RefusedChangesNothing (chosen_by T.is_default (λ who. B.decides who) (λ who. B.degrades who)
        (λ who. D.degrades who) handed) }
{}

/// A creation, an opening or actions of other nodes that are refused change nothing but the phase of their pattern and name: all factories,
/// services and counts stay.
pub fn refused_calls_leave_services<T: Default, B: Decides + Degrades, D: Degrades>()
    ensures { (handed : Handed B D) → RefusedCallsLeaveServices (chosen_by T.is_default (λ who. B.decides who) (λ who. B.degrades who)
        (λ who. D.degrades who) handed) }
{}

/// In every run of a new machine: a refused creation or opening, while no other node acts, leaves the agreement and the nodes that are in,
/// each with its factories. If the phase was absent it is absent, though a lifetime may have begun and ended.
pub fn refused_calls_leave_nodes<T: Default, B: Decides + Degrades, D: Degrades>()
    ensures { (handed : Handed B D) → RefusedCallsLeaveNodes (chosen_by T.is_default (λ who. B.decides who) (λ who. B.degrades who)
        (λ who. D.degrades who) handed) }
{}

/// In every run of a new machine: a refused creation or opening leaves the phase as the actions of other nodes alone make it: for some
/// number of storage operations of the call, all actions before these storage operations, in order, and some of those before the next one.
/// If the phase was absent then, a lifetime may have begun and ended.
pub fn refused_calls_leave_foreign_steps<T: Default, B: Decides + Degrades, D: Degrades>()
    ensures { (handed : Handed B D) → RefusedCallsLeaveSteps (chosen_by T.is_default (λ who. B.decides who) (λ who. B.degrades who)
        (λ who. D.degrades who) handed) }
{}

/// A send, put, receive, update or look for data that is refused changes only the service that has what it names. Of that service it leaves
/// name, settings, lists, samples and all that is borrowed, and each port, except how far the port follows the other list and what a loan
/// changes. Loans stay, except that a send has consumed its own. If the publisher was connected to a subscriber that is listed, what waits
/// stays, and a mailbox that existed is as it was. This doesn't apply to a send that couldn't deliver, which did all else that a send does.
pub fn a_refused_port_leaves_the_rest<T: Default, B: Decides + Degrades, D: Degrades>()
    ensures { (handed : Handed B D) → RefusedPortsLeave (chosen_by T.is_default (λ who. B.decides who) (λ who. B.degrades who)
        (λ who. D.degrades who) handed) }
{}

/// In every run of a new machine: a send or a put that couldn't deliver has updated its publisher's connections, and has sent its message
/// to all connected subscribers, without safe overflow. The message waits in each mailbox that had capacity, as the last one; each full
/// mailbox is as it was. At least one subscriber with a full mailbox is open and connected to the publisher. The message is the newest of
/// the history, a send has consumed its loan, and all else stays.
pub fn an_undelivered_send_went_to_all_others<T: Default, B: Decides + Degrades, D: Degrades>()
    ensures { (handed : Handed B D) → UndeliveredLeaves (chosen_by T.is_default (λ who. B.decides who) (λ who. B.degrades who)
        (λ who. D.degrades who) handed) }
{}

/// In every run of a new machine: a retry that couldn't deliver has sent its message to all subscribers that were left. Each mailbox with
/// capacity took it, and each full one stays as it was. At least one subscriber didn't get it, now or before the send was blocked; the send
/// is over, and all else stays.
pub fn an_undelivered_retry_went_to_all_left<T: Default, B: Decides + Degrades, D: Degrades>()
    ensures { (handed : Handed B D) → RetriesLeave (chosen_by T.is_default (λ who. B.decides who) (λ who. B.degrades who)
        (λ who. D.degrades who) handed) }
{}

/// In any state, each command has an answer: the machine never gets stuck. For this there must be a default value for loans, the values of
/// each message must fit in a vector, and handlers must always choose something.
pub fn each_command_is_answered<T: Default, B: Decides + Degrades, D: Degrades>()
    ensures { (handed : Handed B D) → EachIsAnswered (chosen_by T.is_default (λ who. B.decides who) (λ who. B.degrades who)
        (λ who. D.degrades who) handed) }
{}

// ---- numbers

/// In every run of a new machine, the numbers that replies report are 1, 2, 3 and so on, in this order: those of nodes, of factories, of
/// publishers, of subscribers, of loans and of samples, each kind by itself. So no number of a kind is given twice.
pub fn numbers_go_up<T: Default, B: Decides + Degrades, D: Degrades>()
    ensures { (handed : Handed B D) → NumbersGoUp (chosen_by T.is_default (λ who. B.decides who) (λ who. B.degrades who)
        (λ who. D.degrades who) handed) }
{}

/// In every run of a new machine, no two factories have the same number, nor two publishers, two subscribers, two loans that are out, or
/// two samples that are held, in whichever services. A reply reported each of these numbers.
pub fn numbers_name_one<T: Default, B: Decides + Degrades, D: Degrades>()
    ensures { (handed : Handed B D) → NumbersNameOne (chosen_by T.is_default (λ who. B.decides who) (λ who. B.degrades who)
        (λ who. D.degrades who) handed) }
{}

// ---- from whom a subscriber has its messages, in which order, and for how long

/// What a subscriber receives are the values of a message whose send began earlier in the run, by a publisher of the subscriber's own
/// service. The publisher has been of that service ever since, with its name and settings, and no lifetime ended between.
pub fn received_was_sent<T: Default, B: Decides + Degrades, D: Degrades>()
    ensures { (handed : Handed B D) → ReceivedWasSent (chosen_by T.is_default (λ who. B.decides who) (λ who. B.degrades who)
        (λ who. D.degrades who) handed) }
{}

/// The messages that a subscriber received from a publisher, in a whole run, are a subsequence of those that the publisher sent, in the
/// order of sending, each message at most once.
pub fn received_in_order<T: Default, B: Decides + Degrades, D: Degrades>()
    ensures { (handed : Handed B D) → ReceivedInOrder (chosen_by T.is_default (λ who. B.decides who) (λ who. B.degrades who)
        (λ who. D.degrades who) handed) }
{}

/// In every run of a new machine, each loan is sent or dropped at most once, and was made in that run. A send or drop that is skipped
/// doesn't count; one that is refused does.
pub fn loans_are_spent_once<T: Default, B: Decides + Degrades, D: Degrades>()
    ensures { (handed : Handed B D) → LoansAreSpentOnce (chosen_by T.is_default (λ who. B.decides who) (λ who. B.degrades who)
        (λ who. D.degrades who) handed) }
{}

/// In every run of a new machine, a publisher sends each of its messages at most once, from a loan or by a put, and a subscriber receives
/// each at most once.
pub fn messages_go_once<T: Default, B: Decides + Degrades, D: Degrades>()
    ensures { (handed : Handed B D) → MessagesGoOnce (chosen_by T.is_default (λ who. B.decides who) (λ who. B.degrades who)
        (λ who. D.degrades who) handed) }
{}

/// In every run of a new machine, the sequence numbers of a publisher's messages are 1, 2, 3 and so on, in the order of sending; or none of
/// them has one. While the publisher is of a service, they have one exactly if the service numbers messages, and the publisher's last
/// sequence number is that of its last message.
pub fn sequence_numbers_go_up<T: Default, B: Decides + Degrades, D: Degrades>()
    ensures { (handed : Handed B D) → SequencesGoUp (chosen_by T.is_default (λ who. B.decides who) (λ who. B.degrades who)
        (λ who. D.degrades who) handed) }
{}

/// A sample reports the sequence number of the received message until its own release, whatever other commands come between.
pub fn a_sequence_number_stays<T: Default, B: Decides + Degrades, D: Degrades>()
    ensures { (handed : Handed B D) → SequenceStays (chosen_by T.is_default (λ who. B.decides who) (λ who. B.degrades who)
        (λ who. D.degrades who) handed) }
{}

/// In every run of a new machine, let a subscriber receive two messages from a publisher, one directly after the other, with sequence
/// numbers. The publisher sent a message with each number between these two, and each of these messages was lost to the subscriber: it was
/// dropped from their mailbox or skipped there. None of them was received or is on its way, and no other message with a number between the
/// two was lost.
pub fn gaps_are_losses<T: Default, B: Decides + Degrades, D: Degrades>()
    ensures { (handed : Handed B D) → GapsAreLosses (chosen_by T.is_default (λ who. B.decides who) (λ who. B.degrades who)
        (λ who. D.degrades who) handed) }
{}

/// In every run of a new machine, let a subscriber receive two messages from a publisher, one directly after the other, with sequence
/// numbers, which samples report while they are held. The publisher sent one message with each number between these two, and each of these
/// messages was lost for exactly one cause. It was dropped: with safe overflow a later message was put into their mailbox, and this one had
/// to make way. Or it was skipped: its send went past the mailbox, which was full, or was given up while it was blocked there or earlier.
pub fn gaps_have_causes<T: Default, B: Decides + Degrades, D: Degrades>()
    ensures { (handed : Handed B D) → GapsHaveCauses (chosen_by T.is_default (λ who. B.decides who) (λ who. B.degrades who)
        (λ who. D.degrades who) handed) }
{}

/// A sample that was received can be read, with the values that were received, until its own release, whichever ports and factories are
/// closed meanwhile.
pub fn held_is_read<T: Default, B: Decides + Degrades, D: Degrades>()
    ensures { (handed : Handed B D) → HeldIsRead (chosen_by T.is_default (λ who. B.decides who) (λ who. B.degrades who)
        (λ who. D.degrades who) handed) }
{}

/// A worked script: a new machine may answer it so that the message that was sent first is received first, though it was loaned last.
pub fn order_is_of_sends()
    ensures { OrderIsOfSends }
{}

/// In every run of a new machine, there is at most one service of a pattern and name. It has the settings that are published there, and the
/// hub has a factory of it. Each factory is of a published service in which the factory's node is, and so all factories of a name have one
/// agreement; a service that is publish-subscribe is open in the hub.
pub fn services_agree<T: Default, B: Decides + Degrades, D: Degrades>()
    ensures { (handed : Handed B D) → OneAgreement (chosen_by T.is_default (λ who. B.decides who) (λ who. B.degrades who)
        (λ who. D.degrades who) handed) }
{}

/// In every run of a new machine, each open port, the publisher of each loan, and the subscriber of each sample belongs to an open factory
/// of its service.
pub fn what_is_used_is_of_a_factory<T: Default, B: Decides + Degrades, D: Degrades>()
    ensures { (handed : Handed B D) → UseIsOwned (chosen_by T.is_default (λ who. B.decides who) (λ who. B.degrades who)
        (λ who. D.degrades who) handed) }
{}

/// In every run of a new machine, no more nodes are in a service than its settings allow, nodes of the hub and others together.
pub fn nodes_are_agreed<T: Default, B: Decides + Degrades, D: Degrades>()
    ensures { (handed : Handed B D) → NodesAreAgreed (chosen_by T.is_default (λ who. B.decides who) (λ who. B.degrades who)
        (λ who. D.degrades who) handed) }
{}

/// In any run, the agreement of a lifetime of a pattern and name stays as it is, and the number of the lifetime never falls.
pub fn an_agreement_stays<T: Default, B: Decides + Degrades, D: Degrades>()
    ensures { (handed : Handed B D) → AgreementStays (chosen_by T.is_default (λ who. B.decides who) (λ who. B.degrades who)
        (λ who. D.degrades who) handed) }
{}

/// The agreement under a pattern and name after a command was the agreement before it, or the command describes it: the command is to
/// create such a service, or has another node publish it.
pub fn an_agreement_is_described<T: Default, B: Decides + Degrades, D: Degrades>()
    ensures { (handed : Handed B D) → AgreementIsDescribed (chosen_by T.is_default (λ who. B.decides who) (λ who. B.degrades who)
        (λ who. D.degrades who) handed) }
{}

/// A service that a node created is published exactly as the command described it, in a new lifetime, with this node alone.
pub fn a_service_is_created_as_described<T: Default, B: Decides + Degrades, D: Degrades>()
    ensures { (handed : Handed B D) → CreatesAsDescribed (chosen_by T.is_default (λ who. B.decides who) (λ who. B.degrades who)
        (λ who. D.degrades who) handed) }
{}

/// A service that is opened meets each clause that is asked for. If an opening is refused for a clause, the service exists, and the clause
/// is the first that it doesn't meet.
pub fn what_is_opened_is_as_asked<T: Default, B: Decides + Degrades, D: Degrades>()
    ensures { (handed : Handed B D) → OpenedMeetsAsked (chosen_by T.is_default (λ who. B.decides who) (λ who. B.degrades who)
        (λ who. D.degrades who) handed) }
{}

/// A service that is opened or created either meets each clause that is asked for; or it is new, in a later lifetime, exactly as it was
/// asked for and with the node alone.
pub fn what_is_opened_or_created_is_as_asked<T: Default, B: Decides + Degrades, D: Degrades>()
    ensures { (handed : Handed B D) → EitherMeetsAsked (chosen_by T.is_default (λ who. B.decides who) (λ who. B.degrades who)
        (λ who. D.degrades who) handed) }
{}

/// A service that is open after a command, and wasn't open before it, has no port, no mailbox, no history and no message.
pub fn a_service_starts_empty<T: Default, B: Decides + Degrades, D: Degrades>()
    ensures { (handed : Handed B D) → ServicesStartEmpty (chosen_by T.is_default (λ who. B.decides who) (λ who. B.degrades who)
        (λ who. D.degrades who) handed) }
{}

/// If a new machine, after a run, has no factory of a service, it doesn't have the service either. Ports, loans and samples that a later
/// service of the same name has get numbers that weren't given before.
pub fn a_life_starts_anew<T: Default, B: Decides + Degrades, D: Degrades>()
    ensures { (handed : Handed B D) → LivesStartAnew (chosen_by T.is_default (λ who. B.decides who) (λ who. B.degrades who)
        (λ who. D.degrades who) handed) }
{}

/// After a successful update of a publisher, it has seen all changes of the list of subscribers. If there were changes, each listed
/// subscriber is connected at its place, or no connection was made there because memory ran out; that never happened if the publisher's
/// action then is to fail. If there were no changes, nothing changes.
pub fn an_update_connects_a_publisher<T: Default, B: Decides + Degrades, D: Degrades>()
    ensures { (handed : Handed B D) → PublisherIsUpdated (chosen_by T.is_default (λ who. B.decides who) (λ who. B.degrades who)
        (λ who. D.degrades who) handed) }
{}

/// After a successful update of a subscriber, it has seen all changes of the list of publishers. If there were changes, or it was to update
/// again, each listed publisher is connected at its place; or no connection was made because memory ran out; or a closed publisher is still
/// connected there, from which something is borrowed. No connection failed for memory if the subscriber's action then is to fail. If there
/// were no changes, and it wasn't to update again, nothing changes.
pub fn an_update_connects_a_subscriber<T: Default, B: Decides + Degrades, D: Degrades>()
    ensures { (handed : Handed B D) → SubscriberIsUpdated (chosen_by T.is_default (λ who. B.decides who) (λ who. B.degrades who)
        (λ who. D.degrades who) handed) }
{}

/// After a successful update of a publisher, each mailbox that existed still exists, with all that is borrowed. In a mailbox of this
/// publisher, what waited still waits if the publisher was connected to the subscriber and the subscriber is listed; nothing waits if the
/// subscriber was closed; otherwise as much of the history waits as may. The same part of the history waits in a new mailbox, which is one
/// with a listed subscriber and has this subscriber's buffer size. All other services stay, and so do loans, samples, lists, histories, and
/// ports except for their connections.
pub fn an_update_of_a_publisher_keeps_mailboxes<T: Default, B: Decides + Degrades, D: Degrades>()
    ensures { (handed : Handed B D) → PublisherKeepsMailboxes (chosen_by T.is_default (λ who. B.decides who) (λ who. B.degrades who)
        (λ who. D.degrades who) handed) }
{}

/// After a successful update of a subscriber, each mailbox that existed is as it was. A new mailbox is one of this subscriber, has its
/// buffer size, and is empty. All other services stay, and so do loans, samples, lists, histories, and ports except for their connections.
pub fn an_update_of_a_subscriber_keeps_mailboxes<T: Default, B: Decides + Degrades, D: Degrades>()
    ensures { (handed : Handed B D) → SubscriberKeepsMailboxes (chosen_by T.is_default (λ who. B.decides who) (λ who. B.degrades who)
        (λ who. D.degrades who) handed) }
{}

/// In every run of a new machine, a publisher that has seen all changes of the list of subscribers, as each has after a successful update,
/// has as many places as the list. At each place where a subscriber is listed, the publisher is connected to it, or to none because the
/// connection failed: at some state of the run with this same list the two had no mailbox.
pub fn a_publisher_is_connected_as_listed<T: Default, B: Decides + Degrades, D: Degrades>()
    ensures { (handed : Handed B D) → PublisherIsConnected (chosen_by T.is_default (λ who. B.decides who) (λ who. B.degrades who)
        (λ who. D.degrades who) handed) }
{}

/// In every run of a new machine, a subscriber that has seen all changes of the list of publishers, as each has after a successful update,
/// has as many places as the list. At each place where a publisher is listed, the subscriber is connected to it, or to none because the
/// connection failed: at some state of the run with this same list the two had no mailbox. Or it is to update again, and is still connected
/// to another publisher there, which was closed.
pub fn a_subscriber_is_connected_as_listed<T: Default, B: Decides + Degrades, D: Degrades>()
    ensures { (handed : Handed B D) → SubscriberIsConnected (chosen_by T.is_default (λ who. B.decides who) (λ who. B.degrades who)
        (λ who. D.degrades who) handed) }
{}

/// In every run of a new machine, the list of publishers of a service has exactly its open publishers, and the list of subscribers its open
/// subscribers, each at one place.
pub fn who_stands_is_listed<T: Default, B: Decides + Degrades, D: Degrades>()
    ensures { (handed : Handed B D) → StandingAreListed (chosen_by T.is_default (λ who. B.decides who) (λ who. B.degrades who)
        (λ who. D.degrades who) handed) }
{}

/// In every run of a new machine, a publisher that is connected to a subscriber has a mailbox with it, and both are of one service. The
/// same holds for a subscriber that is connected to a publisher, even a closed one.
pub fn who_is_connected_has_a_mailbox<T: Default, B: Decides + Degrades, D: Degrades>()
    ensures { (handed : Handed B D) → ConnectedAreJoined (chosen_by T.is_default (λ who. B.decides who) (λ who. B.degrades who)
        (λ who. D.degrades who) handed) }
{}

/// In every run of a new machine, a publisher gets connected to the same subscriber at most once, and a subscriber to the same publisher: a
/// connection that ended is never made again.
pub fn a_pair_connects_once<T: Default, B: Decides + Degrades, D: Degrades>()
    ensures { (handed : Handed B D) → PairsConnectOnce (chosen_by T.is_default (λ who. B.decides who) (λ who. B.degrades who)
        (λ who. D.degrades who) handed) }
{}

/// In a run of a new machine, all of a service stays as it was while no command asks anything of it, whatever is asked of others and
/// answered: its phase, its factories, its ports, and all messages that are loaned, wait, are in the history or are borrowed there.
pub fn services_are_beside_one_another<T: Default, B: Decides + Degrades, D: Degrades>()
    ensures { (handed : Handed B D) → OthersAreLeft (chosen_by T.is_default (λ who. B.decides who) (λ who. B.degrades who)
        (λ who. D.degrades who) handed) }
{}

/// A command on ports, loans and samples may do to a service among others what it may do to the service alone, with the same reply, if none
/// of the others has what the command names: an open port, a loan, a sample, or the factory. The others stay as they were.
pub fn a_service_among_others_does_as_alone<T: Default, B: Decides + Degrades, D: Degrades>()
    ensures { (handed : Handed B D) → StepsAmong (chosen_by T.is_default (λ who. B.decides who) (λ who. B.degrades who)
        (λ who. D.degrades who) handed) }
{}

/// A command on ports, loans and samples may be skipped, and changes nothing then, if no service has what it names and there is a default
/// value.
pub fn what_nobody_has_is_skipped<T: Default, B: Decides + Degrades, D: Degrades>()
    ensures { (handed : Handed B D) → UnknownIsSkipped (chosen_by T.is_default (λ who. B.decides who) (λ who. B.degrades who)
        (λ who. D.degrades who) handed) }
{}

/// In every run of a new machine, leave out the commands that ask nothing of a service, except those that make nodes. A new machine that
/// gets only the remaining commands may give the same replies to them, if it skips the numbers that were given in reply to the commands
/// left out. So replies about a service depend on other services only by the numbers that these take.
pub fn a_service_is_as_if_alone<T: Default, B: Decides + Degrades, D: Degrades>()
    ensures { (handed : Handed B D) → ServicesAreAsIfAlone (chosen_by T.is_default (λ who. B.decides who) (λ who. B.degrades who)
        (λ who. D.degrades who) handed) }
{}

/// In every run of a new machine, leave out the commands that ask nothing of a service, except those that make nodes. The remaining
/// commands are a run of a new machine by themselves, with factories, publishers, subscribers, loans and samples numbered anew. Each of
/// these commands names the same things by their other numbers, and has the same reply, with the other number if it reports one; no two
/// things of a kind have the same number. At the end both machines have the same of the service, except for these numbers.
pub fn numbers_are_counted_anew<T: Default, B: Decides + Degrades, D: Degrades>()
    ensures { (handed : Handed B D) → NumbersAreCountedAnew (chosen_by T.is_default (λ who. B.decides who) (λ who. B.degrades who)
        (λ who. D.degrades who) handed) }
{}
