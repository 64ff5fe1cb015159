//! Each call at the ports of one domain matches the command at a service of the machine: the definitions of `iox_domain`
//! compared with those of `iox_machine`.
//!
//! The functions here do nothing: the contract of each is a theorem about the definitions. `StandsFor` says which service of a
//! machine the ports of a domain represent, under which names. Most theorems are about one call at a port: if the ports before
//! the call represent a service, a machine whose only service is this one gives the same reply to the command, and the ports
//! after the call represent its service afterwards.
//!
//! `AreRoomy` of ports says that one subscriber alone borrows from each connection, and at most as many samples as its limit allows. The
//! ports of a new service satisfy it, and so they do after any calls (`iox_domain::allowances::samples::samples_left_by_calls`).
//!
//! A proof cites a theorem by calling its function; what the theorem states is then among the facts of the caller:
//!
//! ```
//! giving_up_a_send_matches::<u64, (), Handlers, DegradationHandler>();
//! ```
#![tactic(auto)]

ghost use Rattle.iox_domain_values.specs.declared.degradation.DegradationCause.TheVariants as cause;
ghost use Rattle.iox_machine.specs.Choices.{Handed, chosen_by};
ghost use Rattle.iox_domain_machine.specs.Laws.{NewStands, SetMatches, FillMatches, DropMatches, ReadMatches, SequenceMatches};
ghost use Rattle.iox_domain_machine.specs.Laws.{GiveUpMatches};
ghost use Rattle.iox_domain_machine.specs.ConnectionCounts.{ConnectionsAreFew};
ghost use Rattle.iox_domain_machine.specs.HeaderLaws.{HeaderMatches, UserHeaderStands};
ghost use Rattle.iox_domain_machine.specs.SentHeaders.{HeadersAreAsSent, NamesStay};
ghost use Rattle.iox_domain_machine.specs.ReleaseLaws.{ReleaseMatches};
ghost use Rattle.iox_domain_machine.specs.LeaveLaws.{PublisherLeaveMatches, SubscriberLeaveMatches};
ghost use Rattle.iox_domain_machine.specs.LendingLaws.{LendUninitMatches, LendMatches};
ghost use Rattle.iox_domain_machine.specs.ServiceLaws.{AmongOthersMatches};
ghost use Rattle.iox_domain_machine.specs.ReceiveLaws.{HasMatches, ReceiveMatches};
ghost use Rattle.iox_domain_machine.specs.SubscriberUpdateLaws.{SubscriberUpdateMatches};
ghost use Rattle.iox_domain_machine.specs.SendLaws.{RetryMatches, SendMatches};
ghost use Rattle.iox_domain_machine.specs.PutLaws.{PutMatches};
ghost use Rattle.iox_domain_machine.specs.PublisherUpdateLaws.{PublisherUpdateMatches};
ghost use Rattle.iox_domain_machine.specs.ComingLaws.{SubscriberComesMatches};
ghost use Rattle.iox_domain_machine.specs.ComingPublisherLaws.{PublisherComesMatches};

use iox_domain_values::{Decides, Degrades, Overrides};
use iox_machine::{a_publisher_is_connected_as_listed, sizes_are_agreed};

/// The ports of a new domain represent a new service, which has no ports yet.
pub fn new_ports_stand<T, U>()
    ensures { NewStands T U }
{}

/// Setting a value at a place of a written loan matches the command; if the loan isn't written or doesn't have the place,
/// nothing happens.
pub fn setting_a_value_matches<T: Default, U, B: Decides + Degrades, D: Degrades>()
    ensures { (handed : Handed B D) → SetMatches T U (chosen_by T.is_default (λ who. B.decides who)
        (λ who. B.degrades who) (λ who. D.degrades who) handed) }
{}

/// Filling a loan with values matches the command; if the loan doesn't have as many, nothing happens.
pub fn filling_a_loan_matches<T: Default, U, B: Decides + Degrades, D: Degrades>()
    ensures { (handed : Handed B D) → FillMatches T U (chosen_by T.is_default (λ who. B.decides who)
        (λ who. B.degrades who) (λ who. D.degrades who) handed) }
{}

/// Dropping a loan matches the command. A closed publisher of which nothing else is in use is then removed from the domain; the
/// machine keeps it as a closed one. The ports must be sound, as they are after any calls
/// (`iox_domain::port_laws::messages::held_stays`).
pub fn dropping_a_loan_matches<T: Default, U, B: Decides + Degrades, D: Degrades>()
    ensures { (handed : Handed B D) → DropMatches T U (chosen_by T.is_default (λ who. B.decides who)
        (λ who. B.degrades who) (λ who. D.degrades who) handed) }
{}

/// The sample with this number exists, and reading its values matches the command. Nothing changes.
pub fn reading_matches<T: Default, U, B: Decides + Degrades, D: Degrades>()
    ensures { (handed : Handed B D) → ReadMatches T U (chosen_by T.is_default (λ who. B.decides who)
        (λ who. B.degrades who) (λ who. D.degrades who) handed) }
{}

/// The sample with this number exists, and answering the sequence number of its message, if its service numbers messages,
/// matches the command. Nothing changes.
pub fn telling_a_sequence_number_matches<T: Default, U, B: Decides + Degrades, D: Degrades>()
    ensures { (handed : Handed B D) → SequenceMatches T U (chosen_by T.is_default (λ who. B.decides who)
        (λ who. B.degrades who) (λ who. D.degrades who) handed) }
{}

/// If a publisher passes a test, the user header of one of its loans is written; otherwise nothing changes. In both cases the ports
/// represent the same service as before. A user header that is changed through a reference is the case in which the test always holds.
pub fn writing_a_user_header_stands<T, U>()
    ensures { UserHeaderStands T U }
{}

/// The sample with this number has a header, which says what the machine's sample does: its publisher, by name, and its
/// sequence number.
pub fn telling_a_header_matches<T, U>()
    ensures { HeaderMatches T U }
{}

/// The header and the user header that a subscriber reads of a sample are those that were recorded as the send of its message
/// began, for the same message and the same publisher as the machine's sample. This holds after any calls on a new domain,
/// whatever the override and the handlers answer. A call adds the record of the send that it begins, if it does; nothing else
/// changes the record of a message in use.
pub fn headers_are_as_sent<T, U, O: Overrides, B: Decides + Degrades>(
    _overriding: &O,
    _handlers: &B,
)
    ensures { HeadersAreAsSent T U (O.overrides _overriding.now)
        (B.degrades _handlers.now cause.FailedToEstablishConnection)
        (B.decides _handlers.now) }
{}

/// An open publisher has at most twice as many live connections as subscribers may be listed. Once the publisher has seen all changes of
/// the list, as after each update, it has at most as many as may be listed, if the service is one of a run of the machine. No two places
/// may be tied to one connection, as it is after any calls (`iox_domain::port_laws::messages::at_most_once`).
///
/// Of each connection that ended at least one sample is held, so no more ended than such samples are held. Such a sample takes one slot at
/// most. So the slots of the agreement's worst case, and one more for each such sample, are enough for each loan that fits, once the
/// publisher has seen all changes. The ports must satisfy `AreRoomy`, as they do after any calls.
pub fn connections_are_few<T: Default, U, B: Decides + Degrades, D: Degrades>()
    ensures { (handed : Handed B D) → ConnectionsAreFew T U (chosen_by T.is_default (λ who. B.decides who)
        (λ who. B.degrades who) (λ who. D.degrades who) handed) }
{
    a_publisher_is_connected_as_listed::<T, B, D>();
    sizes_are_agreed::<T, B, D>();
}

/// After a call, everything that was in use has the same name in the service that the ports represent. This holds for a call that gives no
/// publisher or message a new name, for one that makes a loan, and for one that creates a publisher.
pub fn names_in_use_stay<T, U>()
    ensures { NamesStay T U }
{}

/// Giving up a blocked send matches the command, with the same number of connections that took its message. If no send is blocked,
/// or the publisher is closed, nothing happens.
pub fn giving_up_a_send_matches<T: Default, U, B: Decides + Degrades, D: Degrades>()
    ensures { (handed : Handed B D) → GiveUpMatches T U (chosen_by T.is_default (λ who. B.decides who)
        (λ who. B.degrades who) (λ who. D.degrades who) handed) }
{}

/// Releasing a sample, by the subscriber that received it, matches the command. A closed publisher or subscriber of which
/// nothing else is in use is then removed from the domain; the machine keeps it as a closed one. The ports must be sound, as
/// they are after any calls (`iox_domain::port_laws::messages::held_stays`).
pub fn releasing_a_sample_matches<T: Default, U, B: Decides + Degrades, D: Degrades>()
    ensures { (handed : Handed B D) → ReleaseMatches T U (chosen_by T.is_default (λ who. B.decides who)
        (λ who. B.degrades who) (λ who. D.degrades who) handed) }
{}

/// Closing a publisher matches the command: it is removed from the list, and its connections from which no subscriber reads
/// end. If it isn't open, or a send of it is blocked, nothing happens. One more change of the list of publishers must be countable,
/// and the ports must be sound, as they are after any calls (`iox_domain::port_laws::messages::held_stays`).
pub fn leaving_of_a_publisher_matches<T: Default, U, B: Decides + Degrades, D: Degrades>()
    ensures { (handed : Handed B D) → PublisherLeaveMatches T U (chosen_by T.is_default (λ who. B.decides who)
        (λ who. B.degrades who) (λ who. D.degrades who) handed) }
{}

/// Closing a subscriber matches the command: it is removed from the list and detached from its connections, of which those of
/// closed publishers end. A subscriber that holds no sample is then removed from the domain; the machine keeps it as a closed
/// one. If it isn't open nothing happens. One more change of the list of subscribers must be countable, and the ports must
/// satisfy `AreRoomy`, as they do after any calls.
pub fn leaving_of_a_subscriber_matches<T: Default, U, B: Decides + Degrades, D: Degrades>()
    ensures { (handed : Handed B D) → SubscriberLeaveMatches T U (chosen_by T.is_default (λ who. B.decides who)
        (λ who. B.degrades who) (λ who. D.degrades who) handed) }
{}

/// The loan of values that aren't written matches the command: it is skipped if a send is blocked or the publisher is closed, and
/// fails if the machine's does. The ports must be sound, as they are after any calls
/// (`iox_domain::port_laws::messages::held_stays`), and no loan may have the next number yet.
pub fn lending_uninit_matches<T: Default, U, B: Decides + Degrades, D: Degrades>()
    ensures { (handed : Handed B D) → LendUninitMatches T U (chosen_by T.is_default (λ who. B.decides who)
        (λ who. B.degrades who) (λ who. D.degrades who) handed) }
{}

/// If the call of a domain matches the command at its own service alone, it also matches the command at a machine with the
/// services of all domains. The command names a port, a loan or a sample of this domain. It creates no port and changes no
/// port's name, and loans and samples change only at this domain, each under a number of its own.
pub fn a_domain_among_others_matches<T: Default, U, B: Decides + Degrades, D: Degrades>()
    ensures { (handed : Handed B D) → AmongOthersMatches T U (chosen_by T.is_default (λ who. B.decides who)
        (λ who. B.degrades who) (λ who. D.degrades who) handed) }
{}

/// The loan of values, each of which is then written as the same default, matches the command: it is skipped if a send is blocked or
/// the publisher is closed, and fails if the machine's does. The ports must be sound, as they are after any calls
/// (`iox_domain::port_laws::messages::held_stays`), and no loan may have the next number yet.
pub fn lending_matches<T: Default, U, B: Decides + Degrades, D: Degrades>()
    ensures { (handed : Handed B D) → LendMatches T U (chosen_by T.is_default (λ who. B.decides who)
        (λ who. B.degrades who) (λ who. D.degrades who) handed) }
{}

/// Updating a subscriber matches the command: connections of closed publishers end or expire, and listed publishers are
/// connected, which may fail if memory runs out or if no more connections may expire. Nothing is done if the list was seen
/// already, and the command is skipped if the subscriber isn't open. The ports must satisfy `AreRoomy`, as they do after any
/// calls, and each answer of the handler for a failed connection must be a choice of the machine's subscriber.
pub fn updating_a_subscriber_matches<T: Default, U, B: Decides + Degrades, D: Degrades>(
    _handler: &D,
)
    ensures { (handed : Handed B D) → SubscriberUpdateMatches T U (chosen_by T.is_default (λ who. B.decides who)
        (λ who. B.degrades who) (λ who. D.degrades who) handed) (D.degrades _handler.now cause.FailedToEstablishConnection) }
{}

/// Asking whether some connection of a subscriber has data, also one of a closed publisher, matches the command; the subscriber
/// updates first, and a failed connection may let the call fail. If the subscriber isn't open nothing happens. The ports must
/// satisfy `AreRoomy`, as they do after any calls, and each answer of the handler for a failed connection must be a choice of the
/// machine's subscriber.
pub fn asking_for_samples_matches<T: Default, U, B: Decides + Degrades, D: Degrades>(_handler: &D)
    ensures { (handed : Handed B D) → HasMatches T U (chosen_by T.is_default (λ who. B.decides who)
        (λ who. B.degrades who) (λ who. D.degrades who) handed) (D.degrades _handler.now cause.FailedToEstablishConnection) }
{}

/// Updating a publisher matches the command: connections of closed subscribers end, and each listed subscriber gets a connection, with as
/// much of the history as may wait if the connection is new, or the connection fails because memory runs out. An update that the handler
/// lets fail returns the first failure. The command is skipped if a send is blocked or the publisher is closed, and nothing changes if the
/// list didn't. Each answer of the handler must be a choice of the machine's publisher. No two places may be tied to one connection, and
/// the sizes must be those that the service allows, as they are after any calls (`iox_domain::port_laws::messages::at_most_once`,
/// `iox_domain::port_laws::service::sizes_agree`).
pub fn updating_a_publisher_matches<T: Default, U, B: Decides + Degrades, D: Degrades>(_handler: &D)
    ensures { (handed : Handed B D) → PublisherUpdateMatches T U (chosen_by T.is_default (λ who. B.decides who)
        (λ who. B.degrades who) (λ who. D.degrades who) handed) (D.degrades _handler.now cause.FailedToEstablishConnection) }
{}

/// Retrying a blocked send matches the command: in both the send comes to the same subscribers in the same order, makes the same
/// decisions at full mailboxes, and is blocked again, is finished or fails. If no send is blocked, or the publisher is closed,
/// nothing happens. The ports must satisfy `AreRoomy`, as they do after any calls. Each decision at a full mailbox must be a
/// choice of the machine's publisher.
pub fn retrying_a_send_matches<T: Default, U, B: Decides + Degrades, D: Degrades>(_handlers: &B)
    ensures { (handed : Handed B D) → RetryMatches T U (chosen_by T.is_default (λ who. B.decides who)
        (λ who. B.degrades who) (λ who. D.degrades who) handed) (B.decides _handlers.now) }
{}

/// Sending a loan matches the command: the loan ends, and its message gets into the history and, in both, to the same connected
/// subscribers in the same order; the send is blocked, is finished or fails. If the list of subscribers changed the publisher
/// follows it first; if memory runs out and the handler lets the call fail, the loan is dropped and the error returned. The send
/// of a closed publisher drops the loan, too. If some of the loan isn't written, or a send is blocked, nothing happens. The ports
/// must satisfy `AreRoomy`, as they do after any calls. Each decision at a full mailbox, and each answer for a failed connection,
/// must be a choice of the machine's publisher.
pub fn sending_a_loan_matches<T: Default, U, B: Decides + Degrades, D: Degrades>(_handlers: &B)
    ensures { (handed : Handed B D) → SendMatches T U (chosen_by T.is_default (λ who. B.decides who)
        (λ who. B.degrades who) (λ who. D.degrades who) handed) (B.decides _handlers.now)
        (B.degrades _handlers.now cause.FailedToEstablishConnection) }
{}

/// Putting values matches the command: the publisher loans a message for them, writes it and sends it. If a send is blocked, or
/// the publisher is closed, nothing happens. The call fails if the machine's does, with the error of the loan or of the send. If
/// the list of subscribers changed the publisher follows it between the loan and the send, as in a send. The ports must satisfy
/// `AreRoomy`, as they do after any calls, and each decision at a full mailbox, and each answer for a failed connection, must be
/// a choice of the machine's publisher. The header and the user header that a subscriber reads of the message are recorded as its
/// send begins, as in `headers_are_as_sent`.
pub fn putting_matches<T: Default, U, B: Decides + Degrades, D: Degrades>(_handlers: &B)
    ensures { (handed : Handed B D) → PutMatches T U (chosen_by T.is_default (λ who. B.decides who)
        (λ who. B.degrades who) (λ who. D.degrades who) handed) (B.decides _handlers.now)
        (B.degrades _handlers.now cause.FailedToEstablishConnection) }
{}

/// Receiving matches the command; the subscriber updates first. A connection may give a message if it has one and is below the
/// limit of borrowed messages. The subscriber borrows the oldest message of the first expired connection that may give, or
/// otherwise of another connection that may, as a sample with the next number and the message's values. If no connection may
/// give, the reply is that nothing waits, or that each connection with data is at the limit of borrowed messages. The idle
/// expired connections that were examined before end, and a closed publisher of which nothing else is in use is then removed from
/// the domain. If the subscriber isn't open nothing happens. The subscriber must hold fewer than 2^64 - 1 samples, no sample may
/// have the next number, the ports must satisfy `AreRoomy`, as they do after any calls, and each answer of the handler for a
/// failed connection must be a choice of the machine's subscriber.
pub fn receiving_matches<T: Default, U, B: Decides + Degrades, D: Degrades>(_handler: &D)
    ensures { (handed : Handed B D) → ReceiveMatches T U (chosen_by T.is_default (λ who. B.decides who)
        (λ who. B.degrades who) (λ who. D.degrades who) handed) (D.degrades _handler.now cause.FailedToEstablishConnection) }
{}

/// Creating a subscriber, through a factory of the service, matches the command: it is connected to the listed publishers; or the
/// call fails if its buffer size exceeds the service's limit, if no place is free, or if memory runs out. The command must ask
/// for what the domain is asked for: the owner's number is that of the factory, and the buffer size is the same. The service must
/// let at least one message wait; no subscriber of it may have the next number yet; one more port and one more change of the list
/// of subscribers must be countable; and the ports must satisfy `AreRoomy`, as they do after any calls.
pub fn coming_of_a_subscriber_matches<T: Default, U, B: Decides + Degrades, D: Degrades>(
    _handler: &D,
)
    ensures { (handed : Handed B D) → SubscriberComesMatches T U (chosen_by T.is_default (λ who. B.decides who)
        (λ who. B.degrades who) (λ who. D.degrades who) handed) (D.degrades _handler.now cause.FailedToEstablishConnection) }
{}

/// Creating a publisher, through a factory of the service, matches the command: it is connected to the listed subscribers; or the
/// call fails if it needs 2^32 slots or more, or slots for 2^32 values or more, if no place is free, or if memory runs out. The
/// command must ask for what the domain is asked for: the owner's number is that of the factory; loans, values and allocation
/// strategy are those of the command, or the domain's defaults; an element is one value; and the override answers as many slots
/// as the command says, or as the worst case needs. No publisher of the service may have the next number yet; one more port and
/// one more change of the list of publishers must be countable; and the ports must satisfy `AreRoomy`, as they do after any
/// calls.
pub fn coming_of_a_publisher_matches<
    T: Default,
    U,
    O: Overrides,
    B: Decides + Degrades,
    D: Degrades,
>(_overriding: &O, _handlers: &B)
    ensures { (handed : Handed B D) → PublisherComesMatches T U (chosen_by T.is_default (λ who. B.decides who)
        (λ who. B.degrades who) (λ who. D.degrades who) handed) (O.overrides _overriding.now)
        (B.degrades _handlers.now cause.FailedToEstablishConnection) }
{}
