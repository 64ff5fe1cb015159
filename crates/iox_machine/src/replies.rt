//! Theorems about replies: which reply each command gets, and when. Where the machine may choose, they say between which replies.
ghost use Rattle.iox_machine.specs.PortRefusalLaws.{PublishersAreRefusedSo, SubscribersAreRefusedSo};
ghost use Rattle.iox_machine.specs.BorrowedLaws.{ReceivesBorrow};
ghost use Rattle.iox_machine.specs.ServiceReplyLaws.{CreationsAnswerSo, DefaultsAreKnown, EitherAnswersSo, OpeningsAnswerSo};
ghost use Rattle.iox_machine.specs.Choices.{Handed, chosen_by};
ghost use Rattle.iox_machine.specs.ClosedLaws.{ClosesUnlessUsed, NamesBecomeFree};
ghost use Rattle.iox_machine.specs.DeliveredLaws.{GivingUpTellsTakers, RetriesTellTakers, SendsTellTakers};
ghost use Rattle.iox_machine.specs.ExpiredLaws.{ConnectionsExpireInOrder, ReceivesEndEmptied};
ghost use Rattle.iox_machine.specs.FailedLaws.{PublisherTellsFirst, SubscriberTellsFirst};
ghost use Rattle.iox_machine.specs.LoanLaws.{LoansAreRefusedSo, PutsAreRefusedSo};
ghost use Rattle.iox_machine.specs.LimitLaws.{LoansAreLimited};
ghost use Rattle.iox_machine.specs.PortReplyLaws.{DoneUnlessSkipped, DropsEndLoans, LeavesClosePorts, LooksAnswerAsUpdates};
ghost use Rattle.iox_machine.specs.PortReplyLaws.{ReleasesEndSamples, SendsAreRefusedSo};
ghost use Rattle.iox_machine.specs.SkippedLaws.{SkippedIfUnready};
ghost use Rattle.iox_machine.specs.VerdictLaws.{SettingsAreRefusedSo, VerdictsAreSo};
ghost use Rattle.iox_machine.specs.WaitingLaws.{HasTellsWhatWaits, ReceivesWhatMayBeBorrowed, StopsHaveValues};
ghost use Rattle.iox_machine.specs.WorstCaseLaws.{WorstCaseIsEnough};
ghost use Rattle.iox_machine.specs.WrittenLaws.{FillWritesAll, LoansBegin, SetWritesOne};

use iox_domain_values::{Decides, Degrades};

/// A command is skipped exactly if what it names doesn't exist or isn't ready: a node that was never made; a factory, open port, loan or
/// sample that no service has; a publisher of which a send is blocked, or none is where one is to be retried or given up; a loan that isn't
/// written, or hasn't the place or the length. So what exists and is ready is never skipped. A close names a factory that the hub has.
pub fn what_is_ready_is_carried_out<T: Default, B: Decides + Degrades, D: Degrades>()
    ensures { (handed : Handed B D) → SkippedIfUnready (chosen_by T.is_default (λ who. B.decides who) (λ who. B.degrades who)
        (λ who. D.degrades who) handed) }
{}

/// A look for data that is answered with `Has` says whether a message waits in any connection of the subscriber, expired ones too, after an
/// update of these. It changes nothing but what an update alone does.
pub fn a_look_tells_what_waits<T: Default, B: Decides + Degrades, D: Degrades>()
    ensures { (handed : Handed B D) → HasTellsWhatWaits (chosen_by T.is_default (λ who. B.decides who) (λ who. B.degrades who)
        (λ who. D.degrades who) handed) }
{}

/// A receive that isn't skipped updates the subscriber's connections, and is refused as an update alone would be if that fails. Otherwise
/// it gives a message exactly if one waits in a connection that is below its maximum of borrowed messages: the oldest of the first such
/// connection that is expired, or else of any other. It reports that nothing waits exactly if nothing waits in any connection, expired ones
/// too, and `ExceedsMaxBorrows` otherwise.
pub fn a_receive_gives_what_may_be_borrowed<T: Default, B: Decides + Degrades, D: Degrades>()
    ensures { (handed : Handed B D) → ReceivesWhatMayBeBorrowed (chosen_by T.is_default (λ who. B.decides who) (λ who. B.degrades who)
        (λ who. D.degrades who) handed) }
{}

/// A run that answered something stops only where there are values to give: before a receive, if a message that has values can be received
/// once the subscriber's connections are updated; or before a read of a sample whose message has values.
pub fn a_stop_has_values<T: Default, B: Decides + Degrades, D: Degrades>()
    ensures { (handed : Handed B D) → StopsHaveValues (chosen_by T.is_default (λ who. B.decides who) (λ who. B.degrades who)
        (λ who. D.degrades who) handed) }
{}

/// A loan is made with as many values as were asked for: each is a default value, or none is written if that was asked for. It comes after
/// the other loans of its service, which stay.
pub fn a_loan_begins_with_defaults<T: Default, B: Decides + Degrades, D: Degrades>()
    ensures { (handed : Handed B D) → LoansBegin (chosen_by T.is_default (λ who. B.decides who) (λ who. B.degrades who)
        (λ who. D.degrades who) handed) }
{}

/// Setting a value that is answered with `Done` writes it at its place, which the loan has. All other values of the loan stay, and so do
/// all other loans.
pub fn a_set_writes_one_value<T: Default, B: Decides + Degrades, D: Degrades>()
    ensures { (handed : Handed B D) → SetWritesOne (chosen_by T.is_default (λ who. B.decides who) (λ who. B.degrades who)
        (λ who. D.degrades who) handed) }
{}

/// Filling a loan that is answered with `Done` gives it just these values, as many as it had. All other loans stay.
pub fn a_fill_writes_all_values<T: Default, B: Decides + Degrades, D: Degrades>()
    ensures { (handed : Handed B D) → FillWritesAll (chosen_by T.is_default (λ who. B.decides who) (λ who. B.degrades who)
        (λ who. D.degrades who) handed) }
{}

/// A factory that exists is closed exactly if none of its ports is open, no loan of its publishers is out and no sample of its
/// subscribers is held. It exists no longer then. Otherwise the close is refused with `StillInUse`.
pub fn a_factory_closes_unless_used<T: Default, B: Decides + Degrades, D: Degrades>()
    ensures { (handed : Handed B D) → ClosesUnlessUsed (chosen_by T.is_default (λ who. B.decides who) (λ who. B.degrades who)
        (λ who. D.degrades who) handed) }
{}

/// In every run of a new machine, a pattern and name of which the hub has no factory is absent, so it can be created anew; unless a node of
/// another process makes the service, has emptied it, or is in it, and then no node of the hub is.
pub fn a_name_becomes_free<T: Default, B: Decides + Degrades, D: Degrades>()
    ensures { (handed : Handed B D) → NamesBecomeFree (chosen_by T.is_default (λ who. B.decides who) (λ who. B.degrades who)
        (λ who. D.degrades who) handed) }
{}

/// In every run of a new machine, a send or put that is answered with `Delivered`, `UnableToDeliver` or `Blocked` updated its publisher's
/// connections, and then offered its message to the subscribers to which the publisher is connected, one after the other, until the send
/// was over or blocked. `Delivered` has the number of mailboxes that took it: those in which fewer waited than may, or all of them with
/// safe overflow. Only a full mailbox is skipped: its subscriber is closed or isn't connected, or the publisher's strategy or handler may
/// decide `DiscardData` or `DiscardDataAndFail` there; the latter was decided somewhere exactly if the answer is `UnableToDeliver`. A send
/// is blocked only at a full mailbox of an open, connected subscriber, where `Retry` may be decided, given no retry and no time. The
/// message is the newest of the history, and all else stays.
pub fn a_send_tells_who_took_it<T: Default, B: Decides + Degrades, D: Degrades>()
    ensures { (handed : Handed B D) → SendsTellTakers (chosen_by T.is_default (λ who. B.decides who) (λ who. B.degrades who)
        (λ who. D.degrades who) handed) }
{}

/// In every run of a new machine, a retry that is answered with `Delivered`, `UnableToDeliver` or `Blocked` offered the message of the
/// blocked send to the subscribers that were left to it, one after the other. The count goes on from where it was, and only full mailboxes
/// are skipped, as at a send. What is decided at the first of them is decided given one retry more than before and the elapsed time that
/// the command names; at a later one, given no retry and no time.
pub fn a_retry_tells_who_took_it<T: Default, B: Decides + Degrades, D: Degrades>()
    ensures { (handed : Handed B D) → RetriesTellTakers (chosen_by T.is_default (λ who. B.decides who) (λ who. B.degrades who)
        (λ who. D.degrades who) handed) }
{}

/// A blocked send that is given up is answered with the number of mailboxes that took its message while it went on. All else stays.
pub fn giving_up_tells_who_took_it<T: Default, B: Decides + Degrades, D: Degrades>()
    ensures { (handed : Handed B D) → GivingUpTellsTakers (chosen_by T.is_default (λ who. B.decides who) (λ who. B.degrades who)
        (λ who. D.degrades who) handed) }
{}

/// An update of a publisher that fails returns the failure at the first place, in order, at which the publisher is to fail. At each
/// place before it no connection failed, or the publisher may go on.
pub fn a_failed_update_of_a_publisher_tells_the_first_failure<
    T: Default,
    B: Decides + Degrades,
    D: Degrades,
>()
    ensures { (handed : Handed B D) → PublisherTellsFirst (chosen_by T.is_default (λ who. B.decides who) (λ who. B.degrades who)
        (λ who. D.degrades who) handed) }
{}

/// An update of a subscriber that fails returns the failure at the first place, in order, at which the subscriber is to fail: memory ran
/// out for the connection, or no more connections may be expired. At each place before it no connection failed, or the subscriber may go
/// on.
pub fn a_failed_update_of_a_subscriber_tells_the_first_failure<
    T: Default,
    B: Decides + Degrades,
    D: Degrades,
>()
    ensures { (handed : Handed B D) → SubscriberTellsFirst (chosen_by T.is_default (λ who. B.decides who) (λ who. B.degrades who)
        (λ who. D.degrades who) handed) }
{}

/// A loan that isn't skipped is refused with `ExceedsMaxLoanSize` exactly if it is longer than a static segment; else with
/// `ExceedsMaxLoans` exactly if the publisher's maximum number of loans is out; else with `OutOfMemory` if it fits the segment and as
/// many messages of it are in use as it has slots: as loans, in the history, waiting or borrowed. A loan that doesn't fit needs a further
/// segment: it may be made if fewer than 255 exist and the length that the strategy says is below 2^32, and may be refused with
/// `OutOfMemory`. Otherwise it is made. A refused loan changes nothing of the publisher. One that is made takes the next message number,
/// and opens exactly one segment, of that length and beginning with this message, if it doesn't fit the current one, and otherwise none.
pub fn a_loan_is_refused_exactly_then<T: Default, B: Decides + Degrades, D: Degrades>()
    ensures { (handed : Handed B D) → LoansAreRefusedSo (chosen_by T.is_default (λ who. B.decides who) (λ who. B.degrades who)
        (λ who. D.degrades who) handed) }
{}

/// A put that isn't skipped is refused because of its loan exactly if a loan of as many values would be refused, and with the same error.
/// It leaves the publisher's segments as that loan would, whatever becomes of its send.
pub fn a_put_is_refused_exactly_then<T: Default, B: Decides + Degrades, D: Degrades>()
    ensures { (handed : Handed B D) → PutsAreRefusedSo (chosen_by T.is_default (λ who. B.decides who) (λ who. B.degrades who)
        (λ who. D.degrades who) handed) }
{}

/// A creation that isn't skipped, while no other node acts, is refused for settings that are impossible; or for memory; or with
/// `HangsInCreation` where a node makes the service, and `AlreadyExists` where it is published or emptied. Otherwise, where it is absent,
/// it gets the number of its factory. Each refusal is the error of that name of the service's pattern.
pub fn a_creation_is_answered_by_the_phase<T: Default, B: Decides + Degrades, D: Degrades>()
    ensures { (handed : Handed B D) → CreationsAnswerSo (chosen_by T.is_default (λ who. B.decides who) (λ who. B.degrades who)
        (λ who. D.degrades who) handed) }
{}

/// An opening that isn't skipped, while no other node acts, is refused for memory; or with `DoesNotExist` where the service is absent, and
/// `HangsInCreation` where a node makes it. Otherwise it is refused for the first clause that isn't met; or if all are met, with
/// `IsMarkedForDestruction` where the service is emptied, and with `ExceedsMaxNumberOfNodes` if the node isn't registered and the maximum
/// number of nodes is. Otherwise it gets the number of its factory. Each refusal is the error of that name of the service's pattern.
pub fn an_opening_is_answered_by_the_phase<T: Default, B: Decides + Degrades, D: Degrades>()
    ensures { (handed : Handed B D) → OpeningsAnswerSo (chosen_by T.is_default (λ who. B.decides who) (λ who. B.degrades who)
        (λ who. D.degrades who) handed) }
{}

/// A publish-subscribe service that a node creates, while no other node acts, has the settings that the command names, where a 0 that would
/// make it useless counts as 1. What isn't named has its default.
pub fn what_is_not_named_has_its_default<T: Default, B: Decides + Degrades, D: Degrades>()
    ensures { (handed : Handed B D) → DefaultsAreKnown (chosen_by T.is_default (λ who. B.decides who) (λ who. B.degrades who)
        (λ who. D.degrades who) handed) }
{}

/// In every run of a new machine, a loan of a publisher for which no slots were named is refused with `OutOfMemory` only if it is longer
/// than the current segment allows, or if more subscribers have messages of the publisher than may be open at once: some that were closed
/// still hold samples.
pub fn the_worst_case_is_enough<T: Default, B: Decides + Degrades, D: Degrades>()
    ensures { (handed : Handed B D) → WorstCaseIsEnough (chosen_by T.is_default (λ who. B.decides who) (λ who. B.degrades who)
        (λ who. D.degrades who) handed) }
{}

/// An update of a subscriber that changes something parts its connections to publishers that are no longer listed at their places: first
/// where another publisher is listed, then where none is. An emptied connection, in which nothing waits and of which nothing is borrowed,
/// ends. Another expires, as the newest, if fewer are expired than may be; else the oldest emptied one ends for it. If none is emptied, the
/// connection ends if nothing is borrowed of it; else the oldest of which nothing is borrowed ends for it; else it stays at its place. So
/// expired connections keep their order, and none of which something is borrowed ends.
pub fn connections_expire_in_order<T: Default, B: Decides + Degrades, D: Degrades>()
    ensures { (handed : Handed B D) → ConnectionsExpireInOrder (chosen_by T.is_default (λ who. B.decides who) (λ who. B.degrades who)
        (λ who. D.degrades who) handed) }
{}

/// A receive that isn't skipped, and whose update didn't fail, ends only expired connections in which nothing waits and of which nothing is
/// borrowed. The others stay expired, in their order.
pub fn a_receive_ends_what_is_emptied<T: Default, B: Decides + Degrades, D: Degrades>()
    ensures { (handed : Handed B D) → ReceivesEndEmptied (chosen_by T.is_default (λ who. B.decides who) (λ who. B.degrades who)
        (λ who. D.degrades who) handed) }
{}

/// A publisher that isn't skipped is refused with `UnableToCreateDataSegment` if its worst case of messages, or its initial slice length,
/// is 2^32 or more; else with `ExceedsMaxSupportedPublishers` exactly if a publisher is listed at each place. Otherwise it gets its
/// number, or is refused with `UnableToCreateDataSegment` for memory.
pub fn a_publisher_is_refused_exactly_then<T: Default, B: Decides + Degrades, D: Degrades>()
    ensures { (handed : Handed B D) → PublishersAreRefusedSo (chosen_by T.is_default (λ who. B.decides who) (λ who. B.degrades who)
        (λ who. D.degrades who) handed) }
{}

/// A subscriber that isn't skipped is refused with `BufferSizeExceedsMaxSupportedBufferSizeOfService` exactly if its buffer is larger
/// than the service allows; else with `ExceedsMaxSupportedSubscribers` exactly if a subscriber is listed at each place. Otherwise it gets
/// its number, or is refused with `OutOfMemory`.
pub fn a_subscriber_is_refused_exactly_then<T: Default, B: Decides + Degrades, D: Degrades>()
    ensures { (handed : Handed B D) → SubscribersAreRefusedSo (chosen_by T.is_default (λ who. B.decides who) (λ who. B.degrades who)
        (λ who. D.degrades who) handed) }
{}

/// An `open_or_create` that isn't skipped, while no other node acts, is answered as an opening where the service isn't absent. Where it is
/// absent, it is refused for settings that are impossible, or for memory, or gets the number of its factory. Each refusal is the one of an
/// opening or a creation, within the error of the service's pattern for both.
pub fn an_open_or_create_is_answered_by_the_phase<T: Default, B: Decides + Degrades, D: Degrades>()
    ensures { (handed : Handed B D) → EitherAnswersSo (chosen_by T.is_default (λ who. B.decides who) (λ who. B.degrades who)
        (λ who. D.degrades who) handed) }
{}

/// In every run of a new machine, no more loans of a publisher are out than its limit, be the publisher open or closed.
pub fn no_more_loans_are_out_than_the_limit<T: Default, B: Decides + Degrades, D: Degrades>()
    ensures { (handed : Handed B D) → LoansAreLimited (chosen_by T.is_default (λ who. B.decides who) (λ who. B.degrades who)
        (λ who. D.degrades who) handed) }
{}

/// A send, or a put whose loan isn't refused, is refused with `ConnectionBrokenSinceSenderNoLongerExists` exactly if its publisher is
/// closed; else with `InternalError` exactly if its last sequence number is 2^64 - 1; else with the first failure of a connection at which
/// the publisher is to fail, as an update would be. Otherwise it is answered with `Delivered`, `Blocked` or `UnableToDeliver`. A skipped
/// one isn't meant.
pub fn a_send_is_refused_exactly_then<T: Default, B: Decides + Degrades, D: Degrades>()
    ensures { (handed : Handed B D) → SendsAreRefusedSo (chosen_by T.is_default (λ who. B.decides who) (λ who. B.degrades who)
        (λ who. D.degrades who) handed) }
{}

/// A command that sets, fills or drops a loan, releases a sample or closes a port is answered with `Done`, unless it is skipped.
pub fn a_simple_command_is_done<T: Default, B: Decides + Degrades, D: Degrades>()
    ensures { (handed : Handed B D) → DoneUnlessSkipped (chosen_by T.is_default (λ who. B.decides who) (λ who. B.degrades who)
        (λ who. D.degrades who) handed) }
{}

/// A loan that is dropped no longer exists. All other loans stay, and so does all else.
pub fn a_drop_ends_one_loan<T: Default, B: Decides + Degrades, D: Degrades>()
    ensures { (handed : Handed B D) → DropsEndLoans (chosen_by T.is_default (λ who. B.decides who) (λ who. B.degrades who)
        (λ who. D.degrades who) handed) }
{}

/// A sample that is released no longer exists, and its message is no longer borrowed from the connection from which it was received. All
/// other samples stay, what else is borrowed, what waits, and all else.
pub fn a_release_ends_one_sample<T: Default, B: Decides + Degrades, D: Degrades>()
    ensures { (handed : Handed B D) → ReleasesEndSamples (chosen_by T.is_default (λ who. B.decides who) (λ who. B.degrades who)
        (λ who. D.degrades who) handed) }
{}

/// A port that leaves is closed, and its list, which changed once more, has it no longer. All other places of the list stay, and so does
/// all else.
pub fn a_leave_closes_one_port<T: Default, B: Decides + Degrades, D: Degrades>()
    ensures { (handed : Handed B D) → LeavesClosePorts (chosen_by T.is_default (λ who. B.decides who) (λ who. B.degrades who)
        (λ who. D.degrades who) handed) }
{}

/// A look for data that isn't skipped is refused exactly as an update of the subscriber alone, and otherwise answered with `Has`. An update
/// that isn't skipped is answered with `Done`, or refused with a failure of a connection.
pub fn a_look_is_refused_as_an_update<T: Default, B: Decides + Degrades, D: Degrades>()
    ensures { (handed : Handed B D) → LooksAnswerAsUpdates (chosen_by T.is_default (λ who. B.decides who) (λ who. B.degrades who)
        (λ who. D.degrades who) handed) }
{}

/// The verdict on a service, by which openings are answered, is the error of the first clause that isn't met: the pattern; for
/// publish-subscribe then types, attributes, safe overflow, sequence numbers, publishers, subscribers, buffer, history, borrowed samples
/// and nodes; for the other patterns their own clauses. If all are met, the verdict is success.
pub fn an_opening_names_the_first_unmet_clause()
    ensures { VerdictsAreSo }
{}

/// Settings, by which creations are answered, are impossible exactly if a number isn't within its limit, which is reported as
/// `InternalFailure`; or else if a service without safe overflow has a shorter buffer than its history, which is reported by its own name.
pub fn impossible_settings_are_refused()
    ensures { SettingsAreRefusedSo }
{}

/// A receive that gives values borrows one message of its connections, which has these values and was the oldest that waited there: the
/// message waits no longer, is the newest that is borrowed there, and is held as a sample of the reported number. All else is as an update
/// alone leaves it, but for the subscriber's expired connections.
pub fn a_receive_borrows_one_message<T: Default, B: Decides + Degrades, D: Degrades>()
    ensures { (handed : Handed B D) → ReceivesBorrow (chosen_by T.is_default (λ who. B.decides who) (λ who. B.degrades who)
        (λ who. D.degrades who) handed) }
{}
