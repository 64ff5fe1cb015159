//! Theorems: which domains become lanes, and what the lanes represent. If the ports represent a service of the machine, they are proved to
//! be sound, under the premises of [`standing_ports_are_sound`].
//!
//! The lanes that they become represent the same service, so calls that don't overlap go on with the machine's run.
//!
//! A theorem is the contract of a function that does nothing. A proof uses it by calling this function; then the theorem is among the facts
//! that the caller knows:
//!
//! ```
//! standing_ports_are_sound::<T, U>();
//! lanes_stand::<T, U, Handlers, DegradationHandler>(opened);
//! ```
#![tactic(auto)]

ghost use Rattle.std.specs.Prelude.{ℕ, List, ◌≡◌, ◌<◌, ◌^◌, ◌⊎◌, length, None, Some};
ghost use Rattle.iox_domain.specs.DomainPorts.declared.attached.Taken.{Taken};
ghost use Rattle.iox_domain.specs.DomainValues.declared.degradation.DegradationCause.TheVariants as cause;
ghost use Rattle.iox_domain_machine.specs.Naming.{Naming};
ghost use Rattle.iox_domain_machine.specs.Standing.{StandsFor};
ghost use Rattle.iox_domain_machine.specs.Tables.{LentSlot};
ghost use Rattle.iox_lanes.specs.Failing.{FailAsAsked};
ghost use Rattle.iox_lanes.specs.Holding.{LanesHold};
ghost use Rattle.iox_lanes.specs.Sized.{AreSized};
ghost use Rattle.iox_lanes.specs.Spelling.{spelling_of};
ghost use Rattle.iox_lanes_machine.specs.Resting.{AllBetween};
ghost use Rattle.iox_lanes_laws.specs.Numbered.{found_messages};
ghost use Rattle.iox_lanes_machine.specs.WholeReads.{CameTo};
ghost use Rattle.iox_lanes_opening.specs.Middles.{middle_count};
ghost use Rattle.iox_lanes_opening.specs.Refusals.{first_reason};
ghost use Rattle.iox_lanes_opening.specs.declared.refusals.into_lanes_error.IntoLanesError.TheVariants as reason;
ghost use Rattle.iox_lanes_sound.specs.AgreedLimits.{AgreedLimitsStay, ReceivesLookAsAgreed};
ghost use Rattle.iox_lanes_sound.specs.Having.{AreReadBack, HaveMessages, lane_names};
ghost use Rattle.iox_lanes_sound.specs.Keeping.{CallsKeepToOne, NeverUnsound};
ghost use Rattle.iox_lanes_sound.specs.Lanes.{StandAsPorts, TurnsGoOnAsPorts};
ghost use Rattle.iox_lanes_sound.specs.Sequences.{SequencesFound, SequencesStayUp, SequencesWait};
ghost use Rattle.iox_lanes_sound.specs.Standing.{StandingPortsAreSound};
ghost use Rattle.iox_lanes_sound.specs.Strays.{AreWithoutStrays, LeaveNoStrays, SomePublisherLags, SomeSubscriberLags};
ghost use Rattle.iox_machine.specs.Choices.{Handed, chosen_by};
ghost use Rattle.iox_machine.specs.Service.{Service};

use iox_domain::Domain;
use iox_domain_values::{Decides, Degrades, Overrides};
use iox_lanes::DomainLanes;
use iox_lanes_opening::refusals::{AsksCaller, FixedDecision};
use iox_queues_base::Words;

/// Ports that represent a service of the machine are never `Unsound`, if they have no loan, no sample, no connection of a closed publisher
/// and no closed port, and if each publisher has three properties that the machine doesn't state: its slots are of one segment, it keeps at
/// most the agreed history, and at least one message may wait at each of its connections. Calls keep these properties, where no capacity
/// grows (`calls_keep_to_one`). Calls leave ports that represent a service (`StandsFor`, by the theorems of `iox_domain_machine`) and are
/// in order (`AreRoomy`, by those of `iox_domain`).
///
/// So each port is listed only at its own place, no two messages of a history or a mailbox are in one slot, no more messages wait at a
/// connection than its maximum, and no two connections of a subscriber come from one publisher.
pub fn standing_ports_are_sound<T, U>()
    ensures { StandingPortsAreSound T U }
{}

/// The lanes that `into_lanes` makes have the messages of each service of the machine that the ports of their domain represent, under the
/// service's names for these. Each publisher has the same history, last sequence number and loan limit. Each connection is the mailbox of
/// its two ports: the same messages wait there, under the same names, with the same values and sequence numbers, and with the same maximum.
/// No two ports of a kind have one name.
///
/// The theorem requires of the lanes what `into_lanes` ensures. It requires of the messages that their words give their values back, and
/// that each has a sequence number exactly if the service agreed on `sequence_numbers` (`AreReadBack`).
pub fn lanes_have_messages<T: Words, U: Words, B: FixedDecision, D: AsksCaller>(
    opened: &DomainLanes<T, U, B, D>,
)
    requires none { first_reason B.decision D.asks opened.now.domain ≡ None }
    requires came { CameTo opened.now.lanes.lanes }
    requires holds { LanesHold
        (spelling_of opened.now.domain.state.ports.sizes.sequence_numbers T.parts T.WORDS U.parts U.WORDS) opened.now.domain
        opened.now.lanes.lanes
        opened.now.publishers.items opened.now.subscribers.items opened.now.connections.items }
    ensures { (names : Naming) (lent : List (ℕ × LentSlot)) (held : List (ℕ × Taken)) (buffer : ℕ) (service : Service T)
        → StandsFor names lent held buffer opened.now.domain.state.ports service
        → AreReadBack T.parts T.of_parts opened.now.domain.state.ports
        → HaveMessages T.of_parts (lane_names names opened.now.domain.state.ports.sizes.sequence_numbers opened.now.publishers.items
        opened.now.subscribers.items opened.now.lanes.lanes) opened.now.lanes.lanes service }
{}

/// The lanes that `into_lanes` makes represent each service of the machine that the ports of their domain represent (`LanesStandFor` of
/// `iox_lanes_service`), under the service's names for these: their publishers and subscribers are those of the service, with the same
/// limits, connections and last sequence numbers. Each has followed the current list of the other side, and is connected to exactly who is
/// listed. What waits and what is in a history is the same, each message with its own number. Nothing is loaned or borrowed, and other
/// mailboxes are empty.
///
/// The theorem requires of the lanes what `into_lanes` ensures. `into_lanes` refuses a domain where a port isn't up to date, where a loan,
/// a sample, a connection of a closed publisher or a closed port exists, or where a handler other than a fixed action decides. After any
/// calls, ports represent a service and are in order (`AreRoomy`). The theorem requires of the messages that their words give their values
/// back, and that each has a sequence number exactly if the service agreed on `sequence_numbers` (`AreReadBack`). If mailboxes may refuse,
/// the decision of the fixed action that is kept for a publisher must be one that may be chosen for the machine's publisher
/// (`DecideAsKept`): this holds if its command named that action, or its handlers are handed in.
pub fn lanes_stand<
    T: Words + Default,
    U: Words,
    B: Decides + Degrades,
    D: Degrades,
    H: FixedDecision,
    K: AsksCaller,
>(opened: &DomainLanes<T, U, H, K>)
    requires none { first_reason H.decision K.asks opened.now.domain ≡ None }
    requires came { CameTo opened.now.lanes.lanes }
    requires between { AllBetween opened.now.lanes.lanes }
    requires fails { FailAsAsked H.decision opened.now.domain opened.now.lanes.lanes opened.now.publishers.items }
    requires sized { AreSized opened.now.domain.state.ports.sizes (length opened.now.publishers.items)
        (length opened.now.subscribers.items) T.WORDS (middle_count opened.now.domain.state.ports.sizes.sequence_numbers U.WORDS)
        opened.now.lanes.lanes }
    requires holds { LanesHold
        (spelling_of opened.now.domain.state.ports.sizes.sequence_numbers T.parts T.WORDS U.parts U.WORDS) opened.now.domain
        opened.now.lanes.lanes
        opened.now.publishers.items opened.now.subscribers.items opened.now.connections.items }
    ensures { (handed : Handed B D) → StandAsPorts H.decision (chosen_by T.is_default (λ who. B.decides who) (λ who. B.degrades who)
        (λ who. D.degrades who) handed) T.parts T.of_parts opened.now.domain opened.now.lanes.lanes opened.now.publishers.items
        opened.now.subscribers.items }
{}

/// Whole calls of the lanes that `into_lanes` makes, none of which overlaps another, are a run of a machine whose one service is the one
/// that the ports of their domain represent. Each call corresponds to a command, with its reply, and afterwards the lanes represent the
/// service that the machine has. The premises are those of `lanes_stand`, and that there are fewer than 2^64 slots, as `into_lanes`
/// ensures. This holds as long as at most 2^63 steps were made.
pub fn turns_go_on_from_ports<
    T: Words + Default,
    U: Words,
    B: Decides + Degrades,
    D: Degrades,
    H: FixedDecision,
    K: AsksCaller,
>(opened: &DomainLanes<T, U, H, K>)
    requires none { first_reason H.decision K.asks opened.now.domain ≡ None }
    requires came { CameTo opened.now.lanes.lanes }
    requires between { AllBetween opened.now.lanes.lanes }
    requires fails { FailAsAsked H.decision opened.now.domain opened.now.lanes.lanes opened.now.publishers.items }
    requires sized { AreSized opened.now.domain.state.ports.sizes (length opened.now.publishers.items)
        (length opened.now.subscribers.items) T.WORDS (middle_count opened.now.domain.state.ports.sizes.sequence_numbers U.WORDS)
        opened.now.lanes.lanes }
    requires holds { LanesHold
        (spelling_of opened.now.domain.state.ports.sizes.sequence_numbers T.parts T.WORDS U.parts U.WORDS) opened.now.domain
        opened.now.lanes.lanes
        opened.now.publishers.items opened.now.subscribers.items opened.now.connections.items }
    requires slots { opened.now.lanes.lanes.table.sizes.slots < 2 ^ 64 }
    ensures { (handed : Handed B D) → TurnsGoOnAsPorts H.decision (chosen_by T.is_default
        (λ who. B.decides who) (λ who. B.degrades who) (λ who. D.degrades who) handed) T.parts T.of_parts
        opened.now.domain opened.now.lanes.lanes opened.now.publishers.items opened.now.subscribers.items }
{}

/// In the lanes that `into_lanes` makes, the sequence numbers of what was found to wait at a connection rise, and are larger than 0 and at
/// most the last number of its publisher, as `gaps_are_missed` of `iox_lanes_laws` requires. This holds if it does in the domain
/// (`SequencesWait`), as `sequences_stay_up` says of any calls. The theorem requires of the lanes what `into_lanes` ensures.
pub fn found_sequences_go_up<T: Words, U: Words, B: FixedDecision, D: AsksCaller>(
    opened: &DomainLanes<T, U, B, D>,
)
    requires none { first_reason B.decision D.asks opened.now.domain ≡ None }
    requires came { CameTo opened.now.lanes.lanes }
    requires messages { opened.now.lanes.messages ≡ found_messages opened.now.lanes.lanes }
    requires holds { LanesHold
        (spelling_of opened.now.domain.state.ports.sizes.sequence_numbers T.parts T.WORDS U.parts U.WORDS) opened.now.domain
        opened.now.lanes.lanes
        opened.now.publishers.items opened.now.subscribers.items opened.now.connections.items }
    ensures { SequencesWait opened.now.domain.state.ports → SequencesFound opened.now.lanes.lanes opened.now.lanes.messages }
{}

/// After any calls of a new service, the sequence numbers of what waits at a connection rise, and are larger than 0 and at most the last
/// number of its publisher, whatever override and handlers answer.
pub fn sequences_stay_up<T, U, O: Overrides, B: Decides + Degrades>(_overriding: &O, _handlers: &B)
    ensures { SequencesStayUp T U (O.overrides _overriding.now) (B.degrades _handlers.now cause.FailedToEstablishConnection)
        (B.decides _handlers.now) }
{}

/// No call leaves a stray tie: a publisher that has followed the current list of subscribers has no connection for a place where nobody is
/// listed. The invariant is `AreWithoutStrays`: each publisher has seen at most as many changes of the list as there were, and if it has
/// seen them all, somebody is listed at each place that is tied to a connection. It holds for a new service (`begins`), after each call,
/// whatever override and handlers answer (`goes_on`), and so after any calls from a new service on (`stays`).
///
/// If ports are as calls leave them, no publisher that has seen all changes has a stray tie (`tame`). So a publisher is up to date exactly
/// if it has seen them all, and shares a connection with each listed subscriber (`current`).
pub fn calls_leave_no_strays<T, U, O: Overrides, B: Decides + Degrades>(
    _overriding: &O,
    _handlers: &B,
)
    ensures { LeaveNoStrays T U (O.overrides _overriding.now) (B.degrades _handlers.now cause.FailedToEstablishConnection)
        (B.decides _handlers.now) }
{}

/// A domain whose ports are as calls leave them (`AreWithoutStrays`) is refused as `ConnectionsNotUpToDate` only if a listed port isn't up
/// to date. Either a listed publisher doesn't exist, hasn't seen all changes of the list of subscribers, or shares no connection with a
/// listed subscriber; or a listed subscriber doesn't exist, hasn't followed the current list of publishers, or has to follow it again.
pub fn refused_where_ports_lag<T, U, B: FixedDecision, D: AsksCaller>(domain: &Domain<T, U, B, D>)
    requires without { AreWithoutStrays domain.now.state.ports }
    requires told { first_reason B.decision D.asks domain.now ≡ Some reason.ConnectionsNotUpToDate }
    ensures { SomePublisherLags domain.now.state.ports ⊎ SomeSubscriberLags domain.now.state.ports }
{}

/// Each publisher whose capacity doesn't grow has slots of one segment, keeps at most the agreed history, and lets at least one message
/// wait at each of its connections. The invariant is `KeepToOneIfStatic`: this holds for each publisher, and at least one message may wait
/// for each subscriber that exists or is listed. It holds for a new service that lets at least one message wait (`begins`), after each
/// call, whatever override and handlers answer (`goes_on`), and so after any calls from a new service on (`stays`).
///
/// If no publisher's capacity may grow (so `NotStatic` isn't returned), this is what `standing_ports_are_sound` requires of each publisher
/// (`static`).
pub fn calls_keep_to_one<T, U, O: Overrides, B: Decides + Degrades>(_overriding: &O, _handlers: &B)
    ensures { CallsKeepToOne T U (O.overrides _overriding.now) (B.degrades _handlers.now cause.FailedToEstablishConnection)
        (B.decides _handlers.now) }
{}

/// A domain whose ports result from calls is never refused as `Unsound`: this holds for any calls from a new service on, if the service
/// lets at least one message wait, whatever override and handlers answer. The ports represent a service of the machine, as the theorems of
/// `iox_domain_machine` say of calls.
pub fn never_refused_as_unsound<
    T,
    U,
    O: Overrides,
    B: Decides + Degrades,
    H: FixedDecision,
    K: AsksCaller,
>(_overriding: &O, _handlers: &B, domain: &Domain<T, U, H, K>)
    ensures { NeverUnsound H.decision K.asks (O.overrides _overriding.now) (B.degrades _handlers.now cause.FailedToEstablishConnection)
        (B.decides _handlers.now) domain.now }
{}

/// Each subscriber of the lanes that `into_lanes` makes keeps the agreed borrow limit, whatever was run on them. So each of their receives
/// that ended only looked at a connection exactly if the agreed maximum of samples was borrowed, and took if fewer were. This holds as long
/// as at most 2^63 steps were made.
pub fn agreed_limits_stay()
    ensures limits { AgreedLimitsStay }
    ensures receives { ReceivesLookAsAgreed }
{}
