//! Theorems about what commands name: that services and ports are as they were named, and what they are by default; and about what samples
//! hold.
ghost use Rattle.iox_machine.specs.Choices.{Handed, chosen_by};
ghost use Rattle.iox_machine.specs.DefaultLaws.{CreatesAsAsked, PublishersAreAsNamed, SettingsAreAsked, SubscribersAreAsNamed};
ghost use Rattle.iox_machine.specs.EitherLaws.{EitherAnswersMeanwhile};
ghost use Rattle.iox_machine.specs.HeldLaws.{HeldIsBorrowed};
ghost use Rattle.iox_machine.specs.MemoryLaws.{MemoryMaySuffice};
ghost use Rattle.iox_machine.specs.MeanwhileLaws.{CreationsAnswerMeanwhile, NodesAnswerSo, OpeningsAnswerMeanwhile};
ghost use Rattle.iox_machine.specs.ReopeningLaws.{AskedMeetsItself, CreatedMayBeOpened};

use iox_domain_values::{Decides, Degrades};

/// The settings that a command asks for are as it names them, for each pattern, where a 0 that would make the service useless counts as 1.
/// What it doesn't name has its default. These are the settings of a service that a creation makes, or an `open_or_create`, or another
/// node.
pub fn settings_are_as_asked()
    ensures { SettingsAreAsked }
{}

/// A service that a node creates, of whatever pattern, has the settings that the command names, and defaults where it names none. This
/// holds also if other nodes act meanwhile.
pub fn a_service_is_created_as_asked<T: Default, B: Decides + Degrades, D: Degrades>()
    ensures { (handed : Handed B D) → CreatesAsAsked (chosen_by T.is_default (λ who. B.decides who) (λ who. B.degrades who)
        (λ who. D.degrades who) handed) }
{}

/// In every run of a new machine, each publisher has the strategy, the handler's action, the action at a failed connection and the strategy
/// to grow that its command named, or their defaults, for as long as its service lasts. Its first segment has the initial slice length that
/// was named, or 1. So no publisher ignores what was named.
pub fn a_publisher_is_as_named<T: Default, B: Decides + Degrades, D: Degrades>()
    ensures { (handed : Handed B D) → PublishersAreAsNamed (chosen_by T.is_default (λ who. B.decides who) (λ who. B.degrades who)
        (λ who. D.degrades who) handed) }
{}

/// In every run of a new machine, each subscriber has the buffer and the action at a failed connection that its command named, or their
/// defaults, for as long as its service lasts. So no subscriber ignores what was named.
pub fn a_subscriber_is_as_named<T: Default, B: Decides + Degrades, D: Degrades>()
    ensures { (handed : Handed B D) → SubscribersAreAsNamed (chosen_by T.is_default (λ who. B.decides who) (λ who. B.degrades who)
        (λ who. D.degrades who) handed) }
{}

/// In every run of a new machine, the messages that are borrowed from a connection are exactly those of the samples that its subscriber
/// holds of its publisher, in the order in which these were received. So the number of messages that are borrowed is the number of samples
/// that stand, and these are no more than the service allows.
pub fn what_is_borrowed_is_held<T: Default, B: Decides + Degrades, D: Degrades>()
    ensures { (handed : Handed B D) → HeldIsBorrowed (chosen_by T.is_default (λ who. B.decides who) (λ who. B.degrades who)
        (λ who. D.degrades who) handed) }
{}

/// A creation that isn't skipped, whatever other nodes do before its accesses, is refused for settings that are impossible; or for memory;
/// or by the phase that its lookup finds, if a service or another's lock is there. Otherwise it is answered by the phase that its lock
/// finds: with `IsBeingCreatedByAnotherInstance` if another node has locked meanwhile, with `AlreadyExists` if a service is there, and
/// else with the number of its factory.
pub fn a_creation_is_answered_meanwhile<T: Default, B: Decides + Degrades, D: Degrades>()
    ensures { (handed : Handed B D) → CreationsAnswerMeanwhile (chosen_by T.is_default (λ who. B.decides who) (λ who. B.degrades who)
        (λ who. D.degrades who) handed) }
{}

/// An opening that isn't skipped, whatever other nodes do before its accesses, is refused for memory; or answered by the first of at most
/// five rounds that has an answer. A round is answered by the phase that its lookup finds, as an opening while no other node acts; if all
/// clauses are met, by the phase that it finds when the node registers. If the lifetime that was seen is over by then, the next round
/// begins. After five such rounds the opening is refused with `ServiceInCorruptedState`.
pub fn an_opening_is_answered_meanwhile<T: Default, B: Decides + Degrades, D: Degrades>()
    ensures { (handed : Handed B D) → OpeningsAnswerMeanwhile (chosen_by T.is_default (λ who. B.decides who) (λ who. B.degrades who)
        (λ who. D.degrades who) handed) }
{}

/// A node gets the next number, and actions of other nodes are answered with `Done`; or each is refused for memory, and by no other error.
pub fn a_node_is_refused_for_memory_alone<T: Default, B: Decides + Degrades, D: Degrades>()
    ensures { (handed : Handed B D) → NodesAnswerSo (chosen_by T.is_default (λ who. B.decides who) (λ who. B.degrades who)
        (λ who. D.degrades who) handed) }
{}

/// Settings that were asked for meet what asked for them, whichever pattern it is, and so do attributes.
pub fn what_was_asked_for_meets_itself()
    ensures { AskedMeetsItself }
{}

/// What a node has just created can be opened by the same options and attributes, while no other node acts: an opening that isn't skipped
/// gets the number of its factory, or is refused for memory; or another node opens, and the service is for one node alone.
pub fn a_created_service_can_be_opened<T: Default, B: Decides + Degrades, D: Degrades>()
    ensures { (handed : Handed B D) → CreatedMayBeOpened (chosen_by T.is_default (λ who. B.decides who) (λ who. B.degrades who)
        (λ who. D.degrades who) handed) }
{}

/// An `open_or_create` that isn't skipped, whatever other nodes do before its accesses, is refused for memory; or answered by the first of
/// at most five rounds that has an answer. Where a round's lookup finds no service, impossible settings are refused, and otherwise its
/// lock creates the service, unless another node was first: then the next round begins. Where it finds a service, a round is one of an
/// opening. After five rounds without an answer it is refused with `SystemInFlux`.
pub fn an_open_or_create_is_answered_meanwhile<T: Default, B: Decides + Degrades, D: Degrades>()
    ensures { (handed : Handed B D) → EitherAnswersMeanwhile (chosen_by T.is_default (λ who. B.decides who) (λ who. B.degrades who)
        (λ who. D.degrades who) handed) }
{}

/// In any state, each command has an answer that doesn't report that memory ran out, unless more memory is no help: a publisher is too
/// large for its service, or a loan fits its segment or needs a segment that can't open. For this there must be a default value for loans,
/// the values of each message must fit in a vector, and handlers must always choose something.
pub fn memory_may_suffice<T: Default, B: Decides + Degrades, D: Degrades>()
    ensures { (handed : Handed B D) → MemoryMaySuffice (chosen_by T.is_default (λ who. B.decides who) (λ who. B.degrades who)
        (λ who. D.degrades who) handed) }
{}
