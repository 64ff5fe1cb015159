//! Runs of commands.
ghost use Rattle.iox_hub_base.specs.DescribeBase.Detail.{detail};
ghost use Rattle.iox_hub_base.specs.DescribeBase.declared.type_detail.TypeVariant.TheVariants.{FixedSize};
ghost use Rattle.iox_hub_commands.specs.Asked.{types_of};
ghost use Rattle.iox_hub_commands.specs.Terms.{terms_of};
ghost use Rattle.iox_machine.specs.Choices.{Handed, chosen_by};
ghost use Rattle.iox_hub_machine.specs.GoingOnLaws.{DecidedRunsGoOn, NewHubBegins, RunsGoOn};
ghost use Rattle.iox_hub_machine.specs.RunLaws.{RunAnswers, RunStands};

use iox_describe_base::ZeroCopySend;
use iox_domain_values::{Decides, Degrades};
use iox_hub_commands::{PublisherHandlers, SubscriberHandler};
use iox_machine::messages_are_short;

/// A new hub represents a new machine, after no command, whatever names are asked for.
pub fn new_hub_begins<
    T: ZeroCopySend + Default,
    U: ZeroCopySend,
    B: PublisherHandlers,
    D: SubscriberHandler,
>()
    ensures { (handed : Handed B D)
        → NewHubBegins U (types_of T.name T.size T.alignment U.name U.size U.alignment)
        (chosen_by T.is_default (λ handlers. B.decides handlers)
        (λ handlers. B.degrades handlers) (λ handler. D.degrades handler) handed)
        (λ handlers. B.degrades handlers) (λ handlers. B.decides handlers) (λ handler. D.degrades handler) }
{}

/// A hub that represents a state of the machine goes on as the machine does from there. The machine may give the hub's replies to the
/// commands, or to those before the one at which the run stops. If the run doesn't stop, the hub then represents the machine's state; if it
/// stops at a command, the machine's state before that command, or after it, if the values of the newest sample fit in a vector.
///
/// `StandsAfter` is the premise on the hub: it holds of a new hub after no command (`new_hub_begins`), and a run keeps it; so two runs of a
/// hub make one. `IsRun` is what `NumberedHub::run` ensures of its replies. No two services of the names that are asked for may share a
/// hash, all commands and actions of other nodes, with those before the run, must be fewer than 2 ^ 56, and handlers that are made of fixed
/// actions must decide by these, as `FixedHandlers` and `FixedDegradation` do. For each port that is created later, what was named for it
/// must be a choice; this is so if no handlers are handed in for these ports, whatever the handlers of earlier ports are.
pub fn runs_go_on<
    T: ZeroCopySend + Default,
    U: ZeroCopySend + Default,
    B: PublisherHandlers,
    D: SubscriberHandler,
>()
    ensures { (handed : Handed B D) → RunsGoOn (terms_of T.name T.size T.alignment T.is_default U.name U.size U.alignment U.is_default
        B.fixed (λ handlers. B.degrades handlers) (λ handlers. B.decides handlers) D.fixed (λ handler. D.degrades handler))
        (chosen_by T.is_default (λ handlers. B.decides handlers) (λ handlers. B.degrades handlers) (λ handler. D.degrades handler) handed) }
{}

/// As [`runs_go_on`], with any handlers of new ports, made of actions or handed in for one command. Whatever these may decide and answer
/// must be a choice for the port with the number that it gets; this holds if the choices name the handed-in handlers by this number
/// (`chosen_by`).
pub fn decided_runs_go_on<
    T: ZeroCopySend + Default,
    U: ZeroCopySend + Default,
    B: Decides + Degrades,
    D: Degrades,
>()
    ensures { (handed : Handed B D) → DecidedRunsGoOn (types_of T.name T.size T.alignment U.name U.size U.alignment)
        (chosen_by T.is_default (λ handlers. B.decides handlers) (λ handlers. B.degrades handlers) (λ handler. D.degrades handler) handed)
        (λ handlers. B.degrades handlers) (λ handlers. B.decides handlers) (λ handler. D.degrades handler)
        (detail FixedSize T.name T.size T.alignment) (detail FixedSize U.name U.size U.alignment) U.is_default }
{}

/// The replies of a new hub to commands are ones that a new machine may give: to all of them, or, if the run stopped, to those before a
/// command at which a run may stop. A run may stop before its first reply, and at a receive or a read that the machine may answer with
/// values. `IsRun` is what `NumberedHub::run` ensures of its replies. No two services of the names that are asked for may share a hash,
/// commands and actions of other nodes must be fewer than 2 ^ 56, and handlers that are made of fixed actions must decide by these, as
/// `FixedHandlers` and `FixedDegradation` do.
pub fn runs_answer<
    T: ZeroCopySend + Default,
    U: ZeroCopySend + Default,
    B: PublisherHandlers,
    D: SubscriberHandler,
>()
    ensures { RunAnswers (terms_of T.name T.size T.alignment T.is_default U.name U.size U.alignment U.is_default B.fixed
        (λ handlers. B.degrades handlers) (λ handlers. B.decides handlers) D.fixed (λ handler. D.degrades handler)) }
{
    messages_are_short::<T, B, D>();
}

/// A hub that replied to all commands represents a state that a new machine reaches with the same replies, under the same premises as
/// [`runs_answer`]. So what holds of each state that a run of the machine reaches holds of the state that this hub represents.
pub fn runs_stand<
    T: ZeroCopySend + Default,
    U: ZeroCopySend + Default,
    B: PublisherHandlers,
    D: SubscriberHandler,
>()
    ensures { RunStands (terms_of T.name T.size T.alignment T.is_default U.name U.size U.alignment U.is_default B.fixed
        (λ handlers. B.degrades handlers) (λ handlers. B.decides handlers) D.fixed (λ handler. D.degrades handler)) }
{}
