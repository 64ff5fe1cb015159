//! Theorems about runs: consequences of their contracts. Each is the contract of a function that does nothing.
ghost use Rattle.iox_hub_commands.specs.CommandSteps.{Step};
ghost use Rattle.iox_hub_commands.specs.Terms.{terms_of};
ghost use Rattle.iox_hub.specs.HandledGoing.{HandledRunsGoOn, TwoRunsAreOne};
ghost use Rattle.iox_hub.specs.HandledLaws.{HandledRunsAnswer, HandledRunsStand};
ghost use Rattle.iox_hub.specs.RunLaws.{PlainRunsArePlain};
ghost use Rattle.iox_hub.specs.Steps.{HandledStep};

use crate::handlers::TakesHandlers;
use iox_describe_base::ZeroCopySend;
use iox_hub_commands::SubscriberHandler;
use iox_hub_machine::runs::{decided_runs_go_on, new_hub_begins};
use iox_machine::messages_are_short;
use iox_queues_base::Words;

/// A run of commands that name no handler is a run of `NumberedHub::run`, and leaves all handlers in their places.
pub fn plain_commands_take_nothing<
    T: Words + ZeroCopySend + Default,
    U: Copy + ZeroCopySend + Default,
    B: TakesHandlers<P, D>,
    D: SubscriberHandler,
    P: Drop,
>()
    ensures { PlainRunsArePlain (HandledStep (terms_of T.name T.size T.alignment T.is_default U.name U.size U.alignment U.is_default
        B.fixed (λ handlers. B.degrades handlers) (λ handlers. B.decides handlers) D.fixed (λ handler. D.degrades handler))
        (λ strategy action degrading at_full at_failure. B.handled strategy action degrading at_full at_failure))
        (Step (terms_of T.name T.size T.alignment T.is_default U.name U.size U.alignment U.is_default B.fixed
        (λ handlers. B.degrades handlers) (λ handlers. B.decides handlers) D.fixed (λ handler. D.degrades handler))) }
{}

/// The replies of a new hub to commands with handlers are ones that a new machine may give: to all commands, or, if the run stopped, to
/// those before a command at which a run may stop. For each port, by its number, the machine has the handlers that were handed in for it,
/// as the replies say (`handed_in`). A command that doesn't find a handler that it names is skipped, and the machine isn't given it.
/// `IsRun` is what `run` ensures of its replies. This holds if no two services of the names that are asked for share a hash, commands and
/// actions of other nodes are fewer than 2 ^ 56, and handlers that are made of fixed actions decide by these, as `FixedHandlers` and
/// `FixedDegradation` do.
pub fn runs_with_handlers_answer<
    T: Words + ZeroCopySend + Default,
    U: Copy + ZeroCopySend + Default,
    B: TakesHandlers<P, D>,
    D: SubscriberHandler,
    P: Drop,
>()
    ensures { HandledRunsAnswer (terms_of T.name T.size T.alignment T.is_default U.name U.size U.alignment U.is_default B.fixed
        (λ handlers. B.degrades handlers) (λ handlers. B.decides handlers) D.fixed (λ handler. D.degrades handler))
        (λ strategy action degrading at_full at_failure. B.handled strategy action degrading at_full at_failure) }
{
    new_hub_begins::<T, U, B, D>();
    decided_runs_go_on::<T, U, B, D>();
    messages_are_short::<T, B, D>();
}

/// A hub that replied to all commands represents a state that a new machine reaches with the same replies, under the same premises as
/// [`runs_with_handlers_answer`]. So what holds of each state that a run of the machine reaches holds of the state that this hub
/// represents, whichever handlers were handed in.
pub fn runs_with_handlers_stand<
    T: Words + ZeroCopySend + Default,
    U: Copy + ZeroCopySend + Default,
    B: TakesHandlers<P, D>,
    D: SubscriberHandler,
    P: Drop,
>()
    ensures { HandledRunsStand (terms_of T.name T.size T.alignment T.is_default U.name U.size U.alignment U.is_default B.fixed
        (λ handlers. B.degrades handlers) (λ handlers. B.decides handlers) D.fixed (λ handler. D.degrades handler))
        (λ strategy action degrading at_full at_failure. B.handled strategy action degrading at_full at_failure) }
{
    new_hub_begins::<T, U, B, D>();
    decided_runs_go_on::<T, U, B, D>();
}

/// From any state that a hub represents, a run with handlers goes on as the machine does from there, under the same premises as
/// [`runs_with_handlers_answer`]. The machine may have further handlers for other ports, so any number of runs, one after the other, are
/// one run of a machine that has the handlers of all.
pub fn runs_with_handlers_go_on<
    T: Words + ZeroCopySend + Default,
    U: Copy + ZeroCopySend + Default,
    B: TakesHandlers<P, D>,
    D: SubscriberHandler,
    P: Drop,
>()
    ensures { HandledRunsGoOn (terms_of T.name T.size T.alignment T.is_default U.name U.size U.alignment U.is_default B.fixed
        (λ handlers. B.degrades handlers) (λ handlers. B.decides handlers) D.fixed (λ handler. D.degrades handler))
        (λ strategy action degrading at_full at_failure. B.handled strategy action degrading at_full at_failure) }
{
    decided_runs_go_on::<T, U, B, D>();
}

/// Runs that replied to all, one after the other, are one run of a machine that has the handlers of all, under the premises of each: what
/// `run` and `step` ensure of themselves (`joins`) is all that it takes. Commands and actions of other nodes are counted together.
pub fn two_runs_are_one<
    T: Words + ZeroCopySend + Default,
    U: Copy + ZeroCopySend + Default,
    B: TakesHandlers<P, D>,
    D: SubscriberHandler,
    P: Drop,
>()
    ensures { TwoRunsAreOne (terms_of T.name T.size T.alignment T.is_default U.name U.size U.alignment U.is_default B.fixed
        (λ handlers. B.degrades handlers) (λ handlers. B.decides handlers) D.fixed (λ handler. D.degrades handler))
        (λ strategy action degrading at_full at_failure. B.handled strategy action degrading at_full at_failure) }
{}
