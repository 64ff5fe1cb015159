//! One command, and its reply.
ghost use Rattle.std.specs.Prelude.{◌+◌, ◌<◌, ◌≤◌, ◌^◌, OnErr};
ghost use Rattle.iox_hub_commands.specs.Agreements.{AreOfOneAgreement};
ghost use Rattle.iox_hub_commands.specs.Grown.{GrowsOn, HaveGrown, AreAsAgreed, OneDomainMoves};
ghost use Rattle.iox_hub_commands.specs.Lives.{ChangesOneThing};
ghost use Rattle.iox_hub_commands.specs.Numbers.{numbers_used};
ghost use Rattle.iox_hub_commands.specs.PortRoom.{HasRoom, KeepsRoom};
ghost use Rattle.iox_hub_commands.specs.Terms.{terms_of};
ghost use Rattle.iox_hub.specs.HandledGoing.{StepGoesOnWithHandlers};
ghost use Rattle.iox_hub.specs.Room.{HandledLacks};
ghost use Rattle.iox_hub.specs.Steps.{HandledStep};

use crate::given::GivenHandlers;
use crate::handled_command::HandledCommand;
use crate::handlers::TakesHandlers;
use crate::laws::runs_with_handlers_go_on;
use crate::making::{publisher, subscriber};
use iox_command::Reply;
use iox_describe_base::ZeroCopySend;
use iox_hub_commands::{NumberedHub, SubscriberHandler};
use iox_queues_base::Words;
use std::alloc::{AllocError, Global};

/// Carries out one command, and returns the reply to it: as `NumberedHub::step` does if it names no handler. A port takes the handlers that
/// its command names by their places; if the port is then refused, they are dropped.
///
/// A command is also skipped, and nothing happens, if a place doesn't exist, is empty, or has a handler of the other kind. The handlers
/// that a skipped command names stay in their places.
///
/// Fails as `NumberedHub::step` does, and never if a handler is named.
/// Example: `let reply = step(&mut hub, alloc, HandledCommand::Plain(Command::Node), &mut given)?;`
pub fn step<
    T: Words + ZeroCopySend + Default,
    U: Copy + ZeroCopySend + Default,
    B: TakesHandlers<P, D>,
    D: SubscriberHandler,
    P: Drop,
>(
    hub: &mut NumberedHub<T, U, B, D>,
    alloc: Global,
    command: HandledCommand<T>,
    given: &mut GivenHandlers<P, D>,
) -> Result<Reply<T>, AllocError>
    requires { numbers_used hub.old + 1 < 2 ^ 64 }
    ensures steps { HandledStep (terms_of T.name T.size T.alignment T.is_default U.name U.size U.alignment U.is_default B.fixed
        (λ handlers. B.degrades handlers) (λ handlers. B.decides handlers) D.fixed (λ handler. D.degrades handler))
        (λ strategy action degrading at_full at_failure. B.handled strategy action degrading at_full at_failure) command.entry
        (hub.old, given.old.places.items) result (hub.new, given.new.places.items) }
    ensures counts { numbers_used hub.new ≤ numbers_used hub.old + 1 }
    ensures one { ChangesOneThing hub.old hub.new }
    ensures grows { GrowsOn hub.old.hub hub.new.hub }
    ensures agreed { HaveGrown hub.old.hub.services.domains → AreAsAgreed hub.new.hub.services.domains }
    ensures one_agreement { AreOfOneAgreement hub.old.factories.made hub.old.hub → AreOfOneAgreement hub.new.factories.made hub.new.hub }
    ensures apart { OneDomainMoves hub.old.hub hub.new.hub }
    ensures room { KeepsRoom hub.old hub.new }
    ensures lacks { HasRoom hub.old → OnErr result (HandledLacks command.entry hub.old hub.new) }
    // From any state that the hub represents, the machine may give this reply, so that steps and runs join.
    ensures joins { StepGoesOnWithHandlers (terms_of T.name T.size T.alignment T.is_default U.name U.size U.alignment U.is_default B.fixed
        (λ handlers. B.degrades handlers) (λ handlers. B.decides handlers) D.fixed (λ handler. D.degrades handler))
        (λ strategy action degrading at_full at_failure. B.handled strategy action degrading at_full at_failure) command.entry hub.old
        given.old.places.items result hub.new }
{
    runs_with_handlers_go_on::<T, U, B, D, P>();
    carry_out(hub, alloc, command, given)
}

// Carries out one command, with the step alone as contract, not its consequences.
fn carry_out<
    T: Words + ZeroCopySend + Default,
    U: Copy + ZeroCopySend + Default,
    B: TakesHandlers<P, D>,
    D: SubscriberHandler,
    P: Drop,
>(
    hub: &mut NumberedHub<T, U, B, D>,
    alloc: Global,
    command: HandledCommand<T>,
    given: &mut GivenHandlers<P, D>,
) -> Result<Reply<T>, AllocError>
    requires { numbers_used hub.old + 1 < 2 ^ 64 }
    ensures room { KeepsRoom hub.old hub.new }
    ensures lacks { HasRoom hub.old → OnErr result (HandledLacks command.entry hub.old hub.new) }
    ensures steps { HandledStep (terms_of T.name T.size T.alignment T.is_default U.name U.size U.alignment U.is_default B.fixed
        (λ handlers. B.degrades handlers) (λ handlers. B.decides handlers) D.fixed (λ handler. D.degrades handler))
        (λ strategy action degrading at_full at_failure. B.handled strategy action degrading at_full at_failure) command.entry
        (hub.old, given.old.places.items) result (hub.new, given.new.places.items) }
{
    match command {
        HandledCommand::Plain(command) => hub.step(alloc, command),
        HandledCommand::Publisher {
            factory,
            options,
            at_full,
            at_failure,
        } => Ok(publisher(hub, alloc, factory, &options, (at_full, at_failure), given)),
        HandledCommand::Subscriber {
            factory,
            options,
            at_failure,
        } => Ok(subscriber(hub, alloc, factory, &options, at_failure, given)),
    }
}
