//! A list of commands.
ghost use Rattle.std.specs.Prelude.{◌≡◌, ◌+◌, ◌<◌, ◌≤◌, ◌^◌, true, length};
ghost use Rattle.iox_hub_commands.specs.Agreements.{AreOfOneAgreement};
ghost use Rattle.iox_hub_commands.specs.Grown.{GrowsOn, HaveGrown, AreAsAgreed};
ghost use Rattle.iox_hub_commands.specs.Asked.{types_of};
ghost use Rattle.iox_hub_commands.specs.HubBase.declared.hub.HubConfig.{HubConfig};
ghost use Rattle.iox_hub_commands.specs.Lives.{NumbersGoOn};
ghost use Rattle.iox_hub_commands.specs.Numbers.{numbers_used};
ghost use Rattle.iox_hub_commands.specs.PortRoom.{HasRoom, KeepsRoom};
ghost use Rattle.iox_hub_commands.specs.Runs.{IsRun};
ghost use Rattle.iox_hub_commands.specs.Terms.{terms_of};
ghost use Rattle.iox_hub.specs.HandledAnswers.{AnswersWithHandlers};
ghost use Rattle.iox_hub.specs.HandledGoing.{GoesOnWithHandlers};
ghost use Rattle.iox_hub.specs.Room.{HandledStepInRoom, StopsInTime};
ghost use Rattle.iox_hub.specs.Steps.{HandledStep};
ghost use Rattle.iox_hub.specs.Taking.{TakesOnce, taken};

use crate::given::GivenHandlers;
use crate::handled_command::HandledCommand;
use crate::handlers::TakesHandlers;
use crate::laws::{runs_with_handlers_answer, runs_with_handlers_go_on};
use crate::stepping::step;
use iox_describe_base::ZeroCopySend;
use iox_hub_commands::{NumberedHub, RunReport, SubscriberHandler};
use iox_queues_base::Words;
use std::alloc::Global;

/// Carries out commands, one after the other, after capacity was made for all replies. Commands that create ports take the handlers that
/// they name by their places; all other handlers are left in their places.
///
/// It stops before the first command if an allocation fails for that capacity, and then nothing has changed; or at a command that receives
/// or reads, if an allocation fails for the values of its reply, and then those before it have their replies. It makes no capacity for
/// numbers: each port made that when it was created.
///
/// The replies of a new hub are ones that a new machine with the same handed-in handlers may give (`docs/MACHINE.md`). This holds if no two
/// services of the names that are asked for share a hash, commands and actions of other nodes are fewer than 2 ^ 56, and handlers that are
/// made of fixed actions decide by these.
/// Example: `let report = run(&mut hub, alloc, commands, &mut given);`
pub fn run<
    T: Words + ZeroCopySend + Default,
    U: Copy + ZeroCopySend + Default,
    B: TakesHandlers<P, D>,
    D: SubscriberHandler,
    P: Drop,
>(
    hub: &mut NumberedHub<T, U, B, D>,
    alloc: Global,
    commands: Vec<HandledCommand<T>>,
    given: &mut GivenHandlers<P, D>,
) -> RunReport<T>
    requires { numbers_used hub.old + length commands.items < 2 ^ 64 }
    ensures ran { IsRun (HandledStep (terms_of T.name T.size T.alignment T.is_default U.name U.size U.alignment U.is_default B.fixed
        (λ handlers. B.degrades handlers) (λ handlers. B.decides handlers) D.fixed (λ handler. D.degrades handler))
        (λ strategy action degrading at_full at_failure. B.handled strategy action degrading at_full at_failure)) commands.entry.items
        (hub.old, given.old.places.items) result.replies.items result.stopped (hub.new, given.new.places.items) }
    ensures each { IsRun (HandledStepInRoom (terms_of T.name T.size T.alignment T.is_default U.name U.size U.alignment U.is_default B.fixed
        (λ handlers. B.degrades handlers) (λ handlers. B.decides handlers) D.fixed (λ handler. D.degrades handler))
        (λ strategy action degrading at_full at_failure. B.handled strategy action degrading at_full at_failure)) commands.entry.items
        (hub.old, given.old.places.items) result.replies.items result.stopped (hub.new, given.new.places.items) }
    ensures stops { HasRoom hub.old → HaveGrown hub.old.hub.services.domains → result.stopped ≡ true
        → StopsInTime commands.entry.items (hub.old, given.old.places.items) (length result.replies.items)
        (hub.new, given.new.places.items) }
    ensures counts { numbers_used hub.new ≤ numbers_used hub.old + length commands.entry.items }
    ensures room { KeepsRoom hub.old hub.new }
    ensures goes_on { NumbersGoOn hub.old hub.new }
    ensures grows { GrowsOn hub.old.hub hub.new.hub }
    ensures agreed { HaveGrown hub.old.hub.services.domains → AreAsAgreed hub.new.hub.services.domains }
    ensures one_agreement { AreOfOneAgreement hub.old.factories.made hub.old.hub → AreOfOneAgreement hub.new.factories.made hub.new.hub }
    // Exactly the places are emptied that were named by commands that have a reply and weren't skipped; each had a handler, and no place
    // was named twice.
    ensures once { TakesOnce (taken commands.entry.items result.replies.items) given.old.places.items given.new.places.items }
    // The replies of a new hub are ones that a new machine with the same handed-in handlers may give, by the premises in the definition.
    ensures answers { (config : HubConfig) → AnswersWithHandlers (types_of T.name T.size T.alignment U.name U.size U.alignment) T.is_default
        B.fixed (λ strategy action degrading at_full at_failure. B.handled strategy action degrading at_full at_failure)
        (λ handlers. B.degrades handlers) (λ handlers. B.decides handlers) D.fixed (λ handler. D.degrades handler) config
        commands.entry.items hub.old given.old.places.items result.replies.items result.stopped }
    // From any state that the hub represents, the machine may give these replies, so that runs join.
    ensures joins { GoesOnWithHandlers (terms_of T.name T.size T.alignment T.is_default U.name U.size U.alignment U.is_default B.fixed
        (λ handlers. B.degrades handlers) (λ handlers. B.decides handlers) D.fixed (λ handler. D.degrades handler))
        (λ strategy action degrading at_full at_failure. B.handled strategy action degrading at_full at_failure) commands.entry.items
        hub.old given.old.places.items result.replies.items result.stopped hub.new }
{
    runs_with_handlers_go_on::<T, U, B, D, P>();
    runs_with_handlers_answer::<T, U, B, D, P>();
    carry_out_all(hub, alloc, commands, given)
}

// Carries out the commands, with the run alone as contract, not its consequences.
fn carry_out_all<
    T: Words + ZeroCopySend + Default,
    U: Copy + ZeroCopySend + Default,
    B: TakesHandlers<P, D>,
    D: SubscriberHandler,
    P: Drop,
>(
    hub: &mut NumberedHub<T, U, B, D>,
    alloc: Global,
    commands: Vec<HandledCommand<T>>,
    given: &mut GivenHandlers<P, D>,
) -> RunReport<T>
    requires { numbers_used hub.old + length commands.items < 2 ^ 64 }
    ensures ran { IsRun (HandledStep (terms_of T.name T.size T.alignment T.is_default U.name U.size U.alignment U.is_default B.fixed
        (λ handlers. B.degrades handlers) (λ handlers. B.decides handlers) D.fixed (λ handler. D.degrades handler))
        (λ strategy action degrading at_full at_failure. B.handled strategy action degrading at_full at_failure)) commands.entry.items
        (hub.old, given.old.places.items) result.replies.items result.stopped (hub.new, given.new.places.items) }
    ensures each { IsRun (HandledStepInRoom (terms_of T.name T.size T.alignment T.is_default U.name U.size U.alignment U.is_default B.fixed
        (λ handlers. B.degrades handlers) (λ handlers. B.decides handlers) D.fixed (λ handler. D.degrades handler))
        (λ strategy action degrading at_full at_failure. B.handled strategy action degrading at_full at_failure)) commands.entry.items
        (hub.old, given.old.places.items) result.replies.items result.stopped (hub.new, given.new.places.items) }
    ensures stops { HasRoom hub.old → HaveGrown hub.old.hub.services.domains → result.stopped ≡ true
        → StopsInTime commands.entry.items (hub.old, given.old.places.items) (length result.replies.items)
        (hub.new, given.new.places.items) }
    ensures counts { numbers_used hub.new ≤ numbers_used hub.old + length commands.entry.items }
    ensures room { KeepsRoom hub.old hub.new }
{
    let Ok(mut replies) = Vec::with_capacity(alloc, commands.len()) else {
        return RunReport {
            replies: Vec::new(alloc),
            stopped: true,
        };
    };
    for command in commands {
        let Ok(reply) = step(hub, alloc, command, given) else {
            return RunReport {
                replies,
                stopped: true,
            };
        };
        replies.push_reserved(reply);
    }
    RunReport {
        replies,
        stopped: false,
    }
}
