//! Two lists of commands on one hub, each with the handlers that are handed in for it, and a typed call between them.
ghost use Rattle.std.specs.Prelude.{◌≡◌, ◌+◌, ◌<◌, ◌^◌, [], ◌∷◌, false, length, MatchOption};
ghost use Rattle.std.specs.Option.{option_map_or};
ghost use Rattle.iox_hub.specs.HubBase.declared.hub.HubConfig.{HubConfig};
ghost use Rattle.iox_hub_commands.specs.Command.declared.command.Command.TheVariants as command;
ghost use Rattle.iox_hub_commands.specs.Numbers.{IsNew, numbers_used};
ghost use Rattle.iox_hub_machine.specs.TypedSteps.{told_sent};
ghost use Rattle.example_bus.specs.Joined.{AreOneRun, IsHandledStep, number_terms};

use iox_delivery::kind;
use iox_hub::laws::two_runs_are_one;
use iox_hub::prelude::*;
use iox_hub::{GivenHandlers, HandledCommand, TakesHandlers, run};
use iox_hub_commands::{NumberedHub, PublisherHandlers, RunReport, SubscriberHandler};
use iox_hub_machine::runs::new_hub_begins;
use iox_hub_machine::typed::typed_publisher_calls_are_steps;

/// Sends values by the publisher with a number, as a typed call does: the command `Put` of the machine. None, and nothing happens, if the
/// publisher isn't open, or a send of it is blocked.
pub fn put<B: PublisherHandlers, D: SubscriberHandler>(
    alloc: Global,
    hub: &mut NumberedHub<u64, u64, B, D>,
    number: u64,
    values: &[u64],
) -> Option<Result<Sent<u64, u64>, SendError>>
    ensures kept { numbers_used hub.new ≡ numbers_used hub.old }
    ensures puts { MatchOption result (hub.new ≡ hub.old) (λ sent. IsHandledStep (number_terms B.fixed (λ handlers. B.degrades handlers)
        (λ handlers. B.decides handlers) D.fixed (λ handler. D.degrades handler)) (command.Put number values.now) hub.old
        (told_sent sent) hub.new) }
{
    typed_publisher_calls_are_steps::<u64, u64, kind::Slice, B, D>();
    let port = hub.made.publisher(number)?;
    let publisher = slice::Publisher::of_port(
        port,
        BackpressureStrategy::DiscardData,
        values.len(),
        TypeVariant::Dynamic,
    );
    if !publisher.holds(&hub.hub) || publisher.is_blocked(&hub.hub) {
        return None;
    }
    Some(publisher.send_slice(alloc, &mut hub.hub, values))
}

/// Carries out two lists of commands, and between them a typed call of the publisher with a number, if it can send. If a new hub replied to
/// all commands, this is one run of a new machine, whose ports have the handlers that were handed in for them.
pub fn run_around<B: TakesHandlers<P, D>, D: SubscriberHandler, P: Drop>(
    alloc: Global,
    hub: &mut NumberedHub<u64, u64, B, D>,
    first: Vec<HandledCommand<u64>>,
    at_first: &mut GivenHandlers<P, D>,
    number: u64,
    values: &[u64],
    second: Vec<HandledCommand<u64>>,
    at_second: &mut GivenHandlers<P, D>,
) -> (
    RunReport<u64>,
    Option<Result<Sent<u64, u64>, SendError>>,
    RunReport<u64>,
)
    requires { numbers_used hub.old + length first.items + length second.items < 2 ^ 64 }
    ensures { (config : HubConfig) → IsNew config hub.old → result.0.stopped ≡ false → result.2.stopped ≡ false
        → AreOneRun (number_terms B.fixed (λ handlers. B.degrades handlers) (λ handlers. B.decides handlers) D.fixed
        (λ handler. D.degrades handler))
        (λ strategy action degrading at_full at_failure. B.handled strategy action degrading at_full at_failure)
        config.expired_connection_buffer first.entry.items at_first.old.places.items result.0.replies.items
        (option_map_or (λ sent. command.Put number values.now ∷ []) result.1 []) (option_map_or (λ sent. told_sent sent ∷ []) result.1 [])
        second.entry.items at_second.old.places.items result.2.replies.items }
{
    new_hub_begins::<u64, u64, B, D>();
    two_runs_are_one::<u64, u64, B, D, P>();
    let replied = run(hub, alloc, first, at_first);
    let sent = put(alloc, hub, number, values);
    (replied, sent, run(hub, alloc, second, at_second))
}
