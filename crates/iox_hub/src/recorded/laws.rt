//! Theorems about recorded hubs: consequences of the contracts of their calls. Each is the contract of a function that does nothing.
ghost use Rattle.iox_machine.specs.Choices.{Handed, chosen_by};
ghost use Rattle.iox_hub.specs.RecordedLaws.{AsAskedIsMet, DecidesForCalls, OneDecidesForCalls, ReadsAreFollowed, ReadsAsReceived};

use iox_domain_values::{Decides, Degrades};
use iox_hub_commands::{FixedDegradation, FixedHandlers, PublisherHandlers, SubscriberHandler};
use iox_hub_machine::fixed_actions_are_answered;
use iox_machine::samples_read_the_same;

/// A read of a sample returns the values that were received, whatever calls were made in between. `RecordedHub::payload` says that the
/// machine may give these answers to the whole record followed by the command `Read`. The receive is one of the record's commands, with as
/// many answers before it as commands.
pub fn samples_read_as_received<T: Default, B: Decides + Degrades, D: Degrades>()
    ensures { (handed : Handed B D) → ReadsAsReceived (chosen_by T.is_default (λ who. B.decides who) (λ who. B.degrades who)
        (λ who. D.degrades who) handed) }
{
    samples_read_the_same::<T, B, D>();
}

/// If the premises of calls (`AreFollowed`) hold, they still hold with one more read, provided that the calls and the actions of other
/// nodes that they name are fewer than 2^56 - 1. So the premises of the calls so far give the premise of `RecordedHub::payload`.
pub fn reads_are_followed<T, B: PublisherHandlers, D: SubscriberHandler>()
    ensures { ReadsAreFollowed T B.fixed (λ handlers. B.degrades handlers) (λ handlers. B.decides handlers) D.fixed
        (λ handler. D.degrades handler) }
{}

/// A fixed action answers and decides as it says. So if ports have only fixed actions, as in `RecordedHub<T, U>`, the premises
/// (`AreFollowed`) are just these: no two services of the names that are asked for share a hash, the calls and the actions of other nodes
/// that they name are fewer than 2^56, and each received message fits in a vector. The ports of the machine do what their options name.
pub fn fixed_actions_decide_for_calls<T>()
    ensures { DecidesForCalls T ⟦<FixedHandlers as PublisherHandlers>⟧.fixed ⟦<FixedHandlers as Degrades>⟧.degrades
        ⟦<FixedHandlers as Decides>⟧.decides ⟦<FixedDegradation as SubscriberHandler>⟧.fixed ⟦<FixedDegradation as Degrades>⟧.degrades }
{
    fixed_actions_are_answered();
}

/// If all handlers of a type are one value, whatever actions they are made of, as `Nobody` is, the premises (`AreFollowed`) are just the
/// same as for fixed actions. The ports of the machine have this value.
pub fn one_value_decides_for_calls<T, B: PublisherHandlers, D: SubscriberHandler>()
    ensures { OneDecidesForCalls T B.fixed (λ handlers. B.degrades handlers) (λ handlers. B.decides handlers) D.fixed
        (λ handler. D.degrades handler) }
{}

/// The agreement of a service is as it was asked for, in the machine's terms, as `RecordedHub::open_or_create` says. Then it is also as
/// asked for in the terms of the code: it meets each clause of the requirement and is within the limits of a description, or it is exactly
/// what is required. The premise is that the description has the form of one, as `PortFactory::description` says.
pub fn what_is_as_asked_is_met()
    ensures { AsAskedIsMet }
{}
