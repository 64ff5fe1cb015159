//! Theorems about the calls of a service's ports. They are the contracts of functions that do
//! nothing.
ghost use Rattle.iox_domain.specs.DomainValues.declared.degradation.DegradationCause.TheVariants as cause;
ghost use Rattle.iox_domain.specs.Attaching.{AttachesWithoutMemory, KeysStay};
ghost use Rattle.iox_domain.specs.PortLawsLaws.{HeldStays, ReceivedIsHeld, AtMostOnce, ConnectionsAreKnown, NeedsNoMemory};
ghost use Rattle.iox_domain.specs.Gaps.{GapsTell};
ghost use Rattle.iox_domain.specs.Order.{InOrder};
ghost use Rattle.iox_domain.specs.Tries.{SendReachesOnce, SendWaits};

use iox_domain_values::{Decides, Degrades, Overrides};

/// A held sample reads the same after each call of any port of its service, except a release that names it, whatever the
/// override and the handlers answer.
pub fn held_stays<T, U, O: Overrides, B: Decides + Degrades>(_overriding: &O, _handlers: &B)
    ensures { HeldStays T U (O.overrides _overriding.now)
        (B.degrades _handlers.now cause.FailedToEstablishConnection)
        (B.decides _handlers.now) }
{}

/// What a subscriber receives is held afterwards, so that it can be read, whatever its handler answered.
pub fn received_is_held<T, U, D: Degrades>(_handler: &D)
    ensures { ReceivedIsHeld T U (D.degrades _handler.now cause.FailedToEstablishConnection) }
{}

/// No two places of an open publisher are tied to the same connection, whatever was called before; so a send puts its message
/// into each mailbox at most once.
pub fn at_most_once<T, U, O: Overrides, B: Decides + Degrades>(_overriding: &O, _handlers: &B)
    ensures { AtMostOnce T U (O.overrides _overriding.now)
        (B.degrades _handlers.now cause.FailedToEstablishConnection)
        (B.decides _handlers.now) }
{}

/// Each live connection of an open publisher is known: a subscriber reads it, or a place of the list is tied to it, whatever was
/// called since the service was new. So nothing is left of a subscriber that was created and closed before the publisher followed the
/// list. It leads to a subscriber, and no two connections of a publisher lead to the same one.
pub fn connections_are_known<T, U, O: Overrides, B: Decides + Degrades>(
    _overriding: &O,
    _handlers: &B,
)
    ensures { ConnectionsAreKnown T U (O.overrides _overriding.now)
        (B.degrades _handlers.now cause.FailedToEstablishConnection)
        (B.decides _handlers.now) }
{}

/// A publisher that has a connection to each listed subscriber follows the list without allocating, in its update and in its
/// send. What each call of the service preserves guarantees that each place is within the capacity.
pub fn needs_no_memory<T, U, B: Decides + Degrades>(_handlers: &B)
    ensures { NeedsNoMemory T U (B.degrades _handlers.now cause.FailedToEstablishConnection)
        (B.decides _handlers.now) }
{}

/// After any calls on a new service, what was taken from a connection since it was made, followed by what waits in it, is a
/// subsequence of what its publisher sent: in the order of sending, and each message at most once. And a receive takes one
/// message, whose slot its answer names. This holds whatever the override and the handlers answer.
pub fn in_order<T, U, O: Overrides, B: Decides + Degrades>(_overriding: &O, _handlers: &B)
    ensures { InOrder T U (O.overrides _overriding.now)
        (B.degrades _handlers.now cause.FailedToEstablishConnection)
        (B.decides _handlers.now) }
{}

/// After any calls on a new service, the messages that a publisher sent are numbered consecutively if the service numbers
/// messages, and have no numbers otherwise. Between two messages with numbers m and n that a connection gave one after the
/// other, its publisher sent exactly the n - m - 1 messages with the numbers between, and the connection missed them: each was
/// dropped or skipped, since the connection gave none of them, and none waits in it. This holds for a live connection, whatever
/// the override and the handlers answer.
pub fn gaps_tell<T, U, O: Overrides, B: Decides + Degrades>(_overriding: &O, _handlers: &B)
    ensures { GapsTell T U (O.overrides _overriding.now)
        (B.degrades _handlers.now cause.FailedToEstablishConnection)
        (B.decides _handlers.now) }
{}

/// A send with all of its tries: each connection takes the message at most once in all of them, whatever it got and gave in
/// between. At each place that the send visited the connection took the message if it was live and accepted it. As many are
/// counted as took it, also when the send is given up.
pub fn send_reaches_once<T, U, B: Decides + Degrades>(_handlers: &B)
    ensures { SendReachesOnce T U (B.decides _handlers.now) }
{}

/// If each listed publisher has a connection to the subscriber, no update of the subscriber fails with `OutOfMemory`, whatever
/// its handler answers, nor does a receive or `has_samples`: the subscriber's keys are consistent, and one is free for each
/// place.
pub fn attaches_without_memory<T, U, D: Degrades>(_handler: &D)
    ensures { AttachesWithoutMemory T U (D.degrades _handler.now cause.FailedToEstablishConnection) }
{}

/// A blocked send is where it was after each call of any port of its service, except those that try it again or give it up: its
/// progress, the number of connections that took the message, the message, and the connections to which its places are tied.
pub fn send_waits<T, U, O: Overrides, B: Decides + Degrades>(_overriding: &O, _handlers: &B)
    ensures { SendWaits T U (O.overrides _overriding.now)
        (B.degrades _handlers.now cause.FailedToEstablishConnection)
        (B.decides _handlers.now) }
{}

/// The keys of each subscriber of a service are consistent, and it has a place for each publisher that may be listed: in a new
/// service, and after each call of any of its ports.
pub fn keys_stay<T, U, O: Overrides, B: Decides + Degrades>(_overriding: &O, _handlers: &B)
    ensures { KeysStay T U (O.overrides _overriding.now)
        (B.degrades _handlers.now cause.FailedToEstablishConnection)
        (B.decides _handlers.now) }
{}
