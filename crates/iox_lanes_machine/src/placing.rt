//! What a step adds to the order of a connection.
ghost use Rattle.std.specs.Prelude.{◌≡◌, if◌then◌else◌, [], None};
ghost use Rattle.std.specs.Option.{option_to_list};
ghost use Rattle.iox_lanes_machine.specs.QueuesSteps.Ends.{late_put};
ghost use Rattle.iox_lanes_machine.specs.LanesBase.Numbers.{IsWord};
ghost use Rattle.iox_lanes_machine.specs.LanesBase.Table.{held_by};
ghost use Rattle.iox_lanes_machine.specs.Rings.{push_on, sent_word};

use iox_lanes_base::calls::PublisherCall;
use iox_lanes_base::words::{ConnectionRing, SharedWord, WordTable};
use iox_queues_steps::rings::{Push, RingKind};
use iox_queues_steps::{Act, Word};

/// The acts that a step adds to an order, and the connection of that order.
#[derive(Clone, Copy)]
pub(crate) struct Placing {
    pub(crate) connection: Option<u64>,
    pub(crate) first: Option<Act>,
    pub(crate) second: Option<Act>,
}

impl Placing {
    /// Nothing is added.
    pub(crate) fn none() -> Placing
        ensures { result ≡ record { connection = None; first = None; second = None } }
    {
        Placing {
            connection: None,
            first: None,
            second: None,
        }
    }
}

/// A position of the submission ring of a connection.
pub(crate) fn position(table: &WordTable, connection: u64, word: Word) -> u64
    requires { IsWord table.now.sizes (sent_word connection word) }
    ensures { result ≡ held_by table.now (sent_word connection word) }
{
    table.word(SharedWord::Ring {
        connection,
        ring: ConnectionRing::Submission,
        word,
    })
}

/// The push that a call makes on this connection; an idle one if it makes none there.
pub(crate) fn push_on(connection: u64, kind: RingKind, call: PublisherCall) -> Push
    ensures { result ≡ push_on connection kind call }
{
    match call {
        PublisherCall::Pushing { route, push, .. } if route.connection == connection => push,
        _ => Push::idle(kind),
    }
}

/// The put that waited for the pop, if the pop moves the read position.
pub(crate) fn late_put(push: &Push, read: u64, moves: bool) -> Option<Act>
    ensures { option_to_list result ≡ (if moves then late_put read push.now else []) }
{
    if moves { push.late(read) } else { None }
}
