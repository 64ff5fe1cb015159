//! From lanes to threads.
ghost use Rattle.std.specs.Prelude.{◌≡◌, IfOk, IfErr, IfSome, IfNone};
ghost use Rattle.iox_lanes_threads.specs.Ending.{ArePublishersOf, AreSubscribersOf};
ghost use Rattle.iox_lanes_threads.specs.Opening.{Fitting};
ghost use Rattle.iox_lanes_threads.specs.Ports.{MayOpen};
ghost use Rattle.iox_lanes_threads.specs.Threads.{RefusesToOpen, OpenedAs};

use crate::errors::OpenError;
use crate::room::Room;
use crate::threads::LaneThreads;
use iox_lanes_machine::{LaneMachine, Unrest};
use std::alloc::{AllocError, Global};

// The first reason why the lanes may not be opened, if there is one other than an allocation that fails.
fn refusal(lanes: &LaneMachine) -> Option<OpenError>
    ensures some { IfSome result (λ error. RefusesToOpen error lanes.now) }
    ensures none { IfNone result (MayOpen lanes.now) }
{
    match lanes.unrest() {
        Some(Unrest::PartyInCall) => return Some(OpenError::PartyInCall),
        Some(Unrest::SamplesOut) => return Some(OpenError::SamplesOut),
        None => {}
    }
    if lanes.moments() > 1 << 63 {
        return Some(OpenError::TooManySteps);
    }
    None
}

/// Opens lanes for threads: each publisher and each subscriber gets its share of the words, which are as the lanes left them, and may move
/// to a thread of its own. `board` is the number by which the board knows its ports; give two boards two numbers. The lanes come back with
/// an error if a party is inside a call (`PartyInCall`), a loan or a sample is out (`SamplesOut`), more than 2^63 steps were made
/// (`TooManySteps`), or an allocation fails (`OutOfMemory`), checked in this order. From then on the ports allocate nothing.
pub fn open_threads(
    alloc: Global,
    board: u64,
    lanes: LaneMachine,
) -> Result<LaneThreads, (OpenError, LaneMachine)>
    ensures opened { IfOk result (λ threads. MayOpen lanes × OpenedAs board lanes threads) }
    ensures own { IfOk result (λ threads. ArePublishersOf threads.board threads.publishers.items
        × AreSubscribersOf threads.board threads.subscribers.items) }
    ensures refused { IfErr result (λ refused. RefusesToOpen refused.0 lanes × (refused.1 ≡ lanes)) }
{
    if let Some(error) = refusal(&lanes) {
        return Err((error, lanes));
    }
    match Room::new(alloc, &lanes) {
        Ok(room) => Ok(room.seat(board, lanes)),
        Err(AllocError) => Err((OpenError::OutOfMemory, lanes)),
    }
}
