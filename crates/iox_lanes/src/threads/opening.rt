//! From the lanes of a domain to threads.
ghost use Rattle.std.specs.Prelude.{◌≡◌, IfOk, IfErr};
ghost use Rattle.iox_lanes_threads.specs.Ending.{ArePublishersOf, AreSubscribersOf};
ghost use Rattle.iox_lanes_threads.specs.Ports.{MayOpen};
ghost use Rattle.iox_lanes_threads.specs.Threads.{RefusesToOpen};
ghost use Rattle.iox_lanes.specs.Opened.{IsOpened};

use crate::DomainLanes;
use crate::threads::threads::{DomainBoard, DomainThreads};
use iox_domain::Domain;
use iox_lanes_laws::messages::Lanes;
use iox_lanes_threads::{LaneThreads, OpenError};
use iox_queues_base::Words;
use std::alloc::Global;

/// Opens the lanes of a domain for threads, as `open_threads` of `iox_lanes_threads` does; the board keeps the domain as it was when the
/// lanes began. Unlike `Lanes`, threads keep no messages; those that the lanes kept are dropped.
///
/// `board` is the number by which the board knows its ports; give two boards two numbers. The lanes come back as they were with an error if
/// a party is inside a call (`PartyInCall`), a loan or a sample is out (`SamplesOut`), more than 2^63 steps were made (`TooManySteps`), or
/// an allocation fails (`OutOfMemory`), checked in this order. From then on the ports allocate nothing, and they step on the board's own
/// words (`own`), as `end` requires. Not in `iceoryx2`.
/// Example: `let ports = open_threads(alloc, 1, lanes).map_err(|refused| refused.0)?;`
pub fn open_threads<T: Words, U: Words, B, D>(
    alloc: Global,
    board: u64,
    lanes: DomainLanes<T, U, B, D>,
) -> Result<DomainThreads<T, U, B, D>, (OpenError, DomainLanes<T, U, B, D>)>
    ensures opened { IfOk result (λ threads. MayOpen lanes.lanes.lanes
        × IsOpened board lanes.lanes.lanes lanes.domain lanes.publishers.items lanes.subscribers.items threads) }
    ensures own { IfOk result (λ threads. ArePublishersOf threads.board.board threads.publishers.items
        × AreSubscribersOf threads.board.board threads.subscribers.items) }
    ensures refused { IfErr result (λ refused. RefusesToOpen refused.0 lanes.lanes.lanes × (refused.1 ≡ lanes)) }
{
    let DomainLanes {
        lanes,
        domain,
        publishers,
        subscribers,
        connections,
        one,
    } = lanes;
    let (lanes, messages) = lanes.into_parts();
    match iox_lanes_threads::open_threads(alloc, board, lanes) {
        Ok(threads) => Ok(with(threads, domain, publishers, subscribers)),
        Err((error, lanes)) => {
            let lanes = DomainLanes {
                lanes: Lanes::of_parts(alloc, lanes, messages),
                domain,
                publishers,
                subscribers,
                connections,
                one,
            };
            Err((error, lanes))
        }
    }
}

// The threads of lanes. Their board keeps the domain, and the numbers of its publishers and subscribers.
fn with<T, U, B, D>(
    threads: LaneThreads,
    domain: Domain<T, U, B, D>,
    senders: Vec<u64>,
    receivers: Vec<u64>,
) -> DomainThreads<T, U, B, D>
    ensures board { result.board ≡ record
        { board = threads.board; domain = domain; publishers = senders.items; subscribers = receivers.items } }
    ensures publishers { result.publishers ≡ threads.publishers }
    ensures subscribers { result.subscribers ≡ threads.subscribers }
{
    let LaneThreads {
        board,
        publishers,
        subscribers,
    } = threads;
    DomainThreads {
        board: DomainBoard {
            board,
            domain,
            publishers: senders,
            subscribers: receivers,
        },
        publishers,
        subscribers,
    }
}
