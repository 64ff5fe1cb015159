//! From threads back to a domain although some ports never come back.
ghost use Rattle.std.specs.Prelude.{◌≡◌, ◌<◌, ◌+◌, true, false, length, IfOk, IfErr};
ghost use Rattle.std.specs.List.{remove};
ghost use Rattle.iox_lanes_threads.specs.Ending.{has_publisher, has_subscriber};
ghost use Rattle.iox_lanes.specs.Abandoned.{AreOfBoard, IsAbandoned};
ghost use Rattle.iox_lanes.specs.Missing.{missing};

use crate::threads::ending::emptied;
use crate::threads::threads::{DomainBoard, DomainThreads};
use iox_domain::Domain;
use iox_domain_values::{DegradationHandler, Handlers};
use iox_lanes_threads::ending::{
    has_publisher, has_subscriber, knows_publishers, knows_subscribers,
};
use iox_lanes_threads::{Board, LanePublisher, LaneSubscriber};

/// A domain that was taken back from its board, and which of the ports never came back.
///
/// Not in `iceoryx2`.
#[derive(Drop)]
pub struct Abandoned<T, U, B = Handlers, D = DegradationHandler> {
    /// The domain, without messages.
    pub domain: Domain<T, U, B, D>,
    /// The ids of the missing publishers, in the order of their places.
    pub publishers: Vec<u64>,
    /// The ids of the missing subscribers, in the order of their places.
    pub subscribers: Vec<u64>,
}

// Removes the id at this index if the port of its place is there. Returns at which index the id of the next place is.
fn look(left: &mut Vec<u64>, at: usize, is_there: bool) -> usize
    requires { at < length left.old.items }
    ensures goes { is_there ≡ true → (left.new.items ≡ remove left.old.items at) × (result ≡ at) }
    ensures stays { is_there ≡ false → (left.new.items ≡ left.old.items) × (result ≡ at + 1) }
{
    if is_there {
        left.remove(at);
        return at;
    }
    at + 1
}

// Those of the ids of a board's publishers, by place, whose ports are missing.
fn missing_publishers(board: &Board, ids: Vec<u64>, ports: &[LanePublisher]) -> Vec<u64>
    ensures { result.items ≡ missing (λ place. has_publisher board.now place ports.now) 0 ids.items }
{
    let mut left = ids;
    let count = left.len();
    let mut at = 0;
    for place in 0..count {
        at = look(&mut left, at, has_publisher(board, place, ports));
    }
    left
}

// Those of the ids of a board's subscribers, by place, whose ports are missing.
fn missing_subscribers(board: &Board, ids: Vec<u64>, ports: &[LaneSubscriber]) -> Vec<u64>
    ensures { result.items ≡ missing (λ place. has_subscriber board.now place ports.now) 0 ids.items }
{
    let mut left = ids;
    let count = left.len();
    let mut at = 0;
    for place in 0..count {
        at = look(&mut left, at, has_subscriber(board, place, ports));
    }
    left
}

// Whether the board knows all of these ports.
fn are_of_board<T, U, B, D>(
    board: &DomainBoard<T, U, B, D>,
    publishers: &[LanePublisher],
    subscribers: &[LaneSubscriber],
) -> bool
    ensures yes { result ≡ true → AreOfBoard board.now publishers.now subscribers.now }
    ensures no { result ≡ false → AreOfBoard board.now publishers.now subscribers.now → ⊥ }
{
    knows_publishers(&board.board, publishers) && knows_subscribers(&board.board, subscribers)
}

// What a board leaves whose ports are these, and perhaps others that are lost.
fn left<T: Copy, U: Copy, B, D>(
    board: DomainBoard<T, U, B, D>,
    publishers: &[LanePublisher],
    subscribers: &[LaneSubscriber],
) -> Abandoned<T, U, B, D>
    ensures { IsAbandoned board publishers.now subscribers.now result.domain result.publishers.items result.subscribers.items }
{
    let (board, domain, senders, receivers) = board.into_fields();
    let domain = emptied(domain, &senders, publishers);
    Abandoned {
        domain,
        publishers: missing_publishers(&board, senders, publishers),
        subscribers: missing_subscribers(&board, receivers, subscribers),
    }
}

/// Takes a domain back from its board although ports are lost, such as those of a thread that never handed them back. The domain has the
/// same ports as when its lanes began, and no messages; the sequence numbers of each publisher whose port is handed in go on after the last
/// one of its port. It returns which ports are missing. Nothing is allocated.
///
/// The last sequence number of a lost publisher isn't known: in the domain it is the one from when the lanes began. So if messages have
/// sequence numbers, close the missing publishers before they send again. A lost port that goes on stepping changes only words that the
/// domain no longer has.
///
/// If a port belongs to another board, the board and all ports come back as they were. A board identifies a port by its number alone, and
/// nothing is required of the ports, so give each board its own number. Not in `iceoryx2`.
/// Example: `let left = abandon(board, publishers, subscribers).ok()?;`
pub fn abandon<T: Copy, U: Copy, B, D>(
    board: DomainBoard<T, U, B, D>,
    publishers: Vec<LanePublisher>,
    subscribers: Vec<LaneSubscriber>,
) -> Result<Abandoned<T, U, B, D>, DomainThreads<T, U, B, D>>
    ensures abandoned { IfOk result (λ left. AreOfBoard board publishers.items subscribers.items
        × IsAbandoned board publishers.items subscribers.items left.domain left.publishers.items left.subscribers.items) }
    ensures refused { IfErr result (λ threads. (AreOfBoard board publishers.items subscribers.items → ⊥)
        × (threads ≡ record { board = board; publishers = publishers; subscribers = subscribers })) }
{
    if !are_of_board(&board, &publishers, &subscribers) {
        return Err(DomainThreads {
            board,
            publishers,
            subscribers,
        });
    }
    Ok(left(board, &publishers, &subscribers))
}
