//! From threads back to lanes.
ghost use Rattle.std.specs.Prelude.{◌≡◌, ◌<◌, ◌≤◌, ◌++◌, ℕ, true, false, [], map, length, IfOk, IfErr, vec_capacity};
ghost use Rattle.std.specs.List.{All};
ghost use Rattle.iox_lanes_threads_ports.specs.LanesThreadsRule.Gathered.{Agree};
ghost use Rattle.iox_lanes_threads.specs.Ending.{knows_publishers, knows_subscribers, has_publisher, has_subscriber, AreAll};
ghost use Rattle.iox_lanes_threads.specs.Ending.{ArePublishersOf, AreSubscribersOf};

use crate::errors::EndError;
use crate::publisher::LanePublisher;
use crate::subscriber::LaneSubscriber;
use crate::table::Share;
use crate::threads::{Board, LaneThreads};
use iox_lanes_parties::{PublisherLane, SubscriberLane};
use iox_lanes_threads_rule::{WordSeat, agree, gather};

/// The ports of a service after their threads ended. Loans and samples that were still out are void, since the words are gone.
#[derive(Drop)]
pub struct EndedThreads {
    /// The lanes of the publishers, in the order in which the publishers were handed in.
    pub publishers: Vec<PublisherLane>,
    /// The lanes of the subscribers, in the order in which the subscribers were handed in.
    pub subscribers: Vec<SubscriberLane>,
}

/// Whether the board knows all of these publishers by its number.
pub fn knows_publishers(board: &Board, ports: &[LanePublisher]) -> bool
    ensures { result ≡ knows_publishers board.now ports.now }
{
    ports.iter().all(|port| board.knows(port))
}

/// Whether the board knows all of these subscribers by its number.
pub fn knows_subscribers(board: &Board, ports: &[LaneSubscriber]) -> bool
    ensures { result ≡ knows_subscribers board.now ports.now }
{
    ports.iter().all(|port| board.knows(port))
}

/// Whether one of the publishers is the board's publisher at this place.
pub fn has_publisher(board: &Board, place: usize, ports: &[LanePublisher]) -> bool
    ensures { result ≡ has_publisher board.now place ports.now }
{
    ports
        .iter()
        .any(|port| board.knows(port) && port.place() == place)
}

/// Whether one of the subscribers is the board's subscriber at this place.
pub fn has_subscriber(board: &Board, place: usize, ports: &[LaneSubscriber]) -> bool
    ensures { result ≡ has_subscriber board.now place ports.now }
{
    ports
        .iter()
        .any(|port| board.knows(port) && port.place() == place)
}

// Whether each of the board's places for publishers has one.
fn at_each_publisher(board: &Board, ports: &[LanePublisher]) -> bool
    ensures all { result ≡ true → (place : ℕ) → place < board.now.publishers → has_publisher board.now place ports.now ≡ true }
    ensures lacks { result ≡ false → (place : ℕ) × (place < board.now.publishers) × (has_publisher board.now place ports.now ≡ false) }
{
    for place in 0..board.publishers {
        if !has_publisher(board, place, ports) {
            return false;
        }
    }
    true
}

// Whether each of the board's places for subscribers has one.
fn at_each_subscriber(board: &Board, ports: &[LaneSubscriber]) -> bool
    ensures all { result ≡ true → (place : ℕ) → place < board.now.subscribers → has_subscriber board.now place ports.now ≡ true }
    ensures lacks { result ≡ false → (place : ℕ) × (place < board.now.subscribers) × (has_subscriber board.now place ports.now ≡ false) }
{
    for place in 0..board.subscribers {
        if !has_subscriber(board, place, ports) {
            return false;
        }
    }
    true
}

/// Whether these are all ports of the board: as many as it has, with its number, and one at each place.
pub fn are_all(board: &Board, publishers: &[LanePublisher], subscribers: &[LaneSubscriber]) -> bool
    ensures all { result ≡ true → AreAll board.now publishers.now subscribers.now }
    ensures lacks { result ≡ false → AreAll board.now publishers.now subscribers.now → ⊥ }
{
    if publishers.len() != board.publishers || subscribers.len() != board.subscribers {
        return false;
    }
    if !knows_publishers(board, publishers) || !knows_subscribers(board, subscribers) {
        return false;
    }
    at_each_publisher(board, publishers) && at_each_subscriber(board, subscribers)
}

// Gathers the seats of the publishers in one seat, and returns their lanes in the memory reserved for them.
fn gather_publishers(
    words: &Share,
    home: &mut WordSeat,
    ports: Vec<LanePublisher>,
    room: Vec<PublisherLane>,
) -> Vec<PublisherLane>
    requires room { (room.items ≡ []) × (length ports.items ≤ vec_capacity room) }
    requires table { (home.old.table_id ≡ words.now) × (0 < words.now.words) }
    requires tables { All (λ p. p.own.table ≡ words.now) ports.items }
    ensures lanes { result.items ≡ map (λ p. p.own.lane) ports.items }
    ensures table { home.new.table_id ≡ home.old.table_id }
    ensures home { home.new.me.0.ports ≡ home.old.me.0.ports ++ map (λ p. p.own.port) ports.items }
{
    let mut lanes = room;
    let mut rest = ports.into_iter();
    while let Some(port) = rest.next() {
        let (seat, lane) = port.into_parts();
        gather(words.words(), home, seat);
        lanes.push_reserved(lane);
    }
    lanes
}

// Gathers the seats of the subscribers in one seat, and returns their lanes in the memory reserved for them.
fn gather_subscribers(
    words: &Share,
    home: &mut WordSeat,
    ports: Vec<LaneSubscriber>,
    room: Vec<SubscriberLane>,
) -> Vec<SubscriberLane>
    requires room { (room.items ≡ []) × (length ports.items ≤ vec_capacity room) }
    requires table { (home.old.table_id ≡ words.now) × (0 < words.now.words) }
    requires tables { All (λ p. p.own.table ≡ words.now) ports.items }
    ensures lanes { result.items ≡ map (λ p. p.own.lane) ports.items }
    ensures table { home.new.table_id ≡ home.old.table_id }
    ensures home { home.new.me.0.ports ≡ home.old.me.0.ports ++ map (λ p. p.own.port) ports.items }
{
    let mut lanes = room;
    let mut rest = ports.into_iter();
    while let Some(port) = rest.next() {
        let (seat, lane) = port.into_parts();
        gather(words.words(), home, seat);
        lanes.push_reserved(lane);
    }
    lanes
}

/// Ends all ports of a board: returns their lanes, each as its port left it. The words are gone. It allocates nothing. If a port is missing
/// or belongs to another board, it returns `NotAllPorts` with the board and all ports.
///
/// A board identifies a port by its number alone. So `end` requires that each port with the board's number steps on the board's own words,
/// which `open_threads` ensures (`own`) and each call of a port keeps (`same`). Ports of other boards may be handed in, and are refused. In
/// return `end` ensures that what a subscriber has read of a sample that it still holds is what the publisher knows of the slot, if the
/// ports know that no write position came to 2^64 - 1.
pub fn end(
    board: Board,
    publishers: Vec<LanePublisher>,
    subscribers: Vec<LaneSubscriber>,
) -> Result<EndedThreads, (EndError, LaneThreads)>
    requires publishers { ArePublishersOf board publishers.items }
    requires subscribers { AreSubscribersOf board subscribers.items }
    ensures ended { IfOk result (λ ended. AreAll board publishers.items subscribers.items
        × (ended.publishers.items ≡ map (λ p. p.own.lane) publishers.items)
        × (ended.subscribers.items ≡ map (λ s. s.own.lane) subscribers.items)) }
    ensures agree { IfOk result (λ _. Agree (map (λ p. p.own.port) publishers.items ++ map (λ s. s.own.port) subscribers.items)) }
    ensures refused { IfErr result (λ refused. (AreAll board publishers.items subscribers.items → ⊥)
        × (refused.1 ≡ record { board = board; publishers = publishers; subscribers = subscribers })) }
{
    if !are_all(&board, &publishers, &subscribers) {
        let threads = LaneThreads {
            board,
            publishers,
            subscribers,
        };
        return Err((EndError::NotAllPorts, threads));
    }
    let Board {
        number: _,
        publishers: _,
        subscribers: _,
        words,
        mut home,
        publisher_room,
        subscriber_room,
    } = board;
    let publishers = gather_publishers(&words, &mut home, publishers, publisher_room);
    let subscribers = gather_subscribers(&words, &mut home, subscribers, subscriber_room);
    agree(words.words(), home);
    Ok(EndedThreads {
        publishers,
        subscribers,
    })
}
