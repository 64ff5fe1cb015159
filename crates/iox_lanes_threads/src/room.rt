//! The memory that all ports need in threads, and how they take their seats.
ghost use Rattle.std.specs.Prelude.{◌≡◌, ◌<◌, ◌≤◌, ◌+◌, ◌++◌, ℕ, List, [], length, IfOk, vec_len, vec_capacity};
ghost use Rattle.std.specs.List.{All};
ghost use Rattle.iox_lanes_machine.specs.LanesBase.Numbers.{words_of, IsSmall};
ghost use Rattle.iox_lanes_machine.specs.LanesBase.declared.calls.subscriber.SubscriberCall.TheVariants as subscribing;
ghost use Rattle.iox_lanes_threads_ports.specs.LanesThreadsRule.Acts.{first_port};
ghost use Rattle.iox_lanes_threads_ports.specs.LanesThreadsRule.Seats.{others_wait, waits, IsWaiting};
ghost use Rattle.iox_lanes_threads_ports.specs.LanesThreadsRule.declared.view.Port.{Port};
ghost use Rattle.iox_lanes_threads_ports.specs.Ports.{PublisherStands, SubscriberStands};
ghost use Rattle.iox_lanes_threads_ports.specs.Values.{HasRoom};
ghost use Rattle.iox_lanes_threads.specs.Opening.{publishers_from, subscribers_from, ports_of, first_view, Fitting, WaitsFor};
ghost use Rattle.iox_lanes_threads.specs.Ports.{opened_publishers, opened_subscribers, MayOpen};
ghost use Rattle.iox_lanes_threads.specs.Threads.{OpenedAs};
ghost use Rattle.iox_lanes_threads.specs.Room.{IsRoomFor};
ghost use Rattle.iox_lanes_threads.specs.Standing.{PublishersStand, SubscribersStand};

use crate::publisher::LanePublisher;
use crate::subscriber::LaneSubscriber;
use crate::table::{Share, next_seat, open_table};
use crate::threads::{Board, LaneThreads};
use iox_lanes_base::words::TableSizes;
use iox_lanes_machine::LaneMachine;
use iox_lanes_parties::{Move, PublisherLane, SubscriberLane};
use iox_lanes_threads_ports::{ThreadedPublisher, ThreadedSubscriber, write_room};
use iox_lanes_threads_rule::WordSeat;
use std::alloc::{AllocError, Global};
use std::snapshot::Snapshot;

/// What the ports of lanes need in threads: their words, a share of the words for each port, and memory for the ports themselves.
pub(crate) struct Room {
    // The lanes as they were.
    of: Snapshot<LaneMachine>,
    words: Share,
    home: WordSeat,
    sizes: TableSizes,
    publisher_shares: Vec<Share>,
    subscriber_shares: Vec<Share>,
    // For each publisher, the write that it begins next, with memory for its words.
    writes: Vec<Move>,
    publishers: Vec<LanePublisher>,
    subscribers: Vec<LaneSubscriber>,
    publisher_room: Vec<PublisherLane>,
    subscriber_room: Vec<SubscriberLane>,
}

// `count` shares of the words.
fn shares(alloc: Global, words: &Share, count: usize) -> Result<Vec<Share>, AllocError>
    ensures { IfOk result (λ made. (length made.items ≡ count) × All (λ share. share ≡ words.now) made.items) }
{
    let mut list = Vec::new(alloc);
    for _share in 0..count {
        list.reserve(1)?;
        list.push_reserved(words.another()?);
    }
    Ok(list)
}

// Memory for `count` writes.
fn writes(alloc: Global, sizes: &TableSizes, count: usize) -> Result<Vec<Move>, AllocError>
    ensures { IfOk result (λ made. (length made.items ≡ count) × All (HasRoom sizes.now) made.items) }
{
    let mut list = Vec::new(alloc);
    for _write in 0..count {
        let room = write_room(alloc, sizes)?;
        list.reserve(1)?;
        list.push_reserved(room);
    }
    Ok(list)
}

// The publisher at the first seat that waits.
fn seat_publisher(
    board: u64,
    place: usize,
    share: Share,
    home: &mut WordSeat,
    sizes: TableSizes,
    lane: PublisherLane,
    asked: Move,
) -> LanePublisher
    requires table { (home.old.table_id ≡ share) × (home.old.table_id.words ≡ words_of sizes) × IsSmall sizes }
    requires waits { IsWaiting home.old.me }
    requires stands { PublisherStands (first_port home.old.me.0.waiting) lane }
    requires service { (first_port home.old.me.0.waiting).service.sizes ≡ sizes }
    requires room { HasRoom sizes asked }
    ensures home { (home.new.table_id ≡ home.old.table_id) × (home.new.me ≡ (others_wait home.old.me.0, [])) }
    ensures value { result
        ≡ record {
          board = board;
          place = place;
          own
              = record { table = home.old.table_id; port = first_port home.old.me.0.waiting; lane = lane };
        } }
{
    let seat = next_seat(&share, home);
    let port = ThreadedPublisher::new(seat, sizes, lane, asked);
    LanePublisher::new(share, board, place, port)
}

// The subscriber at the first seat that waits.
fn seat_subscriber(
    board: u64,
    place: usize,
    share: Share,
    home: &mut WordSeat,
    sizes: TableSizes,
    lane: SubscriberLane,
) -> LaneSubscriber
    requires table { (home.old.table_id ≡ share) × (home.old.table_id.words ≡ words_of sizes) × IsSmall sizes }
    requires waits { IsWaiting home.old.me }
    requires stands { SubscriberStands (first_port home.old.me.0.waiting) lane }
    requires service { (first_port home.old.me.0.waiting).service.sizes ≡ sizes }
    requires idle { lane.port.call ≡ subscribing.Idle }
    ensures home { (home.new.table_id ≡ home.old.table_id) × (home.new.me ≡ (others_wait home.old.me.0, [])) }
    ensures value { result
        ≡ record {
          board = board;
          place = place;
          own
              = record { table = home.old.table_id; port = first_port home.old.me.0.waiting; lane = lane; words = [] };
        } }
{
    let seat = next_seat(&share, home);
    let port = ThreadedSubscriber::new(seat, sizes, lane);
    LaneSubscriber::new(share, board, place, port)
}

// What the publishers need to take their seats: for each a share of the words and a write, and memory for all of them.
struct PublisherNeeds {
    shares: Vec<Share>,
    writes: Vec<Move>,
    seated: Vec<LanePublisher>,
}

// Seats all publishers, in the memory reserved for them.
fn seat_publishers(
    of: &Snapshot<LaneMachine>,
    board: u64,
    home: &mut WordSeat,
    sizes: TableSizes,
    lanes: Vec<PublisherLane>,
    needs: PublisherNeeds,
) -> Vec<LanePublisher>
    requires lanes { (lanes.items ≡ of.now.value.publishers) × PublishersStand of.now.value 0 lanes.items }
    requires sizes { (sizes ≡ of.now.value.table.sizes) × IsSmall sizes × (home.old.table_id.words ≡ words_of sizes) }
    requires home { home.old.me ≡ (first_view of.now.value, []) }
    requires shares { All (λ share. share ≡ home.old.table_id) needs.shares.items }
    requires enough { (length lanes.items ≡ length needs.shares.items) × (length lanes.items ≡ length needs.writes.items)
        × All (HasRoom sizes) needs.writes.items }
    requires room { (needs.seated.items ≡ []) × (length lanes.items ≤ vec_capacity needs.seated) }
    ensures seated { result.items ≡ opened_publishers board home.old.table_id of.now.value 0 lanes.items }
    ensures home { (home.new.table_id ≡ home.old.table_id)
        × (home.new.me ≡ (waits (length lanes.items) (subscribers_from of.now.value 0 of.now.value.subscribers), [])) }
{
    let PublisherNeeds {
        mut shares,
        mut writes,
        mut seated,
    } = needs;
    let mut rest = lanes.into_iter();
    while let Some(lane) = rest.next() {
        let Some(share) = shares.pop() else {
            unreachable!()
        };
        let Some(asked) = writes.pop() else {
            unreachable!()
        };
        let publisher = seat_publisher(board, seated.len(), share, home, sizes, lane, asked);
        seated.push_reserved(publisher);
    }
    seated
}

// Seats all subscribers, in the memory reserved for them.
fn seat_subscribers(
    of: &Snapshot<LaneMachine>,
    board: u64,
    mut shares: Vec<Share>,
    home: &mut WordSeat,
    sizes: TableSizes,
    lanes: Vec<SubscriberLane>,
    mut seated: Vec<LaneSubscriber>,
) -> Vec<LaneSubscriber>
    requires lanes { (lanes.items ≡ of.now.value.subscribers) × SubscribersStand of.now.value 0 lanes.items }
    requires sizes { (sizes ≡ of.now.value.table.sizes) × IsSmall sizes × (home.old.table_id.words ≡ words_of sizes) }
    requires home { home.old.me ≡ (waits (length of.now.value.publishers) (subscribers_from of.now.value 0 of.now.value.subscribers), []) }
    requires shares { All (λ share. share ≡ home.old.table_id) shares.items }
    requires enough { length lanes.items ≡ length shares.items }
    requires room { (seated.items ≡ []) × (length lanes.items ≤ vec_capacity seated) }
    ensures seated { result.items ≡ opened_subscribers board home.old.table_id of.now.value 0 lanes.items }
    ensures home { (home.new.table_id ≡ home.old.table_id) × (home.new.me.0.ports ≡ []) }
{
    let mut rest = lanes.into_iter();
    while let Some(lane) = rest.next() {
        let Some(share) = shares.pop() else {
            unreachable!()
        };
        let subscriber = seat_subscriber(board, seated.len(), share, home, sizes, lane);
        seated.push_reserved(subscriber);
    }
    seated
}

impl Room {
    /// Allocates what the ports of these lanes need. `AllocError` is returned only where an allocation fails.
    pub(crate) fn new(alloc: Global, lanes: &LaneMachine) -> Result<Room, AllocError>
        requires { MayOpen lanes.now }
        ensures { IfOk result (λ room. IsRoomFor lanes.now room) }
    {
        lanes.are_of_one_service();
        let sizes = lanes.table().sizes();
        let publishers = lanes.publishers().len();
        let subscribers = lanes.subscribers().len();
        let (table, home) = open_table(alloc, lanes)?;
        let words = Share::new(alloc, table)?;
        Ok(Room {
            of: Snapshot::of(lanes),
            publisher_shares: shares(alloc, &words, publishers)?,
            subscriber_shares: shares(alloc, &words, subscribers)?,
            words,
            home,
            sizes,
            writes: writes(alloc, &sizes, publishers)?,
            publishers: Vec::with_capacity(alloc, publishers)?,
            subscribers: Vec::with_capacity(alloc, subscribers)?,
            publisher_room: Vec::with_capacity(alloc, publishers)?,
            subscriber_room: Vec::with_capacity(alloc, subscribers)?,
        })
    }

    /// Seats the ports of these lanes, on a board with this number.
    pub(crate) fn seat(self, board: u64, lanes: LaneMachine) -> LaneThreads
        requires room { IsRoomFor lanes self }
        requires may { MayOpen lanes }
        ensures { OpenedAs board lanes result }
    {
        lanes.are_of_one_service();
        lanes.finished();
        let Room {
            of,
            words,
            mut home,
            sizes,
            publisher_shares,
            subscriber_shares,
            writes,
            publishers,
            subscribers,
            publisher_room,
            subscriber_room,
        } = self;
        let (publisher_lanes, subscriber_lanes) = lanes.into_ports();
        let publisher_count = publisher_lanes.len();
        let subscriber_count = subscriber_lanes.len();
        let needs = PublisherNeeds {
            shares: publisher_shares,
            writes,
            seated: publishers,
        };
        let publishers = seat_publishers(&of, board, &mut home, sizes, publisher_lanes, needs);
        let subscribers = seat_subscribers(
            &of,
            board,
            subscriber_shares,
            &mut home,
            sizes,
            subscriber_lanes,
            subscribers,
        );
        LaneThreads {
            board: Board {
                number: board,
                publishers: publisher_count,
                subscribers: subscriber_count,
                words,
                home,
                publisher_room,
                subscriber_room,
            },
            publishers,
            subscribers,
        }
    }
}
