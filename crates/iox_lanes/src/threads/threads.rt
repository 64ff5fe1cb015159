//! All ports of a domain in threads.
ghost use Rattle.std.specs.Prelude.{◌≡◌, ◌==◌, ◌≤◌, ◌<◌, ◌∷◌, ◌++◌, [], ℕ, length, slice_get, position, vec_capacity};
ghost use Rattle.std.specs.Prelude.{IfSome, IfNone, IfErr, OnOk, Some, None};
ghost use Rattle.std.specs.List.{remove};
ghost use Rattle.iox_lanes_threads.specs.Ending.{ArePublishersOf, AreSubscribersOf, IsPublisherOf, IsSubscriberOf};
ghost use Rattle.iox_lanes_threads.specs.Ports.{BoardState};
ghost use Rattle.iox_lanes.specs.Ids.{is_id, has_publisher_id, has_subscriber_id};

use crate::threads::publisher::Publisher;
use crate::threads::subscriber::Subscriber;
use iox_domain::Domain;
use iox_domain_values::{DegradationHandler, Handlers};
use iox_lanes_threads::{Board, LanePublisher, LaneSubscriber, OnBoard};
use std::marker::Model;

/// The board of a domain's ports in threads, with the domain as it was when its lanes began.
///
/// Not in `iceoryx2`.
pub struct DomainBoard<T, U, B = Handlers, D = DegradationHandler> {
    pub(crate) board: Board,
    pub(crate) domain: Domain<T, U, B, D>,
    // The numbers of the publishers, by place.
    pub(crate) publishers: Vec<u64>,
    // The numbers of the subscribers, by place.
    pub(crate) subscribers: Vec<u64>,
}

/// Writes the drop out once, so that no crate above proves it anew.
impl<T: Drop, U: Drop, B: Drop, D: Drop> Drop for DomainBoard<T, U, B, D> {
    fn drop(self) {
        let DomainBoard {
            board: _,
            domain: _,
            publishers: _,
            subscribers: _,
        } = self;
    }
}

impl<T, U, B, D> Model for DomainBoard<T, U, B, D> {
    ghost use Rattle.iox_lanes.specs.Boards.{DomainBoardState};

    ghost Value = { DomainBoardState T U B D };

    ghost view = { λ b. record {
      board = b.board;
      domain = b.domain;
      publishers = b.publishers.items;
      subscribers = b.subscribers.items;
    } };
}

impl<T, U, B, D> DomainBoard<T, U, B, D> {
    // Takes the board apart into its fields.
    pub(crate) fn into_fields(self) -> (Board, Domain<T, U, B, D>, Vec<u64>, Vec<u64>)
        ensures { (result.0 ≡ self.board) × (result.1 ≡ self.domain) × (result.2.items ≡ self.publishers)
            × (result.3.items ≡ self.subscribers) }
    {
        let DomainBoard {
            board,
            domain,
            publishers,
            subscribers,
        } = self;
        (board, domain, publishers, subscribers)
    }

    /// Whether the port belongs to this board, that is, whether both were opened with the same number.
    pub fn knows<P: OnBoard>(&self, port: &P) -> bool
        ensures { result ≡ (P.board_of port.now == self.now.board.number) }
    {
        self.board.knows(port)
    }

    /// The ids of the publishers in the domain, by the places of their ports.
    pub fn publisher_ids(&self) -> &[u64]
        ensures { result.now ≡ self.now.publishers }
    {
        &self.publishers
    }

    /// The ids of the subscribers in the domain, by the places of their ports.
    pub fn subscriber_ids(&self) -> &[u64]
        ensures { result.now ≡ self.now.subscribers }
    {
        &self.subscribers
    }

    /// The domain as it was when its lanes began.
    pub fn domain(&self) -> &Domain<T, U, B, D>
        ensures { result.now ≡ self.now.domain }
    {
        &self.domain
    }
}

/// All ports of a domain in threads, each with its share of the words, and the board with the domain.
///
/// Not in `iceoryx2`.
#[derive(Drop)]
pub struct DomainThreads<T, U, B = Handlers, D = DegradationHandler> {
    /// The board of these ports.
    pub board: DomainBoard<T, U, B, D>,
    /// The publishers, by place in the lanes.
    pub publishers: Vec<LanePublisher>,
    /// The subscribers, by place in the lanes.
    pub subscribers: Vec<LaneSubscriber>,
}

// Whether the port at this place has this id. `ids` are by place.
fn is_id(ids: &[u64], place: usize, id: u64) -> bool
    ensures { result ≡ is_id (slice_get ids.now place) id }
{
    match ids.get(place) {
        Some(own) => *own == id,
        None => false,
    }
}

// Whether a publisher has the board's number, and this id.
fn has_publisher_id<T, U, B, D>(
    board: &DomainBoard<T, U, B, D>,
    id: u64,
    port: &LanePublisher,
) -> bool
    ensures { result ≡ has_publisher_id board.now id port.now }
{
    board.knows(port) && is_id(&board.publishers, port.place(), id)
}

// Whether a subscriber has the board's number, and this id.
fn has_subscriber_id<T, U, B, D>(
    board: &DomainBoard<T, U, B, D>,
    id: u64,
    port: &LaneSubscriber,
) -> bool
    ensures { result ≡ has_subscriber_id board.now id port.now }
{
    board.knows(port) && is_id(&board.subscribers, port.place(), id)
}

// The index of the publisher with this id among these ports.
fn find_publisher<T, U, B, D>(
    board: &DomainBoard<T, U, B, D>,
    id: u64,
    ports: &[LanePublisher],
) -> Option<usize>
    ensures { result ≡ position (has_publisher_id board.now id) ports.now }
{
    ports
        .iter()
        .position(|port| has_publisher_id(board, id, port))
}

// The index of the subscriber with this id among these ports.
fn find_subscriber<T, U, B, D>(
    board: &DomainBoard<T, U, B, D>,
    id: u64,
    ports: &[LaneSubscriber],
) -> Option<usize>
    ensures { result ≡ position (has_subscriber_id board.now id) ports.now }
{
    ports
        .iter()
        .position(|port| has_subscriber_id(board, id, port))
}

// Takes out the publisher at this index.
fn take_publisher_at(ports: &mut Vec<LanePublisher>, at: usize) -> LanePublisher
    requires { at < length ports.old.items }
    ensures there { slice_get ports.old.items at ≡ Some result }
    ensures left { ports.new.items ≡ remove ports.old.items at }
    ensures room { vec_capacity ports.new ≡ vec_capacity ports.old }
    ensures own { (board : BoardState) → ArePublishersOf board ports.old.items
        → ArePublishersOf board ports.new.items × IsPublisherOf board result }
{
    ports.remove(at)
}

// Appends a publisher.
fn append_publisher(ports: &mut Vec<LanePublisher>, port: LanePublisher)
    requires { length ports.old.items < vec_capacity ports.old }
    ensures items { ports.new.items ≡ ports.old.items ++ port ∷ [] }
    ensures room { vec_capacity ports.new ≡ vec_capacity ports.old }
    ensures own { (board : BoardState) → ArePublishersOf board ports.old.items → IsPublisherOf board port
        → ArePublishersOf board ports.new.items }
{
    ports.push_reserved(port);
}

// Takes out the subscriber at this index.
fn take_subscriber_at(ports: &mut Vec<LaneSubscriber>, at: usize) -> LaneSubscriber
    requires { at < length ports.old.items }
    ensures there { slice_get ports.old.items at ≡ Some result }
    ensures left { ports.new.items ≡ remove ports.old.items at }
    ensures room { vec_capacity ports.new ≡ vec_capacity ports.old }
    ensures own { (board : BoardState) → AreSubscribersOf board ports.old.items
        → AreSubscribersOf board ports.new.items × IsSubscriberOf board result }
{
    ports.remove(at)
}

// Appends a subscriber.
fn append_subscriber(ports: &mut Vec<LaneSubscriber>, port: LaneSubscriber)
    requires { length ports.old.items < vec_capacity ports.old }
    ensures items { ports.new.items ≡ ports.old.items ++ port ∷ [] }
    ensures room { vec_capacity ports.new ≡ vec_capacity ports.old }
    ensures own { (board : BoardState) → AreSubscribersOf board ports.old.items → IsSubscriberOf board port
        → AreSubscribersOf board ports.new.items }
{
    ports.push_reserved(port);
}

impl<T, U, B, D> DomainThreads<T, U, B, D> {
    /// Takes out the publisher with this id in the domain, as a port that knows the types of its service. None if it isn't among the
    /// ports. Its room stays (`room`), so it can be put back. The port and those that are left step on the board's own words, if all did
    /// (`own`).
    /// Example: `let mut publisher = threads.take_publisher(handle.id())?;`
    pub fn take_publisher(&mut self, id: u64) -> Option<Publisher<T, U>>
        ensures rest { self.new ≡ record self.old { publishers = self.new.publishers } }
        ensures taken { IfSome result (λ publisher. (publisher.id ≡ id) × (at : ℕ)
            × (position (has_publisher_id self.old.board id) self.old.publishers.items ≡ Some at)
            × (slice_get self.old.publishers.items at ≡ Some publisher.port)
            × (self.new.publishers.items ≡ remove self.old.publishers.items at)) }
        ensures none { IfNone result ((position (has_publisher_id self.old.board id) self.old.publishers.items ≡ None)
            × (self.new ≡ self.old)) }
        ensures room { vec_capacity self.new.publishers ≡ vec_capacity self.old.publishers }
        ensures own { ArePublishersOf self.old.board.board self.old.publishers.items
            → ArePublishersOf self.new.board.board self.new.publishers.items
            × IfSome result (λ publisher. IsPublisherOf self.new.board.board publisher.port) }
    {
        let at = find_publisher(&self.board, id, &self.publishers)?;
        let port = take_publisher_at(&mut self.publishers, at);
        Some(Publisher::new(port, id))
    }

    /// Takes out the subscriber with this id in the domain, as a port that knows the types of its service. None if it isn't among the
    /// ports. Its room stays (`room`), so it can be put back. The port and those that are left step on the board's own words, if all did
    /// (`own`).
    /// Example: `let mut subscriber = threads.take_subscriber(handle.id())?;`
    pub fn take_subscriber(&mut self, id: u64) -> Option<Subscriber<T, U>>
        ensures rest { self.new ≡ record self.old { subscribers = self.new.subscribers } }
        ensures taken { IfSome result (λ subscriber. (subscriber.id ≡ id) × (at : ℕ)
            × (position (has_subscriber_id self.old.board id) self.old.subscribers.items ≡ Some at)
            × (slice_get self.old.subscribers.items at ≡ Some subscriber.port)
            × (self.new.subscribers.items ≡ remove self.old.subscribers.items at)) }
        ensures none { IfNone result ((position (has_subscriber_id self.old.board id) self.old.subscribers.items ≡ None)
            × (self.new ≡ self.old)) }
        ensures room { vec_capacity self.new.subscribers ≡ vec_capacity self.old.subscribers }
        ensures own { AreSubscribersOf self.old.board.board self.old.subscribers.items
            → AreSubscribersOf self.new.board.board self.new.subscribers.items
            × IfSome result (λ subscriber. IsSubscriberOf self.new.board.board subscriber.port) }
    {
        let at = find_subscriber(&self.board, id, &self.subscribers)?;
        let port = take_subscriber_at(&mut self.subscribers, at);
        Some(Subscriber::new(port, id))
    }

    /// Puts a publisher back among the ports, so that the board can end. Nothing is allocated: there is room for as many publishers as were
    /// opened. If no room is left, the publisher comes back. All ports step on the board's own words, as `end` requires, if they did and
    /// this one does (`own`).
    /// Example: `threads.put_publisher(publisher);`
    pub fn put_publisher(&mut self, publisher: Publisher<T, U>) -> Result<(), Publisher<T, U>>
        ensures rest { self.new ≡ record self.old { publishers = self.new.publishers } }
        ensures put { OnOk result (self.new.publishers.items ≡ self.old.publishers.items ++ publisher.port ∷ []) }
        ensures back { IfErr result (λ back. (back ≡ publisher) × (self.new ≡ self.old)
            × (vec_capacity self.old.publishers ≤ length self.old.publishers.items)) }
        ensures room { vec_capacity self.new.publishers ≡ vec_capacity self.old.publishers }
        ensures own { ArePublishersOf self.old.board.board self.old.publishers.items → IsPublisherOf self.old.board.board publisher.port
            → ArePublishersOf self.new.board.board self.new.publishers.items }
    {
        if self.publishers.len() >= self.publishers.capacity() {
            return Err(publisher);
        }
        append_publisher(&mut self.publishers, publisher.into_port());
        Ok(())
    }

    /// Puts a subscriber back among the ports, so that the board can end. Nothing is allocated: there is room for as many subscribers as
    /// were opened. If no room is left, the subscriber comes back. All ports step on the board's own words, as `end` requires, if they did
    /// and this one does (`own`).
    /// Example: `threads.put_subscriber(subscriber);`
    pub fn put_subscriber(&mut self, subscriber: Subscriber<T, U>) -> Result<(), Subscriber<T, U>>
        ensures rest { self.new ≡ record self.old { subscribers = self.new.subscribers } }
        ensures put { OnOk result (self.new.subscribers.items ≡ self.old.subscribers.items ++ subscriber.port ∷ []) }
        ensures back { IfErr result (λ back. (back ≡ subscriber) × (self.new ≡ self.old)
            × (vec_capacity self.old.subscribers ≤ length self.old.subscribers.items)) }
        ensures room { vec_capacity self.new.subscribers ≡ vec_capacity self.old.subscribers }
        ensures own { AreSubscribersOf self.old.board.board self.old.subscribers.items
            → IsSubscriberOf self.old.board.board subscriber.port
            → AreSubscribersOf self.new.board.board self.new.subscribers.items }
    {
        if self.subscribers.len() >= self.subscribers.capacity() {
            return Err(subscriber);
        }
        append_subscriber(&mut self.subscribers, subscriber.into_port());
        Ok(())
    }
}
