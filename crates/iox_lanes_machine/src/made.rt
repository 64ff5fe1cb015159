//! The parts of lanes, as they are made.
ghost use Rattle.std.specs.Prelude.{◌≡◌, ◌<◌, ◌+◌, ◌*◌, [], replicate, IfOk};
ghost use Rattle.iox_lanes_machine.specs.LanesParties.PublisherKeeping.{new_book};
ghost use Rattle.iox_lanes_machine.specs.LanesParties.Publishers.{new_publisher};
ghost use Rattle.iox_lanes_machine.specs.Made.{listed, link_at, publisher_at, subscriber_at, sending_routes, receiving_routes};
ghost use Rattle.iox_lanes_machine.specs.Made.{first_head, route_to, table_sizes, AreCounted};

use crate::link::Link;
use crate::order::Order;
use crate::sizes::LaneSizes;
use iox_lanes_base::calls::Route;
use iox_lanes_base::calls::subscriber::SlotExtent;
use iox_lanes_base::words::TableSizes;
use iox_lanes_parties::publisher::{LanePublisher, SlotBook};
use iox_lanes_parties::subscriber::LaneSubscriber;
use iox_lanes_parties::{Head, PublisherLane, SubscriberLane};
use std::alloc::{AllocError, Global};

/// The links of the first `count` connections, and their empty orders.
pub(crate) fn connections(
    alloc: Global,
    sizes: &LaneSizes,
    count: u64,
) -> Result<(Vec<Link>, Vec<Order>), AllocError>
    requires { count ≡ sizes.now.publishers * sizes.now.subscribers }
    ensures { IfOk result (λ made. (made.0.items ≡ listed (link_at sizes.now) count) × (made.1.items ≡ listed (λ connection. []) count)) }
{
    let links = links(alloc, sizes, count)?;
    let orders = orders(alloc, count)?;
    Ok((links, orders))
}

/// The publishers and the subscribers.
pub(crate) fn parties(
    alloc: Global,
    sizes: &LaneSizes,
    table: &TableSizes,
) -> Result<(Vec<PublisherLane>, Vec<SubscriberLane>), AllocError>
    requires table { table.now ≡ table_sizes sizes.now }
    requires counted { AreCounted sizes.now }
    ensures { IfOk result (λ made. (made.0.items ≡ listed (publisher_at sizes.now) sizes.now.publishers)
        × (made.1.items ≡ listed (subscriber_at sizes.now) sizes.now.subscribers)) }
{
    let publishers = publishers(alloc, sizes, table)?;
    let subscribers = subscribers(alloc, sizes, table)?;
    Ok((publishers, subscribers))
}

// The links of the first `count` connections.
fn links(alloc: Global, sizes: &LaneSizes, count: u64) -> Result<Vec<Link>, AllocError>
    requires { count ≡ sizes.now.publishers * sizes.now.subscribers }
    ensures { IfOk result (λ made. made.items ≡ listed (link_at sizes.now) count) }
{
    let mut list = Vec::new(alloc);
    for connection in 0..count {
        let link = sizes.link(alloc, connection);
        list.reserve(1)?;
        list.push_reserved(link);
    }
    Ok(list)
}

// The empty orders of `count` connections.
fn orders(alloc: Global, count: u64) -> Result<Vec<Order>, AllocError>
    ensures { IfOk result (λ made. made.items ≡ listed (λ connection. []) count) }
{
    let mut list = Vec::new(alloc);
    for _connection in 0..count {
        list.reserve(1)?;
        list.push_reserved(Order::new(alloc));
    }
    Ok(list)
}

// The publishers.
fn publishers(
    alloc: Global,
    sizes: &LaneSizes,
    table: &TableSizes,
) -> Result<Vec<PublisherLane>, AllocError>
    requires table { table.now ≡ table_sizes sizes.now }
    requires counted { AreCounted sizes.now }
    ensures { IfOk result (λ made. made.items ≡ listed (publisher_at sizes.now) sizes.now.publishers) }
{
    let mut list = Vec::new(alloc);
    for place in 0..sizes.publishers {
        let lane = publisher(alloc, sizes, table, place)?;
        list.reserve(1)?;
        list.push_reserved(lane);
    }
    Ok(list)
}

// The subscribers.
fn subscribers(
    alloc: Global,
    sizes: &LaneSizes,
    table: &TableSizes,
) -> Result<Vec<SubscriberLane>, AllocError>
    requires table { table.now ≡ table_sizes sizes.now }
    requires counted { AreCounted sizes.now }
    ensures { IfOk result (λ made. made.items ≡ listed (subscriber_at sizes.now) sizes.now.subscribers) }
{
    let mut list = Vec::new(alloc);
    for place in 0..sizes.subscribers {
        let lane = subscriber(alloc, sizes, table, place)?;
        list.reserve(1)?;
        list.push_reserved(lane);
    }
    Ok(list)
}

fn publisher(
    alloc: Global,
    sizes: &LaneSizes,
    table: &TableSizes,
    place: u64,
) -> Result<PublisherLane, AllocError>
    requires table { table.now ≡ table_sizes sizes.now }
    requires counted { AreCounted sizes.now }
    requires place { place < sizes.now.publishers }
    ensures { IfOk result (λ made. made ≡ publisher_at sizes.now place) }
{
    let routes = sending_routes(alloc, sizes, table, place)?;
    let heads = heads(alloc, sizes, place)?;
    let book = slot_book(alloc, sizes, place)?;
    let port = publisher_port(alloc, sizes, &routes, book)?;
    Ok(PublisherLane::new(port, heads))
}

// The record of a publisher's slots.
fn slot_book(alloc: Global, sizes: &LaneSizes, place: u64) -> Result<SlotBook, AllocError>
    requires counted { AreCounted sizes.now }
    requires place { place < sizes.now.publishers }
    ensures { IfOk result (λ made. made ≡ new_book (place * sizes.now.slots) sizes.now.slots sizes.now.subscribers
        sizes.now.most_loans sizes.now.history) }
{
    SlotBook::new(
        alloc,
        place * sizes.slots,
        sizes.slots as usize,
        sizes.subscribers as usize,
        sizes.most_loans,
        sizes.history as usize,
    )
}

// A publisher's port.
fn publisher_port(
    alloc: Global,
    sizes: &LaneSizes,
    routes: &[Route],
    book: SlotBook,
) -> Result<LanePublisher, AllocError>
    requires { AreCounted sizes.now }
    ensures { IfOk result (λ made. made ≡ new_publisher routes.now book sizes.now.payload_words (3 + sizes.now.user_header_words)) }
{
    let head_words = 3 + sizes.user_header_words;
    LanePublisher::new(
        alloc,
        routes,
        book,
        sizes.payload_words as usize,
        head_words as usize,
    )
}

// The headers of a publisher's slots.
fn heads(alloc: Global, sizes: &LaneSizes, place: u64) -> Result<Vec<Head>, AllocError>
    ensures { IfOk result (λ made. made.items ≡ replicate sizes.now.slots (first_head sizes.now place)) }
{
    let mut list = Vec::new(alloc);
    for _slot in 0..sizes.slots {
        let head = Head::new(alloc, &[0, place, 1], sizes.user_header_words as usize)?;
        list.reserve(1)?;
        list.push_reserved(head);
    }
    Ok(list)
}

// The connections of a publisher.
fn sending_routes(
    alloc: Global,
    sizes: &LaneSizes,
    table: &TableSizes,
    place: u64,
) -> Result<Vec<Route>, AllocError>
    requires table { table.now ≡ table_sizes sizes.now }
    requires counted { AreCounted sizes.now }
    requires place { place < sizes.now.publishers }
    ensures { IfOk result (λ made. made.items ≡ sending_routes sizes.now place sizes.now.subscribers) }
{
    let mut list = Vec::new(alloc);
    for subscriber in 0..sizes.subscribers {
        let route = route(sizes, table, place, subscriber);
        list.reserve(1)?;
        list.push_reserved(route);
    }
    Ok(list)
}

// The connections of a subscriber.
fn receiving_routes(
    alloc: Global,
    sizes: &LaneSizes,
    table: &TableSizes,
    place: u64,
) -> Result<Vec<Route>, AllocError>
    requires table { table.now ≡ table_sizes sizes.now }
    requires counted { AreCounted sizes.now }
    requires place { place < sizes.now.subscribers }
    ensures { IfOk result (λ made. made.items ≡ receiving_routes sizes.now place sizes.now.publishers) }
{
    let mut list = Vec::new(alloc);
    for publisher in 0..sizes.publishers {
        let route = route(sizes, table, publisher, place);
        list.reserve(1)?;
        list.push_reserved(route);
    }
    Ok(list)
}

// The connection between a publisher and a subscriber.
fn route(sizes: &LaneSizes, table: &TableSizes, publisher: u64, subscriber: u64) -> Route
    requires table { table.now ≡ table_sizes sizes.now }
    requires counted { AreCounted sizes.now }
    requires publisher { publisher < sizes.now.publishers }
    requires subscriber { subscriber < sizes.now.subscribers }
    ensures { result ≡ route_to sizes.now (publisher * sizes.now.subscribers + subscriber) }
{
    sizes.route(table, publisher * sizes.subscribers + subscriber)
}

fn subscriber(
    alloc: Global,
    sizes: &LaneSizes,
    table: &TableSizes,
    place: u64,
) -> Result<SubscriberLane, AllocError>
    requires table { table.now ≡ table_sizes sizes.now }
    requires counted { AreCounted sizes.now }
    requires place { place < sizes.now.subscribers }
    ensures { IfOk result (λ made. made ≡ subscriber_at sizes.now place) }
{
    let routes = receiving_routes(alloc, sizes, table, place)?;
    let words = 3 + sizes.user_header_words + sizes.payload_words;
    let extent = SlotExtent {
        user_header_words: sizes.user_header_words,
        payload_words: sizes.payload_words,
    };
    let port = LaneSubscriber::new(
        alloc,
        &routes,
        table.slots as usize,
        extent,
        words as usize,
        sizes.most_borrowed,
    )?;
    Ok(SubscriberLane::new(port))
}
