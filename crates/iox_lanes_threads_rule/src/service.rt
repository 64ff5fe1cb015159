//! Which ports and connections a service has.
use iox_lanes_base::words::TableSizes;
use iox_queues_steps::rings::RingKind;
use std::collections::LinkedList;

/// A connection: the numbers of its publisher and its subscriber, and what its submission ring does when it is full. No value is ever made.
pub struct Line {
    /// The publisher's number.
    pub publisher: u64,
    /// The subscriber's number.
    pub subscriber: u64,
    /// What its submission ring does with another message when it is full.
    pub kind: RingKind,
    /// The maximum number of waiting messages.
    pub limit: u64,
}

/// The slots of a publisher: `count` slots from `first` on. No value is ever made.
pub struct SlotRange {
    /// The number of the first slot.
    pub first: u64,
    /// How many slots there are.
    pub count: u64,
}

/// What all ports know of their service. No value is ever made; contracts speak of it.
pub struct Service {
    /// How many words of each kind there are.
    pub sizes: TableSizes,
    /// The connections, by number.
    pub lines: LinkedList<Line>,
    /// The slots of each publisher.
    pub ranges: LinkedList<SlotRange>,
}
