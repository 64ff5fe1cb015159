//! What a port knows of the words that threads share.
use crate::service::Service;
use iox_lanes_base::words::SharedWord;
use iox_lanes_parties::{Party, PublisherLane, SubscriberLane};
use std::collections::LinkedList;

/// A publisher or a subscriber with the call that it is in.
pub enum PortParty {
    /// A publisher.
    Publisher(PublisherLane),
    /// A subscriber.
    Subscriber(SubscriberLane),
}

/// What a port knows. No value is ever made; the rule of the words and contracts speak of it.
pub struct Port {
    /// Its number among all ports.
    pub number: u64,
    /// Which publisher or subscriber it is.
    pub name: Party,
    /// Its service.
    pub service: Service,
    /// What it knows of each word, by the words' numbers: the value of a word that only this port stores; a lower bound of any other
    /// position; the value that it last saw of any other word.
    pub known: LinkedList<u64>,
    /// How many accesses to shared words it made by `act` since it was opened.
    pub accesses: u64,
    /// The port itself, as its last step on a shared word left it.
    pub party: PortParty,
    /// The words that it has loaded of samples that it holds, each loaded since it got the sample, the newest first.
    pub seen: LinkedList<SharedWord>,
}

/// What a seat at the words knows, which is about the ports that it has. No value is ever made.
pub struct View {
    /// The number of ports that were given out before the waiting ones.
    pub from: u64,
    /// The ports that are still to be given out.
    pub waiting: LinkedList<Port>,
    /// The ports that make steps by this seat, or came back to it.
    pub ports: LinkedList<Port>,
}
