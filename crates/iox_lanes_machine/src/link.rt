//! The connections of lanes.
ghost use Rattle.std.specs.Prelude.{◌≡◌, ◌++◌, ◌∷◌, [], OnOk, OnErr};

use iox_queues_steps::rings::RingKind;
use std::alloc::AllocError;
use std::marker::Model;

/// A connection: the numbers of its publisher and its subscriber, whether its submission ring overflows or refuses, the maximum number of
/// waiting messages, and what waited before the first step.
#[derive(Drop)]
pub struct Link {
    pub(crate) publisher: u64,
    pub(crate) subscriber: u64,
    pub(crate) kind: RingKind,
    pub(crate) limit: u64,
    pub(crate) found: Vec<u64>,
}

impl Model for Link {
    ghost use Rattle.iox_lanes_machine.specs.Links.{LinkState};

    ghost Value = { LinkState };

    ghost view = { λ l. record {
      publisher = l.publisher;
      subscriber = l.subscriber;
      kind = l.kind;
      limit = l.limit;
      found = l.found.items;
    } };
}

impl Link {
    /// The publisher's number.
    pub fn publisher(&self) -> u64
        ensures { result ≡ self.now.publisher }
    {
        self.publisher
    }

    /// The subscriber's number.
    pub fn subscriber(&self) -> u64
        ensures { result ≡ self.now.subscriber }
    {
        self.subscriber
    }

    /// What its submission ring does with another message when it is full.
    pub fn kind(&self) -> RingKind
        ensures { result ≡ self.now.kind }
    {
        self.kind
    }

    /// The maximum number of waiting messages.
    pub fn limit(&self) -> u64
        ensures { result ≡ self.now.limit }
    {
        self.limit
    }

    // Sets the maximum number of waiting messages.
    pub(crate) fn resize(&mut self, messages: u64)
        ensures { self.new ≡ record self.old { limit = messages } }
    {
        self.limit = messages;
    }

    // Adds a message that waited before the first step.
    pub(crate) fn find(&mut self, slot: u64) -> Result<(), AllocError>
        ensures found { OnOk result (self.new ≡ record self.old { found = self.old.found ++ slot ∷ [] }) }
        ensures same { OnErr result (self.new ≡ self.old) }
    {
        self.found.reserve(1)?;
        self.found.push_reserved(slot);
        Ok(())
    }

    /// The slots of the messages that waited before the first step, the oldest first.
    pub fn found(&self) -> &[u64]
        ensures { result.now ≡ self.now.found }
    {
        &self.found
    }
}

/// The four positions of a connection.
#[derive(Clone, Copy, Debug, PartialEq, Eq)]
pub struct Positions {
    /// How many messages were put.
    pub submission_write: u64,
    /// The number of messages that were taken out, by either end.
    pub submission_read: u64,
    /// How many samples were released into the completion ring.
    pub completion_write: u64,
    /// How many samples the publisher took back from it.
    pub completion_read: u64,
}
