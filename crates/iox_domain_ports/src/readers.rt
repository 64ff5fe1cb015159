//! The subscribers to which the connections of a publisher lead.
ghost use Rattle.std.specs.Prelude.{◌≡◌, ◌<◌, ◌≤◌, length, take, set, get_or, true, None, [], OnErr, IfOk};
ghost use Rattle.iox_domain_ports.specs.Places.{reached, leads_to, left, unheard, is_attached, AreApart, IsFoundAt, IsNowhereElse, IsUpTo};
ghost use Rattle.std.specs.List.{position};

use crate::meeting::Meeting;
use crate::reader::Reader;
use std::alloc::{AllocError, Global};
use std::marker::Model;

/// The subscriber to which each connection leads, for each index that is reached; None if there is no connection. Memory is allocated only
/// for indices that are reached.
///
/// A subscriber whose number is higher than those of all readers so far isn't searched for, nor is one that reads at a likely index.
#[derive(Drop)]
pub struct Readers {
    items: Vec<Option<Reader>>,
    // No reader has a higher number than this.
    newest: u64,
    // Whether no subscriber reads at two indices. Nothing that publishers do makes it false.
    apart: bool,
}

impl Model for Readers {
    ghost use Rattle.std.specs.Prelude.{◌≡◌, ℕ, List, Option, get_or, true, None};
    ghost use Rattle.iox_domain_ports.specs.Places.{AreApart, IsUpTo};
    ghost use Rattle.iox_domain_ports.specs.declared.reader.Reader.{Reader};

    ghost Value = { List (Option Reader) };

    ghost view = { λ r. r.items.items };

    ghost invariant = { λ r. ((index : ℕ) → IsUpTo r.newest (get_or r.items.items index None))
        × (r.apart ≡ true → AreApart r.items.items) };
}

impl Readers {
    /// Readers of no connection: no index is reached yet.
    pub fn new(alloc: Global) -> Self
        ensures { result ≡ [] }
    {
        Readers {
            items: Vec::new(alloc),
            newest: 0,
            apart: true,
        }
    }

    /// How many indices are reached.
    pub fn len(&self) -> usize
        ensures { result ≡ length self.now }
    {
        self.items.len()
    }

    /// To whom the connection with this index leads; None also if the index isn't reached.
    pub fn get(&self, index: usize) -> Option<Reader>
        ensures { result ≡ get_or self.now index None }
    {
        if index < self.items.len() {
            self.items[index]
        } else {
            None
        }
    }

    /// Extends the indices to at least `count`; the new ones have no reader. The call fails only if they aren't reached yet and an
    /// allocation fails; then nothing has changed.
    pub fn reach(&mut self, count: usize) -> Result<(), AllocError>
        ensures ok { IfOk result (λ _. self.new ≡ reached count self.old) }
        ensures short { OnErr result (length self.old < count) }
        ensures err { OnErr result (self.new ≡ self.old) }
    {
        if self.items.len() >= count {
            return Ok(());
        }
        self.items.resize(count, None)
    }

    /// Cuts the indices to at most `count`.
    pub fn cut(&mut self, count: usize)
        ensures { self.new ≡ take count self.old }
    {
        self.items.truncate(count);
    }

    /// Puts a reader at an index that is reached, or removes it; at other indices nothing happens.
    pub fn put(&mut self, index: usize, reader: Option<Reader>)
        ensures { self.new ≡ set self.old index reader }
    {
        if index < self.items.len() {
            self.apart = self.stays_apart(index, reader);
            self.newest = newest_with(self.newest, reader);
            self.items[index] = reader;
        }
    }

    // Whether no subscriber reads at two indices, once this reader is put at this index.
    fn stays_apart(&self, index: usize, reader: Option<Reader>) -> bool
        requires { index < length self.now }
        ensures { result ≡ true → AreApart (set self.now index reader) }
    {
        match reader {
            None => self.apart,
            Some(reader) => self.apart && self.is_nowhere_else(index, reader.subscriber),
        }
    }

    // Whether this subscriber reads at no other index, if no subscriber reads at two.
    fn is_nowhere_else(&self, index: usize, subscriber: u64) -> bool
        ensures { result ≡ true → AreApart self.now → IsNowhereElse index subscriber self.now }
    {
        Reader::leads_to(self.get(index), subscriber)
            || self.connection_to(subscriber, None).is_none()
    }

    // Whether no subscriber reads at two indices, and this one at this index.
    fn is_surely_at(&self, index: Option<usize>, subscriber: u64) -> bool
        ensures { result ≡ true → IsFoundAt index subscriber self.now }
    {
        match index {
            Some(index) => self.apart && Reader::leads_to(self.get(index), subscriber),
            None => false,
        }
    }

    /// The index of the first connection that leads to this subscriber. The index `likely` is examined first: nothing is searched if the
    /// subscriber reads there.
    pub fn connection_to(&self, subscriber: u64, likely: Option<usize>) -> Option<usize>
        ensures { result ≡ position (leads_to subscriber) self.now }
    {
        if self.newest < subscriber {
            return None;
        }
        if self.is_surely_at(likely, subscriber) {
            return likely;
        }
        self.items
            .iter()
            .position(|reader| Reader::leads_to(*reader, subscriber))
    }

    /// Detaches the reader at this index from its connection.
    pub fn detach(&mut self, index: usize)
        ensures { self.new ≡ set self.old index (left (get_or self.old index None)) }
    {
        let Some(reader) = self.get(index) else {
            return;
        };
        self.put(
            index,
            Some(Reader {
                subscriber: reader.subscriber,
                attached: false,
            }),
        );
    }

    /// Whether a subscriber reads at this index.
    pub fn is_attached(&self, index: usize) -> bool
        ensures { result ≡ is_attached (get_or self.now index None) }
    {
        match self.get(index) {
            Some(reader) => reader.attached,
            None => false,
        }
    }

    /// What a send meets at a full mailbox: it asks about the subscriber that reads there, and skips the mailbox if none does.
    pub fn asked_at(&self, index: usize) -> Meeting
        ensures { result ≡ unheard (get_or self.now index None) }
    {
        match self.get(index) {
            Some(reader) if reader.attached => Meeting::Full(reader.subscriber),
            _ => Meeting::Passed,
        }
    }
}

// The highest number of a reader, after one more reader.
fn newest_with(newest: u64, reader: Option<Reader>) -> u64
    ensures before { newest ≤ result }
    ensures own { IsUpTo result reader }
{
    match reader {
        Some(reader) if newest < reader.subscriber => reader.subscriber,
        _ => newest,
    }
}
