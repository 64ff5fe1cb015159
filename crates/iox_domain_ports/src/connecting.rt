//! The connections of a publisher are made and ended.
ghost use Rattle.std.specs.Prelude.{◌≡◌, ◌+◌, ◌<◌, ◌≤◌, ◌^◌, ◌&&◌, ◌==◌, length, get_or, None, Some, true, IfOk};
ghost use Rattle.iox_domain_slots.specs.declared.stage.Stage.TheVariants as stage;
ghost use Rattle.iox_domain_ports.specs.Ports.{connection_of, is_live, connection_to, Connects, Joins, Attaches, attached_at};
ghost use Rattle.iox_domain_ports.specs.Ports.{detached_at, ended_at, welcomed_at, IsFullBelow};
ghost use Rattle.iox_domain_ports.specs.Places.{reached};

use crate::publisher_port::PublisherPort;
use crate::reader::Reader;
use crate::reading::waiting_at;
use std::alloc::{AllocError, Global};

impl<T: Copy, U: Copy> PublisherPort<T, U> {
    /// Whether the connection at this index is live.
    pub fn is_live(&self, index: usize) -> bool
        ensures { result ≡ is_live index self.now }
    {
        match self.sender.link(index) {
            Some(link) if link.is_ended() => false,
            Some(_) => true,
            None => false,
        }
    }

    // Makes a connection in which at most `limit` messages may wait, at the lowest index that has none.
    fn connect(&mut self, alloc: Global, limit: usize, reader: Reader) -> Result<usize, AllocError>
        requires { limit ≤ self.old.sender.uses.most_waiting }
        ensures connects { Connects limit reader self.old result self.new }
        ensures lowest { IfOk result (λ index. IsFullBelow index self.old) }
    {
        let before = self.readers.len();
        self.readers.reach(self.sender.indices() + 1)?;
        match self.sender.connect(alloc, limit) {
            Ok(index) => {
                self.readers.put(index, Some(reader));
                Ok(index)
            }
            Err(error) => {
                self.readers.cut(before);
                Err(error)
            }
        }
    }

    /// The index of the connection that leads to this subscriber. If there is none, one is made at the lowest index without a
    /// connection, and the subscriber doesn't read from it yet. The call fails only if an allocation fails; then nothing has
    /// changed. The connection to which `place` is tied is examined first.
    pub fn join(
        &mut self,
        alloc: Global,
        subscriber: u64,
        place: usize,
        limit: usize,
    ) -> Result<usize, AllocError>
        requires { limit ≤ self.old.sender.uses.most_waiting }
        ensures joins { Joins subscriber limit (connection_to subscriber self.old) self.old result self.new }
        ensures lowest { connection_to subscriber self.old ≡ None → IfOk result (λ index. IsFullBelow index self.old) }
    {
        match self.readers.connection_to(subscriber, self.ties.get(place)) {
            Some(index) => Ok(index),
            None => self.connect(
                alloc,
                limit,
                Reader {
                    subscriber,
                    attached: false,
                },
            ),
        }
    }

    /// Attaches the subscriber to its connection, and answers the connection's index. If there is none, one is made at the lowest
    /// index without a connection. The call fails only if there is none and an allocation fails; then nothing has changed. The
    /// subscriber is listed at `place`: the connection to which that is tied is examined first.
    pub fn attach(
        &mut self,
        alloc: Global,
        subscriber: u64,
        place: usize,
        limit: usize,
    ) -> Result<usize, AllocError>
        requires { limit ≤ self.old.sender.uses.most_waiting }
        ensures attaches { Attaches subscriber limit self.old result self.new }
        ensures lowest { connection_to subscriber self.old ≡ None → IfOk result (λ index. IsFullBelow index self.old) }
    {
        let index = self.join(alloc, subscriber, place, limit)?;
        self.readers.put(
            index,
            Some(Reader {
                subscriber,
                attached: true,
            }),
        );
        Ok(index)
    }

    /// Detaches the subscriber, which was closed, from the connection at this index. If a place is tied to the connection, it
    /// ends when the publisher follows the list of subscribers; otherwise it ends now, since the publisher hasn't met it in the
    /// list yet. The tie of place `likely` is examined first.
    pub fn detach(&mut self, index: usize, likely: usize)
        ensures { self.new ≡ detached_at index self.old }
    {
        if self.ties.has(index, likely) {
            self.readers.detach(index);
        } else {
            self.end(index);
        }
    }

    /// Ends the connection at this index, if it is live: what waits is lost, and what is borrowed stays in use until it is
    /// released.
    pub fn end(&mut self, index: usize)
        ensures { self.new ≡ ended_at index self.old }
    {
        if self.is_live(index) {
            self.sender.end(index);
            self.readers.put(index, None);
        }
    }

    // Whether nothing waits in the connection at this index.
    fn is_empty(&self, index: usize) -> bool
        requires { is_live index self.now ≡ true }
        ensures { result ≡ (length (connection_of index self.now).waiting == 0) }
    {
        waiting_at(self, index) == 0
    }

    /// Gives the connection at this index the newest messages of the history, as many as may wait there, if it is live and
    /// nothing waits in it.
    pub fn welcome(&mut self, index: usize)
        ensures { self.new ≡ welcomed_at index self.old }
    {
        if !self.is_live(index) {
            return;
        }
        if self.is_empty(index) {
            self.sender.welcome(index);
        }
    }
}
