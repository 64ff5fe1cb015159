//! A subscriber follows one place of the list of publishers.
ghost use Rattle.std.specs.Prelude.{◌≡◌, ◌≢◌, ◌+◌, ◌<◌, ◌≤◌, ◌==◌, ◌^◌, IfOk, OnErr, length, get_or, [], None, Some, true};
ghost use Rattle.iox_domain_ports.specs.Subscribing.{attached_at, connection_by, is_idle};
ghost use Rattle.iox_domain_ports.specs.Receiving.{IsMet};
ghost use Rattle.iox_domain_ports.specs.Following.{is_unborrowed, is_of, replaced_port, replaced_ports, unplaced};
ghost use Rattle.iox_domain_ports.specs.Following.{Parts, PartsFull, PartsBorrowed};
ghost use Rattle.iox_domain_ports.specs.Following.{KeepsReached, Connects, FollowsListed, FollowsFreed, FollowsNone, AttachesAtOnce};

use crate::attached::Attached;
use crate::expired::Sought;
use crate::publishers::Publishers;
use crate::subscriber_port::SubscriberPort;
use iox_domain_values::ZeroCopyCreationError;
use std::alloc::Global;

impl SubscriberPort {
    // Whether nothing of the connection with this key is borrowed.
    pub(crate) fn is_unborrowed<T: Copy, U: Copy>(
        &self,
        key: usize,
        publishers: &Publishers<T, U>,
    ) -> bool
        ensures { result ≡ is_unborrowed self.now publishers.now key }
    {
        self.seen(key, publishers).borrowed == 0
    }

    // Ends the expired connection `out`, and lets the connection with `key` expire in its place.
    fn replace<T: Copy, U: Copy>(
        &mut self,
        place: usize,
        out: usize,
        key: usize,
        publishers: &mut Publishers<T, U>,
    )
        ensures port { self.new ≡ replaced_port place out key self.old }
        ensures publishers { publishers.new ≡ replaced_ports out self.old publishers.old }
    {
        self.drop_expired(place, out, publishers);
        self.expired.push(key);
    }

    // Ends the connection with this key if nothing of it is borrowed. Otherwise the connection expires in place of an expired one of
    // which nothing is borrowed, if there is one. Answers whether its place is free then.
    fn part_borrowed<T: Copy, U: Copy>(
        &mut self,
        key: usize,
        publishers: &mut Publishers<T, U>,
    ) -> bool
        ensures { PartsBorrowed (is_unborrowed self.old publishers.old key) key self.old publishers.old result self.new publishers.new }
    {
        if self.is_unborrowed(key, publishers) {
            self.end_key(key, publishers);
            return true;
        }
        let unborrowed = self.first_expired(Sought::Unborrowed, publishers);
        if let Some(out) = self.expired.at(unborrowed) {
            self.replace(unborrowed, out, key, publishers);
            return true;
        }
        false
    }

    // Ends the connection with this key, whose publisher was closed, or lets it expire, when the list of expired connections is
    // full. Answers whether its place is free then.
    fn part_full<T: Copy, U: Copy>(&mut self, key: usize, publishers: &mut Publishers<T, U>) -> bool
        ensures { PartsFull key self.old publishers.old result self.new publishers.new }
    {
        let idle = self.first_expired(Sought::Idle, publishers);
        if let Some(out) = self.expired.at(idle) {
            self.replace(idle, out, key, publishers);
            return true;
        }
        self.part_borrowed(key, publishers)
    }

    // Ends the connection with this key, whose publisher was closed, or lets it expire. Answers whether its place is free then.
    fn part<T: Copy, U: Copy>(&mut self, key: usize, publishers: &mut Publishers<T, U>) -> bool
        ensures { Parts key self.old publishers.old result self.new publishers.new }
    {
        if self.is_idle(key, publishers) {
            self.end_key(key, publishers);
            return true;
        }
        if !self.expired.is_full() {
            self.expired.push(key);
            return true;
        }
        self.part_full(key, publishers)
    }

    // Connects to a publisher that is listed at this place.
    fn connect<T: Copy, U: Copy>(
        &mut self,
        alloc: Global,
        place: usize,
        number: u64,
        publishers: &mut Publishers<T, U>,
    ) -> Result<(), ZeroCopyCreationError>
        requires { place + 1 < 2 ^ 64 }
        ensures { Connects place number self.old publishers.old result self.new publishers.new }
    {
        let before = self.places.len();
        if self.connections.is_full() {
            return Err(ZeroCopyCreationError::OutOfMemory);
        }
        if !self.places.reach(place + 1) {
            return Err(ZeroCopyCreationError::OutOfMemory);
        }
        match publishers.attach(alloc, number, self.number, self.place, self.buffer_size) {
            Some(Ok(index)) => {
                self.keep(place, number, index);
                Ok(())
            }
            Some(Err(_)) => {
                self.places.cut(before);
                Err(ZeroCopyCreationError::OutOfMemory)
            }
            None => {
                self.places.cut(before);
                Ok(())
            }
        }
    }

    // Stores a connection for a place that is reached.
    fn keep(&mut self, place: usize, number: u64, index: usize)
        requires { self.old.connections.free ≢ [] }
        ensures { KeepsReached place (record { publisher = number; index = index }) self.old self.new }
    {
        let key = self.connections.insert(Attached {
            publisher: number,
            index,
        });
        if let Some(key) = key {
            self.places.put(place, Some(key.value()));
        }
    }

    // Whether the connection with this key is one to this publisher.
    fn is_of(&self, key: usize, number: u64) -> bool
        ensures { result ≡ is_of number (attached_at key self.now) }
    {
        match self.attached(key) {
            Some(attached) => attached.publisher == number,
            None => false,
        }
    }

    // Connects to the publisher at this place if the place is free; refuses the publisher otherwise.
    fn follow_freed<T: Copy, U: Copy>(
        &mut self,
        alloc: Global,
        is_free: bool,
        place: usize,
        number: u64,
        publishers: &mut Publishers<T, U>,
    ) -> Result<(), ZeroCopyCreationError>
        requires { place + 1 < 2 ^ 64 }
        ensures { FollowsFreed is_free place number self.old publishers.old result self.new publishers.new }
    {
        if !is_free {
            self.again = true;
            return Err(ZeroCopyCreationError::ExpiredConnectionBufferFull);
        }
        self.places.put(place, None);
        self.connect(alloc, place, number, publishers)
    }

    // Follows a place that lists this publisher.
    pub(crate) fn follow_listed<T: Copy, U: Copy>(
        &mut self,
        alloc: Global,
        place: usize,
        number: u64,
        publishers: &mut Publishers<T, U>,
    ) -> Result<(), ZeroCopyCreationError>
        requires { place + 1 < 2 ^ 64 }
        ensures { FollowsListed place number self.old publishers.old result self.new publishers.new }
    {
        let Some(key) = self.places.get(place) else {
            return self.connect(alloc, place, number, publishers);
        };
        if self.is_of(key, number) {
            return Ok(());
        }
        let is_free = self.part(key, publishers);
        self.follow_freed(alloc, is_free, place, number, publishers)
    }

    // Follows a place that lists no publisher.
    pub(crate) fn follow_none<T: Copy, U: Copy>(
        &mut self,
        place: usize,
        publishers: &mut Publishers<T, U>,
    )
        ensures { FollowsNone place self.old publishers.old self.new publishers.new }
    {
        let Some(key) = self.places.get(place) else {
            return;
        };
        if self.part(key, publishers) {
            self.places.put(place, None);
        }
    }
}

/// Following a publisher needs no memory and succeeds if its place isn't tied yet and is within the capacity, a key is free,
/// and the publisher has the connection already. This is a theorem: the function does nothing.
pub fn attaches_at_once<T, U>()
    ensures { AttachesAtOnce T U }
{}
