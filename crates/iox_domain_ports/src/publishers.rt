//! The publishers of a service by their numbers.
ghost use Rattle.std.specs.Prelude.{◌≡◌, ◌-◌, ◌^◌, ◌<◌, length, map, min, slice_get, option_copied, is_some, true, OnOk, OnErr, [], None};
ghost use Rattle.std.specs.Prelude.{Some, IfSome};
ghost use Rattle.std.specs.Borrow.{sem};
ghost use Rattle.std.specs.List.Sorted.{IsStrictlySortedBy};
ghost use Rattle.std.specs.Ordering.{nat_cmp};
ghost use Rattle.std.specs.Map.{keys_of};
ghost use Rattle.std.specs.Map.Iter.{ShowsInOrder, deref_pair};
ghost use Rattle.std.specs.Option.{option_copied_mut};
ghost use Rattle.iox_domain_slots.specs.Uses.{is_there};
ghost use Rattle.iox_domain_ports.specs.Following.{lacks_connection};
ghost use Rattle.iox_domain_ports.specs.Ports.{detached_at};
ghost use Rattle.iox_domain_ports.specs.Publishers.{port_of, with_port, added, connection_in, most_borrowed_in, stands_in, changed};
ghost use Rattle.iox_domain_ports.specs.Publishers.{ended_if_left, is_over_in, settled, released, AttachesTo, removed};
ghost use Rattle.iox_domain_ports.specs.Living.{living_publishers};
ghost use Rattle.iox_domain_ports.specs.Census.{IsCensusOf, publisher_share, share_at};
ghost use Rattle.iox_domain_ports.specs.Reading.{place_of, taken_at, given_back_at};

use crate::PublisherPort;
use crate::census::{Census, Share};
use crate::living::living_of_publisher;
use crate::reading::{give_back_at, is_over, take_at};
use iox_container::ByNumber;
use iox_container::by_number::iter::Iter;
use std::alloc::{AllocError, Global};
use std::marker::Model;

/// The publishers of a service. A closed one stays until it has neither loans nor connections nor a blocked send.
///
/// Contracts see each publisher with its number, by rising number.
#[derive(Drop)]
pub struct Publishers<T, U> {
    ports: ByNumber<PublisherPort<T, U>>,
    // How much of each owner is alive.
    census: Census,
}

impl<T, U> Model for Publishers<T, U> {
    ghost use Rattle.std.specs.Prelude.{ℕ, List};
    ghost use Rattle.iox_domain_ports.specs.declared.publisher_port.PublisherPort.{PublisherPort};
    ghost use Rattle.iox_domain_ports.specs.Census.{IsCensusOf, publisher_share};

    ghost Value = { List (ℕ × PublisherPort T U) };

    ghost view = { λ p. p.ports };

    ghost invariant = { λ p. IsCensusOf publisher_share p.census p.ports };
}

impl<T: Copy, U: Copy> Publishers<T, U> {
    ghost use Rattle.std.specs.Prelude.{ℕ};
    ghost use Rattle.iox_domain_ports.specs.declared.publisher_port.PublisherPort.{PublisherPort};
    ghost use Rattle.iox_domain_ports.specs.PublishersLends.{LendsPort};

    /// No publishers.
    pub fn new(alloc: Global) -> Self
        ensures { result ≡ [] }
    {
        Publishers {
            ports: ByNumber::new(alloc),
            census: Census::new(alloc),
        }
    }

    /// The publisher with this number, if it exists.
    pub fn get(&self, number: u64) -> Option<&PublisherPort<T, U>>
        ensures { option_copied result ≡ port_of number self.now }
    {
        self.ports.get(number)
    }

    /// A mutable reference to the publisher with this number, if it exists.
    pub fn get_mut(&mut self, number: u64) -> Option<&mut PublisherPort<T, U>>
        ensures* writes_back { sem 𝓛 (LendsPort T.row U.row self.entry number result) }
        ensures value { option_copied_mut result ≡ port_of number self.old }
    {
        note_lent(&mut self.census, &self.ports, number);
        self.ports.get_mut(number)
    }

    /// How many publishers there are, closed ones too.
    pub fn len(&self) -> usize
        ensures { result ≡ length self.now }
    {
        self.ports.len()
    }

    /// The publishers with their numbers, by rising number.
    pub fn iter(&self) -> Iter<'_, PublisherPort<T, U>>
        ensures rest { result ≡ self.now }
        ensures runs { ShowsInOrder (deref_pair {K = ℕ} {X = PublisherPort T U}) }
    {
        self.ports.iter()
    }

    /// Adds a publisher under this number, in place of one that had it. The call fails only if an allocation fails; then
    /// nothing has changed.
    pub fn insert(&mut self, number: u64, port: PublisherPort<T, U>) -> Result<(), AllocError>
        ensures ok { OnOk result (self.new ≡ added number port self.old) }
        ensures err { OnErr result (self.new ≡ self.old) }
    {
        note_lent(&mut self.census, &self.ports, number);
        self.census.make_room(self.ports.len())?;
        let share = share_of(&port);
        put_port(&mut self.ports, number, port)?;
        self.census.note(share);
        Ok(())
    }

    /// Whether the publisher with this number exists, and has no connection to this subscriber yet, which is listed at `place`: the
    /// connection to which that is tied is examined first.
    pub fn lacks_connection(&self, number: u64, subscriber: u64, place: usize) -> bool
        ensures { result ≡ lacks_connection subscriber (port_of number self.now) }
    {
        match self.get(number) {
            Some(port) => {
                let likely = port.ties.get(place);
                port.readers.connection_to(subscriber, likely).is_none()
            }
            None => false,
        }
    }

    /// Whether the publisher with this number exists and is open. An open publisher is on the list of publishers.
    pub fn stands(&self, number: u64) -> bool
        ensures { result ≡ stands_in number self.now }
    {
        match self.get(number) {
            Some(port) => port.stands,
            None => false,
        }
    }

    /// Attaches a subscriber to its connection at the publisher with this number, and answers the connection's index. The
    /// connection is made if there is none; as many messages may wait in it as the subscriber asks for, up to the publisher's
    /// limit. The call answers None if there is no such publisher. It fails only if an allocation fails; then nothing has
    /// changed. The subscriber is listed at `place`: the connection to which the publisher tied that is examined first.
    pub fn attach(
        &mut self,
        alloc: Global,
        number: u64,
        subscriber: u64,
        place: usize,
        limit: usize,
    ) -> Option<Result<usize, AllocError>>
        ensures { AttachesTo number subscriber limit self.old result self.new }
    {
        let port = self.get_mut(number)?;
        let most = port.sender.most_waiting();
        Some(port.attach(alloc, subscriber, place, limit.min(most)))
    }

    /// Detaches the subscriber, which was listed at `place` and is closed, from a connection of the publisher with this number.
    /// The connection ends if the publisher hasn't met it in the list yet.
    pub fn detach(&mut self, number: u64, index: usize, place: usize)
        ensures { self.new ≡ changed number (detached_at index) self.old }
    {
        if let Some(port) = self.get_mut(number) {
            port.detach(index, place);
        }
    }

    /// Ends a connection of a closed publisher, if it is live: what waits is lost, and what is borrowed stays in use until it
    /// is released. A publisher that is over then is removed. An open publisher ends its connections itself when it follows the
    /// list of subscribers, so this call does nothing to it.
    pub fn end(&mut self, number: u64, index: usize)
        ensures { self.new ≡ settled number (changed number (ended_if_left index) self.old) }
    {
        self.end_there(number, index);
        self.settle(number);
    }

    // Ends a connection of the publisher, if that is closed.
    fn end_there(&mut self, number: u64, index: usize)
        ensures { self.new ≡ changed number (ended_if_left index) self.old }
    {
        if let Some(port) = self.get_mut(number) {
            end_if_left(port, index);
        }
    }

    /// Removes the publisher with this number if it is over: it is closed, and has neither loans nor connections nor a blocked send.
    pub fn settle(&mut self, number: u64)
        ensures { self.new ≡ settled number self.old }
    {
        if self.is_over(number) {
            note_lent(&mut self.census, &self.ports, number);
            remove_port(&mut self.ports, number);
            self.census.note(Share { owner: 0, count: 0 });
        }
    }

    /// How much of the publishers of the owner is alive, or of all publishers if no owner is named: open publishers, their loans, and
    /// the messages of blocked sends. At most 2^64 - 1 is answered.
    pub fn living(&self, owner: Option<u64>) -> u64
        ensures { result ≡ min (living_publishers owner self.now) (2 ^ 64 - 1) }
    {
        let now = share_in(&self.ports, self.census.lent());
        self.census.told(owner, now)
    }

    // Whether the publisher with this number is over.
    fn is_over(&self, number: u64) -> bool
        ensures { result ≡ is_over_in number self.now }
    {
        match self.get(number) {
            Some(port) => is_over(port),
            None => false,
        }
    }

    /// Borrows the oldest waiting message of a connection of the publisher with this number, and answers its slot.
    pub fn take(&mut self, number: u64, index: usize) -> usize
        requires data { 0 < length (connection_in number index self.old).waiting }
        requires room { length (connection_in number index self.old).borrowed < most_borrowed_in number self.old }
        ensures there { is_there (connection_in number index self.old) ≡ true }
        ensures slot { slice_get (map (λ message. message.slot) (connection_in number index self.old).waiting) 0 ≡ Some result }
        ensures new { self.new ≡ changed number (taken_at index) self.old }
    {
        match self.get_mut(number) {
            Some(port) => take_at(port, index),
            None => 0,
        }
    }

    /// Releases the first message in this slot that is borrowed from a connection of the publisher with this number; a publisher
    /// that is over then is removed. The call answers false, and nothing has changed, if no such message is borrowed.
    pub fn give_back(&mut self, number: u64, index: usize, slot: usize) -> bool
        ensures answer { result ≡ is_some (place_of slot (connection_in number index self.old)) }
        ensures new { self.new ≡ released number index (place_of slot (connection_in number index self.old)) self.old }
    {
        let Some(stands) = self.give_back_there(number, index, slot) else {
            return false;
        };
        // An open publisher isn't over.
        if !stands {
            self.settle(number);
        }
        true
    }

    // Releases the first message in this slot that is borrowed from a connection of the publisher with this number, and answers whether
    // that publisher is open; None, and nothing has changed, if no such message is borrowed.
    fn give_back_there(&mut self, number: u64, index: usize, slot: usize) -> Option<bool>
        ensures answer { is_some result ≡ is_some (place_of slot (connection_in number index self.old)) }
        ensures stands { IfSome result (λ stands. stands ≡ stands_in number self.new) }
        ensures new { self.new ≡ changed number (given_back_at index (place_of slot (connection_in number index self.old))) self.old }
    {
        let port = self.get_mut(number)?;
        if give_back_at(port, index, slot) {
            Some(port.stands)
        } else {
            None
        }
    }
}

// The share of a publisher.
fn share_of<T: Copy, U: Copy>(port: &PublisherPort<T, U>) -> Share
    ensures { result ≡ publisher_share port.now }
{
    Share {
        owner: port.owner.number,
        count: living_of_publisher(port),
    }
}

// The share of the publisher with this number, or `no_share` if there is none.
fn share_in<T: Copy, U: Copy>(ports: &ByNumber<PublisherPort<T, U>>, number: u64) -> Share
    ensures { result ≡ share_at publisher_share (port_of number ports.now) }
{
    match ports.get(number) {
        Some(port) => share_of(port),
        None => Share { owner: 0, count: 0 },
    }
}

// Puts a publisher under this number, in place of one that had it. The call fails only if an allocation fails; then nothing has
// changed.
fn put_port<T: Copy, U: Copy>(
    ports: &mut ByNumber<PublisherPort<T, U>>,
    number: u64,
    port: PublisherPort<T, U>,
) -> Result<(), AllocError>
    ensures sorted { IsStrictlySortedBy nat_cmp (keys_of ports.old) }
    ensures put { OnOk result (ports.new ≡ added number port ports.old) }
    ensures there { OnOk result (port_of number ports.new ≡ Some port) }
    ensures stays { OnErr result (ports.new ≡ ports.old) }
{
    let before = ports.insert(number, port)?;
    drop(before);
    Ok(())
}

// Removes the publisher with this number.
fn remove_port<T: Copy, U: Copy>(ports: &mut ByNumber<PublisherPort<T, U>>, number: u64)
    ensures removed { ports.new ≡ removed number ports.old }
    ensures gone { port_of number ports.new ≡ None }
{
    ports.remove(number);
}

// Notes that a publisher is handed out. The current share of the one handed out before is counted.
fn note_lent<T: Copy, U: Copy>(
    census: &mut Census,
    ports: &ByNumber<PublisherPort<T, U>>,
    number: u64,
)
    requires { IsCensusOf publisher_share census.old ports.now }
    ensures tells { IsCensusOf publisher_share census.new ports.now }
    ensures lent { census.new.lent ≡ number }
    ensures room { census.new.owners.room ≡ census.old.owners.room }
{
    if census.lent() != number {
        note_another(census, ports, number);
    }
}

// The same where another publisher was handed out before.
#[inline(never)]
fn note_another<T: Copy, U: Copy>(
    census: &mut Census,
    ports: &ByNumber<PublisherPort<T, U>>,
    number: u64,
)
    requires { IsCensusOf publisher_share census.old ports.now }
    ensures tells { IsCensusOf publisher_share census.new ports.now }
    ensures lent { census.new.lent ≡ number }
    ensures room { census.new.owners.room ≡ census.old.owners.room }
{
    let lent = census.lent();
    let before = share_in(ports, lent);
    let now = share_in(ports, number);
    census.lend(before, number, now);
}

// Ends a connection of the publisher, if that is closed.
fn end_if_left<T: Copy, U: Copy>(port: &mut PublisherPort<T, U>, index: usize)
    ensures { port.new ≡ ended_if_left index port.old }
{
    if !port.stands {
        port.end(index);
    }
}
