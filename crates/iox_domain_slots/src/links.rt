//! The connections of one publisher.
ghost use Rattle.std.specs.Prelude.{◌≡◌, ℕ, ◌+◌, ◌*◌, ◌^◌, ◌<◌, ◌≤◌, ◌++◌, ◌∷◌, [], length, map, set, drop, take, get_or, remove};
ghost use Rattle.std.specs.Prelude.{is_some, option_copied, slice_get, IfOk, IsOk, OnErr, Some, None, true, false};
ghost use Rattle.iox_domain_slots.specs.Uses.{nobody, placed, accepts, offered, taken, given_back, settled, ended, emptied, held};
ghost use Rattle.iox_domain_slots.specs.Uses.{connected, how_many};
ghost use Rattle.iox_domain_slots.specs.declared.stage.Stage.TheVariants as stage;
ghost use Rattle.iox_domain_slots.specs.Loans.{place_in};
ghost use Rattle.iox_container.specs.Unique.{is_among};
ghost use Rattle.iox_domain_slots.specs.Counting.{SlotsState, times, uses_of, Moves, Covers};
ghost use Rattle.iox_domain_slots.specs.Links.{LinksState, LinkState, seen, all_slots, all_of, connection_of, taken_back, IsGone, IsOf};

use crate::link::Link;
use crate::slots::Slots;
use std::alloc::{AllocError, Global};
use std::marker::Model;

// There can't be memory for more connections, so no count of uses overflows.
const MOST_LINKS: usize = 1 << 29;

/// The connections of one publisher. Each keeps its index as long as it exists.
#[derive(Drop)]
pub struct Links {
    items: Vec<Option<Link>>,
    // The lowest index without a connection.
    full: usize,
    // The index after the last connection; 0 if there is none.
    top: usize,
    overflows: bool,
    most_waiting: usize,
    most_borrowed: usize,
}

impl Model for Links {
    ghost use Rattle.std.specs.Prelude.{◌≡◌, ◌≤◌, ◌<◌, ◌+◌, ◌^◌, ℕ, get_or, is_some, length, None, true};
    ghost use Rattle.iox_domain_slots.specs.Links.{LinksState, IsOf};

    ghost Value = { LinksState };

    ghost view = { λ l. record {
      overflows = l.overflows;
      most_waiting = l.most_waiting;
      most_borrowed = l.most_borrowed;
      links = l.items.items;
    } };

    ghost invariant = { λ l. (length l.items.items ≤ 2 ^ 29)
        × ((index : ℕ) → IsOf l.overflows l.most_waiting l.most_borrowed (get_or l.items.items index None))
        × (l.most_waiting < 2 ^ 32) × (l.most_borrowed < 2 ^ 32)
        × (l.top ≤ length l.items.items) × ((index : ℕ) → l.top ≤ index → get_or l.items.items index None ≡ None)
        × (l.full ≤ length l.items.items) × ((index : ℕ) → index < l.full → is_some (get_or l.items.items index None) ≡ true)
        × ((index : ℕ) → index + 1 ≡ l.top → is_some (get_or l.items.items index None) ≡ true)
        × (get_or l.items.items l.full None ≡ None) };
}

impl Links {
    /// Puts a slot that is also used elsewhere into the mailbox of the connection, and answers whether the mailbox accepted it.
    /// A full mailbox drops its oldest slot if the publisher's mailboxes overflow; otherwise it refuses the new one.
    pub fn offer(&mut self, index: usize, slot: usize, slots: &mut Slots) -> bool
        requires there { is_some (get_or self.old.links index None) ≡ true }
        requires live { (seen (get_or self.old.links index None)).stage ≡ stage.Live }
        requires covered { Covers slots.old (all_slots self.old.links) }
        requires besides { times slot (all_slots self.old.links) < uses_of slot slots.old }
        requires others { uses_of slot slots.old < 2 ^ 62 + times slot (all_slots self.old.links) }
        ensures answer { result ≡ accepts self.old.overflows (seen (get_or self.old.links index None)) }
        ensures after { map seen self.new.links
            ≡ set (map seen self.old.links) index (offered self.old.overflows slot (seen (get_or self.old.links index None))) }
        ensures same { self.new ≡ record self.old { links = self.new.links } }
        ensures moved { Moves slots.old (all_slots self.old.links) slots.new (all_slots self.new.links) }
    {
        let Some(link) = &mut self.items[index] else {
            return false;
        };
        link.offer(slot, slots)
    }

    /// Borrows the oldest waiting slot of the connection, and answers it.
    pub fn take(&mut self, index: usize) -> usize
        requires there { is_some (get_or self.old.links index None) ≡ true }
        requires data { 0 < length (seen (get_or self.old.links index None)).waiting }
        requires room { length (seen (get_or self.old.links index None)).borrowed < self.old.most_borrowed }
        ensures slot { slice_get (seen (get_or self.old.links index None)).waiting 0 ≡ Some result }
        ensures after { map seen self.new.links ≡ set (map seen self.old.links) index (taken (seen (get_or self.old.links index None))) }
        ensures same { self.new ≡ record self.old { links = self.new.links } }
        ensures uses { (k : ℕ) → times k (all_slots self.new.links) ≡ times k (all_slots self.old.links) }
    {
        let Some(link) = &mut self.items[index] else {
            return 0;
        };
        link.take()
    }

    // Returns a borrowed slot of a live connection; the publisher takes it back later.
    fn put_back(&mut self, index: usize, slot: usize)
        requires there { is_some (get_or self.old.links index None) ≡ true }
        requires live { (seen (get_or self.old.links index None)).stage ≡ stage.Live }
        requires borrowed { is_among slot (seen (get_or self.old.links index None)).borrowed ≡ true }
        ensures after { map seen self.new.links
            ≡ set (map seen self.old.links) index (given_back (place_in slot (seen (get_or self.old.links index None)).borrowed)
            (seen (get_or self.old.links index None))) }
        ensures same { self.new ≡ record self.old { links = self.new.links } }
        ensures uses { (k : ℕ) → times k (all_slots self.new.links) ≡ times k (all_slots self.old.links) }
    {
        let Some(link) = &mut self.items[index] else {
            return;
        };
        link.give_back(slot);
    }

    // Takes back a borrowed slot of a connection that ended, which the connection no longer uses then.
    fn let_go(&mut self, index: usize, slot: usize, slots: &mut Slots)
        requires there { is_some (get_or self.old.links index None) ≡ true }
        requires borrowed { is_among slot (seen (get_or self.old.links index None)).borrowed ≡ true }
        requires covered { Covers slots.old (all_slots self.old.links) }
        ensures after { map seen self.new.links ≡ set (map seen self.old.links) index
            (record (seen (get_or self.old.links index None)) {
              borrowed = remove (seen (get_or self.old.links index None)).borrowed
                  (place_in slot (seen (get_or self.old.links index None)).borrowed);
            }) }
        ensures there { is_some (get_or self.new.links index None) ≡ true }
        ensures same { self.new ≡ record self.old { links = self.new.links } }
        ensures moved { Moves slots.old (all_slots self.old.links) slots.new (all_slots self.new.links) }
    {
        let Some(link) = &mut self.items[index] else {
            return;
        };
        link.let_go(slot, slots);
    }

    // Whether the connection ended.
    fn is_ended(&self, index: usize) -> bool
        requires there { is_some (get_or self.now.links index None) ≡ true }
        ensures yes { result ≡ true → (seen (get_or self.now.links index None)).stage ≡ stage.Ended }
        ensures no { result ≡ false → (seen (get_or self.now.links index None)).stage ≡ stage.Live }
    {
        let Some(link) = &self.items[index] else {
            return false;
        };
        link.is_ended()
    }

    // Removes a connection that ended, if nothing is borrowed from it.
    fn settle(&mut self, index: usize)
        requires there { is_some (get_or self.old.links index None) ≡ true }
        ensures after { map seen self.new.links
            ≡ set (map seen self.old.links) index (settled (seen (get_or self.old.links index None)).stage
            (seen (get_or self.old.links index None)).limit (seen (get_or self.old.links index None)).waiting
            (seen (get_or self.old.links index None)).borrowed) }
        ensures same { self.new ≡ record self.old { links = self.new.links } }
        ensures uses { (k : ℕ) → times k (all_slots self.new.links) ≡ times k (all_slots self.old.links) }
    {
        if self.is_over(index) {
            self.clear(index);
        }
    }

    // Removes the connection of an index.
    fn clear(&mut self, index: usize)
        requires { index < length self.old.links }
        ensures { self.new ≡ record self.old { links = set self.old.links index None } }
    {
        self.items[index] = None;
        self.top = lowered(self.items.as_slice(), self.top);
        if index < self.full {
            self.full = index;
        }
    }

    // Whether the connection ended and nothing is borrowed from it.
    fn is_over(&self, index: usize) -> bool
        requires there { is_some (get_or self.now.links index None) ≡ true }
        ensures yes { result ≡ true → IsGone (get_or self.now.links index None) }
        ensures no { result ≡ false → settled (seen (get_or self.now.links index None)).stage
            (seen (get_or self.now.links index None)).limit
            (seen (get_or self.now.links index None)).waiting (seen (get_or self.now.links index None)).borrowed
            ≡ seen (get_or self.now.links index None) }
    {
        let Some(link) = &self.items[index] else {
            return false;
        };
        link.is_ended() && link.borrowed() == 0
    }

    /// Returns a slot that is borrowed from the connection. If the connection ended, the slot is taken back at once, and the
    /// connection is removed with its last borrowed slot.
    pub fn give_back(&mut self, index: usize, slot: usize, slots: &mut Slots)
        requires there { is_some (get_or self.old.links index None) ≡ true }
        requires borrowed { is_among slot (seen (get_or self.old.links index None)).borrowed ≡ true }
        requires covered { Covers slots.old (all_slots self.old.links) }
        ensures after { map seen self.new.links
            ≡ set (map seen self.old.links) index (given_back (place_in slot (seen (get_or self.old.links index None)).borrowed)
            (seen (get_or self.old.links index None))) }
        ensures same { self.new ≡ record self.old { links = self.new.links } }
        ensures moved { Moves slots.old (all_slots self.old.links) slots.new (all_slots self.new.links) }
    {
        if !self.is_ended(index) {
            self.put_back(index, slot);
            return;
        }
        self.let_go(index, slot, slots);
        self.settle(index);
    }

    // Ends the connection.
    fn end_link(&mut self, index: usize, slots: &mut Slots)
        requires there { is_some (get_or self.old.links index None) ≡ true }
        requires covered { Covers slots.old (all_slots self.old.links) }
        ensures after { map seen self.new.links ≡ set (map seen self.old.links) index
            (record (seen (get_or self.old.links index None)) { stage = stage.Ended; waiting = [] }) }
        ensures there { is_some (get_or self.new.links index None) ≡ true }
        ensures same { self.new ≡ record self.old { links = self.new.links } }
        ensures moved { Moves slots.old (all_slots self.old.links) slots.new (all_slots self.new.links) }
    {
        let Some(link) = &mut self.items[index] else {
            return;
        };
        link.end(slots);
    }

    /// Ends the connection: waiting slots are dropped, and borrowed slots stay until they are released. A connection from which
    /// nothing is borrowed is removed.
    pub fn end(&mut self, index: usize, slots: &mut Slots)
        requires there { is_some (get_or self.old.links index None) ≡ true }
        requires covered { Covers slots.old (all_slots self.old.links) }
        ensures after { map seen self.new.links ≡ set (map seen self.old.links) index (ended (seen (get_or self.old.links index None))) }
        ensures same { self.new ≡ record self.old { links = self.new.links } }
        ensures moved { Moves slots.old (all_slots self.old.links) slots.new (all_slots self.new.links) }
    {
        self.end_link(index, slots);
        self.settle(index);
    }

    /// Drops all waiting slots of the connection, which stays as it is otherwise.
    pub fn lose_waiting(&mut self, index: usize, slots: &mut Slots)
        requires there { is_some (get_or self.old.links index None) ≡ true }
        requires covered { Covers slots.old (all_slots self.old.links) }
        ensures after { map seen self.new.links ≡ set (map seen self.old.links) index (emptied (seen (get_or self.old.links index None))) }
        ensures same { self.new ≡ record self.old { links = self.new.links } }
        ensures moved { Moves slots.old (all_slots self.old.links) slots.new (all_slots self.new.links) }
    {
        let Some(link) = &mut self.items[index] else {
            return;
        };
        link.lose_waiting(slots);
    }

    // Takes back the returned slots of the connection at an index, if one exists.
    fn take_back_one(&mut self, index: usize, slots: &mut Slots)
        requires within { index < length self.old.links }
        requires covered { Covers slots.old (all_slots self.old.links) }
        ensures after { self.new ≡ record self.old { links = set self.old.links index (taken_back (get_or self.old.links index None)) } }
        ensures moved { Moves slots.old (all_slots self.old.links) slots.new (all_slots self.new.links) }
    {
        let Some(link) = &mut self.items[index] else {
            return;
        };
        link.take_back(slots);
    }

    /// Takes back all returned slots of every connection.
    pub fn take_back(&mut self, slots: &mut Slots)
        requires { Covers slots.old (all_slots self.old.links) }
        ensures seen { map seen self.new.links ≡ map seen self.old.links }
        ensures same { self.new ≡ record self.old { links = self.new.links } }
        ensures none_left { (k : ℕ) → times k (all_slots self.new.links) ≡ times k (held (map seen self.new.links)) }
        ensures moved { Moves slots.old (all_slots self.old.links) slots.new (all_slots self.new.links) }
    {
        for index in 0..self.top {
            self.take_back_one(index, slots);
        }
    }

    /// How many indices there are, with a connection or without: at most 2^29, so all uses of a slot can be counted.
    pub fn len(&self) -> usize
        ensures value { result ≡ length self.now.links }
        ensures most { result ≤ 2 ^ 29 }
        ensures countable { (k : ℕ) → times k (all_slots self.now.links) ≤ 2 ^ 62 }
        ensures few { length (held (map seen self.now.links))
            ≤ how_many (map seen self.now.links) * (self.now.most_waiting + self.now.most_borrowed) }
    {
        self.items.len()
    }

    /// The index after the last connection; 0 if there is none.
    pub fn top(&self) -> usize
        ensures within { result ≤ length self.now.links }
        ensures none { (index : ℕ) → result ≤ index → get_or self.now.links index None ≡ None }
        ensures last { (index : ℕ) → index + 1 ≡ result → is_some (get_or self.now.links index None) ≡ true }
    {
        self.top
    }

    // The first index without a connection. If each index has one, this is the index after the last.
    fn vacancy(&self) -> usize
        ensures within { result ≤ length self.now.links }
        ensures vacant { get_or self.now.links result None ≡ None }
        ensures lowest { (lower : ℕ) → lower < result → is_some (get_or self.now.links lower None) ≡ true }
    {
        self.full
    }

    // Puts a connection at this index, below which each index has one.
    fn replace(&mut self, index: usize, link: Link)
        requires within { index < length self.old.links }
        requires lowest { (lower : ℕ) → lower < index → is_some (get_or self.old.links lower None) ≡ true }
        requires kind { IsOf self.old.overflows self.old.most_waiting self.old.most_borrowed (Some link) }
        ensures { self.new ≡ record self.old { links = set self.old.links index (Some link) } }
    {
        let top = larger(self.top, index + 1);
        put_link(&mut self.items, index, link);
        self.full = vacancy_from(self.items.as_slice(), index + 1);
        self.top = top;
    }

    // Appends a connection; each existing index has one already.
    fn append(&mut self, link: Link) -> Result<(), AllocError>
        requires lowest { (lower : ℕ) → lower < length self.old.links → is_some (get_or self.old.links lower None) ≡ true }
        requires kind { IsOf self.old.overflows self.old.most_waiting self.old.most_borrowed (Some link) }
        ensures after { IsOk result → self.new ≡ record self.old { links = self.old.links ++ Some link ∷ [] } }
        ensures refused { OnErr result (self.new ≡ self.old) }
    {
        if self.items.len() >= MOST_LINKS {
            return Err(AllocError);
        }
        self.items.push(Some(link))?;
        self.full = self.items.len();
        self.top = self.items.len();
        Ok(())
    }

    /// Makes a connection in which at most `limit` messages may wait, and answers its index, the lowest that has none. The call fails
    /// only if an allocation fails or if there are 2^29 connections; then nothing has changed.
    pub fn connect(&mut self, alloc: Global, limit: usize) -> Result<usize, AllocError>
        requires { limit ≤ self.old.most_waiting }
        ensures vacant { IfOk result (λ index. seen (get_or self.old.links index None) ≡ nobody) }
        ensures within { IfOk result (λ index. index ≤ length self.old.links) }
        ensures lowest { IfOk result (λ index. (lower : ℕ) → lower < index → is_some (get_or self.old.links lower None) ≡ true) }
        ensures after { IfOk result (λ index. map seen self.new.links ≡ placed index (connected limit) (map seen self.old.links)) }
        ensures uses { (k : ℕ) → times k (all_slots self.new.links) ≡ times k (all_slots self.old.links) }
        ensures same { self.new ≡ record self.old { links = self.new.links } }
        ensures refused { OnErr result (self.new ≡ self.old) }
    {
        let ring = self.most_waiting + self.most_borrowed + 1;
        let link = Link::new(alloc, self.overflows, limit, self.most_borrowed, ring)?;
        let index = self.vacancy();
        if index < self.items.len() {
            self.replace(index, link);
        } else {
            self.append(link)?;
        }
        Ok(index)
    }

    /// No connections yet; up to 2^29 can be made. In each at most `most_waiting` messages may wait, and at most `most_borrowed` may
    /// be borrowed.
    pub fn new(alloc: Global, overflows: bool, most_waiting: usize, most_borrowed: usize) -> Links
        requires waiting { most_waiting < 2 ^ 32 }
        requires borrowed { most_borrowed < 2 ^ 32 }
        ensures { result ≡ record { overflows = overflows; most_waiting = most_waiting; most_borrowed = most_borrowed; links = [] } }
    {
        Links {
            items: Vec::new(alloc),
            full: 0,
            top: 0,
            overflows,
            most_waiting,
            most_borrowed,
        }
    }

    /// The connection at an index, if one exists.
    pub fn get(&self, index: usize) -> Option<&Link>
        ensures { option_copied result ≡ get_or self.now.links index None }
    {
        if index < self.items.len() {
            self.items[index].as_ref()
        } else {
            None
        }
    }

    /// The maximum number of slots borrowed from one connection.
    pub fn most_borrowed(&self) -> usize
        ensures { result ≡ self.now.most_borrowed }
    {
        self.most_borrowed
    }

    /// The maximum number of waiting messages that a connection may have as its limit.
    pub fn most_waiting(&self) -> usize
        ensures { result ≡ self.now.most_waiting }
    {
        self.most_waiting
    }
}

// Puts a connection at an index.
fn put_link(items: &mut Vec<Option<Link>>, index: usize, link: Link)
    requires { index < length items.old.items }
    ensures { items.new.items ≡ set items.old.items index (Some link) }
{
    items[index] = Some(link);
}

// The first index from `start` on that has no connection. If each has one, this is the index after the last.
fn vacancy_from(items: &[Option<Link>], start: usize) -> usize
    requires { start ≤ length items.now }
    ensures within { result ≤ length items.now }
    ensures behind { start ≤ result }
    ensures vacant { get_or items.now result None ≡ None }
    ensures lowest { (index : ℕ) → start ≤ index → index < result → is_some (get_or items.now index None) ≡ true }
{
    for index in start..items.len() {
        if items[index].is_none() {
            return index;
        }
    }
    items.len()
}

// The larger of two numbers.
fn larger(one: usize, other: usize) -> usize
    ensures one { one ≤ result }
    ensures other { other ≤ result }
    ensures least { (most : ℕ) → one ≤ most → other ≤ most → result ≤ most }
{
    if one < other { other } else { one }
}

// The index after the last connection, or 0 if there is none; no connection exists at `top` or at a higher index.
fn lowered(items: &[Option<Link>], top: usize) -> usize
    requires within { top ≤ length items.now }
    requires none { (index : ℕ) → top ≤ index → get_or items.now index None ≡ None }
    ensures within { result ≤ top }
    ensures none { (index : ℕ) → result ≤ index → get_or items.now index None ≡ None }
    ensures last { (index : ℕ) → index + 1 ≡ result → is_some (get_or items.now index None) ≡ true }
{
    for count in 0..top {
        let index = top - 1 - count;
        if items[index].is_some() {
            return index + 1;
        }
    }
    0
}
