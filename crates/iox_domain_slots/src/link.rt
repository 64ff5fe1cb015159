//! A connection by the slots that it holds.
ghost use Rattle.std.specs.Prelude.{◌≡◌, ℕ, ◌+◌, ◌^◌, ◌<◌, ◌≤◌, ◌++◌, ◌∷◌, [], length, drop, remove};
ghost use Rattle.std.specs.Prelude.{slice_get, IfOk, Some, true, false};
ghost use Rattle.iox_domain_slots.specs.Uses.{accepts, offered, taken};
ghost use Rattle.iox_domain_slots.specs.Loans.{place_in};
ghost use Rattle.iox_container.specs.Unique.{is_among};
ghost use Rattle.iox_domain_slots.specs.Counting.{SlotsState, times, uses_of, let_go, Moves, Covers};
ghost use Rattle.iox_domain_slots.specs.Links.{LinkState, all_of, connection_of, room_of, IsSameLink, IsFit, put_into, put_answer};

use crate::borrowed::Borrowed;
use crate::mailbox::{Put, put_behind};
use crate::slots::Slots;
use iox_container::queue::Queue;
use std::alloc::{AllocError, Global};
use std::marker::Model;

/// A connection: its mailbox, the slots that its subscriber has borrowed, and those that were returned and not yet taken back.
///
/// All its memory is allocated when the connection is made.
#[derive(Drop)]
pub struct Link {
    // The slots of the messages that wait, the oldest first.
    waiting: Queue<u64>,
    // Whether a full mailbox drops its oldest slot; otherwise it refuses the new one.
    overflows: bool,
    borrowed: Borrowed,
    returned: Queue<u64>,
    most_borrowed: usize,
    ended: bool,
    // Whether a message was put since the returned ones were last taken back.
    delivered: bool,
}

impl Model for Link {
    ghost use Rattle.std.specs.Prelude.{◌≡◌, ◌+◌, ◌<◌, ◌≤◌, length, cond};
    ghost use Rattle.iox_domain_slots.specs.Links.{LinkState};

    ghost Value = { LinkState };

    ghost view = { λ l. record {
      ended = l.ended;
      overflows = l.overflows;
      limit = l.waiting.capacity;
      most_borrowed = l.most_borrowed;
      waiting = l.waiting.items;
      borrowed = l.borrowed.items;
      returned = l.returned.items;
      delivered = l.delivered;
    } };

    // A put since the returned slots were last taken back may give the connection one slot more than may wait and be borrowed.
    ghost invariant = { λ l. (length l.waiting.items ≤ l.waiting.capacity)
        × (length l.borrowed.items ≤ l.most_borrowed) × (l.most_borrowed < l.borrowed.cells)
        × (l.waiting.capacity + l.most_borrowed < l.returned.capacity)
        × (length l.waiting.items + (length l.borrowed.items + length l.returned.items) ≤ l.waiting.capacity + l.most_borrowed +
        cond l.delivered 1 0) };
}

impl Link {
    /// Takes back the oldest returned slot, which the connection no longer uses then.
    fn take_one_back(&mut self, slots: &mut Slots)
        requires some { 0 < length self.old.returned }
        requires covered { Covers slots.old (all_of self.old) }
        ensures shorter { self.new ≡ record self.old { returned = drop 1 self.old.returned } }
        ensures moved { Moves slots.old (all_of self.old) slots.new (all_of self.new) }
    {
        let Some(slot) = self.returned.pop() else {
            return;
        };
        slots.let_go(slot as usize);
    }

    /// Takes back all returned slots.
    pub fn take_back(&mut self, slots: &mut Slots)
        requires { Covers slots.old (all_of self.old) }
        ensures after { self.new ≡ record self.old { returned = []; delivered = false } }
        ensures fits { IsFit self.new }
        ensures moved { Moves slots.old (all_of self.old) slots.new (all_of self.new) }
    {
        for _ in 0..self.returned.len() {
            self.take_one_back(slots);
        }
        self.delivered = false;
    }

    // Prepares a put: takes the returned slots back if a message was put since they were last taken back.
    fn make_room(&mut self, slots: &mut Slots)
        requires { Covers slots.old (all_of self.old) }
        ensures room { self.new.delivered ≡ false }
        ensures fewer { (k : ℕ) → times k (all_of self.new) ≤ times k (all_of self.old) }
        ensures same { IsSameLink self.old self.new × (self.new.waiting ≡ self.old.waiting) × (self.new.borrowed ≡ self.old.borrowed) }
        ensures moved { Moves slots.old (all_of self.old) slots.new (all_of self.new) }
    {
        if self.delivered {
            self.take_back(slots);
        }
    }

    // Puts a slot into the mailbox.
    fn put(&mut self, slot: u64) -> Put
        requires { self.old.delivered ≡ false }
        ensures answer { result ≡ put_answer self.old.overflows self.old.limit self.old.waiting slot }
        ensures same { IsSameLink self.old self.new × (self.new.borrowed ≡ self.old.borrowed) × (self.new.returned ≡ self.old.returned) }
        ensures waiting { self.new.waiting ≡ put_into self.old.overflows self.old.limit self.old.waiting slot }
        ensures fits { IsFit self.new }
    {
        let answer = put_behind(&mut self.waiting, self.overflows, slot);
        self.delivered = answer != Put::Refused;
        answer
    }

    /// Puts a slot that is also used elsewhere into the mailbox, and answers whether the mailbox accepted it. A full mailbox drops
    /// its oldest slot if it overflows; otherwise it refuses the new one.
    pub fn offer(&mut self, slot: usize, slots: &mut Slots) -> bool
        requires covered { Covers slots.old (all_of self.old) }
        requires besides { times slot (all_of self.old) < uses_of slot slots.old }
        requires room { uses_of slot slots.old + 1 < 2 ^ 64 }
        ensures answer { result ≡ accepts self.old.overflows (connection_of self.old) }
        ensures after { connection_of self.new ≡ offered self.old.overflows slot (connection_of self.old) }
        ensures same { IsSameLink self.old self.new }
        ensures fits { IsFit self.new }
        ensures moved { Moves slots.old (all_of self.old) slots.new (all_of self.new) }
    {
        self.make_room(slots);
        match self.put(slot as u64) {
            Put::Taken => {
                slots.refer(slot);
                true
            }
            Put::TakenFor(oldest) => {
                slots.refer(slot);
                slots.let_go(oldest as usize);
                true
            }
            Put::Refused => false,
        }
    }

    /// Borrows the oldest waiting slot, and answers it.
    pub fn take(&mut self) -> usize
        requires data { 0 < length self.old.waiting }
        requires room { length self.old.borrowed < self.old.most_borrowed }
        ensures slot { slice_get self.old.waiting 0 ≡ Some result }
        ensures after { connection_of self.new ≡ taken (connection_of self.old) }
        ensures same { IsSameLink self.old self.new }
        ensures fits { IsFit self.new }
        ensures uses { (k : ℕ) → times k (all_of self.new) ≡ times k (all_of self.old) }
    {
        let Some(slot) = self.waiting.pop() else {
            return 0;
        };
        self.borrowed.push(slot);
        slot as usize
    }

    /// Returns a borrowed slot; the publisher takes it back later.
    pub fn give_back(&mut self, slot: usize)
        requires { is_among slot self.old.borrowed ≡ true }
        ensures after { self.new ≡ record self.old {
          borrowed = remove self.old.borrowed (place_in slot self.old.borrowed);
          returned = self.old.returned ++ slot ∷ [];
        } }
        ensures fits { IsFit self.new }
        ensures uses { (k : ℕ) → times k (all_of self.new) ≡ times k (all_of self.old) }
    {
        self.borrowed.remove(slot as u64);
        let _has_room = self.returned.push(slot as u64);
    }

    /// Takes a borrowed slot back at once, which the connection no longer uses then.
    pub fn let_go(&mut self, slot: usize, slots: &mut Slots)
        requires there { is_among slot self.old.borrowed ≡ true }
        requires covered { Covers slots.old (all_of self.old) }
        ensures after { self.new ≡ record self.old { borrowed = remove self.old.borrowed (place_in slot self.old.borrowed) } }
        ensures fits { IsFit self.new }
        ensures moved { Moves slots.old (all_of self.old) slots.new (all_of self.new) }
    {
        self.borrowed.remove(slot as u64);
        slots.let_go(slot);
    }

    // Drops the oldest waiting slot.
    fn lose_one(&mut self, slots: &mut Slots)
        requires some { 0 < length self.old.waiting }
        requires covered { Covers slots.old (all_of self.old) }
        ensures shorter { self.new ≡ record self.old { waiting = drop 1 self.old.waiting } }
        ensures moved { Moves slots.old (all_of self.old) slots.new (all_of self.new) }
    {
        let Some(slot) = self.waiting.pop() else {
            return;
        };
        slots.let_go(slot as usize);
    }

    /// Drops all waiting slots.
    pub fn lose_waiting(&mut self, slots: &mut Slots)
        requires { Covers slots.old (all_of self.old) }
        ensures after { self.new ≡ record self.old { waiting = [] } }
        ensures fits { IsFit self.new }
        ensures moved { Moves slots.old (all_of self.old) slots.new (all_of self.new) }
    {
        for _ in 0..self.waiting.len() {
            self.lose_one(slots);
        }
    }

    /// Ends the connection: waiting slots are dropped, returned slots are taken back, and borrowed slots stay.
    pub fn end(&mut self, slots: &mut Slots)
        requires { Covers slots.old (all_of self.old) }
        ensures after { self.new ≡ record self.old { ended = true; waiting = []; returned = []; delivered = false } }
        ensures fits { IsFit self.new }
        ensures moved { Moves slots.old (all_of self.old) slots.new (all_of self.new) }
    {
        self.lose_waiting(slots);
        self.take_back(slots);
        self.ended = true;
    }

    /// A connection that holds nothing, with capacity for all that may wait, be borrowed or be returned. `ring` is how many
    /// slots may have been returned at once. The call fails only if an allocation fails.
    pub fn new(
        alloc: Global,
        overflows: bool,
        limit: usize,
        most_borrowed: usize,
        ring: usize,
    ) -> Result<Link, AllocError>
        requires { limit + most_borrowed < ring }
        ensures { IfOk result (λ link. link ≡ record {
          ended = false;
          overflows = overflows;
          limit = limit;
          most_borrowed = most_borrowed;
          waiting = [];
          borrowed = [];
          returned = [];
          delivered = false;
        }) }
    {
        Ok(Link {
            waiting: Queue::new(alloc, limit)?,
            overflows,
            borrowed: Borrowed::new(alloc, ring.saturating_mul(2))?,
            returned: Queue::new(alloc, ring)?,
            most_borrowed,
            ended: false,
            delivered: false,
        })
    }

    /// Whether its subscriber was closed.
    pub fn is_ended(&self) -> bool
        ensures { result ≡ self.now.ended }
    {
        self.ended
    }

    /// How many slots wait.
    pub fn waiting(&self) -> usize
        ensures { result ≡ length self.now.waiting }
    {
        self.waiting.len()
    }

    /// The slot of the message that waits at place `at` of the mailbox; the oldest is at 0.
    pub fn waiting_slot(&self, at: usize) -> usize
        requires { at < length self.now.waiting }
        ensures { slice_get self.now.waiting at ≡ Some result }
    {
        self.waiting.get(at) as usize
    }

    /// How many slots are borrowed.
    pub fn borrowed(&self) -> usize
        ensures { result ≡ length self.now.borrowed }
    {
        self.borrowed.len()
    }

    /// The maximum number of waiting slots.
    pub fn limit(&self) -> usize
        ensures { result ≡ self.now.limit }
    {
        self.waiting.capacity()
    }

    /// Whether a slot is borrowed.
    pub fn has_borrowed(&self, slot: usize) -> bool
        ensures { result ≡ is_among slot self.now.borrowed }
    {
        self.borrowed.has(slot as u64)
    }
}
