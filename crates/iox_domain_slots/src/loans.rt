//! The loans of a publisher by their slots.
ghost use Rattle.std.specs.Prelude.{◌≡◌, ℕ, ◌+◌, ◌^◌, ◌<◌, ◌≤◌, ◌++◌, ◌∷◌, [], length, get_or, remove};
ghost use Rattle.std.specs.Prelude.{IfOk, IfSome, IfNone, IsOk, OnErr, Some, true, false};
ghost use Rattle.iox_container.specs.Unique.{is_among};
ghost use Rattle.iox_domain_slots.specs.Loans.{LoansState, place_in};
ghost use Rattle.iox_domain_slots.specs.Borrowed.{slots_in, IsOldest};

use std::alloc::{AllocError, Global};
use std::marker::Model;

/// The slots of the loans in their order, the oldest first. Each slot is found and removed without a walk over the others.
///
/// The loans are linked from the newest to the oldest; the oldest is linked to the next slot that can be made. The link from
/// the newest to a newer one has no meaning.
#[derive(Drop)]
pub(crate) struct Loans {
    older: Vec<usize>,
    newer: Vec<usize>,
    newest: usize,
    len: usize,
    // Whether a loan is in the slot.
    lent: Vec<bool>,
    // For how many slots memory was allocated at the start.
    room: usize,
}

impl Model for Loans {
    ghost use Rattle.std.specs.Prelude.{◌≡◌, ◌+◌, ◌<◌, ◌≤◌, ◌^◌, ℕ, false, length, get_or, reverse, vec_capacity};
    ghost use Rattle.iox_container.specs.Links.{LinksKeys, walk};
    ghost use Rattle.iox_container.specs.Unique.{is_among};
    ghost use Rattle.iox_domain_slots.specs.Loans.{LoansState};

    ghost Value = { LoansState };

    ghost view = { λ l. record { items = reverse (walk l.older.items l.len l.newest); made = length l.older.items; room = l.room } };

    ghost invariant = { λ l. LinksKeys l.older.items l.newer.items l.newest (length l.older.items) l.len (walk l.older.items l.len l.newest)
        × ((slot : ℕ) → get_or l.lent.items slot false ≡ is_among slot (walk l.older.items l.len l.newest))
        × (length l.lent.items ≡ length l.older.items) × (l.len + 1 < 2 ^ 64)
        × (l.room ≤ vec_capacity l.older) × (l.room < vec_capacity l.newer) × (l.room ≤ vec_capacity l.lent) };
}

impl Loans {
    /// No loans, and `slots` slots. The call fails only if an allocation fails.
    pub(crate) fn new(alloc: Global, slots: usize) -> Result<Loans, AllocError>
        ensures loans { IfOk result (λ loans. loans.items ≡ []) }
        ensures made { IfOk result (λ loans. loans.made ≡ slots) }
    {
        let older = vec![in alloc; 0; slots]?;
        let mut newer = vec![in alloc; 0; slots]?;
        newer.push(0)?;
        let lent = vec![in alloc; false; slots]?;
        Ok(Loans {
            older,
            newer,
            newest: slots,
            len: 0,
            lent,
            room: 0,
        })
    }

    /// No loans and no slots yet, but memory for `room` slots. The call fails only if an allocation fails.
    pub(crate) fn with_room(alloc: Global, room: usize) -> Result<Loans, AllocError>
        requires { room + 1 < 2 ^ 64 }
        ensures { IfOk result (λ loans. loans ≡ record { items = []; made = 0; room = room }) }
    {
        let older = Vec::with_capacity(alloc, room)?;
        let mut newer = Vec::with_capacity(alloc, room + 1)?;
        newer.push_reserved(0);
        let lent = Vec::with_capacity(alloc, room)?;
        Ok(Loans {
            older,
            newer,
            newest: 0,
            len: 0,
            lent,
            room,
        })
    }

    /// How many loans exist.
    pub(crate) fn len(&self) -> usize
        ensures { result ≡ length self.now.items }
    {
        self.len
    }

    /// How many slots were made; each loan is in one of them.
    pub(crate) fn made(&self) -> usize
        ensures value { result ≡ self.now.made }
        ensures all { (slot : ℕ) → is_among slot self.now.items ≡ true → slot < result }
    {
        self.lent.len()
    }

    /// Whether a loan is in this slot.
    pub(crate) fn has(&self, slot: usize) -> bool
        ensures there { result ≡ is_among slot self.now.items }
        ensures made { result ≡ true → slot < self.now.made }
    {
        slot < self.lent.len() && self.lent[slot]
    }

    /// The oldest loan for whose slot the list `numbers` has this number.
    pub(crate) fn oldest_of(&self, numbers: &[u64], number: u64) -> Option<usize>
        requires { self.now.made ≡ length numbers.now }
        ensures some { IfSome result (λ slot. IsOldest numbers.now self.now.items number slot) }
        ensures none { IfNone result (is_among number (slots_in numbers.now self.now.items) ≡ false) }
    {
        let mut slot = self.newest;
        let mut found = None;
        for _ in 0..self.len {
            found = found_at(numbers, number, slot, found);
            slot = self.older[slot];
        }
        found
    }

    /// Adds a loan in this slot, which had none.
    pub(crate) fn push(&mut self, slot: usize)
        requires made { slot < self.old.made }
        requires free { is_among slot self.old.items ≡ false }
        requires few { length self.old.items + 2 < 2 ^ 64 }
        ensures items { self.new.items ≡ self.old.items ++ slot ∷ [] }
        ensures made { self.new.made ≡ self.old.made }
        ensures room { self.new.room ≡ self.old.room }
    {
        self.lent[slot] = true;
        self.older[slot] = self.newest;
        self.newer[self.newest] = slot;
        self.newest = slot;
        self.len += 1;
    }

    /// Ends the loan in this slot.
    pub(crate) fn remove(&mut self, slot: usize)
        requires { is_among slot self.old.items ≡ true }
        ensures after { self.new ≡ record self.old { items = remove self.old.items (place_in slot self.old.items) } }
        ensures there { get_or self.old.items (place_in slot self.old.items) 0 ≡ slot }
        ensures within { place_in slot self.old.items < length self.old.items }
    {
        self.lent[slot] = false;
        self.len -= 1;
        let older = self.older[slot];
        if slot == self.newest {
            self.newest = older;
            return;
        }
        let newer = self.newer[slot];
        self.older[newer] = older;
        self.newer[older] = newer;
    }

    // Makes the next slot, which then is the oldest loan.
    fn append(&mut self) -> Result<usize, AllocError>
        requires { length self.old.items + 2 < 2 ^ 64 }
        ensures slot { IfOk result (λ slot. slot ≡ self.old.made) }
        ensures after { IfOk result (λ slot. self.new ≡ record self.old { items = slot ∷ self.old.items; made = slot + 1 }) }
        ensures refused { OnErr result (self.new ≡ self.old) }
        ensures succeeds { self.old.made < self.old.room → IsOk result }
    {
        self.older.reserve(1)?;
        self.newer.reserve(1)?;
        self.lent.reserve(1)?;
        let slot = self.older.len();
        self.older.push_reserved(slot + 1);
        self.newer.push_reserved(slot);
        self.lent.push_reserved(true);
        self.len += 1;
        Ok(slot)
    }

    /// Makes the next slot, without a loan. The call can't fail while fewer slots exist than memory was allocated for at the
    /// start.
    pub(crate) fn make_slot(&mut self) -> Result<(), AllocError>
        requires { length self.old.items + 2 < 2 ^ 64 }
        ensures made { IfOk result (λ _. self.new ≡ record self.old { made = self.old.made + 1 }) }
        ensures refused { OnErr result (self.new ≡ self.old) }
        ensures succeeds { self.old.made < self.old.room → IsOk result }
    {
        let slot = self.append()?;
        self.remove(slot);
        Ok(())
    }

    // Allocates memory for `slots` more slots at once.
    fn reserve(&mut self, slots: usize) -> Result<(), AllocError>
        ensures { self.new ≡ self.old }
    {
        self.older.reserve(slots)?;
        self.newer.reserve(slots)?;
        self.lent.reserve(slots)?;
        Ok(())
    }

    /// Makes `slots` more slots. The call fails only if an allocation fails; then fewer slots were made.
    pub(crate) fn grow(&mut self, slots: usize) -> Result<(), AllocError>
        requires { length self.old.items + 2 < 2 ^ 64 }
        ensures loans { self.new.items ≡ self.old.items }
        ensures made { IfOk result (λ _. self.new.made ≡ self.old.made + slots) }
        ensures more { self.old.made ≤ self.new.made }
    {
        self.reserve(slots)?;
        for _ in 0..slots {
            self.make_slot()?;
        }
        Ok(())
    }
}

// The last place found so far, after `place` of the list was compared with the number.
fn found_at(numbers: &[u64], number: u64, place: usize, found: Option<usize>) -> Option<usize>
    requires { place < length numbers.now }
    ensures here { get_or numbers.now place 0 ≡ number → result ≡ Some place }
    ensures elsewhere { (get_or numbers.now place 0 ≡ number → ⊥) → result ≡ found }
{
    if numbers[place] == number {
        Some(place)
    } else {
        found
    }
}
