ghost use Rattle.std.specs.Prelude.{◌≡◌, ◌+◌, ◌-◌, ◌<◌, ◌≤◌, ◌^◌, ℕ, true, false, not, length, replicate, set, slice_index_or, slice_set};
ghost use Rattle.std.specs.Prelude.{IfOk, MatchOption, IfSome, IfNone};
ghost use Rattle.std.specs.List.{FoldsTo};
ghost use Rattle.iox_queues_base.specs.Bits.{BitList, IsNext, AreClear, ListsMembers, members};

use std::alloc::{AllocError, Global};
use std::marker::Model;

/// A set of numbers below a capacity that is chosen by `new`.
#[derive(Debug, Drop)]
pub struct BitSet {
    bits: Vec<bool>,
    next: usize,
}

impl Model for BitSet {
    ghost use Rattle.std.specs.Prelude.{◌≤◌, length};
    ghost use Rattle.iox_queues_base.specs.Bits.{BitList};

    ghost Value = { BitList };

    ghost view = { λ s. record { bits = s.bits.items; next = s.next } };

    ghost invariant = { λ s. s.next ≤ length s.bits.items };
}

impl BitSet {
    /// The empty set of numbers below `capacity`; allocates the memory for all of them, and fails only if an allocation fails.
    pub fn new(alloc: Global, capacity: usize) -> Result<BitSet, AllocError>
        ensures { IfOk result (λ s. s ≡ record { bits = replicate capacity false; next = 0 }) }
    {
        Ok(BitSet {
            bits: vec![in alloc; false; capacity]?,
            next: 0,
        })
    }

    /// Adds the number to the set; true if it was not a member before.
    pub fn set(&mut self, id: usize) -> bool
        requires { id < length self.old.bits }
        ensures answer { result ≡ not (slice_index_or self.old.bits id false) }
        ensures after { self.new ≡ record self.old { bits = set self.old.bits id true } }
    {
        let was_clear = !self.bits[id];
        self.bits[id] = true;
        was_clear
    }

    /// Removes the next member and returns it; `None` if the set is empty. The search starts after the number that the last call removed,
    /// and wraps around once.
    pub fn reset_next(&mut self) -> Option<usize>
        ensures none { IfNone result (AreClear self.old.bits 0 (length self.old.bits) × (self.new ≡ self.old)) }
        ensures next { IfSome result (IsNext self.old.bits self.old.next) }
        ensures after { IfSome result (λ i. self.new ≡ record { bits = set self.old.bits i false; next = i + 1 }) }
    {
        let id = next_set(self.bits.as_slice(), self.next)?;
        self.bits[id] = false;
        self.next = id + 1;
        Some(id)
    }

    /// Calls `callback` with each member, in rising order, and removes all members.
    pub fn reset_all<F: FnMut(usize)>(&mut self, callback: &mut F)
        requires { F.IsAlwaysCallable callback.old }
        ensures called { FoldsTo (λ p x q. F.step p x tt q) callback.old (members self.old.bits) callback.new }
        ensures each_once { ListsMembers self.old.bits (members self.old.bits) }
        ensures callable { F.IsAlwaysCallable callback.new }
        ensures after { self.new ≡ record self.old { bits = replicate (length self.old.bits) false } }
    {
        call_members(callback, self.bits.as_slice());
        self.bits.fill(false);
    }

    /// The capacity: every number of the set is below it.
    pub fn capacity(&self) -> usize
        ensures { result ≡ length self.now.bits }
    {
        self.bits.len()
    }
}

// The first member at or above `from` and below `to`.
fn first_set(bits: &[bool], from: usize, to: usize) -> Option<usize>
    requires { to ≤ length bits.now }
    ensures none { IfNone result (AreClear bits.now from to) }
    ensures some { IfSome result (λ i. (from ≤ i) × (i < to) × (slice_index_or bits.now i false ≡ true) × AreClear bits.now from i) }
{
    for i in from..to {
        if bits[i] {
            return Some(i);
        }
    }
    None
}

// The first member at or above `from`, wrapping around once.
fn next_set(bits: &[bool], from: usize) -> Option<usize>
    requires { from ≤ length bits.now }
    ensures none { IfNone result (AreClear bits.now 0 (length bits.now)) }
    ensures within { IfSome result (λ i. i < length bits.now) }
    ensures next { IfSome result (IsNext bits.now from) }
{
    match first_set(bits, from, bits.len()) {
        Some(id) => Some(id),
        None => first_set(bits, 0, from),
    }
}

// Calls `callback` with each member, in rising order.
fn call_members<F: FnMut(usize)>(callback: &mut F, bits: &[bool])
    requires { F.IsAlwaysCallable callback.old }
    ensures called { FoldsTo (λ p x q. F.step p x tt q) callback.old (members bits.now) callback.new }
    ensures callable { F.IsAlwaysCallable callback.new }
{
    let mut rest = bits;
    let mut at = 0usize;
    while let Some((is_set, tail)) = rest.split_first() {
        let place = at;
        at += 1;
        rest = tail;
        if !*is_set {
            continue;
        }
        callback(place);
    }
}

/// A set of numbers below `CAPACITY`.
#[derive(Debug, Drop)]
pub struct FixedSizeBitSet<const CAPACITY: usize> {
    set: BitSet,
}

impl<const CAPACITY: usize> Model for FixedSizeBitSet<CAPACITY> {
    ghost use Rattle.std.specs.Prelude.{◌≡◌, length};
    ghost use Rattle.iox_queues_base.specs.Bits.{BitList};

    ghost Value = { BitList };

    ghost view = { λ s. s.set };

    ghost invariant = { λ s. length s.set.bits ≡ CAPACITY };
}

impl<const CAPACITY: usize> FixedSizeBitSet<CAPACITY> {
    /// The empty set; allocates all its memory, and fails only if an allocation fails.
    pub fn new(alloc: Global) -> Result<FixedSizeBitSet<CAPACITY>, AllocError>
        ensures { IfOk result (λ s. s ≡ record { bits = replicate CAPACITY false; next = 0 }) }
    {
        Ok(FixedSizeBitSet {
            set: BitSet::new(alloc, CAPACITY)?,
        })
    }

    /// Adds the number to the set; true if it was not a member before.
    pub fn set(&mut self, id: usize) -> bool
        requires { id < CAPACITY }
        ensures answer { result ≡ not (slice_index_or self.old.bits id false) }
        ensures after { self.new ≡ record self.old { bits = set self.old.bits id true } }
    {
        let _ = &self.set;
        self.set.set(id)
    }

    /// Removes the next member and returns it; `None` if the set is empty. The search starts after the number that the last call removed,
    /// and wraps around once.
    pub fn reset_next(&mut self) -> Option<usize>
        ensures none { IfNone result (AreClear self.old.bits 0 CAPACITY × (self.new ≡ self.old)) }
        ensures next { IfSome result (IsNext self.old.bits self.old.next) }
        ensures after { IfSome result (λ i. self.new ≡ record { bits = set self.old.bits i false; next = i + 1 }) }
    {
        self.set.reset_next()
    }

    /// Calls `callback` with each member, in rising order, and removes all members.
    pub fn reset_all<F: FnMut(usize)>(&mut self, callback: &mut F)
        requires { F.IsAlwaysCallable callback.old }
        ensures called { FoldsTo (λ p x q. F.step p x tt q) callback.old (members self.old.bits) callback.new }
        ensures each_once { ListsMembers self.old.bits (members self.old.bits) }
        ensures callable { F.IsAlwaysCallable callback.new }
        ensures after { self.new ≡ record self.old { bits = replicate CAPACITY false } }
    {
        self.set.reset_all(callback);
    }

    /// The capacity: every number of the set is below it.
    pub fn capacity(&self) -> usize
        ensures capacity { result ≡ CAPACITY }
        ensures places { length self.now.bits ≡ CAPACITY }
    {
        self.set.capacity()
    }
}
