ghost use Rattle.std.specs.Prelude.{◌≡◌, ◌+◌, ◌-◌, ◌<◌, ◌≤◌, ◌^◌, ℕ, length, replicate, nat_lt, slice_index, slice_set, if◌then◌else◌};
ghost use Rattle.std.specs.Prelude.{IfOk};
ghost use Rattle.std.specs.List.{FoldsTo};
ghost use Rattle.iox_queues_base.specs.Bits.{ListsCounts, counted};

use super::BitState;
use std::alloc::{AllocError, Global};
use std::marker::Model;

/// A counter for each number below a capacity that is chosen by `new`. Contracts see the counts.
#[derive(Debug, Drop)]
pub struct CountingBitSet {
    counts: Vec<u64>,
}

impl Model for CountingBitSet {
    ghost use Rattle.std.specs.Prelude.{ℕ, List};

    ghost Value = { List ℕ };

    ghost view = { λ s. s.counts.items };
}

impl CountingBitSet {
    /// A count of 0 for each number below `capacity`; allocates the memory for all counts, and fails only if an allocation fails.
    pub fn new(alloc: Global, capacity: usize) -> Result<CountingBitSet, AllocError>
        ensures { IfOk result (λ s. s ≡ replicate capacity 0) }
    {
        Ok(CountingBitSet {
            counts: vec![in alloc; 0; capacity]?,
        })
    }

    /// Raises the count of the number by one and returns true. If its count is `max_count` already, it stays, and the result is false.
    pub fn set(&mut self, id: usize) -> bool
        requires { id < length self.old }
        ensures answer { result ≡ nat_lt (slice_index self.old id) (2 ^ 64 - 1) }
        ensures after { self.new ≡ (if result then slice_set self.old id (slice_index self.old id + 1) else self.old) }
    {
        let count = self.counts[id];
        if count < u64::MAX {
            self.counts[id] = count + 1;
            true
        } else {
            false
        }
    }

    /// Calls `callback` with each count above 0, by rising number, and resets all counts to 0.
    pub fn reset_all<F: FnMut(BitState)>(&mut self, callback: &mut F)
        requires { F.IsAlwaysCallable callback.old }
        ensures called { FoldsTo (λ p x q. F.step p x tt q) callback.old (counted self.old) callback.new }
        ensures each_once { ListsCounts self.old (counted self.old) }
        ensures callable { F.IsAlwaysCallable callback.new }
        ensures after { self.new ≡ replicate (length self.old) 0 }
    {
        call_counted(callback, self.counts.as_slice());
        self.counts.fill(0);
    }

    /// The maximum of each count.
    pub fn max_count(&self) -> u64
        ensures { result ≡ 2 ^ 64 - 1 }
    {
        u64::MAX
    }

    /// The capacity: every counted number is below it.
    pub fn capacity(&self) -> usize
        ensures { result ≡ length self.now }
    {
        self.counts.len()
    }
}

// Calls `callback` with each count above 0, by rising number.
fn call_counted<F: FnMut(BitState)>(callback: &mut F, counts: &[u64])
    requires { F.IsAlwaysCallable callback.old }
    ensures called { FoldsTo (λ p x q. F.step p x tt q) callback.old (counted counts.now) callback.new }
    ensures callable { F.IsAlwaysCallable callback.new }
{
    let mut rest = counts;
    let mut at = 0usize;
    while let Some((count, tail)) = rest.split_first() {
        if *count != 0 {
            callback(BitState::new(at, *count));
        }
        at += 1;
        rest = tail;
    }
}

/// A counter for each number below `CAPACITY`. Contracts see the counts.
#[derive(Debug, Drop)]
pub struct FixedSizeCountingBitSet<const CAPACITY: usize> {
    set: CountingBitSet,
}

impl<const CAPACITY: usize> Model for FixedSizeCountingBitSet<CAPACITY> {
    ghost use Rattle.std.specs.Prelude.{◌≡◌, ℕ, List, length};

    ghost Value = { List ℕ };

    ghost view = { λ s. s.set };

    ghost invariant = { λ s. length s.set ≡ CAPACITY };
}

impl<const CAPACITY: usize> FixedSizeCountingBitSet<CAPACITY> {
    /// A count of 0 for each number; allocates the memory for all counts, and fails only if an allocation fails.
    pub fn new(alloc: Global) -> Result<FixedSizeCountingBitSet<CAPACITY>, AllocError>
        ensures { IfOk result (λ s. s ≡ replicate CAPACITY 0) }
    {
        Ok(FixedSizeCountingBitSet {
            set: CountingBitSet::new(alloc, CAPACITY)?,
        })
    }

    /// Raises the count of the number by one and returns true. If its count is `max_count` already, it stays, and the result is false.
    pub fn set(&mut self, id: usize) -> bool
        requires { id < CAPACITY }
        ensures answer { result ≡ nat_lt (slice_index self.old id) (2 ^ 64 - 1) }
        ensures after { self.new ≡ (if result then slice_set self.old id (slice_index self.old id + 1) else self.old) }
    {
        self.set.set(id)
    }

    /// Calls `callback` with each count above 0, by rising number, and resets all counts to 0.
    pub fn reset_all<F: FnMut(BitState)>(&mut self, callback: &mut F)
        requires { F.IsAlwaysCallable callback.old }
        ensures called { FoldsTo (λ p x q. F.step p x tt q) callback.old (counted self.old) callback.new }
        ensures each_once { ListsCounts self.old (counted self.old) }
        ensures callable { F.IsAlwaysCallable callback.new }
        ensures after { self.new ≡ replicate CAPACITY 0 }
    {
        self.set.reset_all(callback);
    }

    /// The maximum of each count.
    pub fn max_count(&self) -> u64
        ensures { result ≡ 2 ^ 64 - 1 }
    {
        self.set.max_count()
    }

    /// The capacity: every counted number is below it.
    pub fn capacity(&self) -> usize
        ensures capacity { result ≡ CAPACITY }
        ensures places { length self.now ≡ CAPACITY }
    {
        self.set.capacity()
    }
}
