//! Index sets that threads share.
//!
//! `acquire` and the release of a guard access the words of the set one after the other: the head, and the link of an index to the next
//! free one. Every call is memory-safe and returns, and is refused only if the set is locked, out of indices, or after 2^20 lost exchanges.
//! Which index a call gets while other threads call isn't proved.
ghost use Rattle.std.specs.Prelude.{◌≡◌, ◌<◌, ◌^◌, length, true, false, IfOk, IfErr, IsErrOf};
ghost use Rattle.iox_container.specs.Shared.{SharedSetState, shared_form};
ghost use Rattle.iox_container.specs.declared.error.UniqueIndexSetAcquireFailure.TheVariants.{OutOfIndices, IsLocked};

use crate::error::UniqueIndexSetAcquireFailure;
use crate::head::HeadDetails;
use crate::unique::UniqueIndexSet;
use std::alloc::{AllocError, Global};
use std::marker::Model;
use std::sync::atomic::{AtomicU64, Ordering};

/// After how many lost exchanges a call gives up.
const LOST_TURNS: u32 = 1 << 20;

/// The link of the last free index. It is the largest number that a head can store, so no set that can be shared has it as an index.
const END: u32 = (1 << 24) - 1;

/// A set of fewer than 2^24 indices that threads share. Its head counts changes in 16 bits: if other threads make 65,536 changes during one
/// `acquire`, two guards may have the same index.
///
/// Ported from `iceoryx2_bb_lock_free::mpmc::unique_index_set::UniqueIndexSet`.
#[derive(Drop)]
pub struct SharedIndexSet {
    head: AtomicU64,
    links: Vec<AtomicU64>,
    locked: bool,
}

impl Model for SharedIndexSet {
    ghost use Rattle.std.specs.Prelude.{length};
    ghost use Rattle.iox_container.specs.Shared.{SharedSetState};

    ghost Value = { SharedSetState };

    ghost view = { λ s. record { capacity = length s.links.items; locked = s.locked } };
}

impl UniqueIndexSet {
    /// Makes a shared set with the same free indices. The set is returned unchanged if an allocation fails, or if it has 2^24 indices or
    /// more, which a head can't store.
    pub fn share(self, alloc: Global) -> Result<SharedIndexSet, UniqueIndexSet>
        ensures shared { IfOk result (λ set. set ≡ shared_form self) }
        ensures room { IfOk result (λ set. self.capacity < 2 ^ 24) }
        ensures back { IfErr result (λ set. set ≡ self) }
    {
        if self.capacity() > END as usize {
            return Err(self);
        }
        let Ok(links) = ends(alloc, self.capacity()) else {
            return Err(self);
        };
        let locked = self.is_locked();
        let borrowed_indices = u32::try_from(self.borrowed_indices()).unwrap_or(END);
        let mut head = END;
        // From the last that would be handed out to the first, each leads to the one that was put before it.
        for index in self.free_indices() {
            if *index < links.len() {
                links[*index].store(u64::from(head), Ordering::SeqCst);
                head = u32::try_from(*index).unwrap_or(END);
            }
        }
        let details = HeadDetails {
            head,
            aba: 0,
            borrowed_indices,
        };
        Ok(SharedIndexSet {
            head: AtomicU64::new(details.value()),
            links,
            locked,
        })
    }
}

// `count` links, each of which marks the end of the free indices.
fn ends(alloc: Global, count: usize) -> Result<Vec<AtomicU64>, AllocError>
    ensures { IfOk result (λ links. length links.items ≡ count) }
{
    let mut links = Vec::with_capacity(alloc, count)?;
    for made in 0..count {
        links.push(AtomicU64::new(u64::from(END)))?;
    }
    Ok(links)
}

impl SharedIndexSet {
    /// Hands out the next free index, which is released when the guard is dropped.
    ///
    /// Refused with `IsLocked` if the set was locked when it was shared, else with `OutOfIndices` if every index is held, or after 2^20
    /// lost exchanges.
    pub fn acquire(&self) -> Result<UniqueIndex<'_>, UniqueIndexSetAcquireFailure>
        ensures locked { self.now.locked ≡ true → IsErrOf result IsLocked }
        ensures out { self.now.locked ≡ false → IfErr result (λ failure. failure ≡ OutOfIndices) }
        ensures below { IfOk result (λ guard. guard.index < self.now.capacity) }
    {
        if self.locked {
            return Err(UniqueIndexSetAcquireFailure::IsLocked);
        }
        let mut word = self.head.load(Ordering::SeqCst);
        for _ in 0..LOST_TURNS {
            let old = HeadDetails::from(word);
            let Some(link) = self.links.get(old.head as usize) else {
                return Err(UniqueIndexSetAcquireFailure::OutOfIndices);
            };
            let next = u32::try_from(link.load(Ordering::SeqCst)).unwrap_or(END);
            let new = old.after_acquire(next);
            match exchange(&self.head, word, new.value()) {
                Ok(()) => {
                    return Ok(UniqueIndex {
                        set: self,
                        index: old.head,
                    });
                }
                Err(found) => word = found,
            }
        }
        Err(UniqueIndexSetAcquireFailure::OutOfIndices)
    }

    /// How many indices are held.
    pub fn borrowed_indices(&self) -> usize {
        self.head().borrowed_indices as usize
    }

    /// The current head: the next free index, the count of changes, and how many indices are held.
    pub fn head(&self) -> HeadDetails {
        HeadDetails::from(self.head.load(Ordering::SeqCst))
    }

    /// The capacity: every index is below it.
    pub fn capacity(&self) -> usize
        ensures { result ≡ self.now.capacity }
    {
        self.links.len()
    }

    /// Whether the set was locked when it was shared.
    pub fn is_locked(&self) -> bool
        ensures { result ≡ self.now.locked }
    {
        self.locked
    }

    // Releases the index, unless 2^20 exchanges are lost; then the index stays held.
    fn release(&self, index: u32) {
        let Some(link) = self.links.get(index as usize) else {
            return;
        };
        let mut word = self.head.load(Ordering::SeqCst);
        for _ in 0..LOST_TURNS {
            let old = HeadDetails::from(word);
            link.store(u64::from(old.head), Ordering::SeqCst);
            let new = old.after_release(index);
            match exchange(&self.head, word, new.value()) {
                Ok(()) => return,
                Err(found) => word = found,
            }
        }
    }
}

fn exchange(head: &AtomicU64, old: u64, new: u64) -> Result<(), u64> {
    match head.compare_exchange(old, new, Ordering::SeqCst, Ordering::SeqCst) {
        Ok(_) => Ok(()),
        Err(found) => Err(found),
    }
}

/// An index that is held until this guard is dropped.
///
/// Ported from `iceoryx2_bb_lock_free::mpmc::unique_index_set::UniqueIndex`.
pub struct UniqueIndex<'a> {
    set: &'a SharedIndexSet,
    index: u32,
}

impl<'a> Model for UniqueIndex<'a> {
    ghost use Rattle.iox_container.specs.Shared.{HeldIndex};

    ghost Value = { HeldIndex };

    ghost view = { λ g. record { index = g.index } };
}

impl UniqueIndex<'_> {
    /// The index.
    pub fn value(&self) -> u32
        ensures { result ≡ self.now.index }
    {
        self.index
    }
}

impl Drop for UniqueIndex<'_> {
    fn drop(self) {
        let UniqueIndex { set, index } = self;
        set.release(index);
    }
}
