//! How many uses each slot of a publisher has.
ghost use Rattle.std.specs.Prelude.{◌≡◌, ◌==◌, ◌≤◌, length, get_or, replicate, take, IfOk, IfSome, IfNone};
ghost use Rattle.iox_lanes_parties.specs.PublisherKeeping.{counted_up, counted_down, first_free};
ghost use Rattle.iox_lanes_parties.specs.UseCounts.{AreUsedBelow, mark_after};

use crate::places::{count_down, count_up};
use std::alloc::{AllocError, Global};
use std::marker::Model;

/// How many uses each slot of a publisher has, and a mark: each slot below it has a use, so a search for a slot without a use begins there.
#[derive(Drop)]
pub struct UseCounts {
    counts: Vec<u64>,
    mark: usize,
}

impl Model for UseCounts {
    ghost use Rattle.std.specs.Prelude.{◌≤◌, length};
    ghost use Rattle.iox_lanes_parties.specs.UseCounts.{AreUsedBelow, UseCountsState};

    ghost Value = { UseCountsState };

    ghost view = { λ u. record { counts = u.counts.items; mark = u.mark } };

    ghost invariant = { λ u. AreUsedBelow u.mark u.counts.items × (u.mark ≤ length u.counts.items) };
}

impl UseCounts {
    /// The counts of this many slots without a use.
    pub fn new(alloc: Global, slots: usize) -> Result<UseCounts, AllocError>
        ensures { IfOk result (λ made. made ≡ record { counts = replicate slots 0; mark = 0 }) }
    {
        Ok(UseCounts {
            counts: vec![in alloc; 0; slots]?,
            mark: 0,
        })
    }

    /// How many slots there are.
    pub fn len(&self) -> usize
        ensures { result ≡ length self.now.counts }
    {
        self.counts.len()
    }

    /// The counts, by slot.
    pub fn as_slice(&self) -> &[u64]
        ensures { result.now ≡ self.now.counts }
    {
        self.counts.as_slice()
    }

    /// The first slot without a use. It looks at the slots from the mark on, up to the one that it returns, and that slot is the mark
    /// from then on.
    #[tactic(auto, using(crate::proofs::UseCounts::found_at_mark, crate::proofs::UseCounts::none_found))]
    pub fn first_free(&mut self) -> Option<u64>
        ensures free { result ≡ first_free self.old.counts 0 }
        ensures same { self.new.counts ≡ self.old.counts }
        ensures found { IfSome result (λ slot. self.new.mark ≡ slot) }
        ensures none { IfNone result (self.new.mark ≡ length self.old.counts) }
    {
        self.mark = free_from(&self.counts, self.mark);
        if self.mark < self.counts.len() {
            Some(self.mark as u64)
        } else {
            None
        }
    }

    /// A slot has one use more; nothing happens beyond the last slot. The mark stays.
    #[tactic(auto, using(crate::proofs::UseCounts::used_more))]
    pub fn count_up(&mut self, slot: u64)
        ensures { self.new ≡ record self.old { counts = counted_up self.old.counts slot } }
    {
        count_up(&mut self.counts, slot);
    }

    /// A slot has one use less; nothing happens beyond the last slot. The mark moves down to the slot if it has no use any longer.
    #[tactic(auto, using(crate::proofs::UseCounts::used_less, crate::proofs::UseCounts::used_above, crate::proofs::UseCounts::freed))]
    pub fn count_down(&mut self, slot: u64)
        ensures counts { self.new.counts ≡ counted_down self.old.counts slot }
        ensures mark { self.new.mark ≡ mark_after self.new.counts slot self.old.mark }
    {
        count_down(&mut self.counts, slot);
        if (slot as usize) < self.mark && is_free(&self.counts, slot) {
            self.mark = slot as usize;
        }
    }

    /// Keeps only the first slots. The mark is the first slot.
    pub fn truncate(&mut self, slots: usize)
        ensures { self.new ≡ record { counts = take slots self.old.counts; mark = 0 } }
    {
        self.counts.truncate(slots);
        self.mark = 0;
    }
}

// Whether this slot has no use.
fn is_free(counts: &[u64], slot: u64) -> bool
    ensures { result ≡ (get_or counts.now slot 1 == 0) }
{
    match counts.get(slot as usize) {
        Some(count) => *count == 0,
        None => false,
    }
}

// The first slot from the mark on that has no use, or how many slots there are.
#[tactic(auto, using(crate::proofs::UseCounts::used_on))]
fn free_from(counts: &[u64], mark: usize) -> usize
    requires used { AreUsedBelow mark counts.now }
    requires within { mark ≤ length counts.now }
    ensures used { AreUsedBelow result counts.now }
    ensures within { result ≤ length counts.now }
    ensures free { get_or counts.now result 0 ≡ 0 }
{
    for at in mark..counts.len() {
        if counts[at] == 0 {
            return at;
        }
    }
    counts.len()
}
