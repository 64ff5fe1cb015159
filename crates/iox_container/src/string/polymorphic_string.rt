//! A string whose capacity is chosen when it is created.
ghost use Rattle.std.specs.Prelude.{◌≡◌, ℕ, ◌+◌, ◌-◌, ◌<◌, ◌≤◌, ◌↔◌, List, [], ◌∷◌, ◌++◌, length, take, drop, replicate, IsOk, IfOk};
ghost use Rattle.std.specs.Prelude.{Some, nat_eq, refl};
ghost use Rattle.std.specs.Ordering.{nat_cmp};
ghost use Rattle.std.specs.Hash as fed;
ghost use Rattle.std.specs.Cmp.Rules.{hashing};
ghost use Rattle.std.proofs.Common.{rules};
ghost use Rattle.std.specs.Cmp.{on_equiv, on_per, on_po, on_total, partial_equiv_from_equiv};
ghost use Rattle.std.specs.Cmp.Lexicographic.{pointwise, slice_cmp, nat_list_eq_equiv, nat_list_cmp_total, texts_po, texts_ties};

use crate::string::String;
use crate::string::row::replace_in_row;
use std::alloc::{AllocError, Allocator};
use std::cmp::Ordering;
use std::fmt;
use std::hash::{Hash, Hasher};
use std::marker::Model;

/// A string of bytes of 1..=127 whose capacity is chosen by `new`, which allocates all its memory.
///
/// Contracts see it as its bytes, `text`, and its `capacity`.
///
/// Ported from `iceoryx2_bb_container::string::PolymorphicString`.
#[derive(Drop)]
pub struct PolymorphicString<A: Allocator> {
    cells: Vec<u8, A>,
    len: usize,
}

impl<A: Allocator> Model for PolymorphicString<A> {
    ghost use Rattle.std.specs.Prelude.{length, take};
    ghost use Rattle.iox_container.specs.BoundedText.{BoundedText};
    ghost use Rattle.iox_container.specs.TextRow.{IsTextRow};

    ghost Value = { BoundedText };

    ghost view = { λ s. record { text = take s.len s.cells.items; capacity = length s.cells.items } };

    ghost invariant = { λ s. IsTextRow (length s.cells.items) s.len s.cells.items };
}

impl<A: Allocator> PolymorphicString<A> {
    /// An empty string with this capacity. It fails only if an allocation fails, and never at capacity 0.
    pub fn new(alloc: A, capacity: usize) -> Result<Self, AllocError>
        ensures empty { IfOk result (λ s. s.text ≡ []) }
        ensures capacity { IfOk result (λ s. s.capacity ≡ capacity) }
        ensures succeeds { capacity ≡ 0 → IsOk result }
    {
        let mut cells = Vec::with_capacity(alloc, capacity)?;
        cells.resize(capacity, 0)?;
        Ok(PolymorphicString { cells, len: 0 })
    }

    /// A copy with the same text and capacity. It fails only if an allocation fails.
    pub fn try_clone(&self) -> Result<Self, AllocError>
    where
        A: Clone,
        ensures { IfOk result (λ s. s ≡ self.now) }
    {
        Ok(PolymorphicString {
            cells: self.cells.clone()?,
            len: self.len,
        })
    }
}

impl<A: Allocator> String for PolymorphicString<A> {
    ghost text = { λ s. s.text };

    ghost room = { λ s. s.capacity };

    fn as_bytes(&self) -> &[u8] {
        &self.cells[..self.len]
    }

    fn capacity(&self) -> usize {
        self.cells.len()
    }

    fn replace_range(&mut self, from: usize, to: usize, bytes: &[u8]) {
        self.len = replace_in_row(self.cells.as_mut_slice(), self.len, from, to, bytes);
    }

    fn set_byte(&mut self, idx: usize, byte: u8) {
        self.cells[idx] = byte;
    }

    ghost equality_of_bytes = { λ _ _. refl };

    ghost order_of_bytes = { λ _ _. refl };

    ghost hash_of_bytes = { λ _. refl };
}

impl<A: Allocator> PartialEq for PolymorphicString<A> {
    ghost eq = { λ s t. pointwise nat_eq s.text t.text };

    ghost laws = { on_per (λ s. s.text) (partial_equiv_from_equiv nat_list_eq_equiv) };

    fn eq(&self, other: &Self) -> bool {
        self.as_bytes() == other.as_bytes()
    }
}

impl<A: Allocator> Eq for PolymorphicString<A> {
    ghost laws = { on_equiv (λ s. s.text) nat_list_eq_equiv };
}

impl<A: Allocator> PartialOrd for PolymorphicString<A> {
    ghost partial_cmp = { λ s t. Some (slice_cmp nat_cmp s.text t.text) };

    ghost laws = { on_po (λ s. s.text) texts_po };

    fn partial_cmp(&self, other: &Self) -> Option<Ordering> {
        Some(self.cmp(other))
    }
}

impl<A: Allocator> Ord for PolymorphicString<A> {
    ghost cmp = { λ s t. slice_cmp nat_cmp s.text t.text };

    ghost total = { on_total (λ s. s.text) nat_list_cmp_total };

    ghost matches_partial_cmp = { λ s t. refl };

    ghost matches_eq = { λ s t. texts_ties s.text t.text };

    fn cmp(&self, other: &Self) -> Ordering {
        self.as_bytes().cmp(other.as_bytes())
    }
}

impl<A: Allocator> Hash for PolymorphicString<A> {
    ghost hash_input = { λ s. fed.slice fed.u8 s.text };

    ghost respects_eq = { Prim.search (hashing, rules) };

    fn hash<H: Hasher>(&self, state: &mut H) {
        self.as_bytes().hash(state);
    }
}

impl<A: Allocator> fmt::Debug for PolymorphicString<A> {
    fn fmt<W: fmt::Write>(&self, f: &mut fmt::Formatter<W>) -> fmt::Result {
        fmt::Debug::fmt(&self.as_str(), f)
    }
}

/// Shows the text.
impl<A: Allocator> fmt::Display for PolymorphicString<A> {
    ghost output = { λ s. Some s.text };

    fn fmt<W: fmt::Write>(&self, f: &mut fmt::Formatter<W>) -> fmt::Result {
        f.pad(self.as_str())
    }
}
