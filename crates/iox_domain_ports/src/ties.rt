//! Which connection each place of a list is tied to.
ghost use Rattle.std.specs.Prelude.{◌≡◌, ◌≢◌, ◌+◌, ◌≤◌, ◌<◌, ℕ, length, take, get_or, nat_le, is_some};
ghost use Rattle.std.specs.Prelude.{None, IfOk, true};
ghost use Rattle.std.specs.Bool.{OnTrue, OnFalse};
ghost use Rattle.iox_domain_ports.specs.Ties.{no_ties, ties_reached, tie_put, ties_cut, is_tie, has_tie};

use std::alloc::{AllocError, Global};
use std::marker::Model;

/// For each place of a list of ports the number of a connection, or none. Memory for all places of the list is allocated when
/// the ties are made, and first touched when a place is reached; so a place needs no allocation later.
#[derive(Drop)]
pub struct Ties {
    items: Vec<Option<usize>>,
    // The place after the last one that is tied; 0 if none is.
    top: usize,
    room: usize,
}

impl Model for Ties {
    ghost use Rattle.std.specs.Prelude.{◌≡◌, ◌+◌, ◌≤◌, ℕ, get_or, is_some, length, vec_capacity, None, true};
    ghost use Rattle.iox_domain_ports.specs.Ties.{TiesState};

    ghost Value = { TiesState };

    ghost view = { λ t. record { items = t.items.items; room = t.room } };

    ghost invariant = { λ t. (length t.items.items ≤ t.room) × (t.room ≤ vec_capacity t.items)
        × (t.top ≤ length t.items.items) × ((place : ℕ) → t.top ≤ place → get_or t.items.items place None ≡ None)
        × ((place : ℕ) → place + 1 ≡ t.top → is_some (get_or t.items.items place None) ≡ true) };
}

impl Ties {
    /// No ties yet, with capacity for `room` places. The call fails only if an allocation fails.
    pub fn new(alloc: Global, room: usize) -> Result<Ties, AllocError>
        ensures { IfOk result (λ ties. ties ≡ no_ties room) }
    {
        Ok(Ties {
            items: Vec::with_capacity(alloc, room)?,
            top: 0,
            room,
        })
    }

    /// How many places are reached.
    pub fn len(&self) -> usize
        ensures { result ≡ length self.now.items }
    {
        self.items.len()
    }

    /// The place after the last one that is tied; 0 if none is. Walks over the ties stop there.
    pub fn top(&self) -> usize
        ensures bound { result ≤ length self.now.items }
        ensures none { (place : ℕ) → result ≤ place → get_or self.now.items place None ≡ None }
        ensures last { (place : ℕ) → place + 1 ≡ result → is_some (get_or self.now.items place None) ≡ true }
    {
        self.top
    }

    /// What this place is tied to; None also if the place isn't reached.
    pub fn get(&self, place: usize) -> Option<usize>
        ensures { result ≡ get_or self.now.items place None }
    {
        if place < self.items.len() {
            self.items[place]
        } else {
            None
        }
    }

    /// Whether some place is tied to this number. The place `likely` is examined first.
    pub fn has(&self, index: usize, likely: usize) -> bool
        ensures { result ≡ has_tie index self.now }
    {
        self.get(likely) == Some(index) || self.items.iter().any(|tie| is_tie(index, *tie))
    }

    /// Extends the ties to at least `count` places, the new ones untied; answers whether that is within the capacity. If it
    /// isn't, nothing happens.
    pub fn reach(&mut self, count: usize) -> bool
        ensures answer { result ≡ nat_le count self.old.room }
        ensures reached { OnTrue result (self.new ≡ ties_reached count self.old) }
        ensures stays { OnFalse result (self.new ≡ self.old) }
    {
        if self.room < count {
            return false;
        }
        if self.items.len() < count {
            // `new` allocated the memory.
            let _resized = self.items.resize(count, None);
        }
        true
    }

    /// Cuts the ties to at most `count` places.
    pub fn cut(&mut self, count: usize)
        ensures { self.new ≡ ties_cut count self.old }
    {
        self.items.truncate(count);
        if self.items.len() < self.top {
            self.top = end_of(self.items.as_slice(), self.items.len());
        }
    }

    /// Ties a place that is reached, or unties it; at other places nothing happens.
    pub fn put(&mut self, place: usize, tie: Option<usize>)
        ensures { self.new ≡ tie_put place tie self.old }
    {
        if place < self.items.len() {
            self.items[place] = tie;
            self.top = top_after(self.items.as_slice(), self.top, place);
        }
    }
}

// Whether the tie is to this number.
fn is_tie(index: usize, tie: Option<usize>) -> bool
    ensures { result ≡ is_tie index tie }
{
    match tie {
        Some(tie) => tie == index,
        None => false,
    }
}

// The place after the last one that is tied, or 0 if none is, after one changed.
fn top_after(items: &[Option<usize>], top: usize, changed: usize) -> usize
    requires within { top ≤ length items.now }
    requires changed { changed < length items.now }
    requires none { (place : ℕ) → top ≤ place → place ≢ changed → get_or items.now place None ≡ None }
    ensures within { result ≤ length items.now }
    ensures none { (place : ℕ) → result ≤ place → get_or items.now place None ≡ None }
    ensures last { (place : ℕ) → place + 1 ≡ result → is_some (get_or items.now place None) ≡ true }
{
    if top <= changed {
        end_of(items, changed + 1)
    } else {
        end_of(items, top)
    }
}

// The place after the last one that is tied, or 0 if none is; no place from `end` on is tied.
fn end_of(items: &[Option<usize>], end: usize) -> usize
    requires within { end ≤ length items.now }
    requires none { (place : ℕ) → end ≤ place → get_or items.now place None ≡ None }
    ensures within { result ≤ end }
    ensures none { (place : ℕ) → result ≤ place → get_or items.now place None ≡ None }
    ensures last { (place : ℕ) → place + 1 ≡ result → is_some (get_or items.now place None) ≡ true }
{
    for count in 0..end {
        let place = end - 1 - count;
        if items[place].is_some() {
            return place + 1;
        }
    }
    0
}
