//! Which values in the slots of a publisher are written.
ghost use Rattle.std.specs.Prelude.{◌≡◌, ◌+◌, ◌<◌, ◌≤◌, ◌++◌, Bool, List, length, get_or, set, replicate, [], IfOk, false};
ghost use Rattle.std.specs.List.{list_all};
ghost use Rattle.iox_domain_ports.specs.Payloads.{PayloadsState, payload_at, with_payload};
ghost use Rattle.iox_domain_ports.specs.Marks.{marks_of};

use crate::messages::payloads::Payloads;
use crate::messages::rows::Rows;
use std::alloc::{AllocError, Global};
use std::marker::Model;

/// How the values of a slot are marked. Most loans are written all at once, and then no value needs a mark of its own.
#[derive(Clone, Copy)]
pub enum Marking {
    /// None of them is written.
    Unwritten,

    /// Each of them is written.
    Written,

    /// Each has a mark of its own.
    EachMarked,
}

/// For each value in the slots of a publisher whether it is written.
///
/// Contracts see a mark for each value.
#[derive(Drop)]
pub struct Marks {
    // Rows as long as the slots' values; a row has the marks only if each value of its slot has its own.
    rows: Payloads<bool>,
    markings: Vec<Marking>,
}

impl Model for Marks {
    ghost use Rattle.std.specs.Prelude.{◌≡◌, ◌+◌, ◌-◌, ◌*◌, ◌≤◌, ℕ, Bool, length, get_or};
    ghost use Rattle.iox_domain_ports.specs.Payloads.{PayloadsState};
    ghost use Rattle.iox_domain_ports.specs.Marks.{all_marks};
    ghost use Rattle.iox_domain_ports.specs.declared.messages.marks.Marking.TheVariants.{EachMarked};

    ghost Value = { PayloadsState Bool };

    ghost view = { λ m. record m.rows { payloads = all_marks m.markings.items m.rows.payloads } };

    // The slots of future segments have markings already, each of them `EachMarked`.
    ghost invariant = { λ m. (length m.rows.payloads + (m.rows.most_segments - m.rows.segments) * m.rows.size ≤ length m.markings.items)
        × ((slot : ℕ) → length m.rows.payloads ≤ slot → get_or m.markings.items slot EachMarked ≡ EachMarked) };
}

impl Marks {
    /// No slots yet; they come in at most `most_segments` segments of this size. The call fails only if an allocation fails.
    pub fn new(alloc: Global, size: usize, most_segments: usize) -> Result<Marks, AllocError>
        ensures { IfOk result (λ made. made
            ≡ record { size = size; segments = 0; most_segments = most_segments; room = 0; payloads = [] }) }
    {
        let Some(most) = most_segments.checked_mul(size) else {
            return Err(AllocError);
        };
        Ok(Marks {
            rows: Payloads::new(alloc, size, most_segments)?,
            markings: vec![in alloc; Marking::EachMarked; most]?,
        })
    }

    /// Adds a segment.
    pub fn push(&mut self, segment: Rows<bool>)
        requires size { length segment.rows ≡ self.old.size }
        requires room { self.old.segments < self.old.most_segments }
        ensures { self.new ≡ record self.old
            { segments = self.old.segments + 1; room = segment.room; payloads = self.old.payloads ++ segment.rows } }
    {
        self.rows.push(segment);
    }

    /// Sets the number of values of a slot of the last segment to `count`, whatever their marks are.
    pub fn set_length(&mut self, slot: usize, count: usize)
        requires slot { slot < length self.old.payloads }
        requires last { length self.old.payloads ≤ slot + self.old.size }
        requires room { count ≤ self.old.room }
        ensures length { length (payload_at slot self.new) ≡ count }
        ensures rest { self.new ≡ with_payload slot (payload_at slot self.new) self.old }
    {
        self.rows.set_length(slot, count);
    }

    /// Gives each value of a slot this mark.
    pub fn fill(&mut self, slot: usize, mark: bool)
        requires { slot < length self.old.payloads }
        ensures { self.new ≡ with_payload slot (replicate (length (payload_at slot self.old)) mark) self.old }
    {
        self.markings[slot] = marking_of(mark);
    }

    /// Gives a value of a slot this mark.
    pub fn write(&mut self, slot: usize, place: usize, mark: bool)
        requires { place < length (payload_at slot self.old) }
        ensures { self.new ≡ with_payload slot (set (payload_at slot self.old) place mark) self.old }
    {
        write_out(self.markings[slot], &mut self.rows, slot);
        self.rows.write(slot, place, mark);
        self.markings[slot] = Marking::EachMarked;
    }

    /// Whether the value at this place of a slot is marked; false if the slot has no such place.
    pub fn is_marked(&self, slot: usize, place: usize) -> bool
        requires { slot < length self.now.payloads }
        ensures { result ≡ get_or (payload_at slot self.now) place false }
    {
        match self.markings[slot] {
            Marking::Unwritten => false,
            Marking::Written => place < self.rows.values(slot).len(),
            Marking::EachMarked => is_marked(self.rows.values(slot), place),
        }
    }

    /// Whether each value of a slot is marked.
    pub fn are_all(&self, slot: usize) -> bool
        requires { slot < length self.now.payloads }
        ensures { result ≡ list_all (λ mark. mark) (payload_at slot self.now) }
    {
        match self.markings[slot] {
            Marking::Unwritten => self.rows.values(slot).is_empty(),
            Marking::Written => true,
            Marking::EachMarked => all_marked(self.rows.values(slot)),
        }
    }
}

// The marking of a slot each value of which has this mark.
fn marking_of(mark: bool) -> Marking
    ensures { (row : List Bool) → marks_of result row ≡ replicate (length row) mark }
{
    if mark {
        Marking::Written
    } else {
        Marking::Unwritten
    }
}

// Gives each value of a slot the mark that the whole slot has.
fn write_out(marking: Marking, rows: &mut Payloads<bool>, slot: usize)
    requires { slot < length rows.old.payloads }
    ensures { rows.new ≡ with_payload slot (marks_of marking (payload_at slot rows.old)) rows.old }
{
    match marking {
        Marking::Unwritten => rows.fill(slot, false),
        Marking::Written => rows.fill(slot, true),
        Marking::EachMarked => {}
    }
}

// Whether there is such a place, and its mark is set.
fn is_marked(marks: &[bool], place: usize) -> bool
    ensures { result ≡ get_or marks.now place false }
{
    match marks.get(place) {
        Some(mark) => *mark,
        None => false,
    }
}

// Whether all of these marks are set.
fn all_marked(marks: &[bool]) -> bool
    ensures { result ≡ list_all (λ mark. mark) marks.now }
{
    marks.iter().all(|mark| *mark)
}
