//! The values in the slots of a publisher.
ghost use Rattle.std.specs.Prelude.{◌≡◌, ◌+◌, ◌-◌, ◌*◌, ◌/◌, ◌%◌, ◌<◌, ◌≤◌, ◌++◌, length, get_or, set, replicate, [], IfOk};
ghost use Rattle.std.specs.Borrow.{sem};
ghost use Rattle.iox_domain_ports.specs.Payloads.{PayloadsState, payload_at, with_payload};

use crate::messages::rows::Rows;
use std::alloc::{AllocError, Global};
use std::marker::Model;

/// The values of each slot. Slots come in segments; those of one segment have the same capacity, in one block of memory.
///
/// Contracts see the values of each slot.
#[derive(Drop)]
pub struct Payloads<T> {
    segments: Vec<Rows<T>>,
    size: usize,
    most_segments: usize,
}

impl<T> Model for Payloads<T> {
    ghost use Rattle.std.specs.Prelude.{◌≡◌, ◌*◌, ◌≤◌, length, vec_capacity};
    ghost use Rattle.iox_domain_ports.specs.Rows.{RowsState};
    ghost use Rattle.iox_domain_ports.specs.Payloads.{PayloadsState, all_rows, last_segment, AllOfSize};

    ghost Value = { PayloadsState T };

    ghost view = { λ p. record {
      size = p.size;
      segments = length p.segments.items;
      most_segments = p.most_segments;
      room = (last_segment p.segments.items).room;
      payloads = all_rows p.segments.items;
    } };

    ghost invariant = { λ p. AllOfSize p.size p.segments.items × (p.most_segments ≤ vec_capacity p.segments) };
}

impl<T: Copy> Payloads<T> {
    ghost use Rattle.iox_domain_ports.specs.PayloadsLends.{LendsInSlot};

    /// No slots yet; they come in at most `most_segments` segments of this size. The call fails only if an allocation fails.
    pub fn new(alloc: Global, size: usize, most_segments: usize) -> Result<Payloads<T>, AllocError>
        ensures { IfOk result (λ made. made
            ≡ record { size = size; segments = 0; most_segments = most_segments; room = 0; payloads = [] }) }
    {
        Ok(Payloads {
            segments: Vec::with_capacity(alloc, most_segments)?,
            size,
            most_segments,
        })
    }

    /// Adds a segment.
    pub fn push(&mut self, segment: Rows<T>)
        requires size { length segment.rows ≡ self.old.size }
        requires room { self.old.segments < self.old.most_segments }
        ensures { self.new ≡ record self.old
            { segments = self.old.segments + 1; room = segment.room; payloads = self.old.payloads ++ segment.rows } }
    {
        self.segments.push_reserved(segment);
    }

    /// Sets the number of values of a slot of the last segment to `count`, whatever values these are.
    pub fn set_length(&mut self, slot: usize, count: usize)
        requires slot { slot < length self.old.payloads }
        requires last { length self.old.payloads ≤ slot + self.old.size }
        requires room { count ≤ self.old.room }
        ensures length { length (payload_at slot self.new) ≡ count }
        ensures rest { self.new ≡ with_payload slot (payload_at slot self.new) self.old }
    {
        let row = row_of(slot, self.size);
        let segment = &mut self.segments[segment_of(slot, self.size)];
        segment.set_length(row, count);
    }

    /// Replaces the values of a slot by these, which must be as many.
    pub fn copy(&mut self, slot: usize, values: &[T])
        requires slot { slot < length self.old.payloads }
        requires length { length values.now ≡ length (payload_at slot self.old) }
        ensures { self.new ≡ with_payload slot values.now self.old }
    {
        let row = row_of(slot, self.size);
        let segment = &mut self.segments[segment_of(slot, self.size)];
        segment.copy(row, values);
    }

    /// Writes a value at this place of a slot.
    pub fn write(&mut self, slot: usize, place: usize, value: T)
        requires { place < length (payload_at slot self.old) }
        ensures { self.new ≡ with_payload slot (set (payload_at slot self.old) place value) self.old }
    {
        let row = row_of(slot, self.size);
        let segment = &mut self.segments[segment_of(slot, self.size)];
        segment.write(row, place, value);
    }

    /// A mutable reference to the value at this place of a slot.
    pub fn value_mut(&mut self, slot: usize, place: usize) -> &mut T
        requires { place < length (payload_at slot self.old) }
        ensures* writes_back { sem 𝓛 (LendsInSlot T.row self.entry slot place result) }
        ensures value { result.now ≡ get_or (payload_at slot self.old) place result.now }
    {
        let row = row_of(slot, self.size);
        let segment = &mut self.segments[segment_of(slot, self.size)];
        segment.value_mut(row, place)
    }

    /// The values of a slot.
    pub fn values(&self, slot: usize) -> &[T]
        requires { slot < length self.now.payloads }
        ensures { result.now ≡ payload_at slot self.now }
    {
        let row = row_of(slot, self.size);
        let segment = &self.segments[segment_of(slot, self.size)];
        segment.row(row)
    }

    /// The maximum number of values in a slot of the last segment; 0 if there is no segment.
    pub fn room(&self) -> usize
        ensures { result ≡ self.now.room }
    {
        match self.segments.last() {
            Some(segment) => segment.room(),
            None => 0,
        }
    }

    /// How many slots a segment has.
    pub fn size(&self) -> usize
        ensures { result ≡ self.now.size }
    {
        self.size
    }

    /// How many more segments may be added.
    pub fn segments_left(&self) -> usize
        ensures { result ≡ self.now.most_segments - self.now.segments }
    {
        self.most_segments.saturating_sub(self.segments.len())
    }
}

impl Payloads<bool> {
    /// Writes this mark at each place of a slot.
    pub fn fill(&mut self, slot: usize, mark: bool)
        requires { slot < length self.old.payloads }
        ensures { self.new ≡ with_payload slot (replicate (length (payload_at slot self.old)) mark) self.old }
    {
        let row = row_of(slot, self.size);
        let segment = &mut self.segments[segment_of(slot, self.size)];
        segment.fill(row, mark);
    }
}

// The segment of a slot. Most slots are in the first one, and a division costs more than the rest of a call.
fn segment_of(slot: usize, size: usize) -> usize
    requires { 0 < size }
    ensures { result ≡ slot / size }
{
    if slot < size { 0 } else { slot / size }
}

// The row of a slot in its segment.
fn row_of(slot: usize, size: usize) -> usize
    requires { 0 < size }
    ensures { result ≡ slot % size }
{
    if slot < size { slot } else { slot % size }
}
