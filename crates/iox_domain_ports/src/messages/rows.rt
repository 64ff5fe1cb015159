//! Rows of values in one block of memory.
ghost use Rattle.std.specs.Prelude.{◌≡◌, ◌+◌, ◌*◌, ◌^◌, ◌<◌, ◌≤◌, ◌++◌, length, get_or, set, take, drop, replicate, [], IfOk};
ghost use Rattle.std.specs.Borrow.{sem};
ghost use Rattle.iox_domain_ports.specs.Rows.{RowsState, row_at, with_row};

use std::alloc::{AllocError, Global};
use std::marker::Model;

/// Rows of values, each with the same capacity, in one block of memory.
///
/// Contracts see the values of each row.
#[derive(Drop)]
pub struct Rows<T> {
    values: Vec<T>,
    lengths: Vec<usize>,
    room: usize,
}

impl<T> Model for Rows<T> {
    ghost use Rattle.std.specs.Prelude.{◌≡◌, ◌*◌, length};
    ghost use Rattle.iox_domain_ports.specs.Rows.{RowsState, rows_in, AllWithin};

    ghost Value = { RowsState T };

    ghost view = { λ r. record { room = r.room; rows = rows_in r.room r.lengths.items r.values.items } };

    ghost invariant = { λ r. (length r.values.items ≡ length r.lengths.items * r.room) × AllWithin r.room r.lengths.items };
}

impl<T: Copy> Rows<T> {
    ghost use Rattle.iox_domain_ports.specs.RowsLends.{LendsInRow};

    /// `rows` rows without values, each with capacity for `room` values. The call fails only if an allocation fails.
    pub fn new(alloc: Global, rows: usize, room: usize, blank: T) -> Result<Rows<T>, AllocError>
        ensures { IfOk result (λ made. made ≡ record { room = room; rows = replicate rows [] }) }
    {
        let Some(places) = rows.checked_mul(room) else {
            return Err(AllocError);
        };
        Ok(Rows {
            values: vec![in alloc; blank; places]?,
            lengths: vec![in alloc; 0; rows]?,
            room,
        })
    }

    /// The maximum number of values in a row.
    pub fn room(&self) -> usize
        ensures { result ≡ self.now.room }
    {
        self.room
    }

    /// Sets the number of values of a row to `count`, whatever values these are.
    pub fn set_length(&mut self, row: usize, count: usize)
        requires row { row < length self.old.rows }
        requires room { count ≤ self.old.room }
        ensures length { length (row_at row self.new) ≡ count }
        ensures rest { self.new ≡ with_row row (row_at row self.new) self.old }
    {
        self.lengths[row] = count;
    }

    /// Replaces the values of a row by these, which must be as many.
    pub fn copy(&mut self, row: usize, values: &[T])
        requires row { row < length self.old.rows }
        requires length { length values.now ≡ length (row_at row self.old) }
        ensures { self.new ≡ with_row row values.now self.old }
    {
        let start = row * self.room;
        put(&mut self.values, start, values);
    }

    /// Writes a value at this place of a row.
    pub fn write(&mut self, row: usize, place: usize, value: T)
        requires { place < length (row_at row self.old) }
        ensures { self.new ≡ with_row row (set (row_at row self.old) place value) self.old }
    {
        let at = row * self.room + place;
        self.values[at] = value;
    }

    /// A mutable reference to the value at this place of a row.
    pub fn value_mut(&mut self, row: usize, place: usize) -> &mut T
        requires { place < length (row_at row self.old) }
        ensures* writes_back { sem 𝓛 (LendsInRow T.row self.entry row place result) }
        ensures value { result.now ≡ get_or (row_at row self.old) place result.now }
    {
        let at = row * self.room + place;
        &mut self.values[at]
    }

    /// The values of a row.
    pub fn row(&self, row: usize) -> &[T]
        requires { row < length self.now.rows }
        ensures { result.now ≡ row_at row self.now }
    {
        part(&self.values, row * self.room, self.lengths[row])
    }
}

impl Rows<bool> {
    /// Writes this mark at each place of a row.
    pub fn fill(&mut self, row: usize, mark: bool)
        requires { row < length self.old.rows }
        ensures { self.new ≡ with_row row (replicate (length (row_at row self.old)) mark) self.old }
    {
        let start = row * self.room;
        mark_part(&mut self.values, start, self.lengths[row], mark);
    }
}

// Writes values from place `start` on.
fn put<T: Copy>(all: &mut [T], start: usize, values: &[T])
    requires { start + length values.now ≤ length all.old }
    ensures { all.new ≡ take start all.old ++ (values.now ++ drop (start + length values.now) all.old) }
{
    let end = start + values.len();
    all[start..end].copy_from_slice(values);
}

// Writes a mark at `count` places from `start` on.
fn mark_part(all: &mut [bool], start: usize, count: usize, mark: bool)
    requires { start + count ≤ length all.old }
    ensures { all.new ≡ take start all.old ++ (replicate count mark ++ drop (start + count) all.old) }
{
    let end = start + count;
    all[start..end].fill(mark);
}

// `count` values from place `start` on.
fn part<T>(values: &[T], start: usize, count: usize) -> &[T]
    requires { start + count ≤ length values.now }
    ensures { result.now ≡ take count (drop start values.now) }
{
    &values[start..start + count]
}
