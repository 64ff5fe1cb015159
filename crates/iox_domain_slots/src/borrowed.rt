//! The slots that a subscriber has borrowed from a connection.
ghost use Rattle.std.specs.Prelude.{◌≡◌, ℕ, ◌+◌, ◌^◌, ◌<◌, ◌≤◌, ◌++◌, ◌∷◌, [], length, get_or, remove, vec_capacity};
ghost use Rattle.std.specs.Prelude.{IfOk, IfSome, IfNone, true, false};
ghost use Rattle.iox_container.specs.Unique.{is_among};
ghost use Rattle.iox_domain_slots.specs.Loans.{place_in};
ghost use Rattle.iox_domain_slots.specs.Borrowed.{BorrowedState, cell_of, slots_in, IsOldest, IsNear, IsOnce};

use crate::loans::Loans;
use std::alloc::{AllocError, Global};
use std::marker::Model;

/// The borrowed slots in their order, the oldest first. Each slot is found and removed without a walk over the others, in any order.
///
/// Each slot lies in a cell: the one that its number names, or one a few steps after it. The taken cells are linked in their order,
/// as loans are. Cells are made when they are first reached, in memory that was allocated at the start.
#[derive(Drop)]
pub(crate) struct Borrowed {
    order: Loans,
    // The slots in the cells that were made.
    slots: Vec<u64>,
    cells: usize,
    // No slot lies more than this number of steps after the cell that its number names.
    reach: usize,
    // In the cells below this one, which are examined in turn, no slot lies further behind than `furthest`.
    examined: usize,
    furthest: usize,
    // Whether a slot may be borrowed twice; never while no slot is borrowed.
    twice: bool,
}

impl Model for Borrowed {
    ghost use Rattle.std.specs.Prelude.{◌≡◌, ◌+◌, ◌<◌, ◌≤◌, ◌^◌, [], false, length, vec_capacity};
    ghost use Rattle.iox_domain_slots.specs.Borrowed.{BorrowedState, slots_in, IsNear, IsNearBelow, IsOnce};

    ghost Value = { BorrowedState };

    ghost view = { λ b. record { items = slots_in b.slots.items b.order.items; cells = b.cells } };

    ghost invariant = { λ b. (b.order.made ≡ length b.slots.items) × (b.cells + 1 < 2 ^ 64)
        × (b.reach < b.cells) × IsNear b.cells b.slots.items b.order.items b.reach
        × (b.twice ≡ false → IsOnce b.slots.items b.order.items)
        × (b.order.room ≡ b.cells) × (b.cells ≤ vec_capacity b.slots) × (length b.slots.items ≤ b.cells)
        × (b.furthest < b.cells) × IsNearBelow b.cells b.slots.items b.order.items b.furthest b.examined
        × (b.order.items ≡ [] → (b.twice ≡ false) × (b.reach ≡ 0) × (b.furthest ≡ 0)) };
}

impl Borrowed {
    /// A list without borrowed slots, with capacity for `cells` cells. The call fails only if an allocation fails.
    pub(crate) fn new(alloc: Global, cells: usize) -> Result<Borrowed, AllocError>
        requires { 0 < cells }
        ensures { IfOk result (λ borrowed. borrowed ≡ record { items = []; cells = cells }) }
    {
        if cells == usize::MAX {
            return Err(AllocError);
        }
        Ok(Borrowed {
            order: Loans::with_room(alloc, cells)?,
            slots: Vec::with_capacity(alloc, cells)?,
            cells,
            reach: 0,
            examined: 0,
            furthest: 0,
            twice: false,
        })
    }

    /// How many slots are borrowed.
    pub(crate) fn len(&self) -> usize
        ensures { result ≡ length self.now.items }
    {
        self.order.len()
    }

    /// Whether a slot is borrowed.
    pub(crate) fn has(&self, slot: u64) -> bool
        ensures { result ≡ is_among slot self.now.items }
    {
        oldest(
            &self.order,
            self.slots.as_slice(),
            self.cells,
            slot,
            self.reach,
            self.twice,
        )
        .is_some()
    }

    /// Adds a borrowed slot, as the newest. There must be a cell for it.
    pub(crate) fn push(&mut self, slot: u64)
        requires { length self.old.items < self.old.cells }
        ensures { self.new ≡ record self.old { items = self.old.items ++ slot ∷ [] } }
    {
        let twice = will_be_twice(
            &self.order,
            self.slots.as_slice(),
            self.cells,
            slot,
            self.reach,
            self.twice,
        );
        let step = free_step(&self.order, self.cells, slot);
        let cell = cell_of(self.cells, slot, step);
        let reach = further(self.cells, self.reach, step);
        let furthest = further(self.cells, self.furthest, step);
        make_up_to(&mut self.order, &mut self.slots, self.cells, cell);
        self.slots[cell] = slot;
        self.order.push(cell);
        self.reach = reach;
        self.furthest = furthest;
        self.twice = twice;
    }

    /// Removes the oldest borrowed slot with this number.
    pub(crate) fn remove(&mut self, slot: u64)
        requires { is_among slot self.old.items ≡ true }
        ensures { self.new ≡ record self.old { items = remove self.old.items (place_in slot self.old.items) } }
    {
        self.take_out(slot);
        if self.order.len() > 0 {
            self.examine();
            self.examine();
        }
    }

    // Removes the oldest borrowed slot with this number.
    fn take_out(&mut self, slot: u64)
        requires { is_among slot self.old.items ≡ true }
        ensures { self.new ≡ record self.old { items = remove self.old.items (place_in slot self.old.items) } }
    {
        let Some(cell) = oldest(
            &self.order,
            self.slots.as_slice(),
            self.cells,
            slot,
            self.reach,
            self.twice,
        ) else {
            return;
        };
        self.order.remove(cell);
        if self.order.len() == 0 {
            self.reach = 0;
            self.examined = 0;
            self.furthest = 0;
            self.twice = false;
        }
    }

    // Examines how far behind the slot in one cell more lies. Once all cells were examined `reach` is what was found: so it falls as slots
    // are given back, and each that is given back examines two cells.
    fn examine(&mut self)
        ensures { self.new ≡ self.old }
    {
        if self.examined >= self.order.made() {
            self.reach = self.furthest;
            self.examined = 0;
            self.furthest = 0;
            return;
        }
        let step = step_at(
            &self.order,
            self.slots.as_slice(),
            self.cells,
            self.examined,
        );
        self.furthest = further(self.cells, self.furthest, step);
        self.examined += 1;
    }
}

// Makes all cells up to this one that weren't made yet.
fn make_up_to(order: &mut Loans, slots: &mut Vec<u64>, cells: usize, cell: usize)
    requires within { cell < cells }
    requires room { order.old.room ≡ cells }
    requires made { order.old.made ≡ length slots.old.items }
    requires memory { cells ≤ vec_capacity slots.old }
    requires most { length slots.old.items ≤ cells }
    requires few { length order.old.items + 2 < 2 ^ 64 }
    ensures order { order.new ≡ record order.old { made = length slots.new.items } }
    ensures same { (at : ℕ) → get_or slots.new.items at 0 ≡ get_or slots.old.items at 0 }
    ensures memory { cells ≤ vec_capacity slots.new }
    ensures within { cell < length slots.new.items }
    ensures most { length slots.new.items ≤ cells }
{
    for _ in slots.len()..cell + 1 {
        let _made = order.make_slot();
        slots.push_reserved(0);
    }
}

// The cell `step` places after the one that a slot's number names; the first follows the last.
fn cell_of(cells: usize, slot: u64, step: usize) -> usize
    requires { step < cells }
    ensures value { result ≡ cell_of cells slot step }
    ensures within { result < cells }
{
    let home = (slot % cells as u64) as usize;
    if step < cells - home {
        home + step
    } else {
        step - (cells - home)
    }
}

// The first cell within reach that contains a slot with this number. Most slots lie in the cell that their number names.
fn near(order: &Loans, slots: &[u64], cells: usize, slot: u64, reach: usize) -> Option<usize>
    requires made { order.now.made ≡ length slots.now }
    requires reach { reach < cells }
    ensures taken { IfSome result (λ cell. is_among cell order.now.items ≡ true) }
    ensures same { IfSome result (λ cell. get_or slots.now cell 0 ≡ slot) }
    ensures none { IfNone result ((step : ℕ) → step ≤ reach → is_among (cell_of cells slot step) order.now.items ≡ true
        → get_or slots.now (cell_of cells slot step) 0 ≡ slot → ⊥) }
{
    let home = cell_of(cells, slot, 0);
    if contains(order, slots, home, slot) {
        return Some(home);
    }
    if reach == 0 {
        return None;
    }
    near_behind(order, slots, cells, slot, reach)
}

// Whether this cell is taken, by a slot with this number.
fn contains(order: &Loans, slots: &[u64], cell: usize, slot: u64) -> bool
    requires { order.now.made ≡ length slots.now }
    ensures taken { result ≡ true → is_among cell order.now.items ≡ true }
    ensures same { result ≡ true → get_or slots.now cell 0 ≡ slot }
    ensures none { result ≡ false → is_among cell order.now.items ≡ true → get_or slots.now cell 0 ≡ slot → ⊥ }
{
    order.has(cell) && slots[cell] == slot
}

// The same as `near`, step by step.
#[inline(never)]
fn near_behind(order: &Loans, slots: &[u64], cells: usize, slot: u64, reach: usize) -> Option<usize>
    requires made { order.now.made ≡ length slots.now }
    requires reach { reach < cells }
    ensures taken { IfSome result (λ cell. is_among cell order.now.items ≡ true) }
    ensures same { IfSome result (λ cell. get_or slots.now cell 0 ≡ slot) }
    ensures none { IfNone result ((step : ℕ) → step ≤ reach → is_among (cell_of cells slot step) order.now.items ≡ true
        → get_or slots.now (cell_of cells slot step) 0 ≡ slot → ⊥) }
{
    for step in 0..reach + 1 {
        let cell = cell_of(cells, slot, step);
        if order.has(cell) && slots[cell] == slot {
            return Some(cell);
        }
    }
    None
}

// The cell that contains the oldest borrowed slot with this number, if there is one.
fn oldest(
    order: &Loans,
    slots: &[u64],
    cells: usize,
    slot: u64,
    reach: usize,
    twice: bool,
) -> Option<usize>
    requires made { order.now.made ≡ length slots.now }
    requires reach { reach < cells }
    requires near { IsNear cells slots.now order.now.items reach }
    requires once { twice ≡ false → IsOnce slots.now order.now.items }
    ensures some { IfSome result (λ cell. IsOldest slots.now order.now.items slot cell) }
    ensures none { IfNone result (is_among slot (slots_in slots.now order.now.items) ≡ false) }
{
    if twice {
        order.oldest_of(slots, slot)
    } else {
        near(order, slots, cells, slot, reach)
    }
}

// Whether a slot may be borrowed twice once this one is added.
fn will_be_twice(
    order: &Loans,
    slots: &[u64],
    cells: usize,
    slot: u64,
    reach: usize,
    twice: bool,
) -> bool
    requires made { order.now.made ≡ length slots.now }
    requires reach { reach < cells }
    requires near { IsNear cells slots.now order.now.items reach }
    ensures before { result ≡ false → twice ≡ false }
    ensures none { result ≡ false → is_among slot (slots_in slots.now order.now.items) ≡ false }
    ensures now { result ≡ true → twice ≡ false → is_among slot (slots_in slots.now order.now.items) ≡ true }
{
    twice || near(order, slots, cells, slot, reach).is_some()
}

// How many steps behind the cell that its slot names this cell lies, if it is taken; else 0.
fn step_at(order: &Loans, slots: &[u64], cells: usize, cell: usize) -> usize
    requires within { cell < length slots.now }
    requires most { length slots.now ≤ cells }
    ensures within { result < cells }
    ensures taken { is_among cell order.now.items ≡ true → cell ≡ cell_of cells (get_or slots.now cell 0) result }
    ensures free { is_among cell order.now.items ≡ false → result ≡ 0 }
{
    if !order.has(cell) {
        return 0;
    }
    steps_behind(cells, slots[cell], cell)
}

// How many steps behind the cell that this slot names a cell lies.
fn steps_behind(cells: usize, slot: u64, cell: usize) -> usize
    requires { cell < cells }
    ensures within { result < cells }
    ensures value { cell ≡ cell_of cells slot result }
{
    let home = (slot % cells as u64) as usize;
    if cell < home {
        cells - home + cell
    } else {
        cell - home
    }
}

// The larger of two numbers of steps.
fn further(cells: usize, reach: usize, step: usize) -> usize
    requires reach { reach < cells }
    requires step { step < cells }
    ensures within { result < cells }
    ensures before { reach ≤ result }
    ensures now { step ≤ result }
    ensures least { (most : ℕ) → reach ≤ most → step ≤ most → result ≤ most }
{
    if reach < step { step } else { reach }
}

// How many steps the first free cell lies after the one that a slot's number names.
fn free_step(order: &Loans, cells: usize, slot: u64) -> usize
    requires { length order.now.items < cells }
    ensures within { result < cells }
    ensures free { is_among (cell_of cells slot result) order.now.items ≡ false }
{
    if order.has(cell_of(cells, slot, 0)) {
        free_step_behind(order, cells, slot)
    } else {
        0
    }
}

// The same, where that cell isn't free.
#[inline(never)]
fn free_step_behind(order: &Loans, cells: usize, slot: u64) -> usize
    requires { length order.now.items < cells }
    ensures within { result < cells }
    ensures free { is_among (cell_of cells slot result) order.now.items ≡ false }
{
    for step in 0..cells {
        if !order.has(cell_of(cells, slot, step)) {
            return step;
        }
    }
    unreachable!()
}
