//! The order in which a container drops its items. A container of fixed size contains one whose capacity is chosen, and passes its
//! calls on to it.
use crate::answers::{all, hold};
use iox_container::vector::Vector;
use iox_container::{FixedSizeQueue, PolymorphicVec, StaticVec};
use std::alloc::{AllocError, Global};
use std::cell::Cell;

// Appends its digit to the noted ones when it is dropped.
struct Noted<'a>(u8, &'a Cell<u64>);

impl Drop for Noted<'_> {
    fn drop(self) {
        let Noted(digit, notes) = self;
        notes.set(
            notes
                .get()
                .saturating_mul(10)
                .saturating_add(u64::from(digit)),
        );
    }
}

/// Fills a vector with 1, 2 and so on, cuts it to `kept` items, and drops it. Answers whether the cut notes the digits `cut`, and cut
/// and drop together the digits `all`.
fn goes_so<'a, V: Vector<Noted<'a>> + Drop>(
    made: Result<V, AllocError>,
    notes: &'a Cell<u64>,
    (kept, cut, all): (usize, u64, u64),
) -> Result<bool, AllocError> {
    let mut vec = made?;
    for digit in 1..vec.capacity().saturating_add(1) {
        let _ = vec.push(Noted((digit % 10) as u8, notes));
    }
    notes.set(0);
    if kept == 0 {
        vec.clear();
    } else {
        vec.truncate(kept);
    }
    let noted = notes.get();
    drop(vec);
    Ok([noted, notes.get()] == [cut, all])
}

type OfThree<'a> = StaticVec<Noted<'a>, 3>;

type OfSeven<'a> = StaticVec<Noted<'a>, 7>;

type Many<'a> = PolymorphicVec<Noted<'a>, Global>;

/// Whether this is so for vectors of two, three and seven items, of which none, all or some are cut off.
fn go_the_last_first(alloc: Global, notes: &Cell<u64>) -> Result<bool, AllocError> {
    all(&[
        goes_so(OfThree::new(alloc), notes, (3, 0, 321)),
        goes_so(OfThree::new(alloc), notes, (0, 321, 321)),
        goes_so(OfThree::new(alloc), notes, (1, 32, 321)),
        goes_so(OfSeven::new(alloc), notes, (7, 0, 7_654_321)),
        goes_so(OfSeven::new(alloc), notes, (0, 7_654_321, 7_654_321)),
        goes_so(OfSeven::new(alloc), notes, (3, 7_654, 7_654_321)),
        goes_so(Many::new(alloc, 2), notes, (2, 0, 21)),
        goes_so(Many::new(alloc, 3), notes, (3, 0, 321)),
        goes_so(Many::new(alloc, 7), notes, (7, 0, 7_654_321)),
        goes_so(Many::new(alloc, 7), notes, (0, 7_654_321, 7_654_321)),
        goes_so(Many::new(alloc, 7), notes, (2, 76_543, 7_654_321)),
    ])
}

/// Whether a queue of three items is cleared in their order.
fn is_cleared(alloc: Global, notes: &Cell<u64>) -> Result<bool, AllocError> {
    let mut queue = FixedSizeQueue::<Noted<'_>, 3>::new(alloc)?;
    for digit in 7..10 {
        let _ = queue.push(Noted(digit, notes));
    }
    notes.set(0);
    queue.clear();
    Ok(notes.get() == 789)
}

#[test]
fn vectors_drop_the_last_first_and_queues_the_oldest(rt: HostRuntime) {
    let notes = Cell::new(0);
    let answers = [
        go_the_last_first(rt.alloc(), &notes),
        is_cleared(rt.alloc(), &notes),
    ];
    hold(&rt, &answers);
}
