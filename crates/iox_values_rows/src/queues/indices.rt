//! Index sets that threads share: each answer that they give, and guards in two threads.
use crate::answers::{all, hold};
use iox_index::{
    HeadDetails, ReleaseMode, SharedIndexSet, UniqueIndex, UniqueIndexSet,
    UniqueIndexSetAcquireFailure,
};
use std::alloc::{AllocError, Global};
use std::sync::atomic::{AtomicU64, AtomicUsize, Ordering};
use std::thread;
use std::thread::Threads;

const NONE_LEFT: UniqueIndexSetAcquireFailure = UniqueIndexSetAcquireFailure::OutOfIndices;

/// A shared set of `capacity` indices, of which the first `held` are held, except for those of `released`, which were released in
/// this order.
pub(crate) fn shared(
    alloc: Global,
    capacity: usize,
    held: usize,
    released: &[usize],
) -> Result<SharedIndexSet, AllocError> {
    let mut set = UniqueIndexSet::new(alloc, capacity)?;
    for _ in 0..held {
        let _ = set.acquire_raw_index();
    }
    for index in released {
        if set.is_held(*index) {
            let _ = set.release_raw_index(*index, ReleaseMode::Default);
        }
    }
    set.share(alloc).ok().ok_or(AllocError)
}

/// The number of an index that is acquired and released at once.
fn next(set: &SharedIndexSet) -> Result<usize, UniqueIndexSetAcquireFailure> {
    match set.acquire() {
        Ok(index) => Ok(index.value() as usize),
        Err(failure) => Err(failure),
    }
}

/// Whether a set hands out, twice, the index after those that are held, if there is one.
fn hands_out(alloc: Global, capacity: usize, held: usize) -> Result<bool, AllocError> {
    let set = shared(alloc, capacity, held, &[])?;
    let wanted = if held < capacity {
        Ok(held)
    } else {
        Err(NONE_LEFT)
    };
    Ok([next(&set), next(&set)] == [wanted; 2] && set.borrowed_indices() == held)
}

/// Whether this is so for sets of a size of which no index, half of them and all of them are held.
fn all_hand_out(alloc: Global, size: usize) -> Result<bool, AllocError> {
    all(&[
        hands_out(alloc, size, 0),
        hands_out(alloc, size, size / 2),
        hands_out(alloc, size, size),
    ])
}

/// Acquires every index of a set of `capacity`, of which none is held, and releases all of them. Answers whether no further index was
/// left.
fn takes_all(alloc: Global, set: &SharedIndexSet, capacity: usize) -> Result<bool, AllocError> {
    let mut held = Vec::new(alloc);
    for _ in 0..capacity {
        match set.acquire() {
            Ok(index) => held.push(index)?,
            Err(_) => return Ok(false),
        }
    }
    Ok(next(set) == Err(NONE_LEFT) && set.borrowed_indices() == capacity)
}

/// Whether this is so twice for a new set, of which no index is held in the end.
fn all_are_taken(alloc: Global, capacity: usize) -> Result<bool, AllocError> {
    let set = shared(alloc, capacity, 0, &[])?;
    let are_taken = takes_all(alloc, &set, capacity)? && takes_all(alloc, &set, capacity)?;
    Ok(are_taken && set.borrowed_indices() == 0)
}

/// Whether this number of indices is held, after this number of changes, and `head` is the next free index.
fn is_at(set: &SharedIndexSet, borrowed_indices: u32, aba: u16, head: u32) -> bool {
    set.head()
        == HeadDetails {
            head,
            aba,
            borrowed_indices,
        }
}

/// The link of the last free index, which marks the end.
const END: u32 = (1 << 24) - 1;

/// Whether index 2 is the next one each time, until the count of changes has wrapped around.
fn goes_round(set: &SharedIndexSet) -> bool {
    for _ in 0..1 << 15 {
        if next(set) != Ok(2) {
            return false;
        }
    }
    true
}

/// Whether 1 is the next free index of a set of three after 2 and then 1 were released, and 2 was handed out again and again in
/// between.
fn counts_what_comes_back(
    set: &SharedIndexSet,
    first: UniqueIndex<'_>,
    second: UniqueIndex<'_>,
) -> bool {
    let refused = next(set) == Err(NONE_LEFT) && is_at(set, 3, 2, END);
    drop(first);
    let released = is_at(set, 2, 3, 2) && goes_round(set) && is_at(set, 2, 3, 2);
    drop(second);
    refused && released && is_at(set, 1, 4, 1)
}

/// Whether a set of three, of which index 0 is held and 1, then 2 were released, counts each change and no refusal, and hands out the
/// index released last.
fn counts_its_changes(set: &SharedIndexSet) -> bool {
    let before = is_at(set, 1, 0, 2);
    let Some((first, second)) = set.acquire().ok().zip(set.acquire().ok()) else {
        return false;
    };
    let values = [first.value(), second.value()];
    let counted = is_at(set, 3, 2, END);
    counts_what_comes_back(set, first, second) && before && counted && values == [2, 1]
}

fn changes(alloc: Global) -> Result<bool, AllocError> {
    Ok(counts_its_changes(&shared(alloc, 3, 3, &[1, 2])?))
}

/// How often a thread acquires two indices.
const ROUNDS: usize = 1_000;

/// How often a thread checks whether the other one has come as far, before it gives up.
const LOOKS: u32 = 1 << 30;

/// The bit of an index in a word that says which of four are held; 0 if it is none of them.
fn mark(index: &UniqueIndex<'_>) -> u64 {
    match index.value() {
        0 => 1,
        1 => 2,
        2 => 4,
        3 => 8,
        _ => 0,
    }
}

/// One of the four indices, if nobody held it. It is marked as held from now on.
fn take<'a>(set: &'a SharedIndexSet, held: &AtomicU64) -> Option<UniqueIndex<'a>> {
    let index = set.acquire().ok()?;
    let mark = mark(&index);
    if mark == 0 || held.fetch_or(mark, Ordering::SeqCst) & mark != 0 {
        None
    } else {
        Some(index)
    }
}

/// Releases an index, after its mark was cleared.
fn give(index: UniqueIndex<'_>, held: &AtomicU64) {
    held.fetch_and(!mark(&index), Ordering::SeqCst);
    drop(index);
}

/// Waits until the other thread holds its two indices of this round; gives up after `LOOKS` checks.
fn meets(other: &AtomicUsize, round: usize) -> bool {
    for _ in 0..LOOKS {
        if other.load(Ordering::SeqCst) >= round {
            return true;
        }
    }
    false
}

/// Acquires two of four indices again and again, and holds them until the other thread holds its two as well. Answers whether no
/// index was handed out that is held, or that the set doesn't have.
fn holds_two(
    set: &SharedIndexSet,
    held: &AtomicU64,
    mine: &AtomicUsize,
    others: &AtomicUsize,
) -> bool {
    for round in 1..ROUNDS + 1 {
        let Some((first, second)) = take(set, held).zip(take(set, held)) else {
            return false;
        };
        mine.store(round, Ordering::SeqCst);
        if !meets(others, round) {
            return false;
        }
        give(first, held);
        give(second, held);
    }
    true
}

/// Whether two threads hold two indices each at the same time, all of them different, and release what they acquire.
fn all_come_back(rt: &impl Threads, set: &SharedIndexSet) -> bool {
    let held = AtomicU64::new(0);
    let first = AtomicUsize::new(0);
    let second = AtomicUsize::new(0);
    let (here, there) = thread::join(
        rt,
        || holds_two(set, &held, &first, &second),
        || holds_two(set, &held, &second, &first),
    );
    here && there && set.borrowed_indices() == 0
}

fn come_back(rt: &impl Threads, alloc: Global) -> Result<bool, AllocError> {
    Ok(all_come_back(rt, &shared(alloc, 4, 0, &[])?))
}

#[test]
fn a_shared_set_gives_each_answer(rt: HostRuntime) {
    let alloc: Global = rt.alloc();
    let answers = [
        all_hand_out(alloc, 0),
        all_hand_out(alloc, 1),
        all_hand_out(alloc, 2),
        all_hand_out(alloc, 7),
        all_hand_out(alloc, 64),
        all_hand_out(alloc, 1_000),
        all_are_taken(alloc, 0),
        all_are_taken(alloc, 1_000),
        all_are_taken(alloc, 70_000),
        changes(alloc),
        come_back(&rt, alloc),
    ];
    hold(&rt, &answers);
}
