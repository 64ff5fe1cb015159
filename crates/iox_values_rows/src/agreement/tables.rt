//! Tables with texts of all sizes, and any number of actions of other nodes, with ample memory.
use crate::answers::hold;
use iox_describe::ServiceHash;
use iox_negotiate_base::{
    LockAnswer, LookAnswer, MakeSegmentAnswer, PublishAnswer, Storage, StoredDescription,
};
use iox_negotiate_table::{ForeignStep, StepList, Stepped, Table};
use std::alloc::{AllocError, Global};

/// The hash of a service.
const HASH: ServiceHash = ServiceHash { digest: [5; 20] };

/// Whether a lookup finds this text.
pub(crate) fn is_shown(table: &mut Table, hash: &ServiceHash, text: &[u8]) -> bool {
    match table.look(hash) {
        LookAnswer::Found { bytes, .. } => bytes.as_bytes() == text,
        LookAnswer::Absent | LookAnswer::Locked | LookAnswer::Denied => false,
        LookAnswer::Broken | LookAnswer::OutOfMemory => false,
    }
}

/// Whether a node makes the first service with capacity for one node, and publishes this text.
fn is_made(table: &mut Table, text: StoredDescription) -> bool {
    table.lock(&HASH, 0) == LockAnswer::Taken(1)
        && table.make_segment(&HASH, 1, 0, 1) == MakeSegmentAnswer::Made
        && table.publish(&HASH, 1, text) == PublishAnswer::Published
}

/// Whether a text of `length` bytes is published in a new table, and a lookup then finds it.
fn is_published(alloc: Global, length: usize) -> Result<bool, AllocError> {
    let text = vec![in alloc; b'x'; length]?;
    let stored = StoredDescription::new(text.to_vec(alloc)?);
    let mut table = Table::new(alloc, 1);
    Ok(is_made(&mut table, stored) && is_shown(&mut table, &HASH, text.as_slice()))
}

/// A list of `count` locks that foreign node 1 takes and gives up.
fn locks_of_another(alloc: Global, count: usize) -> Result<StepList, AllocError> {
    let mut steps = Vec::new(alloc);
    for _ in 0..count {
        steps.push(ForeignStep::Lock { node: 1 })?;
        steps.push(ForeignStep::GiveUp { node: 1 })?;
    }
    Ok(StepList::new(steps))
}

/// `count` lists of `locks` locks each.
fn lists_of(alloc: Global, count: usize, locks: usize) -> Result<Vec<StepList>, AllocError> {
    let mut lists = Vec::new(alloc);
    for _ in 0..count {
        lists.push(locks_of_another(alloc, locks)?)?;
    }
    Ok(lists)
}

/// Whether `lists` lists are done, each before its lookup, and the next lock then has this number.
fn are_done(stepped: &mut Stepped, lists: usize, next: u64) -> bool {
    for _ in 0..lists {
        if !matches!(stepped.look(&HASH), LookAnswer::Absent) {
            return false;
        }
    }
    stepped.lock(&HASH, 5) == LockAnswer::Taken(next)
}

/// Whether this is so for lists of `locks` locks each: the next lock's number is above those of all of them.
fn lists_are_done(
    alloc: Global,
    lists: usize,
    locks: usize,
    next: u64,
) -> Result<bool, AllocError> {
    match lists_of(alloc, lists, locks) {
        Ok(all) => Ok(are_done(&mut Stepped::new(Table::new(alloc, 1), all), lists, next)),
        Err(error) => Err(error),
    }
}

#[test]
fn texts_of_all_sizes_are_published_and_all_steps_done(rt: HostRuntime) {
    let alloc: Global = rt.alloc();
    let answers = [
        is_published(alloc, 0),
        is_published(alloc, 1),
        is_published(alloc, 2),
        is_published(alloc, 7),
        is_published(alloc, 64),
        is_published(alloc, 1_000),
        is_published(alloc, 12_000),
        is_published(alloc, 32_769),
        lists_are_done(alloc, 0, 0, 1),
        lists_are_done(alloc, 1, 0, 1),
        lists_are_done(alloc, 1, 1, 2),
        lists_are_done(alloc, 2, 2, 5),
        lists_are_done(alloc, 7, 1, 8),
        lists_are_done(alloc, 64, 1, 65),
        lists_are_done(alloc, 1_000, 1, 1_001),
        lists_are_done(alloc, 1, 500, 501),
    ];
    hold(&rt, &answers);
}
