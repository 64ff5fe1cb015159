//! Ample memory is always enough, at each size; and a capacity that no memory can hold is refused.
use crate::answers::{Want, are_refused, find_memory};
use iox_container::by_number::Numbered;
use iox_container::byte_cells::{ByteMachine, ByteStep};
use iox_container::queue::Queue;
use iox_container::string::{PolymorphicString, String, as_escaped_string};
use iox_container::vector::Vector;
use iox_container::{
    FixedSizeFlatMap, FixedSizeQueue, FixedSizeSlotMap, FlatMap, PolymorphicVec, SlotMap, StaticVec,
};
use std::alloc::{AllocError, Global};
use std::convert::identity;

/// A large capacity.
const MANY: usize = 1_000_003;

/// A capacity, and how many items are added.
const SIZES: [(usize, usize); 15] = [
    (0, 0),
    (1, 0),
    (1, 1),
    (2, 1),
    (2, 2),
    (5, 2),
    (5, 5),
    (7, 3),
    (7, 7),
    (64, 32),
    (64, 64),
    (1_000, 500),
    (1_000, 1_000),
    (MANY, 1_000),
    (MANY, MANY),
];

/// The error of a string to which these bytes are appended, or of its copy.
fn text(alloc: Global, capacity: usize, bytes: &[u8]) -> Want {
    match PolymorphicString::new(alloc, capacity) {
        Ok(mut text) => {
            let _ = text.push_bytes(bytes);
            text.try_clone().err()
        }
        Err(error) => Some(error),
    }
}

/// The errors of a string of `len` bytes, and of their escapes.
fn texts(alloc: Global, capacity: usize, len: usize) -> [Want; 2] {
    match vec![in alloc; 127; len] {
        Ok(bytes) => [
            text(alloc, capacity, bytes.as_slice()),
            as_escaped_string(alloc, bytes.as_slice()).err(),
        ],
        Err(error) => [Some(error); 2],
    }
}

/// The error of a vector that gets `len` items, or of its copy.
fn vector(alloc: Global, capacity: usize, len: usize) -> Want {
    match PolymorphicVec::<usize, Global>::new(alloc, capacity) {
        Ok(mut vec) => {
            let _ = vec.resize(len, 5);
            vec.try_clone().err()
        }
        Err(error) => Some(error),
    }
}

/// The error of a run of `count` steps, which needs memory for as many answers.
fn answers(alloc: Global, count: usize) -> Want {
    match vec![in alloc; ByteStep::Store(1, 5); count] {
        Ok(steps) => ByteMachine::new([0; 2]).run(alloc, steps.as_slice()).err(),
        Err(error) => Some(error),
    }
}

/// The error of raising the capacity of a table to `room`, which had half of it and was full.
fn table(alloc: Global, room: usize) -> Want {
    let mut table = Numbered::<u64>::new(alloc);
    if let Err(error) = table.reserve(room / 2) {
        return Some(error);
    }
    for _ in 0..room / 2 {
        if table.len() < table.room() && table.next_number() < u64::MAX {
            let _ = table.insert_next(7);
        }
    }
    table.reserve(room).err()
}

/// The errors of everything that is created with this capacity; strings and vectors get `len` items.
fn made(alloc: Global, capacity: usize, len: usize) -> [Want; 9] {
    let [string, escapes] = texts(alloc, capacity, len);
    [
        string,
        escapes,
        vector(alloc, capacity, len),
        PolymorphicVec::from_fn(alloc, capacity, &mut identity::<usize>).err(),
        Queue::<u64>::new(alloc, capacity).err(),
        SlotMap::<u64>::new(alloc, capacity).err(),
        FlatMap::<u8, u64>::new(alloc, capacity).err(),
        answers(alloc, capacity),
        table(alloc, capacity),
    ]
}

#[test]
fn ample_memory_is_enough_at_each_size(rt: HostRuntime) -> Result<(), AllocError> {
    for (capacity, len) in &SIZES {
        find_memory(&made(rt.alloc(), *capacity, *len))?;
    }
    Ok(())
}

/// The error of a vector of fixed size that gets `len` items, or of its copy.
fn fixed_vector<const SIZE: usize>(alloc: Global, len: usize) -> Want {
    match StaticVec::<usize, SIZE>::new(alloc) {
        Ok(mut vec) => {
            let _ = vec.resize(len, 5);
            vec.try_clone().err()
        }
        Err(error) => Some(error),
    }
}

/// The errors of everything that is created with a fixed size; vectors get at most 1,000 items.
fn fixed<const SIZE: usize>(alloc: Global) -> [Want; 5] {
    [
        fixed_vector::<SIZE>(alloc, (SIZE / 2).min(1_000)),
        fixed_vector::<SIZE>(alloc, SIZE.min(1_000)),
        FixedSizeQueue::<u64, SIZE>::new(alloc).err(),
        FixedSizeSlotMap::<u64, SIZE>::new(alloc).err(),
        FixedSizeFlatMap::<u8, u64, SIZE>::new(alloc).err(),
    ]
}

#[test]
fn ample_memory_is_enough_at_each_fixed_size(rt: HostRuntime) -> Result<(), AllocError> {
    let alloc: Global = rt.alloc();
    let wants = [
        fixed::<0>(alloc),
        fixed::<1>(alloc),
        fixed::<2>(alloc),
        fixed::<5>(alloc),
        fixed::<7>(alloc),
        fixed::<64>(alloc),
        fixed::<1_000>(alloc),
        fixed::<MANY>(alloc),
    ];
    find_memory(wants.as_flattened())
}

/// The errors of what no memory can hold.
fn too_much(alloc: Global) -> [Want; 3] {
    [
        text(alloc, usize::MAX, &[]),
        SlotMap::<u64>::new(alloc, usize::MAX - 1).err(),
        table(alloc, usize::MAX / 2 + 2),
    ]
}

#[test]
fn takes_no_more_room_than_there_is(rt: HostRuntime) {
    are_refused(&rt, &made(rt.alloc(), usize::MAX, usize::MAX));
    are_refused(&rt, &fixed::<{ usize::MAX }>(rt.alloc()));
    are_refused(&rt, &too_much(rt.alloc()));
}
