//! Every answer that each shared call can give to one thread, at each size; and who may hold an end.
use crate::answers::{all, hold};
use crate::queues::ends::{Numbers, ends, shared, spread};
use iox_queues::{
    Consumer, FixedSizeIndexQueue, FixedSizeSafelyOverflowingIndexQueue as FixedOverflowing,
    IndexQueue, Producer, Queue, SafelyOverflowingIndexQueue as Overflowing, Share, Shared,
    UnrestrictedAtomic,
};
use std::alloc::{AllocError, Global};

/// Whether rising numbers, from the first on up to three beyond the capacity, are put in, each with the right answer, and those that
/// stayed are then taken in their order, and no others.
fn goes_through<Q: Numbers>(
    producer: &mut Producer<'_, Q>,
    consumer: &mut Consumer<'_, Q>,
    first: u64,
    room: u64,
) -> bool {
    for value in first..room.saturating_add(3) {
        let left = if Q::OVERFLOWS {
            value.saturating_sub(room)
        } else {
            value
        };
        if Q::put(producer, spread(value)) != (value >= room).then_some(spread(left)) {
            return false;
        }
    }
    let oldest = if Q::OVERFLOWS { 3 } else { 0 };
    for value in oldest..room.saturating_add(oldest) {
        if Q::take_next(consumer) != Some(spread(value).min(Q::LARGEST)) {
            return false;
        }
    }
    Q::take_next(consumer) == None
}

/// Whether this is so three times, so that the positions wrap around. The numbers below `waiting` wait at the start.
fn goes_round<Q: Numbers>(shared: &Shared<Q>, waiting: u64, room: u64) -> bool {
    match ends(shared) {
        Some((mut producer, mut consumer)) => {
            goes_through(&mut producer, &mut consumer, waiting, room)
                && goes_through(&mut producer, &mut consumer, 0, room)
                && goes_through(&mut producer, &mut consumer, 0, room)
                && shared.capacity() == room
        }
        None => false,
    }
}

/// Whether this is so for a queue of this capacity, in which `waiting` numbers wait when it is shared.
fn goes<Q: Numbers>(
    alloc: Global,
    queue: Result<Q, AllocError>,
    waiting: usize,
    room: usize,
) -> Result<bool, AllocError> {
    let shared = shared(alloc, queue, waiting as u64)?;
    Ok(goes_round(&shared, waiting as u64, room as u64))
}

/// Whether this is so for queues of each kind, in which `waiting` numbers wait.
fn go<const ROOM: usize>(alloc: Global, waiting: usize) -> Result<bool, AllocError> {
    all(&[
        goes(alloc, IndexQueue::new(alloc, ROOM), waiting, ROOM),
        goes(alloc, Overflowing::new(alloc, ROOM), waiting, ROOM),
        goes(
            alloc,
            FixedSizeIndexQueue::<ROOM>::new(alloc),
            waiting,
            ROOM,
        ),
        goes(alloc, FixedOverflowing::<ROOM>::new(alloc), waiting, ROOM),
        goes(alloc, Queue::<u128, ROOM>::new(alloc), waiting, ROOM),
    ])
}

/// Whether a queue of values that are too wide can't be shared.
fn is_too_wide(alloc: Global) -> Result<bool, AllocError> {
    match Queue::<[u64; 17], 2>::new(alloc) {
        Ok(queue) => Ok(queue.share(alloc).is_err()),
        Err(error) => Err(error),
    }
}

/// Values of six words; the first is the one that the cell holds at the start.
const VALUES: [[u64; 6]; 5] = [
    [0, 0, 7, 0, 0, 1 << 33],
    [0; 6],
    [1, 2, 3, 4, 5, 6],
    [6, 5, 4, 3, 2, u64::MAX],
    [8, 0, 0, 1 << 32, 1 << 63, 0],
];

/// Whether a load returns the value that was stored last, and before any store the first one.
fn is_last_stored(shared: &Shared<UnrestrictedAtomic<[u64; 6]>>) -> bool {
    let Some(mut producer) = shared.acquire_producer() else {
        return false;
    };
    for (place, value) in VALUES.iter().enumerate() {
        if place > 0 {
            producer.store(*value);
        }
        if shared.load() != Some(*value) {
            return false;
        }
    }
    true
}

fn stores(alloc: Global) -> Result<bool, AllocError> {
    match UnrestrictedAtomic::new(VALUES[0]).share(alloc) {
        Ok(shared) => Ok(is_last_stored(&shared)),
        Err(_) => Err(AllocError),
    }
}

/// Whether the role of the consumer is free, then that of the producer, and that of the consumer again; each guard is dropped at
/// once.
fn come(shared: &Shared<IndexQueue>) -> [bool; 3] {
    let first = shared.acquire_consumer().is_some();
    let producer = shared.acquire_producer().is_some();
    let second = shared.acquire_consumer().is_some();
    [first, producer, second]
}

/// Whether the role was taken, and the roles that are free meanwhile are just these.
fn is_alone<R: Drop>(shared: &Shared<IndexQueue>, role: Option<R>, beside: [bool; 3]) -> bool {
    role.is_some() && come(shared) == beside
}

/// Whether each role can be taken by one guard at a time, and again once the guard is dropped.
fn roles_are_alone(shared: &Shared<IndexQueue>) -> bool {
    is_alone(shared, shared.acquire_producer(), [true, false, true])
        && is_alone(shared, shared.acquire_consumer(), [false, true, false])
        && come(shared) == [true; 3]
}

fn roles(alloc: Global) -> Result<bool, AllocError> {
    Ok(roles_are_alone(&shared(alloc, IndexQueue::new(alloc, 2), 0)?))
}

#[test]
fn each_shared_form_gives_each_answer(rt: HostRuntime) {
    let alloc: Global = rt.alloc();
    let answers = [
        go::<0>(alloc, 0),
        go::<1>(alloc, 0),
        go::<1>(alloc, 1),
        go::<2>(alloc, 0),
        go::<2>(alloc, 2),
        go::<7>(alloc, 0),
        go::<7>(alloc, 7),
        go::<64>(alloc, 0),
        go::<64>(alloc, 32),
        go::<64>(alloc, 64),
        go::<1_000>(alloc, 0),
        go::<1_000>(alloc, 7),
        go::<1_000>(alloc, 1_000),
        go::<4_096>(alloc, 0),
        go::<4_096>(alloc, 4_096),
        goes(alloc, Queue::<[u64; 3], 2>::new(alloc), 2, 2),
        goes(alloc, Queue::<[u64; 6], 7>::new(alloc), 0, 7),
        goes(alloc, Queue::<[u64; 16], 2>::new(alloc), 2, 2),
        goes(alloc, Queue::<(), 2>::new(alloc), 0, 2),
        is_too_wide(alloc),
        stores(alloc),
        roles(alloc),
    ];
    hold(&rt, &answers);
}
