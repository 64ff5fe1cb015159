//! Ample memory is always enough, at each size; and a capacity that no memory can hold is refused. Queues and sets that threads share
//! are created at each size in `shared` and `indices`.
use crate::answers::{Want, are_refused, find_memory};
use crate::queues::indices;
use iox_index::{
    Container, FixedSizeContainer, FixedSizeUniqueIndexSet, OwnerId, ReleaseMode,
    RobustUniqueIndexSet, StaticRobustUniqueIndexSet,
};
use iox_index_steps::atomic::{self, AtomicMachine};
use iox_index_steps::{Call as IndexSetCall, IndexSetMachine, Move as IndexSetMove};
use iox_queues::sets::{self, SetMachine};
use iox_queues::{
    BitSet, Call, CountingBitSet, FixedSizeBitSet, FixedSizeCountingBitSet, IndexQueue, Move,
    Party, RingMachine,
};
use std::alloc::{AllocError, Global};

/// More places than any test fills: the maximum number of indices of a set that threads share.
const MANY: usize = (1 << 24) - 1;

/// An error, unless the call was done, which fails only if memory runs out.
fn want_unless(done: bool) -> Want {
    if done { None } else { Some(AllocError) }
}

/// Adds `len` members, as long as the members may change.
fn add_members(container: &mut Container<u64>, len: usize) {
    let Ok(owner) = OwnerId::new(1) else {
        return;
    };
    for _ in 0..len {
        if container.has_room() {
            let _ = container.add(7, owner);
        }
    }
}

/// The error of a container with `len` members, or of its copy.
fn container(alloc: Global, capacity: usize, len: usize) -> Want {
    match Container::<u64>::new(alloc, 1, capacity) {
        Ok(mut container) => {
            add_members(&mut container, len);
            container.get_state(alloc).err()
        }
        Err(error) => Some(error),
    }
}

const POP: [Move; 6] = [
    Move::Begin(Call::Pop),
    Move::GoOn(Party::Consumer),
    Move::GoOn(Party::Consumer),
    Move::GoOn(Party::Consumer),
    Move::GoOn(Party::Consumer),
    Move::GoOn(Party::Consumer),
];

/// The error of a ring, or of `size` pops on it.
fn ring(made: Result<RingMachine, AllocError>, size: usize) -> Want {
    let mut machine = match made {
        Ok(machine) => machine,
        Err(error) => return Some(error),
    };
    for _ in 0..size {
        if machine.moments() < 1 << 40 {
            let _ = machine.run(&POP);
        }
    }
    want_unless(machine.pops().len() == size)
}

/// The errors of rings in which as many numbers wait as their capacity permits.
fn rings(alloc: Global, waiting: &[u64]) -> [Want; 2] {
    let limit = waiting.len() as u64;
    if limit == 0 {
        return [ring(RingMachine::refusing(alloc, 0, waiting), 0), None];
    }
    [
        ring(RingMachine::refusing(alloc, limit, waiting), waiting.len()),
        ring(
            RingMachine::overflowing(alloc, limit, waiting),
            waiting.len(),
        ),
    ]
}

/// The errors of rings in which `size` numbers wait.
fn rings_of(alloc: Global, size: usize) -> [Want; 2] {
    match vec![in alloc; 7u64; size] {
        Ok(waiting) => rings(alloc, waiting.as_slice()),
        Err(error) => [Some(error); 2],
    }
}

/// The error of the calls of `size` parties in a set of as many bits; each party sets its own bit.
fn bits(alloc: Global, size: usize) -> Want {
    let mut machine = match SetMachine::new(alloc, 1, size, size) {
        Ok(machine) => machine,
        Err(error) => return Some(error),
    };
    for party in 0..size {
        let go_on = sets::Move::GoOn(party);
        let set = sets::Move::Begin(party, sets::Call::Set(party as u64));
        let _ = machine.run(&[set, go_on, go_on, go_on]);
    }
    want_unless(machine.finished().len() == size)
}

/// The error of the calls of `size` parties in a set of as many indices; one party after the other acquires the first index and
/// releases it.
fn turns(alloc: Global, size: usize) -> Want {
    if size > MANY {
        return Some(AllocError);
    }
    let mut machine = match IndexSetMachine::new(alloc, size, size) {
        Ok(machine) => machine,
        Err(error) => return Some(error),
    };
    for party in 0..size {
        let take = IndexSetMove::Begin(party, IndexSetCall::Acquire);
        let give = IndexSetMove::Begin(party, IndexSetCall::Release(0, ReleaseMode::Default));
        let on = IndexSetMove::GoOn(party);
        let _ = machine.run(&[take, on, on, on, on, give, on, on, on, on]);
    }
    want_unless(machine.finished().len() / 2 == size)
}

/// A single value of `size` words.
fn value(alloc: Global, size: usize) -> Result<AtomicMachine, AllocError> {
    AtomicMachine::new(alloc, vec![in alloc; vec![in alloc; 7u64; size]?]?, 1)
}

/// The error of a store and a load of `size` words.
fn words(alloc: Global, size: usize) -> Want {
    let mut machine = match value(alloc, size) {
        Ok(machine) => machine,
        Err(error) => return Some(error),
    };
    for call in &[atomic::Call::Store(0), atomic::Call::Load] {
        let _ = machine.step(atomic::Move::Begin(0, *call));
        for _ in 0..size.saturating_add(3) {
            let _ = machine.step(atomic::Move::GoOn(0));
        }
    }
    want_unless(machine.finished().len() == 2)
}

/// The errors of what is created empty.
fn empty(alloc: Global, size: usize) -> [Want; 6] {
    [
        BitSet::new(alloc, size).err(),
        CountingBitSet::new(alloc, size).err(),
        IndexQueue::new(alloc, size).err(),
        RobustUniqueIndexSet::new(alloc, size).err(),
        container(alloc, size, 0),
        indices::shared(alloc, size, 0, &[]).err(),
    ]
}

/// The errors of what is filled, or of calls on it.
fn filled(alloc: Global, size: usize) -> [Want; 7] {
    let [refusing, overflowing] = rings_of(alloc, size);
    [
        container(alloc, size, size / 2),
        container(alloc, size, size),
        bits(alloc, size),
        turns(alloc, size),
        words(alloc, size),
        refusing,
        overflowing,
    ]
}

#[test]
fn ample_memory_is_enough_at_each_size(rt: HostRuntime) -> Result<(), AllocError> {
    let alloc: Global = rt.alloc();
    let wants = [
        empty(alloc, 0),
        empty(alloc, 1),
        empty(alloc, 2),
        empty(alloc, 7),
        empty(alloc, 64),
        empty(alloc, 1_000),
        empty(alloc, 100_000),
    ];
    find_memory(wants.as_flattened())?;
    let wants = [
        filled(alloc, 0),
        filled(alloc, 1),
        filled(alloc, 2),
        filled(alloc, 7),
        filled(alloc, 64),
        filled(alloc, 1_000),
    ];
    find_memory(wants.as_flattened())
}

/// The error of a set of this capacity that is shared while half of its indices are held, which must be held in the shared form, too.
fn half_held<const SIZE: usize>(
    alloc: Global,
    made: Result<FixedSizeUniqueIndexSet<SIZE>, AllocError>,
    capacity: usize,
) -> Want {
    let mut set = match made {
        Ok(set) => set,
        Err(error) => return Some(error),
    };
    for _ in 0..capacity / 2 {
        let _ = set.acquire_raw_index();
    }
    match set.share(alloc) {
        Ok(shared) => want_unless(shared.borrowed_indices() == capacity / 2),
        Err(_) => Some(AllocError),
    }
}

/// The errors of sets of fixed size that are shared, also with half the capacity.
fn fixed_index_sets<const SIZE: usize>(alloc: Global) -> [Want; 2] {
    let half = FixedSizeUniqueIndexSet::<SIZE>::new_with_reduced_capacity(alloc, SIZE / 2);
    [
        half_held(alloc, FixedSizeUniqueIndexSet::<SIZE>::new(alloc), SIZE),
        half_held(alloc, half, SIZE / 2),
    ]
}

/// The error of a container of fixed size that is half full, or of its copy.
fn fixed_container<const SIZE: usize>(alloc: Global) -> Want {
    let made = FixedSizeContainer::<u64, SIZE>::new(alloc, 1);
    let (mut container, owner) = match (made, OwnerId::new(1)) {
        (Ok(container), Ok(owner)) => (container, owner),
        _ => return Some(AllocError),
    };
    for _ in 0..SIZE / 2 {
        if container.has_room() {
            let _ = container.add(7, owner);
        }
    }
    container.get_state(alloc).err()
}

/// The errors of everything that is created with a fixed size.
fn fixed<const SIZE: usize>(alloc: Global) -> [Want; 7] {
    let [index_set, reduced_index_set] = fixed_index_sets::<SIZE>(alloc);
    [
        FixedSizeBitSet::<SIZE>::new(alloc).err(),
        FixedSizeCountingBitSet::<SIZE>::new(alloc).err(),
        StaticRobustUniqueIndexSet::<SIZE>::new(alloc).err(),
        StaticRobustUniqueIndexSet::<SIZE>::new_with_reduced_capacity(alloc, SIZE / 2).err(),
        index_set,
        reduced_index_set,
        fixed_container::<SIZE>(alloc),
    ]
}

#[test]
fn ample_memory_is_enough_at_each_fixed_size(rt: HostRuntime) -> Result<(), AllocError> {
    let alloc: Global = rt.alloc();
    let wants = [
        fixed::<0>(alloc),
        fixed::<1>(alloc),
        fixed::<2>(alloc),
        fixed::<7>(alloc),
        fixed::<64>(alloc),
        fixed::<1_000>(alloc),
    ];
    find_memory(wants.as_flattened())
}

/// The errors of what no memory can hold, and of a ring whose positions would go too far apart.
fn too_much(alloc: Global) -> [Want; 6] {
    [
        RobustUniqueIndexSet::new(alloc, usize::MAX).err(),
        container(alloc, usize::MAX, 0),
        IndexQueue::new(alloc, usize::MAX).err(),
        indices::shared(alloc, usize::MAX, 0, &[]).err(),
        indices::shared(alloc, MANY + 1, 0, &[]).err(),
        RingMachine::overflowing(alloc, 1 << 62, &[]).err(),
    ]
}

#[test]
fn takes_as_much_room_as_there_is_and_no_more(rt: HostRuntime) -> Result<(), AllocError> {
    are_refused(&rt, &too_much(rt.alloc()));
    let few = container(rt.alloc(), MANY, 3);
    find_memory(&[few, indices::shared(rt.alloc(), MANY, 0, &[]).err()])
}
