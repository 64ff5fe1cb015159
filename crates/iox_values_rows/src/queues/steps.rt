//! Calls one access at a time: two schedules of a push and a pop whose results are known; and that calls end if they are made one
//! after the other.
use crate::answers::hold;
use iox_index::ReleaseMode;
use iox_queues::{Call, Move, Party, PushAnswer, RingMachine};
use iox_robust_steps::container::{ContainerMachine, MemberCall, MemberMove};
use iox_robust_steps::{self as robust, RobustSetMachine};
use std::alloc::{AllocError, Global};

const PUSH: Move = Move::Begin(Call::Push(9));

const PUSH_ON: Move = Move::GoOn(Party::Producer);

const POP: Move = Move::Begin(Call::Pop);

const POP_ON: Move = Move::GoOn(Party::Consumer);

/// On an overflowing ring of capacity 1, in which the number 1 waits, the pop takes the number before the push loads it.
const TAKEN_BEFORE: [Move; 16] = [
    PUSH, PUSH_ON, PUSH_ON, PUSH_ON, PUSH_ON, POP, POP_ON, POP_ON, POP_ON, POP_ON, POP_ON, PUSH_ON,
    PUSH_ON, PUSH_ON, POP_ON, POP_ON,
];

/// The push removes the number before the exchange of the pop.
const TAKEN_BY_PUSH: [Move; 16] = [
    POP, POP_ON, POP_ON, POP_ON, PUSH, PUSH_ON, PUSH_ON, PUSH_ON, PUSH_ON, PUSH_ON, PUSH_ON,
    PUSH_ON, POP_ON, POP_ON, POP_ON, POP_ON,
];

/// Whether the push has this result.
fn is_answered(
    alloc: Global,
    schedule: &[Move; 16],
    answer: PushAnswer,
) -> Result<bool, AllocError> {
    let mut machine = RingMachine::overflowing(alloc, 1, &[1])?;
    let _ = machine.run(schedule);
    Ok(match machine.pushes().first() {
        Some(push) => push.answer == answer,
        None => false,
    })
}

const UNMARKED: ReleaseMode = ReleaseMode::Default;

const LOCKING: ReleaseMode = ReleaseMode::LockIfLastIndex;

/// Calls on a set of two indices, each with its party. A call that isn't possible does nothing.
const SET_CALLS: [(usize, robust::Call); 12] = [
    (0, robust::Call::Acquire(313)),
    (1, robust::Call::Acquire(7)),
    (0, robust::Call::Acquire(313)),
    // Another index is held, so the set isn't locked.
    (0, robust::Call::Release(313, 0, LOCKING)),
    // The lowest free index is handed out.
    (0, robust::Call::Acquire(313)),
    // Nobody acts for an owner whose recovery began.
    (0, robust::Call::Recover(7, 0, LOCKING)),
    (1, robust::Call::Acquire(7)),
    (1, robust::Call::Acquire(9)),
    (1, robust::Call::Release(9, 1, UNMARKED)),
    // The last index is released, so the set is locked.
    (0, robust::Call::Release(313, 0, LOCKING)),
    (1, robust::Call::Acquire(9)),
    (1, robust::Call::Recover(5, 0, LOCKING)),
];

// Whether all calls on this set end, except the one that isn't possible. No call has more than 16 steps after its begin.
fn calls_end(set: &mut RobustSetMachine) -> bool {
    for row in &SET_CALLS {
        let _ = set.step(robust::Move::Begin(row.0, row.1));
        let _ = set.run(&[robust::Move::GoOn(row.0); 16]);
    }
    set.finished().len() == SET_CALLS.len() - 1
}

// Each recovery selects both places.
fn decisions(alloc: Global) -> Result<Vec<Vec<bool>>, AllocError> {
    Ok(vec![in alloc; vec![in alloc; true; 2]?]?)
}

// Whether this is so for a new set that knows the owner of each held index.
fn set_calls_end(alloc: Global) -> Result<bool, AllocError> {
    Ok(calls_end(&mut RobustSetMachine::new(alloc, 2, 2, decisions(alloc)?)?))
}

const UPDATE: MemberCall = MemberCall::Update;

/// Calls on a container of two places, each with its party.
const MEMBER_CALLS: [(usize, MemberCall); 14] = [
    (1, UPDATE),
    (0, MemberCall::Add(0, 7)),
    (1, UPDATE),
    (1, UPDATE),
    (0, MemberCall::Add(1, 7)),
    (0, MemberCall::Add(1, 7)),
    (0, MemberCall::Remove(7, 0, LOCKING)),
    (1, UPDATE),
    (2, MemberCall::Add(1, 9)),
    (1, MemberCall::Recover(7, 0, LOCKING)),
    (1, UPDATE),
    (2, MemberCall::Remove(9, 0, LOCKING)),
    (0, MemberCall::Add(0, 9)),
    (1, UPDATE),
];

// Whether all calls on this container end. No call has more than 60 steps after its begin.
fn changes_end(container: &mut ContainerMachine) -> bool {
    for row in &MEMBER_CALLS {
        let _ = container.step(MemberMove::Begin(row.0, row.1));
        let _ = container.run(&[MemberMove::GoOn(row.0); 60]);
    }
    container.finished().len() == MEMBER_CALLS.len()
}

// Whether this is so for a container with three parties, to which two values of two words may be added.
fn member_calls_end(alloc: Global) -> Result<bool, AllocError> {
    let values = vec![in alloc; vec![in alloc; 1; 2]?, vec![in alloc; 2; 2]?]?;
    Ok(changes_end(&mut ContainerMachine::new(alloc, 2, 3, values, decisions(alloc)?)?))
}

#[test]
fn calls_by_steps_end_and_are_answered_as_is_known(rt: HostRuntime) {
    let alloc: Global = rt.alloc();
    let answers = [
        is_answered(alloc, &TAKEN_BEFORE, PushAnswer::Kept),
        is_answered(alloc, &TAKEN_BY_PUSH, PushAnswer::LeftOut(1)),
        set_calls_end(alloc),
        member_calls_end(alloc),
    ];
    hold(&rt, &answers);
}
