//! A call on a set that knows the owner of each held index, one access at a time.
ghost use Rattle.std.specs.Prelude.{◌≡◌};
ghost use Rattle.iox_robust_steps.specs.Steps.{call_begun, call_is_idle, call_is_over, call_next, call_take, claims_from, reserved};
ghost use Rattle.iox_robust_steps.specs.Steps.{decided, is_freed, is_marked_by, is_seen_of, looks_from, scans_from, settles};

use iox_container::{ReleaseMode, ReleaseState, UniqueIndexSetAcquireFailure};
use iox_queues_steps::{Access, Word};

/// The count that marks a locked set.
const LOCK_MARK: u64 = u64::MAX;

/// The number that is added to an owner in a cell while the owner is about to take the index.
const RESERVED: u64 = 1 << 63;

/// A call that a party may begin.
#[derive(Clone, Copy)]
pub enum Call {
    /// Takes a free index for this owner; it tries the lowest index first.
    Acquire(u64),
    /// Releases this owner's index, which the party took.
    Release(u64, u64, ReleaseMode),
    /// Frees the indices of this owner that the list of decisions with this number selects.
    Recover(u64, usize, ReleaseMode),
}

/// The result of a call.
#[derive(Clone, Copy, PartialEq, Eq)]
pub enum Answer {
    /// An acquire took this index, or was refused.
    Acquired(Result<u64, UniqueIndexSetAcquireFailure>),
    /// A release or a recovery is done, and the set is now locked or not.
    Settled(ReleaseState),
}

/// The stage of a call. Each stage from its begin to `Done` is one access after the one before.
#[derive(Clone, Copy)]
pub enum RobustCall {
    /// No call is in progress.
    Idle,
    /// An acquire reads the count.
    Acquire {
        owner: u64,
    },
    /// The acquire has read this count, and reserves the cell if it is empty.
    Claim {
        owner: u64,
        place: u64,
        count: u64,
    },
    /// The acquire has reserved the cell, and raises the count.
    Count {
        owner: u64,
        place: u64,
        count: u64,
    },
    /// The acquire has raised the count, and takes the index.
    Confirm {
        owner: u64,
        place: u64,
    },
    /// The set was locked in the meantime, so the acquire empties the cell.
    Undo {
        owner: u64,
        place: u64,
    },
    /// A release empties the cell of its index.
    Free {
        owner: u64,
        index: u64,
        mode: ReleaseMode,
    },
    /// A recovery reads a cell.
    Look {
        owner: u64,
        number: usize,
        mode: ReleaseMode,
        place: u64,
    },
    /// The recovery has read this owner in the cell, and empties the cell if it hasn't changed.
    Clear {
        owner: u64,
        number: usize,
        mode: ReleaseMode,
        place: u64,
        seen: u64,
    },
    /// A call that may lock the set reads the count.
    Settle {
        call: Call,
    },
    /// The call has read this count, and checks whether the cells are empty.
    Scan {
        call: Call,
        place: u64,
        count: u64,
    },
    /// The call has found each cell empty, and locks the set if the count hasn't changed.
    Lock {
        call: Call,
        count: u64,
    },
    /// The call has its result, and its last step is still to come.
    Done {
        call: Call,
        answer: Answer,
    },
}

impl RobustCall {
    /// The first stage of the call, in a set with this capacity.
    pub fn begin(call: Call, capacity: u64) -> RobustCall
        ensures { result ≡ call_begun capacity call }
    {
        match call {
            Call::Acquire(owner) => RobustCall::Acquire { owner },
            Call::Release(owner, index, mode) => RobustCall::Free { owner, index, mode },
            Call::Recover(owner, number, mode) => looks_from(capacity, owner, number, mode, 0),
        }
    }

    /// The next access of the call.
    pub fn next(&self) -> Access
        ensures { result ≡ call_next self.now }
    {
        match *self {
            RobustCall::Idle | RobustCall::Done { .. } => Access::Local,
            RobustCall::Acquire { .. } | RobustCall::Settle { .. } => Access::Load(Word::Read),
            RobustCall::Claim { owner, place, .. } => {
                Access::Exchange(Word::Cell(place), 0, reserved(owner))
            }
            RobustCall::Count { count, .. } => {
                Access::Exchange(Word::Read, count, count.saturating_add(1))
            }
            RobustCall::Confirm { owner, place } => Access::Store(Word::Cell(place), owner),
            RobustCall::Undo { place, .. } => Access::Store(Word::Cell(place), 0),
            RobustCall::Free { owner, index, .. } => Access::Exchange(Word::Cell(index), owner, 0),
            RobustCall::Look { place, .. } | RobustCall::Scan { place, .. } => {
                Access::Load(Word::Cell(place))
            }
            RobustCall::Clear { place, seen, .. } => Access::Exchange(Word::Cell(place), seen, 0),
            RobustCall::Lock { count, .. } => Access::Exchange(Word::Read, count, LOCK_MARK),
        }
    }

    /// The stage after the result of that access, in a set with this capacity. If the step insists, a recovery frees each index of its
    /// owner that it sees, whatever the decisions are.
    pub fn take(
        self,
        capacity: u64,
        decisions: &[Vec<bool>],
        insists: bool,
        answer: u64,
    ) -> RobustCall
        ensures { result ≡ call_take capacity decisions.now insists self answer }
    {
        match self {
            RobustCall::Idle | RobustCall::Done { .. } => RobustCall::Idle,
            RobustCall::Acquire { owner } => {
                if answer == LOCK_MARK {
                    acquired(owner, Err(UniqueIndexSetAcquireFailure::IsLocked))
                } else {
                    claims_from(capacity, owner, 0, answer)
                }
            }
            RobustCall::Claim {
                owner,
                place,
                count,
            } => {
                if answer == 0 {
                    RobustCall::Count {
                        owner,
                        place,
                        count,
                    }
                } else {
                    claims_from(capacity, owner, place.saturating_add(1), count)
                }
            }
            RobustCall::Count {
                owner,
                place,
                count,
            } => {
                if answer == count {
                    RobustCall::Confirm { owner, place }
                } else if answer == LOCK_MARK {
                    RobustCall::Undo { owner, place }
                } else {
                    RobustCall::Count {
                        owner,
                        place,
                        count: answer,
                    }
                }
            }
            RobustCall::Confirm { owner, place } => acquired(owner, Ok(place)),
            RobustCall::Undo { owner, .. } => {
                acquired(owner, Err(UniqueIndexSetAcquireFailure::IsLocked))
            }
            RobustCall::Free { owner, index, mode } => {
                settles(mode, Call::Release(owner, index, mode))
            }
            RobustCall::Look {
                owner,
                number,
                mode,
                place,
            } => {
                if is_freed(decisions, insists, owner, number, place, answer) {
                    RobustCall::Clear {
                        owner,
                        number,
                        mode,
                        place,
                        seen: answer,
                    }
                } else {
                    looks_from(capacity, owner, number, mode, place.saturating_add(1))
                }
            }
            RobustCall::Clear {
                owner,
                number,
                mode,
                place,
                ..
            } => looks_from(capacity, owner, number, mode, place.saturating_add(1)),
            RobustCall::Settle { call } => {
                if answer == LOCK_MARK {
                    settled(call, ReleaseState::Locked)
                } else {
                    scans_from(capacity, call, 0, answer)
                }
            }
            RobustCall::Scan { call, place, count } => {
                if answer == 0 {
                    scans_from(capacity, call, place.saturating_add(1), count)
                } else {
                    settled(call, ReleaseState::Unlocked)
                }
            }
            RobustCall::Lock { call, count } => {
                if is_marked_by(count, answer) {
                    settled(call, ReleaseState::Locked)
                } else {
                    settled(call, ReleaseState::Unlocked)
                }
            }
        }
    }

    /// Whether no call is in progress.
    pub fn is_idle(&self) -> bool
        ensures { result ≡ call_is_idle self.now }
    {
        matches!(*self, RobustCall::Idle)
    }

    /// Whether the next step is the last one of its call.
    pub fn is_over(&self) -> bool
        ensures { result ≡ call_is_over self.now }
    {
        matches!(*self, RobustCall::Done { .. })
    }
}

// The content of a cell while this owner is about to take its index.
pub(crate) fn reserved(owner: u64) -> u64
    ensures { result ≡ reserved owner }
{
    owner.saturating_add(RESERVED)
}

fn acquired(owner: u64, got: Result<u64, UniqueIndexSetAcquireFailure>) -> RobustCall
    ensures { result ≡ RobustCall.Done (Call.Acquire owner) (Answer.Acquired got) }
{
    RobustCall::Done {
        call: Call::Acquire(owner),
        answer: Answer::Acquired(got),
    }
}

fn settled(call: Call, state: ReleaseState) -> RobustCall
    ensures { result ≡ RobustCall.Done call (Answer.Settled state) }
{
    RobustCall::Done {
        call,
        answer: Answer::Settled(state),
    }
}

// The stage at the next cell, if one is left.
fn claims_from(capacity: u64, owner: u64, place: u64, count: u64) -> RobustCall
    ensures { result ≡ claims_from capacity owner place count }
{
    if place < capacity {
        RobustCall::Claim {
            owner,
            place,
            count,
        }
    } else {
        acquired(owner, Err(UniqueIndexSetAcquireFailure::OutOfIndices))
    }
}

// The stage after the indices are freed: a call locks the set only in one mode.
fn settles(mode: ReleaseMode, call: Call) -> RobustCall
    ensures { result ≡ settles mode call }
{
    match mode {
        ReleaseMode::LockIfLastIndex => RobustCall::Settle { call },
        ReleaseMode::Default => settled(call, ReleaseState::Unlocked),
    }
}

fn looks_from(capacity: u64, owner: u64, number: usize, mode: ReleaseMode, place: u64) -> RobustCall
    ensures { result ≡ looks_from capacity owner number mode place }
{
    if place < capacity {
        RobustCall::Look {
            owner,
            number,
            mode,
            place,
        }
    } else {
        settles(mode, Call::Recover(owner, number, mode))
    }
}

fn scans_from(capacity: u64, call: Call, place: u64, count: u64) -> RobustCall
    ensures { result ≡ scans_from capacity call place count }
{
    if place < capacity {
        RobustCall::Scan { call, place, count }
    } else {
        RobustCall::Lock { call, count }
    }
}

// Whether the exchange to the mark succeeded, or another call had locked the set.
fn is_marked_by(count: u64, answer: u64) -> bool
    ensures { result ≡ is_marked_by count answer }
{
    answer == count || answer == LOCK_MARK
}

// Whether the cell names the owner, or shows that the owner is about to take the index.
fn is_seen_of(owner: u64, seen: u64) -> bool
    ensures { result ≡ is_seen_of owner seen }
{
    seen == owner || seen == reserved(owner)
}

// Whether the cell is the owner's, and the decisions select it or the step insists.
fn is_freed(
    decisions: &[Vec<bool>],
    insists: bool,
    owner: u64,
    number: usize,
    place: u64,
    seen: u64,
) -> bool
    ensures { result ≡ is_freed decisions.now insists owner number place seen }
{
    is_seen_of(owner, seen) && (insists || decided(decisions, number, place))
}

// The decision on a place; false if the table has none.
fn decided(decisions: &[Vec<bool>], number: usize, place: u64) -> bool
    ensures { result ≡ decided decisions.now number place }
{
    match decisions.get(number) {
        Some(answers) => match answers.get(place as usize) {
            Some(answer) => *answer,
            None => false,
        },
        None => false,
    }
}
