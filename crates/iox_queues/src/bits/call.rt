//! A call on a bit set, one access at a time.
ghost use Rattle.std.specs.Prelude.{◌≡◌};
ghost use Rattle.iox_queues.specs.Steps.{call_next, call_take, call_is_idle, call_is_over, adding_at, going_on_at, sweeping_at, swept_by};
ghost use Rattle.iox_queues.specs.Steps.{found_at, call_begun};

use iox_queues_steps::{Access, Word};

/// A call that a party may begin.
#[derive(Clone, Copy)]
pub enum Call {
    /// Raises the count of this place by one, unless the count is the largest.
    Set(u64),
    /// Resets the next place whose count isn't 0.
    ResetNext,
    /// Resets all places, by rising number. It finishes at once if the set has no place. Each exchange that succeeds shows a place and its
    /// count.
    ResetAll,
}

/// The result of a call.
#[derive(Clone, Copy, PartialEq, Eq)]
pub enum Answer {
    /// A `Set` raised the count of its place by one (true), or found the count at its maximum (false).
    Added(bool),
    /// A reset of the next place reset exactly this place, or found none to reset.
    Taken(Option<u64>),
    /// A reset of all places is finished.
    Swept,
}

/// The stage of a call. Each stage from its begin to `Done` is one access after the one before.
#[derive(Clone, Copy)]
pub enum SetCall {
    /// No call is in progress.
    Idle,
    /// Raises the count of a place by one, up to `max`.
    Add {
        place: u64,
        max: u64,
    },
    /// The call has the count, and exchanges it for one more.
    Adding {
        place: u64,
        max: u64,
        count: u64,
    },
    /// Resets the next place whose count isn't 0, starting where the last search stopped.
    Next {
        capacity: u64,
    },
    /// Scans `left` places from `place` on, wrapping around, and resets one of them or all.
    Sweep {
        place: u64,
        left: u64,
        capacity: u64,
        all: bool,
    },
    /// The call has found this count at a place, and exchanges it for 0.
    Taking {
        place: u64,
        left: u64,
        capacity: u64,
        all: bool,
        count: u64,
    },
    /// Stores the place at which the next search starts.
    Found {
        place: u64,
        after: u64,
    },
    /// The call has its result, and its last step is still to come.
    Done {
        call: Call,
        answer: Answer,
    },
}

impl SetCall {
    /// The first stage of the call, in a set with this capacity whose counts go up to `max`.
    pub fn begin(call: Call, max: u64, capacity: u64) -> SetCall
        ensures { result ≡ call_begun max capacity call }
    {
        match call {
            Call::Set(place) => SetCall::Add { place, max },
            Call::ResetNext => SetCall::Next { capacity },
            Call::ResetAll => going_on(0, capacity, capacity, true),
        }
    }

    /// The next access of the call.
    pub fn next(&self) -> Access
        ensures { result ≡ call_next self.now }
    {
        match *self {
            SetCall::Idle | SetCall::Done { .. } => Access::Local,
            SetCall::Add { place, .. } => Access::Load(Word::Cell(place)),
            SetCall::Adding { place, count, .. } => {
                Access::Exchange(Word::Cell(place), count, count.saturating_add(1))
            }
            SetCall::Next { .. } => Access::Load(Word::Read),
            SetCall::Sweep { place, .. } => Access::Load(Word::Cell(place)),
            SetCall::Taking { place, count, .. } => Access::Exchange(Word::Cell(place), count, 0),
            SetCall::Found { after, .. } => Access::Store(Word::Read, after),
        }
    }

    /// The stage after the result of that access.
    pub fn take(self, answer: u64) -> SetCall
        ensures { result ≡ call_take self answer }
    {
        match self {
            SetCall::Idle | SetCall::Done { .. } => SetCall::Idle,
            SetCall::Add { place, max } => adding(place, max, answer),
            SetCall::Adding {
                place,
                max,
                count,
                ..
            } => {
                if answer == count {
                    SetCall::Done {
                        call: Call::Set(place),
                        answer: Answer::Added(true),
                    }
                } else {
                    adding(place, max, answer)
                }
            }
            SetCall::Next { capacity } => going_on(answer, capacity, capacity, false),
            SetCall::Sweep {
                place,
                left,
                capacity,
                all,
            } => sweeping(place, left, capacity, all, answer),
            SetCall::Taking {
                place,
                left,
                capacity,
                all,
                count,
            } => {
                if answer == count {
                    found(place, left, capacity, all)
                } else {
                    sweeping(place, left, capacity, all, answer)
                }
            }
            SetCall::Found { place, .. } => SetCall::Done {
                call: Call::ResetNext,
                answer: Answer::Taken(Some(place)),
            },
        }
    }

    /// Whether no call is in progress.
    pub fn is_idle(&self) -> bool
        ensures { result ≡ call_is_idle self.now }
    {
        matches!(*self, SetCall::Idle)
    }

    /// Whether the next step is the last one of its call.
    pub fn is_over(&self) -> bool
        ensures { result ≡ call_is_over self.now }
    {
        matches!(*self, SetCall::Done { .. })
    }
}

// The stage after a load: another exchange, unless the count is the largest.
fn adding(place: u64, max: u64, count: u64) -> SetCall
    ensures { result ≡ adding_at place max count }
{
    if count < max {
        SetCall::Adding { place, max, count }
    } else {
        SetCall::Done {
            call: Call::Set(place),
            answer: Answer::Added(false),
        }
    }
}

// The stage at the next place, if one is left.
fn going_on(place: u64, left: u64, capacity: u64, all: bool) -> SetCall
    ensures { result ≡ going_on_at place left capacity all }
{
    if left == 0 {
        swept(all)
    } else {
        SetCall::Sweep {
            place: if place < capacity { place } else { 0 },
            left,
            capacity,
            all,
        }
    }
}

// The stage after the last place.
fn swept(all: bool) -> SetCall
    ensures { result ≡ swept_by all }
{
    if all {
        SetCall::Done {
            call: Call::ResetAll,
            answer: Answer::Swept,
        }
    } else {
        SetCall::Done {
            call: Call::ResetNext,
            answer: Answer::Taken(None),
        }
    }
}

// The stage after a place was read: a place with count 0 is skipped, and any other place is to be reset.
fn sweeping(place: u64, left: u64, capacity: u64, all: bool, count: u64) -> SetCall
    ensures { result ≡ sweeping_at place left capacity all count }
{
    if count == 0 {
        going_on(
            place.saturating_add(1),
            left.saturating_sub(1),
            capacity,
            all,
        )
    } else {
        SetCall::Taking {
            place,
            left,
            capacity,
            all,
            count,
        }
    }
}

// The stage after a place was reset: the scan goes on if all places are to be reset, else the call is done.
fn found(place: u64, left: u64, capacity: u64, all: bool) -> SetCall
    ensures { result ≡ found_at place left capacity all }
{
    if all {
        going_on(
            place.saturating_add(1),
            left.saturating_sub(1),
            capacity,
            all,
        )
    } else {
        SetCall::Found {
            place,
            after: place.saturating_add(1),
        }
    }
}
