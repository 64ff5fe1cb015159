//! A call on a set of indices, one access at a time.
ghost use Rattle.std.specs.Prelude.{◌≡◌};
ghost use Rattle.iox_container.specs.Release.{state_of};
ghost use Rattle.iox_index_steps.specs.Steps.{call_begun, call_is_idle, call_is_over, call_next, call_take, next_free, head_given};
ghost use Rattle.iox_index_steps.specs.Steps.{head_taken, borrowed_count, is_locked_by, locks_last, seen_by_acquire};

use iox_container::{HeadDetails, ReleaseMode, ReleaseState, UniqueIndexSetAcquireFailure};
use iox_queues_steps::{Access, Word};

/// The count of held indices that marks a locked set.
const LOCK_MARK: u32 = (1 << 24) - 1;

/// A call that a party may begin.
#[derive(Clone, Copy)]
pub enum Call {
    /// Takes the next free index.
    Acquire,
    /// Releases this index, which the party holds.
    Release(u32, ReleaseMode),
}

/// The result of a call.
#[derive(Clone, Copy, PartialEq, Eq)]
pub enum Answer {
    /// An acquire took this index, or was refused.
    Acquired(Result<u32, UniqueIndexSetAcquireFailure>),
    /// A release freed its index, and the set is now locked or not.
    Released(ReleaseState),
}

/// The stage of a call. Each stage from its begin to `Done` is one access after the one before.
#[derive(Clone, Copy)]
pub enum IndexCall {
    /// No call is in progress.
    Idle,
    /// An acquire reads the head.
    Acquire {
        capacity: u64,
    },
    /// The acquire has read this head, and loads the cell of the next free index, which names the free index after it.
    Follow {
        capacity: u64,
        word: u64,
    },
    /// The acquire takes the next free index, by an exchange of the head that it read.
    Take {
        capacity: u64,
        word: u64,
        next: u64,
    },
    /// A release reads the head.
    Release {
        index: u32,
        mode: ReleaseMode,
    },
    /// The release has read this head, and stores its next free index in the cell of the released index.
    Link {
        index: u32,
        mode: ReleaseMode,
        word: u64,
    },
    /// The release frees the index, by an exchange of the head that it read.
    Give {
        index: u32,
        mode: ReleaseMode,
        word: u64,
    },
    /// The call has its result, and its last step is still to come.
    Done {
        call: Call,
        answer: Answer,
    },
}

impl IndexCall {
    /// The first stage of the call, in a set with this capacity.
    pub fn begin(call: Call, capacity: u64) -> IndexCall
        ensures { result ≡ call_begun capacity call }
    {
        match call {
            Call::Acquire => IndexCall::Acquire { capacity },
            Call::Release(index, mode) => IndexCall::Release { index, mode },
        }
    }

    /// The next access of the call.
    pub fn next(&self) -> Access
        ensures { result ≡ call_next self.now }
    {
        match *self {
            IndexCall::Idle | IndexCall::Done { .. } => Access::Local,
            IndexCall::Acquire { .. } | IndexCall::Release { .. } => Access::Load(Word::Read),
            IndexCall::Follow { word, .. } => Access::Load(Word::Cell(free_in(word))),
            IndexCall::Take { word, next, .. } => {
                Access::Exchange(Word::Read, word, taken(word, next))
            }
            IndexCall::Link { index, word, .. } => {
                Access::Store(Word::Cell(u64::from(index)), free_in(word))
            }
            IndexCall::Give { index, mode, word } => {
                Access::Exchange(Word::Read, word, given(index, mode, word))
            }
        }
    }

    /// The stage after the result of that access. A failed exchange returns the head from which the call goes on.
    pub fn take(self, answer: u64) -> IndexCall
        ensures { result ≡ call_take self answer }
    {
        match self {
            IndexCall::Idle | IndexCall::Done { .. } => IndexCall::Idle,
            IndexCall::Acquire { capacity } => seen(capacity, answer),
            IndexCall::Follow { capacity, word } => IndexCall::Take {
                capacity,
                word,
                next: answer,
            },
            IndexCall::Take { capacity, word, .. } => {
                if answer == word {
                    acquired(Ok(HeadDetails::from(word).head))
                } else {
                    seen(capacity, answer)
                }
            }
            IndexCall::Release { index, mode } => IndexCall::Link {
                index,
                mode,
                word: answer,
            },
            IndexCall::Link { index, mode, word } => IndexCall::Give { index, mode, word },
            IndexCall::Give { index, mode, word } => {
                if answer == word {
                    released(index, mode, word)
                } else {
                    IndexCall::Link {
                        index,
                        mode,
                        word: answer,
                    }
                }
            }
        }
    }

    /// Whether no call is in progress.
    pub fn is_idle(&self) -> bool
        ensures { result ≡ call_is_idle self.now }
    {
        matches!(*self, IndexCall::Idle)
    }

    /// Whether the next step is the last one of its call.
    pub fn is_over(&self) -> bool
        ensures { result ≡ call_is_over self.now }
    {
        matches!(*self, IndexCall::Done { .. })
    }
}

// The next free index according to this head.
fn free_in(word: u64) -> u64
    ensures { result ≡ next_free word }
{
    u64::from(HeadDetails::from(word).head)
}

// The head after its next free index is taken.
fn taken(word: u64, next: u64) -> u64
    ensures { result ≡ head_taken word next }
{
    HeadDetails::from(word)
        .after_acquire((next % (1 << 24)) as u32)
        .value()
}

// The head after the index is released.
fn given(index: u32, mode: ReleaseMode, word: u64) -> u64
    ensures { result ≡ head_given index mode word }
{
    let after = HeadDetails::from(word).after_release(index);
    if locks(mode, word) {
        HeadDetails {
            borrowed_indices: LOCK_MARK,
            ..after
        }
        .value()
    } else {
        after.value()
    }
}

// Whether the set with this head is locked.
pub(crate) fn is_locked_by(capacity: u64, word: u64) -> bool
    ensures { result ≡ is_locked_by capacity word }
{
    let head = HeadDetails::from(word);
    u64::from(head.head) < capacity && head.borrowed_indices == LOCK_MARK
}

// Whether a release in this mode locks the set of this head.
fn locks(mode: ReleaseMode, word: u64) -> bool
    ensures { result ≡ locks_last mode (borrowed_count word) }
{
    match mode {
        ReleaseMode::LockIfLastIndex => HeadDetails::from(word).borrowed_indices == 1,
        ReleaseMode::Default => false,
    }
}

// The stage of an acquire after it read this head.
fn seen(capacity: u64, word: u64) -> IndexCall
    ensures { result ≡ seen_by_acquire capacity word }
{
    let head = HeadDetails::from(word);
    if u64::from(head.head) >= capacity {
        acquired(Err(UniqueIndexSetAcquireFailure::OutOfIndices))
    } else if head.borrowed_indices == LOCK_MARK {
        acquired(Err(UniqueIndexSetAcquireFailure::IsLocked))
    } else {
        IndexCall::Follow { capacity, word }
    }
}

fn acquired(got: Result<u32, UniqueIndexSetAcquireFailure>) -> IndexCall
    ensures { result ≡ IndexCall.Done Call.Acquire (Answer.Acquired got) }
{
    IndexCall::Done {
        call: Call::Acquire,
        answer: Answer::Acquired(got),
    }
}

fn released(index: u32, mode: ReleaseMode, word: u64) -> IndexCall
    ensures { result ≡ IndexCall.Done (Call.Release index mode) (Answer.Released (state_of (locks_last mode (borrowed_count word)))) }
{
    let state = if locks(mode, word) {
        ReleaseState::Locked
    } else {
        ReleaseState::Unlocked
    };
    IndexCall::Done {
        call: Call::Release(index, mode),
        answer: Answer::Released(state),
    }
}
