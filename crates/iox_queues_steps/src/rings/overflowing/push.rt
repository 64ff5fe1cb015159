//! A push, one access at a time.
ghost use Rattle.std.specs.Prelude.{◌≡◌, [], ◌∷◌, if◌then◌else◌};
ghost use Rattle.std.specs.Option.{option_to_list};
ghost use Rattle.iox_queues_steps.specs.OverflowingRing.{placed_by_push, late_put};
ghost use Rattle.iox_queues_steps.specs.Overflowing.{push_is_idle, push_is_over, push_next, push_take, push_filled, push_swapped};

use crate::{Access, Act, End, PushAnswer, Word};

/// The stage of a push. Each stage from `Begun` to `Pushed` is one access after the one before.
#[derive(Clone, Copy)]
pub enum Push {
    /// No push is in progress.
    Idle,
    /// The push loads the write position.
    Begun {
        limit: u64,
        value: u64,
    },
    /// The push has the write position, and loads the read position.
    SawWrite {
        limit: u64,
        value: u64,
        write: u64,
        next: u64,
    },
    /// The push has both positions, and stores the value in the cell of the write position.
    SawRead {
        limit: u64,
        value: u64,
        write: u64,
        next: u64,
        read: u64,
    },
    /// The push has stored the value, and stores the next write position.
    Filled {
        limit: u64,
        value: u64,
        write: u64,
        next: u64,
        read: u64,
    },
    /// More than `limit` numbers may wait, so the push loads the oldest one.
    Full {
        value: u64,
        read: u64,
        next: u64,
    },
    /// The push has the oldest number, and exchanges the read position to remove it.
    SawOldest {
        value: u64,
        read: u64,
        next: u64,
        oldest: u64,
    },
    /// The push has its result, and its last step is still to come.
    Pushed {
        value: u64,
        answer: PushAnswer,
    },
}

impl Push {
    /// A push of the value into a ring in which at most `limit` numbers wait.
    pub fn begin(limit: u64, value: u64) -> Push
        ensures { result ≡ Push.Begun limit value }
    {
        Push::Begun { limit, value }
    }

    /// Whether no push is in progress.
    pub fn is_idle(&self) -> bool
        ensures { result ≡ push_is_idle self.now }
    {
        matches!(*self, Push::Idle)
    }

    /// The put that takes effect at the next step while the read position is `position`, if one does.
    pub fn placed(&self, limit: u64, position: u64) -> Option<Act>
        ensures { option_to_list result ≡ placed_by_push limit position self.now }
    {
        match *self {
            Push::Filled { value, next, .. } => put_kept(
                value,
                limit < next.saturating_sub(position),
            ),
            Push::SawOldest {
                value,
                read,
                oldest,
                ..
            } => put_swapped(value, oldest, position == read),
            _ => None,
        }
    }

    /// The put that takes effect at the next move of the read position, which is `position`, if one does.
    pub fn late(&self, position: u64) -> Option<Act>
        ensures { option_to_list result ≡ late_put position self.now }
    {
        match *self {
            Push::Full { value, read, .. } | Push::SawOldest { value, read, .. } => {
                put_kept(value, position != read)
            }
            _ => None,
        }
    }
}

impl End for Push {
    ghost asks = { push_next };

    ghost takes = { push_take };

    ghost over = { push_is_over };

    fn next(&self) -> Access {
        match *self {
            Push::Idle | Push::Pushed { .. } => Access::Local,
            Push::Begun { .. } => Access::Load(Word::Write),
            Push::SawWrite { .. } => Access::Load(Word::Read),
            Push::SawRead { value, write, .. } => Access::Store(Word::Cell(write), value),
            Push::Filled { next, .. } => Access::Store(Word::Write, next),
            Push::Full { read, .. } => Access::Load(Word::Cell(read)),
            Push::SawOldest { read, next, .. } => Access::Exchange(Word::Read, read, next),
        }
    }

    fn take(self, answer: u64) -> Push {
        match self {
            Push::Idle | Push::Pushed { .. } => Push::Idle,
            Push::Begun { limit, value } => Push::SawWrite {
                limit,
                value,
                write: answer,
                next: answer.saturating_add(1),
            },
            Push::SawWrite {
                limit,
                value,
                write,
                next,
            } => Push::SawRead {
                limit,
                value,
                write,
                next,
                read: answer,
            },
            Push::SawRead {
                limit,
                value,
                write,
                next,
                read,
            } => Push::Filled {
                limit,
                value,
                write,
                next,
                read,
            },
            Push::Filled {
                limit,
                value,
                next,
                read,
                ..
            } => filled(limit, value, next, read),
            Push::Full { value, read, next } => Push::SawOldest {
                value,
                read,
                next,
                oldest: answer,
            },
            Push::SawOldest {
                value,
                read,
                oldest,
                ..
            } => swapped(value, answer == read, oldest),
        }
    }

    fn is_over(&self) -> bool {
        matches!(*self, Push::Pushed { .. })
    }
}

// A put that removes no number, unless it is delayed.
fn put_kept(value: u64, waits: bool) -> Option<Act>
    ensures { option_to_list result ≡ (if waits then [] else Act.Put value PushAnswer.Kept ∷ []) }
{
    if waits {
        return None;
    }
    Some(Act::Put {
        value,
        answer: PushAnswer::Kept,
    })
}

// A put that removes the oldest number, if its exchange succeeds.
fn put_swapped(value: u64, oldest: u64, won: bool) -> Option<Act>
    ensures { option_to_list result ≡ (if won then Act.Put value (PushAnswer.LeftOut oldest) ∷ [] else []) }
{
    if !won {
        return None;
    }
    Some(Act::Put {
        value,
        answer: PushAnswer::LeftOut(oldest),
    })
}

// The stage after the store of the write position: done, unless more than `limit` numbers may wait now.
fn filled(limit: u64, value: u64, next: u64, read: u64) -> Push
    ensures { result ≡ push_filled limit value next read }
{
    if limit < next.saturating_sub(read) {
        Push::Full {
            value,
            read,
            next: read.saturating_add(1),
        }
    } else {
        Push::Pushed {
            value,
            answer: PushAnswer::Kept,
        }
    }
}

// The stage after the exchange of the read position: the oldest number was removed by this push, or by a pop before it.
fn swapped(value: u64, won: bool, oldest: u64) -> Push
    ensures { result ≡ push_swapped value won oldest }
{
    let answer = if won {
        PushAnswer::LeftOut(oldest)
    } else {
        PushAnswer::Kept
    };
    Push::Pushed { value, answer }
}
