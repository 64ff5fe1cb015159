//! A push, one access at a time.
ghost use Rattle.std.specs.Prelude.{◌≡◌, [], ◌∷◌, if◌then◌else◌, nat_lt, ◌-◌};
ghost use Rattle.std.specs.Option.{option_to_list};
ghost use Rattle.iox_queues_steps.specs.Refusing.{push_is_idle, push_is_over, push_next, push_take, push_measured, placed_by_push};

use crate::{Access, Act, End, PushAnswer, Word};

/// The stage of a push. Each stage from `Begun` to `Pushed` is one access after the one before.
#[derive(Clone, Copy)]
pub enum Push {
    /// No push is in progress.
    Idle,
    /// The push loads the write position.
    Begun {
        limit: u64,
        value: u64,
    },
    /// The push has the write position, and loads the read position.
    SawWrite {
        limit: u64,
        value: u64,
        write: u64,
        next: u64,
    },
    /// The push has found that the ring isn't full, and stores the value in the cell of the write position.
    SawRoom {
        value: u64,
        write: u64,
        next: u64,
    },
    /// The push has stored the value, and stores the next write position.
    Filled {
        value: u64,
        next: u64,
    },
    /// The push has its result, and its last step is still to come.
    Pushed {
        value: u64,
        answer: PushAnswer,
    },
}

impl Push {
    /// A push of the value into a ring in which at most `limit` numbers wait.
    pub fn begin(limit: u64, value: u64) -> Push
        ensures { result ≡ Push.Begun limit value }
    {
        Push::Begun { limit, value }
    }

    /// Whether no push is in progress.
    pub fn is_idle(&self) -> bool
        ensures { result ≡ push_is_idle self.now }
    {
        matches!(*self, Push::Idle)
    }

    /// The put that takes effect at the next step while the read position is `position`, if one does.
    pub fn placed(&self, position: u64) -> Option<Act>
        ensures { option_to_list result ≡ placed_by_push position self.now }
    {
        match *self {
            Push::SawWrite {
                limit,
                value,
                write,
                ..
            } => refused_unless(value, write.saturating_sub(position) < limit),
            Push::Filled { value, .. } => Some(Act::Put {
                value,
                answer: PushAnswer::Kept,
            }),
            _ => None,
        }
    }
}

impl End for Push {
    ghost asks = { push_next };

    ghost takes = { push_take };

    ghost over = { push_is_over };

    fn next(&self) -> Access {
        match *self {
            Push::Idle | Push::Pushed { .. } => Access::Local,
            Push::Begun { .. } => Access::Load(Word::Write),
            Push::SawWrite { .. } => Access::Load(Word::Read),
            Push::SawRoom { value, write, .. } => Access::Store(Word::Cell(write), value),
            Push::Filled { next, .. } => Access::Store(Word::Write, next),
        }
    }

    fn take(self, answer: u64) -> Push {
        match self {
            Push::Idle | Push::Pushed { .. } => Push::Idle,
            Push::Begun { limit, value } => Push::SawWrite {
                limit,
                value,
                write: answer,
                next: answer.saturating_add(1),
            },
            Push::SawWrite {
                limit,
                value,
                write,
                next,
            } => measured(limit, value, write, next, answer),
            Push::SawRoom { value, next, .. } => Push::Filled { value, next },
            Push::Filled { value, .. } => Push::Pushed {
                value,
                answer: PushAnswer::Kept,
            },
        }
    }

    fn is_over(&self) -> bool {
        matches!(*self, Push::Pushed { .. })
    }
}

// A refused put, unless the ring has capacity for it.
fn refused_unless(value: u64, room: bool) -> Option<Act>
    ensures { option_to_list result ≡ (if room then [] else Act.Put value PushAnswer.Refused ∷ []) }
{
    if room {
        return None;
    }
    Some(Act::Put {
        value,
        answer: PushAnswer::Refused,
    })
}

// The stage after the load of the read position: the push goes on if the ring isn't full, else it is refused.
fn measured(limit: u64, value: u64, write: u64, next: u64, read: u64) -> Push
    ensures { result ≡ push_measured limit value write next read }
{
    if write.saturating_sub(read) < limit {
        Push::SawRoom { value, write, next }
    } else {
        Push::Pushed {
            value,
            answer: PushAnswer::Refused,
        }
    }
}
