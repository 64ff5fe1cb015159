//! A pop or a look, one access at a time.
ghost use Rattle.std.specs.Prelude.{◌≡◌, [], ◌∷◌, if◌then◌else◌};
ghost use Rattle.std.specs.Option.{option_to_list};
ghost use Rattle.iox_queues_steps.specs.OverflowingRing.{taken_by_pop, pop_moves};
ghost use Rattle.iox_queues_steps.specs.Overflowing.{pop_is_idle, pop_is_over, pop_next, pop_take, pop_emptied, pop_swapped};

use crate::{Access, Act, End, PopAnswer, Word};

/// The stage of a pop, or of a look, which only returns whether a number waits. Each stage from `Begun` to `Popped`, or from `LookBegun` to
/// `Looked`, is one access after the one before.
#[derive(Clone, Copy)]
pub enum Pop {
    /// No pop or look is in progress.
    Idle,
    /// A pop loads the read position.
    Begun,
    /// The pop has the read position, and loads the write position.
    SawRead { read: u64 },
    /// The pop has found that a number waits, and loads the cell of the read position.
    Nonempty { read: u64, next: u64 },
    /// The pop has the number, and exchanges the read position to take it.
    SawCell { read: u64, next: u64, value: u64 },
    /// The pop has its result, and its last step is still to come.
    Popped { got: Option<u64> },
    /// A look loads the read position.
    LookBegun,
    /// The look has the read position, and loads the write position.
    LookRead { read: u64 },
    /// The look has its result, and its last step is still to come.
    Looked { waiting: bool },
}

impl Pop {
    /// A pop.
    pub fn begin() -> Pop
        ensures { result ≡ Pop.Begun }
    {
        Pop::Begun
    }

    /// A look, which takes nothing.
    pub fn look() -> Pop
        ensures { result ≡ Pop.LookBegun }
    {
        Pop::LookBegun
    }

    /// Whether no pop or look is in progress.
    pub fn is_idle(&self) -> bool
        ensures { result ≡ pop_is_idle self.now }
    {
        matches!(*self, Pop::Idle)
    }

    /// The take or look that takes effect at the next step while the positions are `write` and `read`, if one does.
    pub fn taken(&self, write: u64, read: u64) -> Option<Act>
        ensures { option_to_list result ≡ taken_by_pop write read self.now }
    {
        match *self {
            Pop::SawRead { read: seen } => take_if(write == seen, None),
            Pop::SawCell {
                read: seen,
                value,
                ..
            } => take_if(read == seen, Some(value)),
            Pop::LookRead { read: seen } => Some(Act::Take {
                answer: PopAnswer::Saw(write != seen),
            }),
            _ => None,
        }
    }

    /// Whether the next step moves the read position, which is `position`.
    pub fn moves(&self, position: u64) -> bool
        ensures { result ≡ pop_moves position self.now }
    {
        match *self {
            Pop::SawCell { read, .. } => position == read,
            _ => false,
        }
    }
}

impl End for Pop {
    ghost asks = { pop_next };

    ghost takes = { pop_take };

    ghost over = { pop_is_over };

    fn next(&self) -> Access {
        match *self {
            Pop::Idle | Pop::Popped { .. } | Pop::Looked { .. } => Access::Local,
            Pop::Begun | Pop::LookBegun => Access::Load(Word::Read),
            Pop::SawRead { .. } | Pop::LookRead { .. } => Access::Load(Word::Write),
            Pop::Nonempty { read, .. } => Access::Load(Word::Cell(read)),
            Pop::SawCell { read, next, .. } => Access::Exchange(Word::Read, read, next),
        }
    }

    fn take(self, answer: u64) -> Pop {
        match self {
            Pop::Idle | Pop::Popped { .. } | Pop::Looked { .. } => Pop::Idle,
            Pop::Begun => Pop::SawRead { read: answer },
            Pop::LookBegun => Pop::LookRead { read: answer },
            Pop::SawRead { read } => emptied(answer == read, read),
            Pop::LookRead { read } => Pop::Looked {
                waiting: answer != read,
            },
            Pop::Nonempty { read, next } => Pop::SawCell {
                read,
                next,
                value: answer,
            },
            Pop::SawCell { read, value, .. } => swapped(answer == read, answer, value),
        }
    }

    fn is_over(&self) -> bool {
        matches!(*self, Pop::Popped { .. } | Pop::Looked { .. })
    }
}

// A take with this result, if it takes effect.
fn take_if(stands: bool, got: Option<u64>) -> Option<Act>
    ensures { option_to_list result ≡ (if stands then Act.Take (PopAnswer.Got got) ∷ [] else []) }
{
    if !stands {
        return None;
    }
    Some(Act::Take {
        answer: PopAnswer::Got(got),
    })
}

// The stage after the load of the write position: done if no number waits.
fn emptied(empty: bool, read: u64) -> Pop
    ensures { result ≡ pop_emptied empty read }
{
    if empty {
        Pop::Popped { got: None }
    } else {
        Pop::Nonempty {
            read,
            next: read.saturating_add(1),
        }
    }
}

// The stage after the exchange of the read position: done with the value, or a new try from the position found.
fn swapped(won: bool, found: u64, value: u64) -> Pop
    ensures { result ≡ pop_swapped won found value }
{
    if won {
        Pop::Popped { got: Some(value) }
    } else {
        Pop::Nonempty {
            read: found,
            next: found.saturating_add(1),
        }
    }
}
