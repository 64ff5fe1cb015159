//! A push, and a pop or a look, on a ring of either kind.
ghost use Rattle.std.specs.Prelude.{◌≡◌, if◌then◌else◌, [], map, length};
ghost use Rattle.std.specs.Option.{option_to_list};
ghost use Rattle.iox_queues_steps.specs.Ends.{late_put, placed_by_push, pop_begun, pop_ended, pop_idle, pop_is_idle, pop_is_over};
ghost use Rattle.iox_queues_steps.specs.Ends.{pop_look, pop_moves, pop_next, pop_take, push_begun, push_ended, push_idle, push_is_idle};
ghost use Rattle.iox_queues_steps.specs.Ends.{push_is_over, push_next, push_take, taken_by_pop};

use crate::rings::overflowing::{Pop as OverflowingPop, Push as OverflowingPush};
use crate::rings::refusing::{Pop as RefusingPop, Push as RefusingPush};
use crate::{Access, Act, End, PopAnswer, PushAnswer};

/// What a ring does with a push when it is full.
#[derive(Clone, Copy, Debug, PartialEq, Eq)]
pub enum RingKind {
    /// The ring removes its oldest number and returns it.
    Overflowing,
    /// The ring refuses the push.
    Refusing,
}

/// The stage of a push.
#[derive(Clone, Copy)]
pub enum Push {
    /// A push into an overflowing ring.
    Overflowing(OverflowingPush),
    /// A push into a refusing ring.
    Refusing(RefusingPush),
}

impl Push {
    /// The stage at which no push is in progress.
    pub fn idle(kind: RingKind) -> Push
        ensures { result ≡ push_idle kind }
    {
        match kind {
            RingKind::Overflowing => Push::Overflowing(OverflowingPush::Idle),
            RingKind::Refusing => Push::Refusing(RefusingPush::Idle),
        }
    }

    /// A push of the value into a ring in which at most `limit` numbers wait.
    pub fn begin(kind: RingKind, limit: u64, value: u64) -> Push
        ensures { result ≡ push_begun kind limit value }
    {
        match kind {
            RingKind::Overflowing => Push::Overflowing(OverflowingPush::begin(limit, value)),
            RingKind::Refusing => Push::Refusing(RefusingPush::begin(limit, value)),
        }
    }

    /// The next access of the push.
    pub fn next(&self) -> Access
        ensures { result ≡ push_next self.now }
    {
        match self {
            Push::Overflowing(push) => push.next(),
            Push::Refusing(push) => push.next(),
        }
    }

    /// The stage after the result of that access.
    pub fn take(self, answer: u64) -> Push
        ensures { result ≡ push_take self answer }
    {
        match self {
            Push::Overflowing(push) => Push::Overflowing(push.take(answer)),
            Push::Refusing(push) => Push::Refusing(push.take(answer)),
        }
    }

    /// Whether no push is in progress.
    pub fn is_idle(&self) -> bool
        ensures { result ≡ push_is_idle self.now }
    {
        match self {
            Push::Overflowing(push) => push.is_idle(),
            Push::Refusing(push) => push.is_idle(),
        }
    }

    /// Whether the next step is the last one of the push.
    pub fn is_over(&self) -> bool
        ensures { result ≡ push_is_over self.now }
    {
        match self {
            Push::Overflowing(push) => push.is_over(),
            Push::Refusing(push) => push.is_over(),
        }
    }

    /// The put that takes effect at the next step while the read position is `position`, if one does.
    pub fn placed(&self, limit: u64, position: u64) -> Option<Act>
        ensures { option_to_list result ≡ placed_by_push limit position self.now }
    {
        match self {
            Push::Overflowing(push) => push.placed(limit, position),
            Push::Refusing(push) => push.placed(position),
        }
    }

    /// The put that takes effect at the next move of the read position, which is `position`, if one does.
    pub fn late(&self, position: u64) -> Option<Act>
        ensures { option_to_list result ≡ late_put position self.now }
    {
        match self {
            Push::Overflowing(push) => push.late(position),
            Push::Refusing(_) => None,
        }
    }
}

/// The stage of a pop, or of a look, which only returns whether a number waits.
#[derive(Clone, Copy)]
pub enum Pop {
    /// A pop from an overflowing ring, or a look at it.
    Overflowing(OverflowingPop),
    /// A pop from a refusing ring, or a look at it.
    Refusing(RefusingPop),
}

impl Pop {
    /// The stage at which no pop or look is in progress.
    pub fn idle(kind: RingKind) -> Pop
        ensures { result ≡ pop_idle kind }
    {
        match kind {
            RingKind::Overflowing => Pop::Overflowing(OverflowingPop::Idle),
            RingKind::Refusing => Pop::Refusing(RefusingPop::Idle),
        }
    }

    /// A pop.
    pub fn begin(kind: RingKind) -> Pop
        ensures { result ≡ pop_begun kind }
    {
        match kind {
            RingKind::Overflowing => Pop::Overflowing(OverflowingPop::begin()),
            RingKind::Refusing => Pop::Refusing(RefusingPop::begin()),
        }
    }

    /// A look, which takes nothing.
    pub fn look(kind: RingKind) -> Pop
        ensures { result ≡ pop_look kind }
    {
        match kind {
            RingKind::Overflowing => Pop::Overflowing(OverflowingPop::look()),
            RingKind::Refusing => Pop::Refusing(RefusingPop::look()),
        }
    }

    /// The next access of the pop or look.
    pub fn next(&self) -> Access
        ensures { result ≡ pop_next self.now }
    {
        match self {
            Pop::Overflowing(pop) => pop.next(),
            Pop::Refusing(pop) => pop.next(),
        }
    }

    /// The stage after the result of that access.
    pub fn take(self, answer: u64) -> Pop
        ensures { result ≡ pop_take self answer }
    {
        match self {
            Pop::Overflowing(pop) => Pop::Overflowing(pop.take(answer)),
            Pop::Refusing(pop) => Pop::Refusing(pop.take(answer)),
        }
    }

    /// Whether no pop or look is in progress.
    pub fn is_idle(&self) -> bool
        ensures { result ≡ pop_is_idle self.now }
    {
        match self {
            Pop::Overflowing(pop) => pop.is_idle(),
            Pop::Refusing(pop) => pop.is_idle(),
        }
    }

    /// Whether the next step is the last one of the pop or look.
    pub fn is_over(&self) -> bool
        ensures { result ≡ pop_is_over self.now }
    {
        match self {
            Pop::Overflowing(pop) => pop.is_over(),
            Pop::Refusing(pop) => pop.is_over(),
        }
    }

    /// The take or look that takes effect at the next step while the positions are `write` and `read`, if one does.
    pub fn taken(&self, write: u64, read: u64) -> Option<Act>
        ensures { option_to_list result ≡ taken_by_pop write read self.now }
    {
        match self {
            Pop::Overflowing(pop) => pop.taken(write, read),
            Pop::Refusing(pop) => pop.placed(write),
        }
    }

    /// Whether the next step moves the read position, which is `position`, at which a delayed put of a push takes effect. On a refusing
    /// ring no put is delayed, so this is false.
    pub fn moves(&self, position: u64) -> bool
        ensures { result ≡ pop_moves position self.now }
    {
        match self {
            Pop::Overflowing(pop) => pop.moves(position),
            Pop::Refusing(_) => false,
        }
    }
}
