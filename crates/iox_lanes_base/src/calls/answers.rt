//! The answer of a push or a pop that is over.
ghost use Rattle.std.specs.Prelude.{◌≡◌};
ghost use Rattle.iox_lanes_base.specs.Answers.{refusing_push_answer, refusing_pop_answer, push_answer, pop_answer};

use iox_queues_steps::rings::overflowing::{Pop as OverflowingPop, Push as OverflowingPush};
use iox_queues_steps::rings::refusing::{Pop as RefusingPop, Push as RefusingPush};
use iox_queues_steps::rings::{Pop, Push};
use iox_queues_steps::{PopAnswer, PushAnswer};

/// The answer of a push on a refusing ring; None while it is in progress.
pub fn refusing_push_answer(push: &RefusingPush) -> Option<PushAnswer>
    ensures { result ≡ refusing_push_answer push.now }
{
    match *push {
        RefusingPush::Pushed { answer, .. } => Some(answer),
        _ => None,
    }
}

/// The answer of a pop or a look on a refusing ring; None while it is in progress.
pub fn refusing_pop_answer(pop: &RefusingPop) -> Option<PopAnswer>
    ensures { result ≡ refusing_pop_answer pop.now }
{
    match *pop {
        RefusingPop::Popped { got } => Some(PopAnswer::Got(got)),
        RefusingPop::Looked { waiting } => Some(PopAnswer::Saw(waiting)),
        _ => None,
    }
}

/// The answer of a push on a ring of either kind; None while it is in progress.
pub fn push_answer(push: &Push) -> Option<PushAnswer>
    ensures { result ≡ push_answer push.now }
{
    match push {
        Push::Overflowing(OverflowingPush::Pushed { answer, .. }) => Some(*answer),
        Push::Overflowing(_) => None,
        Push::Refusing(push) => refusing_push_answer(push),
    }
}

/// The answer of a pop or a look on a ring of either kind; None while it is in progress.
pub fn pop_answer(pop: &Pop) -> Option<PopAnswer>
    ensures { result ≡ pop_answer pop.now }
{
    match pop {
        Pop::Overflowing(OverflowingPop::Popped { got }) => Some(PopAnswer::Got(*got)),
        Pop::Overflowing(OverflowingPop::Looked { waiting }) => Some(PopAnswer::Saw(*waiting)),
        Pop::Overflowing(_) => None,
        Pop::Refusing(pop) => refusing_pop_answer(pop),
    }
}
