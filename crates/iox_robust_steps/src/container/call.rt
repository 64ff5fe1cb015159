//! A call on a container of members, one access at a time.
ghost use Rattle.std.specs.Prelude.{◌≡◌, ◌<◌, ◌≤◌, ◌^◌};
ghost use Rattle.iox_queues.specs.Values.{table_value};
ghost use Rattle.iox_robust_steps.specs.ContainerSteps.{answer_at, asked_for_place, closed, dropped, entered, is_clearing, is_shown};
ghost use Rattle.iox_robust_steps.specs.ContainerSteps.{member_begun, member_is_idle};
ghost use Rattle.iox_robust_steps.specs.ContainerSteps.{member_is_over};
ghost use Rattle.iox_robust_steps.specs.ContainerMachine.{is_look};
ghost use Rattle.iox_robust_steps.specs.ContainerSteps.{member_next, member_take, value_cell, visited, visits_from};
ghost use Rattle.iox_robust_steps.specs.ContainerSteps.{watches_from};

use crate::call::{Answer, RobustCall};
use iox_container::{ReleaseMode, ReleaseState, UniqueIndexSetAcquireFailure};
use iox_queues::values::word_of;
use iox_queues_steps::{Access, Word};

/// A call that a party may begin.
#[derive(Clone, Copy)]
pub enum MemberCall {
    /// Adds the value with this number for this owner.
    Add(usize, u64),
    /// Removes this owner's member, which the party added at this index.
    Remove(u64, u64, ReleaseMode),
    /// Copies the members, if something changed since the party's last copy.
    Update,
    /// Removes the members of this owner that the list of decisions with this number selects.
    Recover(u64, usize, ReleaseMode),
}

/// The result of a call.
#[derive(Clone, Copy, PartialEq, Eq)]
pub enum MemberAnswer {
    /// The member was added at this index, or was refused.
    Added(Result<u64, UniqueIndexSetAcquireFailure>),
    /// The member was removed, or the selected members of an owner were, and the index set is now locked or not.
    Removed(ReleaseState),
    /// Whether the members were copied.
    Updated(bool),
}

/// The stage of a call. Each stage from its begin to `Done` is one access, or one step of the index set.
#[derive(Clone, Copy)]
pub enum ContainerCall {
    /// No call is in progress.
    Idle,
    /// An addition acquires an index.
    Enter {
        number: usize,
        owner: u64,
    },
    /// The addition has the index, stores word after word of the value, and then reads the count of the place.
    Fill {
        number: usize,
        owner: u64,
        index: u64,
        next: usize,
    },
    /// The addition raises the count of the place; the member is then in the container.
    Show {
        number: usize,
        owner: u64,
        index: u64,
        seen: u64,
    },
    /// A removal reads the count of the place.
    Sink {
        owner: u64,
        index: u64,
        mode: ReleaseMode,
    },
    /// The removal raises the count of the place; the member is then out of the container.
    Hide {
        owner: u64,
        index: u64,
        mode: ReleaseMode,
        seen: u64,
    },
    /// The removal begins to release the index.
    Leave {
        owner: u64,
        index: u64,
        mode: ReleaseMode,
    },
    /// The removal releases the index.
    Drop {
        owner: u64,
        index: u64,
        mode: ReleaseMode,
    },
    /// A call that changed the members reads the count of changes.
    Count {
        call: MemberCall,
        answer: MemberAnswer,
    },
    /// The call raises the count of changes.
    Raise {
        call: MemberCall,
        answer: MemberAnswer,
        seen: u64,
    },
    /// A copy reads the count of changes.
    Look,
    /// The copy reads the count of a place.
    Visit {
        place: u64,
    },
    /// The copy found a member there, loads word after word of its value, and then reads the count again.
    Gather {
        place: u64,
        seen: u64,
        next: usize,
    },
    /// A recovery begins its recovery in the index set.
    Search {
        owner: u64,
        number: usize,
        mode: ReleaseMode,
    },
    /// The recovery reads the count of a place, before the set checks which owner has the index.
    Watch {
        owner: u64,
        number: usize,
        mode: ReleaseMode,
        place: u64,
    },
    /// The recovery has read this count, and the set checks which owner has the index.
    Ask {
        owner: u64,
        number: usize,
        mode: ReleaseMode,
        place: u64,
        seen: u64,
    },
    /// The index is the owner's, and has a member. The recovery raises the count of the place if it hasn't changed; the member is then out
    /// of the container.
    Expel {
        owner: u64,
        number: usize,
        mode: ReleaseMode,
        place: u64,
        seen: u64,
    },
    /// The place has no member, and the set frees the index.
    Clear {
        owner: u64,
        number: usize,
        mode: ReleaseMode,
        place: u64,
    },
    /// The recovery has visited each place, and the set finishes its recovery.
    Close {
        owner: u64,
        number: usize,
        mode: ReleaseMode,
    },
    /// The call has its result, and its last step is still to come.
    Done {
        call: MemberCall,
        answer: MemberAnswer,
    },
}

impl ContainerCall {
    /// The first stage of the call.
    pub fn begin(call: MemberCall) -> ContainerCall
        ensures { result ≡ member_begun call }
    {
        match call {
            MemberCall::Add(number, owner) => ContainerCall::Enter { number, owner },
            MemberCall::Remove(owner, index, mode) => ContainerCall::Sink { owner, index, mode },
            MemberCall::Update => ContainerCall::Look,
            MemberCall::Recover(owner, number, mode) => ContainerCall::Search {
                owner,
                number,
                mode,
            },
        }
    }

    /// The next access of the call, in a container of `capacity` places with values of `width` words. While the index set makes a step, the
    /// access is a local one.
    pub fn next(&self, capacity: u64, width: usize, values: &[Vec<u64>]) -> Access
        ensures { result ≡ member_next capacity width values.now self.now }
    {
        match *self {
            ContainerCall::Idle
            | ContainerCall::Enter { .. }
            | ContainerCall::Leave { .. }
            | ContainerCall::Drop { .. }
            | ContainerCall::Search { .. }
            | ContainerCall::Ask { .. }
            | ContainerCall::Clear { .. }
            | ContainerCall::Close { .. }
            | ContainerCall::Done { .. } => Access::Local,
            ContainerCall::Fill {
                number,
                index,
                next,
                ..
            } => {
                if next < width {
                    let cell = value_cell(capacity, width, index, next);
                    Access::Store(Word::Cell(cell), word_of(values, number, next))
                } else {
                    Access::Load(Word::Cell(index))
                }
            }
            ContainerCall::Show { index, seen, .. } | ContainerCall::Hide { index, seen, .. } => {
                Access::Store(Word::Cell(index), seen.saturating_add(1))
            }
            ContainerCall::Sink { index, .. } => Access::Load(Word::Cell(index)),
            ContainerCall::Count { .. } | ContainerCall::Look => Access::Load(Word::Write),
            ContainerCall::Raise { seen, .. } => {
                Access::Exchange(Word::Write, seen, seen.saturating_add(1))
            }
            ContainerCall::Visit { place } | ContainerCall::Watch { place, .. } => {
                Access::Load(Word::Cell(place))
            }
            ContainerCall::Expel { place, seen, .. } => {
                Access::Exchange(Word::Cell(place), seen, seen.saturating_add(1))
            }
            ContainerCall::Gather { place, next, .. } => {
                if next < width {
                    Access::Load(Word::Cell(value_cell(capacity, width, place, next)))
                } else {
                    Access::Load(Word::Cell(place))
                }
            }
        }
    }

    /// The stage after the result of that access, or after the result of the call on the index set, if that has one. `saw` is the count of
    /// changes that the party's last copy read; `finds` says whether the set is about to free an index.
    pub fn take(
        self,
        capacity: u64,
        width: usize,
        saw: u64,
        got: Option<Answer>,
        finds: bool,
        answer: u64,
    ) -> ContainerCall
        ensures { result ≡ member_take capacity width saw got finds self answer }
    {
        match self {
            ContainerCall::Idle | ContainerCall::Done { .. } => ContainerCall::Idle,
            ContainerCall::Enter { number, owner } => entered(number, owner, got),
            ContainerCall::Fill {
                number,
                owner,
                index,
                next,
            } => {
                if next < width {
                    ContainerCall::Fill {
                        number,
                        owner,
                        index,
                        next: next + 1,
                    }
                } else {
                    ContainerCall::Show {
                        number,
                        owner,
                        index,
                        seen: answer,
                    }
                }
            }
            ContainerCall::Show {
                number,
                owner,
                index,
                ..
            } => ContainerCall::Count {
                call: MemberCall::Add(number, owner),
                answer: MemberAnswer::Added(Ok(index)),
            },
            ContainerCall::Sink { owner, index, mode } => ContainerCall::Hide {
                owner,
                index,
                mode,
                seen: answer,
            },
            ContainerCall::Hide {
                owner,
                index,
                mode,
                ..
            } => ContainerCall::Leave { owner, index, mode },
            ContainerCall::Leave { owner, index, mode } => {
                ContainerCall::Drop { owner, index, mode }
            }
            ContainerCall::Drop { owner, index, mode } => dropped(owner, index, mode, got),
            ContainerCall::Count { call, answer: told } => ContainerCall::Raise {
                call,
                answer: told,
                seen: answer,
            },
            ContainerCall::Raise {
                call,
                answer: told,
                seen,
            } => {
                if answer == seen {
                    ContainerCall::Done { call, answer: told }
                } else {
                    ContainerCall::Raise {
                        call,
                        answer: told,
                        seen: answer,
                    }
                }
            }
            ContainerCall::Look => {
                if answer == saw {
                    updated(false)
                } else {
                    visits_from(capacity, 0)
                }
            }
            ContainerCall::Visit { place } => visited(capacity, place, answer),
            ContainerCall::Gather { place, seen, next } => {
                if next < width {
                    ContainerCall::Gather {
                        place,
                        seen,
                        next: next + 1,
                    }
                } else if answer == seen {
                    visits_from(capacity, place.saturating_add(1))
                } else {
                    visited(capacity, place, answer)
                }
            }
            ContainerCall::Search {
                owner,
                number,
                mode,
            } => watches_from(capacity, owner, number, mode, 0),
            ContainerCall::Watch {
                owner,
                number,
                mode,
                place,
            } => ContainerCall::Ask {
                owner,
                number,
                mode,
                place,
                seen: answer,
            },
            ContainerCall::Ask {
                owner,
                number,
                mode,
                place,
                seen,
            } => asked_for_place(capacity, owner, number, mode, place, seen, finds),
            ContainerCall::Expel {
                owner,
                number,
                mode,
                place,
                ..
            } => ContainerCall::Clear {
                owner,
                number,
                mode,
                place,
            },
            ContainerCall::Clear {
                owner,
                number,
                mode,
                place,
            } => watches_from(capacity, owner, number, mode, place.saturating_add(1)),
            ContainerCall::Close {
                owner,
                number,
                mode,
            } => closed(owner, number, mode, got),
        }
    }

    /// Whether no call is in progress.
    pub fn is_idle(&self) -> bool
        ensures { result ≡ member_is_idle self.now }
    {
        matches!(*self, ContainerCall::Idle)
    }

    /// Whether the next step is the last one of its call.
    pub fn is_over(&self) -> bool
        ensures { result ≡ member_is_over self.now }
    {
        matches!(*self, ContainerCall::Done { .. })
    }
}

// The result of a call on the index set, if it has one.
pub(crate) fn answer_at(stage: RobustCall) -> Option<Answer>
    ensures { result ≡ answer_at stage }
{
    match stage {
        RobustCall::Done { answer, .. } => Some(answer),
        _ => None,
    }
}

// Whether a call on the set is about to free an index.
pub(crate) fn is_clearing(stage: RobustCall) -> bool
    ensures { result ≡ is_clearing stage }
{
    matches!(stage, RobustCall::Clear { .. })
}

// Whether a party at this stage reads the count of changes in order to copy.
pub(crate) fn is_look(stage: ContainerCall) -> bool
    ensures { result ≡ is_look stage }
{
    matches!(stage, ContainerCall::Look)
}

// Whether a place with this count has a member: its count is odd.
pub(crate) fn is_shown(count: u64) -> bool
    ensures { result ≡ is_shown count }
{
    count % 2 == 1
}

fn updated(copied: bool) -> ContainerCall
    ensures { result ≡ ContainerCall.Done MemberCall.Update (MemberAnswer.Updated copied) }
{
    ContainerCall::Done {
        call: MemberCall::Update,
        answer: MemberAnswer::Updated(copied),
    }
}

// The stage at the next place, if one is left.
fn visits_from(capacity: u64, place: u64) -> ContainerCall
    ensures { result ≡ visits_from capacity place }
{
    if place < capacity {
        ContainerCall::Visit { place }
    } else {
        updated(true)
    }
}

// The stage of a copy after it read this count at a place.
fn visited(capacity: u64, place: u64, count: u64) -> ContainerCall
    ensures { result ≡ visited capacity place count }
{
    if is_shown(count) {
        ContainerCall::Gather {
            place,
            seen: count,
            next: 0,
        }
    } else {
        visits_from(capacity, place.saturating_add(1))
    }
}

// The stage of an addition after a step of the set.
fn entered(number: usize, owner: u64, got: Option<Answer>) -> ContainerCall
    ensures { result ≡ entered number owner got }
{
    match got {
        None | Some(Answer::Settled(_)) => ContainerCall::Enter { number, owner },
        Some(Answer::Acquired(Ok(index))) => ContainerCall::Fill {
            number,
            owner,
            index,
            next: 0,
        },
        Some(Answer::Acquired(Err(why))) => ContainerCall::Done {
            call: MemberCall::Add(number, owner),
            answer: MemberAnswer::Added(Err(why)),
        },
    }
}

// The stage of a removal after a step of the set.
fn dropped(owner: u64, index: u64, mode: ReleaseMode, got: Option<Answer>) -> ContainerCall
    ensures { result ≡ dropped owner index mode got }
{
    match got {
        None | Some(Answer::Acquired(_)) => ContainerCall::Drop { owner, index, mode },
        Some(Answer::Settled(state)) => ContainerCall::Count {
            call: MemberCall::Remove(owner, index, mode),
            answer: MemberAnswer::Removed(state),
        },
    }
}

// The stage of a recovery at the next place, if one is left.
fn watches_from(
    capacity: u64,
    owner: u64,
    number: usize,
    mode: ReleaseMode,
    place: u64,
) -> ContainerCall
    ensures { result ≡ watches_from capacity owner number mode place }
{
    if place < capacity {
        ContainerCall::Watch {
            owner,
            number,
            mode,
            place,
        }
    } else {
        ContainerCall::Close {
            owner,
            number,
            mode,
        }
    }
}

// The stage of a recovery after the set checked which owner has the index.
fn asked_for_place(
    capacity: u64,
    owner: u64,
    number: usize,
    mode: ReleaseMode,
    place: u64,
    seen: u64,
    finds: bool,
) -> ContainerCall
    ensures { result ≡ asked_for_place capacity owner number mode place seen finds }
{
    if !finds {
        watches_from(capacity, owner, number, mode, place.saturating_add(1))
    } else if is_shown(seen) {
        ContainerCall::Expel {
            owner,
            number,
            mode,
            place,
            seen,
        }
    } else {
        ContainerCall::Clear {
            owner,
            number,
            mode,
            place,
        }
    }
}

// The stage of a recovery after a step of the set.
fn closed(owner: u64, number: usize, mode: ReleaseMode, got: Option<Answer>) -> ContainerCall
    ensures { result ≡ closed owner number mode got }
{
    match got {
        None | Some(Answer::Acquired(_)) => ContainerCall::Close {
            owner,
            number,
            mode,
        },
        Some(Answer::Settled(state)) => ContainerCall::Count {
            call: MemberCall::Recover(owner, number, mode),
            answer: MemberAnswer::Removed(state),
        },
    }
}

// The cell of word `j` of the value at a place; cell numbers stop at the largest 64-bit number.
fn value_cell(capacity: u64, width: usize, place: u64, j: usize) -> u64
    ensures { result ≡ value_cell capacity width place j }
{
    capacity.saturating_add(place.saturating_mul(width as u64).saturating_add(j as u64))
}
