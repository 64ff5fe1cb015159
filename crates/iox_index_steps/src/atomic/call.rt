//! A store or a load of a single value, one access at a time.
//!
//! The cells have two halves that hold the value alternately, and a counter says which half is current. A store fills the half that no load
//! reads, and then moves the counter; a load that finds the counter moved tries again.
ghost use Rattle.std.specs.Prelude.{◌≡◌, ◌<◌, ◌^◌};
ghost use Rattle.iox_index_steps.specs.AtomicSteps.{call_begun, call_is_idle, call_is_over, call_next, call_take, fills_second, place};
ghost use Rattle.iox_queues.specs.Values.{table_value};

use iox_queues::values::word_of;
use iox_queues_steps::{Access, Word};

/// A call that a party may begin: a store of the value with this number, or a load.
#[derive(Clone, Copy)]
pub enum Call {
    Store(usize),
    Load,
}

/// The stage of a call. Between its begin and `Done` the call makes one access after another.
#[derive(Clone, Copy)]
pub enum AtomicCall {
    /// No call is in progress.
    Idle,
    /// A store of this value reads the counter.
    Store {
        number: usize,
    },
    /// The store has read this counter, stores word after word, and then moves the counter.
    Fill {
        number: usize,
        counter: u64,
        next: usize,
    },
    /// A load reads the counter.
    Load,
    /// The load has read this counter, loads word after word, and then reads the counter again.
    Gather {
        counter: u64,
        next: usize,
    },
    /// The call has made all its accesses, and its last step is still to come.
    Done {
        call: Call,
    },
}

impl AtomicCall {
    /// The first stage of the call.
    pub fn begin(call: Call) -> AtomicCall
        ensures { result ≡ call_begun call }
    {
        match call {
            Call::Store(number) => AtomicCall::Store { number },
            Call::Load => AtomicCall::Load,
        }
    }

    /// The next access of the call, on a value of `width` words.
    pub fn next(&self, width: usize, values: &[Vec<u64>]) -> Access
        requires { width < 2 ^ 62 }
        ensures { result ≡ call_next width values.now self.now }
    {
        match *self {
            AtomicCall::Idle | AtomicCall::Done { .. } => Access::Local,
            AtomicCall::Store { .. } | AtomicCall::Load => Access::Load(Word::Write),
            AtomicCall::Fill {
                number,
                counter,
                next,
            } => {
                if next < width {
                    let cell = place(width, fills_second(counter), next);
                    Access::Store(Word::Cell(cell), word_of(values, number, next))
                } else {
                    Access::Store(Word::Write, counter.saturating_add(1))
                }
            }
            AtomicCall::Gather { counter, next } => {
                if next < width {
                    Access::Load(Word::Cell(place(width, !fills_second(counter), next)))
                } else {
                    Access::Load(Word::Write)
                }
            }
        }
    }

    /// The stage after the result of that access.
    pub fn take(self, width: usize, answer: u64) -> AtomicCall
        ensures { result ≡ call_take width self answer }
    {
        match self {
            AtomicCall::Idle | AtomicCall::Done { .. } => AtomicCall::Idle,
            AtomicCall::Store { number } => AtomicCall::Fill {
                number,
                counter: answer,
                next: 0,
            },
            AtomicCall::Fill {
                number,
                counter,
                next,
            } => {
                if next < width {
                    AtomicCall::Fill {
                        number,
                        counter,
                        next: next + 1,
                    }
                } else {
                    AtomicCall::Done {
                        call: Call::Store(number),
                    }
                }
            }
            AtomicCall::Load => AtomicCall::Gather {
                counter: answer,
                next: 0,
            },
            AtomicCall::Gather { counter, next } => {
                if next < width {
                    AtomicCall::Gather {
                        counter,
                        next: next + 1,
                    }
                } else if answer == counter {
                    AtomicCall::Done { call: Call::Load }
                } else {
                    AtomicCall::Gather {
                        counter: answer,
                        next: 0,
                    }
                }
            }
        }
    }

    /// Whether no call is in progress.
    pub fn is_idle(&self) -> bool
        ensures { result ≡ call_is_idle self.now }
    {
        matches!(*self, AtomicCall::Idle)
    }

    /// Whether the next step is the last one of its call.
    pub fn is_over(&self) -> bool
        ensures { result ≡ call_is_over self.now }
    {
        matches!(*self, AtomicCall::Done { .. })
    }
}

// Whether a store that read this counter fills the second half.
fn fills_second(counter: u64) -> bool
    ensures { result ≡ fills_second counter }
{
    counter % 2 == 1
}

// The cell of word `i`, in the second half or in the first.
fn place(width: usize, second: bool, i: usize) -> u64
    requires small { width < 2 ^ 62 }
    requires within { i < width }
    ensures { result ≡ place width second i }
{
    if second { (width + i) as u64 } else { i as u64 }
}
