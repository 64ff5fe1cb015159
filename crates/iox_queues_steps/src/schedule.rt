//! The steps that a machine can be asked for, and the steps that it made.
ghost use Rattle.std.specs.Prelude.{◌≡◌};
ghost use Rattle.iox_queues_steps.specs.Schedule.{count_of, is_stopped_of};

use crate::access::Access;

/// An end of a ring.
#[derive(Clone, Copy)]
pub enum Party {
    /// The end that pushes.
    Producer,
    /// The end that pops and looks.
    Consumer,
}

/// A call that an end may begin.
#[derive(Clone, Copy, PartialEq, Eq)]
pub enum Call {
    /// A push of this number.
    Push(u64),
    /// A pop of the oldest number.
    Pop,
    /// A look: returns whether a number waits, and takes none.
    Look,
}

/// One step: the begin of a call, or the next step of the call in progress.
#[derive(Clone, Copy)]
pub enum Move {
    /// Begins a call.
    Begin(Call),
    /// Makes the next step of this end's call.
    GoOn(Party),
}

/// The outcome of a step.
#[derive(Clone, Copy, Debug, PartialEq, Eq)]
pub enum Stepped {
    /// The step was made, and its call is still in progress.
    Went,
    /// The step was made, and it was the last one of its call.
    Finished,
    /// The step was not possible in this state, and nothing changed.
    Skipped,
    /// Memory for recording the step ran out, and nothing changed.
    NoMemory,
}

impl Stepped {
    /// How many steps were made: 1 or 0.
    pub fn count(self) -> usize
        ensures { result ≡ count_of self }
    {
        match self {
            Stepped::Went | Stepped::Finished => 1,
            Stepped::Skipped | Stepped::NoMemory => 0,
        }
    }

    /// Whether the step was possible, but memory for recording it ran out.
    pub fn is_stopped(self) -> bool
        ensures { result ≡ is_stopped_of self }
    {
        matches!(self, Stepped::NoMemory)
    }
}

/// A step that was made: who made it, which access it made, and the result of the access.
#[derive(Clone, Copy)]
pub struct Event {
    /// The end that made the step.
    pub party: Party,
    /// The access that the step made.
    pub access: Access,
    /// The result of the access.
    pub answer: u64,
}
