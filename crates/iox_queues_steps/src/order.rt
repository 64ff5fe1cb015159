//! The order of puts and takes on a ring, and the calls that made them.
ghost use Rattle.std.specs.Prelude.{◌≡◌};

/// The result of a push.
#[derive(Clone, Copy, Debug, PartialEq, Eq)]
pub enum PushAnswer {
    /// The number was put, and no number was removed for it.
    Kept,
    /// The number was put, and this oldest number was removed for it.
    LeftOut(u64),
    /// The queue was full, so the number was not put.
    Refused,
}

/// The result of a pop or a look.
#[derive(Clone, Copy, Debug, PartialEq, Eq)]
pub enum PopAnswer {
    /// A pop took this number, or `None` if no number waited.
    Got(Option<u64>),
    /// A look found that a number waits, or that none does.
    Saw(bool),
}

/// One put, take or look.
#[derive(Clone, Copy, Debug, PartialEq, Eq)]
pub enum Act {
    /// A push took effect: its number and its result.
    Put { value: u64, answer: PushAnswer },
    /// A pop or a look took effect: its result.
    Take { answer: PopAnswer },
}

/// A put, take or look, and the number of the step at which it took effect.
#[derive(Clone, Copy, Debug, PartialEq, Eq)]
pub struct Placed {
    /// The put, take or look.
    pub act: Act,
    /// The number of the step at which it took effect.
    pub moment: u64,
}

/// A finished push, with the numbers of its first and its last step.
#[derive(Clone, Copy)]
pub struct PushCall {
    /// The number that was pushed.
    pub value: u64,
    /// The result of the push.
    pub answer: PushAnswer,
    /// The number of its first step.
    pub first: u64,
    /// The number of its last step.
    pub last: u64,
}

/// A finished pop or look, with the numbers of its first and its last step.
#[derive(Clone, Copy)]
pub struct PopCall {
    /// The result of the pop or look.
    pub answer: PopAnswer,
    /// The number of its first step.
    pub first: u64,
    /// The number of its last step.
    pub last: u64,
}
