//! What a line answers.
use iox_lanes_machine::Positions;
use iox_lanes_parties::Answer;
use iox_queues_steps::{Placed, Stepped};
use std::fmt::{self, Debug, Display};

/// What a line answers.
#[derive(Clone, Copy)]
pub(crate) enum Said<'a> {
    /// True or false.
    Is(bool),
    /// A number.
    Number(u64),
    /// The number of messages that waited at a connection before the first step, and its maximum.
    Waited(usize, u64),
    /// This text: `none`, or `unknown` if the line isn't understood, or doesn't fit the state.
    Text(&'static str),
    /// The outcome of a step.
    Stepped(Stepped),
    /// The answer of a call that ended.
    Ended(Answer),
    /// These words.
    Words(&'a [u64]),
    /// The positions of a connection.
    Positions(Positions),
    /// An entry of an order.
    Placed(Placed),
}

/// The answer if there is nothing to report.
pub(crate) const NONE: Said<'static> = Said::Text("none");

/// The answer to a line that isn't understood, or doesn't fit the state.
pub(crate) const UNKNOWN: Said<'static> = Said::Text("unknown");

impl Display for Said<'_> {
    fn fmt<W: fmt::Write>(&self, f: &mut fmt::Formatter<W>) -> fmt::Result {
        match self {
            Said::Is(yes) => Display::fmt(yes, f),
            Said::Number(number) => Display::fmt(number, f),
            Said::Waited(found, limit) => write!(f, "{found} of {limit}"),
            Said::Text(text) => f.write_str(text),
            Said::Stepped(stepped) => Debug::fmt(stepped, f),
            Said::Ended(answer) => Debug::fmt(answer, f),
            Said::Words(words) => Debug::fmt(words, f),
            Said::Positions(positions) => Debug::fmt(positions, f),
            Said::Placed(placed) => Debug::fmt(placed, f),
        }
    }
}
