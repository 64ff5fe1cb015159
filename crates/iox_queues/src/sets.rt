//! Bit sets and counting bit sets, one word at a time.
pub use crate::bits::{Answer, Call, Event, Finished, Move, SetCall, SetMachine};
