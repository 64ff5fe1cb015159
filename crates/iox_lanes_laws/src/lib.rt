//! Theorems on lanes, and lanes that keep the messages sent on them.
//!
//! - [`calls`]: the accesses that the calls of ports make.
//! - [`courses`]: the accesses of calls in any run, whoever makes steps in between.
//! - [`in_turn`]: calls that no other call overlaps.
//! - [`messages`]: the messages that are sent; a read returns exactly what was sent.
//! - [`sequences`]: the sequence numbers of these messages, and what a gap among them means.
#![tactic(auto)]

pub mod calls;
pub mod courses;
pub mod in_turn;
pub mod messages;
pub mod sequences;
