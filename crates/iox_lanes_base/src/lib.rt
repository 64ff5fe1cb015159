//! What the ports of one service do with the words that they share, without the ports themselves.
//!
//! - [`words`]: the shared words of a service, and one access to one of them.
//! - [`calls`]: the calls of one publisher and of one subscriber, one access to a shared word at a time.
#![tactic(auto)]

pub mod calls;
pub mod words;
