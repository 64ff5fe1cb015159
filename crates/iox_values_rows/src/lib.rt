//! Tests of what no contract can say of values alone: of containers, of queues and index sets, of descriptions, negotiation and
//! conversations.
//!
//! The crate has no items of its own, only tests. Among other things they check that ample memory is enough for each call that
//! allocates.
//!
//! - `containers`: strings, vectors, queues, maps, cells and tables of numbers.
//! - `queues`: rings, bit sets, sets of indices and containers of members.
//! - `agreement`: what nodes agree on, and what is said about it, compared with rows that were written independently.
//! - `texts`: what errors display as.
//! - `answers`: results of helpers, which a test asserts.
#![tactic(auto)]

#[cfg(test)]
mod agreement;
#[cfg(test)]
mod answers;
#[cfg(test)]
mod containers;
#[cfg(test)]
mod queues;
#[cfg(test)]
mod texts;
