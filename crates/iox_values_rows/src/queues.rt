//! Queues, bit sets, sets of indices and containers of members: what no contract of theirs can say.
//!
//! `sizes` checks that ample memory is enough at each size; `steps` checks two schedules whose results are known, and that calls by
//! steps end. For what threads share, `shared` checks each answer of queues and of single values, also of wide ones, `indices` checks
//! index sets, and `streams` checks 100,000 numbers that pass from one thread to another; `ends` has what they share.
mod ends;
mod indices;
mod shared;
mod sizes;
mod steps;
mod streams;
