//! The rule of the words that threads share: what is true of them between any two steps, whatever the threads do.
//!
//! - [`service`]: which ports and connections a service has.
//! - [`view`]: what a port knows.
//! - [`laws`]: theorems that each step that a port may make keeps the rule.
//! - [`board`]: one step on one of the words.
//! - [`gathering`]: gives ports seats of their own, and gathers them in one seat again.
//!
//! A first call: one access of a port, by its own seat of the table that all threads share. `iox_lanes_threads_ports` makes it.
//!
//! ```
//! let answer = act::<K, Brand>(words, &mut seat, &sizes, access);
//! ```
#![tactic(auto)]

pub mod board;
pub mod gathering;
pub mod laws;
pub mod service;
pub mod view;

pub use board::{Doing, Opening, WordRule, WordSeat, Words, act};
pub use gathering::{agree, gather, give_out};
pub use service::{Line, Service, SlotRange};
pub use view::{Port, PortParty, View};
