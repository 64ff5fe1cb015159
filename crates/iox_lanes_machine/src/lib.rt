//! Publishers and subscribers of one service that make their calls one access to a shared word at a time, in any order.
//!
//! - [`link`]: the connections.
//! - [`found`]: what lanes find before their first step.
//! - [`ledger`]: a theorem on the counts of a publisher's slots.
//! - [`sizes`]: how many ports there are, and their sizes.
//! - `made`: the ports as they are made.
//! - `order`: the order of a connection.
//! - `placing`: what a step adds to an order.
//! - `state`: all ports with their words, and one step.
//! - [`lanes`]: the lanes as one value.
//! - [`laws`]: theorems on many steps.
//! - [`waiting`]: what waits at a connection.
//! - [`parts`]: the lanes taken apart.
//! - [`resting`]: whether a party is inside a call, or a loan or a sample exists.
//!
//! First calls:
//!
//! ```
//! let mut lanes = LaneMachine::new(alloc, sizes)?;
//! lanes.step(party, &step);
//! lanes.run(&schedule);
//! let order = lanes.order(connection);
//! ```
#![tactic(auto)]

pub mod found;
pub mod lanes;
pub mod laws;
pub mod ledger;
pub mod link;
mod made;
mod order;
pub mod parts;
mod placing;
pub mod resting;
pub mod sizes;
mod state;
pub mod waiting;

pub use found::Found;
pub use lanes::LaneMachine;
pub use link::{Link, Positions};
pub use resting::Unrest;
pub use sizes::LaneSizes;
