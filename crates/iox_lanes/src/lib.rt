//! Turns the domain of a service into lanes, whose ports make their calls one access to a shared word at a time, and back.
//!
//! - [`domain_lanes`]: lanes with the domain that they were made from.
//! - `listed`: the numbers of the ports, by place.
//! - `finding`: lanes before their first step.
//! - `building`: lanes find what the domain has.
//! - [`returning`]: makes a domain of lanes again.
//! - [`into_domain_error`]: why lanes don't become a domain.
//! - [`threads`]: the ports of a domain in threads of their own.
//! - [`laws`]: theorems on lanes and the domain beside them.
//!
//! The crate re-exports what a program on lanes needs: [`Lanes`] over their [`LaneMachine`], [`Message`], [`Party`], [`Call`], [`Move`],
//! the answers of a step ([`Stepped`]) and of a send ([`Delivery`]), the order of a connection ([`Order`], [`PlacedMessage`], [`Placed`],
//! [`Act`]), [`Positions`], [`Words`], [`FewWords`], [`values_in`], [`WithSequence`], and for threads [`open_threads`], [`LanePublisher`],
//! [`LaneSubscriber`].
//!
//! First calls:
//!
//! ```
//! match into_lanes(alloc, domain) {
//!     Ok(mut opened) => {
//!         opened.lanes.run(&schedule);
//!         let sent = opened.lanes.message(0);
//!         let domain = opened.into_domain();
//!     }
//!     Err(refused) => return Err(refused.error),
//! }
//! ```
#![tactic(auto)]

mod building;
pub mod domain_lanes;
mod finding;
pub mod into_domain_error;
pub mod laws;
mod listed;
pub mod returning;
pub mod threads;

pub use domain_lanes::{DomainLanes, Refused, into_lanes};
pub use into_domain_error::IntoDomainError;
pub use iox_lanes_base::calls::{Delivery, Receipt};
pub use iox_lanes_laws::messages::{Lanes, Message, Order, PlacedMessage};
pub use iox_lanes_machine::{LaneMachine, LaneSizes, Link, Positions, Unrest};
pub use iox_lanes_opening::refusals::IntoLanesError;
pub use iox_lanes_parties::publisher::LoanAnswer;
pub use iox_lanes_parties::{
    Answer, Call, CallName, Entry, FewWords, FinishedCall, Move, Party, SendAnswer, WithSequence,
    values_in,
};
pub use iox_lanes_threads::{
    EndError, EndedThreads, LanePublisher, LaneSubscriber, LaneThreads, OpenError, ReleaseAnswer,
    are_all, end, open_threads,
};
pub use iox_queues_base::Words;
pub use iox_queues_steps::rings::RingKind;
pub use iox_queues_steps::{Act, Placed, PopAnswer, PushAnswer, Stepped};
pub use returning::StillLanes;
