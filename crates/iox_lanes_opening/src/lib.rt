//! The way from the domain of a service to its lanes and back.
//!
//! - [`refusals`]: why a domain can't become lanes.
//! - [`leaving`]: puts what lanes leave in the slots of a publisher back into a publisher of a domain.
#![tactic(auto)]

pub mod leaving;
pub mod refusals;
