//! What a node asks of a service, for any pattern.
ghost use Rattle.std.specs.Prelude.{◌≡◌, ℕ, Option, Result, IfOk};
ghost use Rattle.iox_describe.specs.DescribeBase.declared.hash.ServiceHash.{ServiceHash};
ghost use Rattle.iox_describe.specs.DescribeSettings.Agreement.{Agreement, max_nodes_of};
ghost use Rattle.iox_negotiate_base.specs.declared.failure.CreateFailure.{CreateFailure};

use crate::boxed::BoxedDescription;
use crate::failure::CreateFailure;
use iox_describe::{Description, ServiceHash};
use std::alloc::{AllocError, Global};

/// An open service: its number, and its description.
#[derive(Drop)]
pub struct Opened {
    /// The number of the service.
    pub number: u64,
    /// What its nodes agree on.
    pub description: BoxedDescription,
    /// Whether this call created the service.
    pub is_new: bool,
}

/// What a node asks of a service: what an existing service must meet, and what a created service becomes.
pub trait Request {
    /// The type of the error of an unmet clause.
    type ClauseError: Copy;

    // the hash that identifies the service
    ghost hash: { Self → ServiceHash };

    // the node that asks
    ghost node: { Self → ℕ };

    // the result of the compatibility check: the error of the first clause that a service doesn't meet
    ghost verdict: { Self → Agreement → Result (Unit {0}) Self.ClauseError };

    // why no service can be created with these settings, if the settings alone show it
    ghost refusal: { Self → Option CreateFailure };

    // the agreement of the service if it is created
    ghost created: { Self → Agreement };

    /// The hash that identifies the service.
    fn hash(&self) -> &ServiceHash
        ensures { result.now ≡ hash self.now };

    /// The node that asks.
    fn node(&self) -> u64
        ensures { result ≡ node self.now };

    /// Checks whether a service meets the request; the error is that of the first clause that it doesn't meet.
    fn verdict(&self, description: &Description) -> Result<(), Self::ClauseError>
        ensures { result ≡ verdict self.now description.now };

    /// Why no service can be created with these settings, if the settings alone show it.
    fn refusal(&self) -> Option<CreateFailure>
        ensures { result ≡ refusal self.now };

    /// The maximum number of nodes of the service if it is created.
    fn max_nodes(&self) -> u64
        ensures { result ≡ max_nodes_of (created self.now).settings };

    /// The description of the service if it is created. It fails only if an allocation fails.
    fn describe(&self, alloc: Global) -> Result<BoxedDescription, AllocError>
        ensures { IfOk result (λ description. description ≡ created self.now) };
}
