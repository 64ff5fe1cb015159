//! The segment of a service, in which its nodes are registered.

use crate::node::Node;
use crate::registry::Registry;
use iox_negotiate_base::{LeaveAnswer, OpenSegmentAnswer};
use std::alloc::AllocError;

/// The segment of a service, in which its nodes are registered.
#[derive(Drop)]
pub enum Segment {
    /// These nodes are registered.
    Open(Registry),
    /// The last node, which was this one, left; no node can be registered any more.
    Emptied(Node),
}

impl Segment {
    ghost use Rattle.std.specs.Prelude.{◌≡◌};
    ghost use Rattle.iox_negotiate_table.specs.Segments.{Opens, after_leave, leave_answer, RegistersIn, after_foreign_leave, is_emptied};
    ghost use Rattle.iox_negotiate_table.specs.Segments.{is_emptied_by};

    /// Opens the service for an own node; `Marked` if the last node left.
    pub fn open(&mut self, node: u64) -> OpenSegmentAnswer
        ensures { Opens node self.old result self.new }
    {
        match self {
            Segment::Open(registry) => registry.enter(node),
            Segment::Emptied(_) => OpenSegmentAnswer::Marked,
        }
    }

    /// Removes one factory of an own node, and reports whether this was the last factory of the last node.
    pub fn leave(&mut self, node: u64) -> LeaveAnswer
        ensures after { self.new ≡ after_leave node self.old }
        ensures answer { result ≡ leave_answer self.old self.new }
    {
        let Segment::Open(registry) = self else {
            return LeaveAnswer::Stays;
        };
        registry.leave(node);
        if registry.is_empty() {
            *self = Segment::Emptied(Node::Own(node));
            return LeaveAnswer::Emptied;
        }
        LeaveAnswer::Stays
    }

    /// Registers a foreign node, unless it is registered already or the maximum number of nodes is. It fails only if an allocation
    /// fails.
    pub fn register(&mut self, node: u64) -> Result<(), AllocError>
        ensures { RegistersIn node self.old result self.new }
    {
        match self {
            Segment::Open(registry) => registry.register(node),
            Segment::Emptied(_) => Ok(()),
        }
    }

    /// Removes a foreign node, if it is registered.
    pub fn take_out(&mut self, node: u64)
        ensures { self.new ≡ after_foreign_leave node self.old }
    {
        let Segment::Open(registry) = self else {
            return;
        };
        if !registry.has_foreign(node) {
            return;
        }
        registry.take_out(node);
        if registry.is_empty() {
            *self = Segment::Emptied(Node::Foreign(node));
        }
    }

    /// Whether the last node left.
    pub fn is_emptied(&self) -> bool
        ensures { result ≡ is_emptied self.now }
    {
        matches!(self, Segment::Emptied(_))
    }

    /// Whether this foreign node was the last to leave.
    pub fn is_emptied_by(&self, node: u64) -> bool
        ensures { result ≡ is_emptied_by node self.now }
    {
        match self {
            Segment::Emptied(Node::Foreign(by)) => *by == node,
            _ => false,
        }
    }
}
