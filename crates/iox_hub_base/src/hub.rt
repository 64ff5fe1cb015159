//! The hub, and how it is made.
ghost use Rattle.std.specs.Prelude.{◌≡◌, ◌-◌, ◌^◌, true, Ok, Some, min, nat_eq};
ghost use Rattle.iox_delivery_factories.specs.DescribeBase.Hash.{service_hash_of};
ghost use Rattle.iox_negotiate_table.specs.Contents.{entry_at};
ghost use Rattle.iox_hub_base.specs.Hubs.{IsNewHub, one_more, is_node, has_made, hash_state};
ghost use Rattle.iox_hub_base.specs.Room.{loans_left_in, samples_at_most_in};

use crate::Services;
use crate::counts::Counts;
use crate::factory::PortFactory;
use crate::node::NodeHandle;
use iox_command::HubError;
use iox_describe::pattern::Pattern;
use iox_describe::{MessagingPattern, ServiceName, service_hash};
use iox_domain_values::{DegradationHandler, Handlers};
use iox_negotiate::Builder;
use iox_negotiate_base::Storage;
use iox_negotiate_table::{Entry, Table};
use std::alloc::Global;

/// The configuration of a hub.
#[derive(Clone, Copy, Debug, PartialEq, Eq)]
pub struct HubConfig {
    /// The maximum number of a subscriber's connections that stay readable after their publishers were closed. If a service's borrow limit
    /// is larger, the borrow limit applies instead.
    pub expired_connection_buffer: u32,
    /// The id of the hub, by which hubs are distinguished.
    pub id: u64,
}

/// At most 128 connections of closed publishers, and the id 0.
impl Default for HubConfig {
    ghost is_default = { λ made. (made.expired_connection_buffer ≡ 128) × (made.id ≡ 0) };

    fn default() -> Self {
        HubConfig {
            expired_connection_buffer: 128,
            id: 0,
        }
    }
}

/// What lies under the hash of a service.
#[derive(Clone, Copy)]
pub enum HashState {
    /// Nothing: the service doesn't exist, and no node is about to create it.
    Absent,
    /// A lock: a node is about to create the service.
    Locked,
    /// A description: the service exists.
    Described,
}

/// All nodes and services of a program, in one owned value that each call is handed.
///
/// `T` is the element of messages, `U` their user header, `B` the handlers of a publisher, `D` the handler of a subscriber. Corresponds to
/// what the nodes of `iceoryx2` share on a machine.
pub struct Hub<T, U, B = Handlers, D = DegradationHandler> {
    pub(crate) expired_connection_buffer: u32,
    // How many nodes were made, and how many factories.
    pub(crate) nodes: u64,
    pub(crate) factories: u64,
    pub(crate) table: Table,
    // How many factories of a service are open, by the service's number.
    pub(crate) factory_counts: Counts,
    pub(crate) services: Services<T, U, B, D>,
}

/// The implementation is here once, so that no crate above proves it again.
impl<T: Drop, U: Drop, B: Drop, D: Drop> Drop for Hub<T, U, B, D> {
    fn drop(self) {
        let Hub {
            expired_connection_buffer: _,
            nodes: _,
            factories: _,
            table: _,
            factory_counts: _,
            services: _,
        } = self;
    }
}

impl<T: Copy, U: Copy, B: Drop, D: Drop> Hub<T, U, B, D> {
    /// A hub without nodes and services. It takes no memory.
    /// Example: `let mut hub = Hub::<u64, (), Nobody, Nobody>::new(alloc, config);`
    pub fn new(alloc: Global, config: HubConfig) -> Self
        ensures { IsNewHub config result }
    {
        Hub {
            expired_connection_buffer: config.expired_connection_buffer,
            nodes: 0,
            factories: 0,
            table: Table::new(alloc, config.id),
            factory_counts: Counts::new(alloc),
            services: Services::new(alloc, config.id),
        }
    }

    /// The id of the hub, by which hubs are distinguished.
    /// Example: `let id = hub.id();`
    pub fn id(&self) -> u64
        ensures { result ≡ self.now.table.id }
    {
        self.table.id()
    }

    /// Makes a node with the next number, which is at most 2^64 - 1.
    ///
    /// `HubError::OutOfMemory` would report that an allocation failed; a node takes no memory.
    ///
    /// Corresponds to `iceoryx2::node::NodeBuilder::create`.
    /// Example: `let node = hub.new_node()?;`
    pub fn new_node(&mut self) -> Result<NodeHandle, HubError>
        ensures node { result ≡ Ok (record { hub = self.old.table.id; number = one_more self.old.nodes }) }
        ensures rest { self.new ≡ record self.old { nodes = one_more self.old.nodes } }
    {
        self.nodes = self.nodes.saturating_add(1);
        Ok(NodeHandle {
            hub: self.id(),
            number: self.nodes,
        })
    }

    /// Whether a node of this number was made: they are counted from 1.
    ///
    /// Not in `iceoryx2`.
    /// Example: `let was_made = hub.has_node(1);`
    pub fn has_node(&self, number: u64) -> bool
        ensures { result ≡ is_node number self.now.nodes }
    {
        1 <= number && number <= self.nodes
    }

    /// Whether this hub made the node.
    /// Example: `let is_of_it = hub.holds_node(&node);`
    pub fn holds_node(&self, node: &NodeHandle) -> bool
        ensures { result ≡ has_made node.now.hub node.now.number self.now }
    {
        node.hub == self.id() && self.has_node(node.number)
    }

    /// Whether a factory is of this hub.
    /// Example: `let is_of_it = hub.holds(&factory);`
    pub fn holds<P: Pattern>(&self, factory: &PortFactory<P>) -> bool
        ensures { result ≡ nat_eq factory.now.service.membership.storage self.now.table.id }
    {
        factory.service.storage() == self.id()
    }

    /// What lies under the hash of a pattern and a name. It doesn't allocate.
    ///
    /// Not in `iceoryx2`.
    /// Example: `let state = hub.state_under(MessagingPattern::Event, &name);`
    pub fn state_under(&self, pattern: MessagingPattern, name: &ServiceName) -> HashState
        ensures { result ≡ hash_state (entry_at (service_hash_of pattern name.now) self.now.table) }
    {
        match self.table.entry(&service_hash(pattern, name)) {
            None => HashState::Absent,
            Some(Entry::Locked { .. }) => HashState::Locked,
            Some(Entry::Described { .. }) => HashState::Described,
        }
    }

    /// How many loans the publishers of all domains in the hub may still make; domains that are out don't count. At most 2^64 - 1.
    ///
    /// Not in `iceoryx2`.
    /// Example: `let loans = hub.loans_left();`
    pub fn loans_left(&self) -> u64
        ensures { result ≡ min (loans_left_in self.now.services.domains) (2 ^ 64 - 1) }
    {
        self.services.loans_left()
    }

    /// How many samples the subscribers of all domains in the hub may hold at once: for each open subscriber and each publisher that
    /// exists, as many as may be borrowed from one connection. At most 2^64 - 1.
    ///
    /// Not in `iceoryx2`.
    /// Example: `let samples = hub.samples_at_most();`
    pub fn samples_at_most(&self) -> u64
        ensures { result ≡ min (samples_at_most_in self.now.services.domains) (2 ^ 64 - 1) }
    {
        self.services.samples_at_most()
    }

    /// A builder of the service of this name, for a node that this hub made.
    ///
    /// Ported from `iceoryx2::node::Node::service_builder`.
    /// Example: `let builder = hub.service_builder(&node, name).publish_subscribe::<u64>();`
    pub fn service_builder(&self, node: &NodeHandle, name: ServiceName) -> Builder
        requires { has_made node.now.hub node.now.number self.now ≡ true }
        ensures { result ≡ record { hub = Some self.now.table.id; node = node.now.number; name = name } }
    {
        Builder::of_hub(self.id(), node.number, name)
    }
}
