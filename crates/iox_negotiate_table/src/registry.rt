//! The nodes of a service.
ghost use Rattle.std.specs.Prelude.{◌≡◌, ◌+◌, ◌≤◌, ◌<◌, ◌^◌, length, IsSome, IfOk, OnOk, OnErr, nat_eq, nat_lt, []};
ghost use Rattle.iox_negotiate_table.specs.Nodes.{none_in, first_node, first_foreign, count_in, factories_of, with_node, with_factories};
ghost use Rattle.iox_negotiate_table.specs.Nodes.{without_foreign, has_foreign, left, Enters, Registers};

use iox_negotiate_base::OpenSegmentAnswer;
use std::alloc::{AllocError, Global};
use std::collections::{BTreeMap, BTreeSet};
use std::marker::Model;

/// The nodes of a service: each own node with the number of its factories, the foreign nodes, and the maximum number of nodes.
#[derive(Drop)]
pub struct Registry {
    own: BTreeMap<u64, u64>,
    foreign: BTreeSet<u64>,
    max_nodes: u64,
}

impl Model for Registry {
    ghost use Rattle.iox_negotiate_table.specs.Nodes.{Nodes};

    ghost Value = { Nodes };

    ghost view = { λ r. record { own = r.own.entries; foreign = r.foreign.keys; max_nodes = r.max_nodes } };
}

impl Registry {
    /// A registry for at most `max_nodes` nodes, without any node. It doesn't allocate.
    pub fn new(alloc: Global, max_nodes: u64) -> Self
        ensures { result ≡ none_in max_nodes }
    {
        Registry {
            own: BTreeMap::new(alloc),
            foreign: BTreeSet::new(alloc),
            max_nodes,
        }
    }

    /// A registry for at most `max_nodes` nodes, with one own node that has one factory. It fails only if an allocation fails.
    pub fn of_node(alloc: Global, node: u64, max_nodes: u64) -> Result<Self, AllocError>
        ensures { IfOk result (λ registry. registry ≡ first_node node max_nodes) }
    {
        let mut registry = Registry::new(alloc, max_nodes);
        registry.add(node)?;
        Ok(registry)
    }

    /// A registry for at most `max_nodes` nodes, with one foreign node. It fails only if an allocation fails.
    pub fn of_foreign(alloc: Global, node: u64, max_nodes: u64) -> Result<Self, AllocError>
        ensures { IfOk result (λ registry. registry ≡ first_foreign node max_nodes) }
    {
        let mut registry = Registry::new(alloc, max_nodes);
        registry.foreign.insert(node)?;
        Ok(registry)
    }

    /// How many nodes are registered.
    pub fn len(&self) -> u64
        ensures { result ≡ count_in self.now }
    {
        self.own.len() as u64 + self.foreign.len() as u64
    }

    /// Whether no node is registered.
    pub fn is_empty(&self) -> bool
        ensures { result ≡ nat_eq (count_in self.now) 0 }
    {
        self.len() == 0
    }

    /// Whether fewer nodes are registered than the maximum.
    pub fn has_room(&self) -> bool
        ensures { result ≡ nat_lt (count_in self.now) self.now.max_nodes }
    {
        self.len() < self.max_nodes
    }

    /// How many factories an own node has; `None` if it isn't registered.
    pub fn factories_of(&self, node: u64) -> Option<u64>
        ensures { result ≡ factories_of self.now node }
    {
        self.own.get(&node).copied()
    }

    /// Registers an own node, with one factory. It fails only if an allocation fails.
    pub fn add(&mut self, node: u64) -> Result<(), AllocError>
        ensures ok { OnOk result (self.new ≡ with_node node self.old) }
        ensures err { OnErr result (self.new ≡ self.old) }
    {
        self.own.insert(node, 1)?;
        Ok(())
    }

    /// Changes the number of factories of an own node that is registered.
    pub fn set_factories(&mut self, node: u64, count: u64)
        requires { IsSome (factories_of self.old node) }
        ensures { self.new ≡ with_factories node count self.old }
    {
        let Some(factories) = self.own.get_mut(&node) else {
            return;
        };
        *factories = count;
    }

    /// Removes one factory of an own node; the last one removes the node. If the node isn't registered, nothing changes.
    pub fn leave(&mut self, node: u64)
        ensures { self.new ≡ left node self.old }
    {
        let Some(count) = self.factories_of(node) else {
            return;
        };
        if count > 1 {
            self.set_factories(node, count - 1);
            return;
        }
        let _ = self.own.remove(&node);
    }

    /// Opens the service once more for an own node.
    ///
    /// A registered node gets one more factory, or `Fault` if it has 2^64 - 1. Any other node is registered with its first factory, or gets
    /// `Full` if the maximum number of nodes is registered, and `OutOfMemory` if an allocation fails.
    pub fn enter(&mut self, node: u64) -> OpenSegmentAnswer
        ensures { Enters node self.old result self.new }
    {
        if let Some(count) = self.factories_of(node) {
            if count == u64::MAX {
                return OpenSegmentAnswer::Fault;
            }
            self.set_factories(node, count + 1);
            return OpenSegmentAnswer::Registered;
        }
        if !self.has_room() {
            return OpenSegmentAnswer::Full;
        }
        match self.add(node) {
            Ok(()) => OpenSegmentAnswer::Registered,
            Err(_) => OpenSegmentAnswer::OutOfMemory,
        }
    }

    /// Whether this foreign node is registered.
    pub fn has_foreign(&self, node: u64) -> bool
        ensures { result ≡ has_foreign node self.now }
    {
        self.foreign.contains(&node)
    }

    /// Registers a foreign node, unless it is registered already or the maximum number of nodes is. It fails only if an allocation
    /// fails.
    pub fn register(&mut self, node: u64) -> Result<(), AllocError>
        ensures { Registers node self.old result self.new }
    {
        if self.has_foreign(node) || !self.has_room() {
            return Ok(());
        }
        self.foreign.insert(node)?;
        Ok(())
    }

    /// Removes a foreign node, if it is registered.
    pub fn take_out(&mut self, node: u64)
        ensures { self.new ≡ without_foreign node self.old }
    {
        let _ = self.foreign.remove(&node);
    }
}
