//! The crate that a program depends on: all that publish-subscribe needs, by the modules of iceoryx2, and runs of commands with handed-in
//! handlers.
//!
//! A command that creates a port names handlers by their places, and takes them.
//!
//! | Module | What it has |
//! |---|---|
//! | `prelude` | what a first program needs |
//! | `node` | nodes, and the hub that contains them with all services in one value |
//! | `service` | names, attributes, descriptions, builders, open services, storages for them, domains, and builders of ports |
//! | `port` | publishers and subscribers, the types of their calls, and their handlers |
//! | `sample_mut_uninit`, `sample_mut`, `sample` | a loan that is still to be written, a written loan, and a received message |
//! | `slice` | publishers, subscribers, loans and messages of slices |
//! | `container` | vectors, strings, queues, options, maps, semantic strings, byte cells |
//! | `lock_free` | sets of indices, containers of members, queues and bit sets |
//! | `given` | handed-in handlers, by their places |
//! | `handlers` | handlers of a publisher that are made of handed-in ones |
//! | `handled_command` | commands that may name handlers |
//! | `making` | how ports are created with the handlers that are named |
//! | `stepping` | one command, and its reply |
//! | `running` | a list of commands |
//! | `recorded` | a hub whose proofs know what it was asked: typed calls that say their commands |
//! | `laws` | theorems about runs |
//!
//! Its `specs/` re-export the definitions that contracts of these names cite: `Rattle.iox_hub.specs.Delivery`, `Domain` and others.
//!
//! First calls: a hub with a node, and a publisher of a service.
//!
//! ```
//! use iox_hub::prelude::*;
//!
//! let mut hub = Hub::<u64, ()>::new(alloc, config);
//! let node = hub.new_node()?;
//! // where the node and the factory are of the hub
//! let asked = hub.service_builder(&node, name).publish_subscribe::<u64>();
//! let service = asked.open_or_create_in(alloc, &mut hub, Vec::new(alloc))?;
//! // None: the service has other types than the hub, or is out of it
//! if let Some(builder) = hub.publisher_builder(&service) {
//!     let publisher = builder.create(alloc, &mut hub)?;
//! }
//! ```
//!
//! First commands, on a hub of `iox_hub_commands` whose ports may have boxed handlers:
//!
//! ```
//! let mut given = GivenHandlers::new(alloc);
//! let place = given.hand_in(GivenHandler::Backpressure(handler))?;
//! let report = run(&mut hub, alloc, commands, &mut given);
//! ```
#![tactic(auto)]

pub mod container;
pub mod given;
pub mod handled_command;
pub mod handlers;
pub mod laws;
pub mod lock_free;
mod making;
pub mod node;
pub mod port;
pub mod prelude;
pub mod recorded;
pub mod running;
pub mod sample;
pub mod sample_mut;
pub mod sample_mut_uninit;
pub mod service;
pub mod slice;
pub mod stepping;

pub use given::{GivenHandler, GivenHandlers};
pub use handled_command::HandledCommand;
pub use handlers::TakesHandlers;
pub use running::run;
pub use stepping::step;
