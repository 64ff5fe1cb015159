//! A hub: all nodes and services of a program in one owned value.
//!
//! | Module | What it has |
//! |---|---|
//! | `presence` | a domain that is in the hub, or its agreement while it is out |
//! | `services` | the services of a hub, and how they open and close |
//! | `taking` | how a domain is taken out, to be driven elsewhere, and put back |
//! | `services_home` | the services of a hub as a home of domains |
//! | `laws` | theorems about these calls |
//! | `presences` | open services by number |
//! | `counts` | how many factories of a service are open |
//! | `service_room` | services and counts with capacity for one more |
//! | `node` | a node |
//! | `factory` | a service that is open in a hub |
//! | `hub` | the hub: nodes, and builders of services |
//! | `builder` | how services are created and opened in a hub |
//! | `entering` | how a service that was negotiated becomes a factory of the hub |
//! | `first_look` | what the first lookup of a call decides without memory |
//! | `untouched` | a table whose lookups run out of memory |
//! | `closing` | how factories are closed |
//! | `foreign` | actions of other nodes |
//! | `ports` | builders of ports; how domains are taken and put back |
//! | `home` | the hub as a home of its domains |
//!
//! First calls, with a builder of a service:
//!
//! ```
//! let mut hub = Hub::<u64, (), Nobody, Nobody>::new(alloc, config);
//! let node = hub.new_node()?;
//! let builder = hub.service_builder(&node, name).publish_subscribe::<u64>();
//! Ok((node.number(), builder.holds(&hub)))
//! ```
//!
//! First calls, with a domain that is taken out and put back; `Hub` of `iox_hub_base` makes them.
//!
//! ```
//! let mut services = Services::<u64, (), Nobody, Nobody>::new(alloc, 4);
//! services.open(alloc, description, 2, 128)?;
//! // where a service is open under the number
//! let domain = services.take(number).ok()?;
//! let id = domain.id;
//! services.put(domain).ok()?;
//! ```
#![tactic(auto)]

pub mod builder;
pub mod closing;
pub mod counts;
mod entering;
pub mod factory;
mod first_look;
pub mod foreign;
pub mod home;
pub mod hub;
pub mod laws;
pub mod node;
mod opening;
pub mod ports;
pub mod presence;
pub mod presences;
mod service_room;
pub mod services;
pub mod services_home;
pub mod taking;
mod untouched;

pub use builder::HubBuilder;
pub use factory::{NotClosed, PortFactory};
pub use hub::{HashState, Hub, HubConfig};
pub use iox_domain::Domain;
pub use node::NodeHandle;
pub use presence::Presence;
pub use services::Services;
pub use taking::{DomainIsForeign, TakeError};
