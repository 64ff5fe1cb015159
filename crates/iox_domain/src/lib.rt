//! One publish-subscribe service with its ports, by their numbers, and their handlers.
//!
//! | Module | What it has |
//! |---|---|
//! | `calls` | the calls of ports at the home of their domain |
//! | `settings` | what the ports of a service take from its description and from their users |
//! | `ports` | the ports of one service by their numbers: `ServicePorts` |
//! | `port_laws` | theorems about the calls of these ports |
//! | `allowances` | how many more loans and samples the ports may have, and how each call changes that |
//! | `domain_id` | the id of a domain |
//! | `domain` | a domain: its id, its service configuration, its ports and their handlers |
//! | `home` | what contains domains, and a domain as the home of its own ports |
//! | `kept` | values that are stored for ports, by their numbers |
//! | `laws` | theorems about domains and homes |
//! | `living` | how many ports, loans and samples are alive |
//! | `nobody` | the handler that is used if none is set |
//! | `parts` | the parts of a domain |
//! | `publishing` | a publisher is created, follows the subscribers, sends and is closed |
//! | `state` | the state of a domain that the calls of its ports change |
//! | `subscribing` | a subscriber is created, follows the publishers, receives and is closed |
//!
//! Writing, reading and releasing ask no handler: these calls are those of the domain's `state.ports`.
//!
//! First calls, of a new domain:
//!
//! ```
//! if Domain::<u64, ()>::fits(description) {
//!     let domain = Domain::<u64, ()>::new(alloc, id, description, 128)?;
//!     let living = domain.living(owner);
//!     return Ok(Some(living));
//! }
//! Ok(None)
//! ```
#![tactic(auto)]

pub mod allowances;
pub mod calls;
pub mod domain;
pub mod domain_id;
pub mod home;
pub mod kept;
pub mod laws;
pub mod living;
pub mod nobody;
pub mod parts;
pub mod port_laws;
pub mod ports;
pub mod publishing;
pub mod settings;
pub mod state;
pub(crate) mod stored;
pub mod subscribing;

pub use domain::Domain;
pub use domain_id::DomainId;
pub use home::{Home, LendsDomains};
pub use kept::Kept;
pub use nobody::Nobody;
pub use parts::DomainParts;
pub use ports::ServicePorts;
pub use settings::{PublisherSettings, SubscriberSettings};
pub use state::DomainState;
