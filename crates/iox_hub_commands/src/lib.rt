//! Commands: what each does to the tables of numbers and to the hub, and what its reply is.
//!
//! Commands of ports are handed a home, which is anything that contains domains: one domain, or a hub.
//!
//! | Module | What it has |
//! |---|---|
//! | `services` | numbered services that a run of commands opened, and what later commands do with them |
//! | `ports` | numbered ports, loans and samples |
//! | `handlers` | handlers of ports that a command made |
//! | `naming` | what a command names for a port |
//! | `replies` | the replies to the answers of calls |
//! | `arriving` | how ports are created |
//! | `lending` | how publishers loan, and send values at once |
//! | `messages` | how loans are written, sent and dropped; how samples are read and released |
//! | `receiving` | how subscribers receive |
//! | `following` | how ports update their connections, look for data, and are closed |
//! | `numbered_hub` | the hub with all that commands made in it |
//! | `service_step` | the commands on nodes and services |
//! | `room_arriving` | how ports are created, after the numbers of their loans and samples were reserved |
//! | `room_leaving` | how ports are closed, after which the numbers of a publisher's loans are free |
//! | `step` | one command, and its reply |
//! | `port_step` | one command of a port, and its reply |
//! | `room` | numbers of loans and samples that are reserved for ports, and capacity for them |
//! | `run` | a list of commands |
//! | `laws` | what follows if each service has one agreement |
//!
//! First calls, with nothing made yet. `NumberedHub` of `iox_hub_commands` makes the others.
//!
//! ```
//! let mut made = Made::new(alloc);
//! let reply = messages::release(&mut made, home, sample);
//! ```
//!
//! First calls. `Script` of `iox_script` makes the first two.
//!
//! ```
//! let mut hub = NumberedHub::<u64, ()>::new(alloc, config);
//! let reply = hub.step(alloc, Command::Node)?;
//! let report = hub.run(alloc, commands);
//! ```
#![tactic(auto)]

pub mod arriving;
pub mod following;
pub mod handlers;
pub mod laws;
pub mod lending;
pub mod messages;
mod naming;
pub mod numbered_hub;
mod port_step;
pub mod ports;
pub mod receiving;
pub mod replies;
pub mod room;
mod room_arriving;
mod room_leaving;
pub mod run;
mod service_step;
pub mod services;
mod step;

pub use crate::services::HubConfig;
pub use handlers::{
    FixedDegradation, FixedHandlers, NamedSlots, PublisherHandlers, SubscriberHandler,
};
pub use naming::{
    domain_of, first_length, most_loans, owner_of, publisher_config, publisher_handlers,
    subscriber_config, subscriber_handler,
};
pub use numbered_hub::NumberedHub;
pub use ports::Made;
pub use run::RunReport;
