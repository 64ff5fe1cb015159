//! The commands of a hub and its replies: one variant of `Command` for each kind of line, and one of `Reply` for each kind of
//! reply.
//!
//! | Module | What it has |
//! |---|---|
//! | `command` | the commands |
//! | `service` | the options of a service that a command creates or opens, by its pattern |
//! | `port` | the options of a publisher and of a subscriber |
//! | `ports` | the commands of existing ports |
//! | `step` | the actions of other nodes between the storage operations of a command |
//! | `steps` | a list of actions of other nodes |
//! | `values` | the values of a message |
//! | `reply` | the replies |
//! | `refusal` | why a command failed |
//!
//! A first call:
//!
//! ```
//! /// `iox_line`: the line of a reply.
//! fn line_of(alloc: Global, reply: &Reply<u64>) -> Result<Vec<u8>, AllocError>
//!     ensures { IfOk result (λ line. line.items ≡ reply_text reply.now) }
//! {
//!     let mut line = Vec::new(alloc);
//!     print_reply(reply, &mut line)?;
//!     Ok(line)
//! }
//! ```
#![tactic(auto)]

pub mod command;
pub mod port;
pub mod ports;
pub mod refusal;
pub mod reply;
pub mod service;
pub mod step;
pub mod steps;
pub mod values;

pub use command::Command;
pub use port::{PortNumber, PublisherOptions, SubscriberOptions};
pub use ports::PortCommand;
pub use refusal::{HubError, Refusal};
pub use reply::Reply;
pub use service::{
    EventOptions, NumberOrOff, PublishSubscribeOptions, RequestResponseOptions, ServiceOptions,
};
pub use step::{ForeignStep, StepBefore};
pub use steps::Steps;
pub use values::Values;
