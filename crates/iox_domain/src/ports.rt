//! The ports of one service by their numbers: the lists of ports, the ports with their connections, and what each call of a
//! port does to them.
//!
//! - [`roll`]: the list of the ports of one kind.
//! - [`subscribers`]: the subscribers of a service by their numbers.
//! - [`service_ports`]: the ports of a service.
//! - [`making`]: a publisher and a subscriber are created.
//! - [`lending`]: a publisher loans a slot, what is to be sent is written there, and a loan is dropped.
//! - [`putting`]: a publisher loans values, writes and sends them at once.
//! - [`publishing`]: a publisher follows the subscribers, sends and is closed.
//! - [`subscribing`]: a subscriber follows the publishers, receives, releases and is closed.
//! - [`reading`]: what is read of a sample.
//! - [`living`]: how much is alive.
//!
//! First calls, of a publisher:
//!
//! ```
//! if let Some(Ok(slot)) = ports.loan(alloc, number, 1, 1, blank) {
//!     ports.write_payload(number, slot, value);
//!     let sent = ports.send(alloc, number, slot, handlers);
//!     return sent;
//! }
//! None
//! ```

pub mod lending;
pub mod living;
pub mod making;
pub mod publishing;
pub mod putting;
pub mod reading;
pub mod roll;
pub mod service_ports;
pub mod subscribers;
pub mod subscribing;

pub use iox_domain_ports::{Sent, Taken};
pub use making::{PublisherConfig, SubscriberConfig};
pub use roll::Roll;
pub use service_ports::ServicePorts;
pub use subscribers::Subscribers;
