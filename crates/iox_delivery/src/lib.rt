//! The ports of a service as values: a publisher loans a sample, which is written and sent; a subscriber receives it, and the
//! sample is read and released. Each call takes the home that contains the domain of the port: `home` is a hub, or that domain by itself.
//!
//! - [`port_id`]: the id of a port.
//! - [`kind`]: single values and slices, the kinds of payload of all types below.
//! - [`port`]: what publishers and subscribers have in common.
//! - [`publisher`]: a publisher.
//! - [`loan`]: what loans have in common.
//! - [`sample_mut_uninit`]: a loan that isn't written yet.
//! - [`sample_mut`]: a loan that is written.
//! - [`sent`]: what a send answers, and a blocked send.
//! - [`subscriber`]: a subscriber.
//! - [`sample`]: a message that was received.
//! - [`update_connections`]: the trait of ports that follow those of the other side.
//! - [`publishing`], [`lending`], [`subscribing`]: what ports of single values and of slices have in common, by port, slot and
//!   message.
//! - [`slices`]: publishers, subscribers, loans and samples of slices.
//! - [`laws`]: what a loan is that was just made; what may be sent, and what may be read.
//!
//! Publishers and subscribers are copied, as numbers are. A loan, a sample and a blocked send are consumed by the call that
//! ends them. `drop_with` returns what isn't in the home: it can be dropped in its own home, or forgotten.
//!
//! First calls, of a publisher and of a subscriber; a hub is a home, too:
//!
//! ```
//! let loan = publisher.loan_uninit(alloc, home).ok()?;
//! let sample = loan.write_payload(home, 7);
//! if !sample.holds(home) || sample.is_blocked(home) {
//!     if let Err(kept) = sample.drop_with(home) {
//!         kept.into_slot();
//!     }
//!     return None;
//! }
//! match sample.send(alloc, home) {
//!     Ok(Sent::Delivered(count)) => Some(count),
//!     Ok(Sent::Blocked(blocked)) => {
//!         if let Err(kept) = blocked.drop_with(home) {
//!             kept.into_port();
//!         }
//!         None
//!     }
//!     Err(_) => None,
//! }
//! // the subscriber's side
//! let sample = subscriber.receive(alloc, home).ok()??;
//! if !sample.holds(home) {
//!     sample.into_taken();
//!     return None;
//! }
//! let value = *sample.payload(home);
//! sample.release(home);
//! Some(value)
//! ```
#![tactic(auto)]

pub mod kind;
pub mod laws;
pub mod lending;
pub mod loan;
pub mod port;
pub mod port_id;
pub mod publisher;
pub mod publishing;
pub mod sample;
pub mod sample_mut;
pub mod sample_mut_uninit;
pub mod sent;
pub mod slices;
pub mod subscriber;
pub mod subscribing;
pub mod update_connections;

pub use port_id::PortId;
pub use publisher::Publisher;
pub use sample::Sample;
pub use sample_mut::SampleMut;
pub use sample_mut_uninit::SampleMutUninit;
pub use sent::{BlockedSend, Sent};
pub use subscriber::Subscriber;
pub use update_connections::UpdateConnections;
