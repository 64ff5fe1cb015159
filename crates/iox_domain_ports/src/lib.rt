//! One publisher with its messages and connections, and one subscriber over the publishers of its service.
//!
//! - [`messages`]: a publisher's messages and loans by their contents, over the slots that they are in.
//! - [`ties`]: which connection each place of a list is tied to.
//! - [`meeting`]: what a message meets at a place, and what a send answers.
//! - [`reader`]: to whom a connection leads.
//! - [`readers`]: to whom each connection of a publisher leads.
//! - [`subscriber_entry`]: an entry of the list of subscribers.
//! - [`progress`]: how far a send is.
//! - [`publisher_port`]: a publisher.
//! - [`connecting`]: a publisher's connections are made and ended.
//! - [`leaving`]: a publisher is created and closed.
//! - [`lengths`]: the lengths of loans and segments, counted in elements.
//! - [`loaning`]: a publisher loans a slot.
//! - [`writing`]: what is in a loan is written and read, and a loan is dropped.
//! - [`publisher_laws`]: theorems about the steps of a publisher.
//! - [`publisher_updating`]: a publisher follows the list of subscribers.
//! - [`sending`]: a publisher sends.
//! - [`reading`]: what a subscriber does at one publisher.
//! - [`publishers`]: the publishers of a service by their numbers.
//! - [`keys`]: the keys of connections in an order.
//! - [`attached`]: the connections from which a subscriber reads.
//! - [`subscriber_port`]: a subscriber.
//! - [`receiving`]: a subscriber receives.
//! - [`publisher_entry`]: an entry of the list of publishers.
//! - `expired`: how a subscriber searches its expired connections.
//! - [`following`]: a subscriber follows one place of the list of publishers.
//! - [`subscriber_updating`]: a subscriber follows the whole list.
//! - [`living`]: how much is alive.
//! - [`tallies`]: a count for each number, in room that is made before.
//! - [`census`]: how much of each owner is alive, counted as ports change.
//! - [`subscriber_laws`]: theorems about the steps of a subscriber.
//!
//! First calls, of a publisher and of a subscriber. `ServicePorts` of `iox_domain` makes them.
//!
//! ```
//! port.write(slot, place, value);
//! let sent = port.send(alloc, slot, list.places(), list.changes(), &handlers);
//! ```
//!
//! ```
//! let taken = port.receive(
//!     alloc,
//!     list.places(),
//!     list.changes(),
//!     &handler,
//!     &mut publishers,
//! )?;
//! ```
#![tactic(auto)]

pub mod attached;
pub mod census;
pub mod connecting;
mod expired;
pub mod following;
pub mod keys;
pub mod leaving;
pub mod lengths;
pub mod living;
pub mod loaning;
pub mod meeting;
pub mod messages;
pub mod progress;
pub mod publisher_entry;
pub mod publisher_laws;
pub mod publisher_port;
pub mod publisher_updating;
pub mod publishers;
pub mod reader;
pub mod readers;
pub mod reading;
pub mod receiving;
pub mod sending;
pub mod subscriber_entry;
pub mod subscriber_laws;
pub mod subscriber_port;
pub mod subscriber_updating;
pub mod tallies;
pub mod ties;
pub mod writing;

pub use attached::{Attached, Taken};
pub use census::{Census, Share};
pub use keys::Keys;
pub use meeting::{Meeting, Sent};
pub use messages::{Member, SenderConfig};
pub use progress::Progress;
pub use publisher_entry::PublisherEntry;
pub use publisher_port::PublisherPort;
pub use publishers::Publishers;
pub use reader::Reader;
pub use readers::Readers;
pub use subscriber_entry::SubscriberEntry;
pub use subscriber_port::SubscriberPort;
pub use tallies::Tallies;
pub use ties::Ties;
