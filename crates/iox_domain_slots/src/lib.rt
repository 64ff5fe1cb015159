//! Who uses the slots of one publisher: its loans, its history, the message that it sends, and what its connections hold.
//!
//! No payload is kept here: a message is identified by the number of its slot.
//!
//! - [`slots`]: which slots are free, and how many uses the others have.
//! - `places`: which slots of the current segment are held.
//! - `loans`: which slots are loaned, in their order.
//! - `borrowed`: which slots are borrowed from a connection, in their order.
//! - [`mailbox`]: what waits between a publisher and a subscriber.
//! - [`link`]: a connection: its mailbox, the slots borrowed from it, and those returned to it.
//! - [`links`]: the connections of a publisher.
//! - [`uses`]: all of one publisher together.
//!
//! First calls. `Sender` of `iox_domain_ports` makes them.
//!
//! ```
//! if uses.slots().may_loan() {
//!     let slot = uses.loan();
//! }
//! ```
#![tactic(auto)]

mod borrowed;
pub mod link;
pub mod links;
mod loans;
pub mod mailbox;
mod places;
pub mod slots;
pub mod stage;
pub mod uses;

pub use iox_container::Member;
pub use slots::Slots;
pub use stage::Stage;
pub use uses::SlotUses;
