//! Numbered factories: the services that a run of commands opened, and what later commands do with them.
//!
//! | Module | What it has |
//! |---|---|
//! | `requests` | what a command asks of negotiation |
//! | `made` | a service that is open, whatever its pattern |
//! | `kinds` | what options of each pattern ask, and how its errors are reported |
//! | `factories` | the table: which factory has a number |
//! | `asked` | which service is asked for |
//! | `refusing` | the settings with which no service can be created, and what the first lookup decides |
//! | `creating` | how services are created |
//! | `opening` | how services are opened |
//! | `either` | how services are opened or created |
//! | `opening_call` | what the calls that create and open services have in common |
//! | `closing` | how factories are closed |
//! | `acting` | actions of other nodes |
//! | `laws` | a theorem about the numbers of factories |
//!
//! First calls, with nothing opened yet. `NumberedHub` of `iox_hub_commands` makes the others.
//!
//! ```
//! let mut factories = Factories::new(alloc);
//! let closed = factories.close(hub, number);
//! ```

pub mod acting;
pub mod asked;
pub mod closing;
pub mod creating;
pub mod either;
pub mod factories;
mod kinds;
pub mod laws;
pub mod made;
pub mod opening;
mod opening_call;
pub mod refusing;
pub mod requests;

pub use acting::foreign;
pub use asked::ServiceAsked;
pub use factories::Factories;
pub use iox_hub_base::{Hub, HubConfig};
pub use made::MadeFactory;
