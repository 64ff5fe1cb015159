//! The table of services: descriptions and locks under hashes, and the nodes of each service.
//!
//! | Module | What it has (lower modules first) |
//! |---|---|
//! | `node` | own and foreign nodes |
//! | `registry` | the nodes of a service |
//! | `segment` | a registry, until its last node leaves |
//! | `entry` | the entry under a hash |
//! | `table` | the table, and its own calls |
//! | `storage` | the table as a storage |
//!
//! First calls. The `Hub` of `iox_hub_base` contains such a table.
//!
//! ```
//! let mut table = Table::new(alloc, id);
//! let factory = builder.open_or_create(alloc, &mut table)?;
//! // a foreign node acts
//! table.act(&hash, &step)?;
//! ```
#![tactic(auto)]

pub mod acts;
pub mod entry;
pub mod laws;
pub mod node;
pub mod registry;
pub mod segment;
pub mod step;
pub mod steps;
pub mod storage;
pub mod table;

pub use entry::Entry;
pub use node::Node;
pub use step::ForeignStep;
pub use steps::{StepList, Stepped};
pub use table::Table;
