//! A hub that records what it is asked and what it answers, for proofs alone: both are a run of the machine (`docs/MACHINE.md`).
//!
//! | Module | What it has |
//! |---|---|
//! | `laws` | theorems about recorded hubs |
//! | `loans` | how loans are made, written, dropped and sent |
//! | `named` | ports, factories, loans and samples with their numbers in the machine |
//! | `recorded_hub` | the hub |
//!
//! At run time it is just a hub: neither record nor numbers take memory. Messages are slices.
//!
//! First calls:
//!
//! ```
//! let mut hub = RecordedHub::<u64, ()>::new(alloc, config);
//! let Ok(node) = hub.new_node() else { return false; };
//! let service = hub.open_or_create(alloc, &node, name, &options, AttributeVerifier::new());
//! ```
mod calls;
mod history;
pub mod laws;
pub mod loans;
pub mod named;
pub mod recorded_hub;
mod services;

pub use named::Named;
pub use recorded_hub::RecordedHub;
