//! The shared words of one service, and one access to one of them.
//!
//! Each connection has two rings: the submission ring has the messages sent, the completion ring the samples released. Each slot has the
//! words of its header, its user header and its payload. All words have numbers, and are side by side in one table.
//!
//! - [`word`]: the words.
//! - [`access`]: one access to one of them.
//! - [`sizes`]: how many words there are, and the number of each in a table.
//! - [`table`]: the table.
//!
//! First calls. `LaneMachine` of `iox_lanes_machine` makes them.
//!
//! ```
//! let mut table = WordTable::new(alloc, sizes)?;
//! let answer = table.apply(access);
//! ```

pub mod access;
pub mod sizes;
pub mod table;
pub mod word;

pub use access::SharedAccess;
pub use sizes::TableSizes;
pub use table::WordTable;
pub use word::{ConnectionRing, SharedWord, SlotWord};
