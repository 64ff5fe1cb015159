//! Byte cells: values that are copied byte by byte, so that a reader beside a writer may see some bytes of one value
//! and some of another.
//!
//! | Module | What it has |
//! |---|---|
//! | `coded` | `Coded`: values with an encoding of fixed size |
//! | `byte_atomic` | `FixedSizeByteAtomic`: a value's bytes in a cell |
//! | `maybe_torn` | `MaybeTorn`: bytes that were read one by one, and may not be the encoding of any value |
//! | `byte_machine` | `ByteMachine`: a model of the cell that makes one byte step at a time |
//!
//! A first call:
//!
//! ```
//! /// `iox_container`: stores a value byte by byte, and reads it back.
//! fn stored(value: u64) -> Option<u64>
//!     ensures { result ≡ Some value }
//! {
//!     FixedSizeByteAtomic::<u64, 8>::new(value)
//!         .read()
//!         .assume_consistent()
//! }
//! ```

mod byte_atomic;
mod byte_machine;
mod coded;
mod maybe_torn;

pub use byte_atomic::FixedSizeByteAtomic;
pub use byte_machine::{ByteAnswer, ByteMachine, ByteStep};
pub use coded::Coded;
pub use maybe_torn::MaybeTorn;
