//! Queues of fixed capacity, bit sets, counters and single values, for one thread at a time.
//!
//! - [`words`]: values that are copied as 64-bit words.
//! - [`index_queue`]: queues of numbers; when full, they refuse a push or remove the oldest number.
//! - [`value_queue`]: queues of values of any type that is copied as words.
//! - [`bits`]: sets of numbers, and counters for numbers.
//! - [`atomic`]: a single value that is stored and loaded whole.
//!
//! A first call:
//!
//! ```
//! /// `iox_queues_base`: puts a number into an empty queue, and takes it out again.
//! fn passed(queue: &mut IndexQueue, number: u64) -> Option<u64>
//!     requires empty { queue.old.waiting ≡ [] }
//!     requires room { 0 < queue.old.capacity }
//!     ensures same { result ≡ Some number }
//!     ensures empty { queue.new ≡ queue.old }
//! {
//!     queue.push(number);
//!     queue.pop()
//! }
//! ```
#![tactic(auto)]

pub mod atomic;
pub mod bits;
pub mod index_queue;
pub mod value_queue;
pub mod words;

pub use atomic::UnrestrictedAtomic;
pub use bits::{BitSet, BitState, CountingBitSet, FixedSizeBitSet, FixedSizeCountingBitSet};
pub use index_queue::{
    FixedSizeIndexQueue, FixedSizeNumberQueue, FixedSizeSafelyOverflowingIndexQueue, IndexQueue,
    NumberQueue, Overflowing, Refusing, SafelyOverflowingIndexQueue,
};
pub use value_queue::Queue;
pub use words::{OneWord, Words};
