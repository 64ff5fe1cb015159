//! Queues and bit sets: sequential, shared among threads, and as machines that make one access at a time.
//!
//! - [`shared`]: queues and single values that threads share, based on atomics.
//! - [`bits`]: bit sets that are accessed one word at a time (also [`sets`]).
//! - [`values`]: tables of values, from which step machines take a value by its number.
//! - The sequential forms come from `iox_queues_base`. The types of steps and the rings by steps come from `iox_queues_steps` (here
//!   [`rings`], with the ends of each kind in [`overflowing`] and [`refusing`]).
//!
//! A first call:
//!
//! ```
//! /// `iox_queues`: shares a queue and pushes a number; its capacity stays the same. If memory runs out, the queue is
//! /// returned.
//! fn shared_with(
//!     alloc: Global,
//!     queue: IndexQueue,
//!     number: u64,
//! ) -> Result<Shared<IndexQueue>, IndexQueue>
//!     ensures room { IfOk result (λ shared. shared.limit ≡ queue.capacity) }
//!     ensures back { IfErr result (λ back. back ≡ queue) }
//! {
//!     let shared = queue.share(alloc)?;
//!     if let Some(mut producer) = shared.acquire_producer() {
//!         producer.push(number);
//!     }
//!     Ok(shared)
//! }
//! ```
#![tactic(auto)]

pub mod bits;
pub mod overflowing;
pub mod refusing;
pub mod rings;
pub mod sets;
pub mod shared;
pub mod values;

pub use iox_queues_base::{
    BitSet, BitState, CountingBitSet, FixedSizeBitSet, FixedSizeCountingBitSet,
    FixedSizeIndexQueue, FixedSizeSafelyOverflowingIndexQueue, IndexQueue, Queue,
    SafelyOverflowingIndexQueue, UnrestrictedAtomic, Words,
};
pub use iox_queues_steps::rings::{RingKind, RingMachine};
pub use iox_queues_steps::{
    Access, Act, Call, End, Event, Move, Party, Placed, PopAnswer, PopCall, PushAnswer, PushCall,
    Ring, Stepped, Word,
};
pub use shared::{Consumer, Producer, Share, Shared};
