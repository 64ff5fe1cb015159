//! The two ends of the ring that refuses a push when it is full, one word at a time.
//!
//! Ported from `IndexQueue` of iceoryx2. Each end is independent of any ring: it says which access comes next, and takes the result of that
//! access.
//!
//! First calls, through the trait `End`; a `RingMachine` makes these calls itself.
//!
//! ```
//! let answer = ring.apply(pop.next());
//! let pop = pop.take(answer);
//! ```

pub mod pop;
pub mod push;

pub use pop::Pop;
pub use push::Push;
