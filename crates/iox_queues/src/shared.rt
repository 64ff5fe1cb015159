//! Queues and single values that threads share, based on atomics.
//!
//! Each push and pop makes the accesses of its step machine, one after another. Every call is memory-safe and returns. Nothing is proved of
//! the values that other threads stored.
//!
//! - [`words`]: the shared words.
//! - [`calls`]: a push, a pop, a store or a load as one run of its call.
//! - [`index`]: the queues of numbers.
//! - [`value`]: the queue of values of any type that is copied as words.
//! - [`atomic`]: the single value; [`single`]: its store and load, one access at a time.
pub mod atomic;
pub(crate) mod calls;
pub mod index;
pub(crate) mod single;
pub mod value;
pub mod words;

ghost use Rattle.std.specs.Prelude.{◌≡◌, ℕ, IfErr, IfOk, IfSome};

use std::alloc::{AllocError, Global};
use std::marker::PhantomData;
use std::sync::atomic::{AtomicU64, Ordering};
use words::SharedWords;

/// A pop gives up after it lost this many exchanges. A load gives up after the position moved this many times meanwhile.
pub const LOST_TURNS: u32 = 1 << 20;

/// A structure that can be shared: its values are stored in cells of words.
pub trait Shareable: Drop + Sized {
    // how many values may wait
    ghost room: { Self → ℕ };

    /// How many words a cell has; `None` if a value has more words than can be shared.
    fn width(&self) -> Option<usize>;

    /// How many cells there are.
    fn cells(&self) -> usize;

    /// The maximum number of waiting values.
    fn limit(&self) -> u64
        ensures { result ≡ room self.now };

    /// Moves the oldest value into a cell and returns true, or returns false if no value is left.
    fn pour(&mut self, cell: &[AtomicU64]) -> bool;
}

/// A queue that can be shared. Unlike a single value, it has an end that takes values out.
pub trait SharedQueue: Shareable {}

/// A shared queue or a shared single value, whose two roles different threads may take.
#[derive(Drop)]
pub struct Shared<Q> {
    words: SharedWords,
    limit: u64,
    form: PhantomData<Q>,
}

/// Moves the words of a queue or a single value to memory that threads can share.
pub trait Share: Shareable {
    /// Makes the shared form, which has the waiting values. The value itself is returned unchanged if memory runs out, or if one value has
    /// more than 16 words.
    fn share(self, alloc: Global) -> Result<Shared<Self>, Self>
        ensures back { IfErr result (λ q. q ≡ self) }
        ensures room { IfOk result (λ s. s.limit ≡ Self.room self) };
}

impl<Q: Shareable> Share for Q {
    fn share(self, alloc: Global) -> Result<Shared<Q>, Q> {
        let mut form = self;
        let Some(width) = form.width() else {
            return Err(form);
        };
        let count = form.cells();
        let Some(len) = count.checked_mul(width) else {
            return Err(form);
        };
        let Ok(cells) = zeros(alloc, len) else {
            return Err(form);
        };
        let limit = form.limit();
        let mut words = SharedWords::new(cells, count, width);
        for _ in 0..count {
            if !form.pour(words.next_cell()) {
                break;
            }
            words.advance();
        }
        Ok(Shared {
            words,
            limit,
            form: PhantomData,
        })
    }
}

fn zeros(alloc: Global, count: usize) -> Result<Vec<AtomicU64>, AllocError> {
    let mut cells = Vec::with_capacity(alloc, count)?;
    for _ in 0..count {
        cells.push(AtomicU64::new(0))?;
    }
    Ok(cells)
}

impl<Q> Shared<Q> {
    /// The maximum number of waiting values.
    pub fn capacity(&self) -> u64
        ensures { result ≡ self.now.limit }
    {
        self.limit
    }

    /// Takes the role that pushes or stores; `None` while another guard has it. Dropping the guard returns the role.
    pub fn acquire_producer(&self) -> Option<Producer<'_, Q>>
        ensures { IfSome result (λ p. p.limit ≡ self.now.limit) }
    {
        if self.words.producer_taken.swap(true, Ordering::SeqCst) {
            return None;
        }
        Some(Producer {
            words: &self.words,
            limit: self.limit,
            form: PhantomData,
        })
    }
}

impl<Q: SharedQueue> Shared<Q> {
    /// Takes the role that pops; `None` while another guard has it. Dropping the guard returns the role.
    pub fn acquire_consumer(&self) -> Option<Consumer<'_, Q>> {
        if self.words.consumer_taken.swap(true, Ordering::SeqCst) {
            return None;
        }
        Some(Consumer {
            words: &self.words,
            form: PhantomData,
        })
    }
}

/// The role that pushes or stores.
pub struct Producer<'a, Q> {
    words: &'a SharedWords,
    limit: u64,
    form: PhantomData<Q>,
}

impl<Q> Drop for Producer<'_, Q> {
    fn drop(self) {
        self.words.producer_taken.store(false, Ordering::SeqCst);
        let Producer {
            words: _,
            limit: _,
            form: _,
        } = self;
    }
}

/// The role that pops.
pub struct Consumer<'a, Q> {
    words: &'a SharedWords,
    form: PhantomData<Q>,
}

impl<Q> Drop for Consumer<'_, Q> {
    fn drop(self) {
        self.words.consumer_taken.store(false, Ordering::SeqCst);
        let Consumer { words: _, form: _ } = self;
    }
}
