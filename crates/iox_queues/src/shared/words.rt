//! The shared words of a queue or a single value, and the flags of the roles that are taken.
ghost use Rattle.std.specs.Prelude.{◌≡◌, Some, None, nat_le, if◌then◌else◌};

use iox_queues_base::Words;
use iox_queues_steps::{Access, Memory, Word};
use std::sync::atomic::{AtomicBool, AtomicU64, Ordering};

/// The maximum number of words of a shared value.
pub const LARGEST: usize = 16;

/// Two positions, and cells of `width` words each, which the positions address modulo their number.
#[derive(Drop)]
pub struct SharedWords {
    cells: Vec<AtomicU64>,
    count: usize,
    width: usize,
    pub(crate) write: AtomicU64,
    read: AtomicU64,
    pub(crate) producer_taken: AtomicBool,
    pub(crate) consumer_taken: AtomicBool,
}

impl SharedWords {
    pub(crate) fn new(cells: Vec<AtomicU64>, count: usize, width: usize) -> SharedWords {
        SharedWords {
            cells,
            count,
            width,
            write: AtomicU64::new(0),
            read: AtomicU64::new(0),
            producer_taken: AtomicBool::new(false),
            consumer_taken: AtomicBool::new(false),
        }
    }

    /// The cell that is written next.
    pub(crate) fn next_cell(&self) -> &[AtomicU64] {
        self.cell(self.write.load(Ordering::SeqCst))
    }

    /// Advances the write position past the cell that was written.
    pub(crate) fn advance(&mut self) {
        let write = self.write.load(Ordering::SeqCst);
        self.write.store(write.saturating_add(1), Ordering::SeqCst);
    }

    /// The words of the cell at this position.
    fn cell(&self, position: u64) -> &[AtomicU64] {
        let count = self.count as u64;
        if count == 0 {
            return &[];
        }
        let start = ((position % count) as usize).saturating_mul(self.width);
        match self.cells.get(start..start.saturating_add(self.width)) {
            Some(words) => words,
            None => &[],
        }
    }

    #[inline(always)]
    fn word(&self, word: Word) -> Option<&AtomicU64> {
        match word {
            Word::Write => Some(&self.write),
            Word::Read => Some(&self.read),
            Word::Cell(position) => {
                let cells = self.cells.len() as u64;
                if cells == 0 {
                    return None;
                }
                self.cells.get((position % cells) as usize)
            }
        }
    }

    /// Makes the access to one word, and returns its result.
    #[inline(always)]
    pub(crate) fn apply(&self, access: Access) -> u64 {
        match access {
            Access::Load(word) => match self.word(word) {
                Some(atomic) => atomic.load(Ordering::SeqCst),
                None => 0,
            },
            Access::Store(word, value) => {
                if let Some(atomic) = self.word(word) {
                    atomic.store(value, Ordering::SeqCst);
                }
                0
            }
            Access::Exchange(word, old, new) => match self.word(word) {
                Some(atomic) => exchange(atomic, old, new),
                None => 0,
            },
            Access::Local => 0,
        }
    }

    /// Stores the value's words one after another.
    pub(crate) fn store_value<T: Words>(&self, position: u64, value: &T) {
        fill(self.cell(position), value);
    }

    /// Loads the words of a value one after another.
    pub(crate) fn load_value<T: Words>(&self, position: u64) -> Option<T> {
        let mut words = [0u64; LARGEST];
        for (word, atomic) in words.iter_mut().zip(self.cell(position).iter()) {
            *word = atomic.load(Ordering::SeqCst);
        }
        Some(T::of_words(words.get(..T::WORDS)?))
    }
}

/// The words of a queue of numbers, as the memory of a call. Nothing is proved of what other threads stored.
#[derive(Drop)]
pub(crate) struct Numbers<'a> {
    pub(crate) words: &'a SharedWords,
}

impl Memory for Numbers<'_> {
    ghost answers = { λ before access answer after. Unit {0} };

    #[inline(always)]
    fn apply(&mut self, access: Access) -> u64 {
        self.words.apply(access)
    }
}

/// The words of a queue of values, as the memory of a call. An access to a cell accesses the words of `value` one after another.
#[derive(Drop)]
pub(crate) struct Values<'a, T: Words> {
    pub(crate) words: &'a SharedWords,
    pub(crate) value: Option<T>,
}

impl<T: Words> Memory for Values<'_, T> {
    ghost answers = { λ before access answer after. Unit {0} };

    #[inline(always)]
    fn apply(&mut self, access: Access) -> u64 {
        match access {
            Access::Store(Word::Cell(position), _) => {
                if let Some(value) = self.value {
                    self.words.store_value(position, &value);
                }
                0
            }
            Access::Load(Word::Cell(position)) => {
                self.value = self.words.load_value(position);
                0
            }
            access => self.words.apply(access),
        }
    }
}

/// Stores the value's words into a cell.
pub(crate) fn fill<T: Words>(cell: &[AtomicU64], value: &T) {
    for i in 0..T::WORDS {
        if let Some(atomic) = cell.get(i) {
            atomic.store(value.word(i), Ordering::SeqCst);
        }
    }
}

/// How many words a cell of such values has; `None` if they are more than can be shared.
pub(crate) fn width_of<T: Words>() -> Option<usize>
    ensures { result ≡ (if nat_le T.WORDS 16 then Some T.WORDS else None) }
{
    if T::WORDS <= LARGEST {
        Some(T::WORDS)
    } else {
        None
    }
}

fn exchange(atomic: &AtomicU64, old: u64, new: u64) -> u64 {
    match atomic.compare_exchange(old, new, Ordering::SeqCst, Ordering::SeqCst) {
        Ok(found) => found,
        Err(found) => found,
    }
}
