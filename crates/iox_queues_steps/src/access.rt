//! The shared words of a ring, and the accesses to them.
//!
//! One access reads or changes at most one shared word.
ghost use Rattle.std.specs.Prelude.{◌≡◌, ◌<◌, ◌≤◌, ◌%◌, ◌^◌, length, set, slice_index, if◌then◌else◌, ◌==◌};
ghost use Rattle.iox_queues_steps.specs.Access.{RingWords, word_of, after_store, answer_of, after_access};

use std::marker::Model;

/// A shared word of a ring.
#[derive(Clone, Copy)]
pub enum Word {
    /// How many numbers were put so far, which is the position of the next one.
    Write,
    /// How many numbers were taken or overflowed so far, which is the position of the oldest waiting number.
    Read,
    /// The cell of the number at this position.
    Cell(u64),
}

/// The access that a step makes to the shared words.
#[derive(Clone, Copy)]
pub enum Access {
    /// Reads the word; the result is its content.
    Load(Word),
    /// Writes the number into the word; the result is 0.
    Store(Word, u64),
    /// Writes the second number if the word holds the first; the result is the content before.
    Exchange(Word, u64, u64),
    /// Accesses no shared word; the result is 0.
    Local,
}

/// The words of a ring: two positions, and the cells, which the positions address modulo their number.
#[derive(Drop)]
pub struct Ring {
    cells: Vec<u64>,
    write: u64,
    read: u64,
}

impl Model for Ring {
    ghost use Rattle.iox_queues_steps.specs.Access.{RingWords};

    ghost Value = { RingWords };

    ghost view = { λ r. record { cells = r.cells.items; write = r.write; read = r.read } };
}

impl Ring {
    /// A ring with these cells and positions.
    pub fn new(cells: Vec<u64>, write: u64, read: u64) -> Ring
        ensures { result ≡ record { cells = cells.items; write = write; read = read } }
    {
        Ring { cells, write, read }
    }

    /// The content of the word.
    pub fn word(&self, word: Word) -> u64
        requires { 0 < length self.now.cells }
        ensures { result ≡ word_of self.now word }
    {
        match word {
            Word::Write => self.write,
            Word::Read => self.read,
            Word::Cell(position) => self.cells[(position % self.cells.len() as u64) as usize],
        }
    }

    /// The write position.
    pub fn write(&self) -> u64
        ensures { result ≡ self.now.write }
    {
        self.write
    }

    /// The read position.
    pub fn read(&self) -> u64
        ensures { result ≡ self.now.read }
    {
        self.read
    }

    fn store(&mut self, word: Word, value: u64)
        requires { 0 < length self.old.cells }
        ensures { self.new ≡ after_store self.old word value }
    {
        match word {
            Word::Write => self.write = value,
            Word::Read => self.read = value,
            Word::Cell(position) => {
                let index = (position % self.cells.len() as u64) as usize;
                self.cells[index] = value;
            }
        }
    }

    /// Makes the access, and returns its result.
    pub fn apply(&mut self, access: Access) -> u64
        requires { 0 < length self.old.cells }
        ensures answer { result ≡ answer_of self.old access }
        ensures after { self.new ≡ after_access self.old access }
    {
        match access {
            Access::Load(word) => self.word(word),
            Access::Store(word, value) => {
                self.store(word, value);
                0
            }
            Access::Exchange(word, old, new) => {
                let found = self.word(word);
                if found == old {
                    self.store(word, new);
                }
                found
            }
            Access::Local => 0,
        }
    }
}
