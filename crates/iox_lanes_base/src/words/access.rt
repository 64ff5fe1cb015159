//! What a step does with the shared words.
ghost use Rattle.std.specs.Prelude.{◌≡◌, ◌%◌};
ghost use Rattle.iox_lanes_base.specs.Words.{on_ring, in_ring};

use crate::words::word::{ConnectionRing, SharedWord};
use iox_queues_steps::{Access, Word};

/// What a step does with the shared words: it touches at most one of them.
#[derive(Clone, Copy)]
pub enum SharedAccess {
    /// Reads the word; the answer is its value.
    Load(SharedWord),
    /// Writes the number into the word; the answer is 0.
    Store(SharedWord, u64),
    /// Writes the second number if the word contains the first; the answer is the word's value before.
    Exchange(SharedWord, u64, u64),
    /// Touches no shared word; the answer is 0.
    Local,
}

impl SharedAccess {
    /// The access that an end of a ring with this many cells makes, as one to this ring of a connection.
    pub fn on_ring(
        connection: u64,
        ring: ConnectionRing,
        cells: u64,
        access: Access,
    ) -> SharedAccess
        ensures { result ≡ on_ring connection ring cells access }
    {
        match access {
            Access::Load(word) => SharedAccess::Load(in_ring(connection, ring, cells, word)),
            Access::Store(word, value) => {
                SharedAccess::Store(in_ring(connection, ring, cells, word), value)
            }
            Access::Exchange(word, old, new) => {
                SharedAccess::Exchange(in_ring(connection, ring, cells, word), old, new)
            }
            Access::Local => SharedAccess::Local,
        }
    }
}

// A word of the ring as a shared word; positions go round its cells.
fn in_ring(connection: u64, ring: ConnectionRing, cells: u64, word: Word) -> SharedWord
    ensures { result ≡ in_ring connection ring cells word }
{
    let word = match word {
        Word::Write => Word::Write,
        Word::Read => Word::Read,
        Word::Cell(position) => Word::Cell(round(position, cells)),
    };
    SharedWord::Ring {
        connection,
        ring,
        word,
    }
}

// The cell of a position; if the ring has no cells, the position itself.
#[tactic(auto, using(crate::proofs::Rounds::no_cells))]
fn round(position: u64, cells: u64) -> u64
    ensures { result ≡ position % cells }
{
    if cells == 0 {
        return position;
    }
    position % cells
}
