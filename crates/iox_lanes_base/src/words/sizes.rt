//! How many shared words a service has, and the number of each in one table.
ghost use Rattle.std.specs.Prelude.{◌≡◌, ◌<◌, ◌^◌, IfSome, None};
ghost use Rattle.iox_lanes_base.specs.Numbers.{words_of, ring_word_number, number_of, IsWord, IsSmall, AreApart, AreWithin};
ghost use Rattle.iox_lanes_base.specs.declared.words.word.SharedWord.TheVariants as SharedWord;

use crate::words::word::{ConnectionRing, SharedWord, SlotWord};
use iox_queues_steps::Word;

/// How many connections and slots a service has, and how many words each of these has.
#[derive(Clone, Copy)]
pub struct TableSizes {
    /// How many connections there are.
    pub connections: u64,
    /// The maximum number of cells of a submission ring.
    pub submission_cells: u64,
    /// The maximum number of cells of a completion ring.
    pub completion_cells: u64,
    /// How many slots all publishers have together.
    pub slots: u64,
    /// How many words a user header has.
    pub user_header_words: u64,
    /// How many words a payload has.
    pub payload_words: u64,
}

impl TableSizes {
    /// How many words the table has, with its first one, which isn't a word of the service. None if this count, or that of a connection or
    /// a slot, is 2^64 or more.
    pub fn words(&self) -> Option<u64>
        ensures some { IfSome result (λ words. (words ≡ words_of self.now) × IsSmall self.now) }
        ensures none { result ≡ None → IsSmall self.now → ⊥ }
    {
        let connection_words = 4u64
            .checked_add(self.submission_cells)?
            .checked_add(self.completion_cells)?;
        let slot_words = 3u64
            .checked_add(self.user_header_words)?
            .checked_add(self.payload_words)?;
        let slots_first = self
            .connections
            .checked_mul(connection_words)?
            .checked_add(1)?;
        self.slots.checked_mul(slot_words)?.checked_add(slots_first)
    }

    /// The number of a word in the table.
    #[tactic(auto, using(crate::proofs::Numbering::number_fits))]
    pub fn number(&self, word: SharedWord) -> u64
        requires word { IsWord self.now word }
        requires small { IsSmall self.now }
        ensures { result ≡ number_of self.now word }
    {
        match word {
            SharedWord::Ring {
                connection,
                ring,
                word,
            } => self.ring_number(connection, ring, word),
            SharedWord::Slot { slot, word } => self.slot_number(slot, word),
        }
    }

    fn ring_number(&self, connection: u64, ring: ConnectionRing, word: Word) -> u64
        requires small { IsSmall self.now }
        requires fits { number_of self.now (SharedWord.Ring connection ring word) < 2 ^ 64 }
        ensures { result ≡ number_of self.now (SharedWord.Ring connection ring word) }
    {
        let words = 4 + self.submission_cells + self.completion_cells;
        let offset = match ring {
            ConnectionRing::Submission => 0,
            ConnectionRing::Completion => 2 + self.submission_cells,
        };
        1 + connection * words + offset + ring_word_number(word)
    }

    fn slot_number(&self, slot: u64, word: SlotWord) -> u64
        requires small { IsSmall self.now }
        requires fits { number_of self.now (SharedWord.Slot slot word) < 2 ^ 64 }
        ensures { result ≡ number_of self.now (SharedWord.Slot slot word) }
    {
        let connection_words = 4 + self.submission_cells + self.completion_cells;
        let words = 3 + self.user_header_words + self.payload_words;
        let offset = match word {
            SlotWord::Header(word) => word,
            SlotWord::UserHeader(word) => 3 + word,
            SlotWord::Payload(word) => 3 + self.user_header_words + word,
        };
        1 + self.connections * connection_words + slot * words + offset
    }
}

// The number of a word within its ring.
fn ring_word_number(word: Word) -> u64
    requires { ring_word_number word < 2 ^ 64 }
    ensures { result ≡ ring_word_number word }
{
    match word {
        Word::Write => 0,
        Word::Read => 1,
        Word::Cell(cell) => 2 + cell,
    }
}

/// Theorem: no two words have the same number.
pub fn words_are_apart()
    ensures { AreApart }
{}

/// Theorem: each word has its number in the table, and none has number 0.
pub fn words_are_within()
    ensures { AreWithin }
{}
