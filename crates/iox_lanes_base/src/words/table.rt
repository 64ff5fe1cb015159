//! The table of all shared words of a service.
ghost use Rattle.std.specs.Prelude.{◌≡◌, replicate, IfOk};
ghost use Rattle.iox_lanes_base.specs.Numbers.{words_of, IsSmall, IsWord};
ghost use Rattle.iox_lanes_base.specs.Table.{held_by, stored_in, shared_answer, after_shared, IsOfTable};

use crate::words::access::SharedAccess;
use crate::words::sizes::TableSizes;
use crate::words::word::SharedWord;
use std::alloc::{AllocError, Global};
use std::marker::Model;

/// The shared words of a service, all in one table.
#[derive(Drop)]
pub struct WordTable {
    sizes: TableSizes,
    words: Vec<u64>,
}

impl Model for WordTable {
    ghost use Rattle.std.specs.Prelude.{◌≡◌, length};
    ghost use Rattle.iox_lanes_base.specs.Numbers.{words_of, IsSmall};
    ghost use Rattle.iox_lanes_base.specs.Table.{TableWords};

    ghost Value = { TableWords };

    ghost view = { λ t. record { sizes = t.sizes; words = t.words.items } };

    ghost invariant = { λ t. (length t.words.items ≡ words_of t.sizes) × IsSmall t.sizes };
}

impl WordTable {
    /// A table whose words are all 0. `AllocError` is returned only where an allocation fails.
    pub fn new(alloc: Global, sizes: TableSizes) -> Result<WordTable, AllocError>
        ensures { IfOk result (λ made. made ≡ record { sizes = sizes; words = replicate (words_of sizes) 0 }) }
    {
        let Some(count) = sizes.words() else {
            return Err(AllocError);
        };
        let words = vec![in alloc; 0; count as usize]?;
        Ok(WordTable { sizes, words })
    }

    /// How many words of each kind the table has.
    pub fn sizes(&self) -> TableSizes
        ensures value { result ≡ self.now.sizes }
        ensures small { IsSmall result }
    {
        self.sizes
    }

    /// All words, by number.
    pub fn words(&self) -> &[u64]
        ensures { result.now ≡ self.now.words }
    {
        &self.words
    }

    /// The value of the word.
    #[tactic(auto, using(crate::proofs::Numbering::within))]
    pub fn word(&self, word: SharedWord) -> u64
        requires { IsWord self.now.sizes word }
        ensures { result ≡ held_by self.now word }
    {
        self.words[self.sizes.number(word) as usize]
    }

    #[tactic(auto, using(crate::proofs::Numbering::within))]
    fn store(&mut self, word: SharedWord, value: u64)
        requires { IsWord self.old.sizes word }
        ensures { self.new ≡ stored_in self.old word value }
    {
        let at = self.sizes.number(word) as usize;
        self.words[at] = value;
    }

    /// Makes the access, and returns its answer.
    pub fn apply(&mut self, access: SharedAccess) -> u64
        requires { IsOfTable self.old.sizes access }
        ensures answer { result ≡ shared_answer self.old access }
        ensures after { self.new ≡ after_shared self.old access }
    {
        match access {
            SharedAccess::Load(word) => self.word(word),
            SharedAccess::Store(word, value) => {
                self.store(word, value);
                0
            }
            SharedAccess::Exchange(word, old, new) => {
                let found = self.word(word);
                if found == old {
                    self.store(word, new);
                }
                found
            }
            SharedAccess::Local => 0,
        }
    }
}
