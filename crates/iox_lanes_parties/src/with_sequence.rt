//! A user header with the sequence number of its message.
//!
//! If the service has sequence numbers, a word with the number comes directly before the user header. Then what is written and read there
//! is a value of this type:
//!
//! ```
//! let header = WithSequence { sequence: 0, user_header };
//! let write = Call::write(alloc, loan, &value, &header)?;
//! let values = values_in::<u64, WithSequence<u8>>(lane.words_read());
//! ```
ghost use Rattle.std.specs.Prelude.{◌≡◌, ◌<◌, ◌^◌, ◌+◌, ◌∷◌, drop, slice_index};
ghost use Rattle.std.proofs.Common.{ap};
ghost use Rattle.iox_lanes_parties.specs.FewWords.{no-words-few, one-more, one-word-few, two-words-few};

use iox_queues_base::Words;

/// A value to whose words one more can be added in front: its words and that one are fewer than 2^64.
pub trait FewWords: Words {
    ghost few: { 1 + Self.WORDS < 2 ^ 64 };
}

/// A user header, and the sequence number of its message. It doesn't matter which number is written: the send of the loan sets it.
#[derive(Clone, Copy)]
pub struct WithSequence<U> {
    /// The sequence number of the message.
    pub sequence: u64,
    /// The user header.
    pub user_header: U,
}

/// The word of the sequence number, followed by those of the user header.
impl<U: FewWords> Words for WithSequence<U> {
    ghost parts = { λ x. x.sequence ∷ U.parts x.user_header };

    ghost of_parts = { λ ws. record { sequence = slice_index ws 0; user_header = U.of_parts (drop 1 ws) } };

    ghost is_value = { λ x. (x.sequence < 2 ^ 64) × U.is_value x.user_header };

    const WORDS: usize = 1 + U::WORDS;

    ghost WORDS = { 1 + U.WORDS };

    fn word(&self, i: usize) -> u64 {
        if i == 0 {
            self.sequence
        } else {
            self.user_header.word(i - 1)
        }
    }

    fn of_words(words: &[u64]) -> WithSequence<U> {
        WithSequence {
            sequence: words[0],
            user_header: U::of_words(&words[1..]),
        }
    }

    fn shows(&self) {
        let _sequence = self.sequence;
        self.user_header.shows();
    }

    ghost as_many = { λ x. one-more U.WORDS x.sequence (U.parts x.user_header) (U.as_many x.user_header) };

    ghost given_back = { λ x h. ap (λ header. record { sequence = x.sequence; user_header = header }) (U.given_back x.user_header h.1) };
}

impl FewWords for () {
    ghost few = { no-words-few };
}

impl FewWords for u8 {
    ghost few = { one-word-few };
}

impl FewWords for u16 {
    ghost few = { one-word-few };
}

impl FewWords for u32 {
    ghost few = { one-word-few };
}

impl FewWords for u64 {
    ghost few = { one-word-few };
}

impl FewWords for usize {
    ghost few = { one-word-few };
}

impl FewWords for i8 {
    ghost few = { one-word-few };
}

impl FewWords for i16 {
    ghost few = { one-word-few };
}

impl FewWords for i32 {
    ghost few = { one-word-few };
}

impl FewWords for i64 {
    ghost few = { one-word-few };
}

impl FewWords for isize {
    ghost few = { one-word-few };
}

impl FewWords for f32 {
    ghost few = { one-word-few };
}

impl FewWords for f64 {
    ghost few = { one-word-few };
}

impl FewWords for bool {
    ghost few = { one-word-few };
}

impl FewWords for char {
    ghost few = { one-word-few };
}

impl FewWords for u128 {
    ghost few = { two-words-few };
}

impl FewWords for i128 {
    ghost few = { two-words-few };
}
