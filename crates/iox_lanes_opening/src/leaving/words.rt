//! Reads a message from the words of a slot.
ghost use Rattle.std.specs.Prelude.{◌≡◌, ◌+◌, ◌≤◌, ◌<◌, length, take, drop, slice_index, Some};
ghost use Rattle.iox_lanes_machine.specs.LanesBase.Numbers.{number_of, words_of};
ghost use Rattle.iox_lanes_machine.specs.LanesBase.declared.words.word.SharedWord.TheVariants as word;
ghost use Rattle.iox_lanes_machine.specs.LanesBase.declared.words.word.SlotWord.TheVariants as part;
ghost use Rattle.iox_lanes_opening.specs.Leaving.{user_header_in, payload_in, elements_in};
ghost use Rattle.iox_lanes_opening.specs.Middles.{middle_of, middle_count};

use iox_lanes_base::words::{SharedWord, SlotWord, WordTable};
use iox_queues_base::Words;

/// The number of elements in the header of a slot.
pub fn elements(table: &WordTable, slot: u64) -> u64
    requires { slot < table.now.sizes.slots }
    ensures { result ≡ elements_in table.now slot }
{
    table.word(SharedWord::Slot {
        slot,
        word: SlotWord::Header(2),
    })
}

/// The number of words between the three words of the header and the payload: those of the user header, and before them the sequence
/// number, where messages have one. At most 2^64 - 1.
pub fn middle_count<U: Words>(numbered: bool) -> usize
    ensures { result ≡ middle_count numbered U.WORDS }
{
    if numbered {
        U::WORDS.saturating_add(1)
    } else {
        U::WORDS
    }
}

/// The sequence number, where messages have one, and the user header in a slot.
#[tactic(auto, using(crate::proofs::SlotWords::one_before))]
pub fn middle<U: Words>(table: &WordTable, slot: u64, numbered: bool) -> (Option<u64>, U)
    requires slot { slot < table.now.sizes.slots }
    requires full { length table.now.words ≡ words_of table.now.sizes }
    requires words { table.now.sizes.user_header_words ≡ middle_count numbered U.WORDS }
    ensures { result ≡ middle_of numbered U.of_parts (user_header_in table.now slot) }
{
    let from = header_from(table, slot);
    let words = words_from(table, from, table.sizes().user_header_words as usize);
    if numbered {
        numbered_middle(words)
    } else {
        (None, U::of_words(words))
    }
}

// The sequence number, which is the first of these words, and the user header in the words after it.
fn numbered_middle<U: Words>(words: &[u64]) -> (Option<u64>, U)
    requires { length words.now ≡ U.WORDS + 1 }
    ensures { result ≡ (Some (slice_index words.now 0), U.of_parts (drop 1 words.now)) }
{
    (Some(words[0]), U::of_words(&words[1..]))
}

/// The value in a slot.
pub fn payload<T: Words>(table: &WordTable, slot: u64) -> T
    requires slot { slot < table.now.sizes.slots }
    requires full { length table.now.words ≡ words_of table.now.sizes }
    requires words { table.now.sizes.payload_words ≡ T.WORDS }
    ensures { result ≡ T.of_parts (payload_in table.now slot) }
{
    let from = payload_from(table, slot);
    T::of_words(words_from(table, from, T::WORDS))
}

// The `count` words of the table from this number on.
fn words_from(table: &WordTable, from: u64, count: usize) -> &[u64]
    requires { from + count ≤ length table.now.words }
    ensures words { result.now ≡ take count (drop from table.now.words) }
    ensures count { length result.now ≡ count }
{
    let words = table.words();
    let from = from as usize;
    &words[from..from + count]
}

// The number of the first word after the header in a slot.
#[tactic(auto, using(crate::proofs::SlotWords::slot_fits))]
fn header_from(table: &WordTable, slot: u64) -> u64
    requires slot { slot < table.now.sizes.slots }
    requires full { length table.now.words ≡ words_of table.now.sizes }
    ensures value { result ≡ number_of table.now.sizes (word.Slot slot (part.UserHeader 0)) }
    ensures room { result + table.now.sizes.user_header_words + table.now.sizes.payload_words ≤ length table.now.words }
{
    let sizes = table.sizes();
    let number = sizes.number(SharedWord::Slot {
        slot,
        word: SlotWord::Header(2),
    });
    // The next word is within the table, which has fewer than 2^64 words.
    let _words = table.words().len();
    number + 1
}

// The number of the first word of a slot's payload.
fn payload_from(table: &WordTable, slot: u64) -> u64
    requires slot { slot < table.now.sizes.slots }
    requires full { length table.now.words ≡ words_of table.now.sizes }
    ensures value { result ≡ number_of table.now.sizes (word.Slot slot (part.Payload 0)) }
    ensures room { result + table.now.sizes.payload_words ≤ length table.now.words }
{
    // The sum is within the table, which has fewer than 2^64 words.
    let _words = table.words().len();
    header_from(table, slot) + table.sizes().user_header_words
}
