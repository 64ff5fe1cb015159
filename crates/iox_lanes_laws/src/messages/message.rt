//! A message that was sent on lanes.
ghost use Rattle.std.specs.Prelude.{◌≡◌, ◌+◌, ◌<◌, ◌≤◌, ◌++◌, IfOk, IfSome, None, Some, length};
ghost use Rattle.iox_lanes_machine.specs.LanesBase.Numbers.{words_of};
ghost use Rattle.iox_lanes_machine.specs.LanesBase.Subscribing.{word_at};
ghost use Rattle.iox_lanes_machine.specs.LanesParties.Values.{AreValues};
ghost use Rattle.iox_lanes_machine.specs.Held.{slot_held};
ghost use Rattle.iox_lanes_laws.specs.Messages.{payload_held};
ghost use Rattle.iox_lanes_laws.specs.Numbered.{was_sent_by};

use iox_lanes_base::calls::subscriber::SlotExtent;
use iox_lanes_base::words::{SharedWord, SlotWord, WordTable};
use iox_lanes_parties::values_in;
use iox_queues_base::Words;
use std::alloc::{AllocError, Global};
use std::marker::Model;

/// A message as it was when its send began, or when it was found. Not in `iceoryx2`.
pub struct Message {
    publisher: usize,
    slot: u64,
    moment: u64,
    words: Vec<u64>,
}

/// Writes the drop out once, so that no crate above proves it anew.
impl Drop for Message {
    fn drop(self) {
        let Message {
            publisher: _,
            slot: _,
            moment: _,
            words: _,
        } = self;
    }
}

impl Model for Message {
    ghost use Rattle.iox_lanes_laws.specs.Messages.{MessageState};

    ghost Value = { MessageState };

    ghost view = { λ m. record { publisher = m.publisher; slot = m.slot; moment = m.moment; words = m.words.items } };
}

impl Message {
    /// The message in a slot at this moment, with these words of header and user header, and the payload that the slot contains.
    /// `AllocError` is returned only where an allocation fails.
    pub(crate) fn new(
        alloc: Global,
        moment: u64,
        publisher: usize,
        slot: u64,
        head: &[u64],
        table: &WordTable,
    ) -> Result<Message, AllocError>
        requires { slot < table.now.sizes.slots }
        ensures { IfOk result (λ made. made
            ≡ record { publisher = publisher; slot = slot; moment = moment; words = head.now ++ payload_held table.now slot }) }
    {
        let mut words = Vec::from_slice(alloc, head)?;
        words.extend_from_slice(&payload(alloc, slot, table)?)?;
        Ok(Message {
            publisher,
            slot,
            moment,
            words,
        })
    }

    /// The message that a slot has at this moment: header, user header and payload as the slot contains them. `AllocError` is returned only
    /// where an allocation fails.
    pub(crate) fn found(
        alloc: Global,
        moment: u64,
        publisher: usize,
        slot: u64,
        table: &WordTable,
    ) -> Result<Message, AllocError>
        requires slot { slot < table.now.sizes.slots }
        requires full { length table.now.words ≡ words_of table.now.sizes }
        ensures { IfOk result (λ made. made
            ≡ record { publisher = publisher; slot = slot; moment = moment; words = slot_held table.now slot }) }
    {
        Ok(Message {
            publisher,
            slot,
            moment,
            words: held(alloc, slot, table)?,
        })
    }

    /// The publisher of the message, by its number among those of the lanes.
    pub fn publisher(&self) -> usize
        ensures { result ≡ self.now.publisher }
    {
        self.publisher
    }

    /// The slot of the message.
    pub fn slot(&self) -> u64
        ensures { result ≡ self.now.slot }
    {
        self.slot
    }

    /// The moment at which its send began, or at which it was found.
    pub fn moment(&self) -> u64
        ensures { result ≡ self.now.moment }
    {
        self.moment
    }

    // Whether the message is in this slot and was sent or found by this moment.
    pub(crate) fn was_sent_by(&self, slot: u64, moment: u64) -> bool
        ensures { result ≡ was_sent_by slot moment (Some self.now) }
    {
        self.slot == slot && self.moment <= moment
    }

    /// The user header and the value of the message. None if it has another number of words.
    pub fn values<T: Words, U: Words>(&self) -> Option<(U, T)>
        ensures some { IfSome result (AreValues T.of_parts U.of_parts T.WORDS U.WORDS self.now.words) }
        ensures none { result ≡ None → length self.now.words ≡ 3 + U.WORDS + T.WORDS → ⊥ }
    {
        values_in::<T, U>(&self.words)
    }

    /// The words of its header, of its user header and of its payload, one after the other, as a read returns them. A header has three
    /// words: the node, the publisher and the number of elements. Where messages have sequence numbers, it has the number as a fourth word.
    pub fn words(&self) -> &[u64]
        ensures { result.now ≡ self.now.words }
    {
        &self.words
    }
}

// All words that a slot contains: header, user header and payload.
#[tactic(auto, using(crate::proofs::Founds::slot_fits))]
fn held(alloc: Global, slot: u64, table: &WordTable) -> Result<Vec<u64>, AllocError>
    requires slot { slot < table.now.sizes.slots }
    requires full { length table.now.words ≡ words_of table.now.sizes }
    ensures { IfOk result (λ words. words.items ≡ slot_held table.now slot) }
{
    // The words of a slot lie within the table, which has fewer than 2^64 words.
    let _words = table.words().len();
    let sizes = table.sizes();
    let extent = SlotExtent {
        user_header_words: sizes.user_header_words,
        payload_words: sizes.payload_words,
    };
    let mut words = Vec::new(alloc);
    for word in 0..3 + sizes.user_header_words + sizes.payload_words {
        let own = word_at(extent, word);
        words.push(table.word(SharedWord::Slot { slot, word: own }))?;
    }
    Ok(words)
}

// A word of header, user header and payload, which lie one after the other.
fn word_at(extent: SlotExtent, word: u64) -> SlotWord
    ensures { result ≡ word_at extent word }
{
    if word < 3 {
        SlotWord::Header(word)
    } else if word - 3 < extent.user_header_words {
        SlotWord::UserHeader(word - 3)
    } else {
        SlotWord::Payload(word - 3 - extent.user_header_words)
    }
}

// The words of the payload that a slot contains.
fn payload(alloc: Global, slot: u64, table: &WordTable) -> Result<Vec<u64>, AllocError>
    requires { slot < table.now.sizes.slots }
    ensures { IfOk result (λ words. words.items ≡ payload_held table.now slot) }
{
    let mut words = Vec::new(alloc);
    for word in 0..table.sizes().payload_words {
        words.push(table.word(SharedWord::Slot {
            slot,
            word: SlotWord::Payload(word),
        }))?;
    }
    Ok(words)
}
