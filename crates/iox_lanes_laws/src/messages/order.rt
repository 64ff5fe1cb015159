//! The order of a connection, each entry with the number of its message.
ghost use Rattle.std.specs.Prelude.{◌≡◌, ◌↔◌, IsTrue, [], Some, length, map, slice_get};
ghost use Rattle.iox_lanes_laws.specs.Numbered.{acted_slot, last_number, number_of_placed, with_number};

use crate::messages::message::Message;
use crate::messages::placed_message::PlacedMessage;
use iox_queues_steps::{Act, Placed, PopAnswer};
use std::marker::Model;

mod iter;

pub use iter::Iter;

/// The puts, takes and looks of a connection, in their order, each with the number of the message that it puts or takes. The number is
/// looked up when the entry is asked for, among all messages that are kept.
///
/// Contracts see an order as the list of its entries. Not in `iceoryx2`.
#[derive(Drop)]
pub struct Order<'a> {
    messages: &'a [Message],
    entries: &'a [Placed],
}

impl<'a> Model for Order<'a> {
    ghost use Rattle.std.specs.Prelude.{List, map};
    ghost use Rattle.iox_lanes_laws.specs.declared.messages.placed_message.PlacedMessage.{PlacedMessage};
    ghost use Rattle.iox_lanes_laws.specs.Numbered.{with_number};

    ghost Value = { List PlacedMessage };

    ghost view = { λ order. map (with_number order.messages.now) order.entries.now };
}

impl<'a> Order<'a> {
    /// These entries, with the numbers that their messages have among these messages.
    pub(crate) fn new(messages: &'a [Message], entries: &'a [Placed]) -> Order<'a>
        ensures { result ≡ map (with_number messages.now) entries.now }
    {
        Order { messages, entries }
    }

    /// How many entries there are.
    pub fn len(&self) -> usize
        ensures { result ≡ length self.now }
    {
        self.entries.len()
    }

    /// Whether there are no entries.
    pub fn is_empty(&self) -> bool
        ensures { IsTrue result ↔ (self.now ≡ []) }
    {
        self.entries.is_empty()
    }

    /// The entry at this place, or None if there are fewer entries.
    pub fn get(&self, at: usize) -> Option<PlacedMessage>
        ensures { result ≡ slice_get self.now at }
    {
        let placed = self.entries.get(at)?;
        Some(with_number(self.messages, *placed))
    }

    /// The entries, one after the other.
    pub fn iter(&self) -> Iter<'a>
        ensures { result ≡ self.now }
    {
        Iter {
            messages: self.messages,
            entries: self.entries,
        }
    }
}

/// Iterates over the entries, one after the other.
impl<'a> IntoIterator for Order<'a> {
    type Item = PlacedMessage;

    type IntoIter = Iter<'a>;

    ghost into_iter_gives = { λ order iter. iter ≡ order };

    fn into_iter(self) -> Iter<'a> {
        self.iter()
    }
}

// The entry with the number of its message.
pub(super) fn with_number(messages: &[Message], placed: Placed) -> PlacedMessage
    ensures { result ≡ with_number messages.now placed }
{
    PlacedMessage {
        placed,
        number: number_of(messages, placed),
    }
}

// The number of the message that an entry puts or takes: the last one that was sent in its slot by its moment.
fn number_of(messages: &[Message], placed: Placed) -> Option<usize>
    ensures { result ≡ number_of_placed messages.now (Some placed) }
{
    let slot = acted_slot(placed.act)?;
    last_number(messages, slot, placed.moment)
}

// The slot that an act puts or takes, if it does.
fn acted_slot(act: Act) -> Option<u64>
    ensures { result ≡ acted_slot act }
{
    match act {
        Act::Put { value, .. } => Some(value),
        Act::Take {
            answer: PopAnswer::Got(got),
        } => got,
        Act::Take {
            answer: PopAnswer::Saw(_),
        } => None,
    }
}

// The number of the last message that was sent in this slot by this moment.
fn last_number(messages: &[Message], slot: u64, moment: u64) -> Option<usize>
    ensures { result ≡ last_number messages.now slot moment (length messages.now) }
{
    let mut last = None;
    for number in 0..messages.len() {
        if messages[number].was_sent_by(slot, moment) {
            last = Some(number);
        }
    }
    last
}
