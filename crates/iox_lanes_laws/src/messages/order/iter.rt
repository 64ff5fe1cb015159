//! The iterator over the order of a connection.
ghost use Rattle.std.specs.Prelude.{◌≡◌, []};
ghost use Rattle.std.specs.Iterator.{YieldsFirst, item_count};

use crate::messages::message::Message;
use crate::messages::order::with_number;
use crate::messages::placed_message::PlacedMessage;
use iox_queues_steps::Placed;
use std::iter::FusedIterator;
use std::marker::Model;

/// The entries of an order, one after the other, each with the number of its message.
///
/// Contracts see it as the list of the entries that are left. Not in `iceoryx2`.
#[derive(Drop)]
pub struct Iter<'a> {
    pub(super) messages: &'a [Message],
    pub(super) entries: &'a [Placed],
}

impl<'a> Model for Iter<'a> {
    ghost use Rattle.std.specs.Prelude.{List, map};
    ghost use Rattle.iox_lanes_laws.specs.declared.messages.placed_message.PlacedMessage.{PlacedMessage};
    ghost use Rattle.iox_lanes_laws.specs.Numbered.{with_number};

    ghost Value = { List PlacedMessage };

    ghost view = { λ iter. map (with_number iter.messages.now) iter.entries.now };
}

impl<'a> Iterator for Iter<'a> {
    type Item = PlacedMessage;

    ghost next_gives = { YieldsFirst (λ rest. rest) };

    ghost remaining = { item_count (λ rest. rest) };

    fn next(&mut self) -> Option<PlacedMessage> {
        let (first, rest) = self.entries.split_first()?;
        self.entries = rest;
        Some(with_number(self.messages, *first))
    }
}

impl<'a> FusedIterator for Iter<'a> {}
