//! How a publisher of a domain gets all that lanes leave of it.
ghost use Rattle.std.specs.Prelude.{◌≡◌, ◌+◌, ◌<◌, ◌≤◌, [], ℕ, length, false, vec_capacity, IfSome};
ghost use Rattle.std.specs.Bool.{OnTrue};
ghost use Rattle.iox_domain_ports.specs.MessagesSending.{with_uses};
ghost use Rattle.iox_domain_ports.specs.DomainSlots.Uses.{connection_at};
ghost use Rattle.iox_lanes_opening.specs.Middles.{middle_of, middle_count};
ghost use Rattle.iox_lanes_opening.specs.Restoring.{IsWhole, AreLeft, MayCome, OnlyWaits};
ghost use Rattle.iox_lanes_opening.specs.Restored.{IsRested, IsRestored, MayWaitAt, left_at, place_of, with_waiting};

use crate::leaving::clearing::{forget_messages, is_rested};
use crate::leaving::restoring::{restore_history, restore_waiting};
use iox_domain_ports::messages::Sender;
use iox_lanes_machine::LaneMachine;
use iox_queues_base::Words;
use std::collections::VecDeque;

/// What lanes leave of a publisher.
#[derive(Clone, Copy)]
pub struct LeftPublisher<'a> {
    /// The lanes.
    pub lanes: &'a LaneMachine,
    /// Whether messages have sequence numbers. If they do, each slot has the number of its message.
    pub numbered: bool,
    /// The number of the publisher's first connection in the lanes.
    pub from: u64,
    /// The indices of its connections in the domain, in the order of the lanes.
    pub indices: &'a [usize],
    /// The number of its first slot in the lanes.
    pub first: u64,
    /// The slots of its history in the lanes, the oldest first.
    pub history: &'a VecDeque<u64>,
}

/// Gives a publisher of a domain all that lanes leave of it, in place of its own waiting messages and history: the messages that wait at
/// each connection of the lanes then wait at the connection with its index, and the lanes' history is its history, each message in its own
/// slot. Returns false if a send of the publisher is in progress, it has a loan, a message of its connections is borrowed, or a slot has no
/// capacity for a value; then nothing has changed. `one` must have capacity for one value, into which each value is read; nothing is
/// allocated.
pub fn restore<T: Words, U: Words>(
    source: &LeftPublisher<'_>,
    sender: &mut Sender<T, U>,
    one: &mut Vec<T>,
) -> bool
    requires room { 0 < vec_capacity one.old }
    requires connections { source.now.from + length source.now.indices.now ≤ length source.now.lanes.now.links }
    requires whole { IsWhole T.WORDS (middle_count source.now.numbered U.WORDS) source.now.lanes.now.table }
    ensures same { result ≡ false → sender.new ≡ sender.old }
    ensures not { result ≡ false → IsRested sender.old → ⊥ }
    ensures rested { OnTrue result (IsRested sender.old) }
    ensures restored { OnTrue result (IsRestored T.of_parts (middle_of source.now.numbered U.of_parts) source.now.lanes.now
        source.now.from source.now.indices.now source.now.first source.now.history.now.items sender.old sender.new) }
    ensures room { vec_capacity one.new ≡ vec_capacity one.old }
{
    if !is_rested(sender) {
        return false;
    }
    forget_messages(sender);
    restore_connections(source, sender, one);
    restore_history(
        source.lanes.table(),
        source.numbered,
        source.history,
        source.first,
        sender,
        one,
    );
    true
}

// Restores what the lanes leave at each connection of a publisher, if no message waits at any of them.
fn restore_connections<T: Words, U: Words>(
    source: &LeftPublisher<'_>,
    sender: &mut Sender<T, U>,
    one: &mut Vec<T>,
)
    requires empty { (index : ℕ) → (connection_at index sender.old.uses).waiting ≡ [] }
    requires connections { source.now.from + length source.now.indices.now ≤ length source.now.lanes.now.links }
    requires come { MayCome T.of_parts (middle_of source.now.numbered U.of_parts) T.WORDS (middle_count source.now.numbered U.WORDS)
        source.now.lanes.now.table source.now.first (vec_capacity one.old) sender.old }
    ensures rest { sender.new ≡ with_uses (record sender.old.uses { connections = sender.new.uses.connections }) sender.old }
    ensures count { length sender.new.uses.connections ≡ length sender.old.uses.connections }
    ensures each { (index : ℕ) → connection_at index sender.new.uses
        ≡ with_waiting (connection_at index sender.old.uses) (connection_at index sender.new.uses).waiting }
    ensures waits { (index : ℕ) → MayWaitAt source.now.lanes.now source.now.from source.now.first index sender.old
        (place_of index source.now.indices.now)
        → (connection_at index sender.new.uses).waiting ≡ left_at T.of_parts (middle_of source.now.numbered U.of_parts)
        source.now.lanes.now source.now.from source.now.first (place_of index source.now.indices.now) }
    ensures left { AreLeft T.of_parts (middle_of source.now.numbered U.of_parts) source.now.lanes.now.table source.now.first
        sender.new.uses }
    ensures room { vec_capacity one.new ≡ vec_capacity one.old }
{
    for index in 0..sender.indices() {
        restore_at(source, index, sender, one);
    }
}

// Restores what the lanes leave at the connection with this index, if no message waits there.
fn restore_at<T: Words, U: Words>(
    source: &LeftPublisher<'_>,
    index: usize,
    sender: &mut Sender<T, U>,
    one: &mut Vec<T>,
)
    requires empty { (connection_at index sender.old.uses).waiting ≡ [] }
    requires connections { source.now.from + length source.now.indices.now ≤ length source.now.lanes.now.links }
    requires come { MayCome T.of_parts (middle_of source.now.numbered U.of_parts) T.WORDS (middle_count source.now.numbered U.WORDS)
        source.now.lanes.now.table source.now.first (vec_capacity one.old) sender.old }
    ensures waits { MayWaitAt source.now.lanes.now source.now.from source.now.first index sender.old
        (place_of index source.now.indices.now)
        → (connection_at index sender.new.uses).waiting ≡ left_at T.of_parts (middle_of source.now.numbered U.of_parts)
        source.now.lanes.now source.now.from source.now.first (place_of index source.now.indices.now) }
    ensures rest { OnlyWaits index sender.old sender.new }
    ensures left { AreLeft T.of_parts (middle_of source.now.numbered U.of_parts) source.now.lanes.now.table source.now.first
        sender.new.uses }
    ensures room { vec_capacity one.new ≡ vec_capacity one.old }
{
    // The number of a connection is less than the number of connections, which has 64 bits.
    let _links = source.lanes.links().len();
    if let Some(place) = place_of(source.indices, index) {
        restore_waiting(
            source.lanes,
            source.numbered,
            source.from + place as u64,
            source.first,
            index,
            sender,
            one,
        );
    }
}

// The first place of the index in a list.
fn place_of(indices: &[usize], index: usize) -> Option<usize>
    ensures value { result ≡ place_of index indices.now }
    ensures within { IfSome result (λ place. place < length indices.now) }
{
    indices.iter().position(|it| *it == index)
}
