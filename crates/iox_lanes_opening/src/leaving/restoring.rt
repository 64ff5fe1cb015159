//! How a publisher of a domain gets the messages that lanes leave.
ghost use Rattle.std.specs.Prelude.{◌≡◌, ◌+◌, ◌-◌, ◌<◌, ◌≤◌, ◌++◌, ◌∷◌, [], length, map, None, Some, vec_capacity, IfSome};
ghost use Rattle.iox_domain_ports.specs.MessagesSending.{with_uses};
ghost use Rattle.iox_domain_ports.specs.DomainSlots.declared.stage.Stage.TheVariants as stage;
ghost use Rattle.iox_domain_ports.specs.DomainSlots.Uses.{connection_at, with_connection, offered, newest};
ghost use Rattle.iox_lanes_machine.specs.LanesBase.Numbers.{words_of};
ghost use Rattle.iox_lanes_opening.specs.Leaving.{message_in, payload_in};
ghost use Rattle.iox_lanes_opening.specs.Middles.{middle_of, middle_count};
ghost use Rattle.iox_lanes_opening.specs.Restoring.{IsOwn, AreLeft, MayBeSent, MayCome, OnlyWaits, OnlyRemembers, MayWaitAll};
ghost use Rattle.iox_lanes_opening.specs.Restoring.{MayRememberAll, messages_in};
ghost use Rattle.iox_lanes_machine.specs.Resting.{mail_at};

use crate::leaving::words::{elements, middle, payload};
use iox_domain_ports::messages::Sender;
use iox_lanes_base::words::WordTable;
use iox_lanes_machine::LaneMachine;
use iox_queues_base::Words;
use std::collections::VecDeque;

// The slots of a publisher in lanes, from `first` on. `numbered` says whether each slot has the sequence number of its message.
#[derive(Clone, Copy)]
struct LeftSlots<'a> {
    table: &'a WordTable,
    numbered: bool,
    first: u64,
}

// Reads the value in a slot into `one`, which has capacity for one value.
fn take_payload<T: Words>(table: &WordTable, slot: u64, one: &mut Vec<T>)
    requires room { 0 < vec_capacity one.old }
    requires slot { slot < table.now.sizes.slots }
    requires full { length table.now.words ≡ words_of table.now.sizes }
    requires words { table.now.sizes.payload_words ≡ T.WORDS }
    ensures taken { one.new.items ≡ T.of_parts (payload_in table.now slot) ∷ [] }
    ensures room { vec_capacity one.new ≡ vec_capacity one.old }
{
    one.clear();
    one.push_reserved(payload(table, slot));
}

// Begins to send the message that lies in a slot of the lanes again, in the same slot of the publisher. `one` has capacity for one value,
// into which the value is read.
fn begin<T: Words, U: Words>(
    slots: &LeftSlots<'_>,
    slot: usize,
    sender: &mut Sender<T, U>,
    one: &mut Vec<T>,
)
    requires { MayBeSent T.of_parts (middle_of slots.now.numbered U.of_parts) T.WORDS (middle_count slots.now.numbered U.WORDS)
        slots.now.table.now slots.now.first slot (vec_capacity one.old) sender.old }
    ensures sent { sender.new ≡ with_uses (record sender.old.uses {
      sending = Some (message_in T.of_parts (middle_of slots.now.numbered U.of_parts) slots.now.table.now slots.now.first slot);
    })
        sender.old }
    ensures room { vec_capacity one.new ≡ vec_capacity one.old }
{
    // The number of slots has 64 bits, and so has each slot's number.
    let _slots = slots.table.sizes().slots;
    let at = slots.first + slot as u64;
    take_payload(slots.table, at, one);
    let between: (Option<u64>, U) = middle(slots.table, at, slots.numbered);
    sender.begin_again(slot, between.0, elements(slots.table, at), between.1, one);
}

// The publisher's slot that corresponds to this slot of the lanes, if it is in the publisher's current segment.
fn own_slot<T: Copy, U: Copy>(
    slots: &LeftSlots<'_>,
    slot: u64,
    sender: &Sender<T, U>,
) -> Option<usize>
    ensures some { IfSome result (λ own. (own ≡ slot - slots.now.first)
        × IsOwn slots.now.first slot slots.now.table.now.sizes.slots sender.now.uses) }
    ensures none { result ≡ None → IsOwn slots.now.first slot slots.now.table.now.sizes.slots sender.now.uses → ⊥ }
{
    if slot < slots.first || slot >= slots.table.sizes().slots {
        return None;
    }
    let own = (slot - slots.first) as usize;
    let first = sender.slots().first();
    if own < first || own - first >= sender.slots().size() {
        return None;
    }
    Some(own)
}

// The publisher's slot that corresponds to this slot of the lanes, if it is in the current segment and the connection with this index is
// live.
fn live_slot<T: Copy, U: Copy>(
    slots: &LeftSlots<'_>,
    slot: u64,
    index: usize,
    sender: &Sender<T, U>,
) -> Option<usize>
    ensures some { IfSome result (λ own. (own ≡ slot - slots.now.first) × IsOwn slots.now.first slot slots.now.table.now.sizes.slots
        sender.now.uses × ((connection_at index sender.now.uses).stage ≡ stage.Live)) }
    ensures none { result ≡ None → IsOwn slots.now.first slot slots.now.table.now.sizes.slots sender.now.uses
        → (connection_at index sender.now.uses).stage ≡ stage.Live → ⊥ }
{
    let Some(link) = sender.link(index) else {
        return None;
    };
    if link.is_ended() {
        return None;
    }
    own_slot(slots, slot, sender)
}

// Appends the message that lies in a slot of the lanes to those that wait at the connection with this index. Does nothing if the slot isn't
// one of the publisher's, or the connection isn't live.
fn put_own<T: Words, U: Words>(
    slots: &LeftSlots<'_>,
    slot: u64,
    index: usize,
    sender: &mut Sender<T, U>,
    one: &mut Vec<T>,
)
    requires { MayCome T.of_parts (middle_of slots.now.numbered U.of_parts) T.WORDS (middle_count slots.now.numbered U.WORDS)
        slots.now.table.now slots.now.first (vec_capacity one.old) sender.old }
    ensures put { IsOwn slots.now.first slot slots.now.table.now.sizes.slots sender.old.uses
        → (connection_at index sender.old.uses).stage ≡ stage.Live → sender.new ≡ with_uses
        (with_connection index
        (offered sender.old.uses.overflows (message_in T.of_parts (middle_of slots.now.numbered U.of_parts) slots.now.table.now
        slots.now.first (slot - slots.now.first))
        (connection_at index sender.old.uses)) sender.old.uses) sender.old }
    ensures rest { OnlyWaits index sender.old sender.new }
    ensures left { AreLeft T.of_parts (middle_of slots.now.numbered U.of_parts) slots.now.table.now slots.now.first sender.new.uses }
    ensures room { vec_capacity one.new ≡ vec_capacity one.old }
{
    if let Some(own) = live_slot(slots, slot, index, sender) {
        begin(slots, own, sender, one);
        sender.offer(index);
        sender.finish_send();
    }
}

/// Puts the messages that wait at a connection of the lanes into the mailbox of the publisher's connection with this index, which must be
/// empty. Each message keeps its slot; `first` is the publisher's first slot in the lanes. `one` must have capacity for one value, into
/// which each value is read; nothing is allocated.
pub fn restore_waiting<T: Words, U: Words>(
    lanes: &LaneMachine,
    numbered: bool,
    connection: u64,
    first: u64,
    index: usize,
    sender: &mut Sender<T, U>,
    one: &mut Vec<T>,
)
    requires connection { connection < length lanes.now.links }
    requires come { MayCome T.of_parts (middle_of numbered U.of_parts) T.WORDS (middle_count numbered U.WORDS) lanes.now.table first
        (vec_capacity one.old) sender.old }
    requires empty { (connection_at index sender.old.uses).waiting ≡ [] }
    ensures waits { MayWaitAll lanes.now connection first index sender.old
        → (connection_at index sender.new.uses).waiting
        ≡ messages_in T.of_parts (middle_of numbered U.of_parts) lanes.now.table first (mail_at lanes.now connection) }
    ensures rest { OnlyWaits index sender.old sender.new }
    ensures left { AreLeft T.of_parts (middle_of numbered U.of_parts) lanes.now.table first sender.new.uses }
    ensures room { vec_capacity one.new ≡ vec_capacity one.old }
{
    let slots = LeftSlots {
        table: lanes.table(),
        numbered,
        first,
    };
    for at in 0..lanes.waiting(connection) {
        let slot = lanes.waiting_slot(connection, at);
        put_own(&slots, slot, index, sender, one);
    }
}

// Makes the message that lies in a slot of the lanes the newest one of the history. Does nothing if the slot isn't one of the publisher's.
fn remember_own<T: Words, U: Words>(
    slots: &LeftSlots<'_>,
    slot: u64,
    sender: &mut Sender<T, U>,
    one: &mut Vec<T>,
)
    requires { MayCome T.of_parts (middle_of slots.now.numbered U.of_parts) T.WORDS (middle_count slots.now.numbered U.WORDS)
        slots.now.table.now slots.now.first (vec_capacity one.old) sender.old }
    ensures remembered { IsOwn slots.now.first slot slots.now.table.now.sizes.slots sender.old.uses
        → sender.new ≡ with_uses
        (record sender.old.uses {
          history = newest sender.old.uses.kept
              (sender.old.uses.history ++ message_in T.of_parts (middle_of slots.now.numbered U.of_parts) slots.now.table.now
              slots.now.first (slot - slots.now.first) ∷ []);
        }) sender.old }
    ensures rest { OnlyRemembers sender.old sender.new }
    ensures left { AreLeft T.of_parts (middle_of slots.now.numbered U.of_parts) slots.now.table.now slots.now.first sender.new.uses }
    ensures room { vec_capacity one.new ≡ vec_capacity one.old }
{
    if let Some(own) = own_slot(slots, slot, sender) {
        begin(slots, own, sender, one);
        sender.remember();
        sender.finish_send();
    }
}

/// Makes the messages in these slots of the lanes, the oldest first, the history of a publisher, which must be empty. Each message keeps
/// its slot; `first` is the publisher's first slot in the lanes. `one` must have capacity for one value, into which each value is read;
/// nothing is allocated.
pub fn restore_history<T: Words, U: Words>(
    table: &WordTable,
    numbered: bool,
    history: &VecDeque<u64>,
    first: u64,
    sender: &mut Sender<T, U>,
    one: &mut Vec<T>,
)
    requires come { MayCome T.of_parts (middle_of numbered U.of_parts) T.WORDS (middle_count numbered U.WORDS) table.now first
        (vec_capacity one.old) sender.old }
    requires empty { sender.old.uses.history ≡ [] }
    ensures remembers { MayRememberAll table.now history.now.items first sender.old
        → sender.new.uses.history ≡ messages_in T.of_parts (middle_of numbered U.of_parts) table.now first history.now.items }
    ensures rest { OnlyRemembers sender.old sender.new }
    ensures left { AreLeft T.of_parts (middle_of numbered U.of_parts) table.now first sender.new.uses }
    ensures room { vec_capacity one.new ≡ vec_capacity one.old }
{
    let slots = LeftSlots {
        table,
        numbered,
        first,
    };
    for at in 0..history.len() {
        remember_own(&slots, history[at], sender, one);
    }
}
