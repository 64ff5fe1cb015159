//! How a publisher of a domain forgets its messages.
ghost use Rattle.std.specs.Prelude.{◌≡◌, ℕ, [], length, false};
ghost use Rattle.std.specs.Bool.{OnTrue};
ghost use Rattle.iox_domain_ports.specs.MessagesSending.{with_uses};
ghost use Rattle.iox_domain_ports.specs.DomainSlots.Uses.{connection_at, with_connection, emptied};
ghost use Rattle.iox_lanes_opening.specs.Clearing.{NoneBorrowed, IsCleared};
ghost use Rattle.iox_lanes_opening.specs.Restored.{IsRested};
ghost use Rattle.iox_lanes_opening.specs.Restoring.{IsQuiet};

use iox_domain_ports::messages::Sender;

/// Whether a publisher has no send in progress and no loan, no message of its connections is borrowed, and it has capacity for a value in
/// each slot.
pub fn is_rested<T: Copy, U: Copy>(sender: &Sender<T, U>) -> bool
    ensures rested { OnTrue result (IsRested sender.now) }
    ensures not { result ≡ false → IsRested sender.now → ⊥ }
{
    if !is_quiet(sender) {
        return false;
    }
    if !is_none_borrowed(sender) {
        return false;
    }
    true
}

// Whether a publisher has no send in progress and no loan, and has capacity for a value in each slot.
fn is_quiet<T: Copy, U: Copy>(sender: &Sender<T, U>) -> bool
    ensures quiet { OnTrue result (IsQuiet sender.now) }
    ensures not { result ≡ false → IsQuiet sender.now → ⊥ }
{
    !sender.is_sending() && sender.slots().loans() == 0 && sender.room() >= 1
}

/// Makes a publisher forget the messages that wait at its connections, and its history. Borrowed messages stay in use.
pub fn forget_messages<T: Copy, U: Copy>(sender: &mut Sender<T, U>)
    ensures rest { sender.new ≡ with_uses sender.new.uses sender.old }
    ensures cleared { IsCleared sender.old.uses sender.new.uses }
{
    sender.forget_history();
    lose_waiting(sender);
}

// Whether no message of the connection with this index is borrowed.
fn lends_nothing<T: Copy, U: Copy>(sender: &Sender<T, U>, index: usize) -> bool
    ensures none { OnTrue result ((connection_at index sender.now.uses).borrowed ≡ []) }
    ensures some { result ≡ false → (connection_at index sender.now.uses).borrowed ≡ [] → ⊥ }
{
    match sender.link(index) {
        Some(link) => link.borrowed() == 0,
        None => true,
    }
}

// Whether no message of any connection is borrowed.
fn is_none_borrowed<T: Copy, U: Copy>(sender: &Sender<T, U>) -> bool
    ensures none { OnTrue result (NoneBorrowed sender.now.uses) }
    ensures some { result ≡ false → NoneBorrowed sender.now.uses → ⊥ }
{
    for index in 0..sender.indices() {
        if !lends_nothing(sender, index) {
            return false;
        }
    }
    true
}

// Empties the mailbox of the connection with this index, if there is one.
fn lose_waiting_at<T: Copy, U: Copy>(sender: &mut Sender<T, U>, index: usize)
    ensures { sender.new ≡ with_uses (with_connection index (emptied (connection_at index sender.old.uses)) sender.old.uses) sender.old }
{
    match sender.link(index) {
        Some(_) => sender.lose_waiting(index),
        None => {}
    }
}

// Empties the mailboxes of all connections.
fn lose_waiting<T: Copy, U: Copy>(sender: &mut Sender<T, U>)
    ensures rest { sender.new ≡ with_uses (record sender.old.uses { connections = sender.new.uses.connections }) sender.old }
    ensures each { (index : ℕ) → connection_at index sender.new.uses ≡ emptied (connection_at index sender.old.uses) }
    ensures count { length sender.new.uses.connections ≡ length sender.old.uses.connections }
{
    for index in 0..sender.indices() {
        lose_waiting_at(sender, index);
    }
}
