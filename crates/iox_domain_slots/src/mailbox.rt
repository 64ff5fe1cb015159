//! What waits between a publisher and a subscriber.
ghost use Rattle.std.specs.Prelude.{◌≡◌};
ghost use Rattle.iox_domain_slots.specs.Links.{put_into, put_answer};

use iox_container::queue::Queue;

/// What became of a slot that was put into a mailbox.
#[derive(Clone, Copy, PartialEq, Eq)]
pub enum Put {
    /// The mailbox took it.
    Taken,

    /// The mailbox took it and dropped its oldest slot, the number of which is here.
    TakenFor(u64),

    /// The mailbox is full, and is unchanged.
    Refused,
}

/// Appends a slot to those that wait. A full mailbox drops its oldest slot if it overflows; otherwise it refuses the new one.
pub(crate) fn put_behind(waiting: &mut Queue<u64>, overflows: bool, slot: u64) -> Put
    ensures answer { result ≡ put_answer overflows waiting.old.capacity waiting.old.items slot }
    ensures after { waiting.new.items ≡ put_into overflows waiting.old.capacity waiting.old.items slot }
    ensures limit { waiting.new.capacity ≡ waiting.old.capacity }
{
    // By the contract of `len` no more slots wait than the capacity.
    let _count = waiting.len();
    if overflows {
        return match waiting.push_with_overflow(slot) {
            Some(oldest) => Put::TakenFor(oldest),
            None => Put::Taken,
        };
    }
    if waiting.push(slot) {
        Put::Taken
    } else {
        Put::Refused
    }
}
