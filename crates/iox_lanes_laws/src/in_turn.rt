//! Theorems on calls of lanes that no other call overlaps: each leaves what the call of a port leaves while nobody else works.
//!
//! Each theorem is the contract of a function that does nothing. A proof uses a theorem by calling its function; then the theorem is among
//! the facts that the caller knows:
//!
//! ```
//! publish_in_turn();
//! receive_in_turn();
//! ```

ghost use Rattle.iox_lanes_laws.specs.Turns.{CallsEndInTurn};
ghost use Rattle.iox_lanes_laws.specs.Publishing.{LoansInTurn, WritesInTurn, SendsInTurn, DropsInTurn};
ghost use Rattle.iox_lanes_laws.specs.Subscribing.{ReceivesInTurn, ReadsInTurn, ReleasesInTurn};
ghost use Rattle.iox_lanes_laws.specs.Payloads.{PayloadsStayInTurn, WritesHoldInTurn, PublishersStayInTurn, SubscribersStayInTurn};
ghost use Rattle.iox_lanes_laws.specs.UserHeaders.{ReadsGiveWhatWasWritten, SendsBeginAsWritten, WritesKeepUserHeaders};

/// If no call of a schedule overlaps another, nobody is inside a call when one ends, so the next one may begin. So what the other theorems
/// of this module say of one call holds for each call of the schedule. This holds as long as at most 2^63 steps were made.
pub fn end_in_turn()
    ensures { CallsEndInTurn }
{}

/// A call of a publisher that no other call overlaps changes no other port. A loan is refused exactly if the publisher has as many loans as
/// its loan limit allows; it finds no slot exactly if each is in use (as a loan, in the history, or waiting or borrowed at a connection);
/// otherwise it gets a slot that isn't in use, and that isn't written yet. A write marks its loan as written. A send puts its slot into the
/// mailbox of each connection, where a full mailbox drops its oldest message or refuses the new one; it counts both, ends the loan, and
/// makes the message the newest of the history. Its answer is `UnableToDeliver` exactly if its publisher's sends fail at a full mailbox and
/// a connection refused the message. A loan that is dropped isn't a loan any longer. What else waits, what is borrowed, and the other
/// loans, written or not, stay as they are. This holds as long as at most 2^63 steps were made; for a loan, it also requires slots with
/// numbers less than 2^64.
pub fn publish_in_turn()
    ensures loans { LoansInTurn }
    ensures writes { WritesInTurn }
    ensures sends { SendsInTurn }
    ensures drops { DropsInTurn }
{}

/// A call of a subscriber that no other call overlaps changes no other port. A receive takes the oldest message from the first of its
/// connections where one waits and fewer samples are borrowed than the maximum; if there is none, it takes nothing, and is refused exactly
/// if a message waits at one of them. A read returns what its slot contained when it began. A release returns its sample. What else waits,
/// and the other samples, stay as they are.
pub fn receive_in_turn()
    ensures receives { ReceivesInTurn }
    ensures reads { ReadsInTurn }
    ensures releases { ReleasesInTurn }
{}

/// A call that no other call overlaps changes no payload except that of the slot that it writes, which then has exactly the words of the
/// write. Connections and sizes stay as they are; so do a publisher's slots, its loan limit, its history size and whether its sends fail;
/// and a subscriber's borrow limit. This holds as long as at most 2^63 steps were made.
pub fn stay_in_turn()
    ensures payloads { PayloadsStayInTurn }
    ensures writes { WritesHoldInTurn }
    ensures publishers { PublishersStayInTurn }
    ensures subscribers { SubscribersStayInTurn }
{}

/// A write that no other call overlaps keeps for its slot exactly the user header that it was given, after the three words of header that
/// were kept; for each other slot of its publisher the same is kept as before. So a send that begins directly after the write sends exactly
/// this user header, whose first word becomes the next sequence number if messages have one, and the payload of the write. A read of the
/// slot returns exactly these words, whoever makes steps in between, or those of the last message whose send began in the slot since. This
/// holds as long as at most 2^63 steps were made.
pub fn writes_keep_user_headers()
    ensures keeps { WritesKeepUserHeaders }
    ensures sends { SendsBeginAsWritten }
    ensures reads { ReadsGiveWhatWasWritten }
{}
