//! Theorems on the sequence numbers of messages on lanes, where messages have them: how they rise, that they stay, that a read returns
//! them, and what a gap among them means.
//!
//! Each theorem is the contract of a function that does nothing. A proof uses a theorem by calling its function; then the theorem is among
//! the facts that the caller knows:
//!
//! ```
//! sequences_count_up();
//! gaps_are_missed();
//! ```

ghost use Rattle.iox_lanes_laws.specs.Sequences.{GapsAreMissed, ReadsGiveSequences, SequencesCountUp, UsedSlotsKeepMessages};

/// The messages of one publisher whose sends began in a run of lanes that keep messages have sequence numbers that rise by one, beginning
/// after the publisher's last number before the run. This holds for any schedule, wherever parties stop, for a publisher whose last number
/// was less than 2^63, if headers have a word for the number, and as long as at most 2^63 steps were made.
pub fn sequences_count_up()
    ensures { SequencesCountUp }
{}

/// A read that ends returns as its fourth word the sequence number with which its message was sent. This holds in each run from a state in
/// which nobody is inside a call and the kept messages are as their slots have them, as long as at most 2^63 steps were made.
pub fn reads_give_sequences()
    ensures { ReadsGiveSequences }
{}

/// While a slot is in a history or at a connection (waiting, aside, borrowed, or in the completion ring), no step changes which message it
/// has, so none changes its sequence number: a sample keeps both from its take to the end of its release. This holds if the first kept
/// messages were sent or found before the step, and as long as at most 2^63 steps were made.
pub fn used_slots_keep_messages()
    ensures { UsedSlotsKeepMessages }
{}

/// Of two messages that were taken at a connection one directly after the other, the second one has the larger sequence number, and exactly
/// the numbers between theirs were missed there: no message with one of these numbers was taken, and none waits. A missed number larger
/// than the publisher's last one from before the first step is that of a message that was sent since and lost here, once: a push to the
/// full ring dropped it as the oldest, or its own push was refused. A missed number up to that last one was lost here exactly if its
/// message was found to wait. This holds in each run from before the first step on, if the messages that were found then were kept
/// (`Lanes::with_found`), for a publisher whose last number was less than 2^63, if headers have a word for the number, if the numbers of
/// the messages found to wait rise up to that last number at most, and as long as at most 2^63 steps were made.
pub fn gaps_are_missed()
    ensures { GapsAreMissed }
{}
