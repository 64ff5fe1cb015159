//! The messages that are sent on lanes: what each is when its send begins, and that a read returns exactly that.
//!
//! [`Lanes`] keep each message as it is when its send begins, under a number of its own:
//!
//! ```
//! let mut lanes = Lanes::new(alloc, lanes);
//! lanes.step(Party::Publisher(0), &Move::Begin(Call::Send { loan }));
//! let sent = lanes.message(0);
//! for entry in lanes.order(connection) {
//!     let message = entry.number;
//! }
//! ```
//!
//! Each theorem is the contract of a function that does nothing. A proof uses a theorem by calling its function; then the theorem is among
//! the facts that the caller knows:
//!
//! ```
//! reads_give_what_was_sent();
//! used_slots_send_nothing();
//! ```

pub mod message;
pub mod order;
pub mod placed_message;
pub mod recorded;

ghost use Rattle.iox_lanes_laws.specs.HaveNumbers.{OrdersHaveNumbers};
ghost use Rattle.iox_lanes_laws.specs.Recorded.{OrdersFollowNumbers, ReadsGiveMessages, ReadsGiveWhatIsKept};
ghost use Rattle.iox_lanes_laws.specs.RecordedRuns.{FullRunsAreRecorded, FullRunsGo, RecordedRunsFollow, RecordedStepsAreRuns};
ghost use Rattle.iox_lanes_laws.specs.RecordedRuns.{RecordsRunLanes};
ghost use Rattle.iox_lanes_laws.specs.WholeMessages.{ReadsGiveWhatWasSent, UsedSlotsSendNothing};

pub use message::Message;
pub use order::Order;
pub use placed_message::PlacedMessage;
pub use recorded::Lanes;

/// From a state in which nobody is inside a call, whatever steps follow and wherever parties stop: a read returns exactly the words of the
/// last message whose send began in its slot, header, user header and payload, as they were when that send began. If no send began in the
/// slot, it returns the words that the slot had at first. This holds as long as at most 2^63 steps were made.
pub fn reads_give_what_was_sent()
    ensures { ReadsGiveWhatWasSent }
{}

/// While a slot is in a history or at a connection (waiting, aside, borrowed, or in the completion ring), no send begins in it. So the
/// message that a receive took there is the last one whose send began there, until nobody has it any longer. This holds as long as at most
/// 2^63 steps were made.
pub fn used_slots_send_nothing()
    ensures { UsedSlotsSendNothing }
{}

/// A read that ends on lanes that keep messages returns exactly the words of the last message that is kept for its slot; if no message is
/// kept for the slot, it returns the words that the slot had at the beginning of the run. This holds in each run from a state in which
/// nobody is inside a call and the kept messages are as their slots have them, as long as at most 2^63 steps were made.
pub fn reads_give_what_is_kept()
    ensures { ReadsGiveWhatIsKept }
{}

/// The message that a read returns has a number, and is the one that the lanes return for this number: the read returns exactly the words
/// of the message whose number its slot has when the read ends. This holds if the first kept messages were sent or found before the run,
/// and as long as at most 2^63 steps were made.
pub fn reads_give_messages()
    ensures { ReadsGiveMessages }
{}

/// In each run from before the first step on: the order of each connection answers as a mailbox does, with the numbers of its messages in
/// place of their slots. So a take gives the message with the oldest number that waits, under which it was put. This holds if the first
/// kept messages were found before the run, and as long as at most 2^63 steps were made.
pub fn orders_follow_numbers()
    ensures { OrdersFollowNumbers }
{}

/// Each message of an order has a number, if the messages that were found before the first step were kept then (`Lanes::with_found`): each
/// message that was found to wait, and each that an order puts, drops or takes, has a number by the moment of its entry. This holds as long
/// as at most 2^63 steps were made.
pub fn orders_have_numbers()
    ensures { OrdersHaveNumbers }
{}

/// A run of lanes that keep messages is a run of the lanes alone, by exactly those entries that were made, in their order; their number is
/// the answer of the run. The messages whose sends these entries began are appended to the others. A step is a run of one entry, and a run
/// followed by another is one run. So whatever calls of `Lanes::step` and `Lanes::run` were made, together they are one run, to which the
/// theorems on lanes apply.
pub fn recorded_runs_run_lanes()
    ensures steps { RecordedStepsAreRuns }
    ensures follow { RecordedRunsFollow }
    ensures lanes { RecordsRunLanes }
{}

/// A run that returns the number of its entries skipped none: each of them fitted when its turn came and was made, and nothing else
/// happened. This holds for `LaneMachine::run` and for `Lanes::run`. If a run returns a smaller number, some entries didn't fit or found no
/// memory.
pub fn full_runs_leave_none_out()
    ensures lanes { FullRunsGo }
    ensures recorded { FullRunsAreRecorded }
{}
