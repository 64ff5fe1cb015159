//! Theorems on what lanes do over many steps.
ghost use Rattle.iox_lanes_machine.specs.FullLoans.{LoansFindAllUsed};
ghost use Rattle.iox_lanes_machine.specs.Paces.{LoansEndSoon, SendsEndSoon};
ghost use Rattle.iox_lanes_machine.specs.PermittedLoans.{LoansEndAsBegun};
ghost use Rattle.iox_lanes_machine.specs.WholeReads.{ReadsGiveWhatStood, ReadsGiveWhatWasStored, RunsComeOn, StepsComeOn};

/// The theorems apply to lanes that were made, found something, and came somewhere by steps (`CameTo`). This still holds after a step,
/// whatever its answer, and after a run, whatever it skipped.
pub fn lanes_come_on()
    ensures steps { StepsComeOn }
    ensures runs { RunsComeOn }
{}

/// As long as at most 2^63 steps were made: a read of a sample returns exactly the words that its slot had when something began to use the
/// slot (header, user header and payload), whatever steps were made in between.
pub fn reads_give_what_stood()
    ensures { ReadsGiveWhatStood }
{}

/// As long as at most 2^63 steps were made: a read of a sample returns, word for word, what was last stored in its slot. This holds through
/// any steps, up to the end of the read, of which none may change a word of the slot, be it of the header, the user header or the payload.
/// `LaneMachine::step` says what a write and a send leave there.
pub fn reads_give_what_was_stored()
    ensures { ReadsGiveWhatWasStored }
{}

/// As long as at most 2^63 steps were made: a loan takes at most 4 · S · (B + R + 2) + 2 steps of its publisher, including its beginning
/// and its last step, for S subscribers that buffer B messages and borrow R samples, whatever the other parties do in between.
pub fn loans_end_soon()
    ensures { LoansEndSoon }
{}

/// As long as at most 2^63 steps were made: a send takes at most 4 · S · (B + R + 3) + W + 7 steps of its publisher. S, B and R are those
/// of [`loans_end_soon`]. W, which is less than 2^61, is the number of words between the three words of the header and the payload: those
/// of the user header, and one more where messages have sequence numbers. For a user header of U words, W + 7 is at most U + 8.
pub fn sends_end_soon()
    ensures { SendsEndSoon }
{}

/// As long as at most 2^63 steps were made: if a loan ends without a slot, then each slot of its publisher was used when the loan began, as
/// a loan, in the history, or waiting, aside or borrowed at a connection, whatever was done in between.
pub fn loans_find_all_used()
    ensures { LoansFindAllUsed }
{}

/// As long as at most 2^63 steps were made, and for slots with numbers less than 2^64: a loan ends as its publisher's record says when it
/// begins, whatever was done in between. It is refused exactly if the publisher had as many loans as its loan limit allows; below the loan
/// limit, and with as many slots as the worst case needs, it gets a slot.
pub fn loans_end_as_begun()
    ensures { LoansEndAsBegun }
{}
