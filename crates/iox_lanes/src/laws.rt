//! Theorems on lanes and the domain beside them.
ghost use Rattle.iox_lanes.specs.Joined.{JoinedStays};
ghost use Rattle.iox_lanes.specs.Sized.{AgreedLoansEndSoon, AgreedSendsEndSoon, AgreedSlotsSuffice};

/// Lanes that are joined with a domain still are after a step: what [`into_lanes`](crate::into_lanes) ensures of the lanes holds until they
/// become a domain again. `LaneMachine::step` and `LaneMachine::run` ensure what this theorem requires of a step.
pub fn joined_stays<T, U>()
    ensures { JoinedStays T U }
{}

/// A loan of the lanes that [`into_lanes`](crate::into_lanes) makes takes at most 4 · S · (B + R + 2) + 2 steps of its publisher, with its
/// beginning and its last step, wherever steps brought the lanes. S is the number of subscribers, B the agreed number of messages that may
/// wait at each, and R the agreed number of samples that each may borrow. This holds for the first 2^63 steps of the lanes.
pub fn agreed_loans_end_soon()
    ensures { AgreedLoansEndSoon }
{}

/// A send of the lanes that [`into_lanes`](crate::into_lanes) makes takes at most 4 · S · (B + R + 3) + W + 7 steps of its publisher. W is
/// the number of words between the three words of the header and the payload: those of the user header, and the sequence number where
/// messages have one. S, B and R are those of [`agreed_loans_end_soon`]. This holds for W below 2^61 and the first 2^63 steps of the lanes.
pub fn agreed_sends_end_soon()
    ensures { AgreedSendsEndSoon }
{}

/// A loan of the lanes that [`into_lanes`](crate::into_lanes) makes ends with a slot if the publisher was below its loan limit when the
/// loan began, and has S · (B + R) slots, one for each message of the agreed history, and one for each loan of its loan limit. S, B and R
/// are those of [`agreed_loans_end_soon`]. This holds for the first 2^63 steps of the lanes, and for slots with numbers below 2^64.
pub fn agreed_slots_suffice()
    ensures { AgreedSlotsSuffice }
{}
