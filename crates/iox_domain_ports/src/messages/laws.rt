//! Theorems about the steps of a publisher. They are the contracts of functions that do nothing.
ghost use Rattle.iox_domain_ports.specs.MessagesLaws.{FullExactlyIf, HeldStays, WholeIsSent};

/// Each slot of a segment is in use exactly if as many different slots of that segment are in use as it has slots. Then
/// `Sender::loan` makes no loan.
pub fn full_exactly_if()
    ensures { FullExactlyIf }
{}

/// A message that a subscriber holds stays as it is through every step of its publisher, also when a connection ends, even that
/// subscriber's own. Only that subscriber can release the message.
pub fn held_stays<T, U>()
    ensures { HeldStays T U }
{}

/// A loan whose values are written at once is completely written, and its message has just these values.
pub fn whole_is_sent<T, U>()
    ensures { WholeIsSent T U }
{}
