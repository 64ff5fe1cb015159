//! Theorems about what a publisher does. They are the contracts of functions that do nothing.
ghost use Rattle.iox_domain_values.specs.declared.degradation.DegradationCause.TheVariants as cause;
ghost use Rattle.iox_domain_ports.specs.Lengths.{CountsElements};
ghost use Rattle.iox_domain_ports.specs.LoanLaws.{LoanTells, NewSegmentIsFree};
ghost use Rattle.iox_domain_ports.specs.Memory.{NeedsNoMemory};
ghost use Rattle.iox_domain_ports.specs.UpdateLaws.{FollowsWhoIsListed};

use iox_domain_values::Degrades;

/// An update of a publisher depends on who is listed at which place, and not on where the given list ends. After an update over
/// a list that had changed, no place that lists nobody is tied.
pub fn follows_who_is_listed<T, U, D: Degrades>(_handler: &D)
    ensures { FollowsWhoIsListed T U (D.degrades _handler.now cause.FailedToEstablishConnection) }
{}

/// An update of a publisher never fails, whatever the handler would answer, if the publisher has a connection to each listed
/// subscriber, the places of those are within its capacity, and no other place is tied to them: the update allocates nothing.
pub fn needs_no_memory<T, U, D: Degrades>(_handler: &D)
    ensures { NeedsNoMemory T U (D.degrades _handler.now cause.FailedToEstablishConnection) }
{}

/// What each answer of `PublisherPort::loan` says: when each error is returned, in which order, and what it leaves; and what a
/// loan is.
pub fn loan_tells<T, U>()
    ensures { LoanTells T U }
{}

/// The lengths of loans and segments may be counted in elements instead of values, if a loan has all values of its elements.
pub fn counts_elements()
    ensures { CountsElements }
{}

/// A segment that was just opened isn't full, if everything in use is in the segments before it.
pub fn new_segment_is_free<T, U>()
    ensures { NewSegmentIsFree T U }
{}
