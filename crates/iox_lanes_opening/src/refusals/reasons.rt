//! The first reason why a domain can't become lanes.
ghost use Rattle.std.specs.Prelude.{◌≡◌};
ghost use Rattle.iox_lanes_opening.specs.Refusals.{is_blocked, may_grow, has_growing, first_reason};

use crate::refusals::deciding::{AsksCaller, FixedDecision, has_handlers, is_retrying};
use crate::refusals::each_asked::{Question, has_such};
use crate::refusals::into_lanes_error::IntoLanesError;
use crate::refusals::lingering::is_lingering;
use crate::refusals::sequences::has_too_large;
use crate::refusals::slices::has_slices;
use crate::refusals::soundness::is_unsound;
use crate::refusals::up_to_date::is_up_to_date;
use iox_domain::Domain;
use iox_domain::ports::ServicePorts;
use iox_domain_values::AllocationStrategy;

/// Why a domain can't become lanes, other than for memory: the first of these reasons that applies, or None.
///
/// `Blocked`: a send of some publisher is blocked at a full mailbox. `ConnectionsNotUpToDate`: a listed port hasn't followed the current
/// list of the other side, a listed publisher and a listed subscriber share no connection, or a listed publisher has a connection for a
/// place where nobody is listed. `NotStatic`: the capacity of some publisher may grow. `HasHandlers`: some port has a handler that is an
/// object of the caller. `Retrying`: mailboxes don't overflow, and a send of some publisher would block at a full mailbox. `Lingering`: a
/// loan or a sample exists, a connection of a closed publisher still exists, or a closed port still exists. `HasSlices`: some publisher has
/// another number of values than one in an element, a slot or a message. `Unsound`: the ports are in a state that no calls leave.
/// `SequenceTooLarge`: the last sequence number of some publisher is 2^63 or more. This function never returns `OutOfMemory`.
pub fn refusal<T: Copy, U: Copy, B: FixedDecision, D: AsksCaller>(
    domain: &Domain<T, U, B, D>,
) -> Option<IntoLanesError>
    ensures { result ≡ first_reason B.decision D.asks domain.now }
{
    if is_blocked(&domain.state.ports) {
        return Some(IntoLanesError::Blocked);
    }
    if !is_up_to_date(&domain.state.ports) {
        return Some(IntoLanesError::ConnectionsNotUpToDate);
    }
    if has_growing(&domain.state.ports) {
        return Some(IntoLanesError::NotStatic);
    }
    if has_handlers(domain) {
        return Some(IntoLanesError::HasHandlers);
    }
    if is_retrying(domain) {
        return Some(IntoLanesError::Retrying);
    }
    if is_lingering(&domain.state.ports) {
        return Some(IntoLanesError::Lingering);
    }
    if has_slices(domain) {
        return Some(IntoLanesError::HasSlices);
    }
    if is_unsound(&domain.state.ports) {
        return Some(IntoLanesError::Unsound);
    }
    if has_too_large(&domain.state.ports) {
        return Some(IntoLanesError::SequenceTooLarge);
    }
    None
}

fn is_blocked<T: Copy, U: Copy>(ports: &ServicePorts<T, U>) -> bool
    ensures { result ≡ is_blocked ports.now }
{
    has_such(ports, Question::Blocked)
}

// Whether the capacity of some publisher may grow.
fn has_growing<T: Copy, U: Copy>(ports: &ServicePorts<T, U>) -> bool
    ensures { result ≡ has_growing ports.now }
{
    has_such(ports, Question::Growing)
}

/// Whether a capacity with this allocation strategy may grow.
pub(crate) fn may_grow(allocation: AllocationStrategy) -> bool
    ensures { result ≡ may_grow allocation }
{
    match allocation {
        AllocationStrategy::BestFit | AllocationStrategy::PowerOfTwo => true,
        AllocationStrategy::Static => false,
    }
}
