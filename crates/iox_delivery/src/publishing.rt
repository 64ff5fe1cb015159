//! The calls that a publisher of single values and one of slices have in common, by port.
ghost use Rattle.iox_domain.specs.Homes as homes;
ghost use Rattle.std.specs.Prelude.{◌≡◌, ◌&&◌, ◌∷◌, [], true, false, not, IfOk};
ghost use Rattle.iox_delivery.specs.Lent.{IsReady};
ghost use Rattle.iox_delivery.specs.Holding.{publisher_stands, publisher_blocked};
ghost use Rattle.iox_delivery.specs.Publishing.{LendsSlot, LendsValue, FollowsSubscribers, PublisherGoes, EndsPublisher};

use crate::port_id::PortId;
use crate::sample_mut_uninit::write;
use iox_domain::{Home, calls};
use iox_domain_values::{ConnectionFailure, LoanError};
use std::alloc::Global;

/// Whether the publisher is open.
///
/// Not in `iceoryx2`.
/// Example: `let is_there = publishing::holds(port, home);`
pub fn holds<T: Copy, U: Copy, H: Home<T, U>>(port: PortId, home: &H) -> bool
    ensures { result ≡ publisher_stands port.number (homes.ports_of H.domain_of port.domain home.now) }
{
    let Some(ports) = calls::ports(home, port.domain) else {
        return false;
    };
    match ports.publishers.get(port.number) {
        Some(publisher) => publisher.stands,
        None => false,
    }
}

/// Whether a send of the publisher is blocked.
///
/// Not in `iceoryx2`.
/// Example: `let waits = publishing::is_blocked(port, home);`
pub fn is_blocked<T: Copy, U: Copy, H: Home<T, U>>(port: PortId, home: &H) -> bool
    ensures { result ≡ publisher_blocked port.number (homes.ports_of H.domain_of port.domain home.now) }
{
    let Some(ports) = calls::ports(home, port.domain) else {
        return false;
    };
    match ports.publishers.get(port.number) {
        Some(publisher) => publisher.sender.is_sending(),
        None => false,
    }
}

/// The publisher loans a slot for `values` values; the header of the message says `elements` elements. The call fails as
/// `ServicePorts::loan` does: with `ExceedsMaxLoanSize` if the loan is longer than a slot and the strategy is static; otherwise
/// with `ExceedsMaxLoans` if as many loans exist as the limit allows; otherwise with `OutOfMemory` if each slot is in use or a
/// new segment can't be opened.
///
/// Ported from `iceoryx2::port::publisher::Publisher::loan_slice_uninit`.
/// Example: `let slot = publishing::loan(port, alloc, home, 4, 4)?;`
pub fn loan<T: Copy, U: Copy, H: Home<T, U>>(
    port: PortId,
    alloc: Global,
    home: &mut H,
    values: usize,
    elements: u64,
) -> Result<usize, LoanError>
    requires holds { publisher_stands port.number (homes.ports_of H.domain_of port.domain home.old) ≡ true }
    requires free { publisher_blocked port.number (homes.ports_of H.domain_of port.domain home.old) ≡ false }
    ensures { LendsSlot (homes.ports_of H.domain_of) (homes.with_ports H.changed) port values elements home.old result home.new }
{
    match calls::loan(home, alloc, port.domain, port.number, values, elements) {
        Some(lent) => lent,
        None => unreachable!(),
    }
}

// The publisher loans a slot for one value, which is written there.
pub(crate) fn loan_value<T: Copy, U: Copy, H: Home<T, U>>(
    port: PortId,
    alloc: Global,
    home: &mut H,
    value: T,
) -> Result<usize, LoanError>
    requires holds { publisher_stands port.number (homes.ports_of H.domain_of port.domain home.old) ≡ true }
    requires free { publisher_blocked port.number (homes.ports_of H.domain_of port.domain home.old) ≡ false }
    ensures lends { LendsValue (homes.ports_of H.domain_of) (homes.with_ports H.changed) port value home.old result home.new }
    ensures ready { IfOk result (λ slot. IsReady port.number (value ∷ []) 1 slot (homes.ports_of H.domain_of port.domain home.new)) }
{
    let slot = loan(port, alloc, home, 1, 1)?;
    write(port, slot, home, value);
    Ok(slot)
}

/// The publisher follows the list of subscribers: `ServicePorts::update_publisher` says what that does, and when it fails.
///
/// Ported from `iceoryx2::port::update_connections::UpdateConnections`.
/// Example: `publishing::update(port, alloc, home)?;`
pub fn update<T: Copy, U: Copy, H: Home<T, U>>(
    port: PortId,
    alloc: Global,
    home: &mut H,
) -> Result<(), ConnectionFailure>
    requires holds { publisher_stands port.number (homes.ports_of H.domain_of port.domain home.old) ≡ true }
    requires free { publisher_blocked port.number (homes.ports_of H.domain_of port.domain home.old) ≡ false }
    ensures { FollowsSubscribers (homes.ports_of H.domain_of) (homes.with_ports H.changed)
        (homes.publisher_degrades (λ kept. H.ForPublishers.degrades kept) H.domain_of) port home.old result home.new }
{
    match calls::update_publisher(home, alloc, port.domain, port.number) {
        Some(outcome) => outcome,
        None => unreachable!(),
    }
}

/// Drops the publisher: it is closed, and its handlers are dropped, if it is open and no send of it is blocked; otherwise nothing
/// happens. The call answers whether the publisher was closed.
///
/// Ported from dropping an `iceoryx2::port::publisher::Publisher`.
/// Example: `let has_left = publishing::drop_port(port, home);`
#[tactic(auto, using(crate::proofs::Ending::publisher_end_tells))]
pub fn drop_port<T: Copy, U: Copy, H: Home<T, U>>(port: PortId, home: &mut H) -> bool
    ensures ends { EndsPublisher (homes.ports_of H.domain_of) (homes.with_ports H.changed) (homes.without_publisher H.changed) port
        home.old result home.new }
    ensures left { result ≡ (publisher_stands port.number (homes.ports_of H.domain_of port.domain home.old)
        && not (publisher_blocked port.number (homes.ports_of H.domain_of port.domain home.old))) }
{
    calls::leave_publisher(home, port.domain, port.number)
}

/// Closes the publisher, and drops its handlers.
///
/// Ported from dropping an `iceoryx2::port::publisher::Publisher`.
/// Example: `publishing::leave(port, home);`
pub fn leave<T: Copy, U: Copy, H: Home<T, U>>(port: PortId, home: &mut H)
    requires holds { publisher_stands port.number (homes.ports_of H.domain_of port.domain home.old) ≡ true }
    requires free { publisher_blocked port.number (homes.ports_of H.domain_of port.domain home.old) ≡ false }
    ensures { PublisherGoes (homes.ports_of H.domain_of) (homes.with_ports H.changed) (homes.without_publisher H.changed) port home.old
        home.new }
{
    if !calls::leave_publisher(home, port.domain, port.number) {
        unreachable!();
    }
}
