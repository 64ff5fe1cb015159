//! The calls that loans of single values and of slices have in common, by port and slot.
ghost use Rattle.iox_domain.specs.Homes as homes;
ghost use Rattle.std.specs.Prelude.{◌≡◌, true, false, Some, is_some, option_map};
ghost use Rattle.std.specs.Borrow.{sem, LendsIf};
ghost use Rattle.std.specs.Option.{option_copied_mut};
ghost use Rattle.iox_domain.specs.DomainPorts.Messages.{write_value, write_user_header};
ghost use Rattle.iox_domain.specs.DomainPorts.MessagesSending.{is_written_loan};
ghost use Rattle.iox_domain.specs.DomainPorts.Writing.{value_at};
ghost use Rattle.iox_delivery.specs.Holding.{loan_found, publisher_blocked};
ghost use Rattle.iox_delivery.specs.Publishing.{loan_changed, loan_header_found, SendsSample, WritesUserHeader, GivesUpLoan};

use crate::port_id::PortId;
use crate::sent::{Sent, sent_of};
use iox_describe_base::Header;
use iox_domain::{Home, calls};
use iox_domain_values::SendError;
use std::alloc::Global;

/// Whether the publisher has a loan in this slot.
///
/// Not in `iceoryx2`.
/// Example: `let is_there = lending::is_out(port, slot, home);`
pub fn is_out<T: Copy, U: Copy, H: Home<T, U>>(port: PortId, slot: usize, home: &H) -> bool
    ensures { result ≡ is_some (loan_found port.number slot (homes.ports_of H.domain_of port.domain home.now)) }
{
    let Some(ports) = calls::ports(home, port.domain) else {
        return false;
    };
    match ports.publishers.get(port.number) {
        Some(publisher) => publisher.elements(slot).is_some(),
        None => false,
    }
}

/// Whether each value of the loan in this slot is written; false if there is no such loan.
///
/// Not in `iceoryx2`.
/// Example: `let may_be_sent = lending::is_written(port, slot, home);`
pub fn is_written<T: Copy, U: Copy, H: Home<T, U>>(port: PortId, slot: usize, home: &H) -> bool
    ensures { result ≡ is_written_loan (loan_found port.number slot (homes.ports_of H.domain_of port.domain home.now)) }
{
    match calls::ports(home, port.domain) {
        Some(ports) => ports.is_written(port.number, slot),
        None => false,
    }
}

/// The user header of the loan in this slot.
///
/// Ported from `iceoryx2::sample_mut_uninit::SampleMutUninit::user_header`.
/// Example: `let stamp = *lending::user_header(port, slot, home);`
pub fn user_header<'a, T: Copy, U: Copy, H: Home<T, U>>(
    port: PortId,
    slot: usize,
    home: &'a H,
) -> &'a U
where
    T: 'a,
    U: 'a,
    requires { is_some (loan_found port.number slot (homes.ports_of H.domain_of port.domain home.now)) ≡ true }
    ensures { Some result.now ≡ option_map (λ loan. loan.user_header)
        (loan_found port.number slot (homes.ports_of H.domain_of port.domain home.now)) }
{
    let Some(ports) = calls::ports(home, port.domain) else {
        unreachable!();
    };
    match ports.loan_user_header(port.number, slot) {
        Some(user_header) => user_header,
        None => unreachable!(),
    }
}

/// What the header of the loan in this slot says: the node and the publisher that will send it, and how many elements it has. A
/// loan has no sequence number.
///
/// Ported from `iceoryx2::sample_mut_uninit::SampleMutUninit::header`.
/// Example: `let header = lending::header(port, slot, home);`
pub fn header<T: Copy, U: Copy, H: Home<T, U>>(port: PortId, slot: usize, home: &H) -> Header
    requires { is_some (loan_found port.number slot (homes.ports_of H.domain_of port.domain home.now)) ≡ true }
    ensures { Some result ≡ loan_header_found port.number slot (homes.ports_of H.domain_of port.domain home.now) }
{
    let Some(ports) = calls::ports(home, port.domain) else {
        unreachable!();
    };
    match ports.loan_header(port.number, slot) {
        Some(header) => header,
        None => unreachable!(),
    }
}

/// Writes the user header of the loan in this slot; nothing happens if there is no such loan.
///
/// Ported from writing through `iceoryx2::sample_mut_uninit::SampleMutUninit::user_header_mut`.
/// Example: `lending::write_user_header(port, slot, home, 150);`
pub fn write_user_header<T: Copy, U: Copy, H: Home<T, U>>(
    port: PortId,
    slot: usize,
    home: &mut H,
    user_header: U,
)
    ensures { WritesUserHeader (homes.ports_of H.domain_of) (homes.with_ports H.changed) port slot user_header home.old home.new }
{
    if let Some(ports) = calls::ports_mut(home, port.domain) {
        let _ = ports.write_user_header(port.number, slot, user_header);
    }
}

/// A mutable reference to the value at this place of the loan in this slot; None if there is no such loan, or if it doesn't
/// have this place, or if the value there isn't written.
///
/// Ported from changing it through `iceoryx2::sample_mut::SampleMut::payload_mut`.
/// Example: `let value = lending::value_mut(home, port, slot, 0)?;`
pub fn value_mut<'a, T: Copy, U: Copy, H: Home<T, U>>(
    home: &'a mut H,
    port: PortId,
    slot: usize,
    place: usize,
) -> Option<&'a mut T>
where
    T: 'a,
    U: 'a,
    ensures* writes_back { sem 𝓛 (LendsIf H.row T.row home.entry result
        (λ last. loan_changed (homes.ports_of H.domain_of) (homes.with_ports H.changed) port slot (write_value place last) home.old)
        home.old) }
    ensures value { option_copied_mut result
        ≡ value_at place (loan_found port.number slot (homes.ports_of H.domain_of port.domain home.old)) }
{
    match calls::ports_mut(home, port.domain) {
        Some(ports) => ports.value_mut(port.number, slot, place),
        None => None,
    }
}

/// A mutable reference to the user header of the loan in this slot; None if there is no such loan.
///
/// Ported from `iceoryx2::sample_mut_uninit::SampleMutUninit::user_header_mut`.
/// Example: `let stamp = lending::user_header_mut(home, port, slot)?;`
pub fn user_header_mut<'a, T: Copy, U: Copy, H: Home<T, U>>(
    home: &'a mut H,
    port: PortId,
    slot: usize,
) -> Option<&'a mut U>
where
    T: 'a,
    U: 'a,
    ensures* writes_back { sem 𝓛 (LendsIf H.row U.row home.entry result
        (λ last. loan_changed (homes.ports_of H.domain_of) (homes.with_ports H.changed) port slot (write_user_header last) home.old)
        home.old) }
    ensures value { option_copied_mut result
        ≡ option_map (λ loan. loan.user_header) (loan_found port.number slot (homes.ports_of H.domain_of port.domain home.old)) }
{
    calls::ports_mut(home, port.domain)?.user_header_mut(port.number, slot)
}

/// Sends the loan in this slot, each of whose values is written: `ServicePorts::send` says which connections take the message,
/// and when the call fails. The loan is consumed in every case.
///
/// Ported from `iceoryx2::sample_mut::SampleMut::send`.
/// Example: `let sent = lending::send(port, slot, alloc, home)?;`
pub fn send<T: Copy, U: Copy, H: Home<T, U>>(
    port: PortId,
    slot: usize,
    alloc: Global,
    home: &mut H,
) -> Result<Sent<T, U>, SendError>
    requires holds { is_written_loan (loan_found port.number slot (homes.ports_of H.domain_of port.domain home.old)) ≡ true }
    requires free { publisher_blocked port.number (homes.ports_of H.domain_of port.domain home.old) ≡ false }
    ensures { SendsSample (homes.ports_of H.domain_of) (homes.with_ports H.changed)
        (homes.publisher_degrades (λ kept. H.ForPublishers.degrades kept) H.domain_of)
        (homes.publisher_decides (λ kept. H.ForPublishers.decides kept) H.domain_of) port slot home.old result home.new }
{
    match calls::send(home, alloc, port.domain, port.number, slot) {
        Some(sent) => sent_of(port, sent),
        None => unreachable!(),
    }
}

/// Drops the loan in this slot; nothing happens if there is no such loan. The call answers whether there was one.
///
/// Ported from dropping an `iceoryx2::sample_mut::SampleMut`.
/// Example: `let was_there = lending::drop_loan(port, slot, home);`
#[tactic(auto, using(crate::proofs::Ending::placed_is_found))]
pub fn drop_loan<T: Copy, U: Copy, H: Home<T, U>>(port: PortId, slot: usize, home: &mut H) -> bool
    ensures gives_up { GivesUpLoan (homes.ports_of H.domain_of) (homes.with_ports H.changed) port slot home.old home.new }
    ensures was_there { result ≡ is_some (loan_found port.number slot (homes.ports_of H.domain_of port.domain home.old)) }
{
    match calls::ports_mut(home, port.domain) {
        Some(ports) => ports.drop_loan(port.number, slot),
        None => false,
    }
}
