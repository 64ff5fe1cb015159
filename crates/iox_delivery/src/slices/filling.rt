//! How the values of a loaned slice are written, by port: the functions that ports under numbers call.
ghost use Rattle.iox_domain.specs.Homes as homes;
ghost use Rattle.std.specs.Prelude.{◌≡◌, ◌∷◌, [], true, false, List, length, replicate, is_some, IfOk, Err};
ghost use Rattle.iox_delivery.specs.Container.Vectors.{MakesInTurn};
ghost use Rattle.iox_delivery.specs.Holding.{loan_found, publisher_stands, publisher_blocked};
ghost use Rattle.iox_delivery.specs.Lent.{IsReady};
ghost use Rattle.iox_delivery.specs.Publishing.{LendsSlot, AfterLoan};
ghost use Rattle.iox_delivery.specs.Slices.{each_written, WritesAll, WritesEach, LendsFilled};

use crate::{PortId, publishing};
use iox_domain::{Home, calls};
use iox_domain_ports::PublisherPort;
use iox_domain_values::LoanError;
use std::alloc::Global;

/// The publisher loans a slot for `len` values, each of which is written as `value`. The header of the message says as many
/// elements. The call fails as `publishing::loan` does. The loan can be sent at once: it is written, and no send is blocked.
///
/// Ported from `iceoryx2::port::publisher::Publisher::loan_slice`, where each value is a default.
/// Example: `let slot = loan_filled(port, alloc, home, 4, 0)?;`
pub fn loan_filled<T: Copy, U: Copy, H: Home<T, U>>(
    port: PortId,
    alloc: Global,
    home: &mut H,
    len: usize,
    value: T,
) -> Result<usize, LoanError>
    requires holds { publisher_stands port.number (homes.ports_of H.domain_of port.domain home.old) ≡ true }
    requires free { publisher_blocked port.number (homes.ports_of H.domain_of port.domain home.old) ≡ false }
    ensures lends { LendsFilled (homes.ports_of H.domain_of) (homes.with_ports H.changed) port len value home.old result home.new }
    ensures ready { IfOk result (λ slot. IsReady port.number (replicate len value) len slot
        (homes.ports_of H.domain_of port.domain home.new)) }
{
    let slot = publishing::loan(port, alloc, home, len, len as u64)?;
    fill(port, slot, home, len, value);
    Ok(slot)
}

// Writes all values of a loan at once.
pub(crate) fn write_all<T: Copy, U: Copy, H: Home<T, U>>(
    port: PortId,
    slot: usize,
    home: &mut H,
    values: &[T],
)
    ensures { WritesAll (homes.ports_of H.domain_of) (homes.with_ports H.changed) port slot values.now home.old home.new }
{
    if let Some(ports) = calls::ports_mut(home, port.domain) {
        let _ = ports.write_from_slice(port.number, slot, values);
    }
}

// Writes one value at `len` places of a loan.
fn fill<T: Copy, U: Copy, H: Home<T, U>>(
    port: PortId,
    slot: usize,
    home: &mut H,
    len: usize,
    value: T,
)
    ensures { WritesEach (homes.ports_of H.domain_of) (homes.with_ports H.changed) port slot (replicate len value) home.old home.new }
{
    let Some(ports) = calls::ports_mut(home, port.domain) else {
        return;
    };
    if let Some(publisher) = ports.publishers.get_mut(port.number) {
        fill_each(publisher, slot, len, value);
    }
}

// Writes at `len` places of a loan what a function returns for each place.
pub(crate) fn write_made<T: Copy, U: Copy, H: Home<T, U>, F: FnMut(usize) -> T>(
    port: PortId,
    slot: usize,
    home: &mut H,
    len: usize,
    make: &mut F,
)
    requires holds { is_some (loan_found port.number slot (homes.ports_of H.domain_of port.domain home.old)) ≡ true }
    requires callable { F.IsAlwaysCallable make.old }
    ensures writes { (values : List T) × MakesInTurn (λ p place value q. F.step p place value q) make.old 0 values make.new
        × (length values ≡ len) × WritesEach (homes.ports_of H.domain_of) (homes.with_ports H.changed) port slot values home.old home.new }
    ensures still_callable { F.IsAlwaysCallable make.new }
{
    let Some(ports) = calls::ports_mut(home, port.domain) else {
        unreachable!();
    };
    match ports.publishers.get_mut(port.number) {
        Some(publisher) => write_each(publisher, slot, len, make),
        None => unreachable!(),
    }
}

// Writes one value at `len` places of a loan of a publisher.
fn fill_each<T: Copy, U: Copy>(
    publisher: &mut PublisherPort<T, U>,
    slot: usize,
    len: usize,
    value: T,
)
    ensures { publisher.new ≡ each_written slot 0 (replicate len value) publisher.old }
{
    for place in 0..len {
        let _ = publisher.write(slot, place, value);
    }
}

// Writes at `len` places of a loan of a publisher what a function returns for each place.
fn write_each<T: Copy, U: Copy, F: FnMut(usize) -> T>(
    publisher: &mut PublisherPort<T, U>,
    slot: usize,
    len: usize,
    make: &mut F,
)
    requires { F.IsAlwaysCallable make.old }
    ensures writes { (values : List T) × MakesInTurn (λ p place value q. F.step p place value q) make.old 0 values make.new
        × (length values ≡ len) × (publisher.new ≡ each_written slot 0 values publisher.old) }
    ensures still_callable { F.IsAlwaysCallable make.new }
{
    for place in 0..len {
        let _ = publisher.write(slot, place, make(place));
    }
}
