//! The tables: which port, loan or sample has a number.
ghost use Rattle.iox_domain.specs.Homes as homes;
ghost use Rattle.std.specs.Prelude.{◌≡◌, true, false, IfSome};
ghost use Rattle.iox_delivery.specs.Holding.{publisher_stands, publisher_blocked};
ghost use Rattle.iox_container.specs.NumberTable.{value_at};
ghost use Rattle.iox_hub_commands.specs.Calls.{may_lend, ready};
ghost use Rattle.iox_hub_commands.specs.Tables.{IsEmpty, port_under, lender};

use iox_container::by_number::Numbered;
use iox_delivery::PortId;
use iox_domain::{Home, calls};
use iox_domain_ports::Taken;
use std::alloc::Global;

/// A publisher, and whether its messages are slices.
#[derive(Clone, Copy)]
pub struct MadePublisher {
    /// The port's id.
    pub port: PortId,
    /// Whether its messages are slices; otherwise each is one value.
    pub holds_slices: bool,
}

/// A loan that is out.
#[derive(Clone, Copy)]
pub struct MadeLoan {
    /// The loan's publisher.
    pub port: PortId,
    /// The slot of the publisher.
    pub slot: usize,
}

/// A sample that is held.
#[derive(Clone, Copy)]
pub struct MadeSample {
    /// The sample's subscriber.
    pub port: PortId,
    /// Which of the subscriber's samples it is.
    pub taken: Taken,
}

/// The ports, loans and samples that a run of commands made, each kind by numbers that are counted from 1. A number names nothing any
/// longer once its port is closed, its loan is sent or dropped, or its sample is released.
///
/// Each call is handed a home, which contains the domains. Each answers None or false, and nothing happens, if a number names nothing. Not
/// in `iceoryx2`.
#[derive(Drop)]
pub struct Made {
    /// The open publishers.
    pub publishers: Numbered<MadePublisher>,
    /// The open subscribers.
    pub subscribers: Numbered<PortId>,
    /// The loans that are out.
    pub loans: Numbered<MadeLoan>,
    /// The samples that are held.
    pub samples: Numbered<MadeSample>,
}

impl Made {
    /// Tables in which nothing was made yet. It takes no memory.
    pub fn new(alloc: Global) -> Self
        ensures { IsEmpty result }
    {
        Made {
            publishers: Numbered::new(alloc),
            subscribers: Numbered::new(alloc),
            loans: Numbered::new(alloc),
            samples: Numbered::new(alloc),
        }
    }

    /// The port of the publisher with this number.
    pub fn publisher(&self, publisher: u64) -> Option<PortId>
        ensures { result ≡ port_under (value_at self.now.publishers publisher) }
    {
        match self.publishers.get(publisher) {
            Some(made) => Some(made.port),
            None => None,
        }
    }

    /// The port of the subscriber with this number.
    pub fn subscriber(&self, subscriber: u64) -> Option<PortId>
        ensures { result ≡ value_at self.now.subscribers subscriber }
    {
        self.subscribers.get(subscriber).copied()
    }

    /// The port of the publisher with this number, if its messages may have this many elements; messages that aren't slices have one.
    pub fn lender(&self, publisher: u64, elements: u64) -> Option<PortId>
        ensures { result ≡ lender elements (value_at self.now.publishers publisher) }
    {
        match self.publishers.get(publisher) {
            Some(made) => {
                if made.holds_slices || elements == 1 {
                    Some(made.port)
                } else {
                    None
                }
            }
            None => None,
        }
    }

    // The port of the publisher, if it may also loan: its domain is in the home, it is open, and no send of it is blocked.
    pub(crate) fn ready_lender<T: Copy, U: Copy, H: Home<T, U>>(
        &self,
        home: &H,
        publisher: u64,
        elements: u64,
    ) -> Option<PortId>
        ensures port { result ≡ ready (homes.ports_of H.domain_of) (lender elements (value_at self.now.publishers publisher)) home.now }
        ensures stands { IfSome result (λ port. publisher_stands port.number (homes.ports_of H.domain_of port.domain home.now) ≡ true) }
        ensures free { IfSome result (λ port. publisher_blocked port.number (homes.ports_of H.domain_of port.domain home.now) ≡ false) }
    {
        let port = self.lender(publisher, elements)?;
        if may_lend(port, home) {
            Some(port)
        } else {
            None
        }
    }
}

// Whether a publisher may loan: its domain is in the home, it is open, and no send of it is blocked.
fn may_lend<T: Copy, U: Copy, H: Home<T, U>>(port: PortId, home: &H) -> bool
    ensures both { result ≡ may_lend (homes.ports_of H.domain_of) port home.now }
    ensures stands { result ≡ true → publisher_stands port.number (homes.ports_of H.domain_of port.domain home.now) ≡ true }
    ensures free { result ≡ true → publisher_blocked port.number (homes.ports_of H.domain_of port.domain home.now) ≡ false }
{
    let Some(ports) = calls::ports(home, port.domain) else {
        return false;
    };
    match ports.publishers.get(port.number) {
        Some(publisher) => publisher.stands && !publisher.sender.is_sending(),
        None => false,
    }
}
