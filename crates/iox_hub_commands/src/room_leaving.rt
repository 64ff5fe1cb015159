//! How ports are closed, after which the numbers are free that were reserved for the loans of a publisher.
ghost use Rattle.std.specs.Prelude.{◌≡◌, ◌-◌, Ok};
ghost use Rattle.iox_domain.specs.Loans.{spare_loans};
ghost use Rattle.iox_hub_base.specs.AsHome.{hub_ports, with_hub_ports, without_hub_publisher, without_hub_subscriber};
ghost use Rattle.iox_hub_commands.specs.Following.{LeaveStep};
ghost use Rattle.iox_hub_commands.specs.PortRoom.{spare_of, spare_named, spare_closed};

use crate::following;
use crate::numbered_hub::NumberedHub;
use crate::services::Hub;
use iox_command::{PortNumber, Reply};
use iox_delivery::PortId;
use iox_domain::calls;
use iox_domain_ports::PublisherPort;
use iox_domain_values::{Decides, Degrades};

impl<T: Copy, U: Copy, B: Decides + Degrades, D: Degrades> NumberedHub<T, U, B, D> {
    // Closes a port, as `following::leave` does. The numbers of the loans that a closed publisher could still have made are reserved no
    // longer.
    pub(crate) fn leave(&mut self, port: PortNumber) -> Reply<T>
        ensures step { LeaveStep hub_ports with_hub_ports without_hub_publisher without_hub_subscriber port self.old.made self.old.hub
            result self.new.made self.new.hub }
        ensures factories { self.new.factories ≡ self.old.factories }
        ensures pledged { self.new.pledged ≡ record self.old.pledged
            { loans = self.old.pledged.loans - spare_closed port (Ok result) self.old } }
    {
        let spare = self.spare_loans(port);
        let reply = following::leave(&mut self.made, &mut self.hub, port);
        if let Reply::Done = reply {
            self.pledged.loans = self.pledged.loans.saturating_sub(spare);
        }
        reply
    }

    // How many more loans the port may make: none if it is a subscriber, or if there is none.
    fn spare_loans(&self, port: PortNumber) -> u64
        ensures { result ≡ spare_named port self.now }
    {
        match port {
            PortNumber::Publisher(number) => match self.made.publisher(number) {
                Some(id) => spare_loans_under(&self.hub, id),
                None => 0,
            },
            PortNumber::Subscriber(_) => 0,
        }
    }
}

// How many more loans the publisher with this id may make; 0 if it isn't in the hub.
fn spare_loans_under<T: Copy, U: Copy, B: Decides + Degrades, D: Degrades>(
    hub: &Hub<T, U, B, D>,
    id: PortId,
) -> u64
    ensures { result ≡ spare_of id.number (hub_ports id.domain hub.now) }
{
    let Some(ports) = calls::ports(hub, id.domain) else {
        return 0;
    };
    match ports.publishers.get(id.number) {
        Some(port) => spare_loans_at(port),
        None => 0,
    }
}

// How many more loans the publisher may make; none if it is closed.
fn spare_loans_at<T: Copy, U: Copy>(port: &PublisherPort<T, U>) -> u64
    ensures { result ≡ spare_loans port.now }
{
    if !port.stands {
        return 0;
    }
    let slots = port.sender.slots();
    slots.most_loans().saturating_sub(slots.loans()) as u64
}
