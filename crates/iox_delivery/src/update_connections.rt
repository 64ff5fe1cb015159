//! The trait of ports that follow those of the other side.
ghost use Rattle.iox_domain.specs.Homes as homes;
ghost use Rattle.std.specs.Prelude.{◌≡◌, ℕ, Bool, Option, Some, Result, true};
ghost use Rattle.iox_domain.specs.AtHomes.{AtDomain};
ghost use Rattle.iox_domain.specs.declared.ports.service_ports.ServicePorts.{ServicePorts};
ghost use Rattle.iox_domain.specs.DomainValues.declared.degradation.DegradationInfo.{DegradationInfo};
ghost use Rattle.iox_domain.specs.DomainValues.declared.degradation.DegradationAction.{DegradationAction};
ghost use Rattle.iox_domain.specs.DomainValues.declared.connection_failure.ConnectionFailure.{ConnectionFailure};
ghost use Rattle.iox_delivery.specs.declared.port_id.PortId.{PortId};

use crate::port_id::PortId;
use iox_domain::Home;
use iox_domain_values::ConnectionFailure;
use std::alloc::Global;

/// A port that follows the ports of the other side of its service.
///
/// Ported from `iceoryx2::port::update_connections::UpdateConnections`.
pub trait UpdateConnections<T, U> {
    // The id of the port.
    ghost port_of: { Self → PortId };

    // Whether the port with this number may follow: it is open, and no send of it is blocked.
    ghost may_follow: { ℕ → Option (ServicePorts T U) → Bool };

    // What following answers and changes at the port with this number, if the handlers of publishers and of subscribers may
    // answer so about a failed connection.
    ghost follows: { (DegradationInfo → DegradationAction → Type 0) → (DegradationInfo → DegradationAction → Type 0) → ℕ
        → ServicePorts T U → Option (Result (Unit {0}) ConnectionFailure) → ServicePorts T U → Type 0 };

    /// Follows the ports of the other side that were created and closed since the last call. If a connection fails, the handler
    /// says whether the call does.
    ///
    /// Ported from `iceoryx2::port::update_connections::UpdateConnections::update_connections`.
    /// Example: `publisher.update_connections(alloc, home)?;`
    fn update_connections<H: Home<T, U>>(
        &self,
        alloc: Global,
        home: &mut H,
    ) -> Result<(), ConnectionFailure>
        requires { may_follow (port_of self.now).number (homes.ports_of H.domain_of (port_of self.now).domain home.old) ≡ true }
        ensures { AtDomain (λ after. homes.with_ports H.changed (port_of self.now).domain after home.old)
            (follows (homes.publisher_degrades (λ kept. H.ForPublishers.degrades kept) H.domain_of (port_of self.now).domain
            (port_of self.now).number home.old)
            (homes.subscriber_degrades (λ kept. H.ForSubscribers.degrades kept) H.domain_of (port_of self.now).domain
            (port_of self.now).number home.old) (port_of self.now).number)
            (homes.ports_of H.domain_of (port_of self.now).domain home.old) home.old (Some result) home.new };
}
