//! The ports of a service.
ghost use Rattle.std.specs.Prelude.{◌≡◌, IfOk};
ghost use Rattle.iox_domain.specs.Ports.{no_ports};

use crate::ports::roll::Roll;
use crate::ports::subscribers::Subscribers;
use iox_domain_ports::{PublisherEntry, Publishers, SubscriberEntry};
use iox_domain_values::ServiceSizes;
use std::alloc::{AllocError, Global};

/// The ports of a service, by their numbers.
///
/// Ported from what the ports of an `iceoryx2` service share: its dynamic config, and their segments and connections.
#[derive(Drop)]
pub struct ServicePorts<T, U> {
    /// The number of the service.
    pub service: u64,
    /// The limits of the service.
    pub sizes: ServiceSizes,
    /// The number that the next port gets: 1 at first, and each number once.
    pub next_port: u64,
    /// The list of publishers.
    pub publisher_list: Roll<PublisherEntry>,
    /// The list of subscribers.
    pub subscriber_list: Roll<SubscriberEntry>,
    /// The publishers, with their messages and connections. A closed one stays until nothing of it is in use.
    pub publishers: Publishers<T, U>,
    /// The subscribers. A closed one stays until all samples that it received are released.
    pub subscribers: Subscribers,
}

impl<T: Copy, U: Copy> ServicePorts<T, U> {
    /// A service without ports. Its lists take hardly any memory before a port is created. The call fails only if an allocation
    /// fails.
    pub fn new(alloc: Global, service: u64, sizes: ServiceSizes) -> Result<Self, AllocError>
        ensures { IfOk result (λ ports. ports ≡ no_ports service sizes) }
    {
        Ok(ServicePorts {
            service,
            sizes,
            next_port: 1,
            publisher_list: Roll::new(alloc, sizes.max_publishers as usize)?,
            subscriber_list: Roll::new(alloc, sizes.max_subscribers as usize)?,
            publishers: Publishers::new(alloc),
            subscribers: Subscribers::new(alloc),
        })
    }
}
