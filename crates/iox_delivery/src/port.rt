//! Ports as values.
ghost use Rattle.std.specs.Prelude.{◌≡◌};

use crate::port_id::PortId;
use iox_domain::DomainId;
use std::marker::PhantomData;

/// A port of a service as a value, for payloads of one kind: its number in its domain, and what is particular to publishers or
/// to subscribers. It is open until it is closed. A copy is the same port.
#[derive(Clone, Copy)]
pub struct Port<T, U, K, S> {
    pub(crate) port: PortId,
    pub(crate) side: S,
    pub(crate) of: PhantomData<(T, U, K)>,
}

impl<T: Copy, U: Copy, K, S: Copy> Port<T, U, K, S> {
    /// The port's number in its domain.
    ///
    /// Ported from `iceoryx2::port::publisher::Publisher::id` and `iceoryx2::port::subscriber::Subscriber::id`, with a number of 64 bits.
    /// Example: `let number = publisher.id();`
    pub fn id(&self) -> u64
        ensures { result ≡ self.now.port.number }
    {
        self.port.number
    }

    /// The id of the port's domain.
    /// Example: `let domain = publisher.domain();`
    pub fn domain(&self) -> DomainId
        ensures { result ≡ self.now.port.domain }
    {
        self.port.domain
    }

    /// The id of the port, from which `of_port` makes a value again. The port stays open.
    ///
    /// Not in `iceoryx2`.
    /// Example: `let port = publisher.into_port();`
    pub fn into_port(self) -> PortId
        ensures { result ≡ self.port }
    {
        let Port {
            port,
            side: _,
            of: _,
        } = self;
        port
    }
}
