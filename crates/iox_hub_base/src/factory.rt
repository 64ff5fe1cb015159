//! A service that is open in a hub.
ghost use Rattle.std.specs.Prelude.{◌≡◌, Some};
ghost use Rattle.iox_negotiate_table.specs.Describe.Within.{HasForm};

use iox_describe::pattern::Pattern;
use iox_describe::{AttributeSpecifier, Description, ServiceName};
use iox_negotiate as negotiated;
use iox_negotiate_base::errors::CloseError;

/// A service that is open in a hub, and from which its ports are made. The factory is to be closed in the same hub.
///
/// Ported from `iceoryx2::service::port_factory`, as one type for the three patterns.
#[derive(Drop)]
pub struct PortFactory<P: Pattern> {
    pub(crate) service: negotiated::PortFactory<P>,
    pub(crate) owner: u64,
}

/// The error of a close: the factory wasn't closed, or its description or segment couldn't be removed.
#[derive(Drop)]
pub struct NotClosed<P: Pattern> {
    /// Why the factory wasn't closed, or what couldn't be removed.
    pub error: CloseError,
    /// The factory, if it is handed back: at `StillInUse`.
    pub factory: Option<PortFactory<P>>,
}

impl<P: Pattern> PortFactory<P> {
    /// The name of the service.
    /// Example: `factory.name().as_bytes()`
    pub fn name(&self) -> &ServiceName
        ensures { result.now ≡ self.now.service.membership.service.description.name }
    {
        self.service.name()
    }

    /// The settings on which the nodes of the service agreed.
    /// Example: `let history = factory.static_config().history_size;`
    pub fn static_config(&self) -> &P::StaticConfig
        ensures { P.static_config self.now.service.membership.service.description.settings ≡ Some result.now }
    {
        self.service.static_config()
    }

    /// The attributes of the service.
    /// Example: `let pairs = factory.attributes().as_slice();`
    pub fn attributes(&self) -> &AttributeSpecifier
        ensures { result.now ≡ self.now.service.membership.service.description.attributes }
    {
        self.service.attributes()
    }

    /// The description of the service, on which its nodes agree.
    ///
    /// Not in `iceoryx2`.
    /// Example: `let hash = factory.description().service_hash();`
    pub fn description(&self) -> &Description
        ensures value { result.now ≡ self.now.service.membership.service.description }
        ensures form { HasForm self.now.service.membership.service.description }
    {
        self.service.description()
    }

    /// The id of the factory's hub.
    /// Example: `let is_of_it = factory.hub() == hub.id();`
    pub fn hub(&self) -> u64
        ensures { result ≡ self.now.service.membership.storage }
    {
        self.service.storage()
    }

    /// The number of the service.
    /// Example: `let service = factory.number();`
    pub fn number(&self) -> u64
        ensures { result ≡ self.now.service.membership.service.number }
    {
        self.service.number()
    }

    /// The number of the factory's node.
    /// Example: `let node = factory.node();`
    pub fn node(&self) -> u64
        ensures { result ≡ self.now.service.membership.node }
    {
        self.service.node()
    }

    /// The number of the factory, counted from 1 in each hub; it is the owner of the ports that the factory makes.
    /// Example: `let owner = factory.owner();`
    pub fn owner(&self) -> u64
        ensures { result ≡ self.now.owner }
    {
        self.owner
    }
}
