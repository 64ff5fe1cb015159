//! A service that is open, whatever its pattern.
ghost use Rattle.std.specs.Prelude.{◌≡◌, false, nat_eq};
ghost use Rattle.std.specs.Option.{option_map};
ghost use Rattle.iox_negotiate_table.specs.Describe.Within.{HasForm};
ghost use Rattle.iox_hub_base.specs.Closing.{in_use};
ghost use Rattle.iox_hub_commands.specs.Closing.{Leaves};
ghost use Rattle.iox_hub_commands.specs.ServicesTables.{parts_of};

use iox_describe::Description;
use iox_describe::pattern::{Event, Pattern, PublishSubscribe, RequestResponse};
use iox_hub_base::{Hub, PortFactory};
use iox_negotiate_base::errors::CloseError;

/// A service that is open, by its pattern.
///
/// Not in `iceoryx2`.
#[derive(Drop)]
pub enum MadeFactory {
    /// A publish-subscribe service.
    PublishSubscribe(PortFactory<PublishSubscribe>),
    /// An event service.
    Event(PortFactory<Event>),
    /// A request-response service.
    RequestResponse(PortFactory<RequestResponse>),
}

impl MadeFactory {
    /// The description of the service, on which its nodes agree.
    pub fn description(&self) -> &Description
        ensures value { result.now ≡ (parts_of self.now).0.service.description }
        ensures form { HasForm (parts_of self.now).0.service.description }
    {
        match self {
            MadeFactory::PublishSubscribe(factory) => factory.description(),
            MadeFactory::Event(factory) => factory.description(),
            MadeFactory::RequestResponse(factory) => factory.description(),
        }
    }

    /// Whether the service is of this hub.
    pub fn is_of<T: Copy, U: Copy, B: Drop, D: Drop>(&self, hub: &Hub<T, U, B, D>) -> bool
        ensures { result ≡ nat_eq (parts_of self.now).0.storage hub.now.table.id }
    {
        match self {
            MadeFactory::PublishSubscribe(factory) => hub.holds(factory),
            MadeFactory::Event(factory) => hub.holds(factory),
            MadeFactory::RequestResponse(factory) => hub.holds(factory),
        }
    }

    /// Whether something keeps the service from being closed in its hub.
    pub fn is_in_use<T: Copy, U: Copy, B: Drop, D: Drop>(&self, hub: &Hub<T, U, B, D>) -> bool
        requires { (parts_of self.now).0.storage ≡ hub.now.table.id }
        ensures { result ≡ in_use (parts_of self.now).0.service.number (parts_of self.now).1 hub.now }
    {
        match self {
            MadeFactory::PublishSubscribe(factory) => hub.is_in_use(factory),
            MadeFactory::Event(factory) => hub.is_in_use(factory),
            MadeFactory::RequestResponse(factory) => hub.is_in_use(factory),
        }
    }

    /// Closes the service in its hub, if nothing keeps it from being closed. It is consumed, whatever the answer.
    ///
    /// Refused with `UnableToRemoveDescription` and `UnableToRemoveSegment` as `Hub::close` refuses it.
    pub fn close<T: Copy, U: Copy, B: Drop, D: Drop>(
        self,
        hub: &mut Hub<T, U, B, D>,
    ) -> Result<(), CloseError>
        requires is_of { (parts_of self).0.storage ≡ hub.old.table.id }
        requires unused { in_use (parts_of self).0.service.number (parts_of self).1 hub.old ≡ false }
        ensures { Leaves (parts_of self).0 hub.old result hub.new }
    {
        match self {
            MadeFactory::PublishSubscribe(factory) => close_unused(factory, hub),
            MadeFactory::Event(factory) => close_unused(factory, hub),
            MadeFactory::RequestResponse(factory) => close_unused(factory, hub),
        }
    }
}

// Closes a factory that nothing keeps from being closed.
fn close_unused<P: Pattern, T: Copy, U: Copy, B: Drop, D: Drop>(
    factory: PortFactory<P>,
    hub: &mut Hub<T, U, B, D>,
) -> Result<(), CloseError>
    requires is_of { factory.service.membership.storage ≡ hub.old.table.id }
    requires unused { in_use factory.service.membership.service.number factory.owner hub.old ≡ false }
    ensures { Leaves factory.service.membership hub.old result hub.new }
{
    match hub.close(factory) {
        Ok(()) => Ok(()),
        Err(refused) => Err(refused.error),
    }
}
