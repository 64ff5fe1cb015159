//! How services are created and opened in a hub.
ghost use Rattle.std.specs.Prelude.{◌≡◌, ℕ, List, Option, true};
ghost use Rattle.std.specs.Result.{result_map_both};
ghost use Rattle.iox_delivery_factories.specs.DescribeBase.Detail.{detail};
ghost use Rattle.iox_delivery_factories.specs.DescribeBase.Hash.{service_hash_of};
ghost use Rattle.iox_delivery_factories.specs.DescribeBase.declared.type_detail.TypeVariant.TheVariants.{FixedSize};
ghost use Rattle.iox_delivery_factories.specs.DescribeSettings.Agreement.{AreWithinLimits, HasNoRoomForHistory};
ghost use Rattle.iox_hub_base.specs.Hubs.{holds_builder};
ghost use Rattle.iox_hub_base.specs.OfPattern.{CreatesOfPattern, OpensJudged, EitherOfPattern};

use crate::factory::PortFactory;
use crate::hub::Hub;
use crate::opening::{create, open, open_or_create};
use iox_describe::{AttributeSpecifier, AttributeVerifier, ZeroCopySend};
use iox_negotiate::{Negotiated, ServiceBuilder};
use iox_negotiate_table::StepList;
use iox_queues_base::Words;
use std::alloc::Global;

/// A builder that creates or opens one service in a hub, for a node that the hub made. `Hub::service_builder` returns it; `holds` tests
/// what each call demands.
///
/// Each call is handed lists of actions of other nodes: the first list is done before the call's first storage operation, the second before
/// its second, and so on. If the call opens a publish-subscribe service whose description fits the hub, it makes the domain of the
/// service's ports, unless the hub has one. If memory runs out for the domain, the factory is closed again, and the call is refused with
/// `OutOfMemory`.
///
/// The hub first makes capacity for the service's entry. If memory runs out there, nothing changes except perhaps that capacity, and the
/// call is refused with `OutOfMemory` (`open_or_create` with that of an opening), except if it is refused anyway:
///
/// - a creation with impossible settings is refused for its settings;
/// - an opening before whose first lookup no other node acts is refused for what that lookup finds: with `HangsInCreation` if another node
///   is creating the service, and with `DoesNotExist` if there is no service; there `open_or_create` is refused for impossible settings.
///
/// Not in `iceoryx2`: the builders of `iceoryx2` find the services of their machine by themselves.
pub trait HubBuilder<P: Negotiated>: Sized {
    // the id of the builder's hub, if the builder belongs to a hub
    ghost hub_of: { Self → Option ℕ };

    // the node that creates or opens
    ghost node_of: { Self → ℕ };

    // the name of the service
    ghost name_of: { Self → List ℕ };

    // what is asked of the service
    ghost requirement_of: { Self → P.Requirement };

    /// The builder of the service, independent of the storage over which the service is negotiated.
    /// Example: `let service = builder.builder();`
    fn builder(self) -> ServiceBuilder<P>
        ensures { result ≡ record { hub = hub_of self; node = node_of self; name = name_of self; requirement = requirement_of self } };

    /// Whether the builder belongs to this hub, and is of a node that the hub made. A builder that `Builder::new` made belongs to no hub.
    /// Example: `let is_of_it = builder.holds(&hub);`
    fn holds<T: Copy, U: Copy, B: Drop, D: Drop>(&self, hub: &Hub<T, U, B, D>) -> bool
        ensures { result ≡ holds_builder (hub_of self.now) (node_of self.now) hub.now };

    /// Creates the service, with no attributes except those that were asked for. See `create_with_attributes_in`.
    /// Example: `let factory = builder.create_in(alloc, &mut hub, Vec::new(alloc))?;`
    final fn create_in<T: Words + ZeroCopySend, U: Copy + ZeroCopySend, B: Drop, D: Drop>(
        self,
        alloc: Global,
        hub: &mut Hub<T, U, B, D>,
        steps: Vec<StepList>,
    ) -> Result<PortFactory<P>, P::CreateError>
        requires { holds_builder (hub_of self) (node_of self) hub.old ≡ true }
        ensures { let config = P.adjusted (P.asked (requirement_of self)) in CreatesOfPattern
            (detail FixedSize T.name T.size T.alignment) (detail FixedSize U.name U.size U.alignment) P.pattern (P.settings config)
            (AreWithinLimits (P.settings config)) (HasNoRoomForHistory (P.settings config)) P.create_error (node_of self) (name_of self)
            (P.attributes (requirement_of self)).pairs steps.items hub.old
            (result_map_both (λ factory. (factory.service.membership, factory.owner)) (λ error. error) result) hub.new }
    {
        create(alloc, self.builder(), None, hub, steps)
    }

    /// Creates the service with these attributes.
    ///
    /// Refused with the errors of `ServiceBuilder::create_with_attributes`.
    /// Example: `let factory = builder.create_with_attributes_in(alloc, &attributes, &mut hub, Vec::new(alloc))?;`
    final fn create_with_attributes_in<
        T: Words + ZeroCopySend,
        U: Copy + ZeroCopySend,
        B: Drop,
        D: Drop,
    >(
        self,
        alloc: Global,
        attributes: &AttributeSpecifier,
        hub: &mut Hub<T, U, B, D>,
        steps: Vec<StepList>,
    ) -> Result<PortFactory<P>, P::CreateError>
        requires { holds_builder (hub_of self) (node_of self) hub.old ≡ true }
        ensures { let asked = P.asked (requirement_of self) in let config = P.adjusted asked in CreatesOfPattern
            (detail FixedSize T.name T.size T.alignment) (detail FixedSize U.name U.size U.alignment) P.pattern (P.settings config)
            (AreWithinLimits (P.settings config)) (HasNoRoomForHistory (P.settings config))
            P.create_error (node_of self) (name_of self) attributes.now steps.items
            hub.old (result_map_both (λ factory. (factory.service.membership, factory.owner)) (λ error. error) result) hub.new }
    {
        create(alloc, self.builder(), Some(attributes), hub, steps)
    }

    /// Opens the service if it meets the builder's requirement. See `open_with_attributes_in`.
    /// Example: `let factory = builder.open_in(alloc, &mut hub, Vec::new(alloc))?;`
    final fn open_in<T: Words + ZeroCopySend, U: Copy + ZeroCopySend, B: Drop, D: Drop>(
        self,
        alloc: Global,
        hub: &mut Hub<T, U, B, D>,
        steps: Vec<StepList>,
    ) -> Result<PortFactory<P>, P::OpenError>
        requires { holds_builder (hub_of self) (node_of self) hub.old ≡ true }
        ensures { OpensJudged (detail FixedSize T.name T.size T.alignment) (detail FixedSize U.name U.size U.alignment) P.open_error
            (service_hash_of P.pattern (name_of self)) (node_of self) (λ given. P.verdict (requirement_of self) given) steps.items hub.old
            (result_map_both (λ factory. (factory.service.membership, factory.owner)) (λ error. error) result) hub.new }
    {
        open(alloc, self.builder(), None, hub, steps)
    }

    /// Opens the service if it meets the builder's requirement, whose attributes are replaced by these.
    ///
    /// Refused with the errors of `ServiceBuilder::open_with_attributes`.
    /// Example: `let factory = builder.open_with_attributes_in(alloc, attributes, &mut hub, Vec::new(alloc))?;`
    final fn open_with_attributes_in<
        T: Words + ZeroCopySend,
        U: Copy + ZeroCopySend,
        B: Drop,
        D: Drop,
    >(
        self,
        alloc: Global,
        attributes: AttributeVerifier,
        hub: &mut Hub<T, U, B, D>,
        steps: Vec<StepList>,
    ) -> Result<PortFactory<P>, P::OpenError>
        requires { holds_builder (hub_of self) (node_of self) hub.old ≡ true }
        ensures { let required = P.with_attributes (requirement_of self) attributes in OpensJudged
            (detail FixedSize T.name T.size T.alignment) (detail FixedSize U.name U.size U.alignment) P.open_error
            (service_hash_of P.pattern (name_of self)) (node_of self) (λ given. P.verdict required given) steps.items hub.old
            (result_map_both (λ factory. (factory.service.membership, factory.owner)) (λ error. error) result) hub.new }
    {
        open(alloc, self.builder(), Some(attributes), hub, steps)
    }

    /// Opens the service if it meets the builder's requirement, or creates it with the required pairs if it doesn't exist. See
    /// `open_or_create_with_attributes_in`.
    /// Example: `let factory = builder.open_or_create_in(alloc, &mut hub, Vec::new(alloc))?;`
    final fn open_or_create_in<T: Words + ZeroCopySend, U: Copy + ZeroCopySend, B: Drop, D: Drop>(
        self,
        alloc: Global,
        hub: &mut Hub<T, U, B, D>,
        steps: Vec<StepList>,
    ) -> Result<PortFactory<P>, P::OpenOrCreateError>
        requires { holds_builder (hub_of self) (node_of self) hub.old ≡ true }
        ensures { let required = requirement_of self in let config = P.adjusted (P.asked required) in EitherOfPattern
            (detail FixedSize T.name T.size T.alignment) (detail FixedSize U.name U.size U.alignment) P.pattern (P.settings config)
            (AreWithinLimits (P.settings config)) (HasNoRoomForHistory (P.settings config))
            (λ given. P.verdict required given) P.open_or_create_error
            (node_of self) (name_of self) (P.attributes required).pairs steps.items hub.old
            (result_map_both (λ factory. (factory.service.membership, factory.owner)) (λ error. error) result) hub.new }
    {
        open_or_create(alloc, self.builder(), None, hub, steps)
    }

    /// Opens the service if it meets the builder's requirement, whose attributes are replaced by these, or creates it with the required
    /// pairs if it doesn't exist.
    ///
    /// Refused with the errors of `ServiceBuilder::open_or_create_with_attributes`.
    /// Example: `let factory = builder.open_or_create_with_attributes_in(alloc, attributes, &mut hub, Vec::new(alloc))?;`
    final fn open_or_create_with_attributes_in<
        T: Words + ZeroCopySend,
        U: Copy + ZeroCopySend,
        B: Drop,
        D: Drop,
    >(
        self,
        alloc: Global,
        attributes: AttributeVerifier,
        hub: &mut Hub<T, U, B, D>,
        steps: Vec<StepList>,
    ) -> Result<PortFactory<P>, P::OpenOrCreateError>
        requires { holds_builder (hub_of self) (node_of self) hub.old ≡ true }
        ensures { let required = P.with_attributes (requirement_of self) attributes in
            let config = P.adjusted (P.asked required) in EitherOfPattern
            (detail FixedSize T.name T.size T.alignment) (detail FixedSize U.name U.size U.alignment) P.pattern (P.settings config)
            (AreWithinLimits (P.settings config)) (HasNoRoomForHistory (P.settings config))
            (λ given. P.verdict required given) P.open_or_create_error
            (node_of self) (name_of self) (P.attributes required).pairs steps.items hub.old
            (result_map_both (λ factory. (factory.service.membership, factory.owner)) (λ error. error) result) hub.new }
    {
        open_or_create(alloc, self.builder(), Some(attributes), hub, steps)
    }
}

impl<P: Negotiated> HubBuilder<P> for ServiceBuilder<P> {
    ghost hub_of = { λ builder. builder.hub };

    ghost node_of = { λ builder. builder.node };

    ghost name_of = { λ builder. builder.name };

    ghost requirement_of = { λ builder. builder.requirement };

    fn builder(self) -> ServiceBuilder<P> {
        self
    }

    fn holds<T: Copy, U: Copy, B: Drop, D: Drop>(&self, hub: &Hub<T, U, B, D>) -> bool {
        match self.hub() {
            Some(id) => id == hub.id() && hub.has_node(self.node()),
            None => false,
        }
    }
}
