//! Builders: the caller names what is asked of a service, setting by setting, and then creates or opens the service.
ghost use Rattle.std.specs.Prelude.{◌≡◌, [], IsOk, IfOk, None, Some};
ghost use Rattle.std.specs.Result.{result_map_both};
ghost use Rattle.iox_negotiate_base.specs.DescribeBase.Attributes.{required};
ghost use Rattle.iox_negotiate_base.specs.DescribeBase.Hash.{service_hash_of};
ghost use Rattle.iox_negotiate_base.specs.DescribeSettings.Agreement.{agreement, AreWithinLimits, HasNoRoomForHistory};
ghost use Rattle.iox_negotiate_base.specs.DescribeVerdict.PublishSubscribeClauses as publish_subscribe_of;
ghost use Rattle.iox_negotiate_base.specs.DescribeVerdict.EventClauses as event_of;
ghost use Rattle.iox_negotiate_base.specs.DescribeVerdict.RequestResponseClauses as request_response_of;
ghost use Rattle.iox_negotiate_base.specs.Opening.{Opens};
ghost use Rattle.iox_negotiate.specs.Negotiation.{Negotiates, Creates, Either};
ghost use Rattle.iox_negotiate.specs.Types.{types_of};

use crate::asked::Asked;
use crate::factory::PortFactory;
use crate::negotiation;
use crate::patterns::Negotiated;
use crate::payload::{Payload, types_of};
use iox_describe::pattern::{Event, PublishSubscribe, RequestResponse};
use iox_describe::{AttributeSpecifier, AttributeVerifier, ServiceName, requirement};
use iox_negotiate_base::Storage;
use std::alloc::{AllocError, Global};

pub mod event;
pub mod publish_subscribe;
pub mod request_response;

/// A builder of a service with this name for a node, before the messaging pattern is chosen.
///
/// Ported from `iceoryx2::service::builder::Builder`.
#[derive(Clone, Copy, Debug)]
pub struct Builder {
    hub: Option<u64>,
    node: u64,
    name: ServiceName,
}

impl Builder {
    /// A builder of the service with this name, for this node, which belongs to no hub.
    /// Example: `Builder::new(1, name)`
    pub fn new(node: u64, name: ServiceName) -> Self
        ensures { result ≡ record { hub = None; node = node; name = name } }
    {
        Builder {
            hub: None,
            node,
            name,
        }
    }

    /// A builder of the service with this name, for this node of the hub with this id.
    ///
    /// Not in `iceoryx2`.
    /// Example: `Builder::of_hub(hub.id(), node.number(), name)`
    pub fn of_hub(hub: u64, node: u64, name: ServiceName) -> Self
        ensures { result ≡ record { hub = Some hub; node = node; name = name } }
    {
        let hub = Some(hub);
        Builder { hub, node, name }
    }

    /// A builder of an event service that names no setting. It doesn't allocate.
    /// Example: `Builder::new(1, name).event()`
    pub fn event(self) -> ServiceBuilder<Event>
        ensures { result ≡ record { hub = self.hub; node = self.node; name = self.name; requirement = event_of.unnamed (required [] []) } }
    {
        ServiceBuilder {
            hub: self.hub,
            node: self.node,
            name: self.name,
            requirement: requirement::event::Requirement::new(AttributeVerifier::new()),
        }
    }

    /// A builder of a publish-subscribe service with this payload and no user header, which names no other setting. It doesn't allocate.
    /// Example: `Builder::new(1, name).publish_subscribe::<u64>()`
    pub fn publish_subscribe<M: Payload>(self) -> ServiceBuilder<PublishSubscribe>
        ensures { result ≡ record {
          hub = self.hub;
          node = self.node;
          name = self.name;
          requirement
              = publish_subscribe_of.unnamed (types_of M.detail) (required [] []);
        } }
    {
        ServiceBuilder {
            hub: self.hub,
            node: self.node,
            name: self.name,
            requirement: requirement::publish_subscribe::Requirement::new(
                types_of(M::type_detail()),
                AttributeVerifier::new(),
            ),
        }
    }

    /// A builder of a request-response service with these payloads and no user headers, which names no other setting. It doesn't allocate.
    /// Example: `Builder::new(1, name).request_response::<u64, Slice<u8>>()`
    pub fn request_response<M: Payload, N: Payload>(self) -> ServiceBuilder<RequestResponse>
        ensures { result ≡ record {
          hub = self.hub;
          node = self.node;
          name = self.name;
          requirement
              = request_response_of.unnamed (types_of M.detail) (types_of N.detail) (required [] []);
        } }
    {
        let requests = types_of(M::type_detail());
        let responses = types_of(N::type_detail());
        ServiceBuilder {
            hub: self.hub,
            node: self.node,
            name: self.name,
            requirement: requirement::request_response::Requirement::new(
                requests,
                responses,
                AttributeVerifier::new(),
            ),
        }
    }

    /// A builder of a service of this pattern with this requirement. It doesn't allocate.
    ///
    /// Not in `iceoryx2`.
    /// Example: `Builder::new(1, name).with_requirement::<Event>(requirement)`
    pub fn with_requirement<P: Negotiated>(self, requirement: P::Requirement) -> ServiceBuilder<P>
        ensures { result ≡ record { hub = self.hub; node = self.node; name = self.name; requirement = requirement } }
    {
        ServiceBuilder {
            hub: self.hub,
            node: self.node,
            name: self.name,
            requirement,
        }
    }
}

/// A builder of a service of a pattern. A setting that the builder names is required of an existing service, and becomes the setting of a
/// created one; in a created service, all other settings have their defaults.
///
/// Ported from the builders of `iceoryx2::service::builder::{publish_subscribe, event, request_response}`.
#[derive(Drop)]
pub struct ServiceBuilder<P: Negotiated> {
    hub: Option<u64>,
    node: u64,
    name: ServiceName,
    requirement: P::Requirement,
}

impl<P: Negotiated> ServiceBuilder<P> {
    /// The id of the hub to which the builder belongs; `None` if it belongs to no hub.
    ///
    /// Not in `iceoryx2`.
    /// Example: `builder.hub()`
    pub fn hub(&self) -> Option<u64>
        ensures { result ≡ self.now.hub }
    {
        self.hub
    }

    /// The number of the node that creates or opens the service.
    ///
    /// Not in `iceoryx2`.
    /// Example: `builder.node()`
    pub fn node(&self) -> u64
        ensures { result ≡ self.now.node }
    {
        self.node
    }

    /// The name of the service.
    ///
    /// Not in `iceoryx2`.
    /// Example: `builder.name()`
    pub fn name(&self) -> &ServiceName
        ensures { result.now ≡ self.now.name }
    {
        &self.name
    }

    /// What the builder asks of the service.
    ///
    /// Not in `iceoryx2`.
    /// Example: `let requirement = builder.into_requirement();`
    pub fn into_requirement(self) -> P::Requirement
        ensures { result ≡ self.requirement }
    {
        self.requirement
    }

    /// A copy of the builder in memory of its own. It fails only if an allocation fails, and never if the builder asks for no
    /// attributes.
    /// Example: `let second = builder.try_clone(alloc)?;`
    pub fn try_clone(&self, alloc: Global) -> Result<Self, AllocError>
        ensures same { IfOk result (λ builder. builder ≡ self.now) }
        ensures empty { P.attributes self.now.requirement ≡ required [] [] → IsOk result }
    {
        Ok(ServiceBuilder {
            hub: self.hub,
            node: self.node,
            name: self.name,
            requirement: P::try_clone(&self.requirement, alloc)?,
        })
    }

    /// Creates the service, with only those attributes that the builder's requirement has. See `create_with_attributes`.
    /// Example: `let factory = builder.create(alloc, &mut table)?;`
    pub fn create<S: Storage>(
        self,
        alloc: Global,
        storage: &mut S,
    ) -> Result<PortFactory<P>, P::CreateError>
        ensures { Creates S.gives (S.id storage.old) (service_hash_of P.pattern self.name) self.node
            (agreement self.name (service_hash_of P.pattern self.name) (P.settings (P.adjusted (P.asked self.requirement)))
            (P.attributes self.requirement).pairs) (AreWithinLimits (P.settings (P.adjusted (P.asked self.requirement))))
            (HasNoRoomForHistory (P.settings (P.adjusted (P.asked self.requirement)))) P.create_error storage.old
            (result_map_both (λ factory. factory.membership) (λ error. error) result) storage.new }
    {
        self.created(
            alloc,
            P::attributes(&self.requirement).attributes(),
            storage,
        )
    }

    /// Creates the service with these attributes, in at most six storage operations.
    ///
    /// Refused as `iox_negotiate_base::create` refuses it, with the pattern's error of the same name. A number beyond its limits gives
    /// `InternalFailure` without a storage operation.
    /// Example: `let factory = builder.create_with_attributes(alloc, &attributes, &mut table)?;`
    pub fn create_with_attributes<S: Storage>(
        self,
        alloc: Global,
        attributes: &AttributeSpecifier,
        storage: &mut S,
    ) -> Result<PortFactory<P>, P::CreateError>
        ensures { Creates S.gives (S.id storage.old) (service_hash_of P.pattern self.name) self.node
            (agreement self.name (service_hash_of P.pattern self.name) (P.settings (P.adjusted (P.asked self.requirement)))
            attributes.now) (AreWithinLimits (P.settings (P.adjusted (P.asked self.requirement))))
            (HasNoRoomForHistory (P.settings (P.adjusted (P.asked self.requirement)))) P.create_error storage.old
            (result_map_both (λ factory. factory.membership) (λ error. error) result) storage.new }
    {
        self.created(alloc, attributes, storage)
    }

    /// Opens the service if it meets the builder's requirement. See `open_with_attributes`.
    /// Example: `let factory = builder.open(alloc, &mut table)?;`
    pub fn open<S: Storage>(
        self,
        alloc: Global,
        storage: &mut S,
    ) -> Result<PortFactory<P>, P::OpenError>
        ensures { Negotiates S.gives (S.id storage.old) self.node P.open_error
            (λ made answer. Opens (service_hash_of P.pattern self.name) self.node (λ given. P.verdict self.requirement given) made
            answer) storage.old (result_map_both (λ factory. factory.membership) (λ error. error) result) storage.new }
    {
        self.opened(alloc, storage)
    }

    /// Opens the service if it meets the builder's requirement, whose attributes are replaced by these, in at most ten storage operations.
    ///
    /// Refused as `iox_negotiate_base::open` refuses it, with the pattern's error of the same name.
    /// Example: `let factory = builder.open_with_attributes(alloc, attributes, &mut table)?;`
    pub fn open_with_attributes<S: Storage>(
        self,
        alloc: Global,
        attributes: AttributeVerifier,
        storage: &mut S,
    ) -> Result<PortFactory<P>, P::OpenError>
        ensures { Negotiates S.gives (S.id storage.old) self.node P.open_error
            (λ made answer. Opens (service_hash_of P.pattern self.name) self.node
            (λ given. P.verdict (P.with_attributes self.requirement attributes) given) made answer) storage.old
            (result_map_both (λ factory. factory.membership) (λ error. error) result) storage.new }
    {
        let builder = ServiceBuilder {
            hub: self.hub,
            node: self.node,
            name: self.name,
            requirement: P::with_attributes(self.requirement, attributes),
        };
        builder.opened(alloc, storage)
    }

    /// Opens the service if it meets the builder's requirement, or creates it with the required pairs if it doesn't exist. See
    /// `open_or_create_with_attributes`.
    /// Example: `let factory = builder.open_or_create(alloc, &mut table)?;`
    pub fn open_or_create<S: Storage>(
        self,
        alloc: Global,
        storage: &mut S,
    ) -> Result<PortFactory<P>, P::OpenOrCreateError>
        ensures { Either S.gives (S.id storage.old) (service_hash_of P.pattern self.name) self.node
            (λ given. P.verdict self.requirement given)
            (agreement self.name (service_hash_of P.pattern self.name) (P.settings (P.adjusted (P.asked self.requirement)))
            (P.attributes self.requirement).pairs) (AreWithinLimits (P.settings (P.adjusted (P.asked self.requirement))))
            (HasNoRoomForHistory (P.settings (P.adjusted (P.asked self.requirement)))) P.open_or_create_error storage.old
            (result_map_both (λ factory. factory.membership) (λ error. error) result) storage.new }
    {
        self.opened_or_created(alloc, storage)
    }

    /// Opens the service if it meets the builder's requirement, whose attributes are replaced by these, or creates it with the required
    /// pairs if it doesn't exist, in at most fourteen storage operations.
    ///
    /// Refused as `iox_negotiate_base::open_or_create` refuses it, with the pattern's error of the same name.
    /// Example: `let factory = builder.open_or_create_with_attributes(alloc, attributes, &mut table)?;`
    pub fn open_or_create_with_attributes<S: Storage>(
        self,
        alloc: Global,
        attributes: AttributeVerifier,
        storage: &mut S,
    ) -> Result<PortFactory<P>, P::OpenOrCreateError>
        ensures { Either S.gives (S.id storage.old) (service_hash_of P.pattern self.name) self.node
            (λ given. P.verdict (P.with_attributes self.requirement attributes) given)
            (agreement self.name (service_hash_of P.pattern self.name)
            (P.settings (P.adjusted (P.asked (P.with_attributes self.requirement attributes))))
            (P.attributes (P.with_attributes self.requirement attributes)).pairs)
            (AreWithinLimits (P.settings (P.adjusted (P.asked (P.with_attributes self.requirement attributes)))))
            (HasNoRoomForHistory (P.settings (P.adjusted (P.asked (P.with_attributes self.requirement attributes))))) P.open_or_create_error
            storage.old (result_map_both (λ factory. factory.membership) (λ error. error) result) storage.new }
    {
        let builder = ServiceBuilder {
            hub: self.hub,
            node: self.node,
            name: self.name,
            requirement: P::with_attributes(self.requirement, attributes),
        };
        builder.opened_or_created(alloc, storage)
    }

    fn created<S: Storage>(
        &self,
        alloc: Global,
        attributes: &AttributeSpecifier,
        storage: &mut S,
    ) -> Result<PortFactory<P>, P::CreateError>
        ensures { Creates S.gives (S.id storage.old) (service_hash_of P.pattern self.now.name) self.now.node
            (agreement self.now.name (service_hash_of P.pattern self.now.name) (P.settings (P.adjusted (P.asked self.now.requirement)))
            attributes.now) (AreWithinLimits (P.settings (P.adjusted (P.asked self.now.requirement))))
            (HasNoRoomForHistory (P.settings (P.adjusted (P.asked self.now.requirement)))) P.create_error storage.old
            (result_map_both (λ factory. factory.membership) (λ error. error) result) storage.new }
    {
        let asked = Asked::<P>::new(self.name, self.node, &self.requirement, attributes);
        negotiation::create(alloc, &asked, storage)
    }

    fn opened<S: Storage>(
        &self,
        alloc: Global,
        storage: &mut S,
    ) -> Result<PortFactory<P>, P::OpenError>
        ensures { Negotiates S.gives (S.id storage.old) self.now.node P.open_error
            (λ made answer. Opens (service_hash_of P.pattern self.now.name) self.now.node
            (λ given. P.verdict self.now.requirement given) made answer) storage.old
            (result_map_both (λ factory. factory.membership) (λ error. error) result) storage.new }
    {
        let attributes = P::attributes(&self.requirement).attributes();
        let asked = Asked::<P>::new(self.name, self.node, &self.requirement, attributes);
        negotiation::open(alloc, &asked, storage)
    }

    fn opened_or_created<S: Storage>(
        &self,
        alloc: Global,
        storage: &mut S,
    ) -> Result<PortFactory<P>, P::OpenOrCreateError>
        ensures { Either S.gives (S.id storage.old) (service_hash_of P.pattern self.now.name) self.now.node
            (λ given. P.verdict self.now.requirement given)
            (agreement self.now.name (service_hash_of P.pattern self.now.name) (P.settings (P.adjusted (P.asked self.now.requirement)))
            (P.attributes self.now.requirement).pairs) (AreWithinLimits (P.settings (P.adjusted (P.asked self.now.requirement))))
            (HasNoRoomForHistory (P.settings (P.adjusted (P.asked self.now.requirement)))) P.open_or_create_error storage.old
            (result_map_both (λ factory. factory.membership) (λ error. error) result) storage.new }
    {
        let attributes = P::attributes(&self.requirement).attributes();
        let asked = Asked::<P>::new(self.name, self.node, &self.requirement, attributes);
        negotiation::open_or_create(alloc, &asked, storage)
    }
}
