//! Builders of the ports of a factory's service, and how domains are taken and put back.
ghost use Rattle.std.specs.Prelude.{◌≡◌, IfOk, option_copied};
ghost use Rattle.iox_delivery_factories.specs.DescribeBase.Detail.{detail};
ghost use Rattle.iox_delivery_factories.specs.DescribeBase.declared.type_detail.TypeVariant.TheVariants as variant;
ghost use Rattle.iox_hub_base.specs.Builders.{publishers_of, slice_publishers_of, subscribers_of, slice_subscribers_of};
ghost use Rattle.iox_hub_base.specs.Open.{domain_of};
ghost use Rattle.iox_hub_base.specs.Taking.{Takes, Puts};

use crate::factory::PortFactory;
use crate::hub::Hub;
use crate::{Domain, DomainIsForeign, TakeError};
use iox_delivery_factories::builders::{is_of_slices, is_of_values, values_each};
use iox_delivery_factories::{PortFactoryPublisher, PortFactorySubscriber, slices};
use iox_describe::ZeroCopySend;
use iox_describe::pattern::PublishSubscribe;
use iox_domain::settings::{PublisherSettings, SubscriberSettings};
use iox_domain_values::{
    BackpressureStrategy, DegradationAction, DegradationHandler, Handlers, PortOwner,
    PreallocatedSamplesOverride,
};
use std::marker::PhantomData;

impl<T: Copy, U: Copy, B: Drop, D: Drop> Hub<T, U, B, D> {
    /// The domain of a factory's service. None if the domain is out, or none was made.
    /// Example: `let domain = hub.domain(&factory)?;`
    pub fn domain(&self, factory: &PortFactory<PublishSubscribe>) -> Option<&Domain<T, U, B, D>>
        requires { factory.now.service.membership.storage ≡ self.now.table.id }
        ensures { option_copied result ≡ domain_of factory.now.service.membership.service.number self.now.services.domains }
    {
        self.services.domain(factory.number())
    }

    /// Takes the domain of a factory's service out of the hub, to be driven elsewhere. The domain is of this hub and service. Its entry
    /// stays, so putting it back takes no memory.
    ///
    /// Refused with `DomainIsOut` if the domain is out, or none was made; then nothing has changed.
    /// Example: `let domain = hub.take_domain(&factory)?;`
    pub fn take_domain(
        &mut self,
        factory: &PortFactory<PublishSubscribe>,
    ) -> Result<Domain<T, U, B, D>, TakeError>
        requires { factory.now.service.membership.storage ≡ self.old.table.id }
        ensures takes { Takes factory.now.service.membership.service.number self.old.services result self.new.services }
        ensures own { IfOk result (λ domain. domain.id ≡ record {
          hub = self.old.services.hub;
          service = factory.now.service.membership.service.number;
        }) }
        ensures rest { self.new ≡ record self.old { services = self.new.services } }
    {
        self.services.take(factory.number())
    }

    /// Puts back a domain that was taken out of the hub.
    ///
    /// Refused with `DomainIsForeign` if hub, service and agreement aren't those of a domain that is out; then the domain is handed back,
    /// and nothing has changed.
    /// Example: `let put = hub.put_domain(domain);`
    pub fn put_domain(
        &mut self,
        domain: Domain<T, U, B, D>,
    ) -> Result<(), DomainIsForeign<Domain<T, U, B, D>>>
        ensures puts { Puts domain self.old.services result self.new.services }
        ensures rest { self.new ≡ record self.old { services = self.new.services } }
    {
        self.services.put(domain)
    }
}

// These functions repeat what those of `iox_delivery_factories` do, since a function that makes a builder can't call another one that makes
// it: a builder holds an object, and a hub may hold objects, too.
impl<T: Copy + ZeroCopySend, U: Copy, B: Drop, D: Drop> Hub<T, U, B, D> {
    /// The builder of publishers of single values of a factory's service, with sizes from its agreement and no option set yet. None if the
    /// service agreed on slices, or if the domain is out or none was made.
    ///
    /// Ported from `iceoryx2::service::port_factory::publish_subscribe::PortFactory::publisher_builder`.
    /// Example: `let builder = hub.publisher_builder(&factory)?;`
    pub fn publisher_builder(
        &self,
        factory: &PortFactory<PublishSubscribe>,
    ) -> Option<PortFactoryPublisher<T, U>>
        requires { factory.now.service.membership.storage ≡ self.now.table.id }
        ensures { result ≡ publishers_of T.size factory.now.service.membership.node factory.now.owner
            (domain_of factory.now.service.membership.service.number self.now.services.domains) }
    {
        let domain = self.services.domain(factory.number())?;
        if !is_of_values::<T>(&domain.agreed.types.payload) {
            return None;
        }
        Some(PortFactoryPublisher {
            domain: domain.id,
            owner: PortOwner {
                number: factory.owner(),
                node_id: factory.node(),
            },
            unit: values_each::<T>(&domain.agreed.types.payload),
            payload: domain.agreed.types.payload.variant(),
            settings: PublisherSettings::default(),
            handlers: Handlers {
                strategy: BackpressureStrategy::RetryUntilDelivered,
                backpressure: None,
                degradation: DegradationHandler::Fixed(DegradationAction::Warn),
            },
            overriding: PreallocatedSamplesOverride::WorstCase,
            of: PhantomData,
        })
    }

    /// The builder of publishers of slices of a factory's service, with sizes from its agreement and no option set yet. None if the service
    /// agreed on single values, or if the domain is out or none was made.
    ///
    /// Ported from `iceoryx2::service::port_factory::publish_subscribe::PortFactory::publisher_builder`, whose factory has the payload in
    /// its type.
    /// Example: `let builder = hub.slice_publisher_builder(&factory)?;`
    pub fn slice_publisher_builder(
        &self,
        factory: &PortFactory<PublishSubscribe>,
    ) -> Option<slices::PortFactoryPublisher<T, U>>
        requires { factory.now.service.membership.storage ≡ self.now.table.id }
        ensures { result ≡ slice_publishers_of (detail variant.FixedSize T.name T.size T.alignment)
            factory.now.service.membership.node factory.now.owner
            (domain_of factory.now.service.membership.service.number self.now.services.domains) }
    {
        let domain = self.services.domain(factory.number())?;
        if !is_of_slices::<T>(&domain.agreed.types.payload) {
            return None;
        }
        Some(PortFactoryPublisher {
            domain: domain.id,
            owner: PortOwner {
                number: factory.owner(),
                node_id: factory.node(),
            },
            unit: values_each::<T>(&domain.agreed.types.payload),
            payload: domain.agreed.types.payload.variant(),
            settings: PublisherSettings::default(),
            handlers: Handlers {
                strategy: BackpressureStrategy::RetryUntilDelivered,
                backpressure: None,
                degradation: DegradationHandler::Fixed(DegradationAction::Warn),
            },
            overriding: PreallocatedSamplesOverride::WorstCase,
            of: PhantomData,
        })
    }

    /// The builder of subscribers of single values of a factory's service, with sizes from its agreement and no option set yet. None if the
    /// service agreed on slices, or if the domain is out or none was made.
    ///
    /// Ported from `iceoryx2::service::port_factory::publish_subscribe::PortFactory::subscriber_builder`.
    /// Example: `let builder = hub.subscriber_builder(&factory)?;`
    pub fn subscriber_builder(
        &self,
        factory: &PortFactory<PublishSubscribe>,
    ) -> Option<PortFactorySubscriber<T, U>>
        requires { factory.now.service.membership.storage ≡ self.now.table.id }
        ensures { result ≡ subscribers_of T.size factory.now.service.membership.node factory.now.owner
            (domain_of factory.now.service.membership.service.number self.now.services.domains) }
    {
        let domain = self.services.domain(factory.number())?;
        if !is_of_values::<T>(&domain.agreed.types.payload) {
            return None;
        }
        Some(PortFactorySubscriber {
            domain: domain.id,
            owner: PortOwner {
                number: factory.owner(),
                node_id: factory.node(),
            },
            settings: SubscriberSettings::default(),
            handler: DegradationHandler::Fixed(DegradationAction::Warn),
            of: PhantomData,
        })
    }

    /// The builder of subscribers of slices of a factory's service, with sizes from its agreement and no option set yet. None if the
    /// service agreed on single values, or if the domain is out or none was made.
    ///
    /// Ported from `iceoryx2::service::port_factory::publish_subscribe::PortFactory::subscriber_builder`, whose factory has the payload in
    /// its type.
    /// Example: `let builder = hub.slice_subscriber_builder(&factory)?;`
    pub fn slice_subscriber_builder(
        &self,
        factory: &PortFactory<PublishSubscribe>,
    ) -> Option<slices::PortFactorySubscriber<T, U>>
        requires { factory.now.service.membership.storage ≡ self.now.table.id }
        ensures { result ≡ slice_subscribers_of (detail variant.FixedSize T.name T.size T.alignment)
            factory.now.service.membership.node factory.now.owner
            (domain_of factory.now.service.membership.service.number self.now.services.domains) }
    {
        let domain = self.services.domain(factory.number())?;
        if !is_of_slices::<T>(&domain.agreed.types.payload) {
            return None;
        }
        Some(PortFactorySubscriber {
            domain: domain.id,
            owner: PortOwner {
                number: factory.owner(),
                node_id: factory.node(),
            },
            settings: SubscriberSettings::default(),
            handler: DegradationHandler::Fixed(DegradationAction::Warn),
            of: PhantomData,
        })
    }
}
