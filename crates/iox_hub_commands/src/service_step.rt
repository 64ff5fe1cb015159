//! The commands on nodes and services.
ghost use Rattle.std.specs.Prelude.{◌≡◌, ◌+◌, ◌<◌, ◌^◌, option_map};
ghost use Rattle.iox_delivery.specs.DescribeBase.Detail.{detail};
ghost use Rattle.iox_delivery.specs.DescribeBase.declared.type_detail.TypeVariant.TheVariants.{FixedSize};
ghost use Rattle.iox_hub_commands.specs.Asked.{types_of};
ghost use Rattle.iox_hub_commands.specs.Naming.{most_loans};
ghost use Rattle.iox_hub_commands.specs.PortRoom.{GrowsFor, KeepsRoom, samples_at, samples_from};
ghost use Rattle.iox_hub_commands.specs.Services.{NodeMakes, Creates, Opens, OpensOrCreates, Acts, Closes, MakesPublisher};
ghost use Rattle.iox_hub_commands.specs.Services.{MakesSubscriber, domain_of_factory, owner_of_factory};
ghost use Rattle.iox_hub_commands.specs.ServicesTables.{publish_subscribe_in};
ghost use Rattle.iox_delivery.specs.Container.NumberTable.{value_at};

use crate::numbered_hub::NumberedHub;
use crate::replies::{closed_reply, factory_reply, foreign_reply};
use crate::services::{ServiceAsked, foreign};
use crate::{
    PublisherHandlers, SubscriberHandler, domain_of, owner_of, publisher_handlers,
    subscriber_handler,
};
use iox_command::{
    ForeignStep, PublisherOptions, Refusal, Reply, StepBefore, Steps, SubscriberOptions,
};
use iox_describe_base::{
    AttributeSpecifier, AttributeVerifier, MessagingPattern, ServiceName, ZeroCopySend,
};
use iox_domain::DomainId;
use iox_domain_values::{Decides, Degrades, PortOwner};
use iox_queues_base::Words;
use std::alloc::Global;

// A function that holds names, settings or descriptions by value has a stack frame of its own, so that every other command needs little
// stack. What a command names is dropped there, too.
impl<T: Words + ZeroCopySend, U: Copy + ZeroCopySend, B: Drop, D: Drop> NumberedHub<T, U, B, D> {
    pub(crate) fn node(&mut self) -> Reply<T>
        ensures pledged { self.new.pledged ≡ self.old.pledged }
        ensures does { NodeMakes self.old result self.new }
    {
        match self.hub.new_node() {
            Ok(node) => Reply::NodeMade(node.number()),
            Err(error) => Reply::Refused(Refusal::Hub(error)),
        }
    }

    #[inline(never)]
    pub(crate) fn create(
        &mut self,
        alloc: Global,
        asked: ServiceAsked,
        attributes: AttributeSpecifier,
        steps: Steps<StepBefore>,
    ) -> Reply<T>
        requires { self.old.factories.made.next + 1 < 2 ^ 64 }
        ensures pledged { self.new.pledged ≡ self.old.pledged }
        ensures does { Creates (detail FixedSize T.name T.size T.alignment) (detail FixedSize U.name U.size U.alignment)
            (types_of T.name T.size T.alignment U.name U.size U.alignment) asked attributes steps self.old result self.new }
    {
        factory_reply(
            self.factories.create(alloc, &mut self.hub, &asked, &attributes, steps.as_slice()),
        )
    }

    #[inline(never)]
    pub(crate) fn open(
        &mut self,
        alloc: Global,
        asked: ServiceAsked,
        requirements: AttributeVerifier,
        steps: Steps<StepBefore>,
    ) -> Reply<T>
        requires { self.old.factories.made.next + 1 < 2 ^ 64 }
        ensures pledged { self.new.pledged ≡ self.old.pledged }
        ensures does { Opens (detail FixedSize T.name T.size T.alignment) (detail FixedSize U.name U.size U.alignment)
            (types_of T.name T.size T.alignment U.name U.size U.alignment) asked requirements steps self.old result self.new }
    {
        factory_reply(
            self.factories.open(alloc, &mut self.hub, &asked, requirements, steps.as_slice()),
        )
    }

    #[inline(never)]
    pub(crate) fn open_or_create(
        &mut self,
        alloc: Global,
        asked: ServiceAsked,
        requirements: AttributeVerifier,
        steps: Steps<StepBefore>,
    ) -> Reply<T>
        requires { self.old.factories.made.next + 1 < 2 ^ 64 }
        ensures pledged { self.new.pledged ≡ self.old.pledged }
        ensures does { OpensOrCreates (detail FixedSize T.name T.size T.alignment) (detail FixedSize U.name U.size U.alignment)
            (types_of T.name T.size T.alignment U.name U.size U.alignment) asked requirements steps self.old result self.new }
    {
        factory_reply(
            self.factories.open_or_create(
                alloc,
                &mut self.hub,
                &asked,
                requirements,
                steps.as_slice(),
            ),
        )
    }

    #[inline(never)]
    pub(crate) fn foreign(
        &mut self,
        alloc: Global,
        pattern: MessagingPattern,
        name: ServiceName,
        steps: Steps<ForeignStep>,
    ) -> Reply<T>
        ensures pledged { self.new.pledged ≡ self.old.pledged }
        ensures does { Acts pattern name (types_of T.name T.size T.alignment U.name U.size U.alignment) steps self.old result
            self.new }
    {
        foreign_reply(foreign(alloc, &mut self.hub, pattern, &name, steps.as_slice()))
    }

    #[inline(never)]
    pub(crate) fn close(&mut self, factory: u64) -> Reply<T>
        ensures pledged { self.new.pledged ≡ self.old.pledged }
        ensures does { Closes factory self.old result self.new }
    {
        closed_reply(self.factories.close(&mut self.hub, factory))
    }
}

impl<T, U, B, D> NumberedHub<T, U, B, D> {
    /// The domain of the factory with this number, and the owner of its ports. None if the number has no publish-subscribe factory.
    /// Example: `let (domain, owner) = hub.place(factory)?;`
    pub fn place(&self, factory: u64) -> Option<(DomainId, PortOwner)>
        ensures { result ≡ option_map (λ opened. (domain_of_factory opened, owner_of_factory opened))
            (publish_subscribe_in (value_at self.now.factories.made factory)) }
    {
        let factory = self.factories.publish_subscribe(factory)?;
        Some((domain_of(factory), owner_of(factory)))
    }
}

impl<T: Copy, U: Copy + Default, B: PublisherHandlers, D: Degrades> NumberedHub<T, U, B, D> {
    #[inline(never)]
    pub(crate) fn publisher(
        &mut self,
        alloc: Global,
        factory: u64,
        options: &PublisherOptions,
    ) -> Reply<T>
        requires { self.old.made.publishers.next + 1 < 2 ^ 64 }
        ensures room { KeepsRoom self.old self.new }
        ensures comes { MakesPublisher U.is_default B.fixed (λ handlers. B.degrades handlers) factory options.now self.old result self.new }
        ensures grows { GrowsFor (most_loans options.now)
            (samples_from (publish_subscribe_in (value_at self.old.factories.made factory)) self.old) self.old self.new }
    {
        let Some((domain, owner)) = self.place(factory) else {
            return Reply::Skipped;
        };
        self.publisher_with(alloc, domain, owner, options, publisher_handlers(options))
    }
}

impl<T: Copy, U: Copy, B: Decides + Degrades, D: SubscriberHandler> NumberedHub<T, U, B, D> {
    #[inline(never)]
    pub(crate) fn subscriber(
        &mut self,
        alloc: Global,
        factory: u64,
        options: &SubscriberOptions,
    ) -> Reply<T>
        requires { self.old.made.subscribers.next + 1 < 2 ^ 64 }
        ensures room { KeepsRoom self.old self.new }
        ensures comes { MakesSubscriber D.fixed (λ handler. D.degrades handler) factory options.now self.old result self.new }
        ensures grows { GrowsFor 0 (samples_at (publish_subscribe_in (value_at self.old.factories.made factory)) self.old) self.old
            self.new }
    {
        let Some((domain, owner)) = self.place(factory) else {
            return Reply::Skipped;
        };
        self.subscriber_with(alloc, domain, owner, options, subscriber_handler(options))
    }
}
