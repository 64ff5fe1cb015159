//! What the calls that create and open services have in common: their first lookup, and what follows if it isn't a refusal.
ghost use Rattle.std.specs.Prelude.{◌≡◌, ◌<◌, ◌+◌, ◌^◌, ℕ, true, Option, Result, Some, Err, length};
ghost use Rattle.std.specs.Result.{result_map_both};
ghost use Rattle.iox_command.specs.declared.refusal.Refusal.{Refusal};
ghost use Rattle.iox_hub_base.specs.DescribeBase.Detail.{detail};
ghost use Rattle.iox_hub_base.specs.DescribeBase.Hash.{service_hash_of};
ghost use Rattle.iox_hub_base.specs.DescribeBase.declared.type_detail.TypeVariant.TheVariants.{FixedSize};
ghost use Rattle.iox_hub_base.specs.DescribeSettings.Agreement.{AreWithinLimits, HasNoRoomForHistory};
ghost use Rattle.iox_hub_base.specs.Hubs.{is_node};
ghost use Rattle.iox_hub_base.specs.OfPattern.{CreatesOfPattern, OpensJudged, EitherOfPattern};
ghost use Rattle.iox_hub_commands.specs.Asked.{types_of};
ghost use Rattle.iox_hub_commands.specs.OpeningCalls.{ByCall, CallsNumbered, IsToldFirst, OpensByCall, OpensUnlessLacking, lacking_of};
ghost use Rattle.iox_hub_commands.specs.Refusing.{first_look};
ghost use Rattle.iox_hub_commands.specs.ServicesNumbering.{GetsNumber, Numbers};
ghost use Rattle.iox_hub_commands.specs.ServicesTables.{FactoryTable};

use crate::services::asked::ServiceAsked;
use crate::services::creating::create_lacking;
use crate::services::either::either_lacking;
use crate::services::factories::Factories;
use crate::services::kinds::CommandPattern;
use crate::services::made::MadeFactory;
use crate::services::opening::open_lacking;
use crate::services::refusing::{create_told, either_told, first_look, open_told, uncreated};
use crate::services::requests::message_types;
use iox_command::{Refusal, ServiceOptions, StepBefore};
use iox_describe::pattern::{Event, PublishSubscribe, RequestResponse};
use iox_describe_base::{AttributeSpecifier, AttributeVerifier, ZeroCopySend};
use iox_hub_base::{HashState, Hub, HubBuilder, PortFactory};
use iox_negotiate::{Builder, ServiceBuilder};
use iox_negotiate_table::StepList;
use iox_queues_base::Words;
use std::alloc::Global;

/// A call that opens a service, by what it does.
#[derive(Drop)]
pub(crate) enum OpeningCall<'a> {
    /// Creates the service with these attributes.
    Create(&'a AttributeSpecifier),
    /// Opens the service if it also has these attributes.
    Open(AttributeVerifier),
    /// Opens the service if it also has these attributes, or creates it with the required pairs.
    OpenOrCreate(AttributeVerifier),
}

impl<'a> OpeningCall<'a> {
    // The refusal if memory runs out before the first storage operation.
    fn lacking(&self, options: &ServiceOptions) -> Refusal
        ensures { result ≡ lacking_of self.now options.now }
    {
        match self {
            OpeningCall::Create(_) => create_lacking(options),
            OpeningCall::Open(_) => open_lacking(options),
            OpeningCall::OpenOrCreate(_) => either_lacking(options),
        }
    }

    // Why the call fails, if the settings decide it, or the first lookup decides it by having found `found`. A call that only opens doesn't
    // depend on the settings.
    fn told<T: ZeroCopySend, U: ZeroCopySend>(
        &self,
        options: &ServiceOptions,
        found: Option<HashState>,
    ) -> Option<Refusal>
        ensures { IsToldFirst self.now (types_of T.name T.size T.alignment U.name U.size U.alignment) options.now found result }
    {
        match self {
            OpeningCall::Create(_) => create_told(options, uncreated::<T, U>(options), found),
            OpeningCall::Open(_) => open_told(options, found),
            OpeningCall::OpenOrCreate(_) => either_told(options, uncreated::<T, U>(options), found),
        }
    }

    // Why the call fails, if the settings or the first lookup decide it, unless an action is named before that lookup. The answer doesn't
    // depend on memory. Settings are held by value only here, so they are dropped before deeper calls are made.
    #[inline(never)]
    fn refusal_at_first_look<T: Copy + ZeroCopySend, U: Copy + ZeroCopySend, B: Drop, D: Drop>(
        &self,
        hub: &Hub<T, U, B, D>,
        asked: &ServiceAsked,
        steps: &[StepBefore],
    ) -> Option<Refusal>
        ensures { IsToldFirst self.now (types_of T.name T.size T.alignment U.name U.size U.alignment) asked.now.options
            (first_look asked.now steps.now hub.now) result }
    {
        let found = first_look(hub, asked, steps);
        self.told::<T, U>(&asked.options, found)
    }
}

impl Factories {
    // Makes the call for a service that is asked for. None, and nothing happens, if the hub has no node with the number.
    pub(crate) fn called<T: Words + ZeroCopySend, U: Copy + ZeroCopySend, B: Drop, D: Drop>(
        &mut self,
        alloc: Global,
        hub: &mut Hub<T, U, B, D>,
        asked: &ServiceAsked,
        call: OpeningCall<'_>,
        steps: &[StepBefore],
    ) -> Option<Result<u64, Refusal>>
        requires { self.old.made.next + 1 < 2 ^ 64 }
        ensures calls { CallsNumbered call.entry (is_node asked.now.node hub.old.nodes) (detail FixedSize T.name T.size T.alignment)
            (detail FixedSize U.name U.size U.alignment) (types_of T.name T.size T.alignment U.name U.size U.alignment) asked.now
            steps.now self.old.made hub.old result self.new.made hub.new }
        ensures told_first { is_node asked.now.node hub.old.nodes ≡ true → (refusal : Refusal)
            → ((told : Option Refusal)
            → IsToldFirst call.entry (types_of T.name T.size T.alignment U.name U.size U.alignment) asked.now.options
            (first_look asked.now steps.now hub.old) told → told ≡ Some refusal)
            → (result ≡ Some (Err refusal)) × (self.new.made ≡ self.old.made) × (hub.new ≡ hub.old) }
    {
        if !hub.has_node(asked.node) {
            return None;
        }
        match call.refusal_at_first_look(hub, asked, steps) {
            Some(refusal) => Some(Err(refusal)),
            None => Some(self.looked(alloc, hub, asked, call, steps)),
        }
    }

    // Makes the call if the node exists and the first lookup doesn't refuse it.
    fn looked<T: Words + ZeroCopySend, U: Copy + ZeroCopySend, B: Drop, D: Drop>(
        &mut self,
        alloc: Global,
        hub: &mut Hub<T, U, B, D>,
        asked: &ServiceAsked,
        call: OpeningCall<'_>,
        steps: &[StepBefore],
    ) -> Result<u64, Refusal>
        requires node { is_node asked.now.node hub.old.nodes ≡ true }
        requires number { self.old.made.next + 1 < 2 ^ 64 }
        ensures { OpensUnlessLacking call.entry (detail FixedSize T.name T.size T.alignment) (detail FixedSize U.name U.size U.alignment)
            (types_of T.name T.size T.alignment U.name U.size U.alignment) asked.now steps.now self.old.made hub.old (Some result)
            self.new.made hub.new }
    {
        match self.prepare(alloc, &asked.name, &message_types::<T, U>(), steps) {
            Ok(lists) => self.prepared(alloc, hub, asked, call, lists),
            Err(_lack) => Err(call.lacking(&asked.options)),
        }
    }

    // Makes the call for a service of the pattern that is asked for, after the lists of actions and the capacity were made.
    fn prepared<T: Words + ZeroCopySend, U: Copy + ZeroCopySend, B: Drop, D: Drop>(
        &mut self,
        alloc: Global,
        hub: &mut Hub<T, U, B, D>,
        asked: &ServiceAsked,
        call: OpeningCall<'_>,
        lists: Vec<StepList>,
    ) -> Result<u64, Refusal>
        requires node { is_node asked.now.node hub.old.nodes ≡ true }
        requires room { length self.old.made.entries < self.old.made.room }
        requires number { self.old.made.next + 1 < 2 ^ 64 }
        ensures { OpensByCall call.entry asked.now.options (detail FixedSize T.name T.size T.alignment)
            (detail FixedSize U.name U.size U.alignment) (types_of T.name T.size T.alignment U.name U.size U.alignment) asked.now.node
            asked.now.name lists.items self.old.made hub.old result self.new.made hub.new }
    {
        match &asked.options {
            ServiceOptions::PublishSubscribe(options) => {
                match built::<PublishSubscribe, T, U, B, D>(
                    alloc, hub, asked, options, call, lists,
                ) {
                    Ok(factory) => Ok(self.number(MadeFactory::PublishSubscribe(factory))),
                    Err(refusal) => Err(refusal),
                }
            }
            ServiceOptions::Event(options) => {
                match built::<Event, T, U, B, D>(alloc, hub, asked, options, call, lists) {
                    Ok(factory) => Ok(self.number(MadeFactory::Event(factory))),
                    Err(refusal) => Err(refusal),
                }
            }
            ServiceOptions::RequestResponse(options) => {
                match built::<RequestResponse, T, U, B, D>(
                    alloc, hub, asked, options, call, lists,
                ) {
                    Ok(factory) => Ok(self.number(MadeFactory::RequestResponse(factory))),
                    Err(refusal) => Err(refusal),
                }
            }
        }
    }
}

// Makes the call for a service of a pattern with these options; its factory gets a number later, in a table of the caller's.
fn built<P: CommandPattern, T: Words + ZeroCopySend, U: Copy + ZeroCopySend, B: Drop, D: Drop>(
    alloc: Global,
    hub: &mut Hub<T, U, B, D>,
    asked: &ServiceAsked,
    options: &P::Options,
    call: OpeningCall<'_>,
    lists: Vec<StepList>,
) -> Result<PortFactory<P>, Refusal>
    requires { is_node asked.now.node hub.old.nodes ≡ true }
    ensures { let requirement = P.asks options.now (types_of T.name T.size T.alignment U.name U.size U.alignment) in
        (table after : FactoryTable) (answer : Result ℕ Refusal)
        → Numbers P.pattern (λ refusal. refusal)
        (result_map_both (λ factory. (factory.service.membership, factory.owner)) (λ refusal. refusal) result) table answer after
        → ByCall call.entry
        (λ attributes. let config = P.adjusted (P.asked requirement) in GetsNumber P.pattern P.create_refusal
        (CreatesOfPattern (detail FixedSize T.name T.size T.alignment) (detail FixedSize U.name U.size U.alignment) P.pattern
        (P.settings config) (AreWithinLimits (P.settings config)) (HasNoRoomForHistory (P.settings config))
        P.create_error asked.now.node asked.now.name
        attributes lists.items) table hub.old answer after hub.new)
        (λ attributes. GetsNumber P.pattern P.open_refusal
        (OpensJudged (detail FixedSize T.name T.size T.alignment) (detail FixedSize U.name U.size U.alignment) P.open_error
        (service_hash_of P.pattern asked.now.name) asked.now.node
        (λ given. P.verdict (P.with_attributes requirement attributes) given) lists.items) table hub.old answer after hub.new)
        (λ attributes. let required = P.with_attributes requirement attributes in let config = P.adjusted (P.asked required) in
        GetsNumber P.pattern P.either_refusal
        (EitherOfPattern (detail FixedSize T.name T.size T.alignment) (detail FixedSize U.name U.size U.alignment) P.pattern
        (P.settings config) (AreWithinLimits (P.settings config)) (HasNoRoomForHistory (P.settings config))
        (λ given. P.verdict required given)
        P.open_or_create_error asked.now.node asked.now.name (P.attributes required).pairs lists.items) table hub.old answer after
        hub.new) }
{
    let builder = builder_in::<P, T, U>(hub.id(), asked, options);
    match call {
        OpeningCall::Create(attributes) => {
            match builder.create_with_attributes_in(alloc, attributes, hub, lists) {
                Ok(factory) => Ok(factory),
                Err(error) => Err(P::create_refusal(error)),
            }
        }
        OpeningCall::Open(attributes) => {
            match builder.open_with_attributes_in(alloc, attributes, hub, lists) {
                Ok(factory) => Ok(factory),
                Err(error) => Err(P::open_refusal(error)),
            }
        }
        OpeningCall::OpenOrCreate(attributes) => {
            match builder.open_or_create_with_attributes_in(alloc, attributes, hub, lists) {
                Ok(factory) => Ok(factory),
                Err(error) => Err(P::either_refusal(error)),
            }
        }
    }
}

// The builder of a service of a pattern with these options, in a hub of this id.
fn builder_in<P: CommandPattern, T: ZeroCopySend, U: ZeroCopySend>(
    hub: u64,
    asked: &ServiceAsked,
    options: &P::Options,
) -> ServiceBuilder<P>
    ensures { result ≡ record {
      hub = Some hub;
      node = asked.now.node;
      name = asked.now.name;
      requirement = P.asks options.now (types_of T.name T.size T.alignment U.name U.size U.alignment);
    } }
{
    Builder::of_hub(hub, asked.node, asked.name).with_requirement::<P>(P::requirement(
        options,
        message_types::<T, U>(),
    ))
}
