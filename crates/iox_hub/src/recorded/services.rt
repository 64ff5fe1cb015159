//! What calls of a recorded hub on nodes and services do to the hub.
ghost use Rattle.std.specs.Prelude.{◌≡◌, List, true, None, [], IfOk, IfSome};
ghost use Rattle.std.specs.Result.{result_map_both};
ghost use Rattle.iox_command.specs.NegotiateBase.PublishSubscribeErrors as publish_subscribe_errors;
ghost use Rattle.iox_command.specs.declared.command.Command.TheVariants as command;
ghost use Rattle.iox_command.specs.declared.refusal.Refusal.TheVariants as refusal;
ghost use Rattle.iox_command.specs.declared.service.ServiceOptions.TheVariants as options;
ghost use Rattle.iox_command.specs.declared.step.ForeignStep.{ForeignStep};
ghost use Rattle.iox_hub_base.specs.DescribeBase.Hash.{service_hash_of};
ghost use Rattle.iox_hub_base.specs.DescribeSettings.Agreement.{agreement, AreWithinLimits, HasNoRoomForHistory};
ghost use Rattle.iox_hub_base.specs.Hubs.{holds_builder};
ghost use Rattle.iox_hub_base.specs.Negotiate.Asked.{IsRefusal};
ghost use Rattle.iox_hub_base.specs.Negotiate.Negotiation.{Creates};
ghost use Rattle.iox_hub_base.specs.Opening.{OpensInHub};
ghost use Rattle.iox_hub_commands.specs.Asked.{required_publish_subscribe, types_of};
ghost use Rattle.iox_hub_commands.specs.Asking.{agreed_of, hash_of};
ghost use Rattle.iox_hub_commands.specs.Creating.{CreatesAgreed, CreatesAs};
ghost use Rattle.iox_hub_commands.specs.DescribeBase.Attributes.{Required};
ghost use Rattle.iox_hub_commands.specs.DescribeBase.Detail.{detail};
ghost use Rattle.iox_hub_commands.specs.DescribeBase.declared.type_detail.TypeVariant.TheVariants.{FixedSize};
ghost use Rattle.iox_hub_commands.specs.Either.{EitherAs, EitherJudged};
ghost use Rattle.iox_hub_base.specs.OfPattern.{EitherOfPattern, OpensJudged};
ghost use Rattle.iox_hub_commands.specs.Opening.{OpensAs};
ghost use Rattle.iox_hub_commands.specs.Replies.{foreign_reply};
ghost use Rattle.iox_hub_commands.specs.ServicesTables.{FactoryTable};
ghost use Rattle.iox_hub_commands.specs.declared.services.made.MadeFactory.TheVariants as made_factory;
ghost use Rattle.iox_negotiate_table.specs.Describe.Within.{HasForm};
ghost use Rattle.iox_negotiate_table.specs.DescribeVerdict.PublishSubscribeClauses as publish_subscribe_clauses;
ghost use Rattle.iox_negotiate_table.specs.DescribeVerdict.Verdict.{first_unmet};
ghost use Rattle.iox_negotiate_table.specs.NegotiateBase.declared.failure.CreateFailure.TheVariants as uncreated;
ghost use Rattle.iox_negotiate_table.specs.Stepped.{SteppedSight};
ghost use Rattle.iox_hub.specs.Recorded.{asked_too};
ghost use Rattle.iox_hub.specs.RecordedCalls.{IsAsAsked};
ghost use Rattle.iox_hub.specs.RecordedNames.{as_made, closed_by};
ghost use Rattle.iox_hub.specs.Recording.{IsMadeAsAsked, IsMetAsAsked, OpensIf, calls_opened};

use crate::recorded::history::History;
use crate::recorded::named::{Named, Number};
use iox_command::{ForeignStep, HubError, PublishSubscribeOptions};
use iox_describe::pattern::PublishSubscribe;
use iox_describe_base::{
    AttributeSpecifier, AttributeVerifier, MessagingPattern, ServiceName, ZeroCopySend,
};
use iox_hub_base::{Hub, HubBuilder, NotClosed, PortFactory};
use iox_hub_commands::services::requests::{message_types, publish_subscribe};
use iox_hub_commands::{PublisherHandlers, SubscriberHandler};
use iox_negotiate::{Builder, Negotiated, ServiceBuilder};
use iox_negotiate_base::errors::{
    CloseError, PublishSubscribeCreateError, PublishSubscribeOpenError,
    PublishSubscribeOpenOrCreateError,
};
use iox_queues_base::Words;
use std::alloc::Global;

// A node creates a service with these attributes, if that node was made.
pub(crate) fn create_if<
    T: Words + ZeroCopySend + Default,
    U: Copy + ZeroCopySend + Default,
    B: PublisherHandlers,
    D: SubscriberHandler,
>(
    hub: &mut Hub<T, U, B, D>,
    alloc: Global,
    node: u64,
    name: ServiceName,
    asked: &PublishSubscribeOptions,
    attributes: &AttributeSpecifier,
) -> Option<Result<PortFactory<PublishSubscribe>, PublishSubscribeCreateError>>
    ensures opens { (table : FactoryTable) → OpensIf refusal.PublishSubscribeCreate node
        (CreatesAs (options.PublishSubscribe asked.now) (detail FixedSize T.name T.size T.alignment)
        (detail FixedSize U.name U.size U.alignment) (types_of T.name T.size T.alignment U.name U.size U.alignment) node name attributes.now
        []) table hub.old (as_made (λ it. made_factory.PublishSubscribe it) result) hub.new }
    ensures agreed { IfSome result (λ answer. IfOk answer (λ factory.
        IsMadeAsAsked (types_of T.name T.size T.alignment U.name U.size U.alignment) name asked.now attributes.now
        factory.service.membership.service)) }
    ensures here { IfSome result (λ answer. IfOk answer (λ factory. factory.service.membership.storage ≡ hub.old.table.id)) }
{
    if !hub.has_node(node) {
        return None;
    }
    let builder = Builder::of_hub(hub.id(), node, name);
    Some(creates(hub, alloc, builder, asked, attributes))
}

// A node creates a service with these attributes.
fn creates<
    T: Words + ZeroCopySend + Default,
    U: Copy + ZeroCopySend + Default,
    B: PublisherHandlers,
    D: SubscriberHandler,
>(
    hub: &mut Hub<T, U, B, D>,
    alloc: Global,
    builder: Builder,
    asked: &PublishSubscribeOptions,
    attributes: &AttributeSpecifier,
) -> Result<PortFactory<PublishSubscribe>, PublishSubscribeCreateError>
    requires { holds_builder builder.hub builder.node hub.old ≡ true }
    ensures opens { CreatesAgreed (detail FixedSize T.name T.size T.alignment) (detail FixedSize U.name U.size U.alignment)
        publish_subscribe_errors.create_error (hash_of builder.name (options.PublishSubscribe asked.now)) builder.node
        (agreed_of builder.name (options.PublishSubscribe asked.now) (types_of T.name T.size T.alignment U.name U.size U.alignment)
        attributes.now) [] hub.old
        (result_map_both (λ factory. (factory.service.membership, factory.owner)) (λ error. error) result) hub.new }
    ensures form { IfOk result (λ factory. HasForm factory.service.membership.service.description) }
{
    let requirement = publish_subscribe(asked, message_types::<T, U>());
    let required = builder.with_requirement::<PublishSubscribe>(requirement);
    let answer = creates_as_asked(hub, alloc, required, attributes);
    shows_form(&answer);
    answer
}

// A service of a pattern is created, as a builder asks, with these attributes.
fn creates_as_asked<
    P: Negotiated,
    T: Words + ZeroCopySend,
    U: Copy + ZeroCopySend,
    B: Drop,
    D: Drop,
>(
    hub: &mut Hub<T, U, B, D>,
    alloc: Global,
    builder: ServiceBuilder<P>,
    attributes: &AttributeSpecifier,
) -> Result<PortFactory<P>, P::CreateError>
    requires { holds_builder builder.hub builder.node hub.old ≡ true }
    ensures { OpensInHub (detail FixedSize T.name T.size T.alignment) (detail FixedSize U.name U.size U.alignment)
        (IsRefusal (AreWithinLimits (P.settings (P.adjusted (P.asked builder.requirement))))
        (HasNoRoomForHistory (P.settings (P.adjusted (P.asked builder.requirement)))) None)
        (λ was_new. P.create_error uncreated.OutOfMemory)
        (λ before came after. Creates SteppedSight before.table.id (service_hash_of P.pattern builder.name) builder.node
        (agreement builder.name (service_hash_of P.pattern builder.name)
        (P.settings (P.adjusted (P.asked builder.requirement))) attributes.now)
        (AreWithinLimits (P.settings (P.adjusted (P.asked builder.requirement))))
        (HasNoRoomForHistory (P.settings (P.adjusted (P.asked builder.requirement)))) P.create_error before came after) [] hub.old
        (result_map_both (λ factory. (factory.service.membership, factory.owner)) (λ error. error) result) hub.new }
{
    builder.create_with_attributes_in(alloc, attributes, hub, Vec::new(alloc))
}

// A node of a hub opens a service, if that node was made; with the history afterwards.
pub(crate) fn opened<
    T: Words + ZeroCopySend + Default,
    U: Copy + ZeroCopySend + Default,
    B: PublisherHandlers,
    D: SubscriberHandler,
>(
    hub: &mut Hub<T, U, B, D>,
    history: &History<T>,
    alloc: Global,
    node: u64,
    name: ServiceName,
    asked: &PublishSubscribeOptions,
    attributes: AttributeVerifier,
) -> (
    Option<Result<PortFactory<PublishSubscribe>, PublishSubscribeOpenError>>,
    History<T>,
)
    ghost required: { Required }
    requires attributes { attributes ≡ required }
    ensures told { result.1.calls ≡ calls_opened (command.Open node name (options.PublishSubscribe asked.now) required [])
        refusal.PublishSubscribeOpen (as_made (λ it. made_factory.PublishSubscribe it) result.0) history.now.calls }
    ensures opens { OpensIf refusal.PublishSubscribeOpen node
        (OpensAs (options.PublishSubscribe asked.now) (detail FixedSize T.name T.size T.alignment)
        (detail FixedSize U.name U.size U.alignment) (types_of T.name T.size T.alignment U.name U.size U.alignment) node name required [])
        history.now.calls.factories hub.old (as_made (λ it. made_factory.PublishSubscribe it) result.0) hub.new }
    ensures agreed { IfSome result.0 (λ answer. IfOk answer (λ factory.
        IsMetAsAsked (types_of T.name T.size T.alignment U.name U.size U.alignment) name asked.now required
        factory.service.membership.service)) }
    ensures here { IfSome result.0 (λ answer. IfOk answer (λ factory. factory.service.membership.storage ≡ hub.old.table.id)) }
{
    let answer = open_if(hub, alloc, node, name, asked, attributes);
    let history = History::told(history, &(node, name, *asked), &answer, &());
    (answer, history)
}

// A node opens a service, if that node was made.
pub(crate) fn open_if<
    T: Words + ZeroCopySend + Default,
    U: Copy + ZeroCopySend + Default,
    B: PublisherHandlers,
    D: SubscriberHandler,
>(
    hub: &mut Hub<T, U, B, D>,
    alloc: Global,
    node: u64,
    name: ServiceName,
    asked: &PublishSubscribeOptions,
    attributes: AttributeVerifier,
) -> Option<Result<PortFactory<PublishSubscribe>, PublishSubscribeOpenError>>
    ensures opens { (table : FactoryTable) → OpensIf refusal.PublishSubscribeOpen node
        (OpensAs (options.PublishSubscribe asked.now) (detail FixedSize T.name T.size T.alignment)
        (detail FixedSize U.name U.size U.alignment) (types_of T.name T.size T.alignment U.name U.size U.alignment) node name attributes [])
        table hub.old (as_made (λ it. made_factory.PublishSubscribe it) result) hub.new }
    ensures agreed { IfSome result (λ answer. IfOk answer (λ factory.
        IsMetAsAsked (types_of T.name T.size T.alignment U.name U.size U.alignment) name asked.now attributes
        factory.service.membership.service)) }
    ensures here { IfSome result (λ answer. IfOk answer (λ factory. factory.service.membership.storage ≡ hub.old.table.id)) }
{
    if !hub.has_node(node) {
        return None;
    }
    let builder = Builder::of_hub(hub.id(), node, name);
    Some(opens(hub, alloc, builder, asked, attributes))
}

// A node opens a service.
fn opens<
    T: Words + ZeroCopySend + Default,
    U: Copy + ZeroCopySend + Default,
    B: PublisherHandlers,
    D: SubscriberHandler,
>(
    hub: &mut Hub<T, U, B, D>,
    alloc: Global,
    builder: Builder,
    asked: &PublishSubscribeOptions,
    attributes: AttributeVerifier,
) -> Result<PortFactory<PublishSubscribe>, PublishSubscribeOpenError>
    requires { holds_builder builder.hub builder.node hub.old ≡ true }
    ensures opens { OpensJudged (detail FixedSize T.name T.size T.alignment) (detail FixedSize U.name U.size U.alignment)
        publish_subscribe_errors.open_error (hash_of builder.name (options.PublishSubscribe asked.now)) builder.node
        (λ given. first_unmet (publish_subscribe_clauses.clauses
        (required_publish_subscribe asked.now (types_of T.name T.size T.alignment U.name U.size U.alignment) attributes) given)) [] hub.old
        (result_map_both (λ factory. (factory.service.membership, factory.owner)) (λ error. error) result) hub.new }
    ensures form { IfOk result (λ factory. HasForm factory.service.membership.service.description) }
{
    let requirement = publish_subscribe(asked, message_types::<T, U>());
    let answer = opens_as_asked::<PublishSubscribe, T, U, B, D>(
        hub,
        alloc,
        builder,
        requirement,
        attributes,
    );
    shows_form(&answer);
    answer
}

// A service of a pattern is opened, as a requirement asks.
fn opens_as_asked<P: Negotiated, T: Words + ZeroCopySend, U: Copy + ZeroCopySend, B: Drop, D: Drop>(
    hub: &mut Hub<T, U, B, D>,
    alloc: Global,
    builder: Builder,
    requirement: P::Requirement,
    attributes: AttributeVerifier,
) -> Result<PortFactory<P>, P::OpenError>
    requires { holds_builder builder.hub builder.node hub.old ≡ true }
    ensures { (asked : P.Requirement) → requirement ≡ asked
        → OpensJudged (detail FixedSize T.name T.size T.alignment) (detail FixedSize U.name U.size U.alignment) P.open_error
        (service_hash_of P.pattern builder.name) builder.node (λ given. P.verdict (P.with_attributes asked attributes) given) [] hub.old
        (result_map_both (λ factory. (factory.service.membership, factory.owner)) (λ error. error) result) hub.new }
{
    let required = builder.with_requirement::<P>(requirement);
    required.open_with_attributes_in(alloc, attributes, hub, Vec::new(alloc))
}

// A node of a hub opens a service, or creates it, if that node was made; with the history afterwards.
pub(crate) fn opened_or_created<
    T: Words + ZeroCopySend + Default,
    U: Copy + ZeroCopySend + Default,
    B: PublisherHandlers,
    D: SubscriberHandler,
>(
    hub: &mut Hub<T, U, B, D>,
    history: &History<T>,
    alloc: Global,
    node: u64,
    name: ServiceName,
    asked: &PublishSubscribeOptions,
    attributes: AttributeVerifier,
) -> (
    Option<Result<PortFactory<PublishSubscribe>, PublishSubscribeOpenOrCreateError>>,
    History<T>,
)
    ghost required: { Required }
    requires attributes { attributes ≡ required }
    ensures told { result.1.calls ≡ calls_opened (command.OpenOrCreate node name (options.PublishSubscribe asked.now) required [])
        refusal.PublishSubscribeOpenOrCreate (as_made (λ it. made_factory.PublishSubscribe it) result.0) history.now.calls }
    ensures opens { OpensIf refusal.PublishSubscribeOpenOrCreate node
        (EitherAs (options.PublishSubscribe asked.now) (detail FixedSize T.name T.size T.alignment)
        (detail FixedSize U.name U.size U.alignment) (types_of T.name T.size T.alignment U.name U.size U.alignment) node name required [])
        history.now.calls.factories hub.old (as_made (λ it. made_factory.PublishSubscribe it) result.0) hub.new }
    ensures agreed { IfSome result.0 (λ answer. IfOk answer (λ factory.
        IsAsAsked (types_of T.name T.size T.alignment U.name U.size U.alignment) name asked.now required
        factory.service.membership.service)) }
    ensures here { IfSome result.0 (λ answer. IfOk answer (λ factory. factory.service.membership.storage ≡ hub.old.table.id)) }
{
    let answer = open_or_create_if(hub, alloc, node, name, asked, attributes);
    let history = History::told(history, &(node, name, *asked), &answer, &());
    (answer, history)
}

// A node opens a service, or creates it, if that node was made.
pub(crate) fn open_or_create_if<
    T: Words + ZeroCopySend + Default,
    U: Copy + ZeroCopySend + Default,
    B: PublisherHandlers,
    D: SubscriberHandler,
>(
    hub: &mut Hub<T, U, B, D>,
    alloc: Global,
    node: u64,
    name: ServiceName,
    asked: &PublishSubscribeOptions,
    attributes: AttributeVerifier,
) -> Option<Result<PortFactory<PublishSubscribe>, PublishSubscribeOpenOrCreateError>>
    ensures opens { (table : FactoryTable) → OpensIf refusal.PublishSubscribeOpenOrCreate node
        (EitherAs (options.PublishSubscribe asked.now) (detail FixedSize T.name T.size T.alignment)
        (detail FixedSize U.name U.size U.alignment) (types_of T.name T.size T.alignment U.name U.size U.alignment) node name attributes [])
        table hub.old (as_made (λ it. made_factory.PublishSubscribe it) result) hub.new }
    ensures agreed { IfSome result (λ answer. IfOk answer (λ factory.
        IsAsAsked (types_of T.name T.size T.alignment U.name U.size U.alignment) name asked.now attributes
        factory.service.membership.service)) }
    ensures here { IfSome result (λ answer. IfOk answer (λ factory. factory.service.membership.storage ≡ hub.old.table.id)) }
{
    if !hub.has_node(node) {
        return None;
    }
    let builder = Builder::of_hub(hub.id(), node, name);
    Some(opens_or_creates(hub, alloc, builder, asked, attributes))
}

// A node opens a service, or creates it.
fn opens_or_creates<
    T: Words + ZeroCopySend + Default,
    U: Copy + ZeroCopySend + Default,
    B: PublisherHandlers,
    D: SubscriberHandler,
>(
    hub: &mut Hub<T, U, B, D>,
    alloc: Global,
    builder: Builder,
    asked: &PublishSubscribeOptions,
    attributes: AttributeVerifier,
) -> Result<PortFactory<PublishSubscribe>, PublishSubscribeOpenOrCreateError>
    requires { holds_builder builder.hub builder.node hub.old ≡ true }
    ensures opens { EitherJudged (detail FixedSize T.name T.size T.alignment) (detail FixedSize U.name U.size U.alignment)
        publish_subscribe_errors.open_or_create_error (hash_of builder.name (options.PublishSubscribe asked.now)) builder.node
        (λ given. first_unmet (publish_subscribe_clauses.clauses
        (required_publish_subscribe asked.now (types_of T.name T.size T.alignment U.name U.size U.alignment) attributes) given))
        (agreed_of builder.name (options.PublishSubscribe asked.now) (types_of T.name T.size T.alignment U.name U.size U.alignment)
        attributes.pairs) [] hub.old (result_map_both (λ factory. (factory.service.membership, factory.owner)) (λ error. error) result)
        hub.new }
    ensures form { IfOk result (λ factory. HasForm factory.service.membership.service.description) }
{
    let requirement = publish_subscribe(asked, message_types::<T, U>());
    let answer = opens_or_creates_as_asked::<PublishSubscribe, T, U, B, D>(
        hub,
        alloc,
        builder,
        requirement,
        attributes,
    );
    shows_form(&answer);
    answer
}

// A service of a pattern is opened, or created, as a requirement asks.
fn opens_or_creates_as_asked<
    P: Negotiated,
    T: Words + ZeroCopySend,
    U: Copy + ZeroCopySend,
    B: Drop,
    D: Drop,
>(
    hub: &mut Hub<T, U, B, D>,
    alloc: Global,
    builder: Builder,
    requirement: P::Requirement,
    attributes: AttributeVerifier,
) -> Result<PortFactory<P>, P::OpenOrCreateError>
    requires { holds_builder builder.hub builder.node hub.old ≡ true }
    ensures { (asked : P.Requirement) → requirement ≡ asked
        → let required = P.with_attributes asked attributes in let config = P.adjusted (P.asked required) in
        EitherOfPattern (detail FixedSize T.name T.size T.alignment) (detail FixedSize U.name U.size U.alignment) P.pattern
        (P.settings config) (AreWithinLimits (P.settings config)) (HasNoRoomForHistory (P.settings config))
        (λ given. P.verdict required given) P.open_or_create_error builder.node builder.name (P.attributes required).pairs [] hub.old
        (result_map_both (λ factory. (factory.service.membership, factory.owner)) (λ error. error) result) hub.new }
{
    let required = builder.with_requirement::<P>(requirement);
    required.open_or_create_with_attributes_in(alloc, attributes, hub, Vec::new(alloc))
}

// The description of a factory has the form of one, whoever made it.
pub(crate) fn shows_form<E>(answer: &Result<PortFactory<PublishSubscribe>, E>)
    ensures { IfOk answer.now (λ factory. HasForm factory.service.membership.service.description) }
{
    if let Ok(factory) = answer {
        factory.description();
    }
}

// The history, if other nodes were to do these actions.
pub(crate) fn told_foreign<T>(
    history: &History<T>,
    pattern: MessagingPattern,
    name: ServiceName,
    steps: &[ForeignStep],
    answer: &Result<(), HubError>,
) -> History<T>
    ghost named: { List ForeignStep }
    requires { steps.now ≡ named }
    ensures { result.calls ≡ asked_too (command.Foreign pattern name steps.now) (foreign_reply answer.now) history.now.calls }
{
    let _steps = steps;
    History::told(history, &(pattern, name), answer, &())
}

// A factory that is handed back, with its number.
pub(crate) fn closed_with_number(
    closed: Result<(), NotClosed<PublishSubscribe>>,
    number: Number,
) -> Result<(), (CloseError, Option<Named<PortFactory<PublishSubscribe>>>)>
    ensures { result ≡ closed_by number (result_map_both (λ done. done) (λ refused. (refused.error, refused.factory)) closed) }
{
    match closed {
        Ok(()) => Ok(()),
        Err(
            NotClosed {
                error,
                factory: Some(it),
            },
        ) => Err((error, Some(Named { it, number }))),
        Err(
            NotClosed {
                error,
                factory: None,
            },
        ) => Err((error, None)),
    }
}
