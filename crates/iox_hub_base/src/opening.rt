//! How a service is created or opened in a hub as a builder asks, with or without attributes beside those that the builder has.
ghost use Rattle.std.specs.Prelude.{◌≡◌, IfOk, Option, false, true, option_copied};
ghost use Rattle.std.specs.Option.{option_map_or, unwrap_or};
ghost use Rattle.std.specs.Result.{result_map_both};
ghost use Rattle.iox_delivery_factories.specs.DescribeBase.Detail.{detail};
ghost use Rattle.iox_delivery_factories.specs.DescribeBase.Hash.{service_hash_of};
ghost use Rattle.iox_delivery_factories.specs.DescribeBase.declared.type_detail.TypeVariant.TheVariants.{FixedSize};
ghost use Rattle.iox_delivery_factories.specs.DescribeSettings.Agreement.{agreement, AreWithinLimits, HasNoRoomForHistory};
ghost use Rattle.iox_negotiate.specs.Negotiation.{Negotiates, Creates, Either};
ghost use Rattle.iox_negotiate_table.specs.NegotiateBase.Opening.{Opens};
ghost use Rattle.iox_negotiate_table.specs.Stepped.{SteppedSight};
ghost use Rattle.iox_hub_base.specs.OfPattern.{CreatesOfPattern, OpensJudged, EitherOfPattern};
ghost use Rattle.iox_hub_base.specs.Opening.{lacking_either};

use crate::entering::Lacking;
use crate::factory::PortFactory;
use crate::first_look::{acts_first, lacking_open, lacking_open_or_create};
use crate::hub::Hub;
use crate::untouched::lacking_create;
use iox_describe::{AttributeSpecifier, AttributeVerifier, ZeroCopySend};
use iox_negotiate as negotiated;
use iox_negotiate::{Negotiated, ServiceBuilder};
use iox_negotiate_base::{CreateFailure, OpenFailure, OpenOrCreateFailure};
use iox_negotiate_table::{StepList, Stepped};
use iox_queues_base::Words;
use std::alloc::Global;

/// Creates the service with these attributes, or, if none are given, with those that the builder asks for.
pub(crate) fn create<
    P: Negotiated,
    T: Words + ZeroCopySend,
    U: Copy + ZeroCopySend,
    B: Drop,
    D: Drop,
>(
    alloc: Global,
    builder: ServiceBuilder<P>,
    attributes: Option<&AttributeSpecifier>,
    hub: &mut Hub<T, U, B, D>,
    steps: Vec<StepList>,
) -> Result<PortFactory<P>, P::CreateError>
    ensures { let config = P.adjusted (P.asked builder.requirement) in CreatesOfPattern
        (detail FixedSize T.name T.size T.alignment) (detail FixedSize U.name U.size U.alignment) P.pattern (P.settings config)
        (AreWithinLimits (P.settings config)) (HasNoRoomForHistory (P.settings config)) P.create_error builder.node builder.name
        (unwrap_or (option_copied attributes.entry) (P.attributes builder.requirement).pairs) steps.items hub.old
        (result_map_both (λ factory. (factory.service.membership, factory.owner)) (λ error. error) result) hub.new }
{
    let Ok(parts) = hub.lend_parts(alloc, steps) else {
        return Err(lacking_create(alloc, builder));
    };
    let mut table = parts.table;
    let room = parts.room;
    let answer = created(alloc, builder, attributes, &mut table);
    let lacking = Lacking::either_way(P::create_error(CreateFailure::OutOfMemory));
    hub.settle(alloc, table, room, answer, lacking)
}

// The creation over the table that a hub hands out.
fn created<P: Negotiated>(
    alloc: Global,
    builder: ServiceBuilder<P>,
    attributes: Option<&AttributeSpecifier>,
    table: &mut Stepped,
) -> Result<negotiated::PortFactory<P>, P::CreateError>
    ensures of_table { IfOk result (λ service. service.membership.storage ≡ table.new.table.id) }
    ensures creates { let config = P.adjusted (P.asked builder.requirement) in let hash = service_hash_of P.pattern builder.name in
        Creates SteppedSight table.old.table.id hash builder.node (agreement builder.name hash (P.settings config)
        (unwrap_or (option_copied attributes.entry) (P.attributes builder.requirement).pairs)) (AreWithinLimits (P.settings config))
        (HasNoRoomForHistory (P.settings config)) P.create_error table.old
        (result_map_both (λ factory. factory.membership) (λ error. error) result) table.new }
{
    match attributes {
        Some(attributes) => builder.create_with_attributes(alloc, attributes, table),
        None => builder.create(alloc, table),
    }
}

/// Opens the service if it meets the builder's requirement; if attributes are given, they replace those of the requirement.
pub(crate) fn open<
    P: Negotiated,
    T: Words + ZeroCopySend,
    U: Copy + ZeroCopySend,
    B: Drop,
    D: Drop,
>(
    alloc: Global,
    builder: ServiceBuilder<P>,
    attributes: Option<AttributeVerifier>,
    hub: &mut Hub<T, U, B, D>,
    steps: Vec<StepList>,
) -> Result<PortFactory<P>, P::OpenError>
    ensures { let required = option_map_or (λ more. P.with_attributes builder.requirement more) attributes builder.requirement in
        OpensJudged (detail FixedSize T.name T.size T.alignment) (detail FixedSize U.name U.size U.alignment) P.open_error
        (service_hash_of P.pattern builder.name) builder.node (λ given. P.verdict required given) steps.items hub.old
        (result_map_both (λ factory. (factory.service.membership, factory.owner)) (λ error. error) result) hub.new }
{
    let lacking = Lacking::either_way(P::open_error(OpenFailure::OutOfMemory));
    let acts = acts_first(steps.as_slice());
    let Ok(parts) = hub.lend_parts(alloc, steps) else {
        return Err(lacking_open(hub, acts, &builder));
    };
    let mut table = parts.table;
    let room = parts.room;
    let answer = opened(alloc, builder, attributes, &mut table);
    hub.settle(alloc, table, room, answer, lacking)
}

// The opening over the table that a hub hands out.
fn opened<P: Negotiated>(
    alloc: Global,
    builder: ServiceBuilder<P>,
    attributes: Option<AttributeVerifier>,
    table: &mut Stepped,
) -> Result<negotiated::PortFactory<P>, P::OpenError>
    ensures of_table { IfOk result (λ service. service.membership.storage ≡ table.new.table.id) }
    ensures opens { let required = option_map_or (λ more. P.with_attributes builder.requirement more) attributes builder.requirement in
        Negotiates SteppedSight table.old.table.id builder.node P.open_error
        (λ made answer. Opens (service_hash_of P.pattern builder.name) builder.node (λ given. P.verdict required given) made answer)
        table.old (result_map_both (λ factory. factory.membership) (λ error. error) result) table.new }
{
    match attributes {
        Some(attributes) => builder.open_with_attributes(alloc, attributes, table),
        None => builder.open(alloc, table),
    }
}

/// Opens the service if it meets the builder's requirement, or creates it with the required pairs; if attributes are given, they replace
/// those of the requirement.
pub(crate) fn open_or_create<
    P: Negotiated,
    T: Words + ZeroCopySend,
    U: Copy + ZeroCopySend,
    B: Drop,
    D: Drop,
>(
    alloc: Global,
    builder: ServiceBuilder<P>,
    attributes: Option<AttributeVerifier>,
    hub: &mut Hub<T, U, B, D>,
    steps: Vec<StepList>,
) -> Result<PortFactory<P>, P::OpenOrCreateError>
    ensures { let required = option_map_or (λ more. P.with_attributes builder.requirement more) attributes builder.requirement in
        let config = P.adjusted (P.asked required) in EitherOfPattern
        (detail FixedSize T.name T.size T.alignment) (detail FixedSize U.name U.size U.alignment) P.pattern (P.settings config)
        (AreWithinLimits (P.settings config)) (HasNoRoomForHistory (P.settings config))
        (λ given. P.verdict required given) P.open_or_create_error
        builder.node builder.name (P.attributes required).pairs steps.items hub.old
        (result_map_both (λ factory. (factory.service.membership, factory.owner)) (λ error. error) result) hub.new }
{
    let lacking = lacking_either::<P>();
    let acts = acts_first(steps.as_slice());
    let Ok(parts) = hub.lend_parts(alloc, steps) else {
        return Err(lacking_open_or_create(hub, acts, builder, attributes));
    };
    let mut table = parts.table;
    let room = parts.room;
    let answer = opened_or_created(alloc, builder, attributes, &mut table);
    hub.settle(alloc, table, room, answer, lacking)
}

// The opening or creation over the table that a hub hands out.
fn opened_or_created<P: Negotiated>(
    alloc: Global,
    builder: ServiceBuilder<P>,
    attributes: Option<AttributeVerifier>,
    table: &mut Stepped,
) -> Result<negotiated::PortFactory<P>, P::OpenOrCreateError>
    ensures of_table { IfOk result (λ service. service.membership.storage ≡ table.new.table.id) }
    ensures either { let required = option_map_or (λ more. P.with_attributes builder.requirement more) attributes builder.requirement in
        let config = P.adjusted (P.asked required) in let hash = service_hash_of P.pattern builder.name in
        Either SteppedSight table.old.table.id hash builder.node (λ given. P.verdict required given)
        (agreement builder.name hash (P.settings config) (P.attributes required).pairs) (AreWithinLimits (P.settings config))
        (HasNoRoomForHistory (P.settings config)) P.open_or_create_error table.old
        (result_map_both (λ factory. factory.membership) (λ error. error) result) table.new }
{
    match attributes {
        Some(attributes) => builder.open_or_create_with_attributes(alloc, attributes, table),
        None => builder.open_or_create(alloc, table),
    }
}

// The errors of a call that opens or creates, if memory runs out after its last storage operation.
fn lacking_either<P: Negotiated>() -> Lacking<P::OpenOrCreateError>
    ensures opened { result.opened ≡ P.open_or_create_error (lacking_either false) }
    ensures created { result.created ≡ P.open_or_create_error (lacking_either true) }
{
    Lacking {
        opened: P::open_or_create_error(OpenOrCreateFailure::Open(OpenFailure::OutOfMemory)),
        created: P::open_or_create_error(OpenOrCreateFailure::Create(CreateFailure::OutOfMemory)),
    }
}
