//! What the first lookup of a call that opens a service decides, if there is no memory for the call. None of it takes memory.
ghost use Rattle.std.specs.Prelude.{◌≡◌, Option, None};
ghost use Rattle.std.specs.Option.{option_map_or};
ghost use Rattle.iox_delivery_factories.specs.DescribeBase.Hash.{service_hash_of};
ghost use Rattle.iox_delivery_factories.specs.DescribeSettings.Agreement.{agreement, AreWithinLimits, HasNoRoomForHistory};
ghost use Rattle.iox_negotiate.specs.Asked.{IsRefusal};
ghost use Rattle.iox_negotiate_table.specs.Describe.Within.{IsWithinLimits};
ghost use Rattle.iox_negotiate_table.specs.NegotiateBase.declared.failure.CreateFailure.{CreateFailure};
ghost use Rattle.iox_hub_base.specs.FirstLook.{acts_first, either_failure, found_first, opening_failure};

use crate::hub::{HashState, Hub};
use iox_describe::{AttributeVerifier, MessagingPattern, ServiceName};
use iox_negotiate::{Asked, Negotiated, ServiceBuilder};
use iox_negotiate_base::{CreateFailure, OpenFailure, OpenOrCreateFailure, Request};
use iox_negotiate_table::StepList;

/// Whether other nodes act before the first storage operation of a call that is handed these lists of actions.
pub(crate) fn acts_first(steps: &[StepList]) -> bool
    ensures { result ≡ acts_first steps.now }
{
    match steps.first() {
        Some(list) => !list.as_slice().is_empty(),
        None => false,
    }
}

// What the first lookup finds under the hash of a pattern and a name, unless other nodes act before.
fn found_first<T: Copy, U: Copy, B: Drop, D: Drop>(
    hub: &Hub<T, U, B, D>,
    acts: bool,
    pattern: MessagingPattern,
    name: &ServiceName,
) -> Option<HashState>
    ensures { result ≡ found_first acts (service_hash_of pattern name.now) hub.now }
{
    if acts {
        return None;
    }
    Some(hub.state_under(pattern, name))
}

/// The error of an opening for which there is no memory. What the first lookup decides is still reported.
// It has a stack frame of its own, so that the caller's frame, below which the deepest calls are made, doesn't grow.
#[inline(never)]
pub(crate) fn lacking_open<P: Negotiated, T: Copy, U: Copy, B: Drop, D: Drop>(
    hub: &Hub<T, U, B, D>,
    acts: bool,
    builder: &ServiceBuilder<P>,
) -> P::OpenError
    ensures { result
        ≡ P.open_error (opening_failure (found_first acts (service_hash_of P.pattern builder.now.name) hub.now)) }
{
    P::open_error(match found_first(hub, acts, P::pattern(), builder.name()) {
        Some(HashState::Absent) => OpenFailure::DoesNotExist,
        Some(HashState::Locked) => OpenFailure::HangsInCreation,
        Some(HashState::Described) | None => OpenFailure::OutOfMemory,
    })
}

/// The error of a call that opens or creates, and for which there is no memory. What the first lookup decides is still reported.
// As `lacking_open`.
#[inline(never)]
pub(crate) fn lacking_open_or_create<P: Negotiated, T: Copy, U: Copy, B: Drop, D: Drop>(
    hub: &Hub<T, U, B, D>,
    acts: bool,
    builder: ServiceBuilder<P>,
    attributes: Option<AttributeVerifier>,
) -> P::OpenOrCreateError
    ensures { let required = option_map_or (λ more. P.with_attributes builder.requirement more) attributes builder.requirement in
        let config = P.adjusted (P.asked required) in let hash = service_hash_of P.pattern builder.name in
        (refusal : Option CreateFailure)
        × IsRefusal (AreWithinLimits (P.settings config)) (HasNoRoomForHistory (P.settings config)) refusal
        × (refusal ≡ None → IsWithinLimits (agreement builder.name hash (P.settings config) (P.attributes required).pairs))
        × (result ≡ P.open_or_create_error (either_failure refusal (found_first acts hash hub.now))) }
{
    let found = found_first(hub, acts, P::pattern(), builder.name());
    let refusal = settings_refused(builder, attributes);
    P::open_or_create_error(match (found, refusal) {
        (Some(HashState::Absent), Some(failure)) => OpenOrCreateFailure::Create(failure),
        (Some(HashState::Locked), _) => OpenOrCreateFailure::Open(OpenFailure::HangsInCreation),
        _ => OpenOrCreateFailure::Open(OpenFailure::OutOfMemory),
    })
}

// Why the service can't be created with the settings of the builder, if that is so; if attributes are given, they replace the builder's.
fn settings_refused<P: Negotiated>(
    builder: ServiceBuilder<P>,
    attributes: Option<AttributeVerifier>,
) -> Option<CreateFailure>
    ensures refusal { let required = option_map_or (λ more. P.with_attributes builder.requirement more) attributes builder.requirement in
        let config = P.adjusted (P.asked required) in
        IsRefusal (AreWithinLimits (P.settings config)) (HasNoRoomForHistory (P.settings config)) result }
    ensures within { let required = option_map_or (λ more. P.with_attributes builder.requirement more) attributes builder.requirement in
        result ≡ None → IsWithinLimits (agreement builder.name (service_hash_of P.pattern builder.name)
        (P.settings (P.adjusted (P.asked required))) (P.attributes required).pairs) }
{
    let name = *builder.name();
    let node = builder.node();
    let requirement = match attributes {
        Some(attributes) => P::with_attributes(builder.into_requirement(), attributes),
        None => builder.into_requirement(),
    };
    let attributes = P::attributes(&requirement).attributes();
    Asked::<P>::new(name, node, &requirement, attributes).refusal()
}
