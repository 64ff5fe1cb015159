//! The settings with which no service can be created, whatever exists already: that follows from the request alone, without memory. And the
//! calls that are refused at their first lookup.
ghost use Rattle.std.specs.Prelude.{◌≡◌, Option};
ghost use Rattle.iox_command.specs.NegotiateBase.declared.failure.CreateFailure.{CreateFailure};
ghost use Rattle.iox_hub_commands.specs.Asked.{types_of};
ghost use Rattle.iox_hub_commands.specs.Refusing.{IsUncreated, create_refused, either_refused, open_absent, open_locked, either_locked};
ghost use Rattle.iox_hub_commands.specs.Refusing.{first_look, open_told, create_told, either_told};
ghost use Rattle.iox_machine.specs.Asked.{settings_of};

use crate::services::asked::ServiceAsked;
use crate::services::requests::{
    acts_first, event, message_types, publish_subscribe, request_response,
};
use iox_command::{Refusal, ServiceOptions, StepBefore};
use iox_describe::pattern::{Event, PublishSubscribe, RequestResponse};
use iox_describe_base::{MessageTypeDetails, ZeroCopySend};
use iox_hub_base::{HashState, Hub};
use iox_negotiate::{Negotiated, settings_refusal};
use iox_negotiate_base::{CreateFailure, OpenFailure, OpenOrCreateFailure};

/// Why no service can be created with the settings that are asked for; None if one can. Messages are slices of `T` with a user header of
/// `U`.
/// Example: `let failure = uncreated::<u64, u64>(&asked.options);`
pub fn uncreated<T: ZeroCopySend, U: ZeroCopySend>(
    options: &ServiceOptions,
) -> Option<CreateFailure>
    ensures { IsUncreated (settings_of (types_of T.name T.size T.alignment U.name U.size U.alignment) options.now) result }
{
    uncreated_of(options, message_types::<T, U>())
}

// Why no service can be created with the settings that are asked for, for messages of these types; None if one can.
fn uncreated_of(options: &ServiceOptions, types: MessageTypeDetails) -> Option<CreateFailure>
    ensures { IsUncreated (settings_of types options.now) result }
{
    match options {
        ServiceOptions::PublishSubscribe(options) => settings_refusal::<PublishSubscribe>(
            &publish_subscribe(options, types),
        ),
        ServiceOptions::Event(options) => settings_refusal::<Event>(&event(options)),
        ServiceOptions::RequestResponse(options) => settings_refusal::<RequestResponse>(
            &request_response(options, types),
        ),
    }
}

/// The refusal that reports this failure of a creation, by the pattern that is asked for.
/// Example: `let refusal = create_refused(&asked.options, CreateFailure::InternalFailure);`
pub fn create_refused(options: &ServiceOptions, failure: CreateFailure) -> Refusal
    ensures { result ≡ create_refused options.now failure }
{
    match options {
        ServiceOptions::PublishSubscribe(_) => {
            Refusal::PublishSubscribeCreate(PublishSubscribe::create_error(failure))
        }
        ServiceOptions::Event(_) => Refusal::EventCreate(Event::create_error(failure)),
        ServiceOptions::RequestResponse(_) => {
            Refusal::RequestResponseCreate(RequestResponse::create_error(failure))
        }
    }
}

/// The refusal of `open_or_create` that reports this failure of its creation, by the pattern that is asked for.
/// Example: `let refusal = either_refused(&asked.options, CreateFailure::InternalFailure);`
pub fn either_refused(options: &ServiceOptions, failure: CreateFailure) -> Refusal
    ensures { result ≡ either_refused options.now failure }
{
    match options {
        ServiceOptions::PublishSubscribe(_) => Refusal::PublishSubscribeOpenOrCreate(
            PublishSubscribe::open_or_create_error(OpenOrCreateFailure::Create(failure)),
        ),
        ServiceOptions::Event(_) => Refusal::EventOpenOrCreate(Event::open_or_create_error(
            OpenOrCreateFailure::Create(failure),
        )),
        ServiceOptions::RequestResponse(_) => Refusal::RequestResponseOpenOrCreate(
            RequestResponse::open_or_create_error(OpenOrCreateFailure::Create(failure)),
        ),
    }
}

// The refusal of an opening if the service doesn't exist, by the pattern that is asked for.
fn open_absent(options: &ServiceOptions) -> Refusal
    ensures { result ≡ open_absent options.now }
{
    match options {
        ServiceOptions::PublishSubscribe(_) => Refusal::PublishSubscribeOpen(
            PublishSubscribe::open_error(OpenFailure::DoesNotExist),
        ),
        ServiceOptions::Event(_) => Refusal::EventOpen(Event::open_error(
            OpenFailure::DoesNotExist,
        )),
        ServiceOptions::RequestResponse(_) => Refusal::RequestResponseOpen(
            RequestResponse::open_error(OpenFailure::DoesNotExist),
        ),
    }
}

// The refusal of an opening if another node is about to create the service.
fn open_locked(options: &ServiceOptions) -> Refusal
    ensures { result ≡ open_locked options.now }
{
    match options {
        ServiceOptions::PublishSubscribe(_) => Refusal::PublishSubscribeOpen(
            PublishSubscribe::open_error(OpenFailure::HangsInCreation),
        ),
        ServiceOptions::Event(_) => Refusal::EventOpen(Event::open_error(
            OpenFailure::HangsInCreation,
        )),
        ServiceOptions::RequestResponse(_) => Refusal::RequestResponseOpen(
            RequestResponse::open_error(OpenFailure::HangsInCreation),
        ),
    }
}

// The refusal of `open_or_create` if another node is about to create the service.
fn either_locked(options: &ServiceOptions) -> Refusal
    ensures { result ≡ either_locked options.now }
{
    match options {
        ServiceOptions::PublishSubscribe(_) => Refusal::PublishSubscribeOpenOrCreate(
            PublishSubscribe::open_or_create_error(OpenOrCreateFailure::Open(
                OpenFailure::HangsInCreation,
            )),
        ),
        ServiceOptions::Event(_) => Refusal::EventOpenOrCreate(Event::open_or_create_error(
            OpenOrCreateFailure::Open(OpenFailure::HangsInCreation),
        )),
        ServiceOptions::RequestResponse(_) => Refusal::RequestResponseOpenOrCreate(
            RequestResponse::open_or_create_error(OpenOrCreateFailure::Open(
                OpenFailure::HangsInCreation,
            )),
        ),
    }
}

// What the first lookup of a call finds, unless an action is named before it.
pub(crate) fn first_look<T: Copy, U: Copy, B: Drop, D: Drop>(
    hub: &Hub<T, U, B, D>,
    asked: &ServiceAsked,
    steps: &[StepBefore],
) -> Option<HashState>
    ensures { result ≡ first_look asked.now steps.now hub.now }
{
    if acts_first(steps) {
        return None;
    }
    Some(hub.state_under(asked.options.pattern(), &asked.name))
}

// Why nothing is opened, if the first lookup decides it by having found `found`.
pub(crate) fn open_told(options: &ServiceOptions, found: Option<HashState>) -> Option<Refusal>
    ensures { result ≡ open_told options.now found }
{
    match found {
        Some(HashState::Absent) => Some(open_absent(options)),
        Some(HashState::Locked) => Some(open_locked(options)),
        Some(HashState::Described) | None => None,
    }
}

// Why nothing is created, if the settings decide it, which are refused with `refused`, or the first lookup decides it by having found
// `found`.
pub(crate) fn create_told(
    options: &ServiceOptions,
    refused: Option<CreateFailure>,
    found: Option<HashState>,
) -> Option<Refusal>
    ensures { result ≡ create_told options.now refused found }
{
    if let Some(failure) = refused {
        return Some(create_refused(options, failure));
    }
    match found {
        Some(HashState::Locked) => Some(create_refused(options, CreateFailure::HangsInCreation)),
        Some(HashState::Described) => Some(create_refused(options, CreateFailure::AlreadyExists)),
        Some(HashState::Absent) | None => None,
    }
}

// Why nothing is opened or created, if the first lookup decides it by having found `found`, and settings that are refused with `refused`.
pub(crate) fn either_told(
    options: &ServiceOptions,
    refused: Option<CreateFailure>,
    found: Option<HashState>,
) -> Option<Refusal>
    ensures { result ≡ either_told options.now refused found }
{
    match found {
        Some(HashState::Absent) => Some(either_refused(options, refused?)),
        Some(HashState::Locked) => Some(either_locked(options)),
        Some(HashState::Described) | None => None,
    }
}
