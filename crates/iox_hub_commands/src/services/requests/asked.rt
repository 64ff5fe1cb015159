//! The requirements on a service of each pattern.
ghost use Rattle.std.specs.Prelude.{◌≡◌, []};
ghost use Rattle.std.specs.Option.{option_map};
ghost use Rattle.iox_hub_base.specs.DescribeBase.Attributes.{required};
ghost use Rattle.iox_hub_commands.specs.Asked.{types_of, set_to, required_event, required_publish_subscribe, required_request_response};

use iox_command::{EventOptions, NumberOrOff, PublishSubscribeOptions, RequestResponseOptions};
use iox_describe_base::{AttributeVerifier, Header, MessageTypeDetails, TypeVariant, ZeroCopySend};
use iox_describe_verdict::requirement;

/// The types of messages that are slices of `T`, with a user header of `U`.
pub fn message_types<T: ZeroCopySend, U: ZeroCopySend>() -> MessageTypeDetails
    ensures { result ≡ types_of T.name T.size T.alignment U.name U.size U.alignment }
{
    MessageTypeDetails::from::<Header, U, T>(TypeVariant::Dynamic)
}

/// The requirement on a publish-subscribe service whose messages have these types: each setting that is named, and no attribute.
pub fn publish_subscribe(
    options: &PublishSubscribeOptions,
    types: MessageTypeDetails,
) -> requirement::publish_subscribe::Requirement
    ensures { result ≡ required_publish_subscribe options.now types (required [] []) }
{
    requirement::publish_subscribe::Requirement {
        types,
        attributes: AttributeVerifier::new(),
        enable_safe_overflow: options.enable_safe_overflow,
        sequence_numbers: options.sequence_numbers,
        max_publishers: options.max_publishers,
        max_subscribers: options.max_subscribers,
        subscriber_max_buffer_size: options.subscriber_max_buffer_size,
        history_size: options.history_size,
        subscriber_max_borrowed_samples: options.subscriber_max_borrowed_samples,
        max_nodes: options.max_nodes,
    }
}

/// The requirement on an event service: each setting that is named, and no attribute.
pub fn event(options: &EventOptions) -> requirement::event::Requirement
    ensures { result ≡ required_event options.now (required [] []) }
{
    requirement::event::Requirement {
        attributes: AttributeVerifier::new(),
        deadline: named(options.deadline),
        max_notifiers: options.max_notifiers,
        max_listeners: options.max_listeners,
        event_id_max_value: options.event_id_max_value,
        notifier_created_event: named(options.notifier_created_event),
        notifier_dropped_event: named(options.notifier_dropped_event),
        notifier_dead_event: named(options.notifier_dead_event),
        max_nodes: options.max_nodes,
    }
}

/// The requirement on a request-response service whose requests and responses have these types: each setting that is named, and no
/// attribute.
pub fn request_response(
    options: &RequestResponseOptions,
    types: MessageTypeDetails,
) -> requirement::request_response::Requirement
    ensures { result ≡ required_request_response options.now types (required [] []) }
{
    let same = types;
    requirement::request_response::Requirement {
        request_types: types,
        response_types: same,
        attributes: AttributeVerifier::new(),
        enable_safe_overflow_for_requests: options.enable_safe_overflow_for_requests,
        enable_safe_overflow_for_responses: options.enable_safe_overflow_for_responses,
        enable_fire_and_forget_requests: options.enable_fire_and_forget_requests,
        max_loaned_requests: options.max_loaned_requests,
        max_active_requests_per_client: options.max_active_requests_per_client,
        max_response_buffer_size: options.max_response_buffer_size,
        max_servers: options.max_servers,
        max_clients: options.max_clients,
        max_borrowed_responses_per_pending_response: options.max_borrowed_responses_per_pending_response,
        max_nodes: options.max_nodes,
    }
}

// The value that is required of a setting that can be off, if it is named.
fn named(option: Option<NumberOrOff>) -> Option<Option<u64>>
    ensures { result ≡ option_map set_to option }
{
    match option {
        None => None,
        Some(NumberOrOff::Number(number)) => Some(Some(number)),
        Some(NumberOrOff::Off) => Some(None),
    }
}
