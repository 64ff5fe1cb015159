//! The options of each pattern.
ghost use Rattle.std.specs.Prelude.{◌≡◌};
ghost use Rattle.iox_line.specs.ServicesReading.{publish_subscribe_of, event_of, request_response_of};

use crate::services::value::{named_number_or_off, named_switch};
use crate::text::Words;
use crate::text::options::named_options;
use crate::text::value::named_number;
use iox_command::{EventOptions, PublishSubscribeOptions, RequestResponseOptions};

/// The options of a publish-subscribe service; `None` if a word isn't an option, or an option is named twice.
pub fn publish_subscribe(words: &Words) -> Option<PublishSubscribeOptions>
    ensures { result ≡ publish_subscribe_of words.now }
{
    named_options!(
        words,
        PublishSubscribeOptions {
            max_subscribers: named_number(b"subscribers="),
            max_publishers: named_number(b"publishers="),
            max_nodes: named_number(b"nodes="),
            subscriber_max_buffer_size: named_number(b"buffer="),
            subscriber_max_borrowed_samples: named_number(b"borrowed="),
            history_size: named_number(b"history="),
            enable_safe_overflow: named_switch(b"overflow="),
            sequence_numbers: named_switch(b"sequence="),
        }
    )
}

/// The options of an event service; `None` if a word isn't an option, or an option is named twice.
pub fn event(words: &Words) -> Option<EventOptions>
    ensures { result ≡ event_of words.now }
{
    named_options!(
        words,
        EventOptions {
            max_notifiers: named_number(b"notifiers="),
            max_listeners: named_number(b"listeners="),
            max_nodes: named_number(b"nodes="),
            event_id_max_value: named_number(b"maxid="),
            deadline: named_number_or_off(b"deadline="),
            notifier_created_event: named_number_or_off(b"created="),
            notifier_dropped_event: named_number_or_off(b"dropped="),
            notifier_dead_event: named_number_or_off(b"dead="),
        }
    )
}

/// The options of a request-response service; `None` if a word isn't an option, or an option is named twice.
pub fn request_response(words: &Words) -> Option<RequestResponseOptions>
    ensures { result ≡ request_response_of words.now }
{
    named_options!(
        words,
        RequestResponseOptions {
            max_servers: named_number(b"servers="),
            max_clients: named_number(b"clients="),
            max_nodes: named_number(b"nodes="),
            max_response_buffer_size: named_number(b"buffer="),
            max_borrowed_responses_per_pending_response: named_number(b"borrowed="),
            max_active_requests_per_client: named_number(b"active="),
            max_loaned_requests: named_number(b"loans="),
            enable_safe_overflow_for_requests: named_switch(b"overflow_requests="),
            enable_safe_overflow_for_responses: named_switch(b"overflow_responses="),
            enable_fire_and_forget_requests: named_switch(b"fire="),
        }
    )
}
