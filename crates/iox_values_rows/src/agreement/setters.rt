//! What each setter of a builder asks for, as the line of the service says it.
use crate::agreement::services::{builder, is_published};
use iox_describe::{AttributeSpecifier, LimitError, TypeDetail, TypeVariant};
use iox_negotiate_table::Table;
use std::alloc::Global;

/// The lines of a publish-subscribe, an event and a request-response service for which every setting is named, and of an event service
/// whose deadline and event for dead notifiers are disabled.
fn lines() -> [&'static str; 4] {
    [
        concat!(
            "{\"attributes\":[],\"name\":\"23\",\"pattern\":\"publish_subscribe\",",
            "\"service_hash\":\"40bd001563085fc35165329ea1ff5c5ecbdbbeef\",\"settings\":{\"enable_safe_overflow\":false,",
            "\"history_size\":5,\"max_nodes\":11,\"max_publishers\":12,\"max_subscribers\":13,\"sequence_numbers\":true,",
            "\"subscriber_max_borrowed_samples\":14,\"subscriber_max_buffer_size\":15,",
            "\"types\":{\"header\":{\"alignment\":8,\"name\":\"Header\",\"size\":24,\"variant\":\"FixedSize\"},",
            "\"payload\":{\"alignment\":16,\"name\":\"P\",\"size\":40,\"variant\":\"Dynamic\"},",
            "\"user_header\":{\"alignment\":4,\"name\":\"H\",\"size\":12,\"variant\":\"FixedSize\"}}},\"version\":2}",
        ),
        concat!(
            "{\"attributes\":[],\"name\":\"23\",\"pattern\":\"event\",",
            "\"service_hash\":\"af06318c33c8e41c70083ee23dbe19426f1f9c5b\",\"settings\":{\"deadline\":21,",
            "\"event_id_max_value\":28,\"max_listeners\":27,\"max_nodes\":25,\"max_notifiers\":26,",
            "\"notifier_created_event\":null,\"notifier_dead_event\":24,\"notifier_dropped_event\":null},\"version\":2}",
        ),
        concat!(
            "{\"attributes\":[],\"name\":\"23\",\"pattern\":\"request_response\",",
            "\"service_hash\":\"1bb85661d74e2a15ba3b959218f3c3f93c7ddb88\",",
            "\"settings\":{\"enable_fire_and_forget_requests\":false,\"enable_safe_overflow_for_requests\":false,",
            "\"enable_safe_overflow_for_responses\":false,\"max_active_requests_per_client\":31,",
            "\"max_borrowed_responses_per_pending_response\":36,\"max_clients\":35,\"max_loaned_requests\":32,",
            "\"max_nodes\":37,\"max_response_buffer_size\":33,\"max_servers\":34,",
            "\"request_types\":{\"header\":{\"alignment\":8,\"name\":\"Header\",\"size\":24,\"variant\":\"FixedSize\"},",
            "\"payload\":{\"alignment\":16,\"name\":\"Q\",\"size\":40,\"variant\":\"Dynamic\"},",
            "\"user_header\":{\"alignment\":4,\"name\":\"T\",\"size\":12,\"variant\":\"FixedSize\"}},",
            "\"response_types\":{\"header\":{\"alignment\":8,\"name\":\"Header\",\"size\":24,\"variant\":\"FixedSize\"},",
            "\"payload\":{\"alignment\":32,\"name\":\"S\",\"size\":48,\"variant\":\"FixedSize\"},",
            "\"user_header\":{\"alignment\":2,\"name\":\"U\",\"size\":20,\"variant\":\"FixedSize\"}}},\"version\":2}",
        ),
        concat!(
            "{\"attributes\":[],\"name\":\"E\",\"pattern\":\"event\",",
            "\"service_hash\":\"7151c7f46996d49977f91fc77e07abbc2c588465\",\"settings\":{\"deadline\":null,",
            "\"event_id_max_value\":4294967295,\"max_listeners\":16,\"max_nodes\":36,\"max_notifiers\":16,",
            "\"notifier_created_event\":22,\"notifier_dead_event\":null,\"notifier_dropped_event\":23},\"version\":2}",
        ),
    ]
}

/// Whether a publish-subscribe service is published with every setting that its builder has.
fn messages(
    alloc: Global,
    none: &AttributeSpecifier,
    table: &mut Table,
    line: &str,
) -> Result<bool, LimitError> {
    let asked = builder(b"23")?
        .publish_subscribe::<u64>()
        .internal_set_payload_type_details(TypeDetail::new(TypeVariant::Dynamic, b"P", 40, 8)?)
        .internal_set_user_header_type_details(TypeDetail::new(
            TypeVariant::FixedSize,
            b"H",
            12,
            4,
        )?)
        .payload_alignment(16)
        .enable_safe_overflow(false)
        .sequence_numbers(true)
        .subscriber_max_borrowed_samples(14)
        .history_size(5)
        .subscriber_max_buffer_size(15)
        .max_subscribers(13)
        .max_publishers(12)
        .max_nodes(11);
    Ok(is_published(alloc, asked, none, table, line))
}

/// Whether an event service is. The last call on a setting counts.
fn events(
    alloc: Global,
    none: &AttributeSpecifier,
    table: &mut Table,
    line: &str,
) -> Result<bool, LimitError> {
    let asked = builder(b"23")?
        .event()
        .disable_deadline()
        .deadline(21)
        .notifier_created_event(22)
        .disable_notifier_created_event()
        .notifier_dropped_event(23)
        .disable_notifier_dropped_event()
        .disable_notifier_dead_event()
        .notifier_dead_event(24)
        .max_nodes(25)
        .max_notifiers(26)
        .max_listeners(27)
        .event_id_max_value(28);
    Ok(is_published(alloc, asked, none, table, line))
}

/// Whether an event service is that sets last what `events` disables last, and the other way round.
fn other_events(
    alloc: Global,
    none: &AttributeSpecifier,
    table: &mut Table,
    line: &str,
) -> Result<bool, LimitError> {
    let asked = builder(b"E")?
        .event()
        .deadline(21)
        .disable_deadline()
        .disable_notifier_created_event()
        .notifier_created_event(22)
        .disable_notifier_dropped_event()
        .notifier_dropped_event(23)
        .notifier_dead_event(24)
        .disable_notifier_dead_event();
    Ok(is_published(alloc, asked, none, table, line))
}

/// Whether a request-response service is.
fn requests(
    alloc: Global,
    none: &AttributeSpecifier,
    table: &mut Table,
    line: &str,
) -> Result<bool, LimitError> {
    let asked = builder(b"23")?
        .request_response::<u64, u64>()
        .internal_set_request_payload_type_details(TypeDetail::new(
            TypeVariant::Dynamic,
            b"Q",
            40,
            8,
        )?)
        .internal_set_response_payload_type_details(TypeDetail::new(
            TypeVariant::FixedSize,
            b"S",
            48,
            8,
        )?)
        .internal_set_request_header_type_details(TypeDetail::new(
            TypeVariant::FixedSize,
            b"T",
            12,
            4,
        )?)
        .internal_set_response_header_type_details(TypeDetail::new(
            TypeVariant::FixedSize,
            b"U",
            20,
            2,
        )?)
        .request_payload_alignment(16)
        .response_payload_alignment(32)
        .enable_safe_overflow_for_requests(false)
        .enable_safe_overflow_for_responses(false)
        .enable_fire_and_forget_requests(false)
        .max_active_requests_per_client(31)
        .max_loaned_requests(32)
        .max_response_buffer_size(33)
        .max_servers(34)
        .max_clients(35)
        .max_borrowed_responses_per_pending_response(36)
        .max_nodes(37);
    Ok(is_published(alloc, asked, none, table, line))
}

/// Whether each of the four services is, in one table.
fn are_published(alloc: Global, table: &mut Table) -> [Result<bool, LimitError>; 4] {
    let none = AttributeSpecifier::new();
    let [of_messages, of_events, of_requests, of_other_events] = lines();
    [
        messages(alloc, &none, table, of_messages),
        events(alloc, &none, table, of_events),
        requests(alloc, &none, table, of_requests),
        other_events(alloc, &none, table, of_other_events),
    ]
}

#[test]
fn each_setter_is_published(rt: HostRuntime) {
    let published = are_published(rt.alloc(), &mut Table::new(rt.alloc(), 1));
    assert!(rt; published == [Ok(true); 4]);
}
