//! The lines of services, and texts that are nearly one. They are returned by a function, because the text of a constant would be
//! part of the proof of each function that names it.
use crate::answers::hold;
use iox_describe::{DescriptionError, MessagingPattern, ServiceName, decode, service_hash};
use std::alloc::{AllocError, Global};
use std::process::Abort;

/// Six lines. All but the second are of version 2.
pub(crate) fn lines() -> [&'static str; 6] {
    [
        // Service `23` over slices of `u64` with a `u64` user header, at default settings. This line and those of other patterns are
        // of version 2.
        concat!(
            "{\"attributes\":[],\"name\":\"23\",\"pattern\":\"publish_subscribe\",",
            "\"service_hash\":\"40bd001563085fc35165329ea1ff5c5ecbdbbeef\",\"settings\":{\"enable_safe_overflow\":true,",
            "\"history_size\":0,\"max_nodes\":20,\"max_publishers\":2,\"max_subscribers\":8,\"sequence_numbers\":false,",
            "\"subscriber_max_borrowed_samples\":2,\"subscriber_max_buffer_size\":2,\"types\":{\"header\":{\"alignment\":8,",
            "\"name\":\"Header\",\"size\":24,\"variant\":\"FixedSize\"},\"payload\":{\"alignment\":8,\"name\":\"u64\",",
            "\"size\":8,\"variant\":\"Dynamic\"},\"user_header\":{\"alignment\":8,\"name\":\"u64\",\"size\":8,",
            "\"variant\":\"FixedSize\"}}},\"version\":2}",
        ),
        // The line of version 1 of the same service.
        concat!(
            "{\"attributes\":[],\"name\":\"23\",\"pattern\":\"publish_subscribe\",",
            "\"service_hash\":\"40bd001563085fc35165329ea1ff5c5ecbdbbeef\",\"settings\":{\"enable_safe_overflow\":true,",
            "\"history_size\":0,\"max_nodes\":20,\"max_publishers\":2,\"max_subscribers\":8,",
            "\"subscriber_max_borrowed_samples\":2,\"subscriber_max_buffer_size\":2,\"types\":{\"header\":{\"alignment\":8,",
            "\"name\":\"Header\",\"size\":24,\"variant\":\"FixedSize\"},\"payload\":{\"alignment\":8,\"name\":\"u64\",",
            "\"size\":8,\"variant\":\"Dynamic\"},\"user_header\":{\"alignment\":8,\"name\":\"u64\",\"size\":8,",
            "\"variant\":\"FixedSize\"}}},\"version\":1}",
        ),
        // Event service `23` at default settings.
        concat!(
            "{\"attributes\":[],\"name\":\"23\",\"pattern\":\"event\",",
            "\"service_hash\":\"af06318c33c8e41c70083ee23dbe19426f1f9c5b\",\"settings\":{\"deadline\":null,",
            "\"event_id_max_value\":4294967295,\"max_listeners\":16,\"max_nodes\":36,\"max_notifiers\":16,",
            "\"notifier_created_event\":null,\"notifier_dead_event\":null,\"notifier_dropped_event\":null},\"version\":2}",
        ),
        // Request-response service `23` over slices of `u64` with `u64` user headers, at default settings.
        concat!(
            "{\"attributes\":[],\"name\":\"23\",\"pattern\":\"request_response\",",
            "\"service_hash\":\"1bb85661d74e2a15ba3b959218f3c3f93c7ddb88\",",
            "\"settings\":{\"enable_fire_and_forget_requests\":true,\"enable_safe_overflow_for_requests\":true,",
            "\"enable_safe_overflow_for_responses\":true,\"max_active_requests_per_client\":4,",
            "\"max_borrowed_responses_per_pending_response\":2,\"max_clients\":8,\"max_loaned_requests\":2,",
            "\"max_nodes\":20,\"max_response_buffer_size\":2,\"max_servers\":2,",
            "\"request_types\":{\"header\":{\"alignment\":8,\"name\":\"Header\",\"size\":24,\"variant\":\"FixedSize\"},",
            "\"payload\":{\"alignment\":8,\"name\":\"u64\",\"size\":8,\"variant\":\"Dynamic\"},",
            "\"user_header\":{\"alignment\":8,\"name\":\"u64\",\"size\":8,\"variant\":\"FixedSize\"}},",
            "\"response_types\":{\"header\":{\"alignment\":8,\"name\":\"Header\",\"size\":24,\"variant\":\"FixedSize\"},",
            "\"payload\":{\"alignment\":8,\"name\":\"u64\",\"size\":8,\"variant\":\"Dynamic\"},",
            "\"user_header\":{\"alignment\":8,\"name\":\"u64\",\"size\":8,\"variant\":\"FixedSize\"}}},\"version\":2}",
        ),
        // An event service with a deadline, three nodes, one notifier, and an event for dead notifiers.
        concat!(
            "{\"attributes\":[],\"name\":\"E\",\"pattern\":\"event\",",
            "\"service_hash\":\"7151c7f46996d49977f91fc77e07abbc2c588465\",\"settings\":{\"deadline\":7,",
            "\"event_id_max_value\":4294967295,\"max_listeners\":16,\"max_nodes\":3,\"max_notifiers\":1,",
            "\"notifier_created_event\":null,\"notifier_dead_event\":9,\"notifier_dropped_event\":null},\"version\":2}",
        ),
        // A request-response service with two attributes of one key, over three `u32` as one value and slices of `i64`.
        concat!(
            "{\"attributes\":[[\"k\",\"v\"],[\"k\",\"\"]],\"name\":\"R\",\"pattern\":\"request_response\",",
            "\"service_hash\":\"41dc32c132eeadb87457313fbdd46352c02196d1\",",
            "\"settings\":{\"enable_fire_and_forget_requests\":true,\"enable_safe_overflow_for_requests\":true,",
            "\"enable_safe_overflow_for_responses\":true,\"max_active_requests_per_client\":4,",
            "\"max_borrowed_responses_per_pending_response\":2,\"max_clients\":8,\"max_loaned_requests\":2,",
            "\"max_nodes\":20,\"max_response_buffer_size\":2,\"max_servers\":2,",
            "\"request_types\":{\"header\":{\"alignment\":8,\"name\":\"Header\",\"size\":24,\"variant\":\"FixedSize\"},",
            "\"payload\":{\"alignment\":4,\"name\":\"[u32; 3]\",\"size\":12,\"variant\":\"FixedSize\"},",
            "\"user_header\":{\"alignment\":4,\"name\":\"u32\",\"size\":4,\"variant\":\"FixedSize\"}},",
            "\"response_types\":{\"header\":{\"alignment\":8,\"name\":\"Header\",\"size\":24,\"variant\":\"FixedSize\"},",
            "\"payload\":{\"alignment\":32,\"name\":\"i64\",\"size\":8,\"variant\":\"Dynamic\"},",
            "\"user_header\":{\"alignment\":2,\"name\":\"u16\",\"size\":2,\"variant\":\"FixedSize\"}}},\"version\":2}",
        ),
    ]
}

/// Whether the bytes are read as a description.
pub(crate) fn is_read(alloc: Global, bytes: &[u8]) -> Result<bool, AllocError> {
    match decode(alloc, bytes).err() {
        None => Ok(true),
        Some(DescriptionError::OutOfMemory) => Err(AllocError),
        Some(DescriptionError::Invalid | DescriptionError::NotInVersion1) => Ok(false),
    }
}

/// Whether the line is read after a text in it, at its first occurrence, is replaced as the row `FROM => TO` says. A row without ` =>
/// ` is an error.
fn is_spelled(alloc: Global, line: &str, row: &str) -> Result<bool, AllocError> {
    match row.split_once(" => ") {
        Some((from, to)) => is_read(alloc, line.replacen(alloc, from, to, 1)?.as_bytes()),
        None => Err(AllocError),
    }
}

/// Replacements in the line of publish-subscribe after which it is refused.
const REFUSED: [&str; 38] = [
    // white space, and other forms of a number
    "{ => { ",
    "\"version\":2} => \"version\":2}\n",
    "\"version\":2} => \"version\":2} ",
    "\"version\":2 => \"version\": 2",
    "\"version\":2 => \"version\":2.0",
    "\"max_nodes\":20 => \"max_nodes\":020",
    "\"max_nodes\":20 => \"max_nodes\":2e1",
    "\"history_size\":0 => \"history_size\":-0",
    "\"history_size\":0 => \"history_size\":",
    "\"history_size\":0 => \"history_size\":null",
    // numbers at their limits, and past them
    "\"max_nodes\":20 => \"max_nodes\":16777216",
    "\"max_nodes\":20 => \"max_nodes\":0",
    "\"history_size\":0 => \"history_size\":4294967296",
    "\"size\":24 => \"size\":18446744073709551616",
    "\"alignment\":8 => \"alignment\":0",
    // escaped letters, other digits, other letters
    "\"name\":\"23\" => \"name\":\"2\\u0033\"",
    "\"name\":\"23\" => \"name\":\"\\u001F\"",
    "\"name\":\"23\" => \"name\":\"\\u0000\"",
    "\"name\":\"23\" => \"name\":\"\\/\"",
    "\"name\":\"23\" => \"name\":\"\t\"",
    "\"name\":\"23\" => \"name\":\"\u{80}\"",
    "\"name\":\"23\" => \"name\":\"\"",
    "40bd => 40BD",
    "40bd => 40bd0",
    "true => 1",
    "\"sequence_numbers\":false => \"sequence_numbers\":null",
    "\"FixedSize\" => \"fixedsize\"",
    // keys that are repeated, missing, strange or in another order
    "\"name\":\"23\", => \"name\":\"23\",\"name\":\"23\",",
    "\"max_nodes\":20, => ",
    "\"version\":2 => \"version\":2,\"x\":1",
    // other versions; version 1 with the switch of version 2, and version 2 without it
    "\"version\":2 => \"version\":0",
    "\"version\":2 => \"version\":3",
    "\"version\":2 => \"version\":1",
    "\"sequence_numbers\":false, => ",
    "\"history_size\":0,\"max_nodes\":20 => \"max_nodes\":20,\"history_size\":0",
    "\"publish_subscribe\" => \"event\"",
    // attributes that aren't pairs
    "\"attributes\":[] => \"attributes\":[[]]",
    "\"attributes\":[] => \"attributes\":{}",
];

/// Replacements in the line of version 1 after which it is refused.
const FIRST_REFUSED: [&str; 7] = [
    "{ => { ",
    "\"version\":1} => \"version\":1}\n",
    "\"version\":1} => \"version\":1} ",
    "\"version\":1 => \"version\": 1",
    "\"version\":1 => \"version\":2",
    "\"max_subscribers\":8 => \"max_subscribers\":8,\"sequence_numbers\":false",
    "\"max_subscribers\":8 => \"max_subscribers\":8,\"sequence_numbers\":true",
];

/// Replacements in the line of publish-subscribe after which it is read.
const READ: [&str; 6] = [
    "version => version",
    "\"sequence_numbers\":false => \"sequence_numbers\":true",
    "\"max_nodes\":20 => \"max_nodes\":16777215",
    "\"history_size\":0 => \"history_size\":4294967295",
    "\"size\":24 => \"size\":18446744073709551615",
    "\"name\":\"23\" => \"name\":\"\\u0001\\u001f\\b\\t\\n\\f\\r\\\"\\\\/\"",
];

/// A replacement that leaves the line as it is.
const ITSELF: [&str; 1] = ["version => version"];

/// The same, and one that makes a line of version 1 of a line of version 2 whose service has no sequence numbers.
const BOTH: [&str; 2] = ["version => version", "\"version\":2} => \"version\":1}"];

/// Whether the line is read after the replacement of each row, or, if `read` is false, after none of them.
fn are_spelled(
    rt: &impl Abort,
    alloc: Global,
    line: &str,
    rows: &[&str],
    read: bool,
) -> Result<bool, AllocError> {
    for row in rows {
        assert!(rt; is_spelled(alloc, line, *row)? == read, "{row}");
    }
    Ok(true)
}

/// Whether the hash of the publish-subscribe service with this name has these digits.
fn has_digits(name: &str, digits: &str) -> bool {
    match ServiceName::new(name.as_bytes()) {
        Ok(name) => service_hash(MessagingPattern::PublishSubscribe, &name)
            .text()
            .as_slice()
            == digits.as_bytes(),
        Err(_) => false,
    }
}

#[test]
fn lines_are_read_as_they_are_spelled(rt: HostRuntime) {
    let alloc: Global = rt.alloc();
    let [
        second,
        first,
        event,
        request_response,
        named_event,
        named_request_response,
    ] = lines();
    let answers = [
        are_spelled(&rt, alloc, second, &REFUSED, false),
        are_spelled(&rt, alloc, second, &READ, true),
        are_spelled(&rt, alloc, first, &FIRST_REFUSED, false),
        are_spelled(&rt, alloc, first, &ITSELF, true),
        are_spelled(&rt, alloc, event, &ITSELF, true),
        are_spelled(&rt, alloc, request_response, &ITSELF, true),
        are_spelled(&rt, alloc, named_event, &BOTH, true),
        are_spelled(&rt, alloc, named_request_response, &BOTH, true),
        Ok(has_digits("23", "40bd001563085fc35165329ea1ff5c5ecbdbbeef")),
        Ok(has_digits("234", "7110eda4d09e062aa5e4a390b0a572ac0d2c0220")),
        Ok(has_digits("23456", "7c4a8d09ca3762af61e59520943dc26494f8941b")),
    ];
    hold(&rt, &answers);
}
