//! The line that a service of each pattern is published with; and a service in a table, with up to the maximum number of attributes,
//! that is created, opened and closed, twice.
use crate::agreement::lines::lines;
use crate::agreement::sizes::{attributes, requirements};
use crate::agreement::tables::is_shown;
use crate::answers::hold;
use iox_describe::pattern::{Event, PublishSubscribe, RequestResponse};
use iox_describe::requirement::{event, publish_subscribe, request_response};
use iox_describe::{
    AttributeError, AttributeSpecifier, AttributeVerifier, Header, LimitError, MessageTypeDetails,
    ServiceName, TypeVariant,
};
use iox_negotiate::{Builder, Negotiated, PortFactory, ServiceBuilder, Slice};
use iox_negotiate_table::Table;
use std::alloc::Global;

/// The number of a node: a large one.
const NODE: u64 = 1 << 63;

/// A builder of the service with this name, for that node.
pub(crate) fn builder(name: &[u8]) -> Result<Builder, LimitError> {
    Ok(Builder::new(NODE, ServiceName::new(name)?))
}

/// Whether the service is created with these attributes, and published with this line.
pub(crate) fn is_published<P: Negotiated>(
    alloc: Global,
    asked: ServiceBuilder<P>,
    given: &AttributeSpecifier,
    table: &mut Table,
    line: &str,
) -> bool {
    match asked.create_with_attributes(alloc, given, table).ok() {
        Some(factory) => is_shown(table, factory.description().service_hash(), line.as_bytes()),
        None => false,
    }
}

/// Whether three services are published with the lines that describe them; one of them has attributes.
fn are_published_in(
    alloc: Global,
    none: &AttributeSpecifier,
    two: &AttributeSpecifier,
    table: &mut Table,
) -> Result<bool, LimitError> {
    let [line, _, _, _, event_line, line_with_attributes] = lines();
    let first = builder(b"23")?
        .publish_subscribe::<Slice<u64>>()
        .user_header::<u64>();
    let is_first = is_published(alloc, first, none, table, line);
    let second = builder(b"E")?
        .event()
        .deadline(7)
        .max_notifiers(0)
        .max_nodes(3)
        .notifier_dead_event(9);
    let is_second = is_published(alloc, second, none, table, event_line);
    let third = builder(b"R")?
        .request_response::<[u32; 3], Slice<i64>>()
        .request_user_header::<u32>()
        .response_user_header::<u16>()
        .request_payload_alignment(2)
        .response_payload_alignment(32);
    Ok(is_first && is_second && is_published(alloc, third, two, table, line_with_attributes))
}

/// Two attributes with the same key, in this order.
fn two_attributes(alloc: Global) -> Result<AttributeSpecifier, AttributeError> {
    let mut attributes = AttributeSpecifier::new();
    attributes.define(alloc, b"k", b"v")?;
    attributes.define(alloc, b"k", b"")?;
    Ok(attributes)
}

/// Whether the three services are published in a new table.
fn are_published(alloc: Global) -> bool {
    match two_attributes(alloc) {
        Ok(two) => {
            let none = AttributeSpecifier::new();
            are_published_in(alloc, &none, &two, &mut Table::new(alloc, 1)) == Ok(true)
        }
        Err(_) => false,
    }
}

/// Whether a service with this name is created and opened, and both factories are closed.
fn is_named(alloc: Global, name: &[u8], table: &mut Table) -> Result<bool, LimitError> {
    let first = builder(name)?.event().create(alloc, table).ok();
    let second = builder(name)?.event().open(alloc, table).ok();
    Ok(is_closed(first, 0, table) && is_closed(second, 0, table))
}

/// Whether that is so for names with each byte of 1..=127, in one table.
fn each_byte_names(alloc: Global, table: &mut Table) -> Result<bool, LimitError> {
    for byte in 1..128 {
        if !is_named(alloc, &[b'a', byte, b'b'], table)? {
            return Ok(false);
        }
    }
    Ok(true)
}

/// A builder of the event service `A` that requires `count` attributes of the largest size.
fn of_many(alloc: Global, count: usize) -> Option<ServiceBuilder<Event>> {
    let required = requirements(alloc, count, 256).ok();
    match builder(b"A").ok().zip(required) {
        Some((builder, required)) => {
            Some(builder.with_requirement::<Event>(event::Requirement::new(required)))
        }
        None => None,
    }
}

/// The factory that a copy of the builder creates with these attributes.
fn created<P: Negotiated>(
    alloc: Global,
    asked: &ServiceBuilder<P>,
    given: &AttributeSpecifier,
    table: &mut Table,
) -> Option<PortFactory<P>> {
    let asked = asked.try_clone(alloc).ok()?;
    asked.create_with_attributes(alloc, given, table).ok()
}

/// The factory that another builder opens, which requires `count` attributes.
fn opened(alloc: Global, count: usize, table: &mut Table) -> Option<PortFactory<Event>> {
    let required = requirements(alloc, count, 256).ok();
    let (builder, required) = builder(b"A").ok().zip(required)?;
    builder
        .event()
        .open_with_attributes(alloc, required, table)
        .ok()
}

/// Whether there is a factory, its service has `count` attributes, and the factory is closed.
fn is_closed<P: Negotiated>(made: Option<PortFactory<P>>, count: usize, table: &mut Table) -> bool {
    let Some(factory) = made else {
        return false;
    };
    let told = factory.attributes().as_slice().len();
    factory.close(table).is_ok() && told == count
}

/// Whether the service is twice created, opened and closed with these attributes, of which there are `count`.
fn lives_again(
    alloc: Global,
    asked: &ServiceBuilder<Event>,
    given: &AttributeSpecifier,
    count: usize,
    table: &mut Table,
) -> bool {
    for _ in 0..2 {
        let first = created(alloc, asked, given, table);
        let second = opened(alloc, count, table);
        if !is_closed(second, count, table) || !is_closed(first, count, table) {
            return false;
        }
    }
    true
}

/// Whether that is so in a new table with `count` attributes of the largest size, which are required as well.
fn is_lived(alloc: Global, count: usize) -> bool {
    let asked = of_many(alloc, count);
    match attributes(alloc, count, 256).ok().zip(asked) {
        Some((given, asked)) => {
            lives_again(alloc, &asked, &given, count, &mut Table::new(alloc, 1))
        }
        None => false,
    }
}

/// A requirement of this many pairs and this many keys.
fn unequal(alloc: Global, pairs: usize, keys: usize) -> Result<AttributeVerifier, AttributeError> {
    let mut required = requirements(alloc, 0, 0)?;
    for _ in 0..pairs {
        required.require(alloc, b"k", b"v")?;
    }
    for _ in 0..keys {
        required.require_key(alloc, b"k")?;
    }
    Ok(required)
}

/// Whether a copy of the builder creates the service with these attributes, and the factory is closed.
fn is_created<P: Negotiated>(
    alloc: Global,
    asked: ServiceBuilder<P>,
    given: &AttributeSpecifier,
    table: &mut Table,
) -> bool {
    is_closed(
        created(alloc, &asked, given, table),
        given.as_slice().len(),
        table,
    )
}

/// Whether that is so for a publish-subscribe service with this requirement.
fn messages(
    alloc: Global,
    required: AttributeVerifier,
    given: &AttributeSpecifier,
    table: &mut Table,
) -> Result<bool, LimitError> {
    let types = MessageTypeDetails::from::<Header, (), u64>(TypeVariant::FixedSize);
    let required = publish_subscribe::Requirement::new(types, required);
    let asked = builder(b"A")?.with_requirement::<PublishSubscribe>(required);
    Ok(is_created(alloc, asked, given, table))
}

/// Whether that is so for an event service with this requirement.
fn events(
    alloc: Global,
    required: AttributeVerifier,
    given: &AttributeSpecifier,
    table: &mut Table,
) -> Result<bool, LimitError> {
    let required = event::Requirement::new(required);
    let asked = builder(b"A")?.with_requirement::<Event>(required);
    Ok(is_created(alloc, asked, given, table))
}

/// Whether that is so for a request-response service with this requirement.
fn requests(
    alloc: Global,
    required: AttributeVerifier,
    given: &AttributeSpecifier,
    table: &mut Table,
) -> Result<bool, LimitError> {
    let types = MessageTypeDetails::from::<Header, (), u64>(TypeVariant::FixedSize);
    let required = request_response::Requirement::new(types, types, required);
    let asked = builder(b"A")?.with_requirement::<RequestResponse>(required);
    Ok(is_created(alloc, asked, given, table))
}

/// Whether copies of builders that require this many pairs and keys create services with eight attributes of the largest size, and
/// the factories are closed.
fn are_created(alloc: Global, pairs: usize, keys: usize) -> Result<bool, AttributeError> {
    let given = attributes(alloc, 8, 256)?;
    let mut table = Table::new(alloc, 1);
    let made = [
        messages(alloc, unequal(alloc, pairs, keys)?, &given, &mut table),
        events(alloc, unequal(alloc, pairs, keys)?, &given, &mut table),
        requests(alloc, unequal(alloc, pairs, keys)?, &given, &mut table),
    ];
    Ok(made == [Ok(true); 3])
}

#[test]
fn a_service_is_published_opened_closed_and_created_again(rt: HostRuntime) {
    let alloc: Global = rt.alloc();
    let answers = [
        Ok(are_published(alloc)),
        Ok(is_lived(alloc, 0)),
        Ok(is_lived(alloc, 1)),
        Ok(is_lived(alloc, 2)),
        Ok(is_lived(alloc, 7)),
        Ok(is_lived(alloc, 8)),
        Ok(each_byte_names(alloc, &mut Table::new(alloc, 1)) == Ok(true)),
        Ok(are_created(alloc, 0, 3) == Ok(true)),
        Ok(are_created(alloc, 5, 0) == Ok(true)),
        Ok(are_created(alloc, 8, 1) == Ok(true)),
    ];
    hold(&rt, &answers);
}
