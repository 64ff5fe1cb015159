//! Services of a hub.
use crate::conversations;
use crate::ports::must_be_there;
use crate::texts::is_shown;
use iox_describe::pattern::PublishSubscribe;
use iox_describe::{
    AttributeSpecifier, Description, Header, MessageTypeDetails, MessagingPattern, ServiceName,
    Settings, TypeVariant, publish_subscribe,
};
use iox_domain::Nobody;
use iox_hub::prelude::PublishSubscribeOpenError;
use iox_hub_base::{Hub, HubBuilder, HubConfig, NodeHandle, PortFactory};
use iox_negotiate_table::{ForeignStep, StepList};
use std::alloc::{AllocError, Global};
use std::process::Abort;
use std::test::Fail;

/// A hub whose messages are `u64` with a `u8` as user header, and whose ports have no handlers.
pub(crate) type Messages = Hub<u64, u8, Nobody, Nobody>;

/// A factory of a service of this hub.
pub(crate) type Service = PortFactory<PublishSubscribe>;

// How the hub is made.
const CONFIG: HubConfig = HubConfig {
    expired_connection_buffer: 5,
    id: 7,
};

/// How a node gets its factory of the service.
#[derive(Clone, Copy)]
pub(crate) enum How {
    Create,
    Open,
    OpenOrCreate,
}

// A node comes to the service, and asks for mailboxes of three messages, and numbers.
fn come(
    rt: &impl Abort,
    alloc: Global,
    hub: &mut Messages,
    node: NodeHandle,
    how: How,
) -> Result<Service, Fail> {
    must_be_there(rt, hub.holds_node(&node));
    let name = ServiceName::new(b"A")?;
    let builder = hub
        .service_builder(&node, name)
        .publish_subscribe::<u64>()
        .user_header::<u8>()
        .subscriber_max_buffer_size(3)
        .sequence_numbers(true);
    must_be_there(rt, builder.holds(hub));
    Ok(match how {
        How::Create => builder.create_in(alloc, hub, Vec::new(alloc))?,
        How::Open => builder.open_in(alloc, hub, Vec::new(alloc))?,
        How::OpenOrCreate => builder.open_or_create_in(alloc, hub, Vec::new(alloc))?,
    })
}

/// Makes a new node, which gets a factory of the service.
pub(crate) fn come_new(
    rt: &impl Abort,
    alloc: Global,
    hub: &mut Messages,
    how: How,
) -> Result<Service, Fail> {
    let node = hub.new_node()?;
    come(rt, alloc, hub, node, how)
}

// The service must be closed.
fn close(rt: &impl Abort, hub: &mut Messages, service: Service) {
    must_be_there(rt, hub.holds(&service));
    assert!(rt; hub.close(service).is_ok());
}

// A node that opens the service twice can close it twice.
fn come_and_go(
    rt: &impl Abort,
    alloc: Global,
    hub: &mut Messages,
    node: NodeHandle,
    life: &(How, How),
) -> Result<(), Fail> {
    let first = come(rt, alloc, hub, node, life.0)?;
    let second = come(rt, alloc, hub, node, life.1);
    close(rt, hub, first);
    close(rt, hub, second?);
    Ok(())
}

// Lives of the service. Each begins anew.
const LIVES: [(How, How); 2] = [
    (How::Create, How::Open),
    (How::OpenOrCreate, How::OpenOrCreate),
];

// A hub doesn't hold a node that it never made, though the node's hub has its id.
fn is_not_held(rt: &impl Abort, alloc: Global, hub: &Messages) -> Result<(), Fail> {
    let node = Messages::new(alloc, CONFIG).new_node()?;
    assert!(rt; !hub.holds_node(&node));
    Ok(())
}

// The first node of the hub is shown as stated, and the service lives so often.
fn live(rt: &impl Abort, alloc: Global, hub: &mut Messages) -> Result<(), Fail> {
    is_not_held(rt, alloc, hub)?;
    let node = hub.new_node()?;
    assert!(rt; is_shown(alloc, &node, "NodeHandle { hub: 7, number: 1 }")?);
    for life in &LIVES {
        come_and_go(rt, alloc, hub, node, life)?;
    }
    Ok(())
}

// What another node publishes: of three nodes at most, and with an attribute.
fn description(alloc: Global) -> Result<Description, Fail> {
    let types = MessageTypeDetails::from::<Header, u8, u64>(TypeVariant::FixedSize);
    let mut agreed = publish_subscribe::StaticConfig::new(types);
    agreed.max_nodes = 3;
    agreed.subscriber_max_buffer_size = 3;
    agreed.sequence_numbers = true;
    let mut attributes = AttributeSpecifier::new();
    attributes.define(alloc, b"k", b"v")?;
    let name = ServiceName::new(b"A")?;
    Ok(Description::new(name, Settings::PublishSubscribe(agreed), attributes))
}

// 129 steps: node 1 of others locks the service again and again and publishes it in the end, and node 2 comes in last of all.
fn steps(alloc: Global, description: Description) -> Result<StepList, AllocError> {
    let mut steps = Vec::new(alloc);
    for _ in 0..63 {
        steps.push(ForeignStep::Lock { node: 1 })?;
        steps.push(ForeignStep::GiveUp { node: 1 })?;
    }
    steps.push(ForeignStep::Lock { node: 1 })?;
    steps.push(ForeignStep::Publish {
        node: 1,
        description,
    })?;
    steps.push(ForeignStep::Register { node: 2 })?;
    Ok(StepList::new(steps))
}

// Whether there is no room for one more node.
fn is_full(rt: &impl Abort, alloc: Global, hub: &mut Messages) -> Result<bool, Fail> {
    let node = hub.new_node()?;
    must_be_there(rt, hub.holds_node(&node));
    let builder = hub
        .service_builder(&node, ServiceName::new(b"A")?)
        .publish_subscribe::<u64>()
        .user_header::<u8>();
    must_be_there(rt, builder.holds(hub));
    match builder.open_in(alloc, hub, Vec::new(alloc)) {
        Ok(service) => {
            close(rt, hub, service);
            Ok(false)
        }
        Err(PublishSubscribeOpenError::ExceedsMaxNumberOfNodes) => Ok(true),
        Err(error) => Err(Fail::from(error)),
    }
}

// A node finds the service of the others with its attribute, and is the last for which there is room.
fn find(rt: &impl Abort, alloc: Global, hub: &mut Messages) -> Result<(), Fail> {
    let steps = steps(alloc, description(alloc)?)?;
    let name = ServiceName::new(b"A")?;
    hub.foreign(MessagingPattern::PublishSubscribe, &name, &steps)?;
    let service = come_new(rt, alloc, hub, How::Open)?;
    assert!(rt; service.attributes().as_slice().len() == 1);
    assert!(rt; is_full(rt, alloc, hub)?);
    close(rt, hub, service);
    Ok(())
}

/// What a test does in a new hub.
#[derive(Clone, Copy)]
pub(crate) enum Course {
    Services,
    Values,
    Others,
}

fn take(rt: &impl Abort, alloc: Global, hub: &mut Messages, course: Course) -> Result<(), Fail> {
    match course {
        Course::Services => live(rt, alloc, hub),
        Course::Values => conversations::agree(rt, alloc, hub),
        Course::Others => find(rt, alloc, hub),
    }
}

/// Does this in a new hub. A wrong result aborts or is an error.
pub(crate) fn go(rt: &impl Abort, alloc: Global, course: Course) -> Result<(), Fail> {
    take(rt, alloc, &mut Hub::new(alloc, CONFIG), course)
}

#[test]
fn services_come_and_go(rt: HostRuntime) -> Result<(), Fail> {
    go(&rt, rt.alloc(), Course::Services)
}

#[test]
fn a_service_of_others_is_found(rt: HostRuntime) -> Result<(), Fail> {
    go(&rt, rt.alloc(), Course::Others)
}
