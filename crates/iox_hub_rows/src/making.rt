//! Each typed call that makes something. A case of `./check` refuses its requests for memory, one at a time: then the call reports that
//! memory ran out.
use crate::clones::DOMAIN;
use crate::ports::{is_given_up, must_be_free, must_be_there};
use crate::values::kept_once;
use iox_delivery::slices::Publisher;
use iox_delivery_factories::{
    PortFactoryPublisher, PortFactorySubscriber, publisher_builder, slice_publisher_builder,
    slice_subscriber_builder, slices, subscriber_builder,
};
use iox_describe_base::{
    AttributeSpecifier, Header, MessageTypeDetails, ServiceName, TypeVariant, ZeroCopySend,
};
use iox_describe_settings::publish_subscribe::StaticConfig;
use iox_describe_settings::{Description, Settings};
use iox_domain::settings::CustomPayloadMarker;
use iox_domain::{Domain, Home, Nobody};
use iox_domain_values::{
    AllocationStrategy, Decides, Degrades, DomainError, LoanError, Overrides, PublisherCreateError,
    SubscriberCreateError,
};
use iox_queues_base::Words;
use std::alloc::{AllocError, Global};
use std::process::Abort;

// Values, and elements of eight bytes.
type Values = Domain<u64, u8, Nobody, Nobody>;

type Elements = Domain<CustomPayloadMarker, u8, Nobody, Nobody>;

// Whether a call went well; an error where it found no memory, which this error says.
fn told<X: Drop, E: Copy + PartialEq>(
    made: Result<X, E>,
    of_memory: E,
) -> Result<bool, AllocError> {
    match made {
        Ok(_) => Ok(true),
        Err(error) if error == of_memory => Err(AllocError),
        Err(_) => Ok(false),
    }
}

// A subscriber of single values and a publisher come.
fn single<
    T: Copy,
    U: Copy + Default,
    B: Decides + Degrades,
    O: Overrides,
    D: Degrades,
    H: Home<T, U, ForPublishers = B, ForSubscribers = D>,
>(
    rt: &impl Abort,
    alloc: Global,
    home: &mut H,
    publishers: PortFactoryPublisher<T, U, B, O>,
    subscribers: PortFactorySubscriber<T, U, D>,
) -> Result<bool, AllocError> {
    must_be_there(rt, subscribers.holds(home));
    let came = subscribers.create(alloc, home);
    let came = told(came, SubscriberCreateError::OutOfMemory)?;
    must_be_there(rt, publishers.holds(home));
    let published = publishers.create(alloc, home);
    Ok(came && told(published, PublisherCreateError::UnableToCreateDataSegment)?)
}

// A loan of more elements than a slot has room for opens a segment.
fn grows<U: Copy, H: Home<CustomPayloadMarker, U>>(
    rt: &impl Abort,
    alloc: Global,
    home: &mut H,
    publisher: Publisher<CustomPayloadMarker, U>,
) -> Result<bool, AllocError> {
    must_be_free(rt, publisher.holds(home), publisher.is_blocked(home));
    must_be_there(rt, publisher.may_have(9));
    match publisher.loan_custom_payload(alloc, home, 9) {
        Ok(loan) => Ok(is_given_up(loan, home)),
        Err(error) => told::<(), LoanError>(Err(error), LoanError::OutOfMemory),
    }
}

// A subscriber of elements is created, and a publisher, of which more values are loaned than a slot has.
fn elements<
    U: Copy + Default,
    B: Decides + Degrades,
    O: Overrides,
    D: Degrades,
    H: Home<CustomPayloadMarker, U, ForPublishers = B, ForSubscribers = D>,
>(
    rt: &impl Abort,
    alloc: Global,
    home: &mut H,
    publishers: slices::PortFactoryPublisher<CustomPayloadMarker, U, B, O>,
    subscribers: slices::PortFactorySubscriber<CustomPayloadMarker, U, D>,
) -> Result<bool, AllocError> {
    must_be_there(rt, subscribers.holds(home));
    let came = subscribers.create_slice(alloc, home);
    let came = told(came, SubscriberCreateError::OutOfMemory)?;
    must_be_there(rt, publishers.holds(home));
    match publishers.create_slice(alloc, home) {
        Ok(publisher) => Ok(came && grows(rt, alloc, home, publisher)?),
        Err(PublisherCreateError::UnableToCreateDataSegment) => Err(AllocError),
        Err(_) => Ok(false),
    }
}

// A domain of messages of these types; none where they don't fit.
fn domain<T: Words + ZeroCopySend, U: Copy + ZeroCopySend>(
    alloc: Global,
    types: MessageTypeDetails,
) -> Result<Option<Domain<T, U, Nobody, Nobody>>, AllocError> {
    let Ok(name) = ServiceName::new(b"A") else {
        return Ok(None);
    };
    let settings = Settings::PublishSubscribe(StaticConfig::new(types));
    let description = Description::new(name, settings, AttributeSpecifier::new());
    if !Domain::<T, U, Nobody, Nobody>::fits(&description) {
        return Ok(None);
    }
    match Domain::new(alloc, DOMAIN, &description, 5) {
        Ok(domain) => Ok(Some(domain)),
        Err(DomainError::OutOfMemory) => Err(AllocError),
    }
}

// Ports of single values, of which a publisher has as many slots as an object says.
fn come(rt: &impl Abort, alloc: Global, domain: &mut Values) -> Result<bool, AllocError> {
    let (Some(publishers), Some(subscribers)) = (
        publisher_builder(domain, 4, 3),
        subscriber_builder(domain, 4, 3),
    ) else {
        return Ok(false);
    };
    let publishers = publishers
        .override_sample_preallocation(kept_once(alloc)?)
        .set_handlers(Nobody);
    let subscribers = subscribers.set_handler(Nobody);
    single(rt, alloc, domain, publishers, subscribers)
}

// Ports of elements, whose segments grow.
fn come_growing(rt: &impl Abort, alloc: Global, domain: &mut Elements) -> Result<bool, AllocError> {
    let (Some(publishers), Some(subscribers)) = (
        slice_publisher_builder(domain, 4, 3),
        slice_subscriber_builder(domain, 4, 3),
    ) else {
        return Ok(false);
    };
    let publishers = publishers
        .allocation_strategy(AllocationStrategy::PowerOfTwo)
        .initial_max_slice_len(2)
        .set_handlers(Nobody);
    let subscribers = subscribers.set_handler(Nobody);
    elements(rt, alloc, domain, publishers, subscribers)
}

fn values_are_made(rt: &impl Abort, alloc: Global) -> Result<bool, AllocError> {
    let types = MessageTypeDetails::from::<Header, u8, u64>(TypeVariant::FixedSize);
    match domain(alloc, types)? {
        Some(mut domain) => come(rt, alloc, &mut domain),
        None => Ok(false),
    }
}

fn elements_are_made(rt: &impl Abort, alloc: Global) -> Result<bool, AllocError> {
    let types = MessageTypeDetails::from::<Header, u8, u64>(TypeVariant::Dynamic);
    match domain(alloc, types)? {
        Some(mut domain) => come_growing(rt, alloc, &mut domain),
        None => Ok(false),
    }
}

#[test]
fn ports_of_values_are_made(rt: HostRuntime) -> Result<(), AllocError> {
    let made = values_are_made(&rt, rt.alloc())?;
    assert!(rt; made);
    Ok(())
}

#[test]
fn ports_of_elements_are_made(rt: HostRuntime) -> Result<(), AllocError> {
    let made = elements_are_made(&rt, rt.alloc())?;
    assert!(rt; made);
    Ok(())
}
