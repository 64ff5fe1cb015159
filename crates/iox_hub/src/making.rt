//! How ports are created with the handlers that are named.
ghost use Rattle.std.specs.Prelude.{◌≡◌, ◌+◌, ◌<◌, ◌^◌, Some, is_some, IfSome};
ghost use Rattle.std.specs.Option.{option_map};
ghost use Rattle.iox_hub_commands.specs.Naming.{publisher_handlers};
ghost use Rattle.iox_hub_commands.specs.PortRoom.{KeepsRoom};
ghost use Rattle.iox_hub_commands.specs.Services.{domain_of_factory, owner_of_factory};
ghost use Rattle.iox_hub_commands.specs.Container.NumberTable.{value_at};
ghost use Rattle.iox_hub_commands.specs.ServicesTables.{publish_subscribe_in};
ghost use Rattle.iox_hub.specs.Places.{lies_at, named as handler_named, backpressure_of, degradation_of, emptied, emptied_if};
ghost use Rattle.iox_hub.specs.Steps.{PublisherTakes, SubscriberTakes, ports_of_factory};

use crate::given::GivenHandlers;
use crate::handlers::TakesHandlers;
use iox_command::{PublisherOptions, Reply, SubscriberOptions};
use iox_domain::settings::PublisherSettings;
use iox_domain::{DomainId, calls};
use iox_domain_values::{Decides, DegradationAction, Degrades, PortOwner};
use iox_hub_commands::NumberedHub;
use std::alloc::Global;

// The domain of the factory with this number, and the owner of its ports; None if the number has no publish-subscribe factory, or its
// domain isn't in the hub.
fn place_here<T: Copy, U: Copy, B: Decides + Degrades, D: Degrades>(
    hub: &NumberedHub<T, U, B, D>,
    factory: u64,
) -> Option<(DomainId, PortOwner)>
    ensures found { IfSome result (λ place. option_map (λ opened. (domain_of_factory opened, owner_of_factory opened))
        (publish_subscribe_in (value_at hub.now.factories.made factory)) ≡ Some place) }
    ensures here { is_some result ≡ is_some
        (ports_of_factory (publish_subscribe_in (value_at hub.now.factories.made factory)) hub.now.hub) }
{
    let (domain, owner) = hub.place(factory)?;
    match calls::ports(&hub.hub, domain) {
        Some(_) => Some((domain, owner)),
        None => None,
    }
}

// The handlers of a publisher: the given ones, and the actions that the command names in the place of missing ones.
fn publisher_handlers<P, D, B: TakesHandlers<P, D>>(
    options: &PublisherOptions,
    at_full: Option<P>,
    at_failure: Option<D>,
) -> B
    ensures { result ≡ publisher_handlers (λ strategy action degrading. B.handled strategy action degrading at_full at_failure)
        options.now }
{
    let defaults = PublisherSettings::default();
    B::with_handlers(
        options.backpressure_strategy.unwrap_or(defaults.strategy),
        options.backpressure_handler,
        options
            .degradation_handler
            .unwrap_or(DegradationAction::Warn),
        at_full,
        at_failure,
    )
}

/// Creates a publisher for the factory's service, and takes the handlers that are named by their places: the first for full mailboxes, the
/// second for failed connections. Skipped, and nothing happens, if a named handler doesn't exist, if the number has no publish-subscribe
/// factory, or if the factory's domain isn't in the hub.
pub(crate) fn publisher<T: Copy, U: Copy + Default, B: TakesHandlers<P, D>, D: Degrades, P: Drop>(
    hub: &mut NumberedHub<T, U, B, D>,
    alloc: Global,
    factory: u64,
    options: &PublisherOptions,
    named: (Option<u64>, Option<u64>),
    given: &mut GivenHandlers<P, D>,
) -> Reply<T>
    requires { hub.old.made.publishers.next + 1 < 2 ^ 64 }
    ensures room { KeepsRoom hub.old hub.new }
    ensures takes { PublisherTakes U.is_default
        (λ strategy action degrading at_full at_failure. B.handled strategy action degrading at_full at_failure)
        (λ handlers. B.degrades handlers) (handler_named backpressure_of named.0 given.old.places.items)
        (handler_named degradation_of named.1 given.old.places.items)
        (ports_of_factory (publish_subscribe_in (value_at hub.old.factories.made factory)) hub.old.hub) factory options.now
        (emptied_if named.1 (emptied_if named.0 given.old.places.items)) (hub.old, given.old.places.items) result
        (hub.new, given.new.places.items) }
{
    let (at_full, at_failure) = named;
    if !given.holds_backpressure(at_full) {
        return Reply::Skipped;
    }
    if !given.holds_degradation(at_failure) {
        return Reply::Skipped;
    }
    let Some(place) = place_here(hub, factory) else {
        return Reply::Skipped;
    };
    let at_full = given.take_backpressure(at_full);
    let at_failure = given.take_degradation(at_failure);
    let handlers = publisher_handlers(options, at_full, at_failure);
    hub.publisher_with(alloc, place.0, place.1, options, handlers)
}

/// Creates a subscriber for the factory's service, and takes the handler for failed connections, by its place. Skipped, and nothing
/// happens, if there is no such handler, if the number has no publish-subscribe factory, or if the factory's domain isn't in the hub.
pub(crate) fn subscriber<T: Copy, U: Copy, B: Decides + Degrades, D: Degrades, P: Drop>(
    hub: &mut NumberedHub<T, U, B, D>,
    alloc: Global,
    factory: u64,
    options: &SubscriberOptions,
    named: u64,
    given: &mut GivenHandlers<P, D>,
) -> Reply<T>
    requires { hub.old.made.subscribers.next + 1 < 2 ^ 64 }
    ensures room { KeepsRoom hub.old hub.new }
    ensures takes { SubscriberTakes (λ handler. D.degrades handler) (degradation_of (lies_at named given.old.places.items))
        (ports_of_factory (publish_subscribe_in (value_at hub.old.factories.made factory)) hub.old.hub) factory options.now
        (emptied named given.old.places.items) (hub.old, given.old.places.items) result (hub.new, given.new.places.items) }
{
    if !given.holds_degradation(Some(named)) {
        return Reply::Skipped;
    }
    let Some(place) = place_here(hub, factory) else {
        return Reply::Skipped;
    };
    let Some(handler) = given.take_degradation(Some(named)) else {
        return Reply::Skipped;
    };
    hub.subscriber_with(alloc, place.0, place.1, options, handler)
}
