//! The commands that create ports, over the tables of numbers and any home.
ghost use Rattle.iox_domain.specs.Homes as homes;
ghost use Rattle.std.specs.Prelude.{◌≡◌, ◌+◌, ◌<◌, ◌^◌};
ghost use Rattle.iox_hub_commands.specs.declared.ports.made.Made.{Made};
ghost use Rattle.iox_hub_commands.specs.Arriving.{PublisherStep, SubscriberStep, no_publisher_comes, no_subscriber_comes};
ghost use Rattle.iox_hub_commands.specs.Naming.{publisher_config, subscriber_config};
ghost use Rattle.iox_hub_commands.specs.Tables.{SameMessages};

use crate::naming;
use crate::ports::making::{why_no_publisher, why_no_subscriber};
use crate::ports::{Made, PublisherParts};
use crate::replies::{publisher_reply, subscriber_reply};
use iox_command::{PublisherOptions, Reply, SubscriberOptions};
use iox_domain::{DomainId, Home, calls};
use iox_domain_values::PortOwner;
use std::alloc::Global;

/// Creates a publisher of slices in a domain, with what the options name, and gives it the next number; `handlers` are its handlers.
/// Skipped if the domain isn't in the home; refused as `Made::make_publisher` refuses it.
pub fn publisher<T: Copy, U: Copy + Default, H: Home<T, U>>(
    alloc: Global,
    made: &mut Made,
    home: &mut H,
    domain: DomainId,
    owner: PortOwner,
    options: &PublisherOptions,
    handlers: H::ForPublishers,
) -> Reply<T>
    requires { made.old.publishers.next + 1 < 2 ^ 64 }
    ensures step { PublisherStep (homes.ports_of H.domain_of) (homes.with_ports H.changed) (homes.with_publisher H.changed)
        (λ handlers. H.ForPublishers.degrades handlers) U.is_default domain (publisher_config owner options.now)
        options.now.preallocated_samples handlers made.old home.old result made.new home.new }
    ensures messages { SameMessages made.old made.new }
{
    let slots = naming::named_slots(options);
    let parts = PublisherParts {
        config: naming::publisher_config(owner, options),
        user_header: U::default(),
        overriding: &slots,
        handlers,
        holds_slices: true,
    };
    publisher_reply(made.make_publisher(alloc, home, domain, parts))
}

/// Whether a publisher with what the options name isn't created however much memory there is: it is refused, or its domain isn't in the
/// home.
pub fn refuses_publisher<T: Copy, U: Copy, H: Home<T, U>>(
    home: &H,
    domain: DomainId,
    owner: PortOwner,
    options: &PublisherOptions,
) -> bool
    ensures { result ≡ no_publisher_comes (publisher_config owner options.now) (homes.ports_of H.domain_of domain home.now) }
{
    let config = naming::publisher_config(owner, options);
    match calls::ports(home, domain) {
        Some(ports) => ports.refuses_publisher(&config),
        None => true,
    }
}

/// The reply for a publisher that isn't created, also if memory runs out: it is refused as `Made::make_publisher` refuses it, and skipped
/// if the domain isn't in the home. Nothing changes.
pub fn publisher_refused<T: Copy, U: Copy + Default, H: Home<T, U>>(
    home: &H,
    domain: DomainId,
    owner: PortOwner,
    options: &PublisherOptions,
) -> Reply<T>
    ensures { (made : Made) (handlers : H.ForPublishers)
        → PublisherStep (homes.ports_of H.domain_of) (homes.with_ports H.changed) (homes.with_publisher H.changed)
        (λ handlers. H.ForPublishers.degrades handlers) U.is_default domain (publisher_config owner options.now)
        options.now.preallocated_samples handlers made home.now result made home.now }
{
    let _user_header = U::default();
    let config = naming::publisher_config(owner, options);
    publisher_reply(why_no_publisher(home, domain, &config))
}

/// Creates a subscriber in a domain, with what the options name, and gives it the next number; `handler` is its handler. Skipped if the
/// domain isn't in the home; refused as `Made::make_subscriber` refuses it.
pub fn subscriber<T: Copy, U: Copy, H: Home<T, U>>(
    alloc: Global,
    made: &mut Made,
    home: &mut H,
    domain: DomainId,
    owner: PortOwner,
    options: &SubscriberOptions,
    handler: H::ForSubscribers,
) -> Reply<T>
    requires { made.old.subscribers.next + 1 < 2 ^ 64 }
    ensures step { SubscriberStep (homes.ports_of H.domain_of) (homes.with_ports H.changed) (homes.with_subscriber H.changed)
        (λ handler. H.ForSubscribers.degrades handler) domain (subscriber_config owner options.now) handler made.old home.old result
        made.new home.new }
    ensures messages { SameMessages made.old made.new }
{
    let config = naming::subscriber_config(owner, options);
    subscriber_reply(made.make_subscriber(alloc, home, domain, config, handler))
}

/// Whether a subscriber with what the options name isn't created however much memory there is: it is refused, or its domain isn't in the
/// home.
pub fn refuses_subscriber<T: Copy, U: Copy, H: Home<T, U>>(
    home: &H,
    domain: DomainId,
    owner: PortOwner,
    options: &SubscriberOptions,
) -> bool
    ensures { result ≡ no_subscriber_comes (subscriber_config owner options.now) (homes.ports_of H.domain_of domain home.now) }
{
    let config = naming::subscriber_config(owner, options);
    match calls::ports(home, domain) {
        Some(ports) => ports.refuses_subscriber(config.buffer_size),
        None => true,
    }
}

/// The reply for a subscriber that isn't created, also if memory runs out: it is refused as `Made::make_subscriber` refuses it, and skipped
/// if the domain isn't in the home. Nothing changes.
pub fn subscriber_refused<T: Copy, U: Copy, H: Home<T, U>>(
    home: &H,
    domain: DomainId,
    owner: PortOwner,
    options: &SubscriberOptions,
) -> Reply<T>
    ensures { (made : Made) (handler : H.ForSubscribers)
        → SubscriberStep (homes.ports_of H.domain_of) (homes.with_ports H.changed) (homes.with_subscriber H.changed)
        (λ handler. H.ForSubscribers.degrades handler) domain (subscriber_config owner options.now) handler made home.now result made
        home.now }
{
    let config = naming::subscriber_config(owner, options);
    subscriber_reply(why_no_subscriber(home, domain, &config))
}
