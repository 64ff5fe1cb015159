//! What a command names for a port.
ghost use Rattle.std.specs.Prelude.{◌≡◌};
ghost use Rattle.std.specs.Option.{unwrap_or};
ghost use Rattle.iox_hub_commands.specs.Naming.{most_loans, publisher_config, publisher_handlers, named_slots, subscriber_config};
ghost use Rattle.iox_hub_commands.specs.Naming.{subscriber_handler};
ghost use Rattle.iox_hub_commands.specs.Services.{domain_of_factory, owner_of_factory};
ghost use Rattle.iox_domain.specs.PortSettings.{publisher_defaults};

use crate::handlers::{NamedSlots, PublisherHandlers, SubscriberHandler};
use iox_command::{PublisherOptions, SubscriberOptions};
use iox_describe::pattern::PublishSubscribe;
use iox_domain::DomainId;
use iox_domain::ports::{PublisherConfig, SubscriberConfig};
use iox_domain::settings::PublisherSettings;
use iox_domain_values::{DegradationAction, PortOwner};
use iox_hub_base::PortFactory;

/// The domain of a factory's ports.
/// Example: `let domain = domain_of(&factory);`
pub fn domain_of(factory: &PortFactory<PublishSubscribe>) -> DomainId
    ensures { result ≡ domain_of_factory (factory.now.service.membership, factory.now.owner) }
{
    DomainId {
        hub: factory.hub(),
        service: factory.number(),
    }
}

/// The owner of a factory's ports.
/// Example: `let owner = owner_of(&factory);`
pub fn owner_of(factory: &PortFactory<PublishSubscribe>) -> PortOwner
    ensures { result ≡ owner_of_factory (factory.now.service.membership, factory.now.owner) }
{
    PortOwner {
        number: factory.owner(),
        node_id: factory.node(),
    }
}

/// The loan limit of a publisher with these options.
pub fn most_loans(options: &PublisherOptions) -> usize
    ensures { result ≡ most_loans options.now }
{
    let defaults = PublisherSettings::default();
    length(options.max_loaned_samples, defaults.max_loaned_samples)
}

/// The maximum number of values of a loan of a publisher with these options, before its memory grows.
/// Example: `let length = first_length(&options);`
pub fn first_length(options: &PublisherOptions) -> usize
    ensures { result ≡ unwrap_or options.now.initial_max_slice_len publisher_defaults.initial_max_slice_len }
{
    let defaults = PublisherSettings::default();
    length(
        options.initial_max_slice_len,
        defaults.initial_max_slice_len,
    )
}

/// The configuration of a publisher of slices with these options.
/// Example: `let config = publisher_config(owner, &options);`
pub fn publisher_config(owner: PortOwner, options: &PublisherOptions) -> PublisherConfig
    ensures { result ≡ publisher_config owner options.now }
{
    let defaults = PublisherSettings::default();
    PublisherConfig {
        owner,
        max_loaned_samples: most_loans(options),
        values: first_length(options),
        unit: 1,
        allocation: options.allocation_strategy.unwrap_or(defaults.allocation),
        first_sequence: defaults.first_sequence,
    }
}

/// The handlers of a publisher with these options: those that its type makes of the strategy and the actions that are named, or of the
/// defaults.
pub fn publisher_handlers<B: PublisherHandlers>(options: &PublisherOptions) -> B
    ensures { result ≡ publisher_handlers B.fixed options.now }
{
    let defaults = PublisherSettings::default();
    B::with_actions(
        options.backpressure_strategy.unwrap_or(defaults.strategy),
        options.backpressure_handler,
        options
            .degradation_handler
            .unwrap_or(DegradationAction::Warn),
    )
}

// The number of slots that a publisher gets.
pub(crate) fn named_slots(options: &PublisherOptions) -> NamedSlots
    ensures { result ≡ named_slots options.now }
{
    NamedSlots {
        slots: options.preallocated_samples,
    }
}

/// The configuration of a subscriber with these options.
/// Example: `let config = subscriber_config(owner, &options);`
pub fn subscriber_config(owner: PortOwner, options: &SubscriberOptions) -> SubscriberConfig
    ensures { result ≡ subscriber_config owner options.now }
{
    SubscriberConfig {
        owner,
        buffer_size: match options.buffer_size {
            Some(size) => Some(size as usize),
            None => None,
        },
    }
}

/// The handler of a subscriber with these options: the one that its type makes of the action that is named, or of the default.
pub fn subscriber_handler<D: SubscriberHandler>(options: &SubscriberOptions) -> D
    ensures { result ≡ subscriber_handler D.fixed options.now }
{
    D::with_action(
        options
            .degradation_handler
            .unwrap_or(DegradationAction::Warn),
    )
}

// A length that is named, or its default.
fn length(named: Option<u64>, default: usize) -> usize
    ensures { result ≡ unwrap_or named default }
{
    match named {
        Some(length) => length as usize,
        None => default,
    }
}
