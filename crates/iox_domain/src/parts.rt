//! The parts of a domain.
ghost use Rattle.std.specs.Prelude.{◌≡◌, true};
ghost use Rattle.iox_domain.specs.Parts.{parts_of, domain_of, agrees};

use crate::domain::Domain;
use crate::domain_id::DomainId;
use crate::kept::Kept;
use crate::ports::{Roll, ServicePorts, Subscribers};
use crate::state::DomainState;
use iox_describe_settings::publish_subscribe::StaticConfig;
use iox_domain_ports::{PublisherEntry, Publishers, SubscriberEntry};
use iox_domain_values::{DegradationHandler, Handlers, ServiceSizes};

/// The parts of a domain: its configuration, the places of its ports, the publishers with their slots, connections and
/// histories, the subscribers, and the handlers. The parts are the domain's own fields, so neither conversion allocates.
///
/// Not in `iceoryx2`.
#[derive(Drop)]
pub struct DomainParts<T, U, B = Handlers, D = DegradationHandler> {
    /// The id of the domain.
    pub id: DomainId,
    /// The service configuration on which its nodes agreed.
    pub agreed: StaticConfig,
    /// The number of its service.
    pub service: u64,
    /// The limits of the service.
    pub sizes: ServiceSizes,
    /// The number that the next port gets.
    pub next_port: u64,
    /// The list of publishers, each at its place.
    pub publisher_places: Roll<PublisherEntry>,
    /// The list of subscribers, each at its place.
    pub subscriber_places: Roll<SubscriberEntry>,
    /// The publishers, with their slots, connections and histories.
    pub publishers: Publishers<T, U>,
    /// The subscribers.
    pub subscribers: Subscribers,
    /// The handlers of each publisher.
    pub publisher_handlers: Kept<B>,
    /// The handler of each subscriber.
    pub subscriber_handlers: Kept<D>,
    /// The value that fills a slot that was never written.
    pub blank: T,
}

impl<T, U, B, D> DomainParts<T, U, B, D> {
    /// Whether these are parts of one domain: they belong to its service, and their sizes are those on which its nodes agreed.
    pub fn agrees(&self) -> bool
        ensures { result ≡ agrees self.now }
    {
        let sizes = self.sizes;
        let agreed = self.agreed;
        self.service == self.id.service
            && sizes.max_publishers as u64 == agreed.max_publishers
            && sizes.max_subscribers as u64 == agreed.max_subscribers
            && sizes.subscriber_max_buffer_size as u64 == agreed.subscriber_max_buffer_size
            && sizes.subscriber_max_borrowed_samples as u64
                == agreed.subscriber_max_borrowed_samples
            && sizes.history_size as u64 == agreed.history_size
            && sizes.enable_safe_overflow == agreed.enable_safe_overflow
            && sizes.sequence_numbers == agreed.sequence_numbers
            && agreed.subscriber_max_borrowed_samples <= sizes.expired_connections as u64
    }
}

impl<T, U, B, D> Domain<T, U, B, D> {
    /// The parts of the domain.
    pub fn into_parts(self) -> DomainParts<T, U, B, D>
        ensures { result ≡ parts_of self }
    {
        let (id, agreed, state) = self.into_fields();
        let DomainState {
            ports,
            publisher_handlers,
            subscriber_handlers,
            blank,
        } = state;
        let ServicePorts {
            service,
            sizes,
            next_port,
            publisher_list,
            subscriber_list,
            publishers,
            subscribers,
        } = ports;
        DomainParts {
            id,
            agreed,
            service,
            sizes,
            next_port,
            publisher_places: publisher_list,
            subscriber_places: subscriber_list,
            publishers,
            subscribers,
            publisher_handlers,
            subscriber_handlers,
            blank,
        }
    }

    /// The domain of these parts, which must agree. Of the parts of a domain it is that domain.
    pub fn of_parts(parts: DomainParts<T, U, B, D>) -> Self
        requires { agrees parts ≡ true }
        ensures domain { result ≡ domain_of parts }
        ensures parts { parts_of result ≡ parts }
    {
        let DomainParts {
            id,
            agreed,
            service,
            sizes,
            next_port,
            publisher_places,
            subscriber_places,
            publishers,
            subscribers,
            publisher_handlers,
            subscriber_handlers,
            blank,
        } = parts;
        Domain {
            id,
            agreed,
            state: DomainState {
                ports: ServicePorts {
                    service,
                    sizes,
                    next_port,
                    publisher_list: publisher_places,
                    subscriber_list: subscriber_places,
                    publishers,
                    subscribers,
                },
                publisher_handlers,
                subscriber_handlers,
                blank,
            },
        }
    }
}
