//! Services: how they are named and described, how nodes agree on one, where that is stored, and the domain that contains the ports of one.
pub mod port_factory;
pub mod static_config;

pub use iox_describe::pattern::{Event, PublishSubscribe, RequestResponse};
pub use iox_describe::{
    Attribute, AttributeError, AttributeKey, AttributeSpecifier, AttributeValue, AttributeVerifier,
    Description, DescriptionError, Header, LimitError, MessageTypeDetails, MessagingPattern,
    ServiceHash, ServiceName, TypeDetail, TypeVariant, ZeroCopySend, decode, encode, encode_v1,
    service_hash,
};
pub use iox_domain::{Domain, DomainId, DomainParts, Home};
pub use iox_hub_base::{HubBuilder, NotClosed, PortFactory};
pub use iox_negotiate::{Builder, Payload, ServiceBuilder, Slice};
pub use iox_negotiate_base::Storage;
pub use iox_negotiate_base::errors::{
    CloseError, EventCreateError, EventOpenError, EventOpenOrCreateError,
    PublishSubscribeCreateError, PublishSubscribeOpenError, PublishSubscribeOpenOrCreateError,
    RequestResponseCreateError, RequestResponseOpenError, RequestResponseOpenOrCreateError,
};
pub use iox_negotiate_table::{ForeignStep, StepList, Table};
pub use iox_queues_base::Words;
