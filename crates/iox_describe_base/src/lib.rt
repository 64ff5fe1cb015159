//! The parts of a service's description below its settings: names, types and attributes.
//!
//! | Module | What it has |
//! |---|---|
//! | `limits` | the limits of texts and numbers, and the error of what exceeds them |
//! | `name`, `pattern` | the name of a service, and its messaging pattern |
//! | `hash` | the hash that identifies a service |
//! | `type_detail`, `message_type`, `zero_copy_send` | the memory layout of a type, the types of a message, and the types that know their
//! layout |
//! | `header` | the header that a service writes in front of each message |
//! | `few` | a list that doesn't allocate while it is empty |
//! | `attribute`, `verifier` | attributes, and what an opener requires of them |
//! | `laws` | theorems about compatibility |
//!
//! A first call:
//!
//! ```
//! /// `iox_describe_base`: the hash under which an event service with this name is found; None if no service may have the name.
//! fn hash_of(name: &[u8]) -> Option<ServiceHash>
//!     ensures { IfSome result (λ hash. hash ≡ service_hash_of Event name.now) }
//! {
//!     let name = ServiceName::new(name).ok()?;
//!     Some(service_hash(MessagingPattern::Event, &name))
//! }
//! ```
#![tactic(auto)]

pub mod attribute;
mod few;
pub mod hash;
pub mod header;
pub mod laws;
pub mod limits;
pub mod message_type;
pub mod name;
pub mod pattern;
pub mod type_detail;
pub mod verifier;
pub mod zero_copy_send;

pub use attribute::{Attribute, AttributeError, AttributeKey, AttributeSpecifier, AttributeValue};
pub use hash::{ServiceHash, service_hash};
pub use header::Header;
pub use limits::LimitError;
pub use message_type::MessageTypeDetails;
pub use name::ServiceName;
pub use pattern::MessagingPattern;
pub use type_detail::{TypeDetail, TypeVariant};
pub use verifier::AttributeVerifier;
pub use zero_copy_send::ZeroCopySend;
