//! The description of a service as one line of JSON, in version 2 or 1, and all types that a description uses.
//!
//! | Module | What it has |
//! |---|---|
//! | `writer` | encodes a description as one line of a version |
//! | `reader` | decodes the description of a line, if `encode` or `encode_v1` could have written the line |
//! | `error` | why a line can't be read, or a description can't be written in version 1 |
//! | `json_values` | access to the members of a JSON value by key |
//!
//! Names, types and attributes are in `iox_describe_base`, settings and the description in `iox_describe_settings`, and what an opener
//! requires in `iox_describe_verdict`. Their items are re-exported here.
//!
//! A first call:
//!
//! ```
//! /// `iox_describe`: writes a description as one line, and reads it back; None if an allocation fails.
//! fn read_back(alloc: Global, description: &Description) -> Option<Description>
//!     requires { IsWithinLimits description.now }
//!     ensures { IfSome result (λ back. back ≡ description.now) }
//! {
//!     let line = encode(alloc, description).ok()?;
//!     decode(alloc, line.as_slice()).ok()
//! }
//! ```
#![tactic(auto)]

pub mod error;
mod json_values;
pub mod reader;
pub mod writer;

pub use error::DescriptionError;
pub use iox_describe_base::{
    Attribute, AttributeError, AttributeKey, AttributeSpecifier, AttributeValue, AttributeVerifier,
    Header, LimitError, MessageTypeDetails, MessagingPattern, ServiceHash, ServiceName, TypeDetail,
    TypeVariant, ZeroCopySend, service_hash,
};
pub use iox_describe_settings::{
    Description, NumberRule, PatternSetting, Rule, SettingValue, Settings, Version, event,
    publish_subscribe, request_response,
};
pub use iox_describe_verdict::{pattern, requirement};
pub use reader::{decode, has_form, is_within_limits};
pub use writer::{encode, encode_as, encode_v1, has_all};
