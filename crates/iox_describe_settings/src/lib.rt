//! What the nodes of a service agree on: the settings of each pattern, and the description that states all of it.
//!
//! | Module | What it has |
//! |---|---|
//! | `setting` | the interface of a pattern's settings: each has a key, and a value that can be read and written |
//! | `static_config` | the settings of each pattern: their defaults, adjustments and limits, and the list of all settings |
//! | `description` | the description of a service |
//!
//! A first call:
//!
//! ```
//! /// `iox_describe_settings`: the description of an event service with this name and default settings.
//! fn described(name: ServiceName) -> Description
//!     ensures named { result.name ≡ name }
//!     ensures found { result.service_hash ≡ service_hash_of Event name }
//!     ensures bare { result.attributes ≡ [] }
//! {
//!     let settings = Settings::Event(event::StaticConfig::new());
//!     Description::new(name, settings, AttributeSpecifier::new())
//! }
//! ```
#![tactic(auto)]

pub mod description;
pub mod setting;
pub mod static_config;

pub use description::{Description, Version};
pub use setting::{NumberRule, PatternSetting, Rule, SettingValue};
pub use static_config::{Settings, event, publish_subscribe, request_response};
