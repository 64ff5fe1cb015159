//! What the ports of a service take from its description and from their users, before any port is created.
//!
//! | Module | What it has |
//! |---|---|
//! | `sizes` | the limits that a description sets for ports |
//! | `fitting` | whether the messages that a description defines can hold values of given types |
//! | `custom` | the types that match any payload and any user header |
//! | `laws` | theorems about which types fit |
//! | `publisher_settings`, `subscriber_settings` | the settings with which a publisher and a subscriber are created |
//!
//! The module re-exports the header of a message and the trait of types that can be sent (`ZeroCopySend`).
//!
//! First calls. `Domain::new` makes the first, the builders of `iox_delivery_factories` the second.
//!
//! ```
//! let sizes = sizes_of(&description, 128)?;
//! let settings = PublisherSettings {
//!     max_loaned_samples: 6,
//!     ..PublisherSettings::default()
//! };
//! ```

pub mod custom;
pub mod fitting;
pub mod laws;
pub mod publisher_settings;
pub mod sizes;
pub mod subscriber_settings;

pub use custom::{CustomHeaderMarker, CustomPayloadMarker};
pub use fitting::fits;
pub use iox_describe_base::{Header, ZeroCopySend};
pub use publisher_settings::PublisherSettings;
pub use sizes::sizes_of;
pub use subscriber_settings::SubscriberSettings;
