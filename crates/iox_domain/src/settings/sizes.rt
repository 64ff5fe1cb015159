//! The limits that a description sets for ports.
ghost use Rattle.std.specs.Prelude.{◌≡◌};
ghost use Rattle.iox_domain.specs.Sizes.{sizes, SizesOf};
ghost use Rattle.iox_describe_settings.specs.PublishSubscribeSettings.{IsWithinLimits};

use iox_describe_settings::publish_subscribe::StaticConfig;
use iox_describe_settings::{Description, Settings};
use iox_domain_values::ServiceSizes;

/// The limits that a description sets for ports. A subscriber keeps as many connections of closed publishers as
/// `expired_connection_buffer` says, and at least as many as samples of one connection may be held. None if the description
/// isn't that of a publish-subscribe service, or has numbers past the limits of a description.
///
/// Ported from what `iceoryx2::port::publisher::Publisher::new` and `iceoryx2::port::subscriber::Subscriber::new` read of a
/// `StaticConfig`.
pub fn sizes_of(description: &Description, expired_connection_buffer: u32) -> Option<ServiceSizes>
    ensures { SizesOf expired_connection_buffer description.now.settings result }
{
    if !description.is_within_limits() {
        return None;
    }
    match description.settings() {
        Settings::PublishSubscribe(config) => Some(sizes(config, expired_connection_buffer)),
        _ => None,
    }
}

// The limits of a publish-subscribe service.
fn sizes(config: &StaticConfig, expired_connection_buffer: u32) -> ServiceSizes
    requires { IsWithinLimits config.now }
    ensures { result ≡ sizes expired_connection_buffer config.now }
{
    let borrowed = config.subscriber_max_borrowed_samples as u32;
    ServiceSizes {
        max_publishers: config.max_publishers as u32,
        max_subscribers: config.max_subscribers as u32,
        subscriber_max_buffer_size: config.subscriber_max_buffer_size as u32,
        subscriber_max_borrowed_samples: borrowed,
        history_size: config.history_size as u32,
        enable_safe_overflow: config.enable_safe_overflow,
        sequence_numbers: config.sequence_numbers,
        expired_connections: expired_connection_buffer.max(borrowed),
    }
}
