//! The settings with which a subscriber is created.
ghost use Rattle.std.specs.Prelude.{◌≡◌};
ghost use Rattle.iox_domain_values.specs.Sizes.{buffer_of};
ghost use Rattle.iox_domain.specs.PortSettings.{subscriber_defaults};

use iox_domain_values::{ServiceSizes, SubscriberCreateError};

/// The settings with which a subscriber is created, except its handler.
///
/// Ported from `iceoryx2::service::port_factory::subscriber::SubscriberConfig`.
#[derive(Clone, Copy, Debug)]
pub struct SubscriberSettings {
    /// The maximum number of messages of one publisher that wait for the subscriber; None is the service's limit.
    pub buffer_size: Option<usize>,
}

/// The subscriber asks for no buffer size.
impl Default for SubscriberSettings {
    ghost is_default = { λ made. made ≡ subscriber_defaults };

    fn default() -> Self {
        SubscriberSettings { buffer_size: None }
    }
}

impl SubscriberSettings {
    /// How many messages of one publisher may wait for a subscriber of this service: as many as it asks for, at least 1, or the
    /// service's limit if it doesn't ask.
    ///
    /// The call fails with `BufferSizeExceedsMaxSupportedBufferSizeOfService` if the subscriber asks for more than that limit.
    pub fn buffer_size_within(&self, sizes: &ServiceSizes) -> Result<usize, SubscriberCreateError>
        ensures { result ≡ buffer_of self.now.buffer_size sizes.now }
    {
        sizes.buffer_size(self.buffer_size)
    }
}
