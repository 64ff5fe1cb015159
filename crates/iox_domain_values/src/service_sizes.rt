//! The limits that a service sets for its ports.
ghost use Rattle.std.specs.Prelude.{◌≡◌, ◌<◌, ◌^◌, IfSome};
ghost use Rattle.iox_domain_values.specs.Sizes.{worst_case, within, buffer_of};

use crate::create_error::SubscriberCreateError;

/// The limits that a service sets for its ports. They are the same for all ports of the service.
#[derive(Clone, Copy)]
pub struct ServiceSizes {
    /// The maximum number of publishers at once.
    pub max_publishers: u32,
    /// The maximum number of subscribers at once.
    pub max_subscribers: u32,
    /// The maximum number of messages of one publisher that wait for a subscriber.
    pub subscriber_max_buffer_size: u32,
    /// The maximum number of samples of one connection that a subscriber holds.
    pub subscriber_max_borrowed_samples: u32,
    /// How many of its last messages a publisher keeps for later subscribers.
    pub history_size: u32,
    /// Whether a full mailbox drops its oldest message instead of blocking the publisher.
    pub enable_safe_overflow: bool,
    /// Whether messages have sequence numbers.
    pub sequence_numbers: bool,
    /// How many connections of closed publishers a subscriber keeps.
    pub expired_connections: u32,
}

impl ServiceSizes {
    /// How many slots a publisher with at most `max_loaned_samples` loans needs so that a loan always finds one; None if that
    /// is above 2^32 - 1.
    pub fn worst_case(&self, max_loaned_samples: usize) -> Option<usize>
        ensures slots { result ≡ within (worst_case self.now max_loaned_samples) }
        ensures few { IfSome result (λ slots. slots < 2 ^ 32) }
    {
        let of_one = self.subscriber_max_buffer_size as u128
            + self.subscriber_max_borrowed_samples as u128;
        let slots = self.max_subscribers as u128 * of_one
            + self.history_size as u128
            + max_loaned_samples as u128;
        if slots < 0x1_0000_0000 {
            Some(slots as usize)
        } else {
            None
        }
    }

    /// How many messages of one publisher may wait for a subscriber: as many as it asks for, at least 1, or the service's limit
    /// if it doesn't ask.
    ///
    /// The call fails with `BufferSizeExceedsMaxSupportedBufferSizeOfService` if the subscriber asks for more than that limit.
    pub fn buffer_size(&self, named: Option<usize>) -> Result<usize, SubscriberCreateError>
        ensures { result ≡ buffer_of named self.now }
    {
        let most = self.subscriber_max_buffer_size as usize;
        let Some(named) = named else {
            return Ok(most);
        };
        let asked = named.max(1);
        if asked > most {
            return Err(SubscriberCreateError::BufferSizeExceedsMaxSupportedBufferSizeOfService);
        }
        Ok(asked)
    }
}
