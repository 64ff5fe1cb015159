//! The settings with which a publisher is created.
ghost use Rattle.std.specs.Prelude.{◌≡◌};
ghost use Rattle.iox_domain.specs.PortSettings.{publisher_defaults};

use iox_domain_values::{AllocationStrategy, BackpressureStrategy};

/// The settings with which a publisher is created, except its handlers.
///
/// Ported from `iceoryx2::service::port_factory::publisher::LocalPublisherConfig`.
#[derive(Clone, Copy, Debug)]
pub struct PublisherSettings {
    /// The maximum number of loans at once.
    pub max_loaned_samples: usize,
    /// What a send does at a full mailbox if the service doesn't overflow and no handler decides.
    pub strategy: BackpressureStrategy,
    /// The maximum number of elements of a loan in the first segment.
    pub initial_max_slice_len: usize,
    /// What a loan of a longer slice does.
    pub allocation: AllocationStrategy,
    /// The sequence number of its first message, if the service numbers messages; 0 counts as 1.
    pub first_sequence: u64,
}

/// Two loans, sends that block at a full mailbox, slices of one value, slots that don't grow, and sequence numbers from 1 on.
impl Default for PublisherSettings {
    ghost is_default = { λ made. made ≡ publisher_defaults };

    fn default() -> Self {
        PublisherSettings {
            max_loaned_samples: 2,
            strategy: BackpressureStrategy::default(),
            initial_max_slice_len: 1,
            allocation: AllocationStrategy::default(),
            first_sequence: 1,
        }
    }
}
