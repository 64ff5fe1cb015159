//! Which sequence numbers are too large for lanes.
ghost use Rattle.std.specs.Prelude.{◌≡◌};
ghost use Rattle.iox_lanes_opening.specs.Sequences.{is_too_large, has_too_large};

use crate::refusals::each_asked::{Question, has_such};
use iox_domain::ports::ServicePorts;

/// Whether the last sequence number of some publisher is too large for lanes: 2^63 or more.
pub fn has_too_large<T: Copy, U: Copy>(ports: &ServicePorts<T, U>) -> bool
    ensures { result ≡ has_too_large ports.now }
{
    has_such(ports, Question::TooLarge)
}

/// Whether a publisher's last sequence number is too large: 2^63 or more.
pub(crate) fn is_too_large(last: Option<u64>) -> bool
    ensures { result ≡ is_too_large last }
{
    match last {
        Some(last) => last >= 1 << 63,
        None => false,
    }
}
