//! The sequence number before the first message of a publisher, if its service numbers messages.
ghost use Rattle.std.specs.Prelude.{◌≡◌};
ghost use Rattle.iox_domain_values.specs.Sequences.{before_first};

/// The sequence number before the first message of a publisher; None if messages aren't numbered. The first message gets the
/// number `first`, but 0 counts as 1.
pub fn before_first(numbered: bool, first: u64) -> Option<u64>
    ensures { result ≡ before_first numbered first }
{
    if numbered {
        Some(first.max(1) - 1)
    } else {
        None
    }
}
