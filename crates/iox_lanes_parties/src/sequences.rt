//! The sequence numbers that a publisher's sends give its messages, if messages have them.
ghost use Rattle.std.specs.Prelude.{◌≡◌};
ghost use Rattle.iox_lanes_parties.specs.Sequences.{number_after, with_number};

/// The sequence number after the last one, at most 2^64 - 1. None where messages have none.
pub(crate) fn number_after(last: Option<u64>) -> Option<u64>
    ensures { result ≡ number_after last }
{
    match last {
        Some(last) => Some(last.saturating_add(1)),
        None => None,
    }
}

/// Stores the sequence number, if there is one, as the fourth word of these words of header and user header.
pub(crate) fn put_number(head: &mut [u64], number: Option<u64>)
    ensures { head.new ≡ with_number number head.old }
{
    if let Some(number) = number {
        if head.len() > 3 {
            head[3] = number;
        }
    }
}
