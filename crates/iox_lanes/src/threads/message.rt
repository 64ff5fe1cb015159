//! A message as a subscriber in threads reads it.
ghost use Rattle.std.specs.Prelude.{◌≡◌, ◌+◌, ◌<◌, length, slice_index, IfSome, None};
ghost use Rattle.iox_lanes.specs.TypedReads.{IsMessage};

use iox_describe_base::Header;
use iox_lanes_parties::{FewWords, WithSequence, values_in};
use iox_queues_base::Words;

/// A message as a subscriber in threads reads it: its header, its user header and its value.
///
/// Not in `iceoryx2`.
#[derive(Clone, Copy)]
pub struct Message<T, U> {
    /// The node and the publisher that sent it, how many elements it has, and its sequence number if messages have one.
    pub header: Header,
    /// Its user header.
    pub user_header: U,
    /// Its value.
    pub value: T,
}

// The header that the first three of these words are, with this sequence number.
fn header_in(words: &[u64], sequence: Option<u64>) -> Option<Header>
    ensures some { IfSome result (λ header. (header.node_id ≡ slice_index words.now 0) × (header.publisher_id ≡ slice_index words.now 1)
        × (header.number_of_elements ≡ slice_index words.now 2) × (header.sequence ≡ sequence)) }
    ensures none { result ≡ None → length words.now < 3 }
{
    match words {
        [node_id, publisher_id, number_of_elements, ..] => Some(Header {
            node_id: *node_id,
            publisher_id: *publisher_id,
            number_of_elements: *number_of_elements,
            sequence,
        }),
        _ => None,
    }
}

/// The message that is made of these words: three of a header, one of a sequence number if messages have one, then those of a user header
/// and of a value. None if there are more or fewer words.
pub(crate) fn message_in<T: Words, U: FewWords>(words: &[u64]) -> Option<Message<T, U>>
    ensures some { IfSome result (IsMessage T.of_parts U.of_parts T.WORDS U.WORDS words.now) }
    ensures none { result ≡ None → (length words.now ≡ 3 + U.WORDS + T.WORDS → ⊥) × (length words.now ≡ 4 + U.WORDS + T.WORDS → ⊥) }
{
    if let Some((user_header, value)) = values_in::<T, U>(words) {
        let header = header_in(words, None)?;
        return Some(Message {
            header,
            user_header,
            value,
        });
    }
    let (numbered, value) = values_in::<T, WithSequence<U>>(words)?;
    let header = header_in(words, Some(numbered.sequence))?;
    Some(Message {
        header,
        user_header: numbered.user_header,
        value,
    })
}
