//! The header that a service writes in front of each message.
ghost use Rattle.std.specs.Prelude.{◌≡◌};

/// The sender of a message, the number of its elements, and its sequence number.
///
/// Ported from `iceoryx2::service::header::publish_subscribe::Header`; the ids are plain numbers here.
#[derive(Clone, Copy, Debug, PartialEq, Eq)]
pub struct Header {
    /// The id of the publisher's node.
    pub node_id: u64,
    /// The id of the publisher.
    pub publisher_id: u64,
    /// How many elements the payload has; 1 for a single value.
    pub number_of_elements: u64,
    /// The sequence number that its send gave the message; `None` for a loan, and if the service doesn't number its messages.
    pub sequence: Option<u64>,
}

impl Header {
    /// The id of the publisher's node.
    pub fn node_id(&self) -> u64
        ensures { result ≡ self.now.node_id }
    {
        self.node_id
    }

    /// The id of the publisher.
    pub fn publisher_id(&self) -> u64
        ensures { result ≡ self.now.publisher_id }
    {
        self.publisher_id
    }

    /// How many elements the payload has; 1 for a single value.
    pub fn number_of_elements(&self) -> u64
        ensures { result ≡ self.now.number_of_elements }
    {
        self.number_of_elements
    }

    /// The sequence number that its send gave the message; `None` for a loan, and if the service doesn't number its messages.
    ///
    /// Not in `iceoryx2`: an iceoryx2 message has no number.
    pub fn sequence(&self) -> Option<u64>
        ensures { result ≡ self.now.sequence }
    {
        self.sequence
    }
}
