//! The shared words of one service.
use iox_queues_steps::Word;

/// One of the two rings of a connection.
#[derive(Clone, Copy)]
pub enum ConnectionRing {
    /// The submission ring: the slots of the messages that the publisher sent.
    Submission,
    /// The completion ring: the slots of the samples that the subscriber released.
    Completion,
}

/// A word of a slot.
#[derive(Clone, Copy)]
pub enum SlotWord {
    /// A word of the header: 0, 1 or 2.
    Header(u64),
    /// A word of the user header. If the service has sequence numbers, the first of these words is that of the message, and those of the
    /// user header follow it.
    UserHeader(u64),
    /// A word of the payload.
    Payload(u64),
}

/// A shared word of a service. Connections are numbered from 0 on, and so are the slots of all publishers together.
#[derive(Clone, Copy)]
pub enum SharedWord {
    /// A word of a ring. The number of a cell is less than the number of the ring's cells.
    Ring {
        connection: u64,
        ring: ConnectionRing,
        word: Word,
    },
    /// A word of a slot.
    Slot {
        slot: u64,
        word: SlotWord,
    },
}
