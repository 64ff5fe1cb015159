//! The connections from which a subscriber reads.

/// A connection from which a subscriber reads.
#[derive(Clone, Copy)]
pub struct Attached {
    /// The number of the connection's publisher.
    pub publisher: u64,
    /// The index of the connection at that publisher.
    pub index: usize,
}

/// A message that a subscriber took.
#[derive(Clone, Copy)]
pub struct Taken {
    /// The number of the subscriber.
    pub subscriber: u64,
    /// The number of the message's publisher.
    pub publisher: u64,
    /// The index of the connection through which the message came.
    pub index: usize,
    /// The slot of the message.
    pub slot: usize,
}

/// What is counted of a connection.
#[derive(Clone, Copy)]
pub(crate) struct Seen {
    /// How many messages wait in it.
    pub waiting: usize,
    /// How many messages of it are borrowed.
    pub borrowed: usize,
    /// The maximum number of messages borrowed from it.
    pub most: usize,
}

/// What a receive needs to know of a connection.
#[derive(Clone, Copy)]
pub(crate) struct Asked {
    /// Whether the connection is below the limit of borrowed messages, and has data.
    pub gives: bool,
    /// Whether the connection has data.
    pub data: bool,
    /// Whether nothing waits in the connection and nothing of it is borrowed.
    pub idle: bool,
}

/// The expired connections that a receive meets before one that gives.
#[derive(Clone, Copy)]
pub(crate) struct Met {
    /// The number of these connections.
    pub count: usize,
    /// The place of the first of them that is idle, or `count` if none is.
    pub idle: usize,
    /// The key of the first of them that has data.
    pub unread: Option<usize>,
}

/// What is found when all connections are searched.
#[derive(Clone, Copy)]
pub(crate) struct Found {
    /// The first key whose connection gives.
    pub giver: Option<usize>,
    /// A key whose connection has data, if none gives.
    pub unread: Option<usize>,
}
