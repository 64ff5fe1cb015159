//! The stage of a connection.

/// Whether a connection exists, and whether its subscriber is still open.
#[derive(Clone, Copy)]
pub enum Stage {
    /// There is no connection at this index.
    Vacant,

    /// The connection is open: messages are delivered to it.
    Live,

    /// The connection ended, since its subscriber was closed; samples of it are still held.
    Ended,
}
