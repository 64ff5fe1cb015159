//! Own and foreign nodes.

/// A node. A foreign node is never the same as an own node, even if they have the same id.
#[derive(Clone, Copy)]
pub enum Node {
    /// An own node, which calls the table.
    Own(u64),
    /// A foreign node, which belongs to another process; it acts between these calls.
    Foreign(u64),
}
