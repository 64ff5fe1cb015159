//! A node of a hub.
ghost use Rattle.std.specs.Prelude.{◌≡◌};

/// A node of a hub, which opens services. It lasts as long as its hub.
///
/// Corresponds to `iceoryx2::node::Node`; the hub corresponds to the machine of an `iceoryx2` node.
#[derive(Clone, Copy, Debug, PartialEq, Eq)]
pub struct NodeHandle {
    pub(crate) hub: u64,
    pub(crate) number: u64,
}

impl NodeHandle {
    /// The number of the node, counted from 1 in each hub.
    /// Example: `let number = node.number();`
    pub fn number(&self) -> u64
        ensures { result ≡ self.now.number }
    {
        self.number
    }
}
