//! Which service is asked for.
use iox_command::ServiceOptions;
use iox_describe_base::ServiceName;

/// The service that a node asks for, and what it names of it.
///
/// Not in `iceoryx2`.
#[derive(Clone, Copy)]
pub struct ServiceAsked {
    /// The number of the node, counted from 1.
    pub node: u64,
    /// The name of the service.
    pub name: ServiceName,
    /// The service's pattern, and the settings that are named.
    pub options: ServiceOptions,
}
