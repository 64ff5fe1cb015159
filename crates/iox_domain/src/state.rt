//! The state of a domain that the calls of its ports change.

use crate::kept::Kept;
use crate::ports::ServicePorts;
use iox_domain_values::{DegradationHandler, Handlers};

/// All of a domain that the calls of its ports change: the ports, and their handlers. A home gives access to it by the domain's id.
///
/// Not in `iceoryx2`.
#[derive(Drop)]
pub struct DomainState<T, U, B = Handlers, D = DegradationHandler> {
    /// The ports.
    pub ports: ServicePorts<T, U>,
    /// The handlers of each open publisher.
    pub publisher_handlers: Kept<B>,
    /// The handler of each open subscriber.
    pub subscriber_handlers: Kept<D>,
    /// The value that fills a slot that was never written. It is never read.
    pub blank: T,
}
