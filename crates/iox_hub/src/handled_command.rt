//! Commands for a hub with handed-in handlers.
use iox_command::{Command, PublisherOptions, SubscriberOptions};

/// One command. Places of handlers are counted from 1.
///
/// Not in `iceoryx2`.
#[derive(Drop)]
pub enum HandledCommand<'a, T> {
    /// A command that names no handler: its ports get fixed actions.
    Plain(Command<'a, T>),
    /// Creates a publisher for the factory's service.
    Publisher {
        factory: u64,
        options: PublisherOptions,
        /// The place of the handler for full mailboxes. Without one, the action that the options name applies.
        at_full: Option<u64>,
        /// The place of the handler for failed connections. Without one, the action that the options name applies.
        at_failure: Option<u64>,
    },
    /// Creates a subscriber for the factory's service.
    Subscriber {
        factory: u64,
        options: SubscriberOptions,
        /// The place of the handler for failed connections.
        at_failure: u64,
    },
}
