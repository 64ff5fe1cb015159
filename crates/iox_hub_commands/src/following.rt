//! The commands by which ports update their connections, look for data, and are closed.
ghost use Rattle.iox_domain.specs.Homes as homes;
ghost use Rattle.iox_hub_commands.specs.Following.{UpdateStep, HasStep, LeaveStep};

use crate::ports::Made;
use crate::replies::{done_reply, has_reply, updated_reply};
use iox_command::{PortNumber, Reply};
use iox_domain::Home;
use std::alloc::Global;

/// Updates the connections of a port. Skipped if `Made::update_publisher` or `update_subscriber` answers None, and refused as they refuse
/// it.
/// Example: `let reply = update(alloc, &made, &mut home, PortNumber::Publisher(1));`
pub fn update<T: Copy, U: Copy, H: Home<T, U>>(
    alloc: Global,
    made: &Made,
    home: &mut H,
    port: PortNumber,
) -> Reply<T>
    ensures { UpdateStep (homes.ports_of H.domain_of) (homes.with_ports H.changed)
        (homes.publisher_degrades (λ kept. H.ForPublishers.degrades kept) H.domain_of)
        (homes.subscriber_degrades (λ kept. H.ForSubscribers.degrades kept) H.domain_of) port made.now home.old result home.new }
{
    match port {
        PortNumber::Publisher(number) => updated_reply(made.update_publisher(alloc, home, number)),
        PortNumber::Subscriber(number) => updated_reply(made.update_subscriber(
            alloc, home, number,
        )),
    }
}

/// Whether a message waits for a subscriber, after an update. Skipped if `Made::has_samples` answers None, and refused as it refuses it.
/// Example: `let reply = has(alloc, &made, &mut home, subscriber);`
pub fn has<T: Copy, U: Copy, H: Home<T, U>>(
    alloc: Global,
    made: &Made,
    home: &mut H,
    subscriber: u64,
) -> Reply<T>
    ensures { HasStep (homes.ports_of H.domain_of) (homes.with_ports H.changed)
        (homes.subscriber_degrades (λ kept. H.ForSubscribers.degrades kept) H.domain_of) subscriber made.now home.old result home.new }
{
    has_reply(made.has_samples(alloc, home, subscriber))
}

/// Closes a port. Skipped if `Made::leave_publisher` or `leave_subscriber` answers false.
/// Example: `let reply = leave(&mut made, &mut home, PortNumber::Publisher(1));`
pub fn leave<T: Copy, U: Copy, H: Home<T, U>>(
    made: &mut Made,
    home: &mut H,
    port: PortNumber,
) -> Reply<T>
    ensures { LeaveStep (homes.ports_of H.domain_of) (homes.with_ports H.changed) (homes.without_publisher H.changed)
        (homes.without_subscriber H.changed) port made.old home.old result made.new home.new }
{
    match port {
        PortNumber::Publisher(number) => done_reply(made.leave_publisher(home, number)),
        PortNumber::Subscriber(number) => done_reply(made.leave_subscriber(home, number)),
    }
}
