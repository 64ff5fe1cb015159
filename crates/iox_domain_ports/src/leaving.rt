//! A publisher is created and closed.
ghost use Rattle.std.specs.Prelude.{◌≡◌, ◌<◌, ◌^◌, IfOk, true, [], length};
ghost use Rattle.iox_domain_ports.specs.Leaving.{new_port, parted_at, departed};

use crate::messages::{Sender, SenderConfig};
use crate::progress::Progress;
use crate::publisher_port::PublisherPort;
use crate::readers::Readers;
use crate::ties::Ties;
use iox_domain_values::{AllocationStrategy, PortIdentity};
use std::alloc::{AllocError, Global};

impl<T: Copy, U: Copy> PublisherPort<T, U> {
    /// A publisher that isn't connected to any subscriber yet, and is to be listed at its place. It has capacity for
    /// `most_subscribers` places of the list of subscribers, and its elements have `unit` values each. Its first message gets the
    /// sequence number after `last_sequence`; messages aren't numbered if that is None. The call fails only if an allocation fails.
    pub fn new(
        alloc: Global,
        identity: PortIdentity,
        most_subscribers: usize,
        allocation: AllocationStrategy,
        unit: usize,
        last_sequence: Option<u64>,
        config: SenderConfig,
        blank: T,
        user_header: U,
    ) -> Result<PublisherPort<T, U>, AllocError>
        requires loans { config.most_loans < 2 ^ 32 }
        requires history { config.history < 2 ^ 32 }
        requires waiting { config.most_waiting < 2 ^ 32 }
        requires borrowed { config.most_borrowed < 2 ^ 32 }
        requires segments { 0 < config.most_segments }
        ensures { IfOk result (λ port. port ≡ new_port identity most_subscribers allocation unit last_sequence config user_header) }
    {
        Ok(PublisherPort {
            service: identity.service,
            number: identity.number,
            owner: identity.owner,
            place: identity.place,
            allocation,
            unit,
            stands: true,
            seen: 0,
            last_sequence,
            ties: Ties::new(alloc, most_subscribers)?,
            readers: Readers::new(alloc),
            progress: Progress::start(),
            sender: Sender::new(alloc, config, blank, user_header)?,
        })
    }

    // Ends the connection at this index, if it is live and no subscriber reads from it.
    fn part(&mut self, index: usize)
        ensures { self.new ≡ parted_at index self.old }
    {
        if !self.readers.is_attached(index) {
            self.end(index);
        }
    }

    /// Closes the publisher, which then sends no more. Connections from which no subscriber reads end; the others stay until
    /// their subscribers notice.
    ///
    /// Ported from dropping an `iceoryx2::port::publisher::Publisher`.
    pub fn leave(&mut self)
        ensures { self.new ≡ departed self.old }
    {
        self.stands = false;
        let end = self.sender.top();
        for index in 0..end {
            self.part(index);
        }
    }
}
