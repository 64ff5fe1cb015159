//! A subscriber.
ghost use Rattle.std.specs.Prelude.{◌≡◌, IfOk};
ghost use Rattle.iox_domain_ports.specs.Arriving.{new_subscriber};

use crate::Ties;
use crate::attached::Attached;
use crate::keys::Keys;
use iox_container::SlotMap;
use iox_domain_values::{PortIdentity, PortOwner};
use std::alloc::{AllocError, Global};

/// A subscriber with its connections.
///
/// Ported from `iceoryx2::port::subscriber::Subscriber`.
#[derive(Drop)]
pub struct SubscriberPort {
    /// The number of its service.
    pub service: u64,
    /// Its own number.
    pub number: u64,
    /// Its owner, and the node in which it was created.
    pub owner: PortOwner,
    /// Its place in the list of subscribers.
    pub place: usize,
    /// Whether it is open. An open subscriber is on the list of subscribers.
    pub stands: bool,
    /// The maximum number of messages that wait for it in a connection.
    pub buffer_size: usize,
    /// How many of the samples that it received aren't released yet.
    pub held: usize,
    /// The number of changes of the list of publishers when it was last followed.
    pub seen: u64,
    /// Whether the list must be followed again, because a publisher was refused: the former connection at its place could neither end
    /// nor expire.
    pub again: bool,
    /// For each place of the list of publishers the key of its connection.
    pub places: Ties,
    /// Its connections, including the expired ones.
    pub connections: SlotMap<Attached>,
    /// The keys of the connections whose publishers were closed, in the order in which they expired.
    pub expired: Keys,
}

impl SubscriberPort {
    /// A subscriber that is to be listed at its place, without connections and samples. It has capacity for `most_connections`
    /// connections of open publishers and `most_expired` expired ones. It follows the list of publishers at its first update.
    /// The call fails only if an allocation fails.
    pub fn new(
        alloc: Global,
        identity: PortIdentity,
        buffer_size: usize,
        most_connections: usize,
        most_expired: usize,
    ) -> Result<SubscriberPort, AllocError>
        ensures { IfOk result (λ port. port ≡ new_subscriber identity buffer_size most_connections most_expired) }
    {
        let Some(most) = most_connections.checked_add(most_expired) else {
            return Err(AllocError);
        };
        Ok(SubscriberPort {
            service: identity.service,
            number: identity.number,
            owner: identity.owner,
            place: identity.place,
            stands: true,
            buffer_size,
            held: 0,
            seen: 0,
            again: true,
            places: Ties::new(alloc, most_connections)?,
            connections: SlotMap::new(alloc, most)?,
            expired: Keys::new(alloc, most_expired, most)?,
        })
    }
}
