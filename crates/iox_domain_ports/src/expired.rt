//! How a subscriber searches its expired connections.
ghost use Rattle.std.specs.Prelude.{◌≡◌};
ghost use Rattle.iox_domain_ports.specs.Receiving.{IsMet};
ghost use Rattle.iox_domain_ports.specs.Expired.{is_sought};

use crate::publishers::Publishers;
use crate::subscriber_port::SubscriberPort;

/// Which expired connection is sought.
#[derive(Clone, Copy)]
pub(crate) enum Sought {
    /// One in which nothing waits, and of which nothing is borrowed.
    Idle,
    /// One of which nothing is borrowed.
    Unborrowed,
}

impl SubscriberPort {
    // Whether the connection with this key is of the sought kind.
    fn is_sought<T: Copy, U: Copy>(
        &self,
        sought: Sought,
        key: usize,
        publishers: &Publishers<T, U>,
    ) -> bool
        ensures { result ≡ is_sought sought self.now publishers.now key }
    {
        match sought {
            Sought::Idle => self.is_idle(key, publishers),
            Sought::Unborrowed => self.is_unborrowed(key, publishers),
        }
    }

    // How many of the expired connections come before the first sought one; all of them if there is none.
    pub(crate) fn first_expired<T: Copy, U: Copy>(
        &self,
        sought: Sought,
        publishers: &Publishers<T, U>,
    ) -> usize
        ensures { IsMet (is_sought sought self.now publishers.now) self.now.expired.items result }
    {
        let count = self.expired.len();
        for place in 0..count {
            if let Some(key) = self.expired.at(place) {
                if self.is_sought(sought, key, publishers) {
                    return place;
                }
            }
        }
        count
    }
}
