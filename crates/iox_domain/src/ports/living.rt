//! How many ports, loans and samples are alive.
ghost use Rattle.std.specs.Prelude.{◌≡◌, ◌-◌, ◌^◌, min, None, Some};
ghost use Rattle.iox_domain.specs.Living.{living};

use crate::ports::service_ports::ServicePorts;
use iox_domain_ports::living::add;

impl<T: Copy, U: Copy> ServicePorts<T, U> {
    /// How much of the owner is alive: each of its ports until it is closed; each loan of its publishers until it is dropped or
    /// sent, also if the publisher is closed; each blocked send of these; and each sample that its subscribers received until
    /// it is released, also if the subscriber is closed. At most 2^64 - 1 is answered.
    ///
    /// Not in `iceoryx2`, which counts the references of a service.
    pub fn living(&self, owner: u64) -> u64
        ensures { result ≡ min (living (Some owner) self.now) (2 ^ 64 - 1) }
    {
        self.count_living(Some(owner))
    }

    /// How much of all owners is alive, as `living` counts it of one.
    ///
    /// Not in `iceoryx2`, which counts the references of a service.
    pub fn living_in_all(&self) -> u64
        ensures { result ≡ min (living None self.now) (2 ^ 64 - 1) }
    {
        self.count_living(None)
    }

    // How much of the owner is alive, or of all if no owner is named.
    fn count_living(&self, owner: Option<u64>) -> u64
        ensures { result ≡ min (living owner self.now) (2 ^ 64 - 1) }
    {
        add(
            self.publishers.living(owner),
            self.subscribers.living(owner),
        )
    }
}
