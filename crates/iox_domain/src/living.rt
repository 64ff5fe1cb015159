//! How many ports, loans and samples are alive.
ghost use Rattle.std.specs.Prelude.{◌≡◌, ◌-◌, ◌^◌, min, None, Some};
ghost use Rattle.iox_domain.specs.Living.{living};

use crate::domain::Domain;

impl<T: Copy, U: Copy, B, D> Domain<T, U, B, D> {
    /// How much of the owner is alive: its ports, its loans, its blocked sends, and its samples, as `ServicePorts::living`
    /// counts them. At most 2^64 - 1 is answered.
    ///
    /// Not in `iceoryx2`, which counts the references of a service.
    pub fn living(&self, owner: u64) -> u64
        ensures { result ≡ min (living (Some owner) self.now.state.ports) (2 ^ 64 - 1) }
    {
        self.state.ports.living(owner)
    }

    /// How much of all owners is alive, as `living` counts it of one.
    ///
    /// Not in `iceoryx2`, which counts the references of a service.
    pub fn living_in_all(&self) -> u64
        ensures { result ≡ min (living None self.now.state.ports) (2 ^ 64 - 1) }
    {
        self.state.ports.living_in_all()
    }
}
