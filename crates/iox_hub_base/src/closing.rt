//! How factories are closed.
ghost use Rattle.std.specs.Prelude.{◌≡◌};
ghost use Rattle.std.specs.Result.{result_map_both};
ghost use Rattle.iox_hub_base.specs.Closing.{is_last, in_use, Closes, less_one};

use crate::factory::{NotClosed, PortFactory};
use crate::hub::Hub;
use iox_describe::pattern::Pattern;
use iox_negotiate_base::errors::CloseError;

impl<T: Copy, U: Copy, B: Drop, D: Drop> Hub<T, U, B, D> {
    /// Closes a factory of this hub: the factory leaves the segment of its service, and if its node was the last one in, description and
    /// segment are removed. When the hub's last factory of a service is closed, the service's domain ends.
    ///
    /// Refused with `StillInUse`, the factory handed back and nothing changed: while the domain of the service is out; while a port that
    /// the factory made exists, or a loan or a blocked send of a publisher that it made, or a sample of a subscriber that it made; and for
    /// the last factory of its service in the hub, while any port, loan, blocked send or sample of the domain exists. Refused with
    /// `UnableToRemoveDescription` and `UnableToRemoveSegment` if the table reports these; the factory is consumed then.
    ///
    /// Corresponds to dropping an `iceoryx2::service::port_factory`, which the ports of `iceoryx2` keep alive.
    /// Example: `let closed = hub.close(factory);`
    pub fn close<P: Pattern>(&mut self, factory: PortFactory<P>) -> Result<(), NotClosed<P>>
        requires { factory.service.membership.storage ≡ self.old.table.id }
        ensures { Closes factory.service.membership factory.owner factory self.old
            (result_map_both (λ done. done) (λ refused. (refused.error, refused.factory)) result) self.new }
    {
        let number = factory.number();
        if self.is_kept_open(number, factory.owner()) {
            return Err(NotClosed {
                error: CloseError::StillInUse,
                factory: Some(factory),
            });
        }
        let closed = factory.service.close(&mut self.table);
        self.let_go(number);
        match closed {
            Ok(()) => Ok(()),
            Err(refused) => Err(NotClosed {
                error: refused.error,
                factory: None,
            }),
        }
    }

    /// Whether a factory of this hub is in use, so that `close` would refuse with `StillInUse`.
    ///
    /// Not in `iceoryx2`.
    /// Example: `let stays = hub.is_in_use(&factory);`
    pub fn is_in_use<P: Pattern>(&self, factory: &PortFactory<P>) -> bool
        requires { factory.now.service.membership.storage ≡ self.now.table.id }
        ensures { result ≡ in_use factory.now.service.membership.service.number factory.now.owner self.now }
    {
        self.is_kept_open(factory.number(), factory.owner())
    }

    // Whether something keeps a factory from being closed; `number` is that of its service, and `owner` its own.
    fn is_kept_open(&self, number: u64, owner: u64) -> bool
        ensures { result ≡ in_use number owner self.now }
    {
        if !self.services.is_open(number) {
            return false;
        }
        let Some(domain) = self.services.domain(number) else {
            return true;
        };
        if self.is_last(number) {
            domain.state.ports.living_in_all() > 0
        } else {
            domain.state.ports.living(owner) > 0
        }
    }

    // Whether a service has at most one factory.
    fn is_last(&self, number: u64) -> bool
        ensures { result ≡ is_last number self.now.factory_counts }
    {
        self.factory_counts.of(number) <= 1
    }

    // Counts one factory fewer of a service; with the last factory, the service's domain ends.
    fn let_go(&mut self, number: u64)
        ensures { self.new ≡ less_one number self.old }
    {
        if self.is_last(number) {
            self.factory_counts.forget(number);
            self.services.close(number);
            return;
        }
        self.factory_counts.one_less(number);
    }
}
