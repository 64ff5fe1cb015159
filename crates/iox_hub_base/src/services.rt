//! The open services of a hub.
ghost use Rattle.std.specs.Prelude.{◌≡◌, ◌-◌, ◌^◌, ℕ, min, option_copied, IfSome, IfOk, OnErr, [], None};
ghost use Rattle.iox_domain.specs.DescribeBase.Detail.{detail};
ghost use Rattle.iox_domain.specs.DescribeBase.declared.type_detail.TypeVariant.TheVariants.{FixedSize};
ghost use Rattle.iox_hub_base.specs.Open.{presence_of, domain_of};
ghost use Rattle.iox_hub_base.specs.ServicesOpening.{is_open, Opens, without_service};
ghost use Rattle.iox_hub_base.specs.Room.{loans_left_in, samples_at_most_in};

use crate::presences::Presences;
use crate::service_room::RoomyServices;
use iox_describe_base::ZeroCopySend;
use iox_describe_settings::Description;
use iox_domain::Domain;
use iox_domain_values::{DegradationHandler, DomainError, Handlers};
use iox_queues_base::Words;
use std::alloc::{AllocError, Global};
use std::marker::Model;

/// The open publish-subscribe services of a hub, by number. The domain of each is in the hub or out, that is, taken by the user to be
/// driven elsewhere.
///
/// Contracts see the id of the hub, and each service with its number, by rising number. A domain that is in the hub has the hub's id and
/// the number under which it is kept. Not in `iceoryx2`.
#[derive(Drop)]
pub struct Services<T, U, B = Handlers, D = DegradationHandler> {
    pub(crate) hub: u64,
    pub(crate) presences: Presences<T, U, B, D>,
}

impl<T, U, B, D> Model for Services<T, U, B, D> {
    ghost use Rattle.iox_hub_base.specs.Open.{OpenServices, AreOwn};

    ghost Value = { OpenServices T U B D };

    ghost view = { λ s. record { hub = s.hub; domains = s.presences } };

    ghost invariant = { λ s. AreOwn s.hub s.presences };
}

impl<T: Copy, U: Copy, B: Drop, D: Drop> Services<T, U, B, D> {
    /// The services of a hub with this id, of which none is open. It takes no memory.
    pub fn new(alloc: Global, hub: u64) -> Self
        ensures { result ≡ record { hub = hub; domains = [] } }
    {
        Services {
            hub,
            presences: Presences::new(alloc),
        }
    }

    /// Whether a service of this number is open: it was opened and not closed; its domain may be in the hub or out.
    /// Example: `let is_open = services.is_open(number);`
    pub fn is_open(&self, number: u64) -> bool
        ensures { result ≡ is_open number self.now }
    {
        self.presences.get(number).is_some()
    }

    /// The domain of a service, if it is in the hub. Its id is that of this hub and number.
    /// Example: `let domain = services.domain(number)?;`
    pub fn domain(&self, number: u64) -> Option<&Domain<T, U, B, D>>
        ensures value { option_copied result ≡ domain_of number self.now.domains }
        ensures own { IfSome result (λ domain. domain.now.id ≡ record { hub = self.now.hub; service = number }) }
    {
        self.presences.domain(number)
    }

    /// How many loans the publishers of all domains in the hub may still make; domains that are out don't count. At most 2^64 - 1.
    /// Example: `let loans = services.loans_left();`
    pub fn loans_left(&self) -> u64
        ensures { result ≡ min (loans_left_in self.now.domains) (2 ^ 64 - 1) }
    {
        self.presences.loans_left()
    }

    /// How many samples the subscribers of all domains in the hub may hold at once. At most 2^64 - 1.
    /// Example: `let samples = services.samples_at_most();`
    pub fn samples_at_most(&self) -> u64
        ensures { result ≡ min (samples_at_most_in self.now.domains) (2 ^ 64 - 1) }
    {
        self.presences.samples_at_most()
    }

    /// The services, with capacity for one more; none is open here until they are put back. It takes no memory if there is capacity. It
    /// fails only if an allocation fails, and then nothing has changed.
    pub(crate) fn lend(&mut self, alloc: Global) -> Result<RoomyServices<T, U, B, D>, AllocError>
        ensures ok { IfOk result (λ lent. lent ≡ self.old) }
        ensures err { OnErr result (self.new ≡ self.old) }
    {
        let presences = self.presences.lend(alloc)?;
        Ok(RoomyServices {
            hub: self.hub,
            presences,
        })
    }

    /// Closes the service under this number: a domain that was in the hub is dropped with its ports. The other services stay as they were.
    /// It takes no memory.
    /// Example: `services.close(number);`
    pub fn close(&mut self, number: u64)
        ensures new { self.new ≡ without_service number self.old }
        ensures gone { presence_of number self.new.domains ≡ None }
        ensures others { (other : ℕ) → (number ≡ other → ⊥) → presence_of other self.new.domains ≡ presence_of other self.old.domains }
    {
        self.presences.remove(number);
    }
}

impl<T: Words + ZeroCopySend, U: Copy + ZeroCopySend, B: Drop, D: Drop> Services<T, U, B, D> {
    /// Opens a service under this number: its domain is a new one of this hub and number, by the description, and has no ports. Nothing
    /// happens if one of this number is open, with its domain in the hub or out, or if the description doesn't fit (`Domain::fits`).
    /// `expired_connection_buffer` is the maximum number of a subscriber's connections that stay readable after their publishers were
    /// closed; if the service's borrow limit is larger, the borrow limit applies instead.
    ///
    /// Refused with `OutOfMemory` if a domain is to be made and an allocation fails; then nothing has changed.
    pub fn open(
        &mut self,
        alloc: Global,
        description: &Description,
        number: u64,
        expired_connection_buffer: u32,
    ) -> Result<(), DomainError>
        ensures { Opens (detail FixedSize T.name T.size T.alignment) (detail FixedSize U.name U.size U.alignment)
            expired_connection_buffer number description.now.settings self.old result self.new }
    {
        if self.is_open(number) || !Domain::<T, U, B, D>::fits(description) {
            return Ok(());
        }
        let Ok(lent) = self.lend(alloc) else {
            return Err(DomainError::OutOfMemory);
        };
        match lent.open(alloc, description, number, expired_connection_buffer) {
            Ok(services) => {
                *self = services;
                Ok(())
            }
            Err(services) => {
                *self = services;
                Err(DomainError::OutOfMemory)
            }
        }
    }
}
