//! What a hub hands to a call that opens a service, before the call touches the table: services and counts with capacity for one more.
ghost use Rattle.std.specs.Prelude.{◌≡◌, IfOk};
ghost use Rattle.iox_domain.specs.DescribeBase.Detail.{detail};
ghost use Rattle.iox_domain.specs.DescribeBase.declared.type_detail.TypeVariant.TheVariants.{FixedSize};
ghost use Rattle.iox_domain.specs.Fitting.{Fits};
ghost use Rattle.iox_hub_base.specs.ServicesOpening.{is_open, IsNewHere, OpensLent};

use crate::counts::RoomyCounts;
use crate::presence::Presence;
use crate::presences::Presences;
use crate::services::Services;
use iox_container::RoomyByNumber;
use iox_describe_base::ZeroCopySend;
use iox_describe_settings::Description;
use iox_domain::{Domain, DomainId};
use iox_domain_values::DomainError;
use iox_negotiate_table::Stepped;
use iox_queues_base::Words;
use std::alloc::Global;
use std::marker::Model;

/// What a hub hands to a call that opens a service: the table, with actions of other nodes to do before its storage operations, and
/// capacity for the service.
#[derive(Drop)]
pub(crate) struct OpeningParts<T, U, B, D> {
    pub(crate) table: Stepped,
    pub(crate) room: ServiceRoom<T, U, B, D>,
}

/// The services of a hub and the counts of their factories, with capacity for one more service.
#[derive(Drop)]
pub(crate) struct ServiceRoom<T, U, B, D> {
    pub(crate) counts: RoomyCounts,
    pub(crate) services: RoomyServices<T, U, B, D>,
}

/// Services with capacity for one more.
///
/// Contracts see them as `Services`.
#[derive(Drop)]
pub(crate) struct RoomyServices<T, U, B, D> {
    pub(crate) hub: u64,
    pub(crate) presences: RoomyByNumber<Presence<T, U, B, D>>,
}

impl<T, U, B, D> Model for RoomyServices<T, U, B, D> {
    ghost use Rattle.iox_hub_base.specs.Open.{OpenServices, AreOwn};

    ghost Value = { OpenServices T U B D };

    ghost view = { λ s. record { hub = s.hub; domains = s.presences } };

    ghost invariant = { λ s. AreOwn s.hub s.presences };
}

impl<T: Copy, U: Copy, B: Drop, D: Drop> RoomyServices<T, U, B, D> {
    // Whether a service of this number is open.
    fn is_open(&self, number: u64) -> bool
        ensures { result ≡ is_open number self.now }
    {
        self.presences.get(number).is_some()
    }

    /// The services, without any change.
    pub(crate) fn into_services(self) -> Services<T, U, B, D>
        ensures { result ≡ self }
    {
        Services {
            hub: self.hub,
            presences: Presences {
                entries: self.presences.into_values(),
            },
        }
    }
}

impl<T: Words + ZeroCopySend, U: Copy + ZeroCopySend, B: Drop, D: Drop> RoomyServices<T, U, B, D> {
    /// The services after one was opened under a number, as `Services::open` opens it. There is capacity for its entry, so only an
    /// allocation of its domain may fail; then the services are returned as they were.
    pub(crate) fn open(
        self,
        alloc: Global,
        description: &Description,
        number: u64,
        expired_connection_buffer: u32,
    ) -> Result<Services<T, U, B, D>, Services<T, U, B, D>>
        ensures { OpensLent (detail FixedSize T.name T.size T.alignment) (detail FixedSize U.name U.size U.alignment)
            expired_connection_buffer number description.now.settings self result }
    {
        if self.is_open(number) || !Domain::<T, U, B, D>::fits(description) {
            return Ok(self.into_services());
        }
        let id = DomainId {
            hub: self.hub,
            service: number,
        };
        match new_here(alloc, id, description, expired_connection_buffer) {
            Ok(boxed) => Ok(Services {
                hub: self.hub,
                presences: Presences {
                    entries: self.presences.insert(number, boxed),
                },
            }),
            Err(_) => Err(self.into_services()),
        }
    }
}

// A new domain in the hub, in a box of its own.
fn new_here<T: Words + ZeroCopySend, U: Copy + ZeroCopySend, B: Drop, D: Drop>(
    alloc: Global,
    id: DomainId,
    description: &Description,
    expired_connection_buffer: u32,
) -> Result<Box<Presence<T, U, B, D>>, DomainError>
    requires { Fits (detail FixedSize T.name T.size T.alignment) (detail FixedSize U.name U.size U.alignment) description.now.settings }
    ensures { IfOk result (λ boxed. IsNewHere id expired_connection_buffer description.now.settings boxed.value) }
{
    let domain = Domain::new(alloc, id, description, expired_connection_buffer)?;
    boxed(alloc, Presence::Here(domain))
}

// A value in a box of its own.
fn boxed<X: Drop>(alloc: Global, value: X) -> Result<Box<X>, DomainError>
    ensures { IfOk result (λ boxed. boxed.value ≡ value) }
{
    match Box::new(alloc, value) {
        Ok(boxed) => Ok(boxed),
        Err(_) => Err(DomainError::OutOfMemory),
    }
}
