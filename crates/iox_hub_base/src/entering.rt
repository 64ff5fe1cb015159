//! How a service that was negotiated becomes a factory of the hub.
ghost use Rattle.std.specs.Prelude.{◌≡◌, Bool, false, true, if◌then◌else◌, IfOk, OnOk, OnErr};
ghost use Rattle.std.specs.Result.{result_map_both};
ghost use Rattle.iox_delivery_factories.specs.DescribeBase.Detail.{detail};
ghost use Rattle.iox_delivery_factories.specs.DescribeBase.declared.type_detail.TypeVariant.TheVariants.{FixedSize};
ghost use Rattle.iox_hub_base.specs.Opening.{Enters, IsClosedAgain, Settles};

use crate::factory::PortFactory;
use crate::hub::Hub;
use crate::service_room::{OpeningParts, ServiceRoom};
use iox_describe::pattern::Pattern;
use iox_describe_base::ZeroCopySend;
use iox_negotiate as negotiated;
use iox_negotiate_table::{StepList, Stepped, Table};
use iox_queues_base::Words;
use std::alloc::{AllocError, Global};
use std::mem;

/// The errors of a call that negotiates a service, if memory runs out after its last storage operation: one if the service was opened, one
/// if it was created.
#[derive(Clone, Copy)]
pub(crate) struct Lacking<E> {
    pub(crate) opened: E,
    pub(crate) created: E,
}

impl<E: Copy> Lacking<E> {
    /// One error for both cases: the service was opened, or it was created.
    pub(crate) fn either_way(error: E) -> Self
        ensures { result ≡ record { opened = error; created = error } }
    {
        Lacking {
            opened: error,
            created: error,
        }
    }

    // The error if memory ran out.
    fn error(self, no_room: NoRoom) -> E
        ensures { result ≡ (if no_room.was_new then self.created else self.opened) }
    {
        if no_room.was_new {
            self.created
        } else {
            self.opened
        }
    }
}

// Memory ran out for a service that was negotiated, and whether the service had been created by that call.
#[derive(Clone, Copy)]
struct NoRoom {
    was_new: bool,
}

impl<T: Copy, U: Copy, B: Drop, D: Drop> Hub<T, U, B, D> {
    // The services and the counts of their factories, with capacity for one more service. The hub is without them until they are put back.
    // Fails only if an allocation fails, and then nothing has changed.
    fn make_room(&mut self, alloc: Global) -> Result<ServiceRoom<T, U, B, D>, AllocError>
        ensures lent { IfOk result (λ room. (room.counts ≡ self.old.factory_counts) × (room.services ≡ self.old.services)) }
        ensures rest { OnOk result (self.new ≡ record self.old { factory_counts = self.new.factory_counts; services = self.new.services }) }
        ensures err { OnErr result (self.new ≡ self.old) }
    {
        let services = self.services.lend(alloc)?;
        match self.factory_counts.lend(alloc) {
            Ok(counts) => Ok(ServiceRoom { counts, services }),
            Err(lack) => {
                self.services = services.into_services();
                Err(lack)
            }
        }
    }

    // The table, with these lists of actions to do before its storage operations. The hub is without it until it is put back.
    fn lend_table(&mut self, alloc: Global, steps: Vec<StepList>) -> Stepped
        ensures lent { result ≡ record { table = self.old.table; lists = steps.items } }
        ensures rest { self.new ≡ record self.old { table = self.new.table } }
    {
        Stepped::new(mem::replace(&mut self.table, Table::new(alloc, 0)), steps)
    }

    /// What a call that opens a service needs: the table, with these lists of actions of other nodes to do before its storage operations,
    /// and capacity for the service. The hub is without them until they are put back. It fails only if an allocation fails, and then
    /// nothing has changed.
    pub(crate) fn lend_parts(
        &mut self,
        alloc: Global,
        steps: Vec<StepList>,
    ) -> Result<OpeningParts<T, U, B, D>, AllocError>
        ensures table { IfOk result (λ parts. parts.table ≡ record { table = self.old.table; lists = steps.items }) }
        ensures rest { IfOk result (λ parts. self.old ≡ record self.new {
          table = self.old.table;
          factory_counts = parts.room.counts;
          services = parts.room.services;
        }) }
        ensures err { OnErr result (self.new ≡ self.old) }
    {
        let room = self.make_room(alloc)?;
        let table = self.lend_table(alloc, steps);
        Ok(OpeningParts { table, room })
    }

    // Closes a factory for which memory ran out.
    fn give_back<P: Pattern>(&mut self, service: negotiated::PortFactory<P>) -> NoRoom
        requires { service.membership.storage ≡ self.old.table.id }
        ensures was_new { result.was_new ≡ service.membership.service.is_new }
        ensures closed { IsClosedAgain service.membership self.old self.new }
    {
        let was_new = service.is_new();
        let _ = service.close(&mut self.table);
        NoRoom { was_new }
    }
}

impl<T: Words + ZeroCopySend, U: Copy + ZeroCopySend, B: Drop, D: Drop> Hub<T, U, B, D> {
    /// Puts back what was taken out of the hub for the call, and returns the factory of a service that was negotiated, or its error.
    pub(crate) fn settle<P: Pattern, E: Copy>(
        &mut self,
        alloc: Global,
        table: Stepped,
        room: ServiceRoom<T, U, B, D>,
        answer: Result<negotiated::PortFactory<P>, E>,
        errors: Lacking<E>,
    ) -> Result<PortFactory<P>, E>
        requires { IfOk answer (λ service. service.membership.storage ≡ table.table.id) }
        ensures { (lacking : Bool → E) → lacking false ≡ errors.opened → lacking true ≡ errors.created
            → Settles (detail FixedSize T.name T.size T.alignment) (detail FixedSize U.name U.size U.alignment) lacking
            (result_map_both (λ service. service.membership) (λ error. error) answer)
            (record self.old { table = table.table; factory_counts = room.counts; services = room.services })
            (result_map_both (λ factory. (factory.service.membership, factory.owner)) (λ error. error) result) self.new }
    {
        self.table = table.into_table();
        match answer {
            Ok(service) => match self.enter(alloc, service, room) {
                Ok(factory) => Ok(factory),
                Err(no_room) => Err(errors.error(no_room)),
            },
            Err(error) => {
                self.factory_counts = room.counts.into_counts();
                self.services = room.services.into_services();
                Err(error)
            }
        }
    }

    // The factory of the hub for a service that was negotiated. Only memory for a domain that is to be made may run out.
    fn enter<P: Pattern>(
        &mut self,
        alloc: Global,
        service: negotiated::PortFactory<P>,
        room: ServiceRoom<T, U, B, D>,
    ) -> Result<PortFactory<P>, NoRoom>
        requires { service.membership.storage ≡ self.old.table.id }
        ensures { Enters (detail FixedSize T.name T.size T.alignment) (detail FixedSize U.name U.size U.alignment) service.membership
            (record self.old { factory_counts = room.counts; services = room.services })
            (result_map_both (λ factory. (factory.service.membership, factory.owner)) (λ no_room. no_room.was_new) result)
            self.new }
    {
        let number = service.number();
        match room.services.open(
            alloc,
            service.description(),
            number,
            self.expired_connection_buffer,
        ) {
            Ok(services) => {
                self.services = services;
                self.factory_counts = room.counts.one_more(number);
                self.factories = self.factories.saturating_add(1);
                Ok(PortFactory {
                    service,
                    owner: self.factories,
                })
            }
            Err(services) => {
                self.services = services;
                self.factory_counts = room.counts.into_counts();
                Err(self.give_back(service))
            }
        }
    }
}
