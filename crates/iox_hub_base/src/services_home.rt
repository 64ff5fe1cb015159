//! The services of a hub as a home of domains.
ghost use Rattle.std.specs.Prelude.{◌≡◌, ◌↔◌, IsSome, IsTrue};
ghost use Rattle.iox_hub_base.specs.Open.{domain_of};
ghost use Rattle.iox_hub_base.specs.ServicesAsHome.{state_at, changed_at};
ghost use Rattle.iox_hub_base.specs.HomeLaws as homely;

use crate::services::Services;
use iox_domain::{DomainId, DomainState, Home, LendsDomains};
use iox_domain_values::{Decides, Degrades};

// Whether an id is of a hub.
fn is_of(hub: u64, id: DomainId) -> bool
    ensures { IsTrue result ↔ (id.hub ≡ hub) }
{
    id.hub == hub
}

impl<T: Copy, U: Copy, B: Decides + Degrades, D: Degrades> Home<T, U> for Services<T, U, B, D> {
    type ForPublishers = B;

    type ForSubscribers = D;
}

impl<T: Copy, U: Copy, B: Decides + Degrades, D: Degrades> LendsDomains<DomainState<T, U, B, D>>
    for Services<T, U, B, D> {
    ghost domain_of = { state_at };

    ghost changed = { changed_at };

    ghost stands_at = { λ id place services. (id.hub ≡ services.hub) × IsSome (domain_of id.service services.domains) };

    fn place(&self, id: DomainId) -> Option<usize> {
        if is_of(self.hub, id) {
            self.presences.place(id.service)
        } else {
            None
        }
    }

    fn domain_at(&self, id: DomainId, place: usize) -> &DomainState<T, U, B, D> {
        &self.presences.domain_at(id.service, place).state
    }

    fn domain_mut_at(&mut self, id: DomainId, place: usize) -> &mut DomainState<T, U, B, D> {
        let domain = self.presences.domain_mut_at(id.service, place);
        &mut domain.state
    }

    ghost changed_found = { homely.changed_found };

    ghost others_stay = { homely.others_stay };

    ghost alike = { homely.alike };

    ghost unchanged = { homely.unchanged };

    ghost again = { homely.again };
}
