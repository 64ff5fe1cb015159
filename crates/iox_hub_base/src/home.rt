//! A hub as the home of the domains of its services.
ghost use Rattle.std.proofs.Common.{ap};
ghost use Rattle.std.specs.Prelude.{◌≡◌, IsSome};
ghost use Rattle.iox_hub_base.specs.AsHome.{with_services, hub_state, hub_changed};
ghost use Rattle.iox_hub_base.specs.HomeLaws as homely;
ghost use Rattle.iox_hub_base.specs.Open.{domain_of};

use crate::hub::Hub;
use iox_domain::{DomainId, DomainState, Home, LendsDomains};
use iox_domain_values::{Decides, Degrades};

impl<T: Copy, U: Copy, B: Decides + Degrades, D: Degrades> Home<T, U> for Hub<T, U, B, D> {
    type ForPublishers = B;

    type ForSubscribers = D;
}

impl<T: Copy, U: Copy, B: Decides + Degrades, D: Degrades> LendsDomains<DomainState<T, U, B, D>>
    for Hub<T, U, B, D> {
    ghost domain_of = { hub_state };

    ghost changed = { hub_changed };

    ghost stands_at = { λ id place hub. (id.hub ≡ hub.services.hub) × IsSome (domain_of id.service hub.services.domains) };

    fn place(&self, id: DomainId) -> Option<usize> {
        self.services.place(id)
    }

    fn domain_at(&self, id: DomainId, place: usize) -> &DomainState<T, U, B, D> {
        self.services.domain_at(id, place)
    }

    fn domain_mut_at(&mut self, id: DomainId, place: usize) -> &mut DomainState<T, U, B, D> {
        self.services.domain_mut_at(id, place)
    }

    ghost changed_found = { λ id step hub. homely.changed_found id step hub.services };

    ghost others_stay = { λ id other step hub apart. homely.others_stay id other step hub.services apart };

    ghost alike = { λ id one other hub same. ap (with_services hub) (homely.alike id one other hub.services same) };

    ghost unchanged = { λ id hub. ap (with_services hub) (homely.unchanged id hub.services) };

    ghost again = { λ id first second hub. ap (with_services hub) (homely.again id first second hub.services) };
}
