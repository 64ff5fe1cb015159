//! Homes, which contain domains; and a domain as the home of its own ports.
ghost use Rattle.std.specs.Prelude.{◌≡◌, ℕ, Option, None, Some, IfNone, IfSome, IsTrue, option_copied, option_map};
ghost use Rattle.std.specs.Borrow.{sem, Lends, LendsIf};
ghost use Rattle.std.specs.Option.{option_copied_mut};
ghost use Rattle.iox_domain.specs.AsHome.{same_id, own_state, own_changed};
ghost use Rattle.iox_domain.specs.HomeLaws as homely;
ghost use Rattle.iox_domain.specs.declared.domain_id.DomainId.{DomainId};

use crate::domain::Domain;
use crate::domain_id::DomainId;
use crate::state::DomainState;
use iox_domain_values::{Decides, Degrades};

/// A home contains domains, and gives access to the state `S` of each domain by its id.
///
/// The trait is generic over the type of that state, so a call in a function over any home adds no proof time.
pub trait LendsDomains<S> {
    // The state of the domain with this id, if the home contains the domain.
    ghost domain_of: { DomainId → Self → Option S };

    // The home after one step of the state of the domain with this id, if it contains the domain.
    ghost changed: { DomainId → (S → S) → Self → Self };

    // Whether the home contains the domain with this id, at this place.
    ghost stands_at: { DomainId → ℕ → Self → Type 0 };

    /// The place of the domain with this id, if the home contains it.
    fn place(&self, id: DomainId) -> Option<usize>
        ensures some { IfSome result (λ place. stands_at id place self.now) }
        ensures none { IfNone result (domain_of id self.now ≡ None) };

    /// The state of the domain with this id, which is at this place.
    fn domain_at(&self, id: DomainId, place: usize) -> &S
        requires { stands_at id place self.now }
        ensures { domain_of id self.now ≡ Some result.now };

    /// A mutable reference to the state of the domain with this id, which is at this place.
    fn domain_mut_at(&mut self, id: DomainId, place: usize) -> &mut S
        requires { stands_at id place self.old }
        ensures* writes_back { sem 𝓛 (Lends Self.row S.row self.entry result (λ last. changed id (λ before. last) self.old)) }
        ensures value { domain_of id self.old ≡ Some result.now };

    // After a step of the state with this id, the home contains the state that the step made of it.
    ghost changed_found: { (id : DomainId) (step : S → S) (home : Self)
        → domain_of id (changed id step home) ≡ option_map step (domain_of id home) };

    // A step of the state with one id doesn't change the state with another id.
    ghost others_stay: { (id other : DomainId) (step : S → S) (home : Self) → (id ≡ other → ⊥)
        → domain_of other (changed id step home) ≡ domain_of other home };

    // Two steps that make the same of the state with this id make the same of the home.
    ghost alike: { (id : DomainId) (one other : S → S) (home : Self)
        → option_map one (domain_of id home) ≡ option_map other (domain_of id home) → changed id one home ≡ changed id other home };

    // A step that changes nothing leaves the home as it is.
    ghost unchanged: { (id : DomainId) (home : Self) → changed id (λ state. state) home ≡ home };

    // Two steps one after the other are the same as both in one.
    ghost again: { (id : DomainId) (first second : S → S) (home : Self)
        → changed id second (changed id first home) ≡ changed id (λ state. second (first state)) home };
}

/// A home contains domains, and so the ports of their services: one domain, or all those of a hub. Each call of a port takes
/// a home.
///
/// A home finds a domain by its id and repeats none of its calls: a call of a port looks up the domain once, and then makes a
/// call of its state. The types of the handlers are chosen by the home.
pub trait Home<T, U>: LendsDomains<DomainState<T, U, Self::ForPublishers, Self::ForSubscribers>> {
    /// The handlers of publishers.
    type ForPublishers: Decides + Degrades;
    /// The handlers of subscribers.
    type ForSubscribers: Degrades;
}

impl<T: Copy, U: Copy, B: Decides + Degrades, D: Degrades> Home<T, U> for Domain<T, U, B, D> {
    type ForPublishers = B;

    type ForSubscribers = D;
}

impl<T: Copy, U: Copy, B: Decides + Degrades, D: Degrades> LendsDomains<DomainState<T, U, B, D>>
    for Domain<T, U, B, D> {
    ghost domain_of = { own_state };

    ghost changed = { own_changed };

    ghost stands_at = { λ id place domain. IsTrue (same_id domain.id id) };

    fn place(&self, id: DomainId) -> Option<usize> {
        if is(self.id, id) { Some(0) } else { None }
    }

    fn domain_at(&self, _id: DomainId, _place: usize) -> &DomainState<T, U, B, D> {
        &self.state
    }

    fn domain_mut_at(&mut self, _id: DomainId, _place: usize) -> &mut DomainState<T, U, B, D> {
        &mut self.state
    }

    ghost changed_found = { homely.changed_found };

    ghost others_stay = { homely.others_stay };

    ghost alike = { homely.alike };

    ghost unchanged = { homely.unchanged };

    ghost again = { homely.again };
}

/// The state of the domain with this id, if the home contains it.
pub(crate) fn domain<'a, S: 'a, H: LendsDomains<S>>(home: &'a H, id: DomainId) -> Option<&'a S>
    ensures { option_copied result ≡ H.domain_of id home.now }
{
    match home.place(id) {
        Some(place) => Some(home.domain_at(id, place)),
        None => None,
    }
}

/// A mutable reference to the state of the domain with this id, if the home contains it.
pub(crate) fn domain_mut<'a, S: 'a, H: LendsDomains<S>>(
    home: &'a mut H,
    id: DomainId,
) -> Option<&'a mut S>
    ensures* writes_back { sem 𝓛 (LendsIf H.row S.row home.entry result (λ last. H.changed id (λ before. last) home.old) home.old) }
    ensures value { option_copied_mut result ≡ H.domain_of id home.old }
{
    match home.place(id) {
        Some(place) => Some(home.domain_mut_at(id, place)),
        None => None,
    }
}

// Whether both ids are the same.
fn is(a: DomainId, b: DomainId) -> bool
    ensures { result ≡ same_id a b }
{
    a.hub == b.hub && a.service == b.service
}
