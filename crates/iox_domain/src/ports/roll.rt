//! The list of the ports of one kind.
ghost use Rattle.std.specs.Prelude.{◌≡◌, ◌+◌, ◌≤◌, ℕ, length, replicate, get_or, is_some, None, IfOk, IfSome, IfNone, true};
ghost use Rattle.iox_domain_ports.specs.Container.CountedPlaces.{padded};
ghost use Rattle.iox_domain.specs.Rolls.{new_roll, free_place, entered, left, EndsAt};

use iox_container::{Container, Member, OwnerId, ReleaseMode};
use std::alloc::{AllocError, Global};
use std::marker::Model;

/// The list of the ports of one kind: which port is at each place, and how often the list changed so far. A new port takes the
/// lowest free place.
///
/// Memory is allocated up to the last place that ever had a port.
///
/// Ported from `iceoryx2::service::dynamic_config::publish_subscribe::DynamicConfig`, of which this is one of the two lists.
#[derive(Drop)]
pub struct Roll<V: Copy> {
    container: Container<V>,
    owner: OwnerId,
    // The last port is listed at the place before this one.
    top: usize,
}

impl<V: Copy> Model for Roll<V> {
    ghost use Rattle.std.specs.Prelude.{◌≡◌, false};
    ghost use Rattle.iox_domain.specs.Rolls.{RollState, EndsAt};

    ghost Value = { RollState V };

    ghost view = { λ r. record { places = r.container.members; changes = r.container.changes } };

    ghost invariant = { λ r. (r.container.locked ≡ false) × (r.owner ≡ 1) × EndsAt r.top r.container.members };
}

impl<V: Copy> Roll<V> {
    /// A list of `places` places at which no port is listed. The call fails only if an allocation fails.
    pub fn new(alloc: Global, places: usize) -> Result<Roll<V>, AllocError>
        ensures { IfOk result (λ roll. roll ≡ new_roll places) }
    {
        // A container knows the owner of each member, so that the members of a dead process can be removed; here no process dies.
        let owner = OwnerId::new(1).unwrap();
        Ok(Roll {
            container: Container::new(alloc, 0, places)?,
            owner,
            top: 0,
        })
    }

    /// The place that the next port gets: the lowest free one. None if no place is free, and once the list changed 2^64 - 1
    /// times.
    pub fn free_place(&self) -> Option<usize>
        ensures { result ≡ free_place self.now }
    {
        if !self.container.has_room() {
            return None;
        }
        self.container.lowest_free()
    }

    /// Enters a port at the next place, and answers that place; None, and nothing happens, if there is none.
    pub fn enter(&mut self, port: V) -> Option<usize>
        ensures place { result ≡ free_place self.old }
        ensures listed { IfSome result (λ place. self.new ≡ entered place port self.old) }
        ensures full { IfNone result (self.new ≡ self.old) }
    {
        if !self.container.has_room() {
            return None;
        }
        match self.container.add(port, self.owner) {
            Ok(handle) => {
                let place = handle.index();
                // By the contract of `capacity` the place isn't the last number.
                let _places = self.container.capacity();
                self.top = self.top.max(place + 1);
                Some(place)
            }
            Err(_) => None,
        }
    }

    /// Removes the port at this place from the list. Nothing happens if there is none, and once the list changed 2^64 - 1
    /// times.
    pub fn leave(&mut self, place: usize)
        ensures { self.new ≡ left place self.old }
    {
        if !self.container.has_room() {
            return;
        }
        let Some(handle) = self.container.handle(place) else {
            return;
        };
        // The handle is that of a member, so the removal succeeds.
        let _ = self.container.remove(handle, ReleaseMode::Default);
        self.top = lowered(self.container.places(), self.top);
    }

    /// The entries of the list by place, up to the last port.
    pub fn listed(&self) -> &[Option<Member<V>>]
        ensures whole { padded (length self.now.places) result.now ≡ self.now.places }
        ensures bound { length result.now ≤ length self.now.places }
        ensures last { (place : ℕ) → place + 1 ≡ length result.now → is_some (get_or result.now place None) ≡ true }
    {
        let listed = self.container.places();
        &listed[..self.top]
    }

    /// How often the list changed so far.
    pub fn changes(&self) -> u64
        ensures { result ≡ self.now.changes }
    {
        self.container.changes()
    }
}

// The place after the last port, if no port is at `top` or after it.
fn lowered<V: Copy>(listed: &[Option<Member<V>>], top: usize) -> usize
    requires { (place : ℕ) → top ≤ place → get_or listed.now place None ≡ None }
    ensures { EndsAt result listed.now }
{
    let end = top.min(listed.len());
    for count in 0..end {
        let place = end - 1 - count;
        if listed[place].is_some() {
            return place + 1;
        }
    }
    0
}
