//! Open services by number.
ghost use Rattle.std.specs.Prelude.{◌≡◌, ◌-◌, ◌^◌, ℕ, min, option_copied, IfSome, IfNone, IsSome, IfOk, OnOk, OnErr, [], None, Some};
ghost use Rattle.std.specs.Borrow.{sem};
ghost use Rattle.std.specs.Option.{option_copied_mut};
ghost use Rattle.iox_hub_base.specs.Open.{presence_of, domain_of, with_presence, opened, closed};
ghost use Rattle.iox_hub_base.specs.Room.{loans_left_in, samples_at_most_in};

use crate::presence::Presence;
use iox_container::{ByNumber, RoomyByNumber};
use iox_domain::Domain;
use iox_domain_ports::living::add;
use std::alloc::{AllocError, Global};
use std::marker::Model;

/// Open services by number.
///
/// Contracts see each service with its number, by rising number.
#[derive(Drop)]
pub struct Presences<T, U, B, D> {
    pub(crate) entries: ByNumber<Presence<T, U, B, D>>,
}

impl<T, U, B, D> Model for Presences<T, U, B, D> {
    ghost use Rattle.std.specs.Prelude.{ℕ, List};
    ghost use Rattle.iox_hub_base.specs.declared.presence.Presence.{Presence};

    ghost Value = { List (ℕ × Presence T U B D) };

    ghost view = { λ p. p.entries };
}

impl<T: Copy, U: Copy, B: Drop, D: Drop> Presences<T, U, B, D> {
    ghost use Rattle.iox_hub_base.specs.Lends.{LendsPresence, LendsDomainAt};

    /// A list without open services.
    pub fn new(alloc: Global) -> Self
        ensures { result ≡ [] }
    {
        Presences {
            entries: ByNumber::new(alloc),
        }
    }

    /// The service that is open under this number, if one is.
    /// Example: `let presence = presences.get(number)?;`
    pub fn get(&self, number: u64) -> Option<&Presence<T, U, B, D>>
        ensures { option_copied result ≡ presence_of number self.now }
    {
        self.entries.get(number)
    }

    /// The service that is open under this number, if one is, to be changed in its place.
    /// Example: `let presence = presences.get_mut(number)?;`
    pub fn get_mut(&mut self, number: u64) -> Option<&mut Presence<T, U, B, D>>
        ensures* writes_back { sem 𝓛 (LendsPresence T.row U.row B.row D.row self.entry number result) }
        ensures value { option_copied_mut result ≡ presence_of number self.old }
    {
        self.entries.get_mut(number)
    }

    /// The domain under this number, if it is in the hub.
    /// Example: `let domain = presences.domain(number)?;`
    pub fn domain(&self, number: u64) -> Option<&Domain<T, U, B, D>>
        ensures { option_copied result ≡ domain_of number self.now }
    {
        self.get(number)?.domain()
    }

    /// The place at which `domain_at` finds this number at once, if its domain is in the hub.
    /// Example: `let place = presences.place(number)?;`
    pub fn place(&self, number: u64) -> Option<usize>
        ensures some { IfSome result (λ place. IsSome (domain_of number self.now)) }
        ensures none { IfNone result (domain_of number self.now ≡ None) }
    {
        let place = self.entries.place(number)?;
        match self.entries.at(number, place) {
            Presence::Here(_) => Some(place),
            Presence::Out(_) => None,
        }
    }

    /// The domain under this number, which is in the hub. It is found at once if this is its place.
    /// Example: `let domain = presences.domain_at(number, place);`
    pub fn domain_at(&self, number: u64, place: usize) -> &Domain<T, U, B, D>
        requires { IsSome (domain_of number self.now) }
        ensures { domain_of number self.now ≡ Some result.now }
    {
        match self.entries.at(number, place) {
            Presence::Here(domain) => domain,
            Presence::Out(_) => unreachable!(),
        }
    }

    /// The domain under this number, which is in the hub, to be changed there. It is found at once if this is its place.
    /// Example: `let domain = presences.domain_mut_at(number, place);`
    pub fn domain_mut_at(&mut self, number: u64, place: usize) -> &mut Domain<T, U, B, D>
        requires { IsSome (domain_of number self.old) }
        ensures* writes_back { sem 𝓛 (LendsDomainAt T.row U.row B.row D.row self.entry number result) }
        ensures value { domain_of number self.old ≡ Some result.now }
    {
        self.entries.at_mut(number, place).domain_mut()
    }

    /// How many loans the publishers of all domains in the hub may still make. At most 2^64 - 1.
    /// Example: `let loans = presences.loans_left();`
    pub fn loans_left(&self) -> u64
        ensures { result ≡ min (loans_left_in self.now) (2 ^ 64 - 1) }
    {
        let mut left = 0;
        for (_number, presence) in self.entries.iter() {
            left = add(left, presence.loans_left());
        }
        left
    }

    /// How many samples the subscribers of all domains in the hub may hold at once. At most 2^64 - 1.
    /// Example: `let samples = presences.samples_at_most();`
    pub fn samples_at_most(&self) -> u64
        ensures { result ≡ min (samples_at_most_in self.now) (2 ^ 64 - 1) }
    {
        let mut count = 0;
        for (_number, presence) in self.entries.iter() {
            count = add(count, presence.samples_at_most());
        }
        count
    }

    /// Replaces the service under this number, if one is open under it. It takes no memory.
    /// Example: `presences.replace(number, Presence::Out(agreed));`
    pub fn replace(&mut self, number: u64, presence: Presence<T, U, B, D>)
        ensures { self.new ≡ with_presence number self.old presence }
    {
        self.entries.replace(number, presence);
    }

    /// The open services, with capacity for one more number; none is open here until they are put back. It takes no memory if there is
    /// capacity. It fails only if an allocation fails, and then nothing has changed.
    pub(crate) fn lend(
        &mut self,
        alloc: Global,
    ) -> Result<RoomyByNumber<Presence<T, U, B, D>>, AllocError>
        ensures ok { IfOk result (λ lent. lent ≡ self.old) }
        ensures left { OnOk result (self.new ≡ []) }
        ensures err { OnErr result (self.new ≡ self.old) }
    {
        self.entries.lend(alloc)
    }

    /// Opens a service under this number, and drops the one that had the number. It fails only if an allocation fails, and then nothing has
    /// changed.
    /// Example: `presences.insert(alloc, number, Presence::Here(domain))?;`
    pub fn insert(
        &mut self,
        alloc: Global,
        number: u64,
        presence: Presence<T, U, B, D>,
    ) -> Result<(), AllocError>
        ensures ok { OnOk result (self.new ≡ opened number presence self.old) }
        ensures err { OnErr result (self.new ≡ self.old) }
    {
        let boxed = Box::new(alloc, presence)?;
        let lent = self.entries.lend(alloc)?;
        self.entries = lent.insert(number, boxed);
        Ok(())
    }

    /// Removes the service under this number. The other services stay.
    /// Example: `presences.remove(number);`
    pub fn remove(&mut self, number: u64)
        ensures new { self.new ≡ closed number self.old }
        ensures gone { presence_of number self.new ≡ None }
        ensures others { (other : ℕ) → (number ≡ other → ⊥) → presence_of other self.new ≡ presence_of other self.old }
    {
        self.entries.remove(number);
    }
}
