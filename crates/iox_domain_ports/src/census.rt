//! How much of each owner is alive, counted as ports change.
ghost use Rattle.std.specs.Prelude.{◌≡◌, ℕ, ◌+◌, ◌-◌, ◌<◌, ◌≤◌, ◌^◌, Option, OnOk, length, min, []};
ghost use Rattle.iox_domain_ports.specs.Census.{amount, no_share, tallied, Exchanges, HasRoomFor};
ghost use Rattle.iox_domain_ports.specs.Tallies.{IsTally};

use crate::living::counted;
use crate::tallies::Tallies;
use std::alloc::{AllocError, Global};

/// The owner of a port, and how much of the port is alive.
#[derive(Clone, Copy)]
pub struct Share {
    /// The number of its owner.
    pub owner: u64,
    /// How much of the port is alive.
    pub count: u64,
}

/// How much of each owner is alive, among the ports of one kind, so that no call has to scan these. Its memory is asked for before a port
/// comes: room for as many owners as there are ports.
///
/// A port that is handed out mutably may be changed in any way. So the port handed out last is counted as it was then, and that
/// share is noted.
#[derive(Drop)]
pub struct Census {
    // What is alive of each owner of which something is alive.
    owners: Tallies,
    // What is alive of all owners.
    total: u128,
    // The number of the port that was handed out last.
    lent: u64,
    // The share that is counted of that port.
    noted: Share,
}

impl Census {
    /// Nothing is alive. The call allocates nothing.
    pub fn new(alloc: Global) -> Self
        ensures owners { result.owners.counts ≡ [] }
        ensures total { result.total ≡ 0 }
        ensures noted { result.noted ≡ no_share }
    {
        Census {
            owners: Tallies::new(alloc),
            total: 0,
            lent: 0,
            noted: Share { owner: 0, count: 0 },
        }
    }

    /// The number of the port that was handed out last.
    pub fn lent(&self) -> u64
        ensures { result ≡ self.now.lent }
    {
        self.lent
    }

    /// Makes room for the owners of more ports than these. The call fails only if an allocation fails; the counts stay in any case.
    pub fn make_room(&mut self, ports: usize) -> Result<(), AllocError>
        ensures counts { self.new ≡ record self.old
            { owners = record { counts = self.old.owners.counts; room = self.new.owners.room } } }
        ensures room { OnOk result (ports < self.new.owners.room) }
        ensures grows { self.old.owners.room ≤ self.new.owners.room }
    {
        self.owners.make_room(ports)
    }

    // Takes a share out of the counts.
    fn take(&mut self, share: Share)
        requires { (owner : Option ℕ) → amount owner share ≤ tallied owner self.old }
        ensures takes { Exchanges share no_share self.old self.new }
        ensures sound { IsTally self.new.owners.counts }
        ensures fits { self.new.owners.room < 2 ^ 64 }
    {
        let count = self.owners.get(share.owner);
        let less = u128::from(share.count);
        self.total -= less;
        self.owners.put(share.owner, count - less);
    }

    // Adds a share to the counts.
    fn give(&mut self, share: Share)
        requires room { 0 < share.count → length self.old.owners.counts < self.old.owners.room }
        requires fits { (owner : Option ℕ) → tallied owner self.old + amount owner share < 2 ^ 128 }
        ensures { Exchanges no_share share self.old self.new }
    {
        let count = self.owners.get(share.owner);
        let more = u128::from(share.count);
        self.total += more;
        self.owners.put(share.owner, count + more);
    }

    // Counts one share in place of another.
    fn exchange(&mut self, before: Share, after: Share)
        requires { HasRoomFor before after self.old }
        ensures { Exchanges before after self.old self.new }
    {
        if before.owner == after.owner && before.count == after.count {
            return;
        }
        self.take(before);
        self.give(after);
    }

    /// Notes that the port `number`, whose share is `now`, is handed out. `before` is the current share of the port that was
    /// handed out before.
    pub fn lend(&mut self, before: Share, number: u64, now: Share)
        requires { HasRoomFor self.old.noted before self.old }
        ensures counts { (owner : Option ℕ) → tallied owner self.new + amount owner self.old.noted
            ≡ tallied owner self.old + amount owner before }
        ensures room { self.new.owners.room ≡ self.old.owners.room }
        ensures lent { self.new.lent ≡ number }
        ensures noted { self.new.noted ≡ now }
    {
        self.exchange(self.noted, before);
        self.lent = number;
        self.noted = now;
    }

    /// Counts `share` as what is alive of the port that was handed out last, in place of what was counted for it before.
    pub fn note(&mut self, share: Share)
        requires { HasRoomFor self.old.noted share self.old }
        ensures counts { (owner : Option ℕ) → tallied owner self.new + amount owner self.old.noted
            ≡ tallied owner self.old + amount owner share }
        ensures room { self.new.owners.room ≡ self.old.owners.room }
        ensures lent { self.new.lent ≡ self.old.lent }
        ensures noted { self.new.noted ≡ share }
    {
        self.exchange(self.noted, share);
        self.noted = share;
    }

    /// How much of the owner is alive, or of all owners if none is named, if the current share of the port handed out last is
    /// `now`. At most 2^64 - 1 is answered.
    pub fn told(&self, owner: Option<u64>, now: Share) -> u64
        requires { amount owner self.now.noted ≤ tallied owner self.now }
        ensures { result ≡ min (tallied owner self.now - amount owner self.now.noted + amount owner now) (2 ^ 64 - 1) }
    {
        let count = match owner {
            Some(number) => self.owners.get(number),
            None => self.total,
        };
        let noted = u128::from(counted(owner, self.noted.owner, self.noted.count));
        let more = u128::from(counted(owner, now.owner, now.count));
        let all = (count - noted).saturating_add(more);
        all.min(u128::from(u64::MAX)) as u64
    }
}
