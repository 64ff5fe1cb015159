//! The subscribers of a service by their numbers.
ghost use Rattle.std.specs.Prelude.{◌≡◌, ◌-◌, ◌^◌, length, min, option_copied, OnOk, OnErr, []};
ghost use Rattle.std.specs.Borrow.{sem};
ghost use Rattle.std.specs.Map.Iter.{ShowsInOrder, deref_pair};
ghost use Rattle.std.specs.Option.{option_copied_mut};
ghost use Rattle.iox_domain_ports.specs.Census.{IsCensusOf, subscriber_share, share_at};
ghost use Rattle.iox_domain.specs.Living.{living_subscribers};
ghost use Rattle.iox_domain.specs.Subscribers.{subscriber_of, with_subscriber, subscriber_added, is_over_in, settled};

use iox_container::ByNumber;
use iox_container::by_number::iter::Iter;
use iox_domain_ports::living::living_of_subscriber;
use iox_domain_ports::{Census, Share, SubscriberPort};
use std::alloc::{AllocError, Global};
use std::marker::Model;

/// The subscribers of a service. A closed one stays until all samples that it received are released.
///
/// Contracts see each subscriber with its number, by rising number.
#[derive(Drop)]
pub struct Subscribers {
    ports: ByNumber<SubscriberPort>,
    // How much of each owner is alive.
    census: Census,
}

impl Model for Subscribers {
    ghost use Rattle.std.specs.Prelude.{ℕ, List};
    ghost use Rattle.iox_domain_ports.specs.declared.subscriber_port.SubscriberPort.{SubscriberPort};
    ghost use Rattle.iox_domain_ports.specs.Census.{IsCensusOf, subscriber_share};

    ghost Value = { List (ℕ × SubscriberPort) };

    ghost view = { λ s. s.ports };

    ghost invariant = { λ s. IsCensusOf subscriber_share s.census s.ports };
}

impl Subscribers {
    ghost use Rattle.std.specs.Prelude.{ℕ};
    ghost use Rattle.iox_domain_ports.specs.declared.subscriber_port.SubscriberPort.{SubscriberPort};
    ghost use Rattle.iox_domain.specs.SubscribersLends.{LendsSubscriber};

    /// No subscribers.
    pub fn new(alloc: Global) -> Self
        ensures { result ≡ [] }
    {
        Subscribers {
            ports: ByNumber::new(alloc),
            census: Census::new(alloc),
        }
    }

    /// The subscriber with this number, if it exists.
    pub fn get(&self, number: u64) -> Option<&SubscriberPort>
        ensures { option_copied result ≡ subscriber_of number self.now }
    {
        self.ports.get(number)
    }

    /// A mutable reference to the subscriber with this number, if it exists.
    pub fn get_mut(&mut self, number: u64) -> Option<&mut SubscriberPort>
        ensures* writes_back { sem 𝓛 (LendsSubscriber self.entry number result) }
        ensures value { option_copied_mut result ≡ subscriber_of number self.old }
    {
        note_lent(&mut self.census, &self.ports, number);
        self.ports.get_mut(number)
    }

    /// How many subscribers there are, closed ones too.
    pub fn len(&self) -> usize
        ensures { result ≡ length self.now }
    {
        self.ports.len()
    }

    /// The subscribers with their numbers, by rising number.
    pub fn iter(&self) -> Iter<'_, SubscriberPort>
        ensures rest { result ≡ self.now }
        ensures runs { ShowsInOrder (deref_pair {K = ℕ} {X = SubscriberPort}) }
    {
        self.ports.iter()
    }

    /// Adds a subscriber under this number, in place of one that had it. The call fails only if an allocation fails; then
    /// nothing has changed.
    pub fn insert(&mut self, number: u64, port: SubscriberPort) -> Result<(), AllocError>
        ensures ok { OnOk result (self.new ≡ subscriber_added number port self.old) }
        ensures err { OnErr result (self.new ≡ self.old) }
    {
        note_lent(&mut self.census, &self.ports, number);
        self.census.make_room(self.ports.len())?;
        let share = share_of(&port);
        let before = self.ports.insert(number, port)?;
        drop(before);
        self.census.note(share);
        Ok(())
    }

    /// Removes the subscriber with this number if it is over: it is closed and holds no sample.
    pub fn settle(&mut self, number: u64)
        ensures { self.new ≡ settled number self.old }
    {
        if self.is_over(number) {
            note_lent(&mut self.census, &self.ports, number);
            self.ports.remove(number);
            self.census.note(Share { owner: 0, count: 0 });
        }
    }

    /// How much of the subscribers of the owner is alive, or of all subscribers if no owner is named: open subscribers, and
    /// held samples. At most 2^64 - 1 is answered.
    pub fn living(&self, owner: Option<u64>) -> u64
        ensures { result ≡ min (living_subscribers owner self.now) (2 ^ 64 - 1) }
    {
        let now = share_in(&self.ports, self.census.lent());
        self.census.told(owner, now)
    }

    // Whether the subscriber with this number is over.
    fn is_over(&self, number: u64) -> bool
        ensures { result ≡ is_over_in number self.now }
    {
        match self.get(number) {
            Some(port) => !port.stands && port.held == 0,
            None => false,
        }
    }
}

// The share of a subscriber.
fn share_of(port: &SubscriberPort) -> Share
    ensures { result ≡ subscriber_share port.now }
{
    Share {
        owner: port.owner.number,
        count: living_of_subscriber(port),
    }
}

// The share of the subscriber with this number, or `no_share` if there is none.
fn share_in(ports: &ByNumber<SubscriberPort>, number: u64) -> Share
    ensures { result ≡ share_at subscriber_share (subscriber_of number ports.now) }
{
    match ports.get(number) {
        Some(port) => share_of(port),
        None => Share { owner: 0, count: 0 },
    }
}

// Notes that a subscriber is handed out. The current share of the one handed out before is counted.
fn note_lent(census: &mut Census, ports: &ByNumber<SubscriberPort>, number: u64)
    requires { IsCensusOf subscriber_share census.old ports.now }
    ensures tells { IsCensusOf subscriber_share census.new ports.now }
    ensures lent { census.new.lent ≡ number }
    ensures room { census.new.owners.room ≡ census.old.owners.room }
{
    if census.lent() != number {
        note_another(census, ports, number);
    }
}

// The same where another subscriber was handed out before.
#[inline(never)]
fn note_another(census: &mut Census, ports: &ByNumber<SubscriberPort>, number: u64)
    requires { IsCensusOf subscriber_share census.old ports.now }
    ensures tells { IsCensusOf subscriber_share census.new ports.now }
    ensures lent { census.new.lent ≡ number }
    ensures room { census.new.owners.room ≡ census.old.owners.room }
{
    let lent = census.lent();
    let before = share_in(ports, lent);
    let now = share_in(ports, number);
    census.lend(before, number, now);
}
