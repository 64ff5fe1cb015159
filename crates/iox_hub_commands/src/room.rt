//! Capacity for the numbers of loans and samples, which is made when a port is created.
ghost use Rattle.std.specs.Prelude.{◌≡◌, ◌+◌, ◌-◌, ◌^◌, ◌≤◌, ◌<◌, length, min, max, IfSome, IfNone, IsSome, IfOk, IsOk, OnOk, OnErr};
ghost use Rattle.iox_hub_commands.specs.Tables.{SameNumbers};
ghost use Rattle.iox_hub_base.specs.Room.{loans_left_in, samples_left_in, samples_at_most_in};
ghost use Rattle.iox_hub_commands.specs.PortRoom.{FitsBeside, GrowsTwice, Pledges, HasLoanRoom, HasSampleRoom, KeepsRoom, most_samples_at};
ghost use Rattle.iox_hub_commands.specs.PortRoom.{most_samples_from, GrowsFor};
ghost use Rattle.iox_hub_commands.specs.Room.{FitsMore, OnlyRoomier};

use crate::numbered_hub::NumberedHub;
use iox_container::by_number::Numbered;
use iox_domain::allowances::samples::{held_by_one, held_of_one};
use iox_domain::{DomainId, calls};
use iox_domain_values::{Decides, Degrades};
use std::alloc::AllocError;

/// How many numbers of loans and of samples are reserved: enough for those in use and for all that the open ports may still need. Creating
/// a port reserves what the port may need. Closing a publisher gives back what it could still have loaned. What else closed ports had
/// reserved is given back only when all ports are counted anew, since the capacity doesn't suffice for a new port.
///
/// Not in `iceoryx2`.
#[derive(Clone, Copy)]
pub struct Pledged {
    /// The reserved numbers of loans.
    pub loans: u64,
    /// The reserved numbers of samples.
    pub samples: u64,
}

// Makes capacity in a table for this many more values.
#[tactic(auto, using(crate::proofs::Reserved::grows_to, crate::proofs::Reserved::stays_within))]
fn room_for<V>(numbers: &mut Numbered<V>, more: usize) -> Result<(), AllocError>
    ensures same { SameNumbers numbers.old numbers.new }
    ensures room { OnOk result (FitsMore more numbers.new) }
    ensures small { OnOk result (length numbers.new.entries + more < 2 ^ 64) }
    ensures grows { numbers.new.room ≤ max numbers.old.room (length numbers.old.entries + more) }
    ensures enough { FitsMore more numbers.old → IsOk result }
{
    if more <= numbers.room() - numbers.len() {
        return Ok(());
    }
    let room = numbers.len().checked_add(more).ok_or(AllocError)?;
    numbers.reserve(room)
}

// Makes capacity in a table for `left + more` more values, and for one besides: so the table isn't full when they are added, and none of
// them needs an allocation. Fails only if there isn't enough capacity already, and an allocation fails.
#[tactic(auto, using(crate::proofs::Reserved::stays_within))]
fn room_beside<V>(numbers: &mut Numbered<V>, left: u64, more: u64) -> Result<(), AllocError>
    ensures same { SameNumbers numbers.old numbers.new }
    ensures room { OnOk result (FitsBeside (left + more) numbers.new) }
    ensures small { OnOk result (length numbers.new.entries + (left + more) + 1 < 2 ^ 64) }
    ensures grows { numbers.new.room ≤ max numbers.old.room (length numbers.old.entries + (left + more) + 1) }
    ensures enough { FitsBeside (left + more) numbers.old → IsOk result }
{
    let spare = (numbers.room() - numbers.len()) as u64;
    if left < spare && more < spare - left {
        return Ok(());
    }
    let wanted = left.checked_add(more).ok_or(AllocError)?;
    let beside = wanted.checked_add(1).ok_or(AllocError)?;
    room_for(numbers, beside as usize)
}

// Twice as many values as the table's entries and `left + more` further ones, and `beside` more. At most 2^64 - 1.
fn ample_room<V>(numbers: &Numbered<V>, left: u64, more: u64, beside: usize) -> usize
    ensures { let reserved = length numbers.now.entries + left + more in result ≤ reserved + reserved + beside }
{
    let reserved = (numbers.len() as u64)
        .saturating_add(left)
        .saturating_add(more);
    reserved.saturating_mul(2).saturating_add(beside as u64) as usize
}

// How many numbers of a table are reserved after this many more are, if nothing has to be counted for that: there is capacity for all of
// these and for one besides, or capacity for twice as many as the table's entries and the new ones, and for one more for each factory, is
// that much, and is made. None, and nothing has changed, if it isn't, or if an allocation fails.
//
// So a count of all ports comes after more numbers were reserved than there are factories since the last one.
#[tactic(auto, using(crate::proofs::Reserved::grows_nowhere, crate::proofs::Reserved::grows_to))]
fn pledged_more<V>(
    numbers: &mut Numbered<V>,
    pledged: u64,
    more: u64,
    factories: usize,
) -> Option<u64>
    ensures same { SameNumbers numbers.old numbers.new }
    ensures some { IfSome result (λ all. (all ≡ pledged + more) × (all < numbers.new.room) × (all + 1 < 2 ^ 64)) }
    ensures fits { pledged + more < numbers.old.room → IsSome result × (numbers.new ≡ numbers.old) }
    ensures none { IfNone result (numbers.new ≡ numbers.old) }
    ensures grows { GrowsTwice (length numbers.old.entries + more) factories numbers.old numbers.new }
{
    let room = numbers.room() as u64;
    let all = pledged.checked_add(more)?;
    if all < room {
        return Some(all);
    }
    let ample = ample_room(numbers, 0, more, factories);
    if ample as u64 <= all {
        return None;
    }
    numbers.reserve(ample).ok()?;
    Some(all)
}

// Makes capacity in a table for twice as many values as its entries and `left + more` further ones, and for `beside` more, if there is
// memory.
#[tactic(auto, using(crate::proofs::Reserved::grows_to))]
fn make_ample<V>(numbers: &mut Numbered<V>, left: u64, more: u64, beside: usize)
    ensures same { SameNumbers numbers.old numbers.new }
    ensures grows { GrowsTwice (length numbers.old.entries + left + more) beside numbers.old numbers.new }
{
    let _ = numbers.reserve(ample_room(numbers, left, more, beside));
}

// Reserves the numbers of a table anew: those of its entries, of `left` values that may still be added, and of `more` further ones. It
// makes capacity for these, and for one besides. If there is memory, it makes twice as much, and one more for each factory, so it is seldom
// called.
#[tactic(auto, using(crate::proofs::Reserved::grows_twice))]
fn pledged_anew<V>(
    numbers: &mut Numbered<V>,
    left: u64,
    more: u64,
    factories: usize,
) -> Result<u64, AllocError>
    ensures same { SameNumbers numbers.old numbers.new }
    ensures room { IfOk result (λ all. Pledges (left + more) all numbers.new) }
    ensures small { OnOk result (left + more + 1 < 2 ^ 64) }
    ensures grows { GrowsTwice (length numbers.old.entries + left + more) (factories + 1) numbers.old numbers.new }
    ensures enough { FitsBeside (left + more) numbers.old → IsOk result }
{
    make_ample(numbers, left, more, factories);
    room_beside(numbers, left, more)?;
    Ok(numbers.len() as u64 + left + more)
}

impl<T: Copy, U: Copy, B: Drop, D: Drop> NumberedHub<T, U, B, D> {
    /// Reserves the numbers of this many more loans, beside the loans that exist and all that the publishers may still make; and makes
    /// capacity for them, and for one besides. The capacity grows at most to twice as many as all these, plus one for each factory, and one
    /// more. Fails only if there isn't enough capacity already, and an allocation fails.
    ///
    /// It scans all publishers only if there is no capacity for the numbers reserved so far and for these, and these are at least as
    /// many as the factories; or if an allocation fails.
    /// Example: `hub.pledge_loans(2)?;`
    #[tactic(auto, using(crate::proofs::Reserved::grows_as_more, crate::proofs::Reserved::grows_as_left))]
    pub fn pledge_loans(&mut self, more: u64) -> Result<(), AllocError>
        ensures same { OnlyRoomier self.old self.new }
        ensures samples { self.new.pledged.samples ≡ self.old.pledged.samples }
        ensures samples_stay { self.new.made.samples ≡ self.old.made.samples }
        ensures room { HasLoanRoom self.old → OnOk result
            (Pledges (loans_left_in self.old.hub.services.domains + more) self.new.pledged.loans self.new.made.loans) }
        ensures stays { OnErr result (self.new.pledged ≡ self.old.pledged) }
        ensures grows { GrowsTwice (length self.old.made.loans.entries + loans_left_in self.old.hub.services.domains + more)
            (length self.old.factories.made.entries + 1) self.old.made.loans self.new.made.loans }
        ensures enough { FitsBeside (loans_left_in self.old.hub.services.domains + more) self.old.made.loans → IsOk result }
    {
        let factories = self.factories.made.len();
        if let Some(pledged) = pledged_more(
            &mut self.made.loans,
            self.pledged.loans,
            more,
            factories,
        ) {
            self.pledged.loans = pledged;
            return Ok(());
        }
        let left = self.hub.loans_left();
        self.pledged.loans = pledged_anew(&mut self.made.loans, left, more, factories)?;
        Ok(())
    }

    /// Reserves the numbers of this many more samples, beside those that are held and all that may still be received; and makes capacity
    /// for them, and for one besides. The capacity grows at most to twice as many as those that are held, those that the subscribers may
    /// hold at once, and these, plus one for each factory, and one more. Fails only if there isn't capacity for as many as the subscribers
    /// may hold at once, and an allocation fails.
    ///
    /// It scans all subscribers only if there is no capacity for the numbers reserved so far and for these, and these are at least as
    /// many as the factories; or if an allocation fails.
    /// Example: `hub.pledge_samples(2)?;`
    #[tactic(auto, using(crate::proofs::Reserved::grows_as_more, crate::proofs::Reserved::grows_as_left))]
    pub fn pledge_samples(&mut self, more: u64) -> Result<(), AllocError>
        ensures same { OnlyRoomier self.old self.new }
        ensures loans { self.new.pledged.loans ≡ self.old.pledged.loans }
        ensures loans_stay { self.new.made.loans ≡ self.old.made.loans }
        ensures room { HasSampleRoom self.old → OnOk result
            (Pledges (samples_left_in self.old.hub.services.domains + more) self.new.pledged.samples self.new.made.samples) }
        ensures small { OnOk result (more + 1 < 2 ^ 64) }
        ensures stays { OnErr result (self.new.pledged ≡ self.old.pledged) }
        ensures grows { GrowsTwice (length self.old.made.samples.entries + samples_at_most_in self.old.hub.services.domains + more)
            (length self.old.factories.made.entries + 1) self.old.made.samples self.new.made.samples }
        ensures enough { FitsBeside (samples_at_most_in self.old.hub.services.domains + more) self.old.made.samples → IsOk result }
    {
        let factories = self.factories.made.len();
        if let Some(pledged) = pledged_more(
            &mut self.made.samples,
            self.pledged.samples,
            more,
            factories,
        ) {
            self.pledged.samples = pledged;
            return Ok(());
        }
        let most = self.hub.samples_at_most();
        self.pledged.samples = pledged_anew(&mut self.made.samples, most, more, factories)?;
        Ok(())
    }
}

impl<T: Copy, U: Copy, B: Decides + Degrades, D: Degrades> NumberedHub<T, U, B, D> {
    /// How many samples of the existing publishers a new subscriber of a domain may hold at once; 0 if the domain isn't in the hub. At most
    /// 2^64 - 1.
    /// Example: `let most = hub.most_samples(domain);`
    pub fn most_samples(&self, domain: DomainId) -> u64
        ensures { result ≡ min (most_samples_at domain self.now) (2 ^ 64 - 1) }
    {
        match calls::ports(&self.hub, domain) {
            Some(ports) => held_by_one(ports),
            None => 0,
        }
    }

    /// How many samples of a new publisher of a domain the existing subscribers may hold at once; 0 if the domain isn't in the hub. At most
    /// 2^64 - 1.
    /// Example: `let most = hub.most_samples_of(domain);`
    pub fn most_samples_of(&self, domain: DomainId) -> u64
        ensures { result ≡ min (most_samples_from domain self.now) (2 ^ 64 - 1) }
    {
        match calls::ports(&self.hub, domain) {
            Some(ports) => held_of_one(ports),
            None => 0,
        }
    }

    /// Reserves the numbers that a new publisher of a domain may need: one for each of its loans, and one for each sample of its messages
    /// that may be held at once. The capacity grows as they say.
    /// Fails as `pledge_loans` and `pledge_samples` do.
    /// Example: `hub.pledge_for_publisher(domain, 2)?;`
    pub fn pledge_for_publisher(&mut self, domain: DomainId, loans: u64) -> Result<(), AllocError>
        ensures same { OnlyRoomier self.old self.new }
        ensures keeps { KeepsRoom self.old self.new }
        ensures loans { HasLoanRoom self.old → OnOk result
            (Pledges (loans_left_in self.old.hub.services.domains + loans) self.new.pledged.loans self.new.made.loans) }
        ensures samples { HasSampleRoom self.old → OnOk result
            (Pledges (samples_left_in self.old.hub.services.domains + most_samples_from domain self.old) self.new.pledged.samples
            self.new.made.samples) }
        ensures grows { GrowsFor loans (most_samples_from domain self.old) self.old self.new }
    {
        self.pledge_loans(loans)?;
        self.pledge_samples(self.most_samples_of(domain))
    }
}
