//! Lanes of which no party is inside a call, and no loan or sample exists.
ghost use Rattle.std.specs.Prelude.{◌≡◌, ◌<◌, ◌≤◌, ◌+◌, ℕ, true, false, IsTrue, ◌↔◌, length, IfSome, IfNone};
ghost use Rattle.std.specs.List.{All};
ghost use Rattle.iox_lanes_machine.specs.LanesBase.Publishing.{publisher_is_idle};
ghost use Rattle.iox_lanes_machine.specs.LanesBase.Subscribing.{subscriber_is_idle};
ghost use Rattle.iox_lanes_machine.specs.LanesParties.PublisherKeeping.{loan_of};
ghost use Rattle.iox_lanes_machine.specs.LanesParties.Parties.{is_out, is_borrowed, place_of};
ghost use Rattle.iox_lanes_machine.specs.Resting.{AllBetween, NoneOut, IsUnrest};

use crate::lanes::LaneMachine;
use iox_lanes_parties::{Call, Move, PublisherLane, SubscriberLane};

/// Why lanes can't be handed on: what a party is doing, or holds.
///
/// Not in `iceoryx2`.
#[derive(Clone, Copy, Debug, PartialEq, Eq)]
pub enum Unrest {
    /// A publisher or a subscriber is inside a call.
    PartyInCall,
    /// No party is inside a call, but a loan or a sample exists.
    SamplesOut,
}

// Whether no publisher of these is inside a call.
fn are_publishers_between(lanes: &[PublisherLane]) -> bool
    ensures { IsTrue result ↔ All (λ lane. publisher_is_idle lane.port.call ≡ true) lanes.now }
{
    lanes.iter().all(|lane| !lane.fits(&Move::GoOn))
}

// Whether no subscriber of these is inside a call.
fn are_subscribers_between(lanes: &[SubscriberLane]) -> bool
    ensures { IsTrue result ↔ All (λ lane. subscriber_is_idle lane.port.call ≡ true) lanes.now }
{
    lanes.iter().all(|lane| !lane.fits(&Move::GoOn))
}

// Whether the publisher has a loan, among the first `slots` slots.
fn has_loan(lane: &PublisherLane, slots: u64) -> bool
    requires { publisher_is_idle lane.now.port.call ≡ true }
    ensures none { result ≡ false → (slot : ℕ) → slot < slots → is_out (loan_of slot lane.now.port.book) ≡ false }
    ensures some { result ≡ true → (slot : ℕ) × (is_out (loan_of slot lane.now.port.book) ≡ true) }
{
    for slot in 0..slots {
        if lane.fits(&Move::Begin(Call::DropLoan { loan: slot })) {
            return true;
        }
    }
    false
}

// Whether the subscriber has a sample, among the first `slots` slots.
fn has_sample(lane: &SubscriberLane, slots: u64) -> bool
    requires { subscriber_is_idle lane.now.port.call ≡ true }
    ensures none { result ≡ false → (slot : ℕ) → slot < slots → is_borrowed (place_of slot lane.now) ≡ false }
    ensures some { result ≡ true → (slot : ℕ) × (is_borrowed (place_of slot lane.now) ≡ true) }
{
    for slot in 0..slots {
        if lane.fits(&Move::Begin(Call::Read { sample: slot })) {
            return true;
        }
    }
    false
}

// Whether one of the publishers has a loan.
fn have_loans(lanes: &[PublisherLane], slots: u64) -> bool
    requires between { All (λ lane. publisher_is_idle lane.port.call ≡ true) lanes.now }
    requires slots { All (λ lane. lane.port.book.first + length lane.port.book.loans ≤ slots) lanes.now }
    ensures none { result ≡ false → All (λ lane. (slot : ℕ) → is_out (loan_of slot lane.port.book) ≡ false) lanes.now }
    ensures some { result ≡ true → All (λ lane. (slot : ℕ) → is_out (loan_of slot lane.port.book) ≡ false) lanes.now → ⊥ }
{
    for lane in lanes {
        if has_loan(lane, slots) {
            return true;
        }
    }
    false
}

// Whether one of the subscribers has a sample.
fn have_samples(lanes: &[SubscriberLane], slots: u64) -> bool
    requires between { All (λ lane. subscriber_is_idle lane.port.call ≡ true) lanes.now }
    requires slots { All (λ lane. length lane.port.samples ≤ slots) lanes.now }
    ensures none { result ≡ false → All (λ lane. (slot : ℕ) → is_borrowed (place_of slot lane) ≡ false) lanes.now }
    ensures some { result ≡ true → All (λ lane. (slot : ℕ) → is_borrowed (place_of slot lane) ≡ false) lanes.now → ⊥ }
{
    for lane in lanes {
        if has_sample(lane, slots) {
            return true;
        }
    }
    false
}

impl LaneMachine {
    /// Why these lanes can't be handed on: a party is inside a call (`PartyInCall`); or no party is inside a call, and a loan or a sample
    /// exists (`SamplesOut`). None if all parties are between calls and no loan or sample exists.
    pub fn unrest(&self) -> Option<Unrest>
        ensures some { IfSome result (λ unrest. IsUnrest unrest self.now) }
        ensures none { IfNone result (AllBetween self.now × NoneOut self.now) }
    {
        let slots = self.table().sizes().slots;
        self.are_of_one_service();
        if !are_publishers_between(self.publishers())
            || !are_subscribers_between(self.subscribers())
        {
            return Some(Unrest::PartyInCall);
        }
        if have_loans(self.publishers(), slots) || have_samples(self.subscribers(), slots) {
            return Some(Unrest::SamplesOut);
        }
        None
    }
}
