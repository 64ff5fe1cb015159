//! A subscriber and the call that it is in.
ghost use Rattle.std.specs.Prelude.{◌≡◌, ◌<◌, ◌&&◌, true, false, length, is_some};
ghost use Rattle.iox_lanes_parties.specs.LanesBase.Subscribing.{subscriber_is_idle, subscriber_is_over};
ghost use Rattle.iox_lanes_parties.specs.LanesBase.declared.calls.subscriber.SubscriberChange.TheVariants as SubscriberChange;
ghost use Rattle.iox_lanes_parties.specs.Keeping.{changed};
ghost use Rattle.iox_lanes_parties.specs.Parties.{receiver_meets, receiver_swapped, subscriber_may, subscriber_fits, subscriber_begun};
ghost use Rattle.iox_lanes_parties.specs.Parties.{subscriber_after, subscriber_answer, words_read, place_of, route_at, is_route};
ghost use Rattle.iox_lanes_parties.specs.Parties.{is_borrowed, release_begun};

use crate::call::{Answer, Call, CallName, Move};
use crate::subscriber::LaneSubscriber;
use iox_lanes_base::calls::{Route, SubscriberCall};
use std::marker::Model;

/// A subscriber, with the call that it began last.
pub struct SubscriberLane {
    port: LaneSubscriber,
    call: CallName,
    first: u64,
}

/// Writes the drop out once, so that no crate above proves it anew.
impl Drop for SubscriberLane {
    fn drop(self) {
        let SubscriberLane {
            port: _,
            call: _,
            first: _,
        } = self;
    }
}

impl Model for SubscriberLane {
    ghost use Rattle.iox_lanes_parties.specs.Parties.{SubscriberLaneState};

    ghost Value = { SubscriberLaneState };

    ghost view = { λ l. record { port = l.port; call = l.call; first = l.first } };
}

impl SubscriberLane {
    /// A subscriber between calls.
    pub fn new(port: LaneSubscriber) -> SubscriberLane
        ensures { result ≡ record { port = port; call = CallName.Receive; first = 0 } }
    {
        SubscriberLane {
            port,
            call: CallName::Receive,
            first: 0,
        }
    }

    /// Whether the subscriber may make this move now.
    pub fn fits(&self, step: &Move) -> bool
        ensures { result ≡ subscriber_fits self.now step.now }
    {
        match step {
            Move::Begin(call) => self.port.call().is_idle() && self.may(call),
            Move::GoOn => !self.port.call().is_idle(),
        }
    }

    fn may(&self, call: &Call) -> bool
        ensures { result ≡ subscriber_may self.now call.now }
    {
        match call {
            Call::Receive => true,
            Call::Read { sample } => self.place(*sample).is_some(),
            Call::Release { sample } => self.route(*sample).is_some(),
            Call::LoanUninit | Call::Write { .. } | Call::Send { .. } | Call::DropLoan { .. } =>
                false,
        }
    }

    // The place of the connection that the sample is borrowed from.
    fn place(&self, sample: u64) -> Option<u64>
        ensures { result ≡ place_of sample self.now }
    {
        self.port.place_of(sample as usize)
    }

    // The connection that the sample is borrowed from.
    fn route(&self, sample: u64) -> Option<Route>
        ensures { result ≡ route_at (place_of sample self.now) self.now }
    {
        match self.place(sample) {
            Some(place) => self.port.route(place),
            None => None,
        }
    }

    /// Replaces the connection that has the number of `route` by `route`.
    pub fn meet(&mut self, route: Route)
        ensures { self.new ≡ receiver_meets route self.old }
    {
        self.port.meet(route);
    }

    /// The port: its connections, its samples, and the stage of its call.
    #[inline(always)]
    pub fn port(&self) -> &LaneSubscriber
        ensures { result.now ≡ self.now.port }
    {
        &self.port
    }

    /// Swaps the connections at two places.
    pub fn swap(&mut self, one: u64, other: u64)
        requires one { one < length self.old.port.routes }
        requires other { other < length self.old.port.routes }
        ensures { self.new ≡ receiver_swapped one other self.old }
    {
        self.port.swap(one, other);
    }

    /// Begins a call at this moment.
    pub fn begin(&mut self, moment: u64, call: &Call)
        requires { subscriber_fits self.old (Move.Begin call.now) ≡ true }
        ensures { self.new ≡ subscriber_begun moment call.now self.old }
    {
        match call {
            Call::Receive => {
                self.port.begin_receive();
                self.call = CallName::Receive;
                self.first = moment;
            }
            Call::Read { sample } => {
                self.port.begin_read(*sample);
                self.call = CallName::Read { sample: *sample };
                self.first = moment;
            }
            Call::Release { sample } => self.begin_release(moment, *sample),
            Call::LoanUninit | Call::Write { .. } | Call::Send { .. } | Call::DropLoan { .. } => {}
        }
    }

    fn begin_release(&mut self, moment: u64, sample: u64)
        requires { subscriber_is_idle self.old.port.call ≡ true }
        ensures { self.new ≡ release_begun moment sample (place_of sample self.old) (route_at (place_of sample self.old) self.old)
            self.old }
    {
        let Some(place) = self.place(sample) else {
            return;
        };
        let Some(route) = self.port.route(place) else {
            return;
        };
        self.port.begin_release(place, route, sample);
        self.call = CallName::Release { sample };
        self.first = moment;
    }

    /// The words that a read loaded, if the next step is the last one of that read; otherwise none.
    pub fn words_read(&self) -> &[u64]
        ensures { result.now ≡ words_read self.now.port.call self.now.port.words }
    {
        match *self.port.call() {
            SubscriberCall::WasRead { .. } => self.port.words(),
            _ => &[],
        }
    }

    /// Goes on after the answer of the next access. Returns the answer of the call if that was its last step; `from` is where the words of
    /// a read begin.
    #[inline(always)]
    pub fn go_on(&mut self, given: u64, from: usize) -> Option<Answer>
        ensures lane { self.new ≡ subscriber_after given self.old }
        ensures answer { result ≡ subscriber_answer self.old.port.call from }
        ensures ends { is_some result ≡ subscriber_is_over self.old.port.call }
    {
        let answer = answer_of(self.port.call(), from);
        self.port.take(given);
        answer
    }

    /// Sets the call to the stage `call`, and goes on after the answer of the access that comes next there.
    #[inline(always)]
    pub fn go_on_from(&mut self, call: SubscriberCall, given: u64)
        ensures { self.new ≡ subscriber_after given (record self.old { port = record self.old.port { call = call } }) }
    {
        self.port.take_from(call, given);
    }

    /// Keeps a word that was read; does nothing beyond the last word.
    pub fn note(&mut self, word: u64, value: u64)
        ensures { self.new ≡ record self.old { port = changed (SubscriberChange.Note word value) self.old.port } }
    {
        self.port.note(word, value);
    }

    /// The stage of its call.
    #[inline(always)]
    pub fn stage(&self) -> SubscriberCall
        ensures { result ≡ self.now.port.call }
    {
        *self.port.call()
    }

    /// The call that the subscriber began last.
    pub fn call(&self) -> CallName
        ensures { result ≡ self.now.call }
    {
        self.call
    }

    /// The moment of the first step of the call that the subscriber began last.
    pub fn first(&self) -> u64
        ensures { result ≡ self.now.first }
    {
        self.first
    }
}

// The answer of a subscriber's call, if its next step is its last one.
fn answer_of(call: &SubscriberCall, from: usize) -> Option<Answer>
    ensures answer { result ≡ subscriber_answer call.now from }
    ensures ends { is_some result ≡ subscriber_is_over call.now }
{
    match *call {
        SubscriberCall::Received { receipt } => Some(Answer::Received(receipt)),
        SubscriberCall::WasRead { .. } => Some(Answer::Read { from }),
        SubscriberCall::Released { done } => Some(Answer::Released(done)),
        SubscriberCall::Idle
        | SubscriberCall::Receiving { .. }
        | SubscriberCall::Reading { .. }
        | SubscriberCall::Releasing { .. } => None,
    }
}
