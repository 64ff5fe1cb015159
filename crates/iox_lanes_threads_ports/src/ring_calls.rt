//! The calls of ports that are inside a pop or a push on a ring, by the stages of that pop or push.
ghost use Rattle.std.specs.Prelude.{◌≡◌, ◌<◌, ℕ};
ghost use Rattle.iox_lanes_machine.specs.LanesBase.Words.{in_ring, on_ring};
ghost use Rattle.iox_lanes_machine.specs.LanesBase.declared.words.word.ConnectionRing.TheVariants as own_ring;
ghost use Rattle.iox_lanes_machine.specs.LanesBase.declared.calls.publisher.PublisherCall.TheVariants as publishing;
ghost use Rattle.iox_lanes_machine.specs.LanesBase.declared.calls.subscriber.SubscriberCall.TheVariants as subscribing;
ghost use Rattle.iox_lanes_machine.specs.QueuesSteps.Ends.{pop_next, pop_take, push_next, push_take};
ghost use Rattle.iox_lanes_machine.specs.QueuesSteps.declared.rings.ends.Push.{Push};
ghost use Rattle.iox_lanes_machine.specs.QueuesSteps.declared.rings.ends.Push.TheVariants as ring_push;
ghost use Rattle.iox_lanes_machine.specs.QueuesSteps.declared.rings.ends.Pop.{Pop};
ghost use Rattle.iox_lanes_machine.specs.QueuesSteps.declared.rings.ends.Pop.TheVariants as ring_pop;
ghost use Rattle.iox_lanes_threads_ports.specs.declared.ring_calls.RouteRing.{RouteRing};
ghost use Rattle.iox_lanes_threads_ports.specs.Strides.{AsksWord, KeepsPositions};
ghost use Rattle.iox_lanes_threads_ports.specs.RingCalls.{AreAlike, submission_ring, completion_ring};
ghost use Rattle.iox_lanes_threads_ports.specs.RingCalls as calls;

use crate::ahead::Ahead;
use iox_lanes_base::calls::{Delivery, PublisherCall, Route, SubscriberCall};
use iox_lanes_base::words::{ConnectionRing, SharedAccess, SharedWord};
use iox_lanes_parties::{PublisherLane, SubscriberLane};
use iox_queues_steps::rings::overflowing::{Pop as OverflowingPop, Push as OverflowingPush};
use iox_queues_steps::rings::refusing::{Pop as RefusingPop, Push as RefusingPush};
use iox_queues_steps::rings::{Pop, Push};
use iox_queues_steps::{Access, End, Word};

/// A ring of a connection, and how many cells it has.
#[derive(Clone, Copy)]
pub(crate) struct RouteRing {
    connection: u64,
    ring: ConnectionRing,
    cells: u64,
}

impl RouteRing {
    #[inline(always)]
    fn submission(route: Route) -> RouteRing
        ensures { result ≡ submission_ring route }
    {
        RouteRing {
            connection: route.connection,
            ring: ConnectionRing::Submission,
            cells: route.submission_cells,
        }
    }

    #[inline(always)]
    fn completion(route: Route) -> RouteRing
        ensures { result ≡ completion_ring route }
    {
        RouteRing {
            connection: route.connection,
            ring: ConnectionRing::Completion,
            cells: route.completion_cells,
        }
    }

    /// An access to the ring as one to the shared words of its connection.
    #[inline(always)]
    pub(crate) fn access(self, access: Access) -> SharedAccess
        requires { 0 < self.cells }
        ensures { result ≡ on_ring self.connection self.ring self.cells access }
    {
        match access {
            Access::Load(word) => SharedAccess::Load(self.word(word)),
            Access::Store(word, new) => SharedAccess::Store(self.word(word), new),
            Access::Exchange(word, old, new) => SharedAccess::Exchange(self.word(word), old, new),
            Access::Local => SharedAccess::Local,
        }
    }

    // A word of the ring as a shared word of its connection; positions go round its cells.
    #[inline(always)]
    fn word(self, word: Word) -> SharedWord
        requires { 0 < self.cells }
        ensures { result ≡ in_ring self.connection self.ring self.cells word }
    {
        let word = match word {
            Word::Write => Word::Write,
            Word::Read => Word::Read,
            Word::Cell(position) => Word::Cell(position % self.cells),
        };
        SharedWord::Ring {
            connection: self.connection,
            ring: self.ring,
            word,
        }
    }
}

/// A push on a ring of one kind.
pub(crate) trait IntoPush: End {
    // the same push on a ring of either kind
    ghost push: { Self → Push };

    /// The same push on a ring of either kind.
    fn push(self) -> Push
        ensures { result ≡ push self };

    // both make the same steps
    ghost alike: { AreAlike push Self.asks Self.takes push_next push_take };
}

impl IntoPush for RefusingPush {
    ghost push = { λ state. ring_push.Refusing state };

    #[inline(always)]
    fn push(self) -> Push {
        Push::Refusing(self)
    }

    ghost alike = { calls.refusing_pushes };
}

impl IntoPush for OverflowingPush {
    ghost push = { λ state. ring_push.Overflowing state };

    #[inline(always)]
    fn push(self) -> Push {
        Push::Overflowing(self)
    }

    ghost alike = { calls.overflowing_pushes };
}

/// A pop on a ring of one kind.
pub(crate) trait IntoPop: End {
    // the same pop on a ring of either kind
    ghost pop: { Self → Pop };

    /// The same pop on a ring of either kind.
    fn pop(self) -> Pop
        ensures { result ≡ pop self };

    // both make the same steps
    ghost alike: { AreAlike pop Self.asks Self.takes pop_next pop_take };
}

impl IntoPop for RefusingPop {
    ghost pop = { λ state. ring_pop.Refusing state };

    #[inline(always)]
    fn pop(self) -> Pop {
        Pop::Refusing(self)
    }

    ghost alike = { calls.refusing_pops };
}

impl IntoPop for OverflowingPop {
    ghost pop = { λ state. ring_pop.Overflowing state };

    #[inline(always)]
    fn pop(self) -> Pop {
        Pop::Overflowing(self)
    }

    ghost alike = { calls.overflowing_pops };
}

/// A call of a lane inside a pop or a push on a ring.
pub(crate) trait RingCall<L: Ahead, S: End>: Copy {
    // the stage of the call at this stage of the pop or push
    ghost stage: { Self → S → L.Call };

    // the ring
    ghost ring: { Self → RouteRing };

    /// The stage of the call at this stage of the pop or push.
    fn stage(self, state: S) -> L::Call
        ensures { result ≡ stage self state };

    /// The ring on which the call pops or pushes.
    fn ring(self) -> RouteRing
        ensures { result ≡ ring self };

    // the call makes the accesses of the pop or push, on its ring
    ghost accesses: { (call : Self) (state : S)
        → L.kind.next (stage call state) ≡ on_ring (ring call).connection (ring call).ring (ring call).cells (S.asks state) };

    // until the pop or push asks for no more words, or moves a position, an answer takes the call from one of its stages to the next
    ghost goes_on: { (lane : L) (call : Self) (state : S) (answer : ℕ) → KeepsPositions (S.asks state)
        → AsksWord (S.asks (S.takes state answer))
        → L.kind.after answer (L.kind.called (stage call state) lane) ≡ L.kind.called (stage call (S.takes state answer)) lane };
}

/// A loan that takes samples back at a connection.
#[derive(Clone, Copy)]
pub(crate) struct LoanReclaims {
    pub(crate) place: u64,
    pub(crate) route: Route,
}

impl RingCall<PublisherLane, RefusingPop> for LoanReclaims {
    ghost use Rattle.std.proofs.Common.{refl};

    ghost stage = { λ call pop. publishing.LoanReclaims call.place call.route pop };

    ghost ring = { λ call. completion_ring call.route };

    #[inline(always)]
    fn stage(self, pop: RefusingPop) -> PublisherCall {
        let LoanReclaims { place, route } = self;
        PublisherCall::LoanReclaims { place, route, pop }
    }

    #[inline(always)]
    fn ring(self) -> RouteRing {
        RouteRing::completion(self.route)
    }

    ghost accesses = { λ call pop. refl };

    ghost goes_on = { λ lane call pop answer keeps asks. calls.loan_goes_on lane call.place call.route pop answer asks };
}

/// A send that takes samples back at a connection.
#[derive(Clone, Copy)]
pub(crate) struct SendReclaims {
    pub(crate) slot: u64,
    pub(crate) place: u64,
    pub(crate) route: Route,
}

impl RingCall<PublisherLane, RefusingPop> for SendReclaims {
    ghost use Rattle.std.proofs.Common.{refl};

    ghost stage = { λ call pop. publishing.SendReclaims call.slot call.place call.route pop };

    ghost ring = { λ call. completion_ring call.route };

    #[inline(always)]
    fn stage(self, pop: RefusingPop) -> PublisherCall {
        let SendReclaims { slot, place, route } = self;
        PublisherCall::SendReclaims {
            slot,
            place,
            route,
            pop,
        }
    }

    #[inline(always)]
    fn ring(self) -> RouteRing {
        RouteRing::completion(self.route)
    }

    ghost accesses = { λ call pop. refl };

    ghost goes_on = { λ lane call pop answer keeps asks. calls.sweep_goes_on lane call.slot call.place call.route pop answer asks };
}

/// A send that pushes at a connection.
#[derive(Clone, Copy)]
pub(crate) struct Pushes {
    pub(crate) slot: u64,
    pub(crate) place: u64,
    pub(crate) route: Route,
    pub(crate) delivery: Delivery,
}

impl<P: IntoPush> RingCall<PublisherLane, P> for Pushes {
    ghost use Rattle.std.proofs.Common.{ap};

    ghost stage = { λ call push. publishing.Pushing call.slot call.place call.route (P.push push) call.delivery };

    ghost ring = { λ call. submission_ring call.route };

    #[inline(always)]
    fn stage(self, push: P) -> PublisherCall {
        let Pushes {
            slot,
            place,
            route,
            delivery,
        } = self;
        PublisherCall::Pushing {
            slot,
            place,
            route,
            push: push.push(),
            delivery,
        }
    }

    #[inline(always)]
    fn ring(self) -> RouteRing {
        RouteRing::submission(self.route)
    }

    ghost accesses = { λ call push.
        ap (on_ring call.route.connection own_ring.Submission call.route.submission_cells) (P.alike.asks_alike push) };

    ghost goes_on = { λ lane call push answer keeps asks.
        calls.push_goes_on P.alike lane call.slot call.place call.route call.delivery push answer keeps asks };
}

/// A receive that pops at a connection.
#[derive(Clone, Copy)]
pub(crate) struct Receives {
    pub(crate) place: u64,
    pub(crate) route: Route,
    pub(crate) waits: bool,
}

impl<P: IntoPop> RingCall<SubscriberLane, P> for Receives {
    ghost use Rattle.std.proofs.Common.{ap};

    ghost stage = { λ call pop. subscribing.Receiving call.place call.route (P.pop pop) call.waits };

    ghost ring = { λ call. submission_ring call.route };

    #[inline(always)]
    fn stage(self, pop: P) -> SubscriberCall {
        let Receives {
            place,
            route,
            waits,
        } = self;
        SubscriberCall::Receiving {
            place,
            route,
            pop: pop.pop(),
            waits,
        }
    }

    #[inline(always)]
    fn ring(self) -> RouteRing {
        RouteRing::submission(self.route)
    }

    ghost accesses = { λ call pop.
        ap (on_ring call.route.connection own_ring.Submission call.route.submission_cells) (P.alike.asks_alike pop) };

    ghost goes_on = { λ lane call pop answer keeps asks.
        calls.pop_goes_on P.alike lane call.place call.route call.waits pop answer asks };
}

/// A release that pushes at a connection.
#[derive(Clone, Copy)]
pub(crate) struct Releases {
    pub(crate) place: u64,
    pub(crate) route: Route,
}

impl RingCall<SubscriberLane, RefusingPush> for Releases {
    ghost use Rattle.std.proofs.Common.{refl};

    ghost stage = { λ call push. subscribing.Releasing call.place call.route push };

    ghost ring = { λ call. completion_ring call.route };

    #[inline(always)]
    fn stage(self, push: RefusingPush) -> SubscriberCall {
        let Releases { place, route } = self;
        SubscriberCall::Releasing { place, route, push }
    }

    #[inline(always)]
    fn ring(self) -> RouteRing {
        RouteRing::completion(self.route)
    }

    ghost accesses = { λ call push. refl };

    ghost goes_on = { λ lane call push answer keeps asks. calls.release_goes_on lane call.place call.route push answer keeps asks };
}
