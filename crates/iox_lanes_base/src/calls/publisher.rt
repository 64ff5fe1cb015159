//! The calls of a publisher.
ghost use Rattle.std.specs.Prelude.{◌≡◌};
ghost use Rattle.iox_lanes_base.specs.Answers.{refusing_pop_answer};
ghost use Rattle.iox_lanes_base.specs.Publishing.{publisher_next, publisher_take, publisher_change, publisher_is_idle, publisher_is_over};
ghost use Rattle.iox_lanes_base.specs.Publishing.{header_word, loan_at, write_at, head_at, sweep_at, push_at, counted, taken_back};
ghost use Rattle.iox_lanes_base.specs.Publishing.{push_change};

use crate::calls::answers::{push_answer, refusing_pop_answer};
use crate::calls::route::Route;
use crate::words::{ConnectionRing, SharedAccess, SharedWord, SlotWord};
use iox_queues_steps::rings::Push;
use iox_queues_steps::rings::overflowing::Push as OverflowingPush;
use iox_queues_steps::rings::refusing::{Pop as RefusingPop, Push as RefusingPush};
use iox_queues_steps::{End, PopAnswer, PushAnswer};

/// How many connections took or refused a message so far.
#[derive(Clone, Copy, Debug, PartialEq, Eq)]
pub struct Delivery {
    /// How many connections took it.
    pub taken: u64,
    /// How many connections were full and refused it.
    pub refused: u64,
}

/// The stage of a publisher's call. A place is one in the publisher's list of connections.
#[derive(Clone, Copy)]
pub enum PublisherCall {
    /// No call is in progress.
    Idle,
    /// A loan takes back the samples that came back at this connection.
    LoanReclaims {
        place: u64,
        route: Route,
        pop: RefusingPop,
    },
    /// A loan is about to look for a free slot, which is its last step.
    Lending,
    /// A write is about to store this word of the payload.
    Writing {
        slot: u64,
        word: u64,
        value: u64,
    },
    /// A write is about to end.
    Written {
        slot: u64,
    },
    /// A send is about to store this word of header and user header.
    Heading {
        slot: u64,
        word: u64,
        value: u64,
    },
    /// A send is about to make its message the newest of the history.
    Remembering {
        slot: u64,
    },
    /// A send takes back the samples that came back at this connection.
    SendReclaims {
        slot: u64,
        place: u64,
        route: Route,
        pop: RefusingPop,
    },
    /// A send puts its message into the submission ring of this connection.
    Pushing {
        slot: u64,
        place: u64,
        route: Route,
        push: Push,
        delivery: Delivery,
    },
    /// A send is about to end.
    Sent {
        slot: u64,
        delivery: Delivery,
    },
    /// A loan is about to be dropped.
    Dropping {
        slot: u64,
    },
}

/// What a step changes of what a publisher keeps for itself.
#[derive(Clone, Copy)]
pub enum PublisherChange {
    /// Nothing changes.
    Nothing,
    /// A free slot is loaned, if there is one and the publisher is below its loan limit.
    Lend,
    /// The loan of this slot is written.
    Mark { slot: u64 },
    /// The loan of this slot becomes the newest message of the history.
    Remember { slot: u64 },
    /// The slot came back from the connection at this place.
    TakenBack { place: u64, slot: u64 },
    /// The slot was put into the ring of the connection at this place.
    Put { place: u64, slot: u64 },
    /// The oldest slot of the ring of the connection at this place was dropped.
    LeftOut { place: u64, slot: u64 },
    /// The loan of this slot is dropped.
    DropLoan { slot: u64 },
}

impl PublisherCall {
    /// The first stage of a loan over these connections.
    pub fn loan(routes: &[Route]) -> PublisherCall
        ensures { result ≡ loan_at routes.now 0 }
    {
        loan_at(routes, 0)
    }

    /// The first stage of a write of these words into the slot of a loan.
    pub fn write(words: &[u64], slot: u64) -> PublisherCall
        ensures { result ≡ write_at words.now slot 0 }
    {
        write_at(words, slot, 0)
    }

    /// The first stage of a send of a loan's slot, which stores these words of header and user header.
    pub fn send(words: &[u64], slot: u64) -> PublisherCall
        ensures { result ≡ head_at words.now slot 0 }
    {
        head_at(words, slot, 0)
    }

    /// The first stage of dropping the loan of a slot.
    pub fn drop_loan(slot: u64) -> PublisherCall
        ensures { result ≡ PublisherCall.Dropping slot }
    {
        PublisherCall::Dropping { slot }
    }

    /// The access that comes next.
    pub fn next(&self) -> SharedAccess
        ensures { result ≡ publisher_next self.now }
    {
        match *self {
            PublisherCall::LoanReclaims { route, pop, .. }
            | PublisherCall::SendReclaims { route, pop, .. } => SharedAccess::on_ring(
                route.connection,
                ConnectionRing::Completion,
                route.completion_cells,
                pop.next(),
            ),
            PublisherCall::Pushing { route, push, .. } => SharedAccess::on_ring(
                route.connection,
                ConnectionRing::Submission,
                route.submission_cells,
                push.next(),
            ),
            PublisherCall::Writing { slot, word, value } => {
                let word = SlotWord::Payload(word);
                SharedAccess::Store(SharedWord::Slot { slot, word }, value)
            }
            PublisherCall::Heading { slot, word, value } => {
                let word = header_word(word);
                SharedAccess::Store(SharedWord::Slot { slot, word }, value)
            }
            PublisherCall::Idle
            | PublisherCall::Lending
            | PublisherCall::Written { .. }
            | PublisherCall::Remembering { .. }
            | PublisherCall::Sent { .. }
            | PublisherCall::Dropping { .. } => SharedAccess::Local,
        }
    }

    /// Goes on after the answer of that access, and returns what it changes of what the publisher keeps for itself. `routes` are the
    /// publisher's connections, `words` the words that a write or a send stores.
    #[inline(always)]
    pub fn take(&mut self, answer: u64, routes: &[Route], words: &[u64]) -> PublisherChange
        ensures call { self.new ≡ publisher_take routes.now words.now self.old answer }
        ensures change { result ≡ publisher_change self.old answer }
    {
        match self {
            PublisherCall::LoanReclaims { place, pop, .. } => {
                let place = *place;
                let taken = pop.take(answer);
                match refusing_pop_answer(&taken) {
                    None => *pop = taken,
                    Some(PopAnswer::Got(Some(_))) => *pop = RefusingPop::begin(),
                    Some(PopAnswer::Got(None) | PopAnswer::Saw(_)) => {
                        *self = loan_at(routes, place.saturating_add(1));
                    }
                }
                taken_back(place, taken)
            }
            PublisherCall::Lending => {
                *self = PublisherCall::Idle;
                PublisherChange::Lend
            }
            PublisherCall::Writing { slot, word, .. } => {
                *self = write_at(words, *slot, word.saturating_add(1));
                PublisherChange::Nothing
            }
            PublisherCall::Written { slot } => {
                let slot = *slot;
                *self = PublisherCall::Idle;
                PublisherChange::Mark { slot }
            }
            PublisherCall::Heading { slot, word, .. } => {
                *self = head_at(words, *slot, word.saturating_add(1));
                PublisherChange::Nothing
            }
            PublisherCall::Remembering { slot } => {
                let slot = *slot;
                *self = sweep_at(routes, slot, 0);
                PublisherChange::Remember { slot }
            }
            PublisherCall::SendReclaims {
                slot,
                place,
                pop,
                ..
            } => {
                let (slot, place) = (*slot, *place);
                let taken = pop.take(answer);
                match refusing_pop_answer(&taken) {
                    None => *pop = taken,
                    Some(PopAnswer::Got(Some(_))) => *pop = RefusingPop::begin(),
                    Some(PopAnswer::Got(None) | PopAnswer::Saw(_)) => {
                        *self = sweep_at(routes, slot, place.saturating_add(1));
                    }
                }
                taken_back(place, taken)
            }
            PublisherCall::Pushing {
                slot,
                place,
                push,
                delivery,
                ..
            } => {
                let (slot, place, delivery) = (*slot, *place, *delivery);
                let change = push_change(place, push, answer);
                let taken = push.take(answer);
                match push_answer(&taken) {
                    None => *push = taken,
                    Some(answer) => {
                        let place = place.saturating_add(1);
                        *self = push_at(routes, slot, place, counted(delivery, answer));
                    }
                }
                change
            }
            PublisherCall::Dropping { slot } => {
                let slot = *slot;
                *self = PublisherCall::Idle;
                PublisherChange::DropLoan { slot }
            }
            PublisherCall::Idle | PublisherCall::Sent { .. } => {
                *self = PublisherCall::Idle;
                PublisherChange::Nothing
            }
        }
    }

    /// Whether no call is in progress.
    pub fn is_idle(&self) -> bool
        ensures { result ≡ publisher_is_idle self.now }
    {
        matches!(*self, PublisherCall::Idle)
    }

    /// Whether the next step is the last one of the call.
    pub fn is_over(&self) -> bool
        ensures { result ≡ publisher_is_over self.now }
    {
        matches!(
            *self,
            PublisherCall::Lending
                | PublisherCall::Written { .. }
                | PublisherCall::Sent { .. }
                | PublisherCall::Dropping { .. }
        )
    }
}

// A word of header and user header, which lie one after the other.
fn header_word(word: u64) -> SlotWord
    ensures { result ≡ header_word word }
{
    if word < 3 {
        SlotWord::Header(word)
    } else {
        SlotWord::UserHeader(word - 3)
    }
}

// A loan that takes samples back at the connection of this place; after the last connection it looks for a slot.
fn loan_at(routes: &[Route], place: u64) -> PublisherCall
    ensures { result ≡ loan_at routes.now place }
{
    match routes.get(place as usize) {
        Some(route) => PublisherCall::LoanReclaims {
            place,
            route: *route,
            pop: RefusingPop::begin(),
        },
        None => PublisherCall::Lending,
    }
}

// A write at this word; after the last word it ends.
fn write_at(words: &[u64], slot: u64, word: u64) -> PublisherCall
    ensures { result ≡ write_at words.now slot word }
{
    match words.get(word as usize) {
        Some(value) => PublisherCall::Writing {
            slot,
            word,
            value: *value,
        },
        None => PublisherCall::Written { slot },
    }
}

// A send at this word of header and user header; after the last word comes the history.
fn head_at(words: &[u64], slot: u64, word: u64) -> PublisherCall
    ensures { result ≡ head_at words.now slot word }
{
    match words.get(word as usize) {
        Some(value) => PublisherCall::Heading {
            slot,
            word,
            value: *value,
        },
        None => PublisherCall::Remembering { slot },
    }
}

// A send that takes samples back at the connection of this place; after the last connection it begins to push.
fn sweep_at(routes: &[Route], slot: u64, place: u64) -> PublisherCall
    ensures { result ≡ sweep_at routes.now slot place }
{
    match routes.get(place as usize) {
        Some(route) => PublisherCall::SendReclaims {
            slot,
            place,
            route: *route,
            pop: RefusingPop::begin(),
        },
        None => push_at(
            routes,
            slot,
            0,
            Delivery {
                taken: 0,
                refused: 0,
            },
        ),
    }
}

// A send that pushes at the connection of this place; after the last connection it ends.
fn push_at(routes: &[Route], slot: u64, place: u64, delivery: Delivery) -> PublisherCall
    ensures { result ≡ push_at routes.now slot place delivery }
{
    match routes.get(place as usize) {
        Some(route) => PublisherCall::Pushing {
            slot,
            place,
            route: *route,
            push: Push::begin(route.kind, route.limit, slot),
            delivery,
        },
        None => PublisherCall::Sent { slot, delivery },
    }
}

// The delivery with one more connection that took the message, or refused it.
fn counted(delivery: Delivery, answer: PushAnswer) -> Delivery
    ensures { result ≡ counted delivery answer }
{
    match answer {
        PushAnswer::Kept | PushAnswer::LeftOut(_) => Delivery {
            taken: delivery.taken.saturating_add(1),
            refused: delivery.refused,
        },
        PushAnswer::Refused => Delivery {
            taken: delivery.taken,
            refused: delivery.refused.saturating_add(1),
        },
    }
}

// A slot that was popped came back.
fn taken_back(place: u64, pop: RefusingPop) -> PublisherChange
    ensures { result ≡ taken_back place (refusing_pop_answer pop) }
{
    match refusing_pop_answer(&pop) {
        Some(PopAnswer::Got(Some(slot))) => PublisherChange::TakenBack { place, slot },
        Some(PopAnswer::Got(None) | PopAnswer::Saw(_)) | None => PublisherChange::Nothing,
    }
}

// A push puts its slot when it stores the write position, and drops the oldest one if its exchange succeeds.
fn push_change(place: u64, push: &Push, answer: u64) -> PublisherChange
    ensures { result ≡ push_change place push.now answer }
{
    match *push {
        Push::Overflowing(OverflowingPush::Filled { value, .. })
        | Push::Refusing(RefusingPush::Filled { value, .. }) => PublisherChange::Put {
            place,
            slot: value,
        },
        Push::Overflowing(OverflowingPush::SawOldest { read, oldest, .. }) if answer == read => {
            PublisherChange::LeftOut {
                place,
                slot: oldest,
            }
        }
        _ => PublisherChange::Nothing,
    }
}
