//! The calls of a subscriber.
ghost use Rattle.std.specs.Prelude.{◌≡◌, false};
ghost use Rattle.iox_lanes_base.specs.Answers.{pop_answer};
ghost use Rattle.iox_lanes_base.specs.Subscribing.{subscriber_next, subscriber_take, subscriber_change, subscriber_is_idle};
ghost use Rattle.iox_lanes_base.specs.Subscribing.{subscriber_is_over, is_full_at, receive_at, nothing_received, read_at, word_at};
ghost use Rattle.iox_lanes_base.specs.Subscribing.{borrowed_by, given_back_by};

use crate::calls::answers::{pop_answer, refusing_push_answer};
use crate::calls::route::Route;
use crate::words::{ConnectionRing, SharedAccess, SharedWord, SlotWord};
use iox_queues_steps::rings::Pop;
use iox_queues_steps::rings::refusing::Push as RefusingPush;
use iox_queues_steps::{End, PopAnswer, PushAnswer};

/// The answer of a receive.
#[derive(Clone, Copy, Debug, PartialEq, Eq)]
pub enum Receipt {
    /// The message in this slot, from the connection at this place.
    Taken { place: u64, slot: u64 },
    /// No message waits.
    Nothing,
    /// A message waits at a connection, but the maximum number of samples is borrowed from that connection.
    ExceedsMaxBorrows,
}

/// How many words the user header and the payload of a slot have.
#[derive(Clone, Copy)]
pub struct SlotExtent {
    /// How many words the user header has.
    pub user_header_words: u64,
    /// How many words the payload has.
    pub payload_words: u64,
}

/// The stage of a subscriber's call. A place is one in the subscriber's list of connections.
#[derive(Clone, Copy)]
pub enum SubscriberCall {
    /// No call is in progress.
    Idle,
    /// A receive pops at this connection, or only looks whether a message waits there. `waits` says whether an earlier look saw one.
    Receiving {
        place: u64,
        route: Route,
        pop: Pop,
        waits: bool,
    },
    /// A receive is about to end.
    Received {
        receipt: Receipt,
    },
    /// A read is about to load this word of header, user header and payload.
    Reading {
        slot: u64,
        word: u64,
        extent: SlotExtent,
    },
    /// A read is about to end.
    WasRead {
        slot: u64,
    },
    /// A release puts its slot into the completion ring of this connection.
    Releasing {
        place: u64,
        route: Route,
        push: RefusingPush,
    },
    /// A release is about to end. `done` says whether the slot went back.
    Released {
        done: bool,
    },
}

/// What a step changes of what a subscriber keeps for itself.
#[derive(Clone, Copy)]
pub enum SubscriberChange {
    /// Nothing changes.
    Nothing,
    /// The slot is borrowed from the connection at this place.
    Borrow { place: u64, slot: u64 },
    /// The word number `word` of what is read has this value.
    Note { word: u64, value: u64 },
    /// The slot went back to the connection at this place.
    GiveBack { place: u64, slot: u64 },
}

impl SubscriberCall {
    /// The first stage of a receive over these connections; `borrowed` has the number of samples that are borrowed from each, and `most` is
    /// their maximum.
    pub fn receive(routes: &[Route], borrowed: &[u64], most: u64) -> SubscriberCall
        ensures { result ≡ receive_at routes.now borrowed.now most 0 false }
    {
        receive_at(routes, borrowed, most, 0, false)
    }

    /// The first stage of a read of a sample's slot.
    pub fn read(slot: u64, extent: SlotExtent) -> SubscriberCall
        ensures { result ≡ read_at slot extent 0 }
    {
        read_at(slot, extent, 0)
    }

    /// The first stage of a release of a sample's slot to the connection at this place.
    pub fn release(place: u64, route: Route, slot: u64) -> SubscriberCall
        ensures { result ≡ SubscriberCall.Releasing place route (RefusingPush.Begun route.completion_cells slot) }
    {
        SubscriberCall::Releasing {
            place,
            route,
            push: RefusingPush::begin(route.completion_cells, slot),
        }
    }

    /// The access that comes next.
    pub fn next(&self) -> SharedAccess
        ensures { result ≡ subscriber_next self.now }
    {
        match *self {
            SubscriberCall::Receiving { route, pop, .. } => SharedAccess::on_ring(
                route.connection,
                ConnectionRing::Submission,
                route.submission_cells,
                pop.next(),
            ),
            SubscriberCall::Reading { slot, word, extent } => {
                let word = word_at(extent, word);
                SharedAccess::Load(SharedWord::Slot { slot, word })
            }
            SubscriberCall::Releasing { route, push, .. } => SharedAccess::on_ring(
                route.connection,
                ConnectionRing::Completion,
                route.completion_cells,
                push.next(),
            ),
            SubscriberCall::Idle
            | SubscriberCall::Received { .. }
            | SubscriberCall::WasRead { .. }
            | SubscriberCall::Released { .. } => SharedAccess::Local,
        }
    }

    /// Goes on after the answer of that access, and returns what it changes of what the subscriber keeps for itself. `routes` are the
    /// subscriber's connections, `borrowed` has the number of samples that are borrowed from each, and `most` is their maximum.
    #[inline(always)]
    pub fn take(
        &mut self,
        answer: u64,
        routes: &[Route],
        borrowed: &[u64],
        most: u64,
    ) -> SubscriberChange
        ensures call { self.new ≡ subscriber_take routes.now borrowed.now most self.old answer }
        ensures change { result ≡ subscriber_change self.old answer }
    {
        match self {
            SubscriberCall::Receiving {
                place,
                pop,
                waits,
                ..
            } => {
                let (place, waits) = (*place, *waits);
                let taken = pop.take(answer);
                match pop_answer(&taken) {
                    None => *pop = taken,
                    Some(PopAnswer::Got(Some(slot))) => {
                        let receipt = Receipt::Taken { place, slot };
                        *self = SubscriberCall::Received { receipt };
                    }
                    Some(PopAnswer::Got(None)) => {
                        let place = place.saturating_add(1);
                        *self = receive_at(routes, borrowed, most, place, waits);
                    }
                    Some(PopAnswer::Saw(some)) => {
                        let place = place.saturating_add(1);
                        *self = receive_at(routes, borrowed, most, place, waits || some);
                    }
                }
                borrowed_by(place, &taken)
            }
            SubscriberCall::Reading { slot, word, extent } => {
                let at = *word;
                *self = read_at(*slot, *extent, at.saturating_add(1));
                SubscriberChange::Note {
                    word: at,
                    value: answer,
                }
            }
            SubscriberCall::Releasing { place, push, .. } => {
                let change = given_back_by(*place, push);
                let taken = push.take(answer);
                match refusing_push_answer(&taken) {
                    None => *push = taken,
                    Some(PushAnswer::Kept | PushAnswer::LeftOut(_)) => {
                        *self = SubscriberCall::Released { done: true };
                    }
                    Some(PushAnswer::Refused) => *self = SubscriberCall::Released { done: false },
                }
                change
            }
            SubscriberCall::Idle
            | SubscriberCall::Received { .. }
            | SubscriberCall::WasRead { .. }
            | SubscriberCall::Released { .. } => {
                *self = SubscriberCall::Idle;
                SubscriberChange::Nothing
            }
        }
    }

    /// Whether no call is in progress.
    pub fn is_idle(&self) -> bool
        ensures { result ≡ subscriber_is_idle self.now }
    {
        matches!(*self, SubscriberCall::Idle)
    }

    /// Whether the next step is the last one of the call.
    pub fn is_over(&self) -> bool
        ensures { result ≡ subscriber_is_over self.now }
    {
        matches!(
            *self,
            SubscriberCall::Received { .. }
                | SubscriberCall::WasRead { .. }
                | SubscriberCall::Released { .. }
        )
    }
}

// Whether the maximum number of samples is borrowed from the connection at this place.
fn is_full_at(borrowed: &[u64], most: u64, place: u64) -> bool
    ensures { result ≡ is_full_at borrowed.now most place }
{
    match borrowed.get(place as usize) {
        Some(borrowed) => *borrowed >= most,
        None => false,
    }
}

// The receipt of a receive that got no message.
fn nothing_received(waits: bool) -> Receipt
    ensures { result ≡ nothing_received waits }
{
    if waits {
        Receipt::ExceedsMaxBorrows
    } else {
        Receipt::Nothing
    }
}

// A receive at the connection of this place; after the last connection it ends.
fn receive_at(
    routes: &[Route],
    borrowed: &[u64],
    most: u64,
    place: u64,
    waits: bool,
) -> SubscriberCall
    ensures { result ≡ receive_at routes.now borrowed.now most place waits }
{
    let Some(route) = routes.get(place as usize) else {
        return SubscriberCall::Received {
            receipt: nothing_received(waits),
        };
    };
    let pop = if is_full_at(borrowed, most, place) {
        Pop::look(route.kind)
    } else {
        Pop::begin(route.kind)
    };
    SubscriberCall::Receiving {
        place,
        route: *route,
        pop,
        waits,
    }
}

// A word of header, user header and payload, which lie one after the other.
fn word_at(extent: SlotExtent, word: u64) -> SlotWord
    ensures { result ≡ word_at extent word }
{
    if word < 3 {
        SlotWord::Header(word)
    } else if word - 3 < extent.user_header_words {
        SlotWord::UserHeader(word - 3)
    } else {
        SlotWord::Payload(word - 3 - extent.user_header_words)
    }
}

// A read at this word; after the last word it ends.
fn read_at(slot: u64, extent: SlotExtent, word: u64) -> SubscriberCall
    ensures { result ≡ read_at slot extent word }
{
    if word < 3
        || word - 3 < extent.user_header_words
        || word - 3 - extent.user_header_words < extent.payload_words
    {
        SubscriberCall::Reading { slot, word, extent }
    } else {
        SubscriberCall::WasRead { slot }
    }
}

// A slot that was popped is borrowed.
fn borrowed_by(place: u64, pop: &Pop) -> SubscriberChange
    ensures { result ≡ borrowed_by place (pop_answer pop.now) }
{
    match pop_answer(pop) {
        Some(PopAnswer::Got(Some(slot))) => SubscriberChange::Borrow { place, slot },
        Some(PopAnswer::Got(None) | PopAnswer::Saw(_)) | None => SubscriberChange::Nothing,
    }
}

// A slot goes back when a push stores the write position.
fn given_back_by(place: u64, push: &RefusingPush) -> SubscriberChange
    ensures { result ≡ given_back_by place push.now }
{
    match *push {
        RefusingPush::Filled { value, .. } => SubscriberChange::GiveBack { place, slot: value },
        _ => SubscriberChange::Nothing,
    }
}
