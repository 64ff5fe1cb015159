//! A subscriber, without the shared words.
ghost use Rattle.std.specs.Prelude.{◌≡◌, ◌-◌, ◌<◌, true, false, None, Some, get_or, slice_get, length, replicate, IfOk};
ghost use Rattle.iox_lanes_base.specs.Subscribing.{subscriber_is_idle};
ghost use Rattle.iox_lanes_parties.specs.Keeping.{met_anew, swapped, changed, after_answer};
ghost use Rattle.iox_lanes_parties.specs.Keeping.{begun_receive, begun_read, begun_release, new_subscriber};

use crate::places::{count_down, count_up, put};
use iox_lanes_base::calls::subscriber::SlotExtent;
use iox_lanes_base::calls::{Route, SubscriberCall, SubscriberChange, reroute};
use std::alloc::{AllocError, Global};
use std::marker::Model;

/// A subscriber: its connections in the order of their keys, the samples that it borrows, and the stage of its call.
///
/// All its memory is allocated when it is made.
#[derive(Drop)]
pub struct LaneSubscriber {
    routes: Vec<Route>,
    extent: SlotExtent,
    most_borrowed: u64,
    // The number of samples that are borrowed from each connection.
    borrowed: Vec<u64>,
    // For each slot of the service, the place of the connection that it is borrowed from.
    samples: Vec<Option<u64>>,
    // The words that were read of a sample.
    words: Vec<u64>,
    call: SubscriberCall,
}

impl Model for LaneSubscriber {
    ghost use Rattle.iox_lanes_parties.specs.Keeping.{SubscriberState};

    ghost Value = { SubscriberState };

    ghost view = { λ s. record {
      routes = s.routes.items;
      extent = s.extent;
      most_borrowed = s.most_borrowed;
      borrowed = s.borrowed.items;
      samples = s.samples.items;
      words = s.words.items;
      call = s.call;
    } };
}

impl LaneSubscriber {
    /// A subscriber that borrows nothing, of a service with this many slots. `extent` has the numbers of words of a slot, `words` is the
    /// number of words that a read keeps, and `most_borrowed` is the maximum number of samples that it borrows from each connection.
    /// `AllocError` is returned only where an allocation fails.
    pub fn new(
        alloc: Global,
        routes: &[Route],
        slots: usize,
        extent: SlotExtent,
        words: usize,
        most_borrowed: u64,
    ) -> Result<LaneSubscriber, AllocError>
        ensures { IfOk result (λ made. made ≡ new_subscriber routes.now slots extent words most_borrowed) }
    {
        Ok(LaneSubscriber {
            routes: Vec::from_slice(alloc, routes)?,
            extent,
            most_borrowed,
            borrowed: vec![in alloc; 0; routes.len()]?,
            samples: vec![in alloc; None; slots]?,
            words: vec![in alloc; 0; words]?,
            call: SubscriberCall::Idle,
        })
    }

    /// The place of the connection that the slot is borrowed from; None if it isn't borrowed.
    pub fn place_of(&self, slot: usize) -> Option<u64>
        ensures { result ≡ get_or self.now.samples slot None }
    {
        match self.samples.get(slot) {
            Some(place) => *place,
            None => None,
        }
    }

    /// Its connections, in the order in which it receives from them.
    pub fn routes(&self) -> &[Route]
        ensures { result.now ≡ self.now.routes }
    {
        self.routes.as_slice()
    }

    /// The connection at this place; None beyond the last one.
    pub fn route(&self, place: u64) -> Option<Route>
        ensures { result ≡ slice_get self.now.routes place }
    {
        match self.routes.get(place as usize) {
            Some(route) => Some(*route),
            None => None,
        }
    }

    /// Puts `route` in the place of the connection that has the same number; nothing changes if there is none.
    pub fn meet(&mut self, route: Route)
        ensures { self.new ≡ met_anew route self.old }
    {
        reroute(&mut self.routes, route);
    }

    /// Swaps the connections at two places.
    pub fn swap(&mut self, one: u64, other: u64)
        requires one { one < length self.old.routes }
        requires other { other < length self.old.routes }
        ensures { self.new ≡ swapped one other self.old }
    {
        self.routes.swap(one as usize, other as usize);
    }

    /// The words that the last read loaded.
    pub fn words(&self) -> &[u64]
        ensures { result.now ≡ self.now.words }
    {
        &self.words
    }

    /// The stage of its call.
    #[inline(always)]
    pub fn call(&self) -> &SubscriberCall
        ensures { result.now ≡ self.now.call }
    {
        &self.call
    }

    /// Begins a receive.
    pub fn begin_receive(&mut self)
        requires { subscriber_is_idle self.old.call ≡ true }
        ensures { self.new ≡ begun_receive self.old }
    {
        self.call = SubscriberCall::receive(&self.routes, &self.borrowed, self.most_borrowed);
    }

    /// Begins to read the slot of a sample.
    pub fn begin_read(&mut self, slot: u64)
        requires { subscriber_is_idle self.old.call ≡ true }
        ensures { self.new ≡ begun_read slot self.old }
    {
        self.call = SubscriberCall::read(slot, self.extent);
    }

    /// Begins to release a sample's slot to the connection at this place.
    pub fn begin_release(&mut self, place: u64, route: Route, slot: u64)
        requires { subscriber_is_idle self.old.call ≡ true }
        ensures { self.new ≡ begun_release place route slot self.old }
    {
        self.call = SubscriberCall::release(place, route, slot);
    }

    /// Goes on after the answer of the next access, and keeps what it changes.
    #[inline(always)]
    pub fn take(&mut self, answer: u64)
        ensures { self.new ≡ after_answer answer self.old }
    {
        let change = self
            .call
            .take(answer, &self.routes, &self.borrowed, self.most_borrowed);
        self.change(change);
    }

    /// Sets the call to the stage `call`, and goes on after the answer of the access that comes next there.
    #[inline(always)]
    pub fn take_from(&mut self, call: SubscriberCall, answer: u64)
        ensures { self.new ≡ after_answer answer (record self.old { call = call }) }
    {
        let mut call = call;
        let change = call.take(answer, &self.routes, &self.borrowed, self.most_borrowed);
        self.call = call;
        self.change(change);
    }

    /// Keeps a word that was read; does nothing beyond the last word.
    pub fn note(&mut self, word: u64, value: u64)
        ensures { self.new ≡ changed (SubscriberChange.Note word value) self.old }
    {
        put(&mut self.words, word, value);
    }

    #[inline(always)]
    fn change(&mut self, change: SubscriberChange)
        ensures { self.new ≡ changed change self.old }
    {
        match change {
            SubscriberChange::Nothing => {}
            SubscriberChange::Borrow { place, slot } => {
                count_up(&mut self.borrowed, place);
                put(&mut self.samples, slot, Some(place));
            }
            SubscriberChange::Note { word, value } => put(&mut self.words, word, value),
            SubscriberChange::GiveBack { place, slot } => {
                count_down(&mut self.borrowed, place);
                put(&mut self.samples, slot, None);
            }
        }
    }
}
