//! Handed-in handlers, by their places.
ghost use Rattle.std.specs.Prelude.{◌≡◌, ◌++◌, [], ◌∷◌, Some, is_some, IsSome, IfOk, OnErr, length, option_copied};
ghost use Rattle.iox_hub.specs.Places.{lies_at, emptied, emptied_if, named, backpressure_of, degradation_of};

use std::alloc::{AllocError, Global};

/// A handler that is handed in for a run. Its variant is its kind.
///
/// `P` decides at a full mailbox, `D` at a failed connection. Not in `iceoryx2`.
#[derive(Drop)]
pub enum GivenHandler<P, D> {
    /// A handler for full mailboxes.
    Backpressure(P),
    /// A handler for failed connections.
    Degradation(D),
}

/// The handlers that are handed in for runs, by their places, counted from 1. A place is empty once its handler is taken.
///
/// Not in `iceoryx2`.
#[derive(Drop)]
pub struct GivenHandlers<P, D> {
    /// The places, in their order.
    pub places: Vec<Option<GivenHandler<P, D>>>,
}

impl<P, D> GivenHandlers<P, D> {
    /// A value without handlers. It takes no memory.
    /// Example: `let mut given = GivenHandlers::new(alloc);`
    pub fn new(alloc: Global) -> Self
        ensures { result.places.items ≡ [] }
    {
        GivenHandlers {
            places: Vec::new(alloc),
        }
    }
}

impl<P: Drop, D: Drop> GivenHandlers<P, D> {
    /// Hands in a handler, and returns its place, which is the next one.
    ///
    /// Fails only if an allocation fails; then nothing has changed, and the handler is dropped.
    /// Example: `let place = given.hand_in(GivenHandler::Degradation(handler))?;`
    pub fn hand_in(&mut self, handler: GivenHandler<P, D>) -> Result<u64, AllocError>
        ensures place { IfOk result (λ place. place ≡ length self.new.places.items) }
        ensures lies { IfOk result (λ place. self.new.places.items ≡ self.old.places.items ++ Some handler ∷ []) }
        ensures lacking { OnErr result (self.new.places.items ≡ self.old.places.items) }
    {
        self.places.push(Some(handler))?;
        Ok(self.places.len() as u64)
    }

    // The handler at a place, counted from 1.
    fn at(&self, place: u64) -> Option<&GivenHandler<P, D>>
        ensures { option_copied result ≡ lies_at place self.now.places.items }
    {
        if place == 0 {
            return None;
        }
        self.places.get(place as usize - 1)?.as_ref()
    }

    // Whether the named place has a handler for full mailboxes, or no place is named.
    pub(crate) fn holds_backpressure(&self, place: Option<u64>) -> bool
        ensures { result ≡ is_some (named (λ lies. backpressure_of lies) place self.now.places.items) }
    {
        match place {
            Some(place) => matches!(self.at(place), Some(GivenHandler::Backpressure(_))),
            None => true,
        }
    }

    // Whether the named place has a handler for failed connections, or no place is named.
    pub(crate) fn holds_degradation(&self, place: Option<u64>) -> bool
        ensures { result ≡ is_some (named (λ lies. degradation_of lies) place self.now.places.items) }
    {
        match place {
            Some(place) => matches!(self.at(place), Some(GivenHandler::Degradation(_))),
            None => true,
        }
    }

    // Takes the handler at a place, counted from 1.
    fn take(&mut self, place: u64) -> Option<GivenHandler<P, D>>
        requires { IsSome (lies_at place self.old.places.items) }
        ensures was { result ≡ lies_at place self.old.places.items }
        ensures left { self.new.places.items ≡ emptied place self.old.places.items }
    {
        self.places[place as usize - 1].take()
    }

    // Takes the handler for full mailboxes from the named place, if a place is named.
    pub(crate) fn take_backpressure(&mut self, place: Option<u64>) -> Option<P>
        requires { IsSome (named (λ lies. backpressure_of lies) place self.old.places.items) }
        ensures was { named (λ lies. backpressure_of lies) place self.old.places.items ≡ Some result }
        ensures left { self.new.places.items ≡ emptied_if place self.old.places.items }
    {
        match self.take(place?) {
            Some(GivenHandler::Backpressure(handler)) => Some(handler),
            _ => None,
        }
    }

    // Takes the handler for failed connections from the named place, if a place is named.
    pub(crate) fn take_degradation(&mut self, place: Option<u64>) -> Option<D>
        requires { IsSome (named (λ lies. degradation_of lies) place self.old.places.items) }
        ensures was { named (λ lies. degradation_of lies) place self.old.places.items ≡ Some result }
        ensures left { self.new.places.items ≡ emptied_if place self.old.places.items }
    {
        match self.take(place?) {
            Some(GivenHandler::Degradation(handler)) => Some(handler),
            _ => None,
        }
    }
}
