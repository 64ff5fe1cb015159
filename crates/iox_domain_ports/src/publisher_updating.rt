//! A publisher follows the list of subscribers.
ghost use Rattle.std.specs.Prelude.{◌≡◌, ℕ, ◌+◌, ◌-◌, ◌<◌, ◌≤◌, ◌^◌, Ok, IfOk, OnErr, length, get_or, None, Some};
ghost use Rattle.iox_domain_values.specs.declared.degradation.DegradationCause.TheVariants as cause;
ghost use Rattle.iox_domain_ports.specs.Places.{leads_to};
ghost use Rattle.iox_domain_ports.specs.Ports.{with_connections};
ghost use Rattle.iox_domain_ports.specs.Memory.{HasRoom};
ghost use Rattle.iox_domain_ports.specs.PublisherUpdating.{is_tie_to, untied, untied_from, within_reach, Ties, Follows, first_failure};
ghost use Rattle.iox_domain_ports.specs.PublisherUpdating.{update_answer, told_of, Updates, FollowsAll, Asks, OnlyConnections};

use crate::messages::Member;
use crate::publisher_port::PublisherPort;
use crate::reader::Reader;
use crate::subscriber_entry::SubscriberEntry;
use iox_domain_values::{
    ConnectionFailure, DegradationAction, DegradationCause, DegradationInfo, Degrades,
    ZeroCopyCreationError,
};
use std::alloc::{AllocError, Global};

impl<T: Copy, U: Copy> PublisherPort<T, U> {
    // Whether a place is tied to a connection that leads to this subscriber.
    fn is_tied_to(&self, place: usize, subscriber: u64) -> bool
        ensures { result ≡ is_tie_to subscriber (get_or self.now.ties.items place None) self.now }
    {
        match self.ties.get(place) {
            Some(index) => Reader::leads_to(self.readers.get(index), subscriber),
            None => false,
        }
    }

    // Unties this place, and ends the connection to which it was tied.
    fn untie(&mut self, place: usize)
        ensures untied { self.new ≡ untied place self.old }
        ensures same { OnlyConnections self.old self.new }
    {
        let Some(index) = self.ties.get(place) else {
            return;
        };
        self.ties.put(place, None);
        self.end(index);
    }

    // Unties the places from `first` on, and ends their connections.
    fn untie_from(&mut self, first: usize)
        ensures untied { self.new ≡ untied_from (length self.old.ties.items - first) first self.old }
        ensures same { OnlyConnections self.old self.new }
    {
        for place in first..self.ties.len() {
            if self.ties.top() <= place {
                return;
            }
            self.untie(place);
        }
    }

    // Ties a place to the connection of its subscriber.
    fn tie(&mut self, alloc: Global, place: usize, entry: SubscriberEntry) -> Result<(), AllocError>
        requires { place + 1 < 2 ^ 64 }
        ensures ties { Ties place entry self.old result self.new }
        ensures same { OnlyConnections self.old self.new }
    {
        let before = self.ties.len();
        let most = self.sender.most_waiting();
        if !self.ties.reach(place + 1) {
            return Err(AllocError);
        }
        match self.join(alloc, entry.subscriber, place, entry.buffer_size.min(most)) {
            Ok(index) => {
                self.ties.put(place, Some(index));
                self.welcome(index);
                Ok(())
            }
            Err(error) => {
                self.ties.cut(before);
                Err(error)
            }
        }
    }

    // Follows a place of the list.
    fn follow(
        &mut self,
        alloc: Global,
        place: usize,
        listed: Option<Member<SubscriberEntry>>,
    ) -> Result<(), AllocError>
        requires { place + 1 < 2 ^ 64 }
        ensures follows { Follows place listed self.old result self.new }
        ensures same { OnlyConnections self.old self.new }
    {
        let Some(member) = listed else {
            self.untie(place);
            return Ok(());
        };
        if self.is_tied_to(place, member.value.subscriber) {
            return Ok(());
        }
        self.untie(place);
        self.tie(alloc, place, member.value)
    }

    // What the handler is given about a connection that failed.
    fn told(&self, entry: SubscriberEntry) -> DegradationInfo
        ensures { result ≡ told_of entry self.now }
    {
        DegradationInfo {
            service_id: self.service,
            sender_port_id: self.number,
            receiver_port_id: entry.subscriber,
        }
    }

    // Asks the handler if a connection failed; answers the failure that was found so far.
    fn ask<D: Degrades>(
        &self,
        listed: &Option<Member<SubscriberEntry>>,
        is_made: bool,
        found: Option<ConnectionFailure>,
        handler: &D,
    ) -> Option<ConnectionFailure>
        ensures { Asks (D.degrades handler.now cause.FailedToEstablishConnection) listed.now self.now found is_made result }
    {
        let Some(member) = listed else {
            return found;
        };
        if is_made {
            return found;
        }
        let info = self.told(member.value);
        let action = handler.degrade(DegradationCause::FailedToEstablishConnection, &info);
        first_failure(
            found,
            ConnectionFailure::FailedToEstablishConnection(ZeroCopyCreationError::OutOfMemory),
            action,
        )
    }

    // Follows each place of the list, and ends the connections of places past its end.
    fn follow_all<D: Degrades>(
        &mut self,
        alloc: Global,
        listed: &[Option<Member<SubscriberEntry>>],
        handler: &D,
    ) -> Result<(), ConnectionFailure>
        ensures follows { FollowsAll (D.degrades handler.now cause.FailedToEstablishConnection) 0 listed.now None self.old result self.new }
        ensures only { OnlyConnections self.old self.new }
    {
        let mut found = None;
        for place in 0..listed.len() {
            let outcome = self.follow(alloc, place, listed[place]);
            found = self.ask(&listed[place], outcome.is_ok(), found, handler);
        }
        self.untie_from(listed.len());
        answer_of(found)
    }

    /// Follows the list of subscribers, if it changed since it was last followed: connections of closed subscribers end, and new
    /// subscribers are connected and get the newest messages of the history, as many as may wait there. A place past the end of the
    /// list lists no subscriber. If a connection fails the handler decides; after all places were tried, the call returns the first
    /// failure for which the handler said `DegradeAndFail`. A connection fails only if it must be allocated and the allocation fails,
    /// or if its place is beyond the number of subscribers for which the publisher was made.
    ///
    /// Ported from `iceoryx2::port::publisher::Publisher::update_connections`.
    pub fn update<D: Degrades>(
        &mut self,
        alloc: Global,
        listed: &[Option<Member<SubscriberEntry>>],
        changes: u64,
        handler: &D,
    ) -> Result<(), ConnectionFailure>
        ensures updates { Updates (D.degrades handler.now cause.FailedToEstablishConnection) listed.now changes self.old result self.new }
        ensures enough { HasRoom listed.now self.old → result ≡ Ok tt }
        ensures only { OnlyConnections self.old self.new }
    {
        if self.seen == changes {
            return Ok(());
        }
        self.seen = changes;
        self.follow_all(alloc, listed, handler)
    }
}

// The failure that the call returns in the end, after one more connection failed.
fn first_failure(
    found: Option<ConnectionFailure>,
    failure: ConnectionFailure,
    action: DegradationAction,
) -> Option<ConnectionFailure>
    ensures { result ≡ first_failure found failure action }
{
    match action {
        DegradationAction::Ignore | DegradationAction::Warn => found,
        DegradationAction::DegradeAndFail => Some(found.unwrap_or(failure)),
    }
}

// What an update answers for the failure that was found, if one was.
fn answer_of(found: Option<ConnectionFailure>) -> Result<(), ConnectionFailure>
    ensures { result ≡ update_answer found }
{
    match found {
        Some(failure) => Err(failure),
        None => Ok(()),
    }
}
