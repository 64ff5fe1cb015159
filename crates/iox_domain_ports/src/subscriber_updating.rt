//! A subscriber follows the list of publishers.
ghost use Rattle.std.specs.Prelude.{◌≡◌, ◌+◌, ◌<◌, ◌^◌, length, None};
ghost use Rattle.iox_domain_values.specs.declared.degradation.DegradationCause.TheVariants as cause;
ghost use Rattle.iox_domain_ports.specs.PublisherUpdating.{first_failure, update_answer};
ghost use Rattle.iox_domain_ports.specs.Following.{lacks_at};
ghost use Rattle.iox_domain_ports.specs.SubscriberUpdating.{told_of, is_listed, FollowsExactly, AsksOf, FollowsEach, FollowsNoneIf};
ghost use Rattle.iox_domain_ports.specs.SubscriberUpdating.{FollowsNones, FollowsListEach, Updates, UpdatesEach, HasSamplesAfter};
ghost use Rattle.iox_domain_ports.specs.SubscriberUpdating.{HasSamples, ReceivesAfter, ReceivesNext};

use crate::Member;
use crate::attached::Taken;
use crate::publisher_entry::PublisherEntry;
use crate::publishers::Publishers;
use crate::subscriber_port::SubscriberPort;
use iox_domain_values::{
    ConnectionFailure, DegradationAction, DegradationCause, DegradationInfo, Degrades,
    ReceiveError, ZeroCopyCreationError,
};
use std::alloc::Global;

impl SubscriberPort {
    // Whether nothing is tied to the place, and the publisher has no connection to the subscriber yet.
    fn lacks_at<T: Copy, U: Copy>(
        &self,
        place: usize,
        number: u64,
        publishers: &Publishers<T, U>,
    ) -> bool
        ensures { result ≡ lacks_at place number self.now publishers.now }
    {
        self.places.get(place).is_none()
            && publishers.lacks_connection(number, self.number, self.place)
    }

    // Follows a place if it lists a publisher. If the list is as it was, no connection is made at a place that has none.
    fn follow_one<T: Copy, U: Copy>(
        &mut self,
        alloc: Global,
        is_new: bool,
        place: usize,
        listed: Option<Member<PublisherEntry>>,
        publishers: &mut Publishers<T, U>,
    ) -> Result<(), ZeroCopyCreationError>
        requires { place + 1 < 2 ^ 64 }
        ensures { FollowsExactly is_new place listed self.old publishers.old result self.new publishers.new }
    {
        let Some(member) = listed else {
            return Ok(());
        };
        let number = member.value.publisher;
        if is_new || !self.lacks_at(place, number, publishers) {
            self.follow_listed(alloc, place, number, publishers)
        } else {
            Err(ZeroCopyCreationError::OutOfMemory)
        }
    }

    // What the handler is given about a connection that failed.
    fn told(&self, entry: PublisherEntry) -> DegradationInfo
        ensures { result ≡ told_of entry self.now }
    {
        DegradationInfo {
            service_id: self.service,
            sender_port_id: entry.publisher,
            receiver_port_id: self.number,
        }
    }

    // Asks the handler if a connection failed; answers the failure that was found so far.
    fn ask<D: Degrades>(
        &self,
        listed: &Option<Member<PublisherEntry>>,
        outcome: Result<(), ZeroCopyCreationError>,
        found: Option<ConnectionFailure>,
        handler: &D,
    ) -> Option<ConnectionFailure>
        ensures { AsksOf (D.degrades handler.now cause.FailedToEstablishConnection) listed.now self.now found outcome result }
    {
        let Some(member) = listed else {
            return found;
        };
        let Err(failure) = outcome else {
            return found;
        };
        let info = self.told(member.value);
        let action = handler.degrade(DegradationCause::FailedToEstablishConnection, &info);
        first_failure(
            found,
            ConnectionFailure::FailedToEstablishConnection(failure),
            action,
        )
    }

    // Follows each place that lists a publisher.
    fn follow_all<T: Copy, U: Copy, D: Degrades>(
        &mut self,
        alloc: Global,
        is_new: bool,
        listed: &[Option<Member<PublisherEntry>>],
        handler: &D,
        publishers: &mut Publishers<T, U>,
    ) -> Option<ConnectionFailure>
        ensures { FollowsEach (D.degrades handler.now cause.FailedToEstablishConnection) is_new 0 listed.now None self.old publishers.old
            result self.new publishers.new }
    {
        let mut found = None;
        for place in 0..listed.len() {
            let outcome = self.follow_one(alloc, is_new, place, listed[place], publishers);
            found = self.ask(&listed[place], outcome, found, handler);
        }
        found
    }

    // Follows a place if it lists no publisher.
    fn follow_if_none<T: Copy, U: Copy>(
        &mut self,
        place: usize,
        listed: &[Option<Member<PublisherEntry>>],
        publishers: &mut Publishers<T, U>,
    )
        ensures { FollowsNoneIf (is_listed listed.now place) place self.old publishers.old self.new publishers.new }
    {
        if !is_listed(listed, place) {
            self.follow_none(place, publishers);
        }
    }

    // Follows each place that lists no publisher.
    fn follow_nones<T: Copy, U: Copy>(
        &mut self,
        listed: &[Option<Member<PublisherEntry>>],
        publishers: &mut Publishers<T, U>,
    )
        ensures { FollowsNones listed.now 0 (length self.old.places.items) self.old publishers.old self.new publishers.new }
    {
        let count = self.places.len();
        for place in 0..count {
            if self.places.top() <= place {
                return;
            }
            self.follow_if_none(place, listed, publishers);
        }
    }

    // Follows the list of publishers.
    fn follow_list<T: Copy, U: Copy, D: Degrades>(
        &mut self,
        alloc: Global,
        is_new: bool,
        listed: &[Option<Member<PublisherEntry>>],
        handler: &D,
        publishers: &mut Publishers<T, U>,
    ) -> Result<(), ConnectionFailure>
        ensures { FollowsListEach (D.degrades handler.now cause.FailedToEstablishConnection) is_new listed.now self.old publishers.old
            result self.new publishers.new }
    {
        let found = self.follow_all(alloc, is_new, listed, handler, publishers);
        self.follow_nones(listed, publishers);
        answer_of(found)
    }

    /// Follows the list of publishers, if it changed since it was last followed, or if a publisher was refused then because the
    /// former connection at its place could neither end nor expire. The subscriber attaches to new publishers. A connection whose
    /// publisher was closed ends if it has neither waiting nor borrowed messages, and otherwise expires. If a connection fails the
    /// handler decides; after all places were tried, the call returns the first failure for which the handler said `DegradeAndFail`.
    /// A connection fails if an allocation fails, if its place is beyond the capacity, if no key is free, or if the former connection
    /// at its place can't expire.
    ///
    /// If the list is as it was, only the publishers that were refused so are tried again. A connection that failed for memory then
    /// isn't made before the list changes: it fails as before, and the handler is asked about it again. A connection that its publisher
    /// has made meanwhile is attached.
    ///
    /// Ported from `iceoryx2::port::subscriber::Subscriber::update_connections`.
    #[tactic(auto, using(crate::proofs::Trying::each_updates))]
    pub fn update<T: Copy, U: Copy, D: Degrades>(
        &mut self,
        alloc: Global,
        listed: &[Option<Member<PublisherEntry>>],
        changes: u64,
        handler: &D,
        publishers: &mut Publishers<T, U>,
    ) -> Result<(), ConnectionFailure>
        ensures updates { Updates (D.degrades handler.now cause.FailedToEstablishConnection) listed.now changes self.old publishers.old
            result self.new publishers.new }
        ensures each { UpdatesEach (D.degrades handler.now cause.FailedToEstablishConnection) listed.now changes self.old publishers.old
            result self.new publishers.new }
    {
        self.update_each(alloc, listed, changes, handler, publishers)
    }

    // Updates, with what is tried at each place as contract alone.
    fn update_each<T: Copy, U: Copy, D: Degrades>(
        &mut self,
        alloc: Global,
        listed: &[Option<Member<PublisherEntry>>],
        changes: u64,
        handler: &D,
        publishers: &mut Publishers<T, U>,
    ) -> Result<(), ConnectionFailure>
        ensures { UpdatesEach (D.degrades handler.now cause.FailedToEstablishConnection) listed.now changes self.old publishers.old
            result self.new publishers.new }
    {
        if self.seen == changes && !self.again {
            return Ok(());
        }
        let is_new = self.seen != changes;
        self.seen = changes;
        self.again = false;
        self.follow_list(alloc, is_new, listed, handler, publishers)
    }

    /// Updates, and answers whether some connection, also an expired one, has data. The call fails if the update does.
    ///
    /// Ported from `iceoryx2::port::subscriber::Subscriber::has_samples`.
    pub fn has_samples<T: Copy, U: Copy, D: Degrades>(
        &mut self,
        alloc: Global,
        listed: &[Option<Member<PublisherEntry>>],
        changes: u64,
        handler: &D,
        publishers: &mut Publishers<T, U>,
    ) -> Result<bool, ConnectionFailure>
        ensures { HasSamples (D.degrades handler.now cause.FailedToEstablishConnection) listed.now changes self.old publishers.old
            result self.new publishers.new }
    {
        let updated = self.update(alloc, listed, changes, handler, publishers);
        self.has_samples_after(updated, publishers)
    }

    // Whether some connection has data, after an update.
    fn has_samples_after<T: Copy, U: Copy>(
        &self,
        updated: Result<(), ConnectionFailure>,
        publishers: &Publishers<T, U>,
    ) -> Result<bool, ConnectionFailure>
        ensures { HasSamplesAfter updated self.now publishers.now result }
    {
        match updated {
            Ok(()) => Ok(self.first_data(publishers).is_some()),
            Err(failure) => Err(failure),
        }
    }

    /// Updates, and borrows the next message: the oldest of the first expired connection that is below the limit of borrowed
    /// messages and has data, or otherwise of the first such connection by rising key. The call answers None if no connection
    /// has data. It fails if the update does, and with `ExceedsMaxBorrows` if each connection that has data is at the limit of
    /// borrowed messages. The expired connections that were examined before the one that gave, or all of them if none gave, end
    /// if they are idle.
    ///
    /// Ported from `iceoryx2::port::subscriber::Subscriber::receive`.
    pub fn receive<T: Copy, U: Copy, D: Degrades>(
        &mut self,
        alloc: Global,
        listed: &[Option<Member<PublisherEntry>>],
        changes: u64,
        handler: &D,
        publishers: &mut Publishers<T, U>,
    ) -> Result<Option<Taken>, ReceiveError>
        ensures { ReceivesNext (D.degrades handler.now cause.FailedToEstablishConnection) listed.now changes self.old publishers.old
            result self.new publishers.new }
    {
        let updated = self.update(alloc, listed, changes, handler, publishers);
        self.receive_after(updated, publishers)
    }

    // Receives after the update.
    fn receive_after<T: Copy, U: Copy>(
        &mut self,
        updated: Result<(), ConnectionFailure>,
        publishers: &mut Publishers<T, U>,
    ) -> Result<Option<Taken>, ReceiveError>
        ensures { ReceivesAfter updated self.old publishers.old result self.new publishers.new }
    {
        match updated {
            Ok(()) => self.receive_now(publishers),
            Err(failure) => Err(ReceiveError::ConnectionFailure(failure)),
        }
    }
}

// Whether the place lists a publisher.
fn is_listed(listed: &[Option<Member<PublisherEntry>>], place: usize) -> bool
    ensures { result ≡ is_listed listed.now place }
{
    if place < listed.len() {
        listed[place].is_some()
    } else {
        false
    }
}

// The failure that the call returns in the end, after one more connection failed.
fn first_failure(
    found: Option<ConnectionFailure>,
    failure: ConnectionFailure,
    action: DegradationAction,
) -> Option<ConnectionFailure>
    ensures { result ≡ first_failure found failure action }
{
    match action {
        DegradationAction::Ignore | DegradationAction::Warn => found,
        DegradationAction::DegradeAndFail => Some(found.unwrap_or(failure)),
    }
}

// What an update answers for the failure that was found, if one was.
fn answer_of(found: Option<ConnectionFailure>) -> Result<(), ConnectionFailure>
    ensures { result ≡ update_answer found }
{
    match found {
        Some(failure) => Err(failure),
        None => Ok(()),
    }
}
