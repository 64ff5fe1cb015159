//! How subscribers update, receive, and are closed.
ghost use Rattle.iox_domain.specs.Homes as homes;
ghost use Rattle.std.specs.Prelude.{◌≡◌, ◌<◌, ◌+◌, ◌^◌, length};
ghost use Rattle.iox_container.specs.NumberTable.{value_at};
ghost use Rattle.iox_hub_commands.specs.Calls.{AtPort, AtPortIf, FollowsPublishers, Tells, SubscriberGoes};
ghost use Rattle.iox_hub_commands.specs.Numbering.{ReceivesNumbered, removed_if};
ghost use Rattle.iox_hub_commands.specs.Tables.{without_subscriber};

use crate::ports::made::{Made, MadeSample};
use iox_domain::{Home, calls};
use iox_domain_values::{ConnectionFailure, ReceiveError};
use std::alloc::Global;

impl Made {
    /// Updates the connections of a subscriber. None, and nothing happens, if the number has no subscriber, or the subscriber's domain
    /// isn't in the home. Refused as `calls::update_subscriber` refuses it.
    pub fn update_subscriber<T: Copy, U: Copy, H: Home<T, U>>(
        &self,
        alloc: Global,
        home: &mut H,
        subscriber: u64,
    ) -> Option<Result<(), ConnectionFailure>>
        ensures { AtPort (FollowsPublishers (homes.ports_of H.domain_of) (homes.with_ports H.changed)
            (homes.subscriber_degrades (λ kept. H.ForSubscribers.degrades kept) H.domain_of)) (value_at self.now.subscribers subscriber)
            home.old result home.new }
    {
        let port = self.subscriber(subscriber)?;
        calls::update_subscriber(home, alloc, port.domain, port.number)
    }

    /// Whether some connection of a subscriber has data, after an update. None, and nothing happens, if the number has no subscriber, or
    /// the subscriber's domain isn't in the home. Refused as `calls::has_samples` refuses it.
    pub fn has_samples<T: Copy, U: Copy, H: Home<T, U>>(
        &self,
        alloc: Global,
        home: &mut H,
        subscriber: u64,
    ) -> Option<Result<bool, ConnectionFailure>>
        ensures { AtPort (Tells (homes.ports_of H.domain_of) (homes.with_ports H.changed)
            (homes.subscriber_degrades (λ kept. H.ForSubscribers.degrades kept) H.domain_of)) (value_at self.now.subscribers subscriber)
            home.old result home.new }
    {
        let port = self.subscriber(subscriber)?;
        calls::has_samples(home, alloc, port.domain, port.number)
    }

    /// Receives by a subscriber, after an update, and answers the number of the received sample, if there is one. It takes no memory for
    /// the number: there must be capacity for one more sample.
    ///
    /// None, and nothing happens, if the number has no subscriber, or the subscriber's domain isn't in the home. Refused as
    /// `calls::receive` refuses it.
    pub fn receive<T: Copy, U: Copy, H: Home<T, U>>(
        &mut self,
        alloc: Global,
        home: &mut H,
        subscriber: u64,
    ) -> Option<Result<Option<u64>, ReceiveError>>
        requires room { length self.old.samples.entries < self.old.samples.room }
        requires number { self.old.samples.next + 1 < 2 ^ 64 }
        ensures { ReceivesNumbered (homes.ports_of H.domain_of) (homes.with_ports H.changed)
            (homes.subscriber_degrades (λ kept. H.ForSubscribers.degrades kept) H.domain_of) (value_at self.old.subscribers subscriber)
            self.old home.old result self.new home.new }
    {
        let port = self.subscriber(subscriber)?;
        match calls::receive(home, alloc, port.domain, port.number)? {
            Ok(Some(taken)) => Some(Ok(Some(self.samples.insert_next(MadeSample { port, taken })))),
            Ok(None) => Some(Ok(None)),
            Err(error) => Some(Err(error)),
        }
    }

    /// Closes a subscriber, whose number names nothing any longer. Answers false, and nothing happens, if the number has no subscriber, or
    /// the subscriber's domain isn't in the home.
    pub fn leave_subscriber<T: Copy, U: Copy, H: Home<T, U>>(
        &mut self,
        home: &mut H,
        subscriber: u64,
    ) -> bool
        ensures home { AtPortIf (SubscriberGoes (homes.ports_of H.domain_of) (homes.with_ports H.changed)
            (homes.without_subscriber H.changed)) (value_at self.old.subscribers subscriber) home.old result home.new }
        ensures number { self.new ≡ removed_if result (without_subscriber subscriber) self.old }
    {
        let Some(port) = self.subscriber(subscriber) else {
            return false;
        };
        if !calls::leave_subscriber(home, port.domain, port.number) {
            return false;
        }
        self.subscribers.remove(subscriber);
        true
    }
}
