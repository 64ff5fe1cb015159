//! A subscriber is created, follows the publishers, receives and is closed.
ghost use Rattle.std.specs.Prelude.{◌≡◌};
ghost use Rattle.iox_domain.specs.DomainValues.declared.degradation.DegradationCause.TheVariants as cause;
ghost use Rattle.iox_domain.specs.Ports.{AtSubscriber};
ghost use Rattle.iox_domain.specs.Subscribers.{subscriber_of};
ghost use Rattle.iox_domain.specs.PortsSubscribing.{UpdatesOne, HasSamplesOne, ReceivesOne, LeavesAt};
ghost use Rattle.iox_domain.specs.States.{with_ports};
ghost use Rattle.iox_domain.specs.Handling.{kept_degrades};
ghost use Rattle.iox_domain.specs.Kept.{kept_under};
ghost use Rattle.iox_domain.specs.Publishing.{kept_unless};
ghost use Rattle.iox_domain.specs.Subscribing.{MakesSubscriber};

use crate::ports::SubscriberConfig;
use crate::state::DomainState;
use crate::stored::Stored;
use iox_domain_ports::Taken;
use iox_domain_values::{
    ConnectionFailure, Decides, Degrades, ReceiveError, SubscriberCreateError,
};
use std::alloc::Global;

impl<T: Copy, U: Copy, B: Decides + Degrades, D: Degrades> DomainState<T, U, B, D> {
    /// Creates a subscriber, and answers its number: `ServicePorts::create_subscriber` says what the subscriber gets, and when
    /// the call fails. Its handler is stored until it is closed.
    ///
    /// Ported from `iceoryx2::service::port_factory::subscriber::PortFactorySubscriber::create`.
    pub fn create_subscriber(
        &mut self,
        alloc: Global,
        config: SubscriberConfig,
        handler: D,
    ) -> Result<u64, SubscriberCreateError>
        ensures { MakesSubscriber (D.degrades handler cause.FailedToEstablishConnection)
            config handler self.old result self.new }
    {
        let number = self.ports.next_port;
        let Ok(before) = self.subscriber_handlers.keep(number, handler) else {
            return Err(self.ports.subscriber_refusal(config.buffer_size));
        };
        let outcome = match self.subscriber_handlers.get(number) {
            Some(handler) => self.ports.create_subscriber(alloc, config, handler),
            None => unreachable!(),
        };
        match outcome {
            Ok(number) => Ok(number),
            Err(error) => {
                self.subscriber_handlers.put_back(number, before);
                Err(error)
            }
        }
    }

    /// The subscriber follows the list of publishers: `ServicePorts::update_subscriber` says what that does.
    ///
    /// Ported from `iceoryx2::port::subscriber::Subscriber::update_connections`.
    pub fn update_subscriber(
        &mut self,
        alloc: Global,
        number: u64,
    ) -> Option<Result<(), ConnectionFailure>>
        ensures updates { AtSubscriber number
            (UpdatesOne (kept_degrades (λ kept. D.degrades kept) (kept_under number self.old.subscriber_handlers))
            self.old.ports.publisher_list) (subscriber_of number self.old.ports.subscribers) self.old.ports result self.new.ports }
        ensures rest { self.new ≡ with_ports self.new.ports self.old }
    {
        let stored = Stored {
            handlers: &self.subscriber_handlers,
            number,
        };
        self.ports.update_subscriber(alloc, number, &stored)
    }

    /// Whether some connection of the subscriber has data: `ServicePorts::has_samples` says what that does.
    ///
    /// Ported from `iceoryx2::port::subscriber::Subscriber::has_samples`.
    pub fn has_samples(
        &mut self,
        alloc: Global,
        number: u64,
    ) -> Option<Result<bool, ConnectionFailure>>
        ensures has { AtSubscriber number (HasSamplesOne
            (kept_degrades (λ kept. D.degrades kept) (kept_under number self.old.subscriber_handlers)) self.old.ports.publisher_list)
            (subscriber_of number self.old.ports.subscribers) self.old.ports result self.new.ports }
        ensures rest { self.new ≡ with_ports self.new.ports self.old }
    {
        let stored = Stored {
            handlers: &self.subscriber_handlers,
            number,
        };
        self.ports.has_samples(alloc, number, &stored)
    }

    /// The subscriber receives: `ServicePorts::receive` says which message it gets, and when that fails.
    ///
    /// Ported from `iceoryx2::port::subscriber::Subscriber::receive`.
    pub fn receive(
        &mut self,
        alloc: Global,
        number: u64,
    ) -> Option<Result<Option<Taken>, ReceiveError>>
        ensures receives { AtSubscriber number
            (ReceivesOne (kept_degrades (λ kept. D.degrades kept) (kept_under number self.old.subscriber_handlers))
            self.old.ports.publisher_list) (subscriber_of number self.old.ports.subscribers) self.old.ports result self.new.ports }
        ensures rest { self.new ≡ with_ports self.new.ports self.old }
    {
        let stored = Stored {
            handlers: &self.subscriber_handlers,
            number,
        };
        self.ports.receive(alloc, number, &stored)
    }

    /// Closes the subscriber: `ServicePorts::leave_subscriber` says what that does. Its handler is dropped.
    ///
    /// Ported from dropping an `iceoryx2::port::subscriber::Subscriber`.
    pub fn leave_subscriber(&mut self, number: u64) -> bool
        ensures leaves { LeavesAt number (subscriber_of number self.old.ports.subscribers) self.old.ports result self.new.ports }
        ensures rest { self.new ≡ record (with_ports self.new.ports self.old)
            { subscriber_handlers = kept_unless result number self.old.subscriber_handlers } }
    {
        let left = self.ports.leave_subscriber(number);
        if left {
            self.subscriber_handlers.forget(number);
        }
        left
    }
}
