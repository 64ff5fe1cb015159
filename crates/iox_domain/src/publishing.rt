//! A publisher is created, follows the subscribers, sends and is closed.
ghost use Rattle.std.specs.Prelude.{◌≡◌};
ghost use Rattle.iox_domain.specs.DomainValues.declared.degradation.DegradationCause.TheVariants as cause;
ghost use Rattle.iox_domain.specs.DomainPorts.Publishers.{port_of};
ghost use Rattle.iox_domain.specs.Lending.{LoansOne};
ghost use Rattle.iox_domain.specs.Ports.{AtPublisher};
ghost use Rattle.iox_domain.specs.PortsPublishing.{UpdatesOne, SendsOne, RetriesOne, LeavesAt};
ghost use Rattle.iox_domain.specs.Putting.{PutsOne};
ghost use Rattle.iox_domain.specs.States.{with_ports};
ghost use Rattle.iox_domain.specs.Handling.{kept_degrades, kept_decides};
ghost use Rattle.iox_domain.specs.Kept.{kept_under};
ghost use Rattle.iox_domain.specs.Publishing.{MakesPublisher, kept_unless};

use crate::ports::PublisherConfig;
use crate::state::DomainState;
use crate::stored::Stored;
use iox_domain_ports::Sent;
use iox_domain_values::{
    ConnectionFailure, Decides, Degrades, LoanError, Overrides, PublisherCreateError, SendError,
};
use std::alloc::Global;

impl<T: Copy, U: Copy, B: Decides + Degrades, D: Degrades> DomainState<T, U, B, D> {
    /// Creates a publisher, and answers its number: `ServicePorts::create_publisher` says what the publisher gets, and when the
    /// call fails. Its handlers are stored until it is closed; a loan first has this user header.
    ///
    /// Ported from `iceoryx2::service::port_factory::publisher::PortFactoryPublisher::create`.
    pub fn create_publisher<O: Overrides>(
        &mut self,
        alloc: Global,
        config: PublisherConfig,
        user_header: U,
        overriding: &O,
        handlers: B,
    ) -> Result<u64, PublisherCreateError>
        ensures { MakesPublisher (O.overrides overriding.now)
            (B.degrades handlers cause.FailedToEstablishConnection)
            config user_header handlers self.old result self.new }
    {
        let number = self.ports.next_port;
        let Ok(before) = self.publisher_handlers.keep(number, handlers) else {
            return Err(self.ports.publisher_refusal(&config));
        };
        let outcome = match self.publisher_handlers.get(number) {
            Some(handlers) => self.ports.create_publisher(
                alloc,
                config,
                self.blank,
                user_header,
                overriding,
                handlers,
            ),
            None => unreachable!(),
        };
        match outcome {
            Ok(number) => Ok(number),
            Err(error) => {
                self.publisher_handlers.put_back(number, before);
                Err(error)
            }
        }
    }

    /// The publisher loans a slot for `values` values and `elements` elements: `ServicePorts::loan` says what that does.
    ///
    /// Ported from `iceoryx2::port::publisher::Publisher::loan_slice_uninit`.
    pub fn loan(
        &mut self,
        alloc: Global,
        number: u64,
        values: usize,
        elements: u64,
    ) -> Option<Result<usize, LoanError>>
        ensures loans { AtPublisher number (LoansOne values elements) (port_of number self.old.ports.publishers) self.old.ports result
            self.new.ports }
        ensures rest { self.new ≡ with_ports self.new.ports self.old }
    {
        self.ports.loan(alloc, number, values, elements, self.blank)
    }

    /// The publisher follows the list of subscribers: `ServicePorts::update_publisher` says what that does.
    ///
    /// Ported from `iceoryx2::port::publisher::Publisher::update_connections`.
    pub fn update_publisher(
        &mut self,
        alloc: Global,
        number: u64,
    ) -> Option<Result<(), ConnectionFailure>>
        ensures updates { AtPublisher number
            (UpdatesOne (kept_degrades (λ kept. B.degrades kept) (kept_under number self.old.publisher_handlers))
            self.old.ports.subscriber_list) (port_of number self.old.ports.publishers) self.old.ports result self.new.ports }
        ensures rest { self.new ≡ with_ports self.new.ports self.old }
    {
        let stored = Stored {
            handlers: &self.publisher_handlers,
            number,
        };
        self.ports.update_publisher(alloc, number, &stored)
    }

    /// The publisher sends the written loan in this slot: `ServicePorts::send` says what that does and answers.
    ///
    /// Ported from `iceoryx2::sample_mut::SampleMut::send`.
    pub fn send(
        &mut self,
        alloc: Global,
        number: u64,
        slot: usize,
    ) -> Option<Result<Sent, SendError>>
        ensures sends { AtPublisher number (SendsOne
            (kept_degrades (λ kept. B.degrades kept) (kept_under number self.old.publisher_handlers))
            (kept_decides (λ kept. B.decides kept) (kept_under number self.old.publisher_handlers)) self.old.ports.subscriber_list slot)
            (port_of number self.old.ports.publishers) self.old.ports result self.new.ports }
        ensures rest { self.new ≡ with_ports self.new.ports self.old }
    {
        let stored = Stored {
            handlers: &self.publisher_handlers,
            number,
        };
        self.ports.send(alloc, number, slot, &stored)
    }

    /// The publisher loans as many values, writes them and sends them: `ServicePorts::put` says what that does and answers.
    ///
    /// Ported from `iceoryx2::port::publisher::Publisher::send_copy`, for slices.
    /// Example: `let sent = state.put(alloc, number, &[7, 8]);`
    pub fn put(
        &mut self,
        alloc: Global,
        number: u64,
        values: &[T],
    ) -> Option<Result<Sent, SendError>>
        ensures puts { AtPublisher number (PutsOne
            (kept_degrades (λ kept. B.degrades kept) (kept_under number self.old.publisher_handlers))
            (kept_decides (λ kept. B.decides kept) (kept_under number self.old.publisher_handlers)) self.old.ports.subscriber_list
            values.now) (port_of number self.old.ports.publishers) self.old.ports result self.new.ports }
        ensures rest { self.new ≡ with_ports self.new.ports self.old }
    {
        let stored = Stored {
            handlers: &self.publisher_handlers,
            number,
        };
        self.ports.put(alloc, number, values, self.blank, &stored)
    }

    /// Tries once more the place at which the publisher's send is blocked, `elapsed` nanoseconds after its mailbox was first found
    /// full: `ServicePorts::retry` says what that does.
    ///
    /// Not in `iceoryx2`: `iceoryx2::port::publisher::Publisher::send` blocks its caller.
    pub fn retry(&mut self, number: u64, elapsed: u64) -> Option<Result<Sent, SendError>>
        ensures retries { AtPublisher number
            (RetriesOne (kept_decides (λ kept. B.decides kept) (kept_under number self.old.publisher_handlers)) elapsed)
            (port_of number self.old.ports.publishers) self.old.ports result self.new.ports }
        ensures rest { self.new ≡ with_ports self.new.ports self.old }
    {
        let stored = Stored {
            handlers: &self.publisher_handlers,
            number,
        };
        self.ports.retry(number, elapsed, &stored)
    }

    /// Closes the publisher: `ServicePorts::leave_publisher` says what that does. Its handlers are dropped.
    ///
    /// Ported from dropping an `iceoryx2::port::publisher::Publisher`.
    pub fn leave_publisher(&mut self, number: u64) -> bool
        ensures leaves { LeavesAt number (port_of number self.old.ports.publishers) self.old.ports result self.new.ports }
        ensures rest { self.new ≡ record (with_ports self.new.ports self.old)
            { publisher_handlers = kept_unless result number self.old.publisher_handlers } }
    {
        let left = self.ports.leave_publisher(number);
        if left {
            self.publisher_handlers.forget(number);
        }
        left
    }
}
