//! A publisher of single values, and what it has in common with a publisher of slices.
ghost use Rattle.iox_domain.specs.Homes as homes;
ghost use Rattle.std.specs.Prelude.{◌≡◌, ◌&&◌, ◌∷◌, [], true, false, not, IfOk, is_ok};
ghost use Rattle.iox_domain.specs.Steps.{UpdatesBy};
ghost use Rattle.iox_delivery.specs.Lent.{IsReady};
ghost use Rattle.iox_delivery.specs.Holding.{publisher_stands, publisher_blocked, left_or_given_back};
ghost use Rattle.iox_delivery.specs.Publishing.{LendsUninit, LendsDefault, SendsCopy, PublisherGoes, EndsPublisher};

use crate::kind::Single;
use crate::port::Port;
use crate::port_id::PortId;
use crate::sample_mut::SampleMut;
use crate::sample_mut_uninit::SampleMutUninit;
use crate::sent::Sent;
use crate::update_connections::UpdateConnections;
use crate::{lending, publishing};
use iox_describe_base::TypeVariant;
use iox_domain::Home;
use iox_domain_values::{BackpressureStrategy, ConnectionFailure, LoanError, SendError};
use std::alloc::Global;
use std::marker::PhantomData;

/// A publisher, of single values if no other kind is given. It is open until it is closed.
///
/// Ported from `iceoryx2::port::publisher::Publisher`.
pub type Publisher<T, U, K = Single> = Port<T, U, K, PublisherSide>;

/// What the value of a publisher has beside its id: the strategy, the length and the kind of payload with which the publisher was
/// created.
#[derive(Clone, Copy)]
pub struct PublisherSide {
    pub(crate) strategy: BackpressureStrategy,
    pub(crate) initial_max_slice_len: usize,
    pub(crate) payload: TypeVariant,
}

impl<T: Copy, U: Copy, K> Publisher<T, U, K> {
    /// The publisher with this id as a value. `initial_max_slice_len` is how many elements its loans may have at first: 1 for
    /// single values. `payload` is what its service agreed on: whether a payload is one element or a slice of any number of them.
    ///
    /// Not in `iceoryx2`: code that creates ports by number returns them in this way.
    /// Example: `let publisher = Publisher::of_port(port, BackpressureStrategy::DiscardData, 1, TypeVariant::FixedSize);`
    pub fn of_port(
        port: PortId,
        strategy: BackpressureStrategy,
        initial_max_slice_len: usize,
        payload: TypeVariant,
    ) -> Self
        ensures port { result.port ≡ port }
        ensures strategy { result.side.strategy ≡ strategy }
        ensures initial_max_slice_len { result.side.initial_max_slice_len ≡ initial_max_slice_len }
        ensures payload { result.side.payload ≡ payload }
    {
        Port {
            port,
            side: PublisherSide {
                strategy,
                initial_max_slice_len,
                payload,
            },
            of: PhantomData,
        }
    }

    /// The backpressure strategy that the publisher's builder was given: what a send does at a full mailbox if the handlers are
    /// `Handlers` and no handler decides. Handlers of another type, such as `Nobody`, decide without it.
    ///
    /// Ported from `iceoryx2::port::publisher::Publisher::backpressure_strategy`.
    /// Example: `let strategy = publisher.backpressure_strategy();`
    pub fn backpressure_strategy(&self) -> BackpressureStrategy
        ensures { result ≡ self.now.side.strategy }
    {
        self.side.strategy
    }

    /// Whether the publisher is open in this home, which its calls require.
    /// Example: `let is_there = publisher.holds(home);`
    pub fn holds<H: Home<T, U>>(&self, home: &H) -> bool
        ensures { result ≡ publisher_stands self.now.port.number (homes.ports_of H.domain_of self.now.port.domain home.now) }
    {
        publishing::holds(self.port, home)
    }

    /// Whether a send of the publisher is blocked; its calls require that none is.
    /// Example: `let waits = publisher.is_blocked(home);`
    pub fn is_blocked<H: Home<T, U>>(&self, home: &H) -> bool
        ensures { result ≡ publisher_blocked self.now.port.number (homes.ports_of H.domain_of self.now.port.domain home.now) }
    {
        publishing::is_blocked(self.port, home)
    }

    /// Drops the publisher: it is closed as by `leave`, if it is open in this home and no send of it is blocked. Otherwise nothing
    /// happens, and the publisher is returned, so that it can be closed in its own home, or once that send has ended.
    ///
    /// Ported from dropping an `iceoryx2::port::publisher::Publisher`.
    /// Example: `if let Err(kept) = publisher.drop_with(home) { .. }`
    pub fn drop_with<H: Home<T, U>>(self, home: &mut H) -> Result<(), Self>
        ensures ends { EndsPublisher (homes.ports_of H.domain_of) (homes.with_ports H.changed) (homes.without_publisher H.changed)
            self.port home.old (is_ok result) home.new }
        ensures left { result ≡ left_or_given_back
            (publisher_stands self.port.number (homes.ports_of H.domain_of self.port.domain home.old)
            && not (publisher_blocked self.port.number (homes.ports_of H.domain_of self.port.domain home.old))) self }
    {
        if publishing::drop_port(self.port, home) {
            let _ = self.into_port();
            Ok(())
        } else {
            Err(self)
        }
    }

    /// Closes the publisher: what was sent can still be read, and its loans can't be sent any longer. Its handlers are dropped.
    ///
    /// Ported from dropping an `iceoryx2::port::publisher::Publisher`.
    /// Example: `publisher.leave(home);`
    pub fn leave<H: Home<T, U>>(self, home: &mut H)
        requires holds { publisher_stands self.port.number (homes.ports_of H.domain_of self.port.domain home.old) ≡ true }
        requires free { publisher_blocked self.port.number (homes.ports_of H.domain_of self.port.domain home.old) ≡ false }
        ensures { PublisherGoes (homes.ports_of H.domain_of) (homes.with_ports H.changed) (homes.without_publisher H.changed) self.port
            home.old home.new }
    {
        publishing::leave(self.into_port(), home);
    }
}

impl<T: Copy, U: Copy> Publisher<T, U> {
    /// Loans a value that isn't written. The call fails as `ServicePorts::loan` does: with `ExceedsMaxLoans` if as many loans
    /// exist as the limit allows, and otherwise with `OutOfMemory` if each of the publisher's slots is in use.
    ///
    /// Ported from `iceoryx2::port::publisher::Publisher::loan_uninit`.
    /// Example: `let loan = publisher.loan_uninit(alloc, home)?;`
    pub fn loan_uninit<H: Home<T, U>>(
        &self,
        alloc: Global,
        home: &mut H,
    ) -> Result<SampleMutUninit<T, U>, LoanError>
        requires holds { publisher_stands self.now.port.number (homes.ports_of H.domain_of self.now.port.domain home.old) ≡ true }
        requires free { publisher_blocked self.now.port.number (homes.ports_of H.domain_of self.now.port.domain home.old) ≡ false }
        ensures { LendsUninit (homes.ports_of H.domain_of) (homes.with_ports H.changed) self.now.port home.old result home.new }
    {
        let slot = publishing::loan(self.port, alloc, home, 1, 1)?;
        Ok(SampleMutUninit::of_loan(self.port, slot, 1))
    }

    /// Loans a value that is written with a default. The call fails as `loan_uninit` does. The loan can be sent at once: it is
    /// written, and no send is blocked.
    ///
    /// Ported from `iceoryx2::port::publisher::Publisher::loan`.
    /// Example: `let sample = publisher.loan(alloc, home)?;`
    pub fn loan<H: Home<T, U>>(
        &self,
        alloc: Global,
        home: &mut H,
    ) -> Result<SampleMut<T, U>, LoanError>
    where
        T: Default,
        requires holds { publisher_stands self.now.port.number (homes.ports_of H.domain_of self.now.port.domain home.old) ≡ true }
        requires free { publisher_blocked self.now.port.number (homes.ports_of H.domain_of self.now.port.domain home.old) ≡ false }
        ensures lends { LendsDefault (homes.ports_of H.domain_of) (homes.with_ports H.changed) T.is_default self.now.port home.old
            result home.new }
        ensures ready { IfOk result (λ sample. (value : T) × T.is_default value
            × IsReady self.now.port.number (value ∷ []) 1 sample.slot (homes.ports_of H.domain_of self.now.port.domain home.new)) }
    {
        let slot = publishing::loan_value(self.port, alloc, home, T::default())?;
        Ok(SampleMut::of_loan(self.port, slot))
    }

    /// Loans a value, writes it and sends it. If the loan fails, as `loan_uninit` does, the error is `SendError::LoanError`,
    /// and nothing is sent; otherwise the call answers as `SampleMut::send` does.
    ///
    /// Ported from `iceoryx2::port::publisher::Publisher::send_copy`.
    /// Example: `let sent = publisher.send_copy(alloc, home, 7)?;`
    pub fn send_copy<H: Home<T, U>>(
        &self,
        alloc: Global,
        home: &mut H,
        value: T,
    ) -> Result<Sent<T, U>, SendError>
        requires holds { publisher_stands self.now.port.number (homes.ports_of H.domain_of self.now.port.domain home.old) ≡ true }
        requires free { publisher_blocked self.now.port.number (homes.ports_of H.domain_of self.now.port.domain home.old) ≡ false }
        ensures { SendsCopy (homes.ports_of H.domain_of) (homes.with_ports H.changed)
            (homes.publisher_degrades (λ kept. H.ForPublishers.degrades kept) H.domain_of)
            (homes.publisher_decides (λ kept. H.ForPublishers.decides kept) H.domain_of) self.now.port value home.old result home.new }
    {
        let slot = publishing::loan_value(self.port, alloc, home, value)?;
        lending::send(self.port, slot, alloc, home)
    }
}

impl<T: Copy, U: Copy, K> UpdateConnections<T, U> for Publisher<T, U, K> {
    ghost port_of = { λ publisher. publisher.port };

    ghost may_follow = { λ number ports. publisher_stands number ports && not (publisher_blocked number ports) };

    ghost follows = { λ publishers subscribers number. UpdatesBy publishers number };

    fn update_connections<H: Home<T, U>>(
        &self,
        alloc: Global,
        home: &mut H,
    ) -> Result<(), ConnectionFailure> {
        publishing::update(self.port, alloc, home)
    }
}
