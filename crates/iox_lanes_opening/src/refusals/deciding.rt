//! Which ports have handlers of the caller, and which publishers would block or fail at a full mailbox.
ghost use Rattle.std.specs.Prelude.{◌≡◌, Bool, Option, false, option_copied, Some};
ghost use Rattle.std.specs.List.{list_any};
ghost use Rattle.iox_domain.specs.DomainValues.declared.backpressure.BackpressureDecision.{BackpressureDecision};
ghost use Rattle.iox_domain.specs.DomainValues.declared.backpressure.BackpressureDecision.TheVariants as decided;
ghost use Rattle.iox_domain.specs.Kept.{kept_under};
ghost use Rattle.iox_lanes_opening.specs.Deciding.{asks_object, fixed_answer, fixed_decision, has_handlers, has_object, is_failure};
ghost use Rattle.iox_lanes_opening.specs.Deciding.{is_kept_object, is_object, is_retry, is_retrying, retries, would_fail, would_wait};
ghost use Rattle.iox_lanes_opening.specs.Deciding.{OnlyDecides, TakesOneAction};
ghost use Rattle.iox_lanes_opening.specs.Deciding as deciding;

use iox_domain::{Domain, Kept, Nobody};
use iox_domain_ports::PublisherPort;
use iox_domain_values::backpressure::decision;
use iox_domain_values::{
    BackpressureAction, BackpressureDecision, BackpressureHandler, Decides, DegradationHandler,
    Degrades, Handlers,
};

/// Handlers of a publisher of which lanes know what they decide, since lanes don't ask. An implementation proves that its handlers may
/// decide nothing else.
///
/// Not in `iceoryx2`.
pub trait FixedDecision: Decides + Degrades {
    // what a send does at each full mailbox, if no handler is an object of the caller
    ghost decision: { Self → Option BackpressureDecision };

    /// What a send does at each full mailbox. None if one of the handlers is an object of the caller.
    fn fixed_decision(&self) -> Option<BackpressureDecision>
        ensures { result ≡ decision self.now };

    // where there is a fixed decision, no other one may be made at a full mailbox
    ghost decides_so: { (handlers : Self) (fixed : BackpressureDecision) → decision handlers ≡ Some fixed
        → OnlyDecides (Self.decides handlers) fixed };

    // and only one action may be taken if a connection fails
    ghost degrades_so: { (handlers : Self) (fixed : BackpressureDecision) → decision handlers ≡ Some fixed
        → TakesOneAction (Self.degrades handlers) };
}

/// A handler of a subscriber of which lanes know whether it is an object of the caller, since lanes don't ask. An implementation proves
/// that its handler, if it is no object, may take only one action.
///
/// Not in `iceoryx2`.
pub trait AsksCaller: Degrades {
    // whether the handler is an object of the caller
    ghost asks: { Self → Bool };

    /// Whether the handler is an object of the caller.
    fn asks_caller(&self) -> bool
        ensures { result ≡ asks self.now };

    // a handler that is no object may take only one action if a connection fails
    ghost degrades_so: { (handler : Self) → asks handler ≡ false → TakesOneAction (Self.degrades handler) };
}

impl FixedDecision for Handlers {
    ghost decision = { fixed_decision };

    ghost decides_so = { deciding.handlers_decide _ };

    ghost degrades_so = { deciding.handlers_degrade _ };

    fn fixed_decision(&self) -> Option<BackpressureDecision> {
        if asks_object(&self.backpressure) || is_object(&self.degradation) {
            return None;
        }
        Some(decision(self.strategy, fixed_answer(&self.backpressure)))
    }
}

impl AsksCaller for DegradationHandler {
    ghost asks = { is_object };

    ghost degrades_so = { deciding.handler_degrades _ };

    fn asks_caller(&self) -> bool {
        is_object(self)
    }
}

impl FixedDecision for Nobody {
    ghost decision = { λ _. Some decided.Retry };

    ghost decides_so = { λ nobody. deciding.nobody_decides };

    ghost degrades_so = { λ nobody fixed is. deciding.nobody_degrades };

    fn fixed_decision(&self) -> Option<BackpressureDecision> {
        Some(BackpressureDecision::Retry)
    }
}

impl AsksCaller for Nobody {
    ghost asks = { λ _. false };

    ghost degrades_so = { λ nobody no. deciding.nobody_degrades };

    fn asks_caller(&self) -> bool {
        false
    }
}

/// Whether some port has a handler that is an object of the caller.
pub fn has_handlers<T: Copy, U: Copy, B: FixedDecision, D: AsksCaller>(
    domain: &Domain<T, U, B, D>,
) -> bool
    ensures { result ≡ has_handlers B.decision D.asks domain.now }
{
    has_publisher_handlers(domain) || has_subscriber_handlers(domain)
}

fn has_publisher_handlers<T: Copy, U: Copy, B: FixedDecision, D>(
    domain: &Domain<T, U, B, D>,
) -> bool
    ensures { result ≡ list_any (λ entry. has_object B.decision (kept_under entry.0 domain.now.state.publisher_handlers))
        domain.now.state.ports.publishers }
{
    for (number, _port) in domain.state.ports.publishers.iter() {
        if has_object(domain.state.publisher_handlers.get(*number)) {
            return true;
        }
    }
    false
}

fn has_subscriber_handlers<T: Copy, U: Copy, B, D: AsksCaller>(domain: &Domain<T, U, B, D>) -> bool
    ensures { result ≡ list_any (λ entry. is_kept_object D.asks (kept_under entry.0 domain.now.state.subscriber_handlers))
        domain.now.state.ports.subscribers }
{
    for (number, _port) in domain.state.ports.subscribers.iter() {
        if is_kept_object(domain.state.subscriber_handlers.get(*number)) {
            return true;
        }
    }
    false
}

// Whether a publisher has a handler that is an object.
fn has_object<B: FixedDecision>(handlers: Option<&B>) -> bool
    ensures { result ≡ has_object B.decision (option_copied handlers.entry) }
{
    match handlers {
        Some(handlers) => handlers.fixed_decision().is_none(),
        None => false,
    }
}

// Whether a send asks an object at a full mailbox.
fn asks_object(handler: &Option<BackpressureHandler>) -> bool
    ensures { result ≡ asks_object handler.now }
{
    match handler {
        Some(handler) => handler.fixed_action().is_none(),
        None => false,
    }
}

// Whether an object is asked when a connection fails.
fn is_object(handler: &DegradationHandler) -> bool
    ensures { result ≡ is_object handler.now }
{
    handler.fixed_action().is_none()
}

// Whether a subscriber has a handler that is an object.
fn is_kept_object<D: AsksCaller>(handler: Option<&D>) -> bool
    ensures { result ≡ is_kept_object D.asks (option_copied handler.entry) }
{
    match handler {
        Some(handler) => handler.asks_caller(),
        None => false,
    }
}

/// Whether mailboxes don't overflow, and a send of some publisher would block at a full mailbox.
pub fn is_retrying<T: Copy, U: Copy, B: FixedDecision, D>(domain: &Domain<T, U, B, D>) -> bool
    ensures { result ≡ is_retrying B.decision domain.now }
{
    !domain.state.ports.sizes.enable_safe_overflow && has_retrying(domain)
}

fn has_retrying<T: Copy, U: Copy, B: FixedDecision, D>(domain: &Domain<T, U, B, D>) -> bool
    ensures { result ≡ list_any (retries B.decision domain.now.state.publisher_handlers) domain.now.state.ports.publishers }
{
    for (number, port) in domain.state.ports.publishers.iter() {
        if retries(&domain.state.publisher_handlers, *number, port) {
            return true;
        }
    }
    false
}

// Whether this publisher isn't closed, and a send of it would block at a full mailbox.
fn retries<T: Copy, U: Copy, B: FixedDecision>(
    handlers: &Kept<B>,
    number: u64,
    port: &PublisherPort<T, U>,
) -> bool
    ensures { result ≡ retries B.decision handlers.now (number, port.now) }
{
    port.stands && would_wait(handlers.get(number))
}

// Whether a send with these handlers blocks at a full mailbox.
fn would_wait<B: FixedDecision>(handlers: Option<&B>) -> bool
    ensures { result ≡ would_wait B.decision (option_copied handlers.entry) }
{
    match handlers {
        Some(handlers) => is_retry(handlers.fixed_decision()),
        None => true,
    }
}

fn is_retry(decision: Option<BackpressureDecision>) -> bool
    ensures { result ≡ is_retry decision }
{
    match decision {
        Some(BackpressureDecision::Retry) | None => true,
        Some(BackpressureDecision::DiscardData | BackpressureDecision::DiscardDataAndFail) => false,
    }
}

/// Whether a send with these handlers fails at a full mailbox: the decision is to skip the mailbox and fail.
pub fn would_fail<B: FixedDecision>(handlers: Option<&B>) -> bool
    ensures { result ≡ would_fail B.decision (option_copied handlers.entry) }
{
    match handlers {
        Some(handlers) => is_failure(handlers.fixed_decision()),
        None => false,
    }
}

fn is_failure(decision: Option<BackpressureDecision>) -> bool
    ensures { result ≡ is_failure decision }
{
    match decision {
        Some(BackpressureDecision::Retry | BackpressureDecision::DiscardData) | None => false,
        Some(BackpressureDecision::DiscardDataAndFail) => true,
    }
}

// The action that the handler takes at each full mailbox, if it is a fixed one.
fn fixed_answer(handler: &Option<BackpressureHandler>) -> Option<BackpressureAction>
    ensures { result ≡ fixed_answer handler.now }
{
    match handler {
        Some(handler) => handler.fixed_action(),
        None => None,
    }
}
