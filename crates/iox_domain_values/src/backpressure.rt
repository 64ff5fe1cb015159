//! What a handler is given about a full mailbox, what it may answer, and what strategy and answer decide.
ghost use Rattle.std.specs.Prelude.{◌≡◌, ◌↔◌, ◌⊎◌, Option, Some, None};
ghost use Rattle.iox_domain_values.specs.Actions.{receiver_action, decision_of};
ghost use Rattle.iox_domain_values.specs.declared.backpressure.BackpressureAction.TheVariants as action;
ghost use Rattle.iox_domain_values.specs.declared.backpressure.BackpressureDecision.TheVariants as decided;
ghost use Rattle.iox_domain_values.specs.declared.backpressure_strategy.BackpressureStrategy.TheVariants as planned;

use crate::backpressure_strategy::BackpressureStrategy;

/// What a handler answers at a full mailbox.
///
/// Ported from `iceoryx2::port::BackpressureAction`.
#[derive(Clone, Copy, Debug, PartialEq, Eq)]
pub enum BackpressureAction {
    /// The strategy decides.
    FollowBackpressureyStrategy,
    /// The send blocks, and the handler is asked again if the mailbox is still full when the send is retried.
    Retry,
    /// The send skips this mailbox.
    DiscardData,
    /// The send skips this mailbox, and fails after the other ones.
    DiscardDataAndFail,
}

/// A `BackpressureAction`, in the form in which iceoryx2 hands it to a connection.
///
/// Ported from `iceoryx2::port::BackpressureToReceiverAction`.
#[derive(Clone, Copy, Debug, PartialEq, Eq)]
pub enum BackpressureToReceiverAction {
    /// The strategy decides.
    FollowBackpressureyStrategy,
    /// The send blocks, and the handler is asked again if the mailbox is still full when the send is retried.
    Retry,
    /// The send skips this mailbox.
    DiscardPointerOffset,
    /// The send skips this mailbox, and fails after the other ones.
    DiscardPointerOffsetAndFail,
}

impl From<BackpressureAction> for BackpressureToReceiverAction {
    ghost from_gives = { λ action made. made ≡ receiver_action action };

    fn from(action: BackpressureAction) -> Self {
        match action {
            BackpressureAction::FollowBackpressureyStrategy =>
                BackpressureToReceiverAction::FollowBackpressureyStrategy,
            BackpressureAction::Retry => BackpressureToReceiverAction::Retry,
            BackpressureAction::DiscardData => BackpressureToReceiverAction::DiscardPointerOffset,
            BackpressureAction::DiscardDataAndFail =>
                BackpressureToReceiverAction::DiscardPointerOffsetAndFail,
        }
    }
}

/// What a handler is given about a full mailbox.
///
/// Ported from `iceoryx2::port::BackpressureInfo`, with numbers of 64 bits.
#[derive(Clone, Copy, Debug, PartialEq, Eq)]
pub struct BackpressureInfo {
    /// The number of the service.
    pub service_id: u64,
    /// The number of the publisher that sends.
    pub sender_port_id: u64,
    /// The number of the subscriber whose mailbox is full.
    pub receiver_port_id: u64,
    /// How often this mailbox was tried again in this send; 0 at first.
    pub retries: u64,
    /// The number of nanoseconds since this mailbox was first found full in this send, as the caller passes it; 0 at first.
    pub elapsed_time: u64,
}

/// What a send does at a full mailbox.
#[derive(Clone, Copy, Debug, PartialEq, Eq)]
pub enum BackpressureDecision {
    /// The send blocks at this mailbox.
    Retry,
    /// The send skips this mailbox.
    DiscardData,
    /// The send skips this mailbox, and fails after the other ones.
    DiscardDataAndFail,
}

/// What a send does at a full mailbox, by the publisher's strategy and what its handler answered (`None` if it has no handler).
/// The strategy decides if there is no handler, or if the handler follows the strategy. No strategy makes a send fail.
pub fn decision(
    strategy: BackpressureStrategy,
    answer: Option<BackpressureAction>,
) -> BackpressureDecision
    ensures decided { result ≡ decision_of strategy answer }
    ensures retries { (result ≡ decided.Retry)
        ↔ ((answer ≡ Some action.Retry) ⊎ (strategy ≡ planned.RetryUntilDelivered)
        × ((answer ≡ None) ⊎ (answer ≡ Some action.FollowBackpressureyStrategy))) }
    ensures fails { (result ≡ decided.DiscardDataAndFail) ↔ (answer ≡ Some action.DiscardDataAndFail) }
{
    match answer {
        None | Some(BackpressureAction::FollowBackpressureyStrategy) => match strategy {
            BackpressureStrategy::RetryUntilDelivered => BackpressureDecision::Retry,
            BackpressureStrategy::DiscardData => BackpressureDecision::DiscardData,
        },
        Some(BackpressureAction::Retry) => BackpressureDecision::Retry,
        Some(BackpressureAction::DiscardData) => BackpressureDecision::DiscardData,
        Some(BackpressureAction::DiscardDataAndFail) => BackpressureDecision::DiscardDataAndFail,
    }
}
