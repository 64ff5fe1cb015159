//! What no contract says: the text form of values, and that an object that is handed in is asked once, with the right arguments.
ghost use Rattle.std.specs.Prelude.{◌≡◌, ◌≤◌, ◌⊎◌, ⊤};
ghost use Rattle.iox_domain_values.specs.declared.backpressure.BackpressureAction.TheVariants as action;

use iox_domain_values::{
    BackpressureAction, BackpressureFn, BackpressureHandler, BackpressureInfo,
    BackpressureStrategy, BackpressureToReceiverAction, DegradationAction, DegradationCause,
    DegradationFn, DegradationHandler, DegradationInfo, Degrades, PreallocatedSamplesFn,
    PreallocatedSamplesOverride, number_of_places,
};
use serde_json::Error;
use std::alloc::{AllocError, Global};
use std::cell::Cell;
use std::process::Abort;

const STRATEGIES: [(BackpressureStrategy, &str); 2] = [
    (
        BackpressureStrategy::RetryUntilDelivered,
        "\"RetryUntilDelivered\"",
    ),
    (BackpressureStrategy::DiscardData, "\"DiscardData\""),
];

// Whether a strategy is written so, and read back.
fn goes_through(
    alloc: Global,
    strategy: BackpressureStrategy,
    json: &'static str,
) -> Result<bool, Error> {
    let written = serde_json::to_string(alloc, &strategy)?.as_str() == json;
    Ok(written && serde_json::from_str::<BackpressureStrategy>(alloc, json)? == strategy)
}

// Each strategy must.
fn all_go_through(rt: &impl Abort, alloc: Global) -> Result<(), Error> {
    for (strategy, json) in &STRATEGIES {
        assert!(rt; goes_through(alloc, *strategy, *json)?, "{json}");
    }
    Ok(())
}

const NONE_OF_THEM: [&str; 5] = ["\"discardData\"", "\"Discard\"", "\"\"", "1", "null"];

// Other texts must be refused.
fn others_are_refused(rt: &impl Abort, alloc: Global) {
    for json in &NONE_OF_THEM {
        assert!(rt;
            serde_json::from_str::<BackpressureStrategy>(alloc, *json).is_err(),
            "{json}"
        );
    }
}

#[test]
fn strategies_go_through_their_names(rt: HostRuntime) -> Result<(), Error> {
    others_are_refused(&rt, rt.alloc());
    all_go_through(&rt, rt.alloc())
}

// Retries while it is given the number of its calls so far, and fails the send otherwise.
#[derive(Drop)]
struct Counting {
    calls: Cell<u64>,
}

impl Counting {
    fn is_told(&self, number: u64) -> bool {
        let expected = self.calls.get();
        self.calls.set(expected.wrapping_add(1));
        number == expected
    }
}

impl BackpressureFn for Counting {
    ghost allows = { λ _ _ answer. (answer ≡ action.Retry) ⊎ (answer ≡ action.DiscardDataAndFail) };

    fn call(&self, info: &BackpressureInfo) -> BackpressureAction {
        if self.is_told(info.retries) {
            BackpressureAction::Retry
        } else {
            BackpressureAction::DiscardDataAndFail
        }
    }
}

impl DegradationFn for Counting {
    ghost allows = { λ _ _ _ _. ⊤ };

    fn call(&self, cause: DegradationCause, info: &DegradationInfo) -> DegradationAction {
        if self.is_told(info.receiver_port_id)
            && cause == DegradationCause::FailedToEstablishConnection
        {
            DegradationAction::Ignore
        } else {
            DegradationAction::DegradeAndFail
        }
    }
}

impl PreallocatedSamplesFn for Counting {
    ghost allows = { λ _ worst_case answer. answer ≤ worst_case };

    fn call(&self, worst_case: usize) -> usize {
        if self.is_told(0) {
            worst_case
        } else {
            worst_case / 1_000
        }
    }
}

const BACKPRESSURE: BackpressureInfo = BackpressureInfo {
    service_id: 1,
    sender_port_id: 2,
    receiver_port_id: 3,
    retries: 0,
    elapsed_time: 0,
};

const DEGRADATION: DegradationInfo = DegradationInfo {
    service_id: 1,
    sender_port_id: 2,
    receiver_port_id: 0,
};

fn new_counting(alloc: Global) -> Result<Box<Counting>, AllocError> {
    let calls = Cell::new(0);
    Ok(Box::new(alloc, Counting { calls })?)
}

// Whether a new object is asked once in each call, and is given how often it was asked.
fn is_asked(alloc: Global) -> Result<bool, AllocError> {
    let handler = BackpressureHandler::boxed(new_counting(alloc)?);
    let mut again = BACKPRESSURE;
    again.retries = 1;
    Ok(
        [
            handler.call(&BACKPRESSURE),
            handler.call(&again),
            handler.call(&again),
        ] == [
            BackpressureAction::Retry,
            BackpressureAction::Retry,
            BackpressureAction::DiscardDataAndFail,
        ],
    )
}

// Whether a new object is given the connection.
fn degrades(alloc: Global) -> Result<bool, AllocError> {
    let handler = DegradationHandler::boxed(new_counting(alloc)?);
    let cause = DegradationCause::FailedToEstablishConnection;
    Ok(
        [
            handler.degrade(cause, &DEGRADATION),
            handler.degrade(cause, &DEGRADATION),
        ] == [DegradationAction::Ignore, DegradationAction::DegradeAndFail],
    )
}

/// An object that answers the whole worst case the first time that it is asked, and after that a thousandth of it, but at least one slot.
pub(crate) fn kept_once(alloc: Global) -> Result<PreallocatedSamplesOverride, AllocError> {
    Ok(PreallocatedSamplesOverride::boxed(new_counting(alloc)?))
}

// Whether a new object is given the places.
fn overrides(alloc: Global) -> Result<bool, AllocError> {
    let places = kept_once(alloc)?;
    let answers = [
        number_of_places(&places, 1_000),
        number_of_places(&places, 1_000),
    ];
    Ok(answers == [1_000, 1])
}

// Each must hold, where no allocation failed.
fn hold(rt: &impl Abort, answers: &[Result<bool, AllocError>]) -> Result<(), AllocError> {
    for (place, answer) in answers.iter().enumerate() {
        assert!(rt; (*answer)?, "{place}");
    }
    Ok(())
}

// The action towards the receiver that each action at a full mailbox becomes, if it becomes one.
const TOLD_AS: [(BackpressureAction, BackpressureToReceiverAction); 4] = [
    (
        BackpressureAction::Retry,
        BackpressureToReceiverAction::Retry,
    ),
    (
        BackpressureAction::DiscardData,
        BackpressureToReceiverAction::DiscardPointerOffset,
    ),
    (
        BackpressureAction::DiscardDataAndFail,
        BackpressureToReceiverAction::DiscardPointerOffsetAndFail,
    ),
    (
        BackpressureAction::FollowBackpressureyStrategy,
        BackpressureToReceiverAction::FollowBackpressureyStrategy,
    ),
];

#[test]
fn each_action_is_told_to_a_connection(rt: HostRuntime) {
    for row in &TOLD_AS {
        assert!(rt;
            BackpressureToReceiverAction::from(row.0) == row.1,
            "{row:?}"
        );
    }
}

#[test]
fn objects_are_asked_once_a_call(rt: HostRuntime) -> Result<(), AllocError> {
    let alloc = rt.alloc();
    hold(&rt, &[is_asked(alloc), degrades(alloc), overrides(alloc)])
}
