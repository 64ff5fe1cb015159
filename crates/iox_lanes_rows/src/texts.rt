//! Errors of lanes and threads of a domain, as they display.
use crate::answers::{display, hold};
use iox_lanes::{EndError, IntoDomainError, OpenError};
use std::alloc::{AllocError, Global};

const INTO_DOMAIN: [(IntoDomainError, &str); 2] = [
    (IntoDomainError::PartyInCall, "IntoDomainError::PartyInCall"),
    (IntoDomainError::SamplesOut, "IntoDomainError::SamplesOut"),
];

const OPEN: [(OpenError, &str); 4] = [
    (OpenError::PartyInCall, "OpenError::PartyInCall"),
    (OpenError::SamplesOut, "OpenError::SamplesOut"),
    (OpenError::TooManySteps, "OpenError::TooManySteps"),
    (OpenError::OutOfMemory, "OpenError::OutOfMemory"),
];

const END: [(EndError, &str); 1] = [(EndError::NotAllPorts, "EndError::NotAllPorts")];

fn all_display(alloc: Global) -> Result<bool, AllocError> {
    Ok(display(alloc, &INTO_DOMAIN)? && display(alloc, &OPEN)? && display(alloc, &END)?)
}

#[test]
fn errors_display_as_they_are_named(rt: HostRuntime) -> Result<(), AllocError> {
    hold(&rt, all_display(rt.alloc()))
}
