//! Lanes as a line asks for them.
use crate::words::size;
use iox_lanes_machine::{LaneMachine, LaneSizes};
use iox_queues_steps::rings::RingKind;
use std::alloc::{AllocError, Global};

// What a line says of full rings.
fn kind(line: &str) -> RingKind {
    if line.starts_with("lanes refusing") {
        RingKind::Refusing
    } else {
        RingKind::Overflowing
    }
}

// The sizes that a line names, and one of each other.
fn sizes(line: &str) -> LaneSizes {
    LaneSizes {
        publishers: size(line, "publishers", 1),
        subscribers: size(line, "subscribers", 1),
        kind: kind(line),
        buffer: size(line, "buffer", 1),
        most_borrowed: size(line, "borrowed", 1),
        history: size(line, "history", 0),
        most_loans: size(line, "loans", 1),
        slots: size(line, "slots", 3),
        user_header_words: size(line, "user_header", 0),
        payload_words: size(line, "payload", 1),
    }
}

/// Lanes of the sizes that a line names; None if no message could wait.
pub(crate) fn lanes(alloc: Global, line: &str) -> Result<Option<LaneMachine>, AllocError> {
    let sizes = sizes(line);
    if sizes.buffer == 0 {
        return Ok(None);
    }
    Ok(Some(LaneMachine::new(alloc, sizes)?))
}
