//! The ports of a board in threads, from which some are taken away, and to which another board's are added.
use crate::service::opened;
use iox_lanes::{LanePublisher, LaneSizes, RingKind};
use std::alloc::{AllocError, Global};

// One publisher, to nobody.
const ALONE: LaneSizes = LaneSizes {
    publishers: 1,
    subscribers: 0,
    kind: RingKind::Refusing,
    buffer: 1,
    most_borrowed: 1,
    history: 0,
    most_loans: 1,
    slots: 1,
    user_header_words: 2,
    payload_words: 1,
};

/// Moves the port at a place to the end of the other list. Returns false if the place has none.
pub(crate) fn pass<P: Drop>(
    from: &mut Vec<P>,
    place: usize,
    to: &mut Vec<P>,
) -> Result<bool, AllocError> {
    if place >= from.len() {
        return Ok(false);
    }
    to.push(from.remove(place))?;
    Ok(true)
}

/// Moves the last port to the end of the other list. Returns false if there is none.
pub(crate) fn pass_last<P: Drop>(from: &mut Vec<P>, to: &mut Vec<P>) -> Result<bool, AllocError> {
    let last = from.len().saturating_sub(1);
    pass(from, last, to)
}

/// Adds a publisher of another board to the ports that were taken away.
pub(crate) fn another(alloc: Global, aside: &mut Vec<LanePublisher>) -> Result<bool, AllocError> {
    let mut threads = opened(alloc, 2, ALONE)?;
    pass(&mut threads.publishers, 0, aside)
}

/// A publisher whose slots have a word, of a board with this number.
pub(crate) fn narrow(alloc: Global, board: u64) -> Result<Option<LanePublisher>, AllocError> {
    let mut threads = opened(alloc, board, ALONE)?;
    Ok(threads.publishers.pop())
}
