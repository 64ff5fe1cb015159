//! A domain becomes lanes, these become ports in threads, and both become a domain again.
use crate::domain::Numbers;
use iox_lanes::threads::{Abandoned, DomainThreads, abandon, end, has_all, open_threads};
use iox_lanes::{DomainLanes, EndError, IntoDomainError, IntoLanesError, OpenError, into_lanes};
use std::alloc::{AllocError, Global};

/// The lanes of a domain of numbers.
pub(crate) type NumberLanes = DomainLanes<u128, ()>;

/// The ports of these lanes in threads.
pub(crate) type NumberThreads = DomainThreads<u128, ()>;

/// A value that becomes another one, or is returned with the reason why it doesn't.
pub(crate) trait Becomes<B, E>: Drop {
    fn turned(self, alloc: Global) -> Result<B, (E, Self)>;
}

impl Becomes<NumberLanes, IntoLanesError> for Numbers {
    fn turned(self, alloc: Global) -> Result<NumberLanes, (IntoLanesError, Numbers)> {
        match into_lanes(alloc, self) {
            Ok(lanes) => Ok(lanes),
            Err(refused) => Err((refused.error, refused.domain)),
        }
    }
}

impl Becomes<Numbers, IntoDomainError> for NumberLanes {
    fn turned(self, _alloc: Global) -> Result<Numbers, (IntoDomainError, NumberLanes)> {
        match self.into_domain() {
            Ok(domain) => Ok(domain),
            Err(still) => Err((still.error, still.lanes)),
        }
    }
}

impl Becomes<NumberThreads, OpenError> for NumberLanes {
    fn turned(self, alloc: Global) -> Result<NumberThreads, (OpenError, NumberLanes)> {
        open_threads(alloc, 1, self)
    }
}

// Calls in threads lose what `end` requires of ports, so all ports are counted first, and the board is abandoned with them.
impl Becomes<Numbers, EndError> for NumberThreads {
    fn turned(self, _alloc: Global) -> Result<Numbers, (EndError, NumberThreads)> {
        if !has_all(&self.board, &self.publishers, &self.subscribers) {
            return Err((EndError::NotAllPorts, self));
        }
        match abandon(self.board, self.publishers, self.subscribers) {
            Ok(left) => Ok(left.domain),
            Err(threads) => Err((EndError::NotAllPorts, threads)),
        }
    }
}

// Puts a value in its place. What was there goes, as a value of any type, so that no caller pays for how it goes.
fn put<X: Drop>(place: &mut Option<X>, value: X) {
    drop(place.replace(value));
}

// Whether it stayed for the reason that is wanted. Some reasons come of memory that was refused, which is no answer.
fn is_wanted<E: Copy + PartialEq>(
    reason: E,
    wanted: Option<E>,
    of_memory: &[E],
) -> Result<bool, AllocError> {
    if wanted.is_none() && of_memory.contains(&reason) {
        return Err(AllocError);
    }
    Ok(wanted == Some(reason))
}

/// Whether the value becomes another one, or doesn't for the reason that is named.
pub(crate) fn turn<A: Becomes<B, E>, B: Drop, E: Copy + PartialEq>(
    alloc: Global,
    from: &mut Option<A>,
    to: &mut Option<B>,
    wanted: Option<E>,
    of_memory: &[E],
) -> Result<bool, AllocError> {
    let Some(value) = from.take() else {
        return Ok(false);
    };
    match value.turned(alloc) {
        Ok(other) => {
            put(to, other);
            Ok(wanted.is_none())
        }
        Err((reason, value)) => {
            put(from, value);
            is_wanted(reason, wanted, of_memory)
        }
    }
}

// What comes of lanes that go on in threads which end at once.
fn together(
    alloc: Global,
    lanes: NumberLanes,
) -> Result<Result<Numbers, (EndError, NumberThreads)>, (OpenError, NumberLanes)> {
    match open_threads(alloc, 1, lanes) {
        Ok(threads) => Ok(end(threads.board, threads.publishers, threads.subscribers)),
        Err(refused) => Err(refused),
    }
}

// Whether something came of it, which is put in its place; where threads didn't open, an allocation failed.
fn came<A: Drop, B: Drop, C: Drop>(
    place: &mut Option<A>,
    came: Result<Result<A, B>, C>,
) -> Result<bool, AllocError> {
    match came {
        Ok(Ok(value)) => {
            put(place, value);
            Ok(true)
        }
        Ok(Err(_)) => Ok(false),
        Err(_) => Err(AllocError),
    }
}

/// Whether lanes are opened for threads, and these are ended at once and leave a domain.
pub(crate) fn passes(
    alloc: Global,
    lanes: &mut Option<NumberLanes>,
    domain: &mut Option<Numbers>,
) -> Result<bool, AllocError> {
    match lanes.take() {
        Some(lanes) => came(domain, together(alloc, lanes)),
        None => Ok(false),
    }
}

// Whether a domain is left, which is put in its place, and the publisher of this number alone is missing.
fn left(
    place: &mut Option<Numbers>,
    left: Result<Abandoned<u128, ()>, NumberThreads>,
    missing: u64,
) -> bool {
    let Ok(left) = left else {
        return false;
    };
    let alone = left.publishers.as_slice() == [missing].as_slice() && left.subscribers.is_empty();
    put(place, left.domain);
    alone
}

/// Whether threads are abandoned and leave a domain, where the publisher of this number alone is missing.
pub(crate) fn leaves(
    threads: &mut Option<NumberThreads>,
    domain: &mut Option<Numbers>,
    missing: u64,
) -> bool {
    match threads.take() {
        Some(threads) => left(
            domain,
            abandon(threads.board, threads.publishers, threads.subscribers),
            missing,
        ),
        None => false,
    }
}
