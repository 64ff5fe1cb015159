//! The steps of a case: on a domain, on the lanes that it becomes, on their ports in threads, and on the domain that these become again.
use crate::changes::{NumberLanes, NumberThreads, leaves, passes, turn};
use crate::domain::{Arrival, InDomain, Numbers, Service, make};
use crate::lanes::InLanes;
use crate::threads::InThreads;
use crate::{domain, lanes, threads};
use iox_domain_ports::Taken;
use iox_lanes::{EndError, IntoDomainError, IntoLanesError, LanePublisher, OpenError};
use std::alloc::{AllocError, Global};
use std::process::Abort;
use std::sync::Wait;

/// A step of a case, with its result.
#[derive(Clone, Copy)]
pub(crate) enum Step {
    /// In the domain; it succeeds unless memory runs out.
    Comes(Arrival),
    /// In the domain.
    Domain(InDomain),
    /// By lanes.
    Lanes(InLanes),
    /// In threads.
    Threads(InThreads),
    /// The domain becomes lanes, or doesn't for this reason.
    Opens(Option<IntoLanesError>),
    /// The lanes become a domain again, or don't for this reason.
    Returns(Option<IntoDomainError>),
    /// The lanes are opened for threads, or aren't for this reason.
    Starts(Option<OpenError>),
    /// The lanes are opened for threads, which are ended together at once and leave a domain.
    Passes,
    /// The threads are ended and leave a domain, or aren't for this reason.
    Ends(Option<EndError>),
    /// The threads are abandoned and leave a domain, where the publisher of this number alone is missing.
    Leaves(u64),
}

// One of a domain, lanes and threads, the sample that is kept, and publishers that are aside.
struct World {
    domain: Option<Numbers>,
    lanes: Option<NumberLanes>,
    threads: Option<NumberThreads>,
    kept: Option<Taken>,
    aside: Vec<LanePublisher>,
}

// Each thing goes by itself, as a value of any type, so that no caller pays for how it goes.
fn let_go<A: Drop, B: Drop, C: Drop, D: Drop>(_domain: A, _lanes: B, _threads: C, _aside: D) {}

const OPENS_NOT: [IntoLanesError; 1] = [IntoLanesError::OutOfMemory];

const STARTS_NOT: [OpenError; 1] = [OpenError::OutOfMemory];

// Whether a step goes as stated.
fn goes(rt: &impl Wait, alloc: Global, world: &mut World, step: &Step) -> Result<bool, AllocError> {
    match step {
        Step::Comes(step) => domain::comes(alloc, &mut world.domain, step),
        Step::Domain(step) => Ok(domain::goes(alloc, &mut world.domain, &mut world.kept, step)),
        Step::Lanes(step) => lanes::goes(alloc, &mut world.lanes, step),
        Step::Threads(step) => threads::goes(rt, alloc, &mut world.threads, &mut world.aside, step),
        Step::Opens(wanted) => turn(
            alloc,
            &mut world.domain,
            &mut world.lanes,
            *wanted,
            &OPENS_NOT,
        ),
        Step::Returns(wanted) => turn(alloc, &mut world.lanes, &mut world.domain, *wanted, &[]),
        Step::Starts(wanted) => turn(
            alloc,
            &mut world.lanes,
            &mut world.threads,
            *wanted,
            &STARTS_NOT,
        ),
        Step::Passes => passes(alloc, &mut world.lanes, &mut world.domain),
        Step::Ends(wanted) => turn(alloc, &mut world.threads, &mut world.domain, *wanted, &[]),
        Step::Leaves(missing) => Ok(leaves(&mut world.threads, &mut world.domain, *missing)),
    }
}

// How many steps go as stated, up to the first that goes differently.
fn count_right(
    rt: &impl Wait,
    alloc: Global,
    world: &mut World,
    steps: &[Step],
) -> Result<usize, AllocError> {
    for (place, step) in steps.iter().enumerate() {
        if !goes(rt, alloc, world, step)? {
            return Ok(place);
        }
    }
    Ok(steps.len())
}

/// How many steps from a new domain on have the stated results, up to the first that has another one.
pub(crate) fn go(
    rt: &impl Wait,
    alloc: Global,
    service: &Service,
    steps: &[Step],
) -> Result<usize, AllocError> {
    let Some(domain) = make(alloc, service) else {
        return Err(AllocError);
    };
    let mut world = World {
        domain: Some(domain),
        lanes: None,
        threads: None,
        kept: None,
        aside: Vec::new(alloc),
    };
    let right = count_right(rt, alloc, &mut world, steps);
    let World {
        domain,
        lanes,
        threads,
        kept: _,
        aside,
    } = world;
    let_go(domain, lanes, threads, aside);
    right
}

/// A case: the steps from a new domain of a service on.
pub(crate) struct Case {
    pub(crate) name: &'static str,
    pub(crate) service: &'static Service,
    pub(crate) steps: &'static [Step],
}

/// Runs all cases, and aborts if a step has another result than stated.
pub(crate) fn go_all<R: Abort + Wait>(
    rt: &R,
    alloc: Global,
    cases: &[Case],
) -> Result<(), AllocError> {
    for case in cases {
        let right = go(rt, alloc, case.service, case.steps)?;
        assert!(rt; right == case.steps.len(), "{}: {right}", case.name);
    }
    Ok(())
}
