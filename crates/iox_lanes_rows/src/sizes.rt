//! Domains of few and of many messages and ports become lanes, go on in threads, and become domains again, with ample memory.
use crate::domain::{Arrival, PLAIN, Plan, Service};
use crate::lanes::{InLanes, Pace};
use crate::threads::InThreads;
use crate::worlds::{Step, go};
use iox_describe_base::TypeVariant;
use iox_lanes::{Delivery, SendAnswer};
use std::alloc::{AllocError, Global};
use std::process::Abort;
use std::sync::Wait;

// A service of this many ports of each kind, of this many messages that may wait and stand in a history, and of this many that may be
// borrowed.
fn service(ports: u64, messages: (u64, u64), borrowed: u64) -> Service {
    Service {
        variant: TypeVariant::FixedSize,
        overflow: true,
        buffer: messages.0,
        history: messages.1,
        borrowed,
        numbered: true,
        ports,
    }
}

// How a publisher is made that loans this many values.
fn lending(count: u64) -> Plan {
    let mut plan = PLAIN;
    plan.config.max_loaned_samples = count as usize;
    plan
}

// Whether as many messages stand in the history, wait for the subscriber and are in the lanes, of which one is received there. As many may
// be borrowed and lent.
fn has_messages(rt: &impl Wait, alloc: Global, count: u64) -> Result<bool, AllocError> {
    let steps = [
        Step::Comes(Arrival::Publisher(lending(count))),
        Step::Comes(Arrival::Fill(1, count)),
        Step::Comes(Arrival::Subscriber(None)),
        Step::Comes(Arrival::Meeting),
        Step::Opens(None),
        Step::Lanes(InLanes::Gets(0, 1, 0)),
        Step::Returns(None),
    ];
    Ok(go(rt, alloc, &service(1, (count, count), count), &steps)? == steps.len())
}

// A loan and a send to this many subscribers, at each of which one message may wait and one be borrowed, with a word of number.
fn pace_of(count: u64) -> Pace {
    Pace {
        loan: count.saturating_mul(16).saturating_add(2),
        send: count.saturating_mul(20).saturating_add(8),
    }
}

// Whether a publisher's loans and sends to as many subscribers keep their pace.
fn has_pace(rt: &impl Wait, alloc: Global, count: u64) -> Result<bool, AllocError> {
    let to_all = SendAnswer::Delivered(Delivery {
        taken: count,
        refused: 0,
    });
    let pace = pace_of(count);
    let steps = [
        Step::Comes(Arrival::Crowd(count)),
        Step::Opens(None),
        Step::Lanes(InLanes::Sends(0, 1, to_all, pace)),
        Step::Lanes(InLanes::Borrows(0)),
        Step::Lanes(InLanes::Sends(0, 2, to_all, pace)),
        Step::Lanes(InLanes::Sends(0, 3, to_all, pace)),
    ];
    Ok(go(rt, alloc, &service(count, (1, 0), 1), &steps)? == steps.len())
}

// Whether this many publishers and as many subscribers go by lanes, in threads, and by lanes once more.
fn has_ports(rt: &impl Wait, alloc: Global, count: u64) -> Result<bool, AllocError> {
    let steps = [
        Step::Comes(Arrival::Crowd(count)),
        Step::Opens(None),
        Step::Returns(None),
        Step::Opens(None),
        Step::Starts(None),
        Step::Threads(InThreads::Ports(count as usize)),
        Step::Ends(None),
        Step::Opens(None),
        Step::Returns(None),
    ];
    Ok(go(rt, alloc, &service(count, (1, 0), 1), &steps)? == steps.len())
}

// Of what there are many.
#[derive(Clone, Copy)]
enum Many {
    Messages,
    Paces,
    Ports,
}

fn has(rt: &impl Wait, alloc: Global, many: Many, count: u64) -> Result<bool, AllocError> {
    match many {
        Many::Messages => has_messages(rt, alloc, count),
        Many::Paces => has_pace(rt, alloc, count),
        Many::Ports => has_ports(rt, alloc, count),
    }
}

fn all_have<R: Abort + Wait>(
    rt: &R,
    alloc: Global,
    many: Many,
    counts: &[u64],
) -> Result<(), AllocError> {
    for count in counts {
        assert!(rt; has(rt, alloc, many, *count)?, "{count}");
    }
    Ok(())
}

#[test]
fn domains_of_all_sizes_become_lanes_and_domains_again(rt: HostRuntime) -> Result<(), AllocError> {
    all_have(&rt, rt.alloc(), Many::Messages, &[1, 2, 7, 64, 1000])
}

#[test]
fn loans_and_sends_to_many_keep_their_pace(rt: HostRuntime) -> Result<(), AllocError> {
    all_have(&rt, rt.alloc(), Many::Paces, &[1, 2, 7, 64])
}

#[test]
fn domains_of_many_ports_go_by_lanes_and_in_threads(rt: HostRuntime) -> Result<(), AllocError> {
    all_have(&rt, rt.alloc(), Many::Ports, &[1, 2, 7, 64])
}
