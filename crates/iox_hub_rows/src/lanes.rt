//! A domain of a hub that commands drive is stepped by lanes for a while, and put back.
use crate::handled::{self, Course, Given, Numbers, Row, go};
use crate::ports::must_be_there;
use iox_hub::service::Domain;
use iox_lanes::{Call, Entry, Move, Party, into_lanes};
use iox_line::Scratch;
use std::alloc::{AllocError, Global};
use std::process::Abort;

// A publisher has two slots, and a message waits in one.
const BEFORE: [Row; 5] = [
    ("node", None, None, "ok n1"),
    ("create n1 ps A", None, None, "ok f1"),
    ("publisher f1 slots=2", None, None, "ok p1"),
    ("subscriber f1", None, None, "ok s1"),
    ("put p1 10", None, None, "ok 1"),
];

// Of a domain that is out each command is skipped, and its service is in use; all else goes on.
const MEANWHILE: [Row; 5] = [
    ("put p1 20", None, None, "skip"),
    ("receive s1", None, None, "skip"),
    ("publisher f1", None, None, "skip"),
    ("close f1", None, None, "err CloseError::StillInUse"),
    ("node", None, None, "ok n2"),
];

// What waited before comes first, then what lanes sent, and then what is sent after it.
const BEHIND: [Row; 7] = [
    ("receive s1", None, None, "ok m1 10"),
    ("release m1", None, None, "ok"),
    ("receive s1", None, None, "ok m2 30"),
    ("receive s1", None, None, "none"),
    ("put p1 40", None, None, "ok 1"),
    ("receive s1", None, None, "ok m3 40"),
    ("publisher f1", None, None, "ok p2"),
];

// A whole call of the publisher: it goes on more often than any call takes. What doesn't fit is left out.
fn add(entries: &mut Vec<Entry>, call: Call) -> Result<(), AllocError> {
    let party = Party::Publisher(0);
    entries.push(Entry {
        party,
        step: Move::Begin(call),
    })?;
    for _ in 0..30 {
        entries.push(Entry {
            party,
            step: Move::GoOn,
        })?;
    }
    Ok(())
}

// A value is sent in the slot that is loaned.
fn schedule(alloc: Global) -> Result<Vec<Entry>, AllocError> {
    let mut entries = Vec::new(alloc);
    add(&mut entries, Call::LoanUninit)?;
    for slot in 0..2u64 {
        add(&mut entries, Call::write(alloc, slot, &30u64, &0u64)?)?;
        add(&mut entries, Call::Send { loan: slot })?;
    }
    Ok(entries)
}

// The domain of the service, if it is there.
fn take(rt: &impl Abort, hub: &mut Numbers) -> Option<Domain<u64, u64>> {
    let service = hub.factories.publish_subscribe(1)?;
    must_be_there(rt, hub.hub.holds(service));
    hub.hub.take_domain(service).ok()
}

// The domain, once its lanes made these entries; none where it doesn't become lanes, or they no domain.
fn gone_by(alloc: Global, entries: &[Entry], domain: Domain<u64, u64>) -> Option<Domain<u64, u64>> {
    let mut opened = into_lanes(alloc, domain).ok()?;
    opened.lanes.run(entries);
    opened.into_domain().ok()
}

// Whether the domain goes by lanes, after commands of its hub, and is put back there.
fn goes_by_lanes(
    rt: &impl Abort,
    alloc: Global,
    hub: &mut Numbers,
    given: &mut Given,
    scratch: &mut Scratch,
    entries: &[Entry],
) -> Result<bool, AllocError> {
    let Some(domain) = take(rt, hub) else {
        return Ok(false);
    };
    let went = handled::go_on(rt, alloc, hub, given, scratch, &MEANWHILE);
    let is_back = match gone_by(alloc, entries, domain) {
        Some(domain) => hub.hub.put_domain(domain).is_ok(),
        None => false,
    };
    went?;
    Ok(is_back)
}

/// Runs commands, then lanes, then commands again, and aborts if a result differs from what is stated.
pub(crate) fn go_on(
    rt: &impl Abort,
    alloc: Global,
    hub: &mut Numbers,
    given: &mut Given,
    scratch: &mut Scratch,
) -> Result<(), AllocError> {
    handled::go_on(rt, alloc, hub, given, scratch, &BEFORE)?;
    let entries = schedule(alloc)?;
    let is_back = goes_by_lanes(rt, alloc, hub, given, scratch, entries.as_slice());
    assert!(rt; is_back?);
    handled::go_on(rt, alloc, hub, given, scratch, &BEHIND)
}

#[test]
fn a_service_of_commands_goes_by_lanes(rt: HostRuntime) -> Result<(), AllocError> {
    go(&rt, rt.alloc(), Course::Lanes)
}
