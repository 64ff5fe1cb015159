//! Random schedules of lanes: each connection's order is compared with a plain mailbox, and each read with what was sent.
ghost use Rattle.std.specs.Prelude.{◌≡◌};

use crate::answers::hold;
use crate::calls::{Asked, call};
use crate::known::{Known, NOTHING, Room, SLOTS, are_mailboxes, begun, is_answered, kept, last_at};
use crate::stepping::{new_lanes, step};
use iox_lanes::{Call, LaneSizes, Lanes, Move, Party, RingKind, Stepped};
use std::alloc::{AllocError, Global};

// Two publishers, and three subscribers at each connection of which two messages may wait.
fn crowd(kind: RingKind) -> LaneSizes
    ensures { result.buffer ≡ 2 }
{
    LaneSizes {
        publishers: 2,
        subscribers: 3,
        kind,
        buffer: 2,
        most_borrowed: 2,
        history: 1,
        most_loans: 2,
        slots: SLOTS / 2,
        user_header_words: 0,
        payload_words: 1,
    }
}

// A number below another, by chance.
fn chance(known: &mut Known, below: u64) -> u64 {
    known.chance = known
        .chance
        .wrapping_mul(6_364_136_223_846_793_005)
        .wrapping_add(1_442_695_040_888_963_407);
    (known.chance >> 33).checked_rem(below).unwrap_or(0)
}

// A number of the five parties by chance, and not of the one that rests for a while.
fn drawn(known: &mut Known) -> u64 {
    if chance(known, 300) == 0 {
        known.rests = chance(known, 5);
    }
    let drawn = chance(known, 5);
    if drawn == known.rests {
        drawn.wrapping_add(1) % 5
    } else {
        drawn
    }
}

const PARTIES: [Party; 5] = [
    Party::Publisher(0),
    Party::Publisher(1),
    Party::Subscriber(0),
    Party::Subscriber(1),
    Party::Subscriber(2),
];

// What a publisher asks for, by chance.
const SENDING: [Asked; 16] = [
    Asked::GiveUp,
    Asked::Lend,
    Asked::Lend,
    Asked::Lend,
    Asked::Lend,
    Asked::Lend,
    Asked::Send,
    Asked::Send,
    Asked::Send,
    Asked::Send,
    Asked::Send,
    Asked::Write,
    Asked::Write,
    Asked::Write,
    Asked::Write,
    Asked::Write,
];

// What a subscriber asks for.
const RECEIVING: [Asked; 16] = [
    Asked::Receive,
    Asked::Receive,
    Asked::Receive,
    Asked::Receive,
    Asked::Receive,
    Asked::Receive,
    Asked::Read,
    Asked::Read,
    Asked::Read,
    Asked::Read,
    Asked::Release,
    Asked::Release,
    Asked::Release,
    Asked::Release,
    Asked::Release,
    Asked::Release,
];

// A slot by chance, mostly the one that a party got last.
fn slot(known: &mut Known, party: Party) -> u64 {
    if chance(known, 4) == 0 {
        chance(known, SLOTS)
    } else {
        kept(&known.last, last_at(party))
    }
}

// What a party asks for, of which there are sixteen.
fn asked(party: Party, kind: u64) -> Asked {
    let kinds = match party {
        Party::Publisher(_) => &SENDING,
        Party::Subscriber(_) => &RECEIVING,
    };
    kinds[(kind % 16) as usize]
}

// A party begins this call, if it fits.
fn begin(known: &mut Known, lanes: &mut Lanes, party: Party, call: Call) {
    let entry = Move::Begin(call);
    if step(lanes, party, &entry) == Stepped::Went {
        begun(known, &entry);
    }
}

// One entry by chance; whether what it gave is right.
fn goes(alloc: Global, known: &mut Known, lanes: &mut Lanes) -> Result<bool, AllocError> {
    let party = PARTIES[(drawn(known) % 5) as usize];
    match step(lanes, party, &Move::GoOn) {
        Stepped::Finished => Ok(is_answered(known, lanes)),
        Stepped::Went => Ok(true),
        Stepped::Skipped => {
            let asked = asked(party, chance(known, 16));
            let call = call(alloc, asked, slot(known, party), lanes.lanes().moments())?;
            begin(known, lanes, party, call);
            Ok(true)
        }
        Stepped::NoMemory => Err(AllocError),
    }
}

const ENTRIES: u64 = 1_000_000;

// Whether each entry goes right, a thousandth of them reads and more.
fn all_go(alloc: Global, lanes: &mut Lanes) -> Result<bool, AllocError> {
    let mut known = NOTHING;
    for _ in 0..ENTRIES {
        if !goes(alloc, &mut known, lanes)? {
            return Ok(false);
        }
    }
    Ok(known.reads > ENTRIES / 1000)
}

// Whether lanes of this kind go right, on which nothing was done.
fn go_on(alloc: Global, lanes: &mut Lanes, kind: RingKind) -> Result<bool, AllocError> {
    let room = Room {
        limit: 2,
        refuses: kind == RingKind::Refusing,
    };
    Ok(all_go(alloc, lanes)? && are_mailboxes(alloc, lanes, room)?)
}

// Whether new lanes of this kind do.
fn go(alloc: Global, kind: RingKind) -> Result<bool, AllocError> {
    go_on(alloc, &mut new_lanes(alloc, crowd(kind))?, kind)
}

#[test]
fn random_schedules_go_right_where_the_oldest_are_dropped(
    rt: HostRuntime,
) -> Result<(), AllocError> {
    hold(&rt, go(rt.alloc(), RingKind::Overflowing))
}

#[test]
fn random_schedules_go_right_where_the_newest_are_refused(
    rt: HostRuntime,
) -> Result<(), AllocError> {
    hold(&rt, go(rt.alloc(), RingKind::Refusing))
}
