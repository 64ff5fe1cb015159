//! Values of three words with user headers of two words after the number of their message: by lanes, and by ports in threads.
use crate::answers::hold;
use crate::service::started;
use crate::stepping::{MOST_STEPS, whole};
use iox_lanes::{
    Answer, Call, LaneMachine, LanePublisher, LaneSizes, LaneSubscriber, Lanes, LoanAnswer, Party,
    Receipt, ReleaseAnswer, RingKind, WithSequence,
};
use iox_lanes_machine::Found;
use std::alloc::{AllocError, Global};
use std::sync::Wait;

const SIZES: LaneSizes = LaneSizes {
    publishers: 1,
    subscribers: 1,
    kind: RingKind::Refusing,
    buffer: 2,
    most_borrowed: 1,
    history: 0,
    most_loans: 1,
    slots: 4,
    user_header_words: 3,
    payload_words: 3,
};

const PUBLISHER: Party = Party::Publisher(0);

const SUBSCRIBER: Party = Party::Subscriber(0);

const VALUE: [u64; 3] = [u64::MAX, 1 << 40, 7];

// The number is the send's to say.
const USER_HEADER: WithSequence<u128> = WithSequence {
    sequence: 1000,
    user_header: 0x9_0000_0000_0000_0003,
};

// Whether it is the value in the message of this number.
fn is_value(values: Option<(WithSequence<u128>, [u64; 3])>, sequence: u64) -> bool {
    let Some(values) = values else {
        return false;
    };
    let header = values.0;
    let value = values.1;
    (header.sequence, header.user_header) == (sequence, USER_HEADER.user_header) && value == VALUE
}

// Lanes whose publisher has sent 40 messages before.
fn numbered(alloc: Global) -> Result<LaneMachine, AllocError> {
    let mut lanes = LaneMachine::new(alloc, SIZES)?;
    let found = lanes.find(Found::Sender {
        publisher: 0,
        node_id: 8,
        publisher_id: 2,
        fails: false,
        last: Some(40),
    })?;
    if found { Ok(lanes) } else { Err(AllocError) }
}

// Whether a call goes.
fn goes(lanes: &mut Lanes, party: Party, call: Call) -> bool {
    whole(lanes, party, call, MOST_STEPS).is_some()
}

// Whether the sample of the first slot is read as the value of this number.
fn reads(lanes: &mut Lanes, sequence: u64) -> bool {
    match whole(lanes, SUBSCRIBER, Call::Read { sample: 0 }, MOST_STEPS) {
        Some(Answer::Read { from }) => is_value(lanes.values(from), sequence),
        _ => false,
    }
}

// Whether the value is sent in the first slot, received, read and kept.
fn goes_by_lanes(alloc: Global, lanes: &mut Lanes) -> Result<bool, AllocError> {
    let write = Call::write(alloc, 0, &VALUE, &USER_HEADER)?;
    let sent = goes(lanes, PUBLISHER, Call::LoanUninit)
        && goes(lanes, PUBLISHER, write)
        && goes(lanes, PUBLISHER, Call::Send { loan: 0 })
        && goes(lanes, SUBSCRIBER, Call::Receive);
    let kept = match lanes.message(0) {
        Some(message) => is_value(message.values(), 41),
        None => false,
    };
    Ok(sent && kept && reads(lanes, 41))
}

fn by_lanes(alloc: Global) -> Result<bool, AllocError> {
    goes_by_lanes(alloc, &mut Lanes::new(alloc, numbered(alloc)?))
}

// Whether a publisher sends the value under this number.
fn sends(port: &mut LanePublisher, sequence: u64) -> bool {
    let Some(LoanAnswer::Slot(loan)) = port.loan_uninit() else {
        return false;
    };
    port.write_values(loan, &VALUE, &USER_HEADER)
        && port.send(loan).is_some()
        && port.last_sequence() == Some(sequence)
}

// Whether a subscriber receives it.
fn takes(rt: &impl Wait, port: &mut LaneSubscriber, sequence: u64) -> bool {
    match port.receive(rt) {
        Receipt::Taken { slot, .. } => {
            port.read(slot)
                && is_value(port.values(), sequence)
                && port.release(slot) == ReleaseAnswer::Released
        }
        _ => false,
    }
}

// Whether two go from one port to the other.
fn go(
    rt: &impl Wait,
    publishers: &mut [LanePublisher],
    subscribers: &mut [LaneSubscriber],
) -> bool {
    match (publishers.first_mut(), subscribers.first_mut()) {
        (Some(publisher), Some(subscriber)) => {
            sends(publisher, 41)
                && sends(publisher, 42)
                && takes(rt, subscriber, 41)
                && takes(rt, subscriber, 42)
        }
        _ => false,
    }
}

fn in_threads(rt: &impl Wait, alloc: Global) -> Result<bool, AllocError> {
    let mut threads = started(alloc, u64::MAX, numbered(alloc)?)?;
    Ok(go(rt, &mut threads.publishers, &mut threads.subscribers))
}

#[test]
fn values_of_three_words_have_their_numbers(rt: HostRuntime) -> Result<(), AllocError> {
    hold(&rt, by_lanes(rt.alloc()))?;
    hold(&rt, in_threads(&rt, rt.alloc()))
}
