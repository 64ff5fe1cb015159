//! What lanes find in a domain, and what lanes and ports in threads leave in the domain that they become again.
use crate::domain::{Arrival, FAILING, InDomain, PLAIN, Service};
use crate::lanes::{ANY, FULL, InLanes, Pace, TO_FULL, TO_NONE, TO_ONE, TO_TWO};
use crate::threads::InThreads;
use crate::worlds::{Case, Step, go_all};
use iox_describe_base::TypeVariant;
use iox_domain_ports::Sent;
use iox_domain_values::SendError;
use iox_lanes::{EndError, IntoDomainError, OpenError};
use std::alloc::AllocError;

// Three messages may wait at a connection, and the last two of a publisher are its history.
const OVERFLOWING: Service = Service {
    variant: TypeVariant::FixedSize,
    overflow: true,
    buffer: 3,
    history: 2,
    borrowed: 1,
    numbered: true,
    ports: 3,
};

// One message may wait, and a full mailbox refuses.
const REFUSING: Service = Service {
    variant: TypeVariant::FixedSize,
    overflow: false,
    buffer: 1,
    history: 0,
    borrowed: 1,
    numbered: true,
    ports: 2,
};

// Of two subscribers, at each of which 3 messages may wait and 1 be borrowed: 4 · 2 · (3 + 1 + 2) + 2 steps for a loan, and for a send
// 4 · 2 · (3 + 1 + 3) + 1 + 7, where the number is a word.
const OF_TWO: Pace = Pace { loan: 50, send: 64 };

// Of one: 4 · (1 + 1 + 2) + 2 steps, and 4 · (1 + 1 + 3) + 1 + 7.
const OF_ONE: Pace = Pace { loan: 18, send: 28 };

const CASES: [Case; 12] = [
    Case {
        name: "no ports",
        service: &REFUSING,
        steps: &[Step::Opens(None), Step::Returns(None)],
    },
    Case {
        name: "ports of different sizes",
        service: &OVERFLOWING,
        steps: &[
            Step::Comes(Arrival::Subscriber(Some(1))),
            Step::Comes(Arrival::Subscriber(Some(3))),
            Step::Comes(Arrival::Publisher(PLAIN)),
            Step::Comes(Arrival::Publisher(PLAIN)),
            Step::Comes(Arrival::Meeting),
            Step::Domain(InDomain::Sends(3, 41, Ok(Sent::Delivered(2)))),
            Step::Domain(InDomain::Sends(3, 42, Ok(Sent::Delivered(2)))),
            Step::Domain(InDomain::Sends(4, 51, Ok(Sent::Delivered(2)))),
            Step::Opens(None),
            Step::Lanes(InLanes::Knows(0, 1, 41)),
            Step::Lanes(InLanes::Knows(1, 2, 42)),
            Step::Lanes(InLanes::Knows(2, 1, 51)),
            Step::Lanes(InLanes::Gets(0, 2, 42)),
            Step::Lanes(InLanes::Orders(0, 0, Some(1))),
            Step::Lanes(InLanes::Gets(0, 1, 51)),
            Step::Lanes(InLanes::Orders(0, 1, None)),
            Step::Lanes(InLanes::Orders(2, 0, Some(2))),
            Step::Lanes(InLanes::Nothing(0)),
            Step::Lanes(InLanes::Gets(1, 1, 41)),
            Step::Lanes(InLanes::Orders(1, 0, Some(0))),
            Step::Lanes(InLanes::Sends(1, 52, TO_TWO, ANY)),
            Step::Lanes(InLanes::Orders(2, 2, Some(3))),
            Step::Lanes(InLanes::Knows(3, 2, 52)),
            Step::Returns(None),
            Step::Domain(InDomain::Gets(1, 2, 52)),
            Step::Domain(InDomain::Gets(2, 2, 42)),
            Step::Domain(InDomain::Gets(2, 1, 51)),
            Step::Domain(InDomain::Sends(4, 53, Ok(Sent::Delivered(2)))),
            Step::Domain(InDomain::Gets(2, 2, 52)),
            Step::Domain(InDomain::Gets(2, 3, 53)),
        ],
    },
    Case {
        name: "a history",
        service: &OVERFLOWING,
        steps: &[
            Step::Comes(Arrival::Publisher(PLAIN)),
            Step::Domain(InDomain::Sends(1, 11, Ok(Sent::Delivered(0)))),
            Step::Domain(InDomain::Sends(1, 12, Ok(Sent::Delivered(0)))),
            Step::Opens(None),
            Step::Lanes(InLanes::Sends(0, 13, TO_NONE, ANY)),
            Step::Returns(None),
            Step::Comes(Arrival::Subscriber(None)),
            Step::Comes(Arrival::Meeting),
            Step::Domain(InDomain::Gets(2, 2, 12)),
            Step::Domain(InDomain::Gets(2, 3, 13)),
            Step::Domain(InDomain::Nothing(2)),
        ],
    },
    Case {
        name: "a loan that is out",
        service: &REFUSING,
        steps: &[
            Step::Comes(Arrival::Publisher(PLAIN)),
            Step::Opens(None),
            Step::Lanes(InLanes::Lends(0)),
            Step::Returns(Some(IntoDomainError::SamplesOut)),
            Step::Starts(Some(OpenError::SamplesOut)),
        ],
    },
    Case {
        name: "a party in a call",
        service: &REFUSING,
        steps: &[
            Step::Comes(Arrival::Subscriber(None)),
            Step::Comes(Arrival::Publisher(PLAIN)),
            Step::Comes(Arrival::Meeting),
            Step::Opens(None),
            Step::Lanes(InLanes::Begins(0)),
            Step::Returns(Some(IntoDomainError::PartyInCall)),
            Step::Starts(Some(OpenError::PartyInCall)),
        ],
    },
    // The publishers have as many slots as are enough for all that may be loaned, wait, be borrowed and stand in a history.
    Case {
        name: "messages that wait, are borrowed and stand in a history",
        service: &OVERFLOWING,
        steps: &[
            Step::Comes(Arrival::Subscriber(None)),
            Step::Comes(Arrival::Subscriber(None)),
            Step::Comes(Arrival::Publisher(PLAIN)),
            Step::Comes(Arrival::Meeting),
            Step::Domain(InDomain::Sends(3, 61, Ok(Sent::Delivered(2)))),
            Step::Opens(None),
            Step::Lanes(InLanes::Borrows(0)),
            Step::Lanes(InLanes::Sends(0, 62, TO_TWO, OF_TWO)),
            Step::Lanes(InLanes::Sends(0, 63, TO_TWO, OF_TWO)),
            Step::Lanes(InLanes::Sends(0, 64, TO_TWO, OF_TWO)),
            Step::Lanes(InLanes::Borrows(1)),
            Step::Lanes(InLanes::Sends(0, 65, TO_TWO, OF_TWO)),
            Step::Lanes(InLanes::Sends(0, 66, TO_TWO, OF_TWO)),
            Step::Lanes(InLanes::Sends(0, 67, TO_TWO, OF_TWO)),
            Step::Lanes(InLanes::Sends(0, 68, TO_TWO, OF_TWO)),
        ],
    },
    Case {
        name: "samples that come back",
        service: &REFUSING,
        steps: &[
            Step::Comes(Arrival::Subscriber(None)),
            Step::Comes(Arrival::Publisher(PLAIN)),
            Step::Comes(Arrival::Meeting),
            Step::Opens(None),
            Step::Lanes(InLanes::Sends(0, 71, TO_ONE, OF_ONE)),
            Step::Lanes(InLanes::Gets(0, 1, 71)),
            Step::Lanes(InLanes::Sends(0, 72, TO_ONE, OF_ONE)),
            Step::Lanes(InLanes::Sends(0, 73, TO_FULL, OF_ONE)),
            Step::Lanes(InLanes::Gets(0, 2, 72)),
            Step::Lanes(InLanes::Sends(0, 74, TO_ONE, OF_ONE)),
            Step::Lanes(InLanes::Borrows(0)),
            Step::Lanes(InLanes::Sends(0, 75, TO_ONE, OF_ONE)),
            Step::Lanes(InLanes::Sends(0, 76, TO_FULL, OF_ONE)),
        ],
    },
    Case {
        name: "by calls and lanes and in threads and by calls",
        service: &OVERFLOWING,
        steps: &[
            Step::Comes(Arrival::Subscriber(None)),
            Step::Comes(Arrival::Subscriber(None)),
            Step::Comes(Arrival::Publisher(PLAIN)),
            Step::Comes(Arrival::Publisher(PLAIN)),
            Step::Comes(Arrival::Meeting),
            Step::Domain(InDomain::Sends(3, 31, Ok(Sent::Delivered(2)))),
            Step::Domain(InDomain::Sends(4, 41, Ok(Sent::Delivered(2)))),
            Step::Opens(None),
            Step::Lanes(InLanes::Gets(0, 1, 31)),
            Step::Lanes(InLanes::Sends(1, 42, TO_TWO, ANY)),
            Step::Starts(None),
            Step::Threads(InThreads::Gets(0, 1, 41)),
            Step::Threads(InThreads::Gets(0, 2, 42)),
            Step::Threads(InThreads::Nothing(0)),
            Step::Threads(InThreads::Gets(1, 1, 31)),
            Step::Threads(InThreads::Sends(0, 32, TO_TWO)),
            Step::Threads(InThreads::Parts),
            Step::Ends(Some(EndError::NotAllPorts)),
            Step::Threads(InThreads::Joins),
            Step::Threads(InThreads::Another),
            Step::Threads(InThreads::Parts),
            Step::Threads(InThreads::Joins),
            Step::Ends(Some(EndError::NotAllPorts)),
            Step::Threads(InThreads::Parts),
            Step::Threads(InThreads::Joins),
            Step::Threads(InThreads::Gets(1, 2, 32)),
            Step::Threads(InThreads::Sends(1, 44, TO_TWO)),
            Step::Ends(None),
            Step::Domain(InDomain::Nothing(1)),
            Step::Domain(InDomain::Nothing(2)),
            Step::Domain(InDomain::Sends(4, 43, Ok(Sent::Delivered(2)))),
            Step::Domain(InDomain::Gets(1, 4, 43)),
            Step::Domain(InDomain::Gets(2, 4, 43)),
        ],
    },
    Case {
        name: "ports that end at once",
        service: &OVERFLOWING,
        steps: &[
            Step::Comes(Arrival::Subscriber(None)),
            Step::Comes(Arrival::Publisher(PLAIN)),
            Step::Comes(Arrival::Meeting),
            Step::Domain(InDomain::Sends(2, 81, Ok(Sent::Delivered(1)))),
            Step::Opens(None),
            Step::Lanes(InLanes::Sends(0, 82, TO_ONE, ANY)),
            Step::Passes,
            Step::Domain(InDomain::Nothing(1)),
            Step::Domain(InDomain::Sends(2, 83, Ok(Sent::Delivered(1)))),
            Step::Domain(InDomain::Gets(1, 3, 83)),
        ],
    },
    Case {
        name: "ports by their types",
        service: &OVERFLOWING,
        steps: &[
            Step::Comes(Arrival::Subscriber(None)),
            Step::Comes(Arrival::Publisher(PLAIN)),
            Step::Comes(Arrival::Publisher(PLAIN)),
            Step::Comes(Arrival::Meeting),
            Step::Opens(None),
            Step::Starts(None),
            Step::Threads(InThreads::Typed([2, 3, 1])),
            Step::Threads(InThreads::Narrow(2)),
            Step::Ends(None),
        ],
    },
    Case {
        name: "a port that is lost",
        service: &OVERFLOWING,
        steps: &[
            Step::Comes(Arrival::Subscriber(None)),
            Step::Comes(Arrival::Publisher(PLAIN)),
            Step::Comes(Arrival::Publisher(PLAIN)),
            Step::Comes(Arrival::Meeting),
            Step::Domain(InDomain::Sends(2, 91, Ok(Sent::Delivered(1)))),
            Step::Opens(None),
            Step::Starts(None),
            Step::Threads(InThreads::Sends(0, 92, TO_ONE)),
            Step::Threads(InThreads::Parts),
            Step::Ends(Some(EndError::NotAllPorts)),
            Step::Leaves(3),
            Step::Domain(InDomain::Nothing(1)),
            Step::Domain(InDomain::Sends(2, 93, Ok(Sent::Delivered(1)))),
            Step::Domain(InDomain::Gets(1, 3, 93)),
        ],
    },
    Case {
        name: "a publisher that fails at a full mailbox",
        service: &REFUSING,
        steps: &[
            Step::Comes(Arrival::Subscriber(None)),
            Step::Comes(Arrival::Publisher(FAILING)),
            Step::Comes(Arrival::Meeting),
            Step::Domain(InDomain::Sends(2, 21, Ok(Sent::Delivered(1)))),
            Step::Domain(InDomain::Sends(2, 22, Err(SendError::UnableToDeliver))),
            Step::Domain(InDomain::Gets(1, 1, 21)),
            Step::Opens(None),
            Step::Lanes(InLanes::Sends(0, 23, TO_ONE, ANY)),
            Step::Lanes(InLanes::Sends(0, 24, FULL, ANY)),
            Step::Starts(None),
            Step::Threads(InThreads::Sends(0, 25, FULL)),
            Step::Threads(InThreads::Fails(2)),
            Step::Threads(InThreads::Gets(0, 3, 23)),
            Step::Ends(None),
            Step::Domain(InDomain::Sends(2, 26, Ok(Sent::Delivered(1)))),
            Step::Domain(InDomain::Sends(2, 27, Err(SendError::UnableToDeliver))),
        ],
    },
];

#[test]
fn a_domain_has_what_lanes_and_threads_left(rt: HostRuntime) -> Result<(), AllocError> {
    go_all(&rt, rt.alloc(), &CASES)
}
