//! Each reason why a domain can't become lanes, and domains to which none applies any more.
use crate::domain::{ASKING, Arrival, FAR, GROWING, InDomain, PAIRS, PLAIN, Service, WAITING};
use crate::lanes::{ANY, InLanes, TO_ONE};
use crate::worlds::{Case, Step, go_all};
use iox_describe_base::TypeVariant;
use iox_domain_ports::Sent;
use iox_lanes::IntoLanesError;
use std::alloc::AllocError;

// A service whose full mailboxes drop their oldest message.
const OVERFLOWING: Service = Service {
    variant: TypeVariant::FixedSize,
    overflow: true,
    buffer: 2,
    history: 1,
    borrowed: 1,
    numbered: true,
    ports: 2,
};

// A service whose mailboxes hold one message, and refuse more.
const REFUSING: Service = Service {
    variant: TypeVariant::FixedSize,
    overflow: false,
    buffer: 1,
    history: 0,
    borrowed: 1,
    numbered: false,
    ports: 2,
};

// A service of slices.
const SLICES: Service = Service {
    variant: TypeVariant::Dynamic,
    overflow: true,
    buffer: 1,
    history: 0,
    borrowed: 1,
    numbered: true,
    ports: 2,
};

const CASES: [Case; 10] = [
    Case {
        name: "a send that waits",
        service: &REFUSING,
        steps: &[
            Step::Comes(Arrival::Publisher(WAITING)),
            Step::Comes(Arrival::Subscriber(None)),
            Step::Domain(InDomain::Sends(1, 5, Ok(Sent::Delivered(1)))),
            Step::Domain(InDomain::Sends(1, 6, Ok(Sent::Blocked))),
            Step::Opens(Some(IntoLanesError::Blocked)),
        ],
    },
    Case {
        name: "connections that are not up to date",
        service: &OVERFLOWING,
        steps: &[
            Step::Comes(Arrival::Publisher(PLAIN)),
            Step::Comes(Arrival::Subscriber(None)),
            Step::Opens(Some(IntoLanesError::ConnectionsNotUpToDate)),
            Step::Comes(Arrival::Meeting),
            Step::Opens(None),
        ],
    },
    Case {
        name: "room that may grow",
        service: &REFUSING,
        steps: &[
            Step::Comes(Arrival::Publisher(GROWING)),
            Step::Opens(Some(IntoLanesError::NotStatic)),
        ],
    },
    Case {
        name: "an object that decides",
        service: &REFUSING,
        steps: &[
            Step::Comes(Arrival::Publisher(ASKING)),
            Step::Opens(Some(IntoLanesError::HasHandlers)),
        ],
    },
    Case {
        name: "sends that would wait",
        service: &REFUSING,
        steps: &[
            Step::Comes(Arrival::Publisher(WAITING)),
            Step::Opens(Some(IntoLanesError::Retrying)),
        ],
    },
    Case {
        name: "a subscriber that left, and holds a sample",
        service: &REFUSING,
        steps: &[
            Step::Comes(Arrival::Publisher(PLAIN)),
            Step::Comes(Arrival::Subscriber(None)),
            Step::Domain(InDomain::Sends(1, 7, Ok(Sent::Delivered(1)))),
            Step::Domain(InDomain::Holds(2, 7)),
            Step::Domain(InDomain::Departs(2)),
            Step::Domain(InDomain::Sends(1, 8, Ok(Sent::Delivered(0)))),
            Step::Opens(Some(IntoLanesError::Lingering)),
            Step::Domain(InDomain::Frees),
            Step::Opens(None),
        ],
    },
    Case {
        name: "room for two values",
        service: &SLICES,
        steps: &[
            Step::Comes(Arrival::Publisher(PAIRS)),
            Step::Opens(Some(IntoLanesError::HasSlices)),
        ],
    },
    Case {
        name: "single values of a service of slices",
        service: &SLICES,
        steps: &[
            Step::Comes(Arrival::Publisher(PLAIN)),
            Step::Comes(Arrival::Subscriber(None)),
            Step::Comes(Arrival::Meeting),
            Step::Opens(None),
            Step::Lanes(InLanes::Sends(0, 7, TO_ONE, ANY)),
            Step::Lanes(InLanes::Gets(0, 1, 7)),
            Step::Returns(None),
        ],
    },
    Case {
        name: "a publisher that is listed twice",
        service: &OVERFLOWING,
        steps: &[
            Step::Comes(Arrival::Publisher(PLAIN)),
            Step::Domain(InDomain::Relists(1)),
            Step::Opens(Some(IntoLanesError::Unsound)),
        ],
    },
    Case {
        name: "a last number of 2^63",
        service: &OVERFLOWING,
        steps: &[
            Step::Comes(Arrival::Publisher(FAR)),
            Step::Opens(Some(IntoLanesError::SequenceTooLarge)),
        ],
    },
];

#[test]
fn each_reason_is_told_where_it_applies(rt: HostRuntime) -> Result<(), AllocError> {
    go_all(&rt, rt.alloc(), &CASES)
}
