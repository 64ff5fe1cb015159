//! What a publisher's handler is given about a connection that can't be made, and how often it is asked: the publisher has no capacity for
//! the subscriber's place.
ghost use Rattle.std.specs.Prelude.{⊤};

use crate::answers::hold;
use iox_container::OwnerId;
use iox_domain_ports::{Member, PublisherPort, SenderConfig, SubscriberEntry};
use iox_domain_values::{
    AllocationStrategy, DegradationAction, DegradationCause, DegradationInfo, Degrades,
    PortIdentity, PortOwner,
};
use std::alloc::{AllocError, Global};
use std::cell::Cell;

const TOLD: DegradationInfo = DegradationInfo {
    service_id: 7,
    sender_port_id: 2,
    receiver_port_id: 5,
};

const IDENTITY: PortIdentity = PortIdentity {
    service: TOLD.service_id,
    number: TOLD.sender_port_id,
    owner: PortOwner {
        number: 3,
        node_id: 4,
    },
    place: 0,
};

const CONFIG: SenderConfig = SenderConfig {
    overflows: true,
    slots: 3,
    most_segments: 1,
    room: 1,
    most_loans: 1,
    history: 0,
    most_waiting: 1,
    most_borrowed: 1,
};

// Counts how often it is asked. It lets the call go on where it is given that connection, and fail where it is given anything else.
#[derive(Drop)]
struct Counting<'a> {
    times: &'a Cell<u64>,
}

impl Degrades for Counting<'_> {
    ghost degrades = { λ _ _ _ _. ⊤ };

    fn degrade(&self, cause: DegradationCause, info: &DegradationInfo) -> DegradationAction {
        self.times.set(self.times.get().saturating_add(1));
        if *info == TOLD && cause == DegradationCause::FailedToEstablishConnection {
            DegradationAction::Ignore
        } else {
            DegradationAction::DegradeAndFail
        }
    }
}

fn listed(owner: OwnerId) -> Option<Member<SubscriberEntry>> {
    Some(Member {
        number: 1,
        owner,
        value: SubscriberEntry {
            subscriber: TOLD.receiver_port_id,
            buffer_size: 1,
        },
    })
}

// Whether an update goes on, and asked this many times.
fn updates(alloc: Global, owner: OwnerId, places: usize, wanted: u64) -> Result<bool, AllocError> {
    let mut port = PublisherPort::<u64, u64>::new(
        alloc,
        IDENTITY,
        places,
        AllocationStrategy::Static,
        1,
        None,
        CONFIG,
        0,
        0,
    )?;
    let times = Cell::new(0);
    let answer = port.update(alloc, &[listed(owner)], 1, &Counting { times: &times });
    Ok(answer == Ok(()) && times.get() == wanted)
}

// Whether it is asked once where there is no capacity for the place, and not where there is.
fn is_asked_once(alloc: Global) -> Result<bool, AllocError> {
    let Ok(owner) = OwnerId::new(1) else {
        return Ok(false);
    };
    Ok(updates(alloc, owner, 0, 1)? && updates(alloc, owner, 1, 0)?)
}

#[test]
fn a_publishers_handler_is_asked_once_about_a_place(rt: HostRuntime) -> Result<(), AllocError> {
    hold(&rt, is_asked_once(rt.alloc()))
}
