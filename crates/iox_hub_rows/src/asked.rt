//! How often the handler of a port is asked about a connection for which no memory is found, and what the handler is given. A case of
//! `./check` refuses the requests for memory, one at a time; with ample memory no handler is asked.
ghost use Rattle.std.specs.Prelude.{⊤};

use crate::clones::{DOMAIN, made};
use crate::ports::must_be_there;
use iox_delivery_factories::{publisher_builder, subscriber_builder};
use iox_describe_base::TypeVariant;
use iox_domain::Domain;
use iox_domain_values::{
    BackpressureDecision, BackpressureInfo, Decides, DegradationAction, DegradationCause,
    DegradationInfo, Degrades,
};
use std::alloc::Global;
use std::cell::Cell;
use std::process::Abort;

// A handler that notes 1 if it is asked, and 100 if it is given another connection than this one.
#[derive(Drop)]
struct Noting<'a> {
    notes: &'a Cell<u64>,
    told: DegradationInfo,
}

impl Degrades for Noting<'_> {
    ghost degrades = { λ _ _ _ _. ⊤ };

    fn degrade(&self, cause: DegradationCause, info: &DegradationInfo) -> DegradationAction {
        let is_told = *info == self.told && cause == DegradationCause::FailedToEstablishConnection;
        let noted = self.notes.get();
        self.notes
            .set(noted.saturating_add(if is_told { 1 } else { 100 }));
        DegradationAction::Ignore
    }
}

impl Decides for Noting<'_> {
    ghost decides = { λ _ _ _. ⊤ };

    fn decide(&self, info: &BackpressureInfo) -> BackpressureDecision {
        BackpressureDecision::Retry
    }
}

// A domain of `u64` whose ports have such handlers.
type Noted<'a> = Domain<u64, u8, Noting<'a>, Noting<'a>>;

// A handler that notes whether it is given the connection of these two ports.
fn notes_about(notes: &Cell<u64>, sender: u64, receiver: u64) -> Noting<'_> {
    Noting {
        notes,
        told: DegradationInfo {
            service_id: DOMAIN.service,
            sender_port_id: sender,
            receiver_port_id: receiver,
        },
    }
}

// A subscriber is created as this port, where port 2 is the publisher.
fn subscribes<'a>(
    rt: &impl Abort,
    alloc: Global,
    domain: &mut Noted<'a>,
    notes: &'a Cell<u64>,
    port: u64,
) {
    let Some(subscribers) = subscriber_builder(domain, 4, 3) else {
        return;
    };
    let subscribers = subscribers.set_handler(notes_about(notes, 2, port));
    must_be_there(rt, subscribers.holds(domain));
    let _ = subscribers.create(alloc, domain);
}

// The publisher is created as port 2, where port 1 is a subscriber.
fn publishes<'a>(rt: &impl Abort, alloc: Global, domain: &mut Noted<'a>, notes: &'a Cell<u64>) {
    let Some(publishers) = publisher_builder(domain, 4, 3) else {
        return;
    };
    let publishers = publishers.set_handlers(notes_about(notes, 2, 1));
    must_be_there(rt, publishers.holds(domain));
    let _ = publishers.create(alloc, domain);
}

// A subscriber is created, then a publisher, and then another subscriber.
fn come<'a>(rt: &impl Abort, alloc: Global, domain: &mut Noted<'a>, notes: &'a Cell<u64>) {
    subscribes(rt, alloc, domain, notes, 1);
    publishes(rt, alloc, domain, notes);
    subscribes(rt, alloc, domain, notes, 3);
}

#[test]
fn who_decides_is_asked_once_about_a_connection(rt: HostRuntime) {
    let notes = Cell::new(0);
    if let Some(mut domain) = made(rt.alloc(), TypeVariant::FixedSize) {
        come(&rt, rt.alloc(), &mut domain, &notes);
    }
    let noted = notes.get();
    assert!(rt; noted <= 1, "{noted}");
}
