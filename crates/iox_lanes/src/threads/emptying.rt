//! Makes publishers of a domain forget their messages.
ghost use Rattle.std.specs.Prelude.{◌≡◌, length, slice_get, Some};
ghost use Rattle.iox_domain_ports.specs.Publishers.{changed};
ghost use Rattle.iox_lanes.specs.Emptied.{gone_on, gone_on_by, with_last, without_messages, AreWithout};

use iox_domain_ports::{PublisherPort, Publishers};
use iox_lanes_opening::leaving::forget_messages;
use iox_lanes_threads::LanePublisher;

// Makes a publisher forget its messages.
#[tactic(auto, using(crate::proofs::Forgetting::is_without))]
fn forget<T: Copy, U: Copy>(port: &mut PublisherPort<T, U>)
    ensures { port.new ≡ without_messages port.old }
{
    forget_messages(&mut port.sender);
}

// Makes the publisher with this number forget its messages, if there is one.
fn forget_at<T: Copy, U: Copy>(publishers: &mut Publishers<T, U>, number: u64)
    ensures { publishers.new ≡ changed number without_messages publishers.old }
{
    if let Some(port) = publishers.get_mut(number) {
        forget(port);
    }
}

// Makes each publisher with one of these numbers forget its messages.
pub(crate) fn forget_all<T: Copy, U: Copy>(publishers: &mut Publishers<T, U>, numbers: &[u64])
    ensures { AreWithout numbers.now publishers.old publishers.new }
{
    for at in 0..numbers.len() {
        forget_at(publishers, numbers[at]);
    }
}

// Sets the last sequence number of a publisher, so its next message gets the number after it.
fn go_on<T: Copy, U: Copy>(port: &mut PublisherPort<T, U>, last: Option<u64>)
    ensures { port.new ≡ with_last last port.old }
{
    port.last_sequence = last;
}

// Sets the last sequence number of the publisher with this number, if there is one.
fn go_on_at<T: Copy, U: Copy>(publishers: &mut Publishers<T, U>, number: u64, last: Option<u64>)
    ensures { publishers.new ≡ changed number (with_last last) publishers.old }
{
    if let Some(port) = publishers.get_mut(number) {
        go_on(port, last);
    }
}

// Sets the last sequence number of the publisher of a port in threads to that of the port.
fn go_on_behind<T: Copy, U: Copy>(
    publishers: &mut Publishers<T, U>,
    numbers: &[u64],
    port: &LanePublisher,
)
    ensures { publishers.new ≡ gone_on_by numbers.now (Some port.now) publishers.old }
{
    if let Some(number) = numbers.get(port.place()) {
        go_on_at(publishers, *number, port.last_sequence());
    }
}

// Sets the last sequence number of the publisher of the port at this place to that of the port, if there is one.
fn go_on_by<T: Copy, U: Copy>(
    publishers: &mut Publishers<T, U>,
    numbers: &[u64],
    ports: &[LanePublisher],
    at: usize,
)
    ensures { publishers.new ≡ gone_on_by numbers.now (slice_get ports.now at) publishers.old }
{
    if let Some(port) = ports.get(at) {
        go_on_behind(publishers, numbers, port);
    }
}

// Sets the last sequence numbers of the publishers of these ports to those of the ports.
pub(crate) fn go_on_all<T: Copy, U: Copy>(
    publishers: &mut Publishers<T, U>,
    numbers: &[u64],
    ports: &[LanePublisher],
)
    ensures { publishers.new ≡ gone_on numbers.now ports.now publishers.old (length ports.now) }
{
    for at in 0..ports.len() {
        go_on_by(publishers, numbers, ports, at);
    }
}
