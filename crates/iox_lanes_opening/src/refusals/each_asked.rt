//! A question asked of each publisher.
ghost use Rattle.std.specs.Prelude.{◌≡◌};
ghost use Rattle.std.specs.List.{list_any};
ghost use Rattle.iox_lanes_opening.specs.EachAsked.{applies};

use crate::refusals::lingering::publisher_lingers;
use crate::refusals::reasons::may_grow;
use crate::refusals::sequences::is_too_large;
use crate::refusals::slices::deals_in_slices;
use crate::refusals::soundness::is_misfit;
use iox_domain::ports::ServicePorts;
use iox_domain_ports::PublisherPort;

/// What may keep a publisher from becoming a lane, as far as its port and the list of publishers show.
#[derive(Clone, Copy)]
pub(crate) enum Question {
    /// Whether a send of the publisher is blocked.
    Blocked,
    /// Whether its capacity for values may grow.
    Growing,
    /// Whether it is closed or isn't listed at its place, or has a loan or a connection that ended or has a borrowed message.
    Lingering,
    /// Whether it has another number of values than one in an element, a slot or a message.
    Slices,
    /// Whether it doesn't have what the service agreed on, or has messages that don't keep to the agreement.
    Misfit,
    /// Whether its last sequence number is too large.
    TooLarge,
}

/// Whether the answer is yes for some publisher.
pub(crate) fn has_such<T: Copy, U: Copy>(ports: &ServicePorts<T, U>, question: Question) -> bool
    ensures { result ≡ list_any (applies question ports.now) ports.now.publishers }
{
    for (number, port) in ports.publishers.iter() {
        if applies(question, ports, *number, port) {
            return true;
        }
    }
    false
}

fn applies<T: Copy, U: Copy>(
    question: Question,
    ports: &ServicePorts<T, U>,
    number: u64,
    port: &PublisherPort<T, U>,
) -> bool
    ensures { result ≡ applies question ports.now (number, port.now) }
{
    match question {
        Question::Blocked => port.sender.is_sending(),
        Question::Growing => may_grow(port.allocation),
        Question::Lingering => publisher_lingers(ports, number, port),
        Question::Slices => deals_in_slices(port),
        Question::Misfit => is_misfit(ports.sizes, port),
        Question::TooLarge => is_too_large(port.last_sequence),
    }
}
