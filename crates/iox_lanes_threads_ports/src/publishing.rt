//! The steps of a publisher's call.
ghost use Rattle.std.specs.Prelude.{◌≡◌, Some, is_some};
ghost use Rattle.iox_lanes_machine.specs.LanesBase.Numbers.{words_of, IsSmall};
ghost use Rattle.iox_lanes_machine.specs.LanesBase.Publishing.{publisher_is_over};
ghost use Rattle.iox_lanes_machine.specs.LanesParties.Parties.{publisher_answer};
ghost use Rattle.iox_lanes_threads_rule.specs.Acts.{single, port_of};
ghost use Rattle.iox_lanes_threads_ports.specs.Courses.{PublisherSteps};
ghost use Rattle.iox_lanes_threads_ports.specs.Pace.{StartsWithin};
ghost use Rattle.iox_lanes_threads_ports.specs.Paces.{PublisherRuns};
ghost use Rattle.iox_lanes_threads_ports.specs.Ports.{PublisherStands};

use crate::ahead::access_ahead;
use crate::strides::stride;
use iox_lanes_base::words::TableSizes;
use iox_lanes_parties::{Answer, PublisherLane};
use iox_lanes_threads_rule::{Opening, WordSeat, Words};

/// Makes the next step of a publisher's call.
pub(crate) fn step<K: Opening>(
    words: &Words<K>,
    seat: &mut WordSeat,
    sizes: &TableSizes,
    lane: &mut PublisherLane,
) -> Option<Answer>
    requires table { (seat.old.table_id ≡ words.now.table_id) × (words.now.table_id.words ≡ words_of sizes.now) × IsSmall sizes.now }
    requires seat { (seat.old.me ≡ single (port_of seat.old.me)) × ((port_of seat.old.me).service.sizes ≡ sizes.now) }
    requires stands { PublisherStands (port_of seat.old.me) lane.old }
    ensures table { (seat.new.table_id ≡ seat.old.table_id) × (seat.new.id ≡ seat.old.id) }
    ensures steps { PublisherSteps (port_of seat.old.me) lane.old seat.new.me lane.new }
    ensures answer { result ≡ publisher_answer lane.old.fails lane.old.port.call lane.new.port.book.answer }
    ensures ends { is_some result ≡ publisher_is_over lane.old.port.call }
{
    let call = lane.stage();
    let given = access_ahead(words, seat, sizes, lane, call, call.next());
    lane.go_on(given)
}

/// Makes the steps of a publisher's call that has just begun, up to its last one, but at most `most`.
pub(crate) fn run<K: Opening>(
    words: &Words<K>,
    seat: &mut WordSeat,
    sizes: &TableSizes,
    lane: &mut PublisherLane,
    most: u128,
) -> Option<Answer>
    requires table { (seat.old.table_id ≡ words.now.table_id) × (words.now.table_id.words ≡ words_of sizes.now) × IsSmall sizes.now }
    requires seat { (seat.old.me ≡ single (port_of seat.old.me)) × ((port_of seat.old.me).service.sizes ≡ sizes.now) }
    requires stands { PublisherStands (port_of seat.old.me) lane.old }
    requires begins { StartsWithin sizes.now most lane.old.port.call }
    ensures table { (seat.new.table_id ≡ seat.old.table_id) × (seat.new.id ≡ seat.old.id) }
    ensures seat { (seat.new.me ≡ single (port_of seat.new.me)) × ((port_of seat.new.me).service ≡ (port_of seat.old.me).service)
        × ((port_of seat.new.me).name ≡ (port_of seat.old.me).name) }
    ensures stands { PublisherStands (port_of seat.new.me) lane.new }
    ensures runs { PublisherRuns most (port_of seat.old.me) lane.old (port_of seat.new.me) lane.new result }
{
    let mut made = 0;
    while made < most {
        if lane.port().call().is_over() {
            return lane.go_on(0);
        }
        made += stride(words, seat, sizes, lane, most - made);
    }
    None
}
