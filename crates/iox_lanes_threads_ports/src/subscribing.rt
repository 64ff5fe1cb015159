//! The steps of a subscriber's call.
ghost use Rattle.std.specs.Prelude.{◌≡◌, true};
ghost use Rattle.iox_lanes_machine.specs.LanesBase.Numbers.{words_of, IsSmall};
ghost use Rattle.iox_lanes_machine.specs.LanesBase.Subscribing.{subscriber_is_over};
ghost use Rattle.iox_lanes_threads_rule.specs.Acts.{single, port_of};
ghost use Rattle.iox_lanes_threads_ports.specs.Courses.{SubscriberSteps, SubscriberGoes};
ghost use Rattle.iox_lanes_threads_ports.specs.Ports.{SubscriberStands};
ghost use Rattle.iox_lanes_threads_ports.specs.Values.{IsShort};

use crate::ahead::access_ahead;
use crate::subscriber_strides::{receive_on, stride_on};
use iox_lanes_base::words::TableSizes;
use iox_lanes_parties::SubscriberLane;
use iox_lanes_threads_rule::{Opening, WordSeat, Words};
use std::sync::Wait;

/// Makes the next step of a subscriber's call.
pub(crate) fn step<K: Opening>(
    words: &Words<K>,
    seat: &mut WordSeat,
    sizes: &TableSizes,
    lane: &mut SubscriberLane,
)
    requires table { (seat.old.table_id ≡ words.now.table_id) × (words.now.table_id.words ≡ words_of sizes.now) × IsSmall sizes.now }
    requires seat { (seat.old.me ≡ single (port_of seat.old.me)) × ((port_of seat.old.me).service.sizes ≡ sizes.now) }
    requires stands { SubscriberStands (port_of seat.old.me) lane.old }
    ensures table { (seat.new.table_id ≡ seat.old.table_id) × (seat.new.id ≡ seat.old.id) }
    ensures steps { SubscriberSteps (port_of seat.old.me) lane.old seat.new.me lane.new }
{
    let call = lane.stage();
    let given = access_ahead(words, seat, sizes, lane, call, call.next());
    lane.go_on(given, 0);
}

/// Makes the steps of a read or a release, except the last one.
pub(crate) fn finish<K: Opening>(
    words: &Words<K>,
    seat: &mut WordSeat,
    sizes: &TableSizes,
    lane: &mut SubscriberLane,
)
    requires table { (seat.old.table_id ≡ words.now.table_id) × (words.now.table_id.words ≡ words_of sizes.now) × IsSmall sizes.now }
    requires seat { (seat.old.me ≡ single (port_of seat.old.me)) × ((port_of seat.old.me).service.sizes ≡ sizes.now) }
    requires stands { SubscriberStands (port_of seat.old.me) lane.old }
    requires short { IsShort lane.old.port.call }
    ensures table { (seat.new.table_id ≡ seat.old.table_id) × (seat.new.id ≡ seat.old.id) }
    ensures seat { (seat.new.me ≡ single (port_of seat.new.me)) × ((port_of seat.new.me).service ≡ (port_of seat.old.me).service)
        × ((port_of seat.new.me).name ≡ (port_of seat.old.me).name) }
    ensures stands { SubscriberStands (port_of seat.new.me) lane.new }
    ensures goes { SubscriberGoes (port_of seat.old.me) lane.old (port_of seat.new.me) lane.new }
    ensures short { IsShort lane.new.port.call }
    ensures over { subscriber_is_over lane.new.port.call ≡ true }
{
    stride_on(words, seat, sizes, lane);
    while !lane.port().call().is_over() {
        step(words, seat, sizes, lane);
    }
}

/// Makes the steps of a subscriber's call, except the last one.
pub(crate) fn run_on<R: Wait, K: Opening>(
    rt: &R,
    words: &Words<K>,
    seat: &mut WordSeat,
    sizes: &TableSizes,
    lane: &mut SubscriberLane,
)
    requires table { (seat.old.table_id ≡ words.now.table_id) × (words.now.table_id.words ≡ words_of sizes.now) × IsSmall sizes.now }
    requires seat { (seat.old.me ≡ single (port_of seat.old.me)) × ((port_of seat.old.me).service.sizes ≡ sizes.now) }
    requires stands { SubscriberStands (port_of seat.old.me) lane.old }
    ensures table { (seat.new.table_id ≡ seat.old.table_id) × (seat.new.id ≡ seat.old.id) }
    ensures seat { (seat.new.me ≡ single (port_of seat.new.me)) × ((port_of seat.new.me).service ≡ (port_of seat.old.me).service)
        × ((port_of seat.new.me).name ≡ (port_of seat.old.me).name) }
    ensures stands { SubscriberStands (port_of seat.new.me) lane.new }
    ensures goes { SubscriberGoes (port_of seat.old.me) lane.old (port_of seat.new.me) lane.new }
    ensures over { subscriber_is_over lane.new.port.call ≡ true }
{
    for _ in rt.forever() {
        if lane.port().call().is_over() {
            return;
        }
        receive_on(words, seat, sizes, lane);
    }
    unreachable!()
}
