//! Several steps of a subscriber's call at once: its lane catches up after the last of them.
ghost use Rattle.std.specs.Prelude.{◌≡◌, ◌+◌};
ghost use Rattle.iox_lanes_machine.specs.LanesBase.Numbers.{words_of, IsSmall};
ghost use Rattle.iox_lanes_machine.specs.LanesBase.Subscribing.{word_at, read_at};
ghost use Rattle.iox_lanes_machine.specs.LanesBase.declared.calls.subscriber.SubscriberCall.TheVariants as call;
ghost use Rattle.iox_lanes_machine.specs.LanesParties.Parties.{SubscriberLaneState};
ghost use Rattle.iox_lanes_threads_rule.specs.Acts.{single, port_of};
ghost use Rattle.iox_lanes_threads_rule.specs.declared.view.Port.{Port};
ghost use Rattle.iox_lanes_threads_ports.specs.Ports.{SubscriberStands};
ghost use Rattle.iox_lanes_threads_ports.specs.Strides.{subscriber_called, SubscriberStrode};
ghost use Rattle.iox_lanes_threads_ports.specs.Values.{IsShort};

use crate::ahead::access_ahead;
use crate::ring_calls::{Receives, Releases};
use crate::ring_strides::ring_stride;
use crate::subscribing::step;
use iox_lanes_base::calls::SubscriberCall;
use iox_lanes_base::calls::subscriber::SlotExtent;
use iox_lanes_base::words::{SharedAccess, SharedWord, SlotWord, TableSizes};
use iox_lanes_parties::SubscriberLane;
use iox_lanes_threads_rule::{Opening, WordSeat, Words};
use iox_queues_steps::rings::Pop;
use iox_queues_steps::rings::overflowing::Pop as OverflowingPop;
use iox_queues_steps::rings::refusing::{Pop as RefusingPop, Push as RefusingPush};

// A word of header, user header and payload, which lie one after the other.
fn word_at(extent: SlotExtent, word: u64) -> SlotWord
    ensures { result ≡ word_at extent word }
{
    if word < 3 {
        SlotWord::Header(word)
    } else if word - 3 < extent.user_header_words {
        SlotWord::UserHeader(word - 3)
    } else {
        SlotWord::Payload(word - 3 - extent.user_header_words)
    }
}

// A sample that is read, with the words of its slot.
#[derive(Clone, Copy)]
struct SampleRead {
    slot: u64,
    extent: SlotExtent,
}

// Loads a word of a sample and keeps its value; the call stays at its stage.
#[inline(always)]
fn read_word<K: Opening>(
    words: &Words<K>,
    seat: &mut WordSeat,
    sizes: &TableSizes,
    lane: &mut SubscriberLane,
    sample: SampleRead,
    word: u64,
    own: SlotWord,
)
    requires table { (seat.old.table_id ≡ words.now.table_id) × (words.now.table_id.words ≡ words_of sizes.now) × IsSmall sizes.now }
    requires seat { (seat.old.me ≡ single (port_of seat.old.me)) × ((port_of seat.old.me).service.sizes ≡ sizes.now) }
    requires stands { SubscriberStands (port_of seat.old.me) (subscriber_called (call.Reading sample.slot word sample.extent) lane.old) }
    requires own { own ≡ word_at sample.extent word }
    ensures table { (seat.new.table_id ≡ seat.old.table_id) × (seat.new.id ≡ seat.old.id) }
    ensures strode { (p : Port) (begun : SubscriberLaneState)
        → SubscriberStrode p begun seat.old.me (subscriber_called (call.Reading sample.slot word sample.extent) lane.old)
        → SubscriberStrode p begun seat.new.me (subscriber_called (read_at sample.slot sample.extent (word + 1)) lane.new) }
{
    let SampleRead { slot, extent } = sample;
    let call = SubscriberCall::Reading { slot, word, extent };
    let access = SharedAccess::Load(SharedWord::Slot { slot, word: own });
    let value = access_ahead(words, seat, sizes, lane, call, access);
    lane.note(word, value);
}

// Loads all words of a sample.
fn read_words<K: Opening>(
    words: &Words<K>,
    seat: &mut WordSeat,
    sizes: &TableSizes,
    lane: &mut SubscriberLane,
    sample: SampleRead,
)
    requires table { (seat.old.table_id ≡ words.now.table_id) × (words.now.table_id.words ≡ words_of sizes.now) × IsSmall sizes.now }
    requires seat { (seat.old.me ≡ single (port_of seat.old.me)) × ((port_of seat.old.me).service.sizes ≡ sizes.now) }
    requires stands { SubscriberStands (port_of seat.old.me) lane.old }
    requires call { lane.old.port.call ≡ call.Reading sample.slot 0 sample.extent }
    ensures table { (seat.new.table_id ≡ seat.old.table_id) × (seat.new.id ≡ seat.old.id) }
    ensures call { lane.new.port.call ≡ call.WasRead sample.slot }
    ensures strode { SubscriberStrode (port_of seat.old.me) lane.old seat.new.me lane.new }
{
    let sizes = *sizes;
    let SampleRead { slot, extent } = sample;
    let last = 2 + extent.user_header_words + extent.payload_words;
    // From this word on each word is one of the payload, so no iteration asks which it is.
    let first = 3 + extent.user_header_words;
    let row = first.min(last);
    for word in 0..row {
        let own = word_at(extent, word);
        read_word(words, seat, &sizes, lane, sample, word, own);
    }
    for word in row..last {
        let own = SlotWord::Payload(word - first);
        read_word(words, seat, &sizes, lane, sample, word, own);
    }
    let call = SubscriberCall::Reading {
        slot,
        word: last,
        extent,
    };
    let own = word_at(extent, last);
    let access = SharedAccess::Load(SharedWord::Slot { slot, word: own });
    let value = access_ahead(words, seat, &sizes, lane, call, access);
    lane.go_on_from(call, value);
}

/// Makes some of the next steps of a read or a release.
pub(crate) fn stride_on<K: Opening>(
    words: &Words<K>,
    seat: &mut WordSeat,
    sizes: &TableSizes,
    lane: &mut SubscriberLane,
)
    requires table { (seat.old.table_id ≡ words.now.table_id) × (words.now.table_id.words ≡ words_of sizes.now) × IsSmall sizes.now }
    requires seat { (seat.old.me ≡ single (port_of seat.old.me)) × ((port_of seat.old.me).service.sizes ≡ sizes.now) }
    requires stands { SubscriberStands (port_of seat.old.me) lane.old }
    requires short { IsShort lane.old.port.call }
    ensures table { (seat.new.table_id ≡ seat.old.table_id) × (seat.new.id ≡ seat.old.id) }
    ensures short { IsShort lane.new.port.call }
    ensures strode { SubscriberStrode (port_of seat.old.me) lane.old seat.new.me lane.new }
{
    match lane.stage() {
        SubscriberCall::Reading {
            slot,
            word: 0,
            extent,
        } => read_words(words, seat, sizes, lane, SampleRead { slot, extent }),
        SubscriberCall::Releasing {
            place,
            route,
            push: RefusingPush::Begun { limit, value },
        } => {
            let call = Releases { place, route };
            let begun = RefusingPush::Begun { limit, value };
            ring_stride(words, seat, sizes, lane, call, begun);
        }
        _ => {}
    }
}

/// Makes some of the next steps of a receive.
pub(crate) fn receive_on<K: Opening>(
    words: &Words<K>,
    seat: &mut WordSeat,
    sizes: &TableSizes,
    lane: &mut SubscriberLane,
)
    requires table { (seat.old.table_id ≡ words.now.table_id) × (words.now.table_id.words ≡ words_of sizes.now) × IsSmall sizes.now }
    requires seat { (seat.old.me ≡ single (port_of seat.old.me)) × ((port_of seat.old.me).service.sizes ≡ sizes.now) }
    requires stands { SubscriberStands (port_of seat.old.me) lane.old }
    ensures table { (seat.new.table_id ≡ seat.old.table_id) × (seat.new.id ≡ seat.old.id) }
    ensures strode { SubscriberStrode (port_of seat.old.me) lane.old seat.new.me lane.new }
{
    match lane.stage() {
        SubscriberCall::Receiving {
            place,
            route,
            pop: Pop::Refusing(RefusingPop::Begun),
            waits,
        } => {
            let call = Receives {
                place,
                route,
                waits,
            };
            ring_stride(words, seat, sizes, lane, call, RefusingPop::Begun);
        }
        SubscriberCall::Receiving {
            place,
            route,
            pop: Pop::Overflowing(OverflowingPop::Begun),
            waits,
        } => {
            let call = Receives {
                place,
                route,
                waits,
            };
            ring_stride(words, seat, sizes, lane, call, OverflowingPop::Begun);
        }
        _ => step(words, seat, sizes, lane),
    }
}
