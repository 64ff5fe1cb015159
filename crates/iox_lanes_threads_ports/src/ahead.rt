//! Accesses that a port makes before its lane records them: the lane catches up at once, after the last of them.
ghost use Rattle.std.specs.Prelude.{◌≡◌};
ghost use Rattle.iox_lanes_machine.specs.LanesBase.Numbers.{words_of, IsSmall};
ghost use Rattle.iox_lanes_threads_rule.specs.Acts.{single, port_of, stepped, ToldBy};
ghost use Rattle.iox_lanes_threads_ports.specs.Strides.{LaneKind, publishers, subscribers, StridesOn, TouchesWord, GoesAhead};

use iox_lanes_base::calls::{PublisherCall, SubscriberCall};
use iox_lanes_base::words::{SharedAccess, TableSizes};
use iox_lanes_parties::{PublisherLane, SubscriberLane};
use iox_lanes_threads_rule::{Doing, Opening, WordSeat, Words, act};
use std::marker::Brand;

/// A lane that can catch up with accesses that its port made ahead of it.
pub(crate) trait Ahead: Sized {
    /// The stage of its call.
    type Call: Copy;

    // what the lane does with its calls
    ghost kind: { LaneKind Self Self.Call };

    /// Sets the lane to the stage `call`, and lets it go on with `given`, the answer of the access that comes next at that stage.
    fn go_on_from(&mut self, call: Self::Call, given: u64)
        ensures { self.new ≡ kind.after given (kind.called call self.old) };

    /// Theorem: a port may make accesses before its lane records them, in the terms of the definitions that contracts cite.
    fn goes_ahead()
        ensures { GoesAhead Self Self.Call kind };
}

impl Ahead for PublisherLane {
    type Call = PublisherCall;

    ghost kind = { publishers };

    #[inline(always)]
    fn go_on_from(&mut self, call: PublisherCall, given: u64) {
        PublisherLane::go_on_from(self, call, given);
    }

    fn goes_ahead() {}
}

impl Ahead for SubscriberLane {
    type Call = SubscriberCall;

    ghost kind = { subscribers };

    #[inline(always)]
    fn go_on_from(&mut self, call: SubscriberCall, given: u64) {
        SubscriberLane::go_on_from(self, call, given);
    }

    fn goes_ahead() {}
}

#[inline(always)]
fn access_as<K: Opening, M: Doing, L: Ahead>(
    words: &Words<K>,
    seat: &mut WordSeat,
    sizes: &TableSizes,
    lane: &L,
    call: L::Call,
    access: SharedAccess,
) -> u64
    requires table { (seat.old.table_id ≡ words.now.table_id) × (words.now.table_id.words ≡ words_of sizes.now) × IsSmall sizes.now }
    requires seat { (seat.old.me ≡ single M.port) × (M.port.service.sizes ≡ sizes.now) }
    requires stands { L.kind.Stands M.port (L.kind.called call lane.now) }
    requires next { L.kind.next call ≡ access }
    requires after { M.after ≡ L.kind.party (L.kind.called call lane.now) }
    ensures table { (seat.new.table_id ≡ seat.old.table_id) × (seat.new.id ≡ seat.old.id) }
    ensures port { seat.new.me ≡ single (stepped M.port access result (L.kind.party (L.kind.called call lane.now))) }
    ensures told { ToldBy M.port access result }
{
    L::goes_ahead();
    act::<K, M>(words, seat, sizes, access)
}

/// Makes the access that comes next at the stage `call`, and returns its answer: 0 for stores and local steps.
#[inline(always)]
pub(crate) fn access_ahead<K: Opening, L: Ahead>(
    words: &Words<K>,
    seat: &mut WordSeat,
    sizes: &TableSizes,
    lane: &L,
    call: L::Call,
    access: SharedAccess,
) -> u64
    requires table { (seat.old.table_id ≡ words.now.table_id) × (words.now.table_id.words ≡ words_of sizes.now) × IsSmall sizes.now }
    requires seat { (seat.old.me ≡ single (port_of seat.old.me)) × ((port_of seat.old.me).service.sizes ≡ sizes.now) }
    requires stands { L.kind.Stands (port_of seat.old.me) (L.kind.called call lane.now) }
    requires next { L.kind.next call ≡ access }
    ensures table { (seat.new.table_id ≡ seat.old.table_id) × (seat.new.id ≡ seat.old.id) }
    ensures port { seat.new.me ≡ single (stepped (port_of seat.old.me) access result (L.kind.party (L.kind.called call lane.now))) }
    ensures told { ToldBy (port_of seat.old.me) access result }
    ensures strode { TouchesWord access → StridesOn L.kind 1 seat.old.me (L.kind.called call lane.now) seat.new.me
        (L.kind.after result (L.kind.called call lane.now)) }
{
    L::goes_ahead();
    access_as::<K, Brand, L>(words, seat, sizes, lane, call, access)
}
