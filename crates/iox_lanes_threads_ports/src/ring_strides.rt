//! Several accesses of a port's pop or push on a ring at once: its lane catches up after the last of them.
ghost use Rattle.std.specs.Prelude.{◌≡◌, ◌<◌, ◌≤◌, ℕ};
ghost use Rattle.iox_lanes_threads_rule.specs.Acts.{port_of};
ghost use Rattle.iox_lanes_threads_ports.specs.Strides.{AsksWord, MakesTwo, MayStride, RunsAhead, StridesOn, StrodeBy};

use crate::ahead::{Ahead, access_ahead};
use crate::ring_calls::RingCall;
use iox_lanes_base::words::TableSizes;
use iox_lanes_threads_rule::{Opening, WordSeat, Words};
use iox_queues_steps::End;

// Makes the access that a pop or a push makes next at this stage, and returns its answer.
#[inline(always)]
fn access_at<K: Opening, L: Ahead, S: End, C: RingCall<L, S>>(
    words: &Words<K>,
    seat: &mut WordSeat,
    sizes: &TableSizes,
    lane: &L,
    call: C,
    state: S,
) -> u64
    requires may { MayStride L.kind words.now.table_id seat.old.table_id seat.old.me sizes.now
        (L.kind.called (C.stage call state) lane.now) (C.ring call).cells }
    requires asks { AsksWord (S.asks state) }
    ensures table { (seat.new.table_id ≡ seat.old.table_id) × (seat.new.id ≡ seat.old.id) }
    ensures strode { StridesOn L.kind 1 seat.old.me (L.kind.called (C.stage call state) lane.now) seat.new.me
        (L.kind.after result (L.kind.called (C.stage call state) lane.now)) }
{
    let access = call.ring().access(state.next());
    access_ahead(words, seat, sizes, lane, call.stage(state), access)
}

// Makes two accesses, one after the other. Returns the stage of the second, and its answer.
#[inline(always)]
fn access_twice<K: Opening, L: Ahead, S: End, C: RingCall<L, S>>(
    words: &Words<K>,
    seat: &mut WordSeat,
    sizes: &TableSizes,
    lane: &L,
    call: C,
    state: S,
) -> (S, u64)
    requires two { MakesTwo S.asks S.takes state }
    requires may { MayStride L.kind words.now.table_id seat.old.table_id seat.old.me sizes.now
        (L.kind.called (C.stage call state) lane.now) (C.ring call).cells }
    ensures second { (first : ℕ) × (result.0 ≡ S.takes state first) }
    ensures table { (seat.new.table_id ≡ seat.old.table_id) × (seat.new.id ≡ seat.old.id) }
    ensures strode { StridesOn L.kind 2 seat.old.me (L.kind.called (C.stage call state) lane.now) seat.new.me
        (L.kind.after result.1 (L.kind.called (C.stage call result.0) lane.now)) }
{
    L::goes_ahead();
    let first = access_at(words, seat, sizes, lane, call, state);
    let next = state.take(first);
    let second = access_at(words, seat, sizes, lane, call, next);
    (next, second)
}

/// Makes two accesses of a pop or a push from this stage on, and two more unless it is over then. Returns how many.
#[inline(always)]
pub(crate) fn ring_stride<K: Opening, L: Ahead, S: End, C: RingCall<L, S>>(
    words: &Words<K>,
    seat: &mut WordSeat,
    sizes: &TableSizes,
    lane: &mut L,
    call: C,
    begun: S,
) -> u128
    requires may { MayStride L.kind words.now.table_id seat.old.table_id seat.old.me sizes.now lane.old (C.ring call).cells }
    requires call { L.kind.standing lane.old ≡ C.stage call begun }
    requires runs { RunsAhead S.asks S.takes S.over begun }
    ensures table { (seat.new.table_id ≡ seat.old.table_id) × (seat.new.id ≡ seat.old.id) }
    ensures some { (0 < result) × (result ≤ 4) }
    ensures ends { (last : S) × (answer : ℕ) × AsksWord (S.asks last)
        × (lane.new ≡ L.kind.after answer (L.kind.called (C.stage call last) lane.old)) }
    ensures strode { StrodeBy L.kind (port_of seat.old.me) lane.old result seat.new.me lane.new }
{
    L::goes_ahead();
    let sizes = *sizes;
    let (seen, answer) = access_twice(words, seat, &sizes, lane, call, begun);
    let found = seen.take(answer);
    if found.is_over() {
        lane.go_on_from(call.stage(seen), answer);
        return 2;
    }
    let (last, given) = access_twice(words, seat, &sizes, lane, call, found);
    lane.go_on_from(call.stage(last), given);
    4
}
