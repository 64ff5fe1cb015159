//! Gives ports seats of their own, gathers ports in one seat again, and what gathered ports agree on.
ghost use Rattle.std.specs.Prelude.{◌≡◌, ◌<◌, []};
ghost use Rattle.iox_lanes_threads_rule.specs.Acts.{first_port, single};
ghost use Rattle.iox_lanes_threads_rule.specs.Gathered.{both_views, Agree};
ghost use Rattle.iox_lanes_threads_rule.specs.Seats.{others_wait, IsWaiting};

use crate::board::{Opening, WordSeat, Words};
use crate::view::View;
use atomic_table::{Join, Play, Split};

// The first port that waits gets a seat of its own.
struct GiveOut;

impl Split<View> for GiveOut {
    ghost use Rattle.iox_lanes_threads_rule.specs.Seats.{others_wait, first_seated};

    ghost left = { others_wait };

    ghost right = { first_seated };
}

// Two seats become one.
struct Gathers;

impl Join<View> for Gathers {
    ghost use Rattle.iox_lanes_threads_rule.specs.Gathered.{both_views, no_view};

    ghost both = { both_views };

    ghost spent = { no_view };
}

// What the ports of a seat agree on.
struct Agrees;

impl Play<u8, View> for Agrees {
    ghost use Rattle.iox_lanes_threads_rule.specs.Gathered.{agreed};

    ghost then = { agreed };
}

/// Gives the first port that waits a seat of its own, and returns that seat.
pub fn give_out<K: Opening>(words: &Words<K>, home: &mut WordSeat) -> WordSeat
    requires table { (home.old.table_id ≡ words.now.table_id) × (0 < words.now.table_id.words) }
    requires waits { IsWaiting home.old.me }
    ensures table { (home.new.table_id ≡ home.old.table_id) × (result.table_id ≡ home.old.table_id) }
    ensures seat { result.me ≡ single (first_port home.old.me.0.waiting) }
    ensures rest { home.new.me ≡ (others_wait home.old.me.0, []) }
{
    words.shared().split_seat::<GiveOut>(home)
}

/// Moves the ports of another seat to this one, after those that it has.
pub fn gather<K: Opening>(words: &Words<K>, seat: &mut WordSeat, other: WordSeat)
    requires table { (seat.old.table_id ≡ words.now.table_id) × (other.table_id ≡ words.now.table_id) × (0 < words.now.table_id.words) }
    requires alone { other.me.1 ≡ [] }
    ensures table { seat.new.table_id ≡ seat.old.table_id }
    ensures ports { seat.new.me ≡ (both_views seat.old.me.0 other.me.0, seat.old.me.1) }
{
    words.shared().join_seat::<Gathers>(seat, other);
}

/// Loads a word by a seat that makes no further step; after that the ports of the seat agree (`Agree`).
pub fn agree<K: Opening>(words: &Words<K>, mut seat: WordSeat)
    requires table { (seat.table_id ≡ words.now.table_id) × (0 < words.now.table_id.words) }
    ensures agree { Agree seat.me.0.ports }
{
    words.shared().load::<Agrees>(&mut seat, 0);
}
