//! The table of words that the ports of a service share, and the seats that they step with.
ghost use Rattle.std.specs.Prelude.{◌≡◌, ◌<◌, [], IfOk};
ghost use Rattle.iox_lanes_threads_ports.specs.LanesThreadsRule.Acts.{first_port, single};
ghost use Rattle.iox_lanes_threads_ports.specs.LanesThreadsRule.Seats.{others_wait, IsWaiting};
ghost use Rattle.iox_lanes_threads.specs.Opening.{ports_of, Fitting, WaitsFor};

use iox_lanes_machine::LaneMachine;
use iox_lanes_threads_rule::{Opening, WordSeat, Words, give_out};
use std::alloc::{AllocError, Global};
use std::marker::Model;
use std::snapshot::Snapshot;
use std::sync::Arc;

/// The lanes whose words a table started from. At run time it has no bytes.
#[derive(Drop)]
pub struct OpenedFrom {
    lanes: Snapshot<LaneMachine>,
}

impl Opening for OpenedFrom {
    ghost use Rattle.iox_lanes_threads.specs.Opening.{first_view};

    ghost first = { λ from. first_view from.lanes.value };
}

/// A share of the words. The table lives as long as one of its shares does.
#[derive(Drop)]
pub(crate) struct Share {
    table: Arc<Words<OpenedFrom>, Global>,
}

impl Model for Share {
    ghost use Rattle.std.specs.Arc.{arc_value};
    ghost use Rattle.atomic_table.specs.Seated.{TableId};

    ghost Value = { TableId };

    ghost view = { λ s. (arc_value s.table).table_id };
}

impl Share {
    /// The first share of a table. `AllocError` is returned only where an allocation fails.
    pub(crate) fn new(alloc: Global, table: Words<OpenedFrom>) -> Result<Share, AllocError>
        ensures { IfOk result (λ share. share ≡ table.table_id) }
    {
        match Arc::new(alloc, table) {
            Ok(table) => Ok(Share { table }),
            Err(_) => Err(AllocError),
        }
    }

    /// Another share of the table. It fails only if there are as many shares as can be counted.
    pub(crate) fn another(&self) -> Result<Share, AllocError>
        ensures { IfOk result (λ share. share ≡ self.now) }
    {
        Ok(Share {
            table: Arc::try_clone(&self.table)?,
        })
    }

    /// The words.
    pub(crate) fn words(&self) -> &Words<OpenedFrom>
        ensures { result.now.table_id ≡ self.now }
    {
        &self.table
    }
}

/// A table that starts with the words of lanes, and a seat at which all their ports wait. `AllocError` is returned only where an allocation
/// fails.
pub(crate) fn open_table(
    alloc: Global,
    lanes: &LaneMachine,
) -> Result<(Words<OpenedFrom>, WordSeat), AllocError>
    requires { Fitting lanes.now }
    ensures { IfOk result (λ made. (made.1.table_id ≡ made.0.table_id)
        × WaitsFor lanes.now made.0.table_id made.1.me 0 (ports_of lanes.now)) }
{
    let from = OpenedFrom {
        lanes: Snapshot::of(lanes),
    };
    Words::open(alloc, lanes.table().words(), &from)
}

/// Gives the first port that waits a seat of its own, and returns that seat.
pub(crate) fn next_seat(share: &Share, home: &mut WordSeat) -> WordSeat
    requires table { (home.old.table_id ≡ share.now) × (0 < share.now.words) }
    requires waits { IsWaiting home.old.me }
    ensures table { (home.new.table_id ≡ home.old.table_id) × (result.table_id ≡ home.old.table_id) }
    ensures seat { result.me ≡ single (first_port home.old.me.0.waiting) }
    ensures rest { home.new.me ≡ (others_wait home.old.me.0, []) }
{
    give_out(share.words(), home)
}
