//! A store and a load of the shared single value, one access at a time.
//!
//! The write position determines the cell that holds the value, which is the cell before it. A store fills the next cell and then moves the
//! position. A load reads the position, the cell, and the position again.
ghost use Rattle.std.specs.Prelude.{◌≡◌};
ghost use Rattle.iox_queues.specs.Single.{load_is_over, load_next, load_seen, load_take, store_is_over, store_next, store_take};

use iox_queues_steps::{Access, End, Word};

/// The stage of a store. Each stage before `Stored` is one access.
#[derive(Clone, Copy)]
pub enum Storing {
    Begun,
    SawWrite { write: u64 },
    Filled { next: u64 },
    Stored,
}

impl End for Storing {
    ghost asks = { store_next };

    ghost takes = { store_take };

    ghost over = { store_is_over };

    fn next(&self) -> Access {
        match *self {
            Storing::Begun => Access::Load(Word::Write),
            Storing::SawWrite { write } => Access::Store(Word::Cell(write), 0),
            Storing::Filled { next } => Access::Store(Word::Write, next),
            Storing::Stored => Access::Local,
        }
    }

    fn take(self, answer: u64) -> Storing {
        match self {
            Storing::Begun => Storing::SawWrite { write: answer },
            Storing::SawWrite { write } => Storing::Filled {
                next: write.saturating_add(1),
            },
            Storing::Filled { .. } | Storing::Stored => Storing::Stored,
        }
    }

    fn is_over(&self) -> bool {
        matches!(*self, Storing::Stored)
    }
}

/// The stage of a load. Each stage before `Loaded` is one access.
#[derive(Clone, Copy)]
pub enum Loading {
    Begun,
    SawWrite { write: u64 },
    SawValue { write: u64 },
    Loaded,
}

impl End for Loading {
    ghost asks = { load_next };

    ghost takes = { load_take };

    ghost over = { load_is_over };

    fn next(&self) -> Access {
        match *self {
            Loading::Begun | Loading::SawValue { .. } => Access::Load(Word::Write),
            Loading::SawWrite { write } => Access::Load(Word::Cell(write.saturating_sub(1))),
            Loading::Loaded => Access::Local,
        }
    }

    fn take(self, answer: u64) -> Loading {
        match self {
            Loading::Begun => Loading::SawWrite { write: answer },
            Loading::SawWrite { write } => Loading::SawValue { write },
            Loading::SawValue { write } => seen(answer == write, answer),
            Loading::Loaded => Loading::Loaded,
        }
    }

    fn is_over(&self) -> bool {
        matches!(*self, Loading::Loaded)
    }
}

// The stage after the second load of the position: a load whose position moved is tried again from the position found.
fn seen(unmoved: bool, found: u64) -> Loading
    ensures { result ≡ load_seen unmoved found }
{
    if unmoved {
        Loading::Loaded
    } else {
        Loading::SawWrite { write: found }
    }
}
