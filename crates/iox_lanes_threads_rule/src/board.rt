//! The words that threads share, and one step on one of them.
ghost use Rattle.std.specs.Prelude.{◌≡◌, [], length, IfOk};
ghost use Rattle.atomic_table.specs.Table.{opening};
ghost use Rattle.iox_lanes_parties.specs.LanesBase.Numbers.{words_of, IsSmall};
ghost use Rattle.iox_lanes_threads_rule.specs.Acts.{single, stepped, Holds, MayAct, ToldBy};
ghost use Rattle.iox_lanes_threads_rule.specs.Lanes.{MakesNext};

use crate::view::{Port, PortParty, View};
use atomic_table::{Play, Seat, Shared, Table, TableRule};
use iox_lanes_base::words::{SharedAccess, TableSizes};
use std::alloc::{AllocError, Global};
use std::marker::{Brand, Model, PhantomData};

/// What the words start from.
pub trait Opening {
    ghost use Rattle.iox_lanes_threads_rule.specs.declared.view.View.{View};

    // the view of the first seat
    ghost first: { Self → View };
}

/// The rule of the words.
pub struct WordRule;

impl<K: Opening> TableRule<u8, View, K> for WordRule {
    ghost use Rattle.iox_lanes_threads_rule.specs.Acts.{Holds};

    ghost holds = { λ _. Holds };

    ghost first = { K.first };
}

/// The words of a service, as threads share them, with their memory. Ports make steps on them only by `act`, which counts each access. That
/// this module and `gathering` make no other steps isn't proved; it can be seen in their code.
#[derive(Drop)]
pub struct Words<K: Opening> {
    table: Table<u8, View, K, WordRule, Global>,
}

impl<K: Opening> Model for Words<K> {
    ghost use Rattle.iox_lanes_threads_rule.specs.Seats.{WordsState};

    ghost Value = { WordsState };

    ghost view = { λ w. record { table_id = w.table.shared.table_id } };
}

impl<K: Opening> Words<K> {
    /// A table that starts with these words, and a seat that has the first view. `AllocError` is returned only where an allocation fails.
    pub fn open(alloc: Global, words: &[u64], from: &K) -> Result<(Words<K>, WordSeat), AllocError>
        requires { Holds (opening words.now [] (K.first from.now)) }
        ensures { IfOk result (λ made. (made.0.table_id.words ≡ length words.now) × (made.1.table_id ≡ made.0.table_id)
            × (made.1.me ≡ (K.first from.now, []))) }
    {
        let (table, seat) = Table::of_words(alloc, words, from)?;
        Ok((Words { table }, seat))
    }

    // The shared table, for steps.
    #[inline(always)]
    pub(crate) fn shared(&self) -> &Shared<u8, View, K, WordRule>
        ensures { result.now.table_id ≡ self.now.table_id }
    {
        &self.table.shared
    }
}

/// A token with which a port steps on the words.
pub type WordSeat = Seat<u8, View>;

/// Who makes a step: the port before it, and the party after each answer.
pub trait Doing {
    ghost use Rattle.std.specs.Prelude.{ℕ};
    ghost use Rattle.iox_lanes_threads_rule.specs.declared.view.Port.{Port};
    ghost use Rattle.iox_lanes_threads_rule.specs.declared.view.PortParty.{PortParty};

    ghost port: { Port };

    ghost after: { ℕ → PortParty };
}

impl Doing for Brand {
    ghost use Rattle.iox_lanes_threads_rule.specs.Acts.{no_port, no_party};

    ghost port = { no_port };

    ghost after = { λ _. no_party };
}

/// A load.
pub struct Loads<M> {
    doing: PhantomData<M>,
}

impl<M: Doing> Play<u8, View> for Loads<M> {
    ghost use Rattle.iox_lanes_threads_rule.specs.Acts.{loaded};

    ghost then = { loaded M.port M.after };
}

/// A store.
pub struct Stores<M> {
    doing: PhantomData<M>,
}

impl<M: Doing> Play<u8, View> for Stores<M> {
    ghost use Rattle.iox_lanes_threads_rule.specs.Acts.{stored};

    ghost then = { stored M.port M.after };
}

/// An exchange.
pub struct Exchanges<M> {
    doing: PhantomData<M>,
}

impl<M: Doing> Play<u8, View> for Exchanges<M> {
    ghost use Rattle.iox_lanes_threads_rule.specs.Acts.{exchanged};

    ghost then = { exchanged M.port M.after };
}

/// Makes an access of a port, which must be allowed to make it, and make it next. Returns its answer: 0 for stores and local steps.
#[inline(always)]
pub fn act<K: Opening, M: Doing>(
    words: &Words<K>,
    seat: &mut WordSeat,
    sizes: &TableSizes,
    access: SharedAccess,
) -> u64
    requires table { (seat.old.table_id ≡ words.now.table_id) × (words.now.table_id.words ≡ words_of sizes.now) × IsSmall sizes.now }
    requires seat { (seat.old.me ≡ single M.port) × (M.port.service.sizes ≡ sizes.now) }
    requires may { MayAct M.port access }
    requires next { MakesNext M.port.party access M.after }
    ensures table { (seat.new.table_id ≡ seat.old.table_id) × (seat.new.id ≡ seat.old.id) }
    ensures port { seat.new.me ≡ single (stepped M.port access result M.after) }
    ensures told { ToldBy M.port access result }
{
    let table = words.shared();
    match access {
        SharedAccess::Load(word) => table.load::<Loads<M>>(seat, sizes.number(word) as usize),
        SharedAccess::Store(word, new) => {
            table.store::<Stores<M>>(seat, sizes.number(word) as usize, new);
            0
        }
        SharedAccess::Exchange(word, old, new) => {
            table.compare_exchange::<Exchanges<M>>(seat, sizes.number(word) as usize, old, new)
        }
        SharedAccess::Local => 0,
    }
}
