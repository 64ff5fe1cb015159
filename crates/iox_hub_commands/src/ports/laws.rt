//! Theorems about the calls by number: consequences of their steps. Each is the contract of a function that does nothing.
ghost use Rattle.iox_domain.specs.Homes as homes;
ghost use Rattle.iox_hub_commands.specs.Laws.{MisfitChangesNothing, AnswersWhereReady};

use iox_domain::Home;

/// A `fill` with another number of values than the loan has changes nothing, in any home.
pub fn misfit_changes_nothing<T: Copy, U: Copy, H: Home<T, U>>()
    ensures { MisfitChangesNothing (homes.ports_of H.domain_of) (homes.with_ports H.changed) }
{}

/// `loan_uninit` answers or refuses exactly if `loan` does: if the publisher's domain is in the home, it is open, and no send of it is
/// blocked. Otherwise both answer None, as `put` does.
pub fn answers_where_ready<T: Copy, U: Copy, H: Home<T, U>>()
    ensures { AnswersWhereReady (homes.ports_of H.domain_of) (homes.with_ports H.changed) }
{}
