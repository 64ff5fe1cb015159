//! Theorems about the services of a hub: consequences of the contracts of their calls. Each is the contract of a function that does
//! nothing.
ghost use Rattle.iox_hub_base.specs.Laws.{OpenedIsFound, BeginsAnew, GivesBack, ChangedIsPutBack};

/// A service that was opened is found under its number, with a domain of its hub and number. The services of the other numbers are as they
/// were.
pub fn opened_is_found<T, U, B, D>()
    ensures { OpenedIsFound T U B D }
{}

/// A service that opens under a number where nothing was open has a new domain: no port or message of an earlier lifetime is in it.
pub fn begins_anew<T, U, B, D>()
    ensures { BeginsAnew T U B D }
{}

/// A domain that is taken and put back as it was is accepted, and all is as it was before. While it is out, its service stays open, its
/// ports can't be borrowed, and it can't be taken again.
pub fn gives_back<T, U, B, D>()
    ensures { GivesBack T U B D }
{}

/// A domain that was taken is awaited, whatever changes in it except its id and its agreement. When it is put back it is accepted, and all
/// is as it was before, except that the domain is the changed one. A domain that was stepped by lanes keeps its id and its agreement.
pub fn changed_is_put_back<T, U, B, D>()
    ensures { ChangedIsPutBack T U B D }
{}
