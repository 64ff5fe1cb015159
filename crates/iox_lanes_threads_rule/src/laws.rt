//! Theorems that each step that a port may make keeps the rule of the words. They speak of the definitions that the contracts of ports
//! cite.
ghost use Rattle.iox_lanes_threads_rule.specs.Again.{LoadsGiveTheKnown};
ghost use Rattle.iox_lanes_threads_rule.specs.Slots.{LoadsLeaveLanes, StoresLeaveLanes, ExchangesLeaveLanes};
ghost use Rattle.iox_lanes_threads_rule.specs.Slots.{SlotStoresAreOfLoans, SeenWordsStand};
ghost use Rattle.iox_lanes_threads_rule.specs.Slots.{ReferencesAreCounted, PositionsAreNear};
ghost use Rattle.iox_lanes_threads_rule.specs.Steps.{LoadsKeep, StoresKeep, ExchangesKeep};

/// A load of any word keeps the rule, and its port learns what the rule says of the word.
pub fn loads_keep_the_rule()
    ensures { LoadsKeep }
{}

/// A store keeps the rule if only this port stores the word, and if it doesn't lower a position, nor put anything but the number of a slot
/// into a cell.
pub fn stores_keep_the_rule()
    ensures { StoresKeep }
{}

/// An exchange keeps the rule, whether it succeeds or fails, if it moves the read position of an overflowing ring on, and not beyond the
/// write position that its port, either end of the ring, knows.
pub fn exchanges_keep_the_rule()
    ensures { ExchangesKeep }
{}

/// If words and ports are those of some lanes, they still are after each access that a port may make and makes next, as long as no write
/// position comes to 2^64 - 1. So what `HoldTogether` says of lanes holds in threads between any two accesses: both rings of each
/// connection contain what their ends know, and each connection has what its publisher's record says. This theorem says nothing of calls
/// that ended and their answers.
pub fn accesses_leave_lanes()
    ensures loads { LoadsLeaveLanes }
    ensures stores { StoresLeaveLanes }
    ensures exchanges { ExchangesLeaveLanes }
{}

/// No access that a port makes next stores a word of a slot that is a sample in some port's view, as long as no write position comes to
/// 2^64 - 1: a publisher stores words of a loan of its own, which none of its connections has.
pub fn slot_stores_are_of_loans()
    ensures { SlotStoresAreOfLoans }
{}

/// If a subscriber holds a sample, and its view lists a word of the sample as loaded (`seen`), this word has the value that the view knows,
/// and that its publisher's view knows, as long as no write position comes to 2^64 - 1. So a load of a listed word finds the value that the
/// view knows.
pub fn seen_words_stand()
    ensures { SeenWordsStand }
{}

/// A load of a word that its port's view lists as loaded finds the value that the view knows, if no write position was 2^64 - 1 when the
/// word was loaded: `act` says what words and ports were at that moment.
pub fn loads_give_the_known()
    ensures { LoadsGiveTheKnown }
{}

/// A connection has a slot by its publisher's view exactly if the slot is there once, as long as no write position comes to 2^64 - 1: in a
/// cell of the submission ring between its positions, as a sample in the subscriber's view, or in a cell of the completion ring between its
/// positions.
pub fn references_are_counted()
    ensures { ReferencesAreCounted }
{}

/// No read position is beyond its write position, and no ring contains more than it has cells, as long as no write position comes to
/// 2^64 - 1.
pub fn positions_are_near()
    ensures { PositionsAreNear }
{}
