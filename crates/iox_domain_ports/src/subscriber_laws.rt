//! Theorems about the steps of a subscriber. They are the contracts of functions that do nothing.
ghost use Rattle.iox_domain_ports.specs.SubscriberLaws.{ReceivesIfGiven};

/// A subscriber receives a message exactly if some connection below the limit of borrowed messages has data.
pub fn receives_if_given<T, U>()
    ensures { ReceivesIfGiven T U }
{}
