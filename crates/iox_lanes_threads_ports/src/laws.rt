//! Theorems on ports in threads: at each stage of a call the port knows what its next step needs. They speak of the definitions that the
//! contracts of ports cite.
ghost use Rattle.iox_lanes_threads_ports.specs.Counts.{PublishersCount, SubscribersCount};
ghost use Rattle.iox_lanes_threads_ports.specs.GivenBack.{NoMoreComesBack};
ghost use Rattle.iox_lanes_threads_ports.specs.Holding.{HeldReadsStay, HeldReadsAgree, HeldReadsAreKnown};
ghost use Rattle.iox_lanes_threads_ports.specs.OneValue.{ReadsGiveOneValue};
ghost use Rattle.iox_lanes_threads_ports.specs.OtherLoans.{SparedPayloadsStay, CallsKeepHeads, CallsKeepPayloads};
ghost use Rattle.iox_lanes_threads_ports.specs.Ports.{PublishersGoOn, SubscribersGoOn};
ghost use Rattle.iox_lanes_threads_ports.specs.ReadLaw.{ReadsStand, ListedWordsStay};

/// Where a publisher's port knows what the stage of its call needs (`PublisherStands`), the publisher may make its next access, and knows
/// after the answer what its new stage needs.
pub fn publishers_go_on()
    ensures { PublishersGoOn }
{}

/// Where a subscriber's port knows what the stage of its call needs (`SubscriberStands`), the subscriber may make its next access, and
/// knows after the answer what its new stage needs.
pub fn subscribers_go_on()
    ensures { SubscribersGoOn }
{}

/// A publisher's port counts the accesses to shared words that it makes. After any steps of its calls the count has risen by exactly the
/// accesses that these steps name; `act` does the counting.
pub fn publishers_count()
    ensures { PublishersCount }
{}

/// A subscriber's port counts its accesses to shared words in the same way.
pub fn subscribers_count()
    ensures { SubscribersCount }
{}

/// After any steps of a call that begins, no more samples were taken back at a connection than its completion ring has cells, provided that
/// no write position was 2^64 - 1 when these steps loaded a word. So a loan, a write or a send that fits always answers.
pub fn no_more_comes_back()
    ensures { NoMoreComesBack }
{}

/// The words that a read returned are still the words of the sample's slot, and the publisher knows that these are its words. This holds
/// while the subscriber's view lists these words as loaded with these values, as it does directly after the read, and while no write
/// position is 2^64 - 1.
pub fn reads_stand()
    ensures { ReadsStand }
{}

/// An access keeps the words that a port's view lists as loaded, if they are words of a sample that the port holds after the access.
pub fn listed_words_stay()
    ensures { ListedWordsStay }
{}

/// A subscriber whose view lists all words of a sample still lists them after any steps of its calls, with the values that it knew,
/// provided that it holds the sample after each of these steps, and that no write position was 2^64 - 1 when it loaded a word of the
/// sample.
pub fn reads_give_one_value()
    ensures { ReadsGiveOneValue }
{}

/// Two reads of one sample return the same words, whatever receives, reads, and releases of other samples the subscriber makes between
/// them. This follows from what each call ensures, provided that no write position was 2^64 - 1 when one of these reads, the second one
/// included, loaded a word of the sample. Once ports are ended together, the publisher knows what the subscriber has read of a sample that
/// it still holds, if the ports know that no write position is 2^64 - 1.
pub fn held_reads_agree()
    ensures stay { HeldReadsStay }
    ensures agree { HeldReadsAgree }
    ensures known { HeldReadsAreKnown }
{}

/// A loan keeps its payload while its publisher works on other loans: the steps of a call store payload words of a slot only if the call
/// writes into this slot. So a loan, a send, a drop, and a write into another slot don't change what the port knows of this loan's payload.
/// They don't change the user header either that is kept for its send.
pub fn other_loans_stay()
    ensures steps { SparedPayloadsStay }
    ensures calls { CallsKeepPayloads }
    ensures headers { CallsKeepHeads }
{}
