//! Loans and samples of ports in threads, as values of their own.
ghost use Rattle.std.specs.Prelude.{◌≡◌};

use std::marker::{Model, PhantomData};

/// A slot that a publisher loaned, to be written and sent. It can't be copied, so `Publisher::send` or `Publisher::drop_loan` ends it at
/// most once. If the value is dropped without either call, the slot stays loaned until the board ends.
///
/// Ported from `iceoryx2::sample_mut_uninit::SampleMutUninit`.
pub struct Loan<T, U> {
    slot: u64,
    board: u64,
    place: usize,
    of: PhantomData<(T, U)>,
}

/// Writes the drop out once, so that no crate above proves it anew.
impl<T, U> Drop for Loan<T, U> {
    fn drop(self) {
        let Loan {
            slot: _,
            board: _,
            place: _,
            of: _,
        } = self;
    }
}

impl<T, U> Model for Loan<T, U> {
    ghost use Rattle.iox_lanes.specs.Typed.{Token};

    ghost Value = { Token };

    ghost view = { λ l. record { slot = l.slot; board = l.board; place = l.place } };
}

impl<T, U> Loan<T, U> {
    // A slot that the publisher at this place of this board loaned.
    pub(crate) fn new(slot: u64, board: u64, place: usize) -> Loan<T, U>
        ensures { result ≡ record { slot = slot; board = board; place = place } }
    {
        Loan {
            slot,
            board,
            place,
            of: PhantomData,
        }
    }

    /// Its slot, as the calls of `LanePublisher` name it.
    pub fn slot(&self) -> u64
        ensures { result ≡ self.now.slot }
    {
        self.slot
    }

    // The number of the board whose publisher loaned it.
    pub(crate) fn board(&self) -> u64
        ensures { result ≡ self.now.board }
    {
        self.board
    }

    // The place of that publisher.
    pub(crate) fn place(&self) -> usize
        ensures { result ≡ self.now.place }
    {
        self.place
    }
}

/// A message that a subscriber received. It can't be copied, so `Subscriber::release` ends it at most once. If the value is dropped
/// without this call, the message stays borrowed until the board ends.
///
/// Ported from `iceoryx2::sample::Sample`.
pub struct Sample<T, U> {
    slot: u64,
    board: u64,
    place: usize,
    of: PhantomData<(T, U)>,
}

/// Writes the drop out once, so that no crate above proves it anew.
impl<T, U> Drop for Sample<T, U> {
    fn drop(self) {
        let Sample {
            slot: _,
            board: _,
            place: _,
            of: _,
        } = self;
    }
}

impl<T, U> Model for Sample<T, U> {
    ghost use Rattle.iox_lanes.specs.Typed.{Token};

    ghost Value = { Token };

    ghost view = { λ s. record { slot = s.slot; board = s.board; place = s.place } };
}

impl<T, U> Sample<T, U> {
    // A slot that the subscriber at this place of this board took.
    pub(crate) fn new(slot: u64, board: u64, place: usize) -> Sample<T, U>
        ensures { result ≡ record { slot = slot; board = board; place = place } }
    {
        Sample {
            slot,
            board,
            place,
            of: PhantomData,
        }
    }

    /// Its slot, as the calls of `LaneSubscriber` name it.
    pub fn slot(&self) -> u64
        ensures { result ≡ self.now.slot }
    {
        self.slot
    }

    // The number of the board whose subscriber took it.
    pub(crate) fn board(&self) -> u64
        ensures { result ≡ self.now.board }
    {
        self.board
    }

    // The place of that subscriber.
    pub(crate) fn place(&self) -> usize
        ensures { result ≡ self.now.place }
    {
        self.place
    }
}
