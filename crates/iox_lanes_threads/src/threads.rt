//! All ports of a service in threads.
ghost use Rattle.std.specs.Prelude.{◌≡◌, ◌==◌};

use crate::publisher::LanePublisher;
use crate::subscriber::LaneSubscriber;
use crate::table::Share;
use iox_lanes_parties::{PublisherLane, SubscriberLane};
use iox_lanes_threads_rule::WordSeat;
use std::marker::Model;

/// The control block that whoever opened the threads keeps: the words that the ports of a service share, and the number by which it knows
/// its ports.
#[derive(Drop)]
pub struct Board {
    pub(crate) number: u64,
    pub(crate) publishers: usize,
    pub(crate) subscribers: usize,
    pub(crate) words: Share,
    // The seat at which all ports waited, and in which they are gathered when they end together.
    pub(crate) home: WordSeat,
    // Memory for the lanes of the ports when they end.
    pub(crate) publisher_room: Vec<PublisherLane>,
    pub(crate) subscriber_room: Vec<SubscriberLane>,
}

impl Model for Board {
    ghost use Rattle.std.specs.Prelude.{◌≡◌, ◌<◌, ◌≤◌, [], vec_capacity};
    ghost use Rattle.iox_lanes_threads.specs.Ports.{BoardState};

    ghost Value = { BoardState };

    ghost view = { λ b. record { number = b.number; table = b.words; publishers = b.publishers; subscribers = b.subscribers } };

    ghost invariant = { λ b. (b.publisher_room.items ≡ []) × (b.publishers ≤ vec_capacity b.publisher_room)
        × (b.subscriber_room.items ≡ []) × (b.subscribers ≤ vec_capacity b.subscriber_room) × (b.home.table_id ≡ b.words)
        × (0 < b.words.words) × (b.home.me.0.ports ≡ []) };
}

/// A port of a board.
pub trait OnBoard {
    ghost use Rattle.std.specs.Prelude.{ℕ};

    // the number of the port's board
    ghost board_of: { Self → ℕ };

    /// The number of the port's board.
    fn board(&self) -> u64
        ensures { result ≡ Self.board_of self.now };
}

impl Board {
    /// Whether the port belongs to this board, that is, whether both were opened with the same number.
    pub fn knows<P: OnBoard>(&self, port: &P) -> bool
        ensures { result ≡ (P.board_of port.now == self.now.number) }
    {
        port.board() == self.number
    }
}

/// All ports of a service in threads, each with its share of the words.
#[derive(Drop)]
pub struct LaneThreads {
    /// The board of these ports.
    pub board: Board,
    /// The publishers, by place.
    pub publishers: Vec<LanePublisher>,
    /// The subscribers, by place.
    pub subscribers: Vec<LaneSubscriber>,
}
