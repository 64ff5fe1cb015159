//! How many ports lanes have, and their sizes.
ghost use Rattle.std.specs.Prelude.{◌≡◌, ◌<◌, ◌*◌, IfSome};
ghost use Rattle.iox_lanes_machine.specs.QueuesSteps.Ends.{cells_of};
ghost use Rattle.iox_lanes_machine.specs.Made.{table_sizes, link_at, cells_back};

use crate::link::Link;
use iox_lanes_base::calls::Route;
use iox_lanes_base::words::TableSizes;
use iox_queues_steps::rings::RingKind;
use std::alloc::Global;

/// How many ports lanes have, and their sizes. Each publisher has a connection to each subscriber.
#[derive(Clone, Copy, Debug, PartialEq, Eq)]
pub struct LaneSizes {
    /// How many publishers there are.
    pub publishers: u64,
    /// How many subscribers there are.
    pub subscribers: u64,
    /// What a connection does with another message when its maximum of messages waits.
    pub kind: RingKind,
    /// The maximum number of messages that wait at a connection. A connection may have a smaller buffer, if lanes find it before the first
    /// step.
    pub buffer: u64,
    /// The maximum number of samples that a subscriber borrows from one connection.
    pub most_borrowed: u64,
    /// The history size of a publisher: how many of its last messages it keeps.
    pub history: u64,
    /// The loan limit of a publisher. A publisher may have another one, if lanes find it before the first step.
    pub most_loans: u64,
    /// The number of slots of a publisher. A publisher may have fewer, if lanes find it before the first step.
    pub slots: u64,
    /// The number of words between the three words of the header and the payload: those of a user header, and before them the sequence
    /// number, where messages have one.
    pub user_header_words: u64,
    /// How many words a payload has.
    pub payload_words: u64,
}

impl LaneSizes {
    /// The sizes of the table of all words, if the numbers have at most 64 bits.
    pub(crate) fn table(&self) -> Option<TableSizes>
        ensures { IfSome result (λ table. table ≡ table_sizes self.now) }
    {
        let (connections, slots) = self.table_counts()?;
        let (submission_cells, completion_cells) = self.table_cells()?;
        Some(TableSizes {
            connections,
            submission_cells,
            completion_cells,
            slots,
            user_header_words: self.user_header_words,
            payload_words: self.payload_words,
        })
    }

    // How many connections and how many slots there are.
    fn table_counts(&self) -> Option<(u64, u64)>
        ensures { IfSome result (λ counts. (counts.0 ≡ self.now.publishers * self.now.subscribers)
            × (counts.1 ≡ self.now.publishers * self.now.slots)) }
    {
        let connections = self.publishers.checked_mul(self.subscribers)?;
        let slots = self.publishers.checked_mul(self.slots)?;
        Some((connections, slots))
    }

    // How many cells the two rings of a connection have.
    fn table_cells(&self) -> Option<(u64, u64)>
        ensures { IfSome result (λ cells. (cells.0 ≡ cells_of self.now.kind self.now.buffer) × (cells.1 ≡ cells_back self.now)) }
    {
        let sent = cells_of(self.kind, self.buffer)?;
        let back = self.completion_cells()?;
        Some((sent, back))
    }

    // How many cells a completion ring has.
    fn completion_cells(&self) -> Option<u64>
        ensures { IfSome result (λ cells. cells ≡ cells_back self.now) }
    {
        self.buffer.checked_add(self.most_borrowed)?.checked_add(1)
    }

    /// The link of this connection.
    pub(crate) fn link(&self, alloc: Global, connection: u64) -> Link
        requires { 0 < self.now.subscribers }
        ensures { result ≡ link_at self.now connection }
    {
        Link {
            publisher: connection / self.subscribers,
            subscriber: connection % self.subscribers,
            kind: self.kind,
            limit: self.buffer,
            found: Vec::new(alloc),
        }
    }

    /// A connection as its ports know it.
    pub(crate) fn route(&self, table: &TableSizes, connection: u64) -> Route
        ensures { result ≡ record {
          connection = connection;
          kind = self.now.kind;
          limit = self.now.buffer;
          submission_cells
              = table.now.submission_cells;
          completion_cells = table.now.completion_cells;
        } }
    {
        Route {
            connection,
            kind: self.kind,
            limit: self.buffer,
            submission_cells: table.submission_cells,
            completion_cells: table.completion_cells,
        }
    }
}

// How many cells a submission ring needs for this many messages, if that number has at most 64 bits.
fn cells_of(kind: RingKind, limit: u64) -> Option<u64>
    ensures { IfSome result (λ cells. cells ≡ cells_of kind limit) }
{
    match kind {
        RingKind::Overflowing => limit.checked_add(1),
        RingKind::Refusing => Some(if limit > 0 { limit } else { 1 }),
    }
}
