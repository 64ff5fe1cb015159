//! The state of lanes, and their steps.
ghost use Rattle.std.specs.Prelude.{[], IfOk, get_or, ◌≡◌, ◌+◌, ◌≤◌, ◌<◌, ◌++◌, Some, OnOk, OnErr, true, false, length, slice_get};
ghost use Rattle.std.specs.Prelude.{is_some, option_copied, vec_len, vec_capacity};
ghost use Rattle.std.specs.Option.{option_to_list};
ghost use Rattle.iox_lanes_machine.specs.LanesBase.Numbers.{IsWord};
ghost use Rattle.iox_lanes_machine.specs.LanesBase.Table.{held_by, shared_answer, after_shared, IsOfTable};
ghost use Rattle.iox_lanes_machine.specs.LanesBase.Publishing.{publisher_next, publisher_is_over};
ghost use Rattle.iox_lanes_machine.specs.LanesBase.Subscribing.{subscriber_next, subscriber_is_over};
ghost use Rattle.iox_lanes_machine.specs.LanesParties.Parties.{publisher_after, subscriber_after, subscriber_answer};
ghost use Rattle.iox_lanes_machine.specs.World.{StepsTo, added, acts_at, connection_at, ended, ends, party_ends, fits, goes_on, happens};
ghost use Rattle.iox_lanes_machine.specs.World.{placed, pop_acts, pops_from, push_acts, push_at, pushes_to, sender_stage};
ghost use Rattle.iox_lanes_machine.specs.World.{publisher_begins, publisher_given, publisher_ending, publisher_goes_on, publisher_stage};
ghost use Rattle.iox_lanes_machine.specs.World.{subscriber_begins, subscriber_given, subscriber_goes_on, subscriber_stage, words_ending};

use crate::link::{Link, Positions};
use crate::made;
use crate::order::Order;
use crate::placing::{Placing, late_put, position, push_on};
use crate::sizes::LaneSizes;
use iox_lanes_base::calls::{PublisherCall, SubscriberCall};
use iox_lanes_base::words::{ConnectionRing, SharedWord, TableSizes, WordTable};
use iox_lanes_parties::{
    Answer, Call, CallName, FinishedCall, Move, Party, PublisherLane, SubscriberLane,
};
use iox_queues_steps::rings::{Push, RingKind};
use iox_queues_steps::{Placed, Stepped, Word};
use std::alloc::{AllocError, Global};

#[derive(Drop)]
pub(crate) struct State {
    pub(crate) table: WordTable,
    pub(crate) links: Vec<Link>,
    pub(crate) publishers: Vec<PublisherLane>,
    pub(crate) subscribers: Vec<SubscriberLane>,
    pub(crate) orders: Vec<Order>,
    pub(crate) moments: u64,
    pub(crate) finished: Vec<FinishedCall>,
    pub(crate) read: Vec<u64>,
}

impl State {
    ghost use Rattle.iox_lanes_machine.specs.State.{world_of};
    ghost use Rattle.iox_lanes_machine.specs.Kept.{IsWithin, StandsInService};
    ghost use Rattle.iox_lanes_machine.specs.Made.{start, table_sizes};
    ghost use Rattle.iox_lanes_machine.specs.Mailboxes.{positions_of};

    /// The state in which nothing was done yet.
    pub(crate) fn new(
        alloc: Global,
        sizes: &LaneSizes,
        table: &TableSizes,
    ) -> Result<State, AllocError>
        requires { table.now ≡ table_sizes sizes.now }
        ensures { IfOk result (λ made. world_of made ≡ start sizes.now) }
    {
        let words = WordTable::new(alloc, *table)?;
        let connections = made::connections(alloc, sizes, table.connections)?;
        let parties = made::parties(alloc, sizes, &words.sizes())?;
        Ok(State::from_parts(alloc, words, connections, parties))
    }

    // The state with these parts, in which nothing was done yet.
    fn from_parts(
        alloc: Global,
        words: WordTable,
        connections: (Vec<Link>, Vec<Order>),
        parties: (Vec<PublisherLane>, Vec<SubscriberLane>),
    ) -> State
        ensures { world_of result ≡ record {
          table = words;
          links = connections.0.items;
          publishers = parties.0.items;
          subscribers = parties.1.items;
          orders = connections.1.items;
          moments = 0;
          finished = [];
          read = [];
        } }
    {
        let (links, orders) = connections;
        let (publishers, subscribers) = parties;
        State {
            table: words,
            links,
            publishers,
            subscribers,
            orders,
            moments: 0,
            finished: Vec::new(alloc),
            read: Vec::new(alloc),
        }
    }

    /// The order of a connection; empty if there is no such connection.
    pub(crate) fn order(&self, connection: u64) -> &[Placed]
        ensures { result.now ≡ get_or self.now.orders.items connection [] }
    {
        match self.orders.get(connection as usize) {
            Some(order) => order.placed(),
            None => &[],
        }
    }

    /// The positions of a connection.
    pub(crate) fn positions(&self, connection: u64) -> Positions
        requires { connection < self.now.table.sizes.connections }
        ensures { result ≡ positions_of self.now.table connection }
    {
        Positions {
            submission_write: position(&self.table, connection, Word::Write),
            submission_read: position(&self.table, connection, Word::Read),
            completion_write: self.back(connection, Word::Write),
            completion_read: self.back(connection, Word::Read),
        }
    }

    // A word of the completion ring of a connection.
    fn back(&self, connection: u64, word: Word) -> u64
        requires { IsWord self.now.table.sizes (SharedWord.Ring connection ConnectionRing.Completion word) }
        ensures { result ≡ held_by self.now.table (SharedWord.Ring connection ConnectionRing.Completion word) }
    {
        self.table.word(SharedWord::Ring {
            connection,
            ring: ConnectionRing::Completion,
            word,
        })
    }

    // The publisher at this place, if there is one.
    pub(crate) fn publisher(&self, place: usize) -> Option<&PublisherLane>
        ensures { option_copied result ≡ slice_get self.now.publishers.items place }
    {
        self.publishers.get(place)
    }

    // The subscriber at this place, if there is one.
    fn subscriber(&self, place: usize) -> Option<&SubscriberLane>
        ensures { option_copied result ≡ slice_get self.now.subscribers.items place }
    {
        self.subscribers.get(place)
    }

    fn fits(&self, party: Party, step: &Move) -> bool
        ensures { result ≡ fits (world_of self.now) party step.now }
    {
        match party {
            Party::Publisher(place) => match self.publishers.get(place) {
                Some(lane) => lane.fits(step),
                None => false,
            },
            Party::Subscriber(place) => match self.subscribers.get(place) {
                Some(lane) => lane.fits(step),
                None => false,
            },
        }
    }

    fn ends(&self, party: Party, step: &Move) -> bool
        ensures { result ≡ ends (world_of self.now) party step.now }
    {
        match step {
            Move::Begin(_) => false,
            Move::GoOn => self.party_ends(party),
        }
    }

    fn party_ends(&self, party: Party) -> bool
        ensures { result ≡ party_ends (world_of self.now) party }
    {
        match party {
            Party::Publisher(place) => match self.publishers.get(place) {
                Some(lane) => lane.stage().is_over(),
                None => false,
            },
            Party::Subscriber(place) => match self.subscribers.get(place) {
                Some(lane) => lane.stage().is_over(),
                None => false,
            },
        }
    }

    // How many words the step keeps, if it is the last one of a read.
    fn words_ending(&self, party: Party) -> usize
        ensures { result ≡ length (words_ending (world_of self.now) party) }
    {
        match party {
            Party::Publisher(_) => 0,
            Party::Subscriber(place) => match self.subscribers.get(place) {
                Some(lane) => lane.words_read().len(),
                None => 0,
            },
        }
    }

    // Reserves memory for a call that ends, and for the words that it read.
    fn reserve(&mut self, party: Party) -> Result<(), AllocError>
        ensures same { world_of self.new ≡ world_of self.old }
        ensures call { OnOk result (vec_len self.new.finished < vec_capacity self.new.finished) }
        ensures words { OnOk result (vec_len self.new.read + length (words_ending (world_of self.old) party) ≤ vec_capacity self.new.read) }
    {
        let words = self.words_ending(party);
        self.finished.reserve(1)?;
        self.read.reserve(words)
    }

    fn begin(&mut self, party: Party, call: &Call)
        requires fits { fits (world_of self.old) party (Move.Begin call.now) ≡ true }
        requires within { IsWithin (world_of self.old) }
        ensures { world_of self.new ≡ happens (world_of self.old) party (Move.Begin call.now) }
    {
        match party {
            Party::Publisher(place) => self.begin_publisher(place, call),
            Party::Subscriber(place) => self.begin_subscriber(place, call),
        }
    }

    fn begin_publisher(&mut self, place: usize, call: &Call)
        requires fits { fits (world_of self.old) (Party.Publisher place) (Move.Begin call.now) ≡ true }
        requires within { IsWithin (world_of self.old) }
        ensures { world_of self.new ≡ publisher_begins (world_of self.old) place call.now (slice_get self.old.publishers.items place) }
    {
        let Some(lane) = self.publishers.get_mut(place) else {
            return;
        };
        lane.begin(self.moments, call);
        self.moments = self.moments.saturating_add(1);
    }

    fn begin_subscriber(&mut self, place: usize, call: &Call)
        requires fits { fits (world_of self.old) (Party.Subscriber place) (Move.Begin call.now) ≡ true }
        ensures { world_of self.new ≡ subscriber_begins (world_of self.old) place call.now (slice_get self.old.subscribers.items place) }
    {
        let Some(lane) = self.subscribers.get_mut(place) else {
            return;
        };
        lane.begin(self.moments, call);
        self.moments = self.moments.saturating_add(1);
    }

    // What the next step of a party adds to an order.
    fn placing(&self, party: Party) -> Placing
        requires { IsWithin (world_of self.now) }
        ensures connection { result.connection ≡ connection_at (world_of self.now) party }
        ensures acts { option_to_list result.first ++ option_to_list result.second ≡ acts_at (world_of self.now) party }
    {
        match party {
            Party::Publisher(place) => self.publisher_placing(place),
            Party::Subscriber(place) => self.subscriber_placing(place),
        }
    }

    // What the next step of the publisher at this place adds to an order.
    fn publisher_placing(&self, place: usize) -> Placing
        requires { IsWithin (world_of self.now) }
        ensures connection { result.connection ≡ pushes_to (publisher_stage (slice_get self.now.publishers.items place)) }
        ensures acts { option_to_list result.first ++ option_to_list result.second
            ≡ push_acts self.now.table (publisher_stage (slice_get self.now.publishers.items place)) }
    {
        match self.publisher(place) {
            Some(lane) => self.pushed(lane.stage()),
            None => Placing::none(),
        }
    }

    // What the next step of the subscriber at this place adds to an order.
    fn subscriber_placing(&self, place: usize) -> Placing
        requires { IsWithin (world_of self.now) }
        ensures connection { result.connection ≡ pops_from (subscriber_stage (slice_get self.now.subscribers.items place)) }
        ensures acts { option_to_list result.first ++ option_to_list result.second
            ≡ pop_acts (world_of self.now) (subscriber_stage (slice_get self.now.subscribers.items place)) }
    {
        match self.subscriber(place) {
            Some(lane) => self.popped(lane.stage()),
            None => Placing::none(),
        }
    }

    // What the next step of a publisher at this stage adds to an order.
    fn pushed(&self, call: PublisherCall) -> Placing
        requires { StandsInService self.now.table.sizes (pushes_to call) }
        ensures connection { result.connection ≡ pushes_to call }
        ensures acts { option_to_list result.first ++ option_to_list result.second ≡ push_acts self.now.table call }
    {
        match call {
            PublisherCall::Pushing { route, push, .. } => {
                let read = position(&self.table, route.connection, Word::Read);
                Placing {
                    connection: Some(route.connection),
                    first: push.placed(route.limit, read),
                    second: None,
                }
            }
            _ => Placing::none(),
        }
    }

    // What the next step of a subscriber at this stage adds to an order.
    fn popped(&self, call: SubscriberCall) -> Placing
        requires { StandsInService self.now.table.sizes (pops_from call) }
        ensures connection { result.connection ≡ pops_from call }
        ensures acts { option_to_list result.first ++ option_to_list result.second ≡ pop_acts (world_of self.now) call }
    {
        match call {
            SubscriberCall::Receiving { route, pop, .. } => {
                let write = position(&self.table, route.connection, Word::Write);
                let read = position(&self.table, route.connection, Word::Read);
                let push = self.push_at(route.connection, route.kind);
                Placing {
                    connection: Some(route.connection),
                    first: pop.taken(write, read),
                    second: late_put(&push, read, pop.moves(read)),
                }
            }
            _ => Placing::none(),
        }
    }

    // The push that is in progress at a connection.
    fn push_at(&self, connection: u64, kind: RingKind) -> Push
        ensures { result ≡ push_at (world_of self.now) connection kind }
    {
        push_on(connection, kind, self.sender_stage(connection))
    }

    // The stage of the call of a connection's publisher.
    fn sender_stage(&self, connection: u64) -> PublisherCall
        ensures { result ≡ sender_stage (world_of self.now) (slice_get self.now.links.items connection) }
    {
        match self.links.get(connection as usize) {
            Some(link) => match self.publishers.get(link.publisher as usize) {
                Some(lane) => lane.stage(),
                None => PublisherCall::Idle,
            },
            None => PublisherCall::Idle,
        }
    }

    // Adds to an order what a step adds.
    fn place(&mut self, placing: Placing) -> Result<(), AllocError>
        ensures placed { OnOk result
            (world_of self.new ≡ record (world_of self.old) {
              orders = added self.old.orders.items placing.connection self.old.moments
                  (option_to_list placing.first ++ option_to_list placing.second);
            }) }
        ensures same { OnErr result (world_of self.new ≡ world_of self.old) }
        ensures some { OnErr result (0 < length (option_to_list placing.first ++ option_to_list placing.second)) }
        ensures finished { self.new.finished ≡ self.old.finished }
        ensures read { self.new.read ≡ self.old.read }
    {
        let Some(connection) = placing.connection else {
            return Ok(());
        };
        match self.orders.get_mut(connection as usize) {
            Some(order) => order.add(self.moments, placing.first, placing.second),
            None => Ok(()),
        }
    }

    // Adds to an order what the next step of a party adds.
    fn record(&mut self, party: Party) -> Result<(), AllocError>
        requires { IsWithin (world_of self.old) }
        ensures placed { OnOk result (world_of self.new ≡ placed (world_of self.old) party) }
        ensures same { OnErr result (world_of self.new ≡ world_of self.old) }
        ensures some { OnErr result (0 < length (acts_at (world_of self.old) party)) }
        ensures finished { self.new.finished ≡ self.old.finished }
        ensures read { self.new.read ≡ self.old.read }
    {
        let placing = self.placing(party);
        self.place(placing)
    }

    fn go_on(&mut self, party: Party)
        requires within { IsWithin (world_of self.old) }
        requires call { party_ends (world_of self.old) party ≡ true → vec_len self.old.finished < vec_capacity self.old.finished }
        requires words { vec_len self.old.read + length (words_ending (world_of self.old) party) ≤ vec_capacity self.old.read }
        ensures { world_of self.new ≡ goes_on (world_of self.old) party }
    {
        match party {
            Party::Publisher(place) => self.go_on_publisher(place),
            Party::Subscriber(place) => self.go_on_subscriber(place),
        }
    }

    fn go_on_publisher(&mut self, place: usize)
        requires within { IsWithin (world_of self.old) }
        requires call { party_ends (world_of self.old) (Party.Publisher place) ≡ true
            → vec_len self.old.finished < vec_capacity self.old.finished }
        ensures { world_of self.new ≡ publisher_goes_on (world_of self.old) place (slice_get self.old.publishers.items place) }
    {
        let Some(lane) = self.publishers.get_mut(place) else {
            return;
        };
        let answer = go_on_publisher(&mut self.table, lane);
        end_call(
            &mut self.finished,
            Party::Publisher(place),
            lane.call(),
            lane.first(),
            self.moments,
            answer,
        );
        self.moments = self.moments.saturating_add(1);
    }

    fn go_on_subscriber(&mut self, place: usize)
        requires within { IsWithin (world_of self.old) }
        requires call { party_ends (world_of self.old) (Party.Subscriber place) ≡ true
            → vec_len self.old.finished < vec_capacity self.old.finished }
        requires words { vec_len self.old.read + length (words_ending (world_of self.old) (Party.Subscriber place))
            ≤ vec_capacity self.old.read }
        ensures { world_of self.new ≡ subscriber_goes_on (world_of self.old) place (slice_get self.old.subscribers.items place) }
    {
        let Some(lane) = self.subscribers.get_mut(place) else {
            return;
        };
        let from = self.read.len();
        add_reserved(&mut self.read, lane.words_read());
        let answer = go_on_subscriber(&mut self.table, lane, from);
        end_call(
            &mut self.finished,
            Party::Subscriber(place),
            lane.call(),
            lane.first(),
            self.moments,
            answer,
        );
        self.moments = self.moments.saturating_add(1);
    }

    /// Makes one step.
    pub(crate) fn step(&mut self, party: Party, step: &Move) -> Stepped
        requires { IsWithin (world_of self.old) }
        ensures { StepsTo (world_of self.old) party step.now result (world_of self.new) }
    {
        if !self.fits(party, step) {
            return Stepped::Skipped;
        }
        match step {
            Move::Begin(call) => {
                self.begin(party, call);
                Stepped::Went
            }
            Move::GoOn => self.step_on(party),
        }
    }

    // Makes one more step inside a call.
    fn step_on(&mut self, party: Party) -> Stepped
        requires within { IsWithin (world_of self.old) }
        requires fits { fits (world_of self.old) party Move.GoOn ≡ true }
        ensures { StepsTo (world_of self.old) party Move.GoOn result (world_of self.new) }
    {
        if self.party_ends(party) {
            self.step_last(party)
        } else {
            self.step_between(party)
        }
    }

    // Makes the last step of a call.
    #[tactic(auto, using(crate::proofs::Within::placed_within))]
    fn step_last(&mut self, party: Party) -> Stepped
        requires within { IsWithin (world_of self.old) }
        requires fits { fits (world_of self.old) party Move.GoOn ≡ true }
        requires ends { party_ends (world_of self.old) party ≡ true }
        ensures { StepsTo (world_of self.old) party Move.GoOn result (world_of self.new) }
    {
        if self.reserve(party).is_err() {
            return Stepped::NoMemory;
        }
        if self.record(party).is_err() {
            return Stepped::NoMemory;
        }
        self.go_on(party);
        Stepped::Finished
    }

    // Makes a step inside a call that isn't its last one.
    #[tactic(auto, using(crate::proofs::Within::placed_within, crate::proofs::Within::no_words))]
    fn step_between(&mut self, party: Party) -> Stepped
        requires within { IsWithin (world_of self.old) }
        requires fits { fits (world_of self.old) party Move.GoOn ≡ true }
        requires ends { party_ends (world_of self.old) party ≡ false }
        ensures { StepsTo (world_of self.old) party Move.GoOn result (world_of self.new) }
    {
        if self.record(party).is_err() {
            return Stepped::NoMemory;
        }
        self.go_on(party);
        Stepped::Went
    }
}

// Makes the next access of a publisher. Returns the answer of the call if that ends it.
fn go_on_publisher(table: &mut WordTable, lane: &mut PublisherLane) -> Option<Answer>
    requires { IsOfTable table.old.sizes (publisher_next lane.old.port.call) }
    ensures table { table.new ≡ after_shared table.old (publisher_next lane.old.port.call) }
    ensures lane { lane.new ≡ publisher_after (publisher_given table.old lane.old) lane.old }
    ensures answer { result ≡ publisher_ending table.old lane.old }
    ensures ends { is_some result ≡ publisher_is_over lane.old.port.call }
{
    let given = table.apply(lane.stage().next());
    lane.go_on(given)
}

// Makes the next access of a subscriber. Returns the answer of the call if that ends it.
fn go_on_subscriber(table: &mut WordTable, lane: &mut SubscriberLane, from: usize) -> Option<Answer>
    requires { IsOfTable table.old.sizes (subscriber_next lane.old.port.call) }
    ensures table { table.new ≡ after_shared table.old (subscriber_next lane.old.port.call) }
    ensures lane { lane.new ≡ subscriber_after (subscriber_given table.old lane.old) lane.old }
    ensures answer { result ≡ subscriber_answer lane.old.port.call from }
    ensures ends { is_some result ≡ subscriber_is_over lane.old.port.call }
{
    let given = table.apply(lane.stage().next());
    lane.go_on(given, from)
}

// Records a call that ended.
fn end_call(
    finished: &mut Vec<FinishedCall>,
    party: Party,
    call: CallName,
    first: u64,
    last: u64,
    answer: Option<Answer>,
)
    requires { is_some answer ≡ true → vec_len finished.old < vec_capacity finished.old }
    ensures { finished.new.items ≡ finished.old.items ++ ended party call first last answer }
{
    if let Some(answer) = answer {
        finished.push_reserved(FinishedCall {
            party,
            call,
            answer,
            first,
            last,
        });
    }
}

// Appends words, for which memory is reserved.
fn add_reserved(list: &mut Vec<u64>, words: &[u64])
    requires { vec_len list.old + length words.now ≤ vec_capacity list.old }
    ensures { list.new.items ≡ list.old.items ++ words.now }
{
    // The memory is reserved already, so nothing is allocated here.
    let _ = list.extend_from_slice(words);
}
