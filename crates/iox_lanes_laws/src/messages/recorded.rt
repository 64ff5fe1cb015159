//! Lanes that keep the messages that are sent on them.
ghost use Rattle.std.specs.Prelude.{◌≡◌, ◌<◌, [], ◌∷◌, Some, slice_get, option_copied, option_to_list, IfOk, OnErr, true, length};
ghost use Rattle.std.specs.Prelude.{if◌then◌else◌, ◌++◌, ◌+◌, ◌≤◌, IfErr, IfSome, OnOk, drop, get_or, map, take};
ghost use Rattle.iox_lanes_machine.specs.LanesParties.Values.{AreValues};
ghost use Rattle.iox_lanes_machine.specs.LanesBase.Numbers.{words_of};
ghost use Rattle.iox_lanes_laws.specs.Recorded.{AreAsHeld, ArePast};
ghost use Rattle.iox_lanes_laws.specs.Numbered.{found_first, found_in, found_messages, found_of, with_number};

use crate::messages::message::Message;
use crate::messages::order::Order;
use iox_lanes_machine::{LaneMachine, Positions};
use iox_lanes_parties::publisher::SlotBook;
use iox_lanes_parties::{Call, Entry, FinishedCall, Move, Party, PublisherLane, values_in};
use iox_queues_base::Words;
use iox_queues_steps::{Placed, Stepped};
use std::alloc::{AllocError, Global};
use std::marker::Model;

/// Lanes with the messages that were sent on them since they were handed in: each gets the next number when its send begins, from 0 on, or
/// after the numbers of messages that were found. Not in `iceoryx2`.
pub struct Lanes {
    alloc: Global,
    lanes: LaneMachine,
    messages: Vec<Message>,
}

/// Writes the drop out once, so that no crate above proves it anew.
impl Drop for Lanes {
    fn drop(self) {
        let Lanes {
            alloc: _,
            lanes: _,
            messages: _,
        } = self;
    }
}

impl Model for Lanes {
    ghost use Rattle.iox_lanes_laws.specs.Recorded.{RecordState};

    ghost Value = { RecordState };

    ghost view = { λ r. record { lanes = r.lanes; messages = r.messages.items } };
}

impl Lanes {
    ghost use Rattle.iox_lanes_laws.specs.Messages.{begun_messages, message_of};
    ghost use Rattle.iox_lanes_laws.specs.Recorded.{RecordsTo, RecordsRun};
    ghost use Rattle.iox_lanes_laws.specs.RecordedSteps.{AllFollow, MakesStep};
    ghost use Rattle.iox_lanes_machine.specs.Alone.{LoansStandAlone, UsedSlotsStay};
    ghost use Rattle.iox_lanes_machine.specs.Apart.{StaysApart};
    ghost use Rattle.iox_lanes_machine.specs.Calls.{CallsKeepTime};
    ghost use Rattle.iox_lanes_machine.specs.Fixed.{StaysFixed};
    ghost use Rattle.iox_lanes_machine.specs.Held.{ReadsWhole};
    ghost use Rattle.iox_lanes_machine.specs.Left.{StoresLeft};
    ghost use Rattle.iox_lanes_machine.specs.Loans.{LoansLent};
    ghost use Rattle.iox_lanes_machine.specs.Arrivals.{OrderArrives};
    ghost use Rattle.iox_lanes_machine.specs.Mailboxes.{OrderFollows, OrdersFollow, PositionsNear, positions_of};
    ghost use Rattle.iox_lanes_machine.specs.Returns.{ReturnsNear};
    ghost use Rattle.iox_lanes_machine.specs.Queues.{GivenBackInTurn};
    ghost use Rattle.iox_lanes_machine.specs.Reads.{ReadsLie};
    ghost use Rattle.iox_lanes_machine.specs.Receipts.{ReceiptsFollow};
    ghost use Rattle.iox_lanes_machine.specs.Rooms.{ReleasesFollow};
    ghost use Rattle.iox_lanes_machine.specs.Sends.{SendsFollow};
    ghost use Rattle.iox_lanes_machine.specs.Slots.{LoansApart, SlotsStay};
    ghost use Rattle.iox_lanes_machine.specs.Told.{Told};
    ghost use Rattle.iox_lanes_machine.specs.WholeReads.{CameTo};
    ghost use Rattle.iox_lanes_machine.specs.LanesParties.Parties.{is_out};
    ghost use Rattle.iox_lanes_machine.specs.LanesParties.PublisherKeeping.{loan_of};
    ghost use Rattle.iox_lanes_machine.specs.World.{fits};

    /// These lanes, which keep no message yet. Nothing is allocated.
    pub fn new(alloc: Global, lanes: LaneMachine) -> Lanes
        ensures { result ≡ record { lanes = lanes; messages = [] } }
    {
        Lanes {
            alloc,
            lanes,
            messages: Vec::new(alloc),
        }
    }

    /// Makes a step of the lanes as `LaneMachine::step` does, with what its contract ensures. If the step begins a send, the message is
    /// appended to the kept ones, as it is at that moment; later stores don't change it. Also returns `NoMemory`, with nothing changed, if
    /// there is no memory for the message. If the theorems on lanes applied (`CameTo`), they still do.
    pub fn step(&mut self, party: Party, step: &Move) -> Stepped
        ensures steps { RecordsTo self.old party step.now result self.new }
        ensures apart { StaysApart self.old.lanes party step.now result self.new.lanes }
        ensures told { Told self.old.lanes party step.now result self.new.lanes }
        ensures came { CameTo self.old.lanes → CameTo self.new.lanes }
        ensures slots { SlotsStay self.old.lanes party self.new.lanes }
        ensures fixed { StaysFixed self.old.lanes self.new.lanes }
        ensures uses { UsedSlotsStay self.old.lanes self.new.lanes }
        ensures left { StoresLeft self.old.lanes self.new.lanes }
        ensures lent { LoansLent self.old.lanes self.new.lanes }
        ensures turns { GivenBackInTurn self.old.lanes party self.new.lanes }
        ensures whole { ReadsWhole self.old.lanes self.new.lanes }
        ensures orders { OrdersFollow self.new.lanes }
        ensures receipts { ReceiptsFollow self.new.lanes }
        ensures sends { SendsFollow self.new.lanes }
        ensures calls { CallsKeepTime self.new.lanes }
        ensures loans { LoansApart self.new.lanes }
        ensures alone { LoansStandAlone self.new.lanes }
        ensures reads { ReadsLie self.new.lanes }
        ensures releases { ReleasesFollow self.new.lanes }
    {
        self.make(party, step)
    }

    /// Makes the entries one after the other, and skips those that don't fit or find no memory for what they record; these change nothing.
    /// Returns how many were made; if that is the number of entries, each was made. It ensures of the lanes what `LaneMachine::run`
    /// ensures, and if the theorems on lanes applied (`CameTo`), they still do.
    pub fn run(&mut self, schedule: &[Entry]) -> usize
        ensures runs { RecordsRun self.old schedule.now result self.new }
        ensures came { CameTo self.old.lanes → CameTo self.new.lanes }
        ensures fixed { StaysFixed self.old.lanes self.new.lanes }
        ensures orders { OrdersFollow self.new.lanes }
        ensures receipts { ReceiptsFollow self.new.lanes }
        ensures sends { SendsFollow self.new.lanes }
        ensures calls { CallsKeepTime self.new.lanes }
        ensures loans { LoansApart self.new.lanes }
        ensures alone { LoansStandAlone self.new.lanes }
        ensures reads { ReadsLie self.new.lanes }
        ensures releases { ReleasesFollow self.new.lanes }
    {
        self.follow();
        let mut made = 0;
        let mut rest = schedule;
        while let Some((entry, tail)) = rest.split_first() {
            made += self.step(entry.party, &entry.step).count();
            rest = tail;
        }
        made
    }

    // Makes a step, and ensures all that is true of it in one clause.
    fn make(&mut self, party: Party, step: &Move) -> Stepped
        ensures { MakesStep self.old party step.now result self.new }
    {
        match self.begun(party, step) {
            Ok(Some(message)) => self.send(party, step, message),
            Ok(None) => self.lanes.step(party, step),
            Err(_) => self.lack(party, step),
        }
    }

    // Makes no step, since there is no memory for the message whose send it begins.
    fn lack(&mut self, party: Party, step: &Move) -> Stepped
        requires fits { fits self.old.lanes party step.now ≡ true }
        requires begins { 0 < length (begun_messages self.old.lanes party step.now) }
        ensures { MakesStep self.old party step.now result self.new }
    {
        self.follow();
        Stepped::NoMemory
    }

    // Does nothing, as a run of no entries, and ensures what is true of all lanes.
    fn follow(&mut self)
        ensures same { self.new ≡ self.old }
        ensures follow { AllFollow self.new.lanes }
    {
        self.lanes.run(&[]);
    }

    /// These lanes, with the messages that are found on them: what each used slot contains is a message and has the next number, publisher
    /// by publisher and slot by slot. If there is no loan, these are the messages that wait, lie aside, are borrowed, are in a completion
    /// ring, or are in a history; a slot that is a loan counts as used, too. If an allocation fails, the lanes are returned as they were;
    /// there is no other error.
    pub fn with_found(alloc: Global, lanes: LaneMachine) -> Result<Lanes, LaneMachine>
        ensures made { IfOk result (λ made. made ≡ record { lanes = lanes; messages = found_messages lanes }) }
        ensures held { IfOk result (λ made. AreAsHeld made.lanes made.messages × ArePast made.lanes made.messages) }
        ensures same { IfErr result (λ same. same ≡ lanes) }
    {
        match found(alloc, &lanes) {
            Ok(messages) => Ok(Lanes {
                alloc,
                lanes,
                messages,
            }),
            Err(AllocError) => Err(lanes),
        }
    }

    // Makes a step that begins to send this message.
    fn send(&mut self, party: Party, step: &Move, message: Message) -> Stepped
        requires fits { fits self.old.lanes party step.now ≡ true }
        requires begins { begun_messages self.old.lanes party step.now ≡ message ∷ [] }
        ensures { MakesStep self.old party step.now result self.new }
    {
        if self.messages.reserve(1).is_err() {
            return self.lack(party, step);
        }
        // The beginning of a call records nothing, so this step doesn't run out of memory.
        let stepped = self.lanes.step(party, step);
        self.messages.push_reserved(message);
        stepped
    }

    // The message whose send a step begins, if the step fits and begins one. An allocation fails only if it begins one.
    fn begun(&self, party: Party, step: &Move) -> Result<Option<Message>, AllocError>
        ensures ok { IfOk result (λ begun. option_to_list begun
            ≡ (if fits self.now.lanes party step.now then begun_messages self.now.lanes party step.now else [])) }
        ensures err { OnErr result ((fits self.now.lanes party step.now ≡ true)
            × (0 < length (begun_messages self.now.lanes party step.now))) }
    {
        let Party::Publisher(place) = party else {
            return Ok(None);
        };
        let Some(lane) = self.lanes.publishers().get(place) else {
            return Ok(None);
        };
        if !lane.fits(step) {
            return Ok(None);
        }
        match step {
            Move::Begin(Call::Send { loan }) => Ok(Some(self.message_of(place, *loan, lane)?)),
            Move::Begin(_) | Move::GoOn => Ok(None),
        }
    }

    // The message that a loan becomes when its send begins.
    fn message_of(
        &self,
        place: usize,
        loan: u64,
        lane: &PublisherLane,
    ) -> Result<Message, AllocError>
        requires lane { slice_get self.now.lanes.publishers place ≡ Some lane.now }
        requires out { is_out (loan_of loan lane.now.port.book) ≡ true }
        ensures { IfOk result (λ made. made ≡ message_of self.now.lanes.table self.now.lanes.moments place loan lane.now) }
    {
        self.lanes.are_of_one_service();
        let head = lane.head(self.alloc, loan)?;
        Message::new(
            self.alloc,
            self.lanes.moments(),
            place,
            loan,
            &head,
            self.lanes.table(),
        )
    }

    /// How many messages are kept.
    pub fn len(&self) -> usize
        ensures { result ≡ length self.now.messages }
    {
        self.messages.len()
    }

    /// The message with this number; None if fewer messages were found or sent.
    pub fn message(&self, number: usize) -> Option<&Message>
        ensures { option_copied result ≡ slice_get self.now.messages number }
    {
        self.messages.get(number)
    }

    /// The puts, takes and looks of a connection, in their order. Each has the number of the message that it puts or takes, which is the
    /// last one that was sent in its slot by its moment. The number is None for a look, for a take that found nothing, for a message that
    /// isn't kept, and for an entry from before the lanes were handed in.
    ///
    /// Example: `lanes.order(0).get(3)`
    pub fn order(&self, connection: u64) -> Order<'_>
        ensures { result ≡ map (with_number self.now.messages) (get_or self.now.lanes.orders connection []) }
    {
        Order::new(&self.messages, self.lanes.order(connection))
    }

    /// The puts, takes and looks of a connection with their slots, without numbers; returns and ensures what `LaneMachine::order` does.
    pub fn placed(&self, connection: u64) -> &[Placed]
        ensures value { result.now ≡ get_or self.now.lanes.orders connection [] }
        ensures follows { OrderFollows self.now.lanes connection result.now }
        ensures arrives { OrderArrives self.now.lanes connection result.now }
    {
        self.lanes.order(connection)
    }

    /// The four positions of a connection; returns and ensures what `LaneMachine::position` does.
    pub fn position(&self, connection: u64) -> Positions
        requires { connection < length self.now.lanes.links }
        ensures value { result ≡ positions_of self.now.lanes.table connection }
        ensures near { PositionsNear self.now.lanes connection result }
        ensures back { ReturnsNear self.now.lanes result }
    {
        self.lanes.position(connection)
    }

    /// The calls that ended, in their order; returns and ensures what `LaneMachine::finished` does.
    pub fn finished(&self) -> &[FinishedCall]
        ensures value { result.now ≡ self.now.lanes.finished }
        ensures receipts { ReceiptsFollow self.now.lanes }
        ensures sends { SendsFollow self.now.lanes }
        ensures calls { CallsKeepTime self.now.lanes }
        ensures reads { ReadsLie self.now.lanes }
        ensures releases { ReleasesFollow self.now.lanes }
    {
        self.lanes.finished()
    }

    /// The user header and the value that a read returned; its words begin at `from` among all that were read. None if fewer words were
    /// read from there on.
    pub fn values<T: Words, U: Words>(&self, from: usize) -> Option<(U, T)>
        ensures some { IfSome result (AreValues T.of_parts U.of_parts T.WORDS U.WORDS
            (take (3 + U.WORDS + T.WORDS) (drop from self.now.lanes.read))) }
        ensures none { result ≡ None → from + (3 + U.WORDS + T.WORDS) ≤ length self.now.lanes.read → ⊥ }
    {
        let rest = self.lanes.words_read().get(from..)?;
        let header = rest.len().checked_sub(U::WORDS)?.checked_sub(T::WORDS)?;
        if header < 3 {
            return None;
        }
        values_in::<T, U>(rest.get(..3 + U::WORDS + T::WORDS)?)
    }

    /// The lanes without their messages, as the machine that makes the steps.
    pub fn lanes(&self) -> &LaneMachine
        ensures { result.now ≡ self.now.lanes }
    {
        &self.lanes
    }

    /// The lanes and the messages that were kept.
    pub fn into_parts(self) -> (LaneMachine, Vec<Message>)
        ensures { (result.0 ≡ self.lanes) × (result.1.items ≡ self.messages) }
    {
        let Lanes {
            alloc: _,
            lanes,
            messages,
        } = self;
        (lanes, messages)
    }

    /// These lanes with these messages. Nothing is allocated. The theorems require that the messages are as their slots contain them, and
    /// were sent or found by now.
    pub fn of_parts(alloc: Global, lanes: LaneMachine, messages: Vec<Message>) -> Lanes
        ensures { result ≡ record { lanes = lanes; messages = messages.items } }
    {
        Lanes {
            alloc,
            lanes,
            messages,
        }
    }

    /// The lanes alone; the messages are dropped.
    pub fn into_machine(self) -> LaneMachine
        ensures { result ≡ self.lanes }
    {
        let Lanes {
            alloc: _,
            lanes,
            messages: _,
        } = self;
        lanes
    }
}

// The messages that are found on lanes.
fn found(alloc: Global, lanes: &LaneMachine) -> Result<Vec<Message>, AllocError>
    ensures { IfOk result (λ messages. messages.items ≡ found_messages lanes.now) }
{
    let mut messages = Vec::new(alloc);
    for publisher in 0..lanes.publishers().len() {
        find_publisher(alloc, lanes, publisher, &mut messages)?;
    }
    Ok(messages)
}

// Appends the messages found in the slots of the publisher at this place, if there is one.
fn find_publisher(
    alloc: Global,
    lanes: &LaneMachine,
    publisher: usize,
    messages: &mut Vec<Message>,
) -> Result<(), AllocError>
    ensures { OnOk result (messages.new.items ≡ messages.old.items ++ found_of lanes.now publisher
        (slice_get lanes.now.publishers publisher)) }
{
    lanes.are_of_one_service();
    match lane_at(lanes, publisher) {
        Some(lane) => find_slots(alloc, lanes, publisher, lane, messages),
        None => Ok(()),
    }
}

// The publisher at this place, if there is one.
fn lane_at(lanes: &LaneMachine, publisher: usize) -> Option<&PublisherLane>
    ensures { option_copied result ≡ slice_get lanes.now.publishers publisher }
{
    lanes.publishers().get(publisher)
}

// Appends the messages found in all slots of this publisher.
fn find_slots(
    alloc: Global,
    lanes: &LaneMachine,
    publisher: usize,
    lane: &PublisherLane,
    messages: &mut Vec<Message>,
) -> Result<(), AllocError>
    requires slots { lane.now.port.book.first + length lane.now.port.book.loans ≤ lanes.now.table.sizes.slots }
    requires full { length lanes.now.table.words ≡ words_of lanes.now.table.sizes }
    ensures { OnOk result (messages.new.items ≡ messages.old.items
        ++ found_first lanes.now publisher lane.now (length lane.now.port.book.loans)) }
{
    // The number of each slot is less than the number of words of the table.
    let _slots = lanes.table().sizes().slots;
    let book = lane.port().book();
    for at in 0..book.slots() {
        let slot = book.first() + at as u64;
        find_slot(alloc, lanes, publisher, slot, uses_at(book, at), messages)?;
    }
    Ok(())
}

// The number of uses of a publisher's slot, by its index among the publisher's own.
fn uses_at(book: &SlotBook, at: usize) -> u64
    ensures { result ≡ get_or book.now.uses at 0 }
{
    match book.uses().get(at) {
        Some(uses) => *uses,
        None => 0,
    }
}

// Appends the message found in one slot, which has this many uses.
fn find_slot(
    alloc: Global,
    lanes: &LaneMachine,
    publisher: usize,
    slot: u64,
    uses: u64,
    messages: &mut Vec<Message>,
) -> Result<(), AllocError>
    requires slot { slot < lanes.now.table.sizes.slots }
    requires full { length lanes.now.table.words ≡ words_of lanes.now.table.sizes }
    ensures { OnOk result (messages.new.items ≡ messages.old.items ++ found_in lanes.now publisher slot uses) }
{
    if uses == 0 {
        return Ok(());
    }
    let message = Message::found(alloc, lanes.moments(), publisher, slot, lanes.table())?;
    messages.push(message)?;
    Ok(())
}
