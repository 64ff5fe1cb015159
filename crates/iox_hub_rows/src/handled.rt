//! Handlers that commands name by their places: what they are asked, and how often. The cases are lists of commands.
ghost use Rattle.std.specs.Prelude.{◌≡◌, ◌<◌, ◌^◌, ⊤, true};
ghost use Rattle.iox_hub_commands.specs.Numbers.{numbers_used};

use crate::lanes;
use iox_command::{Command, Reply};
use iox_domain_values::{
    BackpressureAction, BackpressureFn, BackpressureHandler, BackpressureInfo, DegradationAction,
    DegradationCause, DegradationFn, DegradationHandler, DegradationInfo, Handlers,
};
use iox_hub::{GivenHandler, GivenHandlers, HandledCommand, run, step};
use iox_hub_commands::{HubConfig, NumberedHub};
use iox_line::{Scratch, print_reply, read_command};
use std::alloc::{AllocError, Global};
use std::cell::Cell;
use std::process::Abort;

/// A hub whose messages are numbers, and whose ports may have boxed handlers.
pub(crate) type Numbers = NumberedHub<u64, u64, Handlers, DegradationHandler>;

/// Handlers that are handed in.
pub(crate) type Given = GivenHandlers<BackpressureHandler, DegradationHandler>;

// Its list of expired connections holds one, where one sample of a publisher may be held.
const CONFIG: HubConfig = HubConfig {
    expired_connection_buffer: 0,
    id: 0,
};

// Two actions, of which the first is the first answer, and then they alternate: so answers show how often the object was asked.
#[derive(Drop)]
struct InTurn<A> {
    actions: (A, A),
    is_second: Cell<bool>,
}

impl<A: Copy> InTurn<A> {
    fn next(&self) -> A {
        let is_second = self.is_second.get();
        self.is_second.set(!is_second);
        if is_second {
            self.actions.1
        } else {
            self.actions.0
        }
    }
}

impl BackpressureFn for InTurn<BackpressureAction> {
    ghost allows = { λ _ _ _. ⊤ };

    fn call(&self, info: &BackpressureInfo) -> BackpressureAction {
        self.next()
    }
}

impl DegradationFn for InTurn<DegradationAction> {
    ghost allows = { λ _ _ _ _. ⊤ };

    fn call(&self, cause: DegradationCause, info: &DegradationInfo) -> DegradationAction {
        self.next()
    }
}

// What the object is given at each call, one after the other: the service, the sender, the receiver, how often the send was retried and for
// how long. It returns the answer in the same row. If it is given anything else, or is asked once more, its answer lets the call fail.
#[derive(Drop)]
struct Told<A: 'static> {
    rows: &'static [([u64; 5], A)],
    otherwise: A,
    calls: Cell<usize>,
}

impl<A: Copy> Told<A> {
    fn next(&self, told: [u64; 5]) -> A {
        let call = self.calls.get();
        self.calls.set(call.wrapping_add(1));
        match self.rows.get(call) {
            Some(row) if row.0 == told => row.1,
            _ => self.otherwise,
        }
    }
}

impl BackpressureFn for Told<BackpressureAction> {
    ghost allows = { λ _ _ _. ⊤ };

    fn call(&self, info: &BackpressureInfo) -> BackpressureAction {
        self.next([
            info.service_id,
            info.sender_port_id,
            info.receiver_port_id,
            info.retries,
            info.elapsed_time,
        ])
    }
}

impl DegradationFn for Told<DegradationAction> {
    ghost allows = { λ _ _ _ _. ⊤ };

    fn call(&self, cause: DegradationCause, info: &DegradationInfo) -> DegradationAction {
        self.next([
            info.service_id,
            info.sender_port_id,
            info.receiver_port_id,
            0,
            0,
        ])
    }
}

// What is given about full mailboxes, at place 7: port 4 of service 2 sends two messages to ports 1 and 2.
const TOLD_FULL: [([u64; 5], BackpressureAction); 6] = [
    ([2, 4, 1, 0, 0], BackpressureAction::Retry),
    ([2, 4, 1, 1, 5], BackpressureAction::Retry),
    ([2, 4, 1, 2, 70], BackpressureAction::DiscardData),
    ([2, 4, 2, 0, 0], BackpressureAction::Retry),
    ([2, 4, 1, 0, 0], BackpressureAction::DiscardData),
    ([2, 4, 2, 0, 0], BackpressureAction::DiscardData),
];

// What is given about a connection that failed, at place 8: of port 5 of service 2 to port 2.
const TOLD_FAILURES: [([u64; 5], DegradationAction); 4] = [
    ([2, 5, 2, 0, 0], DegradationAction::Ignore),
    ([2, 5, 2, 0, 0], DegradationAction::DegradeAndFail),
    ([2, 5, 2, 0, 0], DegradationAction::Ignore),
    ([2, 5, 2, 0, 0], DegradationAction::DegradeAndFail),
];

// What those for full mailboxes do, at places 1 to 4.
const AT_FULL: [(BackpressureAction, BackpressureAction); 4] = [
    (BackpressureAction::Retry, BackpressureAction::DiscardData),
    (
        BackpressureAction::DiscardData,
        BackpressureAction::DiscardDataAndFail,
    ),
    (
        BackpressureAction::DiscardDataAndFail,
        BackpressureAction::DiscardData,
    ),
    (
        BackpressureAction::FollowBackpressureyStrategy,
        BackpressureAction::DiscardDataAndFail,
    ),
];

// What those for connections that failed do, at places 5 and 6.
const AT_FAILURE: [(DegradationAction, DegradationAction); 2] = [
    (DegradationAction::Ignore, DegradationAction::DegradeAndFail),
    (
        DegradationAction::DegradeAndFail,
        DegradationAction::DegradeAndFail,
    ),
];

// Hands in the objects for full mailboxes.
fn hand_in_full(alloc: Global, given: &mut Given) -> Result<(), AllocError> {
    for actions in &AT_FULL {
        let actions = *actions;
        let is_second = Cell::new(false);
        let object = Box::new(alloc, InTurn { actions, is_second })?;
        given.hand_in(GivenHandler::Backpressure(BackpressureHandler::boxed(object)))?;
    }
    Ok(())
}

// Hands in the objects for connections that failed, and this many more.
fn hand_in_failures(alloc: Global, given: &mut Given, more: usize) -> Result<(), AllocError> {
    for place in 0..more.saturating_add(2) {
        let actions = AT_FAILURE[if place == 1 { 1 } else { 0 }];
        let is_second = Cell::new(false);
        let object = Box::new(alloc, InTurn { actions, is_second })?;
        given.hand_in(GivenHandler::Degradation(DegradationHandler::boxed(object)))?;
    }
    Ok(())
}

// Hands in the objects that are asked in each call.
fn hand_in_told(alloc: Global, given: &mut Given) -> Result<(), AllocError> {
    let full = Told {
        rows: &TOLD_FULL,
        otherwise: BackpressureAction::DiscardDataAndFail,
        calls: Cell::new(0),
    };
    let object = Box::new(alloc, full)?;
    given.hand_in(GivenHandler::Backpressure(BackpressureHandler::boxed(object)))?;
    let failures = Told {
        rows: &TOLD_FAILURES,
        otherwise: DegradationAction::DegradeAndFail,
        calls: Cell::new(0),
    };
    let object = Box::new(alloc, failures)?;
    given.hand_in(GivenHandler::Degradation(DegradationHandler::boxed(object)))?;
    Ok(())
}

/// A line, the place of the handler that it names for full mailboxes, the place of the one that it names for failed connections, and the
/// reply.
pub(crate) type Row = (&'static str, Option<u64>, Option<u64>, &'static str);

// The command of a line, with the places that are named.
fn named<'a>(
    command: Command<'a, u64>,
    at_full: Option<u64>,
    at_failure: Option<u64>,
) -> HandledCommand<'a, u64> {
    match command {
        Command::Publisher { factory, options } => HandledCommand::Publisher {
            factory,
            options,
            at_full,
            at_failure,
        },
        Command::Subscriber { factory, options } => match at_failure {
            Some(at_failure) => HandledCommand::Subscriber {
                factory,
                options,
                at_failure,
            },
            None => HandledCommand::Plain(Command::Subscriber { factory, options }),
        },
        other => HandledCommand::Plain(other),
    }
}

// Whether this is the reply, as a line of the script.
fn is_reply(alloc: Global, reply: &Reply<u64>, wanted: &str) -> Result<bool, AllocError> {
    let mut line = Vec::new(alloc);
    print_reply(reply, &mut line)?;
    Ok(line.as_slice() == wanted.as_bytes())
}

// Whether fewer than a thousand numbers of each kind were given out.
fn are_few(hub: &Numbers) -> bool
    ensures { result ≡ true → numbers_used hub.now < 2 ^ 32 }
{
    hub.factories.made.next_number() < 1000
        && hub.made.publishers.next_number() < 1000
        && hub.made.subscribers.next_number() < 1000
        && hub.made.loans.next_number() < 1000
        && hub.made.samples.next_number() < 1000
}

// Whether a line is replied to as stated.
fn goes(
    alloc: Global,
    hub: &mut Numbers,
    given: &mut Given,
    scratch: &mut Scratch,
    row: &Row,
) -> Result<bool, AllocError> {
    if !are_few(hub) {
        return Ok(false);
    }
    let (line, at_full, at_failure, wanted) = *row;
    let Ok(command) = read_command(alloc, line.as_bytes(), scratch)? else {
        return Ok(false);
    };
    let reply = step(hub, alloc, named(command, at_full, at_failure), given)?;
    is_reply(alloc, &reply, wanted)
}

/// Runs the lines one after the other, and aborts if a reply differs from its row.
pub(crate) fn go_on(
    rt: &impl Abort,
    alloc: Global,
    hub: &mut Numbers,
    given: &mut Given,
    scratch: &mut Scratch,
    rows: &[Row],
) -> Result<(), AllocError> {
    for (place, row) in rows.iter().enumerate() {
        assert!(rt; goes(alloc, hub, given, scratch, row)?, "row {place}");
    }
    Ok(())
}

// A loan, for whose number the publisher made room.
const LOAN: Command<'static, u64> = Command::Loan {
    publisher: 1,
    length: 1,
};

// This many loans.
fn loans(alloc: Global, len: usize) -> Result<Vec<Command<'static, u64>>, AllocError> {
    let mut commands = Vec::new(alloc);
    for _ in 0..len {
        commands.push(LOAN)?;
    }
    Ok(commands)
}

// This many nodes.
fn nodes(alloc: Global, len: usize) -> Result<Vec<HandledCommand<'static, u64>>, AllocError> {
    let mut commands = Vec::new(alloc);
    for _ in 0..len {
        commands.push(HandledCommand::Plain(Command::Node))?;
    }
    Ok(commands)
}

// Whether each of this many commands is replied to, in a run with handlers or without.
fn runs(
    alloc: Global,
    hub: &mut Numbers,
    given: &mut Given,
    len: usize,
    with_handlers: bool,
) -> Result<bool, AllocError>
    requires { numbers_used hub.old < 2 ^ 32 }
{
    let report = if with_handlers {
        run(hub, alloc, nodes(alloc, len)?, given)
    } else {
        hub.run(alloc, loans(alloc, len)?)
    };
    Ok(!report.stopped && report.replies.len() == len)
}

/// What a test does in a new hub.
#[derive(Clone, Copy)]
pub(crate) enum Course {
    /// Runs these lines, after handlers were handed in; each must have the reply of its row.
    Lines(&'static [Row]),
    /// Runs this many commands, after as many more handlers were handed in. The switch says whether the run takes handlers.
    Runs(usize, bool),
    /// Steps the domain of a service by lanes.
    Lanes,
}

// Each of this many commands must be replied to where a publisher came before, with as many more objects handed in.
fn run_on(
    rt: &impl Abort,
    alloc: Global,
    hub: &mut Numbers,
    given: &mut Given,
    len: usize,
    with_handlers: bool,
) -> Result<(), AllocError> {
    assert!(rt; are_few(hub));
    assert!(rt; runs(alloc, hub, given, len, with_handlers)?);
    Ok(())
}

// It must go well.
fn take(
    scratch: &mut Scratch,
    rt: &impl Abort,
    alloc: Global,
    hub: &mut Numbers,
    given: &mut Given,
    course: Course,
) -> Result<(), AllocError> {
    hand_in_full(alloc, given)?;
    match course {
        Course::Lines(rows) => {
            hand_in_failures(alloc, given, 0)?;
            hand_in_told(alloc, given)?;
            go_on(rt, alloc, hub, given, scratch, rows)
        }
        Course::Runs(len, with_handlers) => {
            hand_in_failures(alloc, given, len)?;
            go_on(rt, alloc, hub, given, scratch, PUBLISHER)?;
            run_on(rt, alloc, hub, given, len, with_handlers)
        }
        Course::Lanes => lanes::go_on(rt, alloc, hub, given, scratch),
    }
}

/// Does this in a new hub, and aborts if a reply is wrong.
pub(crate) fn go(rt: &impl Abort, alloc: Global, course: Course) -> Result<(), AllocError> {
    take(
        &mut Scratch::new(alloc)?,
        rt,
        alloc,
        &mut Numbers::new(alloc, CONFIG),
        &mut Given::new(alloc),
        course,
    )
}

// A full mailbox of a service without overflow is asked of the object that the publisher took, and of no action that the command names:
// once a try, and not where the mailbox has capacity. Where each connection is made, none is asked about it.
const FULL: &[Row] = &[
    ("node", None, None, "ok n1"),
    (
        "create n1 ps A overflow=0 buffer=1 publishers=5",
        None,
        None,
        "ok f1",
    ),
    ("subscriber f1", None, None, "ok s1"),
    (
        "publisher f1 strategy=discard handler=discard",
        Some(1),
        None,
        "ok p1",
    ),
    ("publisher f1 handler=fail", Some(2), None, "ok p2"),
    ("publisher f1 handler=discard", Some(3), Some(6), "ok p3"),
    (
        "publisher f1 strategy=discard handler=retry",
        Some(4),
        None,
        "ok p4",
    ),
    ("publisher f1 handler=fail", None, None, "ok p5"),
    ("update s1", None, None, "ok"),
    ("put p1 1", None, None, "ok 1"),
    ("put p2 2", None, None, "ok 1"),
    ("put p3 3", None, None, "ok 1"),
    ("put p4 4", None, None, "ok 1"),
    ("put p5 5", None, None, "ok 1"),
    ("put p1 6", None, None, "blocked"),
    ("retry p1 5", None, None, "ok 0"),
    ("put p1 7", None, None, "blocked"),
    ("receive s1", None, None, "ok m1 1"),
    ("retry p1 5", None, None, "ok 1"),
    ("put p1 8", None, None, "ok 0"),
    ("put p2 9", None, None, "ok 0"),
    ("put p2 10", None, None, "err SendError::UnableToDeliver"),
    ("put p3 11", None, None, "err SendError::UnableToDeliver"),
    ("put p3 12", None, None, "ok 0"),
    ("put p4 13", None, None, "ok 0"),
    ("put p4 14", None, None, "err SendError::UnableToDeliver"),
    ("put p5 15", None, None, "err SendError::UnableToDeliver"),
];

// A connection that fails is asked of the object that the subscriber took: once at each call that tries it, and not where it is made.
const FAILURE: &[Row] = &[
    ("node", None, None, "ok n1"),
    (
        "create n1 ps A publishers=1 borrowed=1",
        None,
        None,
        "ok f1",
    ),
    ("subscriber f1 degrade=ignore", None, Some(5), "ok s1"),
    ("publisher f1", None, Some(6), "ok p1"),
    ("put p1 7", None, None, "ok 1"),
    ("receive s1", None, None, "ok m1 7"),
    ("leave p1", None, None, "ok"),
    ("update s1", None, None, "ok"),
    ("publisher f1", None, None, "ok p2"),
    ("put p2 8", None, None, "ok 1"),
    ("receive s1", None, None, "ok m2 8"),
    ("leave p2", None, None, "ok"),
    ("update s1", None, None, "ok"),
    ("publisher f1", None, None, "ok p3"),
    ("put p3 9", None, None, "ok 1"),
    ("receive s1", None, None, "none"),
    (
        "has s1",
        None,
        None,
        "err ConnectionFailure::FailedToEstablishConnection(ExpiredConnectionBufferFull)",
    ),
    ("update s1", None, None, "ok"),
    (
        "receive s1",
        None,
        None,
        "err ReceiveError::ConnectionFailure(FailedToEstablishConnection(ExpiredConnectionBufferFull))",
    ),
    ("release m1", None, None, "ok"),
    ("receive s1", None, None, "ok m3 9"),
    ("leave p3", None, None, "ok"),
    ("publisher f1", None, None, "ok p4"),
    ("update s1", None, None, "ok"),
    (
        "update s1",
        None,
        None,
        "err ConnectionFailure::FailedToEstablishConnection(ExpiredConnectionBufferFull)",
    ),
];

// An object that is asked is given the service, the ports, and for a full mailbox how often and for how long it was retried: once in each
// call, and each time for the mailbox that is full.
const ASKED_FULL: &[Row] = &[
    ("node", None, None, "ok n1"),
    ("create n1 ps A", None, None, "ok f1"),
    ("close f1", None, None, "ok"),
    (
        "create n1 ps A overflow=0 buffer=1 publishers=3 borrowed=1",
        None,
        None,
        "ok f2",
    ),
    ("subscriber f2", None, None, "ok s1"),
    ("subscriber f2", None, None, "ok s2"),
    ("publisher f2", None, None, "ok p1"),
    ("publisher f2 handler=fail", Some(7), None, "ok p2"),
    ("update s1", None, None, "ok"),
    ("update s2", None, None, "ok"),
    ("put p2 1", None, None, "ok 2"),
    ("put p2 2", None, None, "blocked"),
    ("retry p2 5", None, None, "blocked"),
    ("retry p2 70", None, None, "blocked"),
    ("receive s2", None, None, "ok m1 1"),
    ("retry p2 9", None, None, "ok 1"),
    ("put p2 3", None, None, "ok 0"),
    ("put p2 4", None, None, "err SendError::UnableToDeliver"),
];

// The same of a connection that failed: at each call that tries it.
const ASKED_FAILURE: &[Row] = &[
    ("node", None, None, "ok n1"),
    ("create n1 ps A", None, None, "ok f1"),
    ("close f1", None, None, "ok"),
    (
        "create n1 ps A publishers=1 borrowed=1",
        None,
        None,
        "ok f2",
    ),
    ("subscriber f2", None, None, "ok s1"),
    ("leave s1", None, None, "ok"),
    ("subscriber f2 degrade=fail", None, Some(8), "ok s2"),
    ("publisher f2", None, None, "ok p1"),
    ("put p1 7", None, None, "ok 1"),
    ("receive s2", None, None, "ok m1 7"),
    ("leave p1", None, None, "ok"),
    ("update s2", None, None, "ok"),
    ("publisher f2", None, None, "ok p2"),
    ("put p2 8", None, None, "ok 1"),
    ("receive s2", None, None, "ok m2 8"),
    ("leave p2", None, None, "ok"),
    ("update s2", None, None, "ok"),
    ("publisher f2", None, None, "ok p3"),
    ("receive s2", None, None, "none"),
    (
        "has s2",
        None,
        None,
        "err ConnectionFailure::FailedToEstablishConnection(ExpiredConnectionBufferFull)",
    ),
    ("update s2", None, None, "ok"),
    (
        "receive s2",
        None,
        None,
        "err ReceiveError::ConnectionFailure(FailedToEstablishConnection(ExpiredConnectionBufferFull))",
    ),
    ("release m1", None, None, "ok"),
    ("put p3 9", None, None, "ok 1"),
    ("receive s2", None, None, "ok m3 9"),
];

#[test]
fn handlers_that_are_named_are_asked(rt: HostRuntime) -> Result<(), AllocError> {
    go(&rt, rt.alloc(), Course::Lines(FULL))?;
    go(&rt, rt.alloc(), Course::Lines(FAILURE))?;
    go(&rt, rt.alloc(), Course::Lines(ASKED_FULL))?;
    go(&rt, rt.alloc(), Course::Lines(ASKED_FAILURE))
}

// A publisher is created.
const PUBLISHER: &[Row] = &[
    ("node", None, None, "ok n1"),
    ("create n1 ps A", None, None, "ok f1"),
    ("publisher f1", None, None, "ok p1"),
];

// How many commands are run.
const LENGTHS: [usize; 6] = [0, 1, 2, 7, 64, 1000];

#[test]
fn lists_of_commands_are_run(rt: HostRuntime) -> Result<(), AllocError> {
    for len in &LENGTHS {
        go(&rt, rt.alloc(), Course::Runs(*len, true))?;
        go(&rt, rt.alloc(), Course::Runs(*len, false))?;
    }
    Ok(())
}
