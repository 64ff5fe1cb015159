//! A storage that gives the answers of a line, and stores nothing.
use iox_describe::ServiceHash;
use iox_negotiate_base::{
    LeaveAnswer, LockAnswer, LookAnswer, MakeSegmentAnswer, OpenSegmentAnswer, PublishAnswer,
    RemoveAnswer, Storage, StoredDescription,
};
use std::alloc::{AllocError, Global};
use std::str::SplitWhitespace;

/// The number of each service that is found or locked.
const NUMBER: u64 = 1;

/// The number of a service for the answers `TakenLast` and `FoundLast`.
const LAST: u64 = u64::MAX;

// What the words of a line answer to each storage operation.
const LOCKS: [(&str, LockAnswer); 7] = [
    ("Taken", LockAnswer::Taken(NUMBER)),
    ("TakenLast", LockAnswer::Taken(LAST)),
    ("IsLocked", LockAnswer::IsLocked),
    ("Exists", LockAnswer::Exists),
    ("Denied", LockAnswer::Denied),
    ("Fault", LockAnswer::Fault),
    ("OutOfMemory", LockAnswer::OutOfMemory),
];

const MADE_SEGMENTS: [(&str, MakeSegmentAnswer); 3] = [
    ("Made", MakeSegmentAnswer::Made),
    ("Fault", MakeSegmentAnswer::Fault),
    ("OutOfMemory", MakeSegmentAnswer::OutOfMemory),
];

const PUBLISHES: [(&str, PublishAnswer); 3] = [
    ("Published", PublishAnswer::Published),
    ("Fault", PublishAnswer::Fault),
    ("OutOfMemory", PublishAnswer::OutOfMemory),
];

const OPENED_SEGMENTS: [(&str, OpenSegmentAnswer); 7] = [
    ("Registered", OpenSegmentAnswer::Registered),
    ("Absent", OpenSegmentAnswer::Absent),
    ("Marked", OpenSegmentAnswer::Marked),
    ("Full", OpenSegmentAnswer::Full),
    ("Denied", OpenSegmentAnswer::Denied),
    ("Fault", OpenSegmentAnswer::Fault),
    ("OutOfMemory", OpenSegmentAnswer::OutOfMemory),
];

const LEAVES: [(&str, LeaveAnswer); 2] = [
    ("Stays", LeaveAnswer::Stays),
    ("Emptied", LeaveAnswer::Emptied),
];

const REMOVALS: [(&str, RemoveAnswer); 2] = [
    ("Removed", RemoveAnswer::Removed),
    ("Fault", RemoveAnswer::Fault),
];

/// Gives the answers of a line, one for each storage operation. An operation fails, and is counted as amiss, if no answer is left, if the
/// answer is one of another kind of operation, or if its number isn't that of the service that was found or locked last.
#[derive(Drop)]
pub(crate) struct Answering<'a> {
    alloc: Global,
    answers: SplitWhitespace<'a>,
    // What is found where `Found` is answered, and where it is another word that begins so.
    line: &'a [u8],
    other: &'a [u8],
    number: u64,
    published: Vec<u8>,
    accesses: u64,
    amiss: u64,
}

impl<'a> Answering<'a> {
    /// A storage that gives these answers. Lookups find `line` as the service's line, and `other` as the line of another service.
    pub(crate) fn new(alloc: Global, answers: &'a str, line: &'a [u8], other: &'a [u8]) -> Self {
        Answering {
            alloc,
            answers: answers.split_whitespace(),
            line,
            other,
            number: 0,
            published: Vec::new(alloc),
            accesses: 0,
            amiss: 0,
        }
    }

    /// The bytes that were published last.
    pub(crate) fn into_published(self) -> Vec<u8> {
        self.published
    }

    /// Whether the line asks for a close after the call.
    pub(crate) fn closes(&mut self) -> bool {
        self.answers.next().unwrap_or("") == "close"
    }

    /// How many storage operations there were, and how many answers were amiss. All answers that are left over count as one.
    pub(crate) fn counts(&mut self) -> (u64, u64) {
        if self.answers.next().is_some() {
            self.count_amiss();
        }
        (self.accesses, self.amiss)
    }

    // The next answer; empty where none is left.
    fn next(&mut self) -> &'a str {
        self.accesses = self.accesses.saturating_add(1);
        self.answers.next().unwrap_or("")
    }

    fn count_amiss(&mut self) {
        self.amiss = self.amiss.saturating_add(1);
    }

    // The next answer, if it is one of these; else this fault.
    fn chosen<A: Copy>(&mut self, answers: &[(&str, A)], fault: A) -> A {
        let word = self.next();
        for (name, answer) in answers {
            if *name == word {
                return *answer;
            }
        }
        self.count_amiss();
        fault
    }

    // It is the number of the service that was found or locked last.
    fn expect(&mut self, number: u64) {
        if number != self.number {
            self.count_amiss();
        }
    }

    // These bytes are found under a number.
    fn found(&mut self, number: u64, bytes: &[u8]) -> LookAnswer {
        self.number = number;
        match bytes.to_vec(self.alloc) {
            Ok(bytes) => LookAnswer::Found {
                number,
                bytes: StoredDescription::new(bytes),
            },
            Err(AllocError) => {
                self.count_amiss();
                LookAnswer::OutOfMemory
            }
        }
    }

    // Nothing is found.
    fn not_found(&mut self, answer: &str) -> LookAnswer {
        match answer {
            "Absent" => LookAnswer::Absent,
            "Locked" => LookAnswer::Locked,
            "Denied" => LookAnswer::Denied,
            "Broken" => LookAnswer::Broken,
            "OutOfMemory" => LookAnswer::OutOfMemory,
            _ => {
                self.count_amiss();
                LookAnswer::Broken
            }
        }
    }

    // These bytes are to be published.
    fn keep(&mut self, bytes: &[u8]) {
        self.published.clear();
        if self.published.extend_from_slice(bytes).is_err() {
            self.count_amiss();
        }
    }

    fn removed(&mut self) -> RemoveAnswer {
        self.chosen(&REMOVALS, RemoveAnswer::Fault)
    }
}

impl Storage for Answering<'_> {
    ghost use Rattle.std.specs.Prelude.{⊤};

    ghost id = { λ _. 0 };

    ghost gives = { λ _ _ _. ⊤ };

    fn id(&self) -> u64 {
        0
    }

    fn look(&mut self, _hash: &ServiceHash) -> LookAnswer {
        match self.next() {
            "Found" => self.found(NUMBER, self.line),
            "FoundLast" => self.found(LAST, self.line),
            "FoundNothing" => self.found(NUMBER, &[]),
            answer if answer.starts_with("Found") => self.found(NUMBER, self.other),
            answer => self.not_found(answer),
        }
    }

    fn lock(&mut self, _hash: &ServiceHash, _node: u64) -> LockAnswer {
        let answer = self.chosen(&LOCKS, LockAnswer::Fault);
        if let LockAnswer::Taken(number) = answer {
            self.number = number;
        }
        answer
    }

    fn make_segment(
        &mut self,
        _hash: &ServiceHash,
        number: u64,
        _node: u64,
        _max_nodes: u64,
    ) -> MakeSegmentAnswer {
        self.expect(number);
        self.chosen(&MADE_SEGMENTS, MakeSegmentAnswer::Fault)
    }

    fn publish(
        &mut self,
        _hash: &ServiceHash,
        number: u64,
        bytes: StoredDescription,
    ) -> PublishAnswer {
        self.expect(number);
        self.keep(bytes.as_bytes());
        self.chosen(&PUBLISHES, PublishAnswer::Fault)
    }

    fn unlock(&mut self, _hash: &ServiceHash, number: u64) {
        self.expect(number);
        self.chosen(&[("Unlocked", ())], ());
    }

    fn open_segment(&mut self, _hash: &ServiceHash, number: u64, _node: u64) -> OpenSegmentAnswer {
        self.expect(number);
        self.chosen(&OPENED_SEGMENTS, OpenSegmentAnswer::Fault)
    }

    fn leave(&mut self, _hash: &ServiceHash, number: u64, _node: u64) -> LeaveAnswer {
        self.expect(number);
        self.chosen(&LEAVES, LeaveAnswer::Stays)
    }

    fn remove_description(&mut self, _hash: &ServiceHash, number: u64) -> RemoveAnswer {
        self.expect(number);
        self.removed()
    }

    fn remove_segment(&mut self, _hash: &ServiceHash, number: u64) -> RemoveAnswer {
        self.expect(number);
        self.removed()
    }
}
