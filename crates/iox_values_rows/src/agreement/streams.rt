//! Readers and writers that give or take little at a time, or fail.
ghost use Rattle.std.specs.Prelude.{◌+◌, ◌<◌, ◌^◌};

use crate::agreement::echo::Echo;
use crate::answers::hold;
use iox_conversation::{Input, Output, READ_CALLS, ServeError, serve};
use std::alloc::{AllocError, Global};
use std::io;
use std::io::ErrorKind;

const LINES: &[u8] = b"node
create n1 ps A

put p1 42
x
receive s1
";

/// Which calls fail: `signals` signals interrupt each call before it succeeds. After `good_calls` successful calls one call fails, in
/// a way that a number determines, and no later one does.
#[derive(Clone, Copy)]
struct Faults {
    signals: usize,
    left: usize,
    good_calls: usize,
}

impl Faults {
    /// How this call fails, if it does. A call that fails, and wasn't interrupted, must not be repeated.
    fn next(&mut self, number: usize) -> Option<ErrorKind> {
        if self.left > 0 {
            self.left -= 1;
            return Some(ErrorKind::Interrupted);
        }
        self.left = self.signals;
        if self.good_calls > 0 {
            self.good_calls -= 1;
            return None;
        }
        self.good_calls = usize::MAX;
        Some(match number % 6 {
            0 => ErrorKind::WouldBlock,
            1 => ErrorKind::TimedOut,
            2 => ErrorKind::UnexpectedEof,
            3 => ErrorKind::ConnectionReset,
            4 => ErrorKind::BrokenPipe,
            _ => ErrorKind::Other,
        })
    }
}

/// Returns its text in pieces, and `laps` times more: the first piece of one size, the others of another. The number of remaining
/// bytes determines how a call fails.
#[derive(Drop)]
struct Pieces {
    text: &'static [u8],
    rest: &'static [u8],
    laps: u64,
    first: usize,
    others: usize,
    faults: Faults,
}

impl Pieces {
    /// Begins the text again, if it is at its end and is to be repeated.
    fn begin_again(&mut self) {
        if self.rest.is_empty() && self.laps > 0 {
            self.laps -= 1;
            self.rest = self.text;
        }
    }
}

impl io::Read for Pieces {
    fn read(&mut self, buffer: &mut [u8]) -> io::Result<usize> {
        if let Some(kind) = self.faults.next(self.rest.len()) {
            return Err(io::Error::from(kind));
        }
        self.begin_again();
        let count = buffer.len().min(self.rest.len()).min(self.first);
        buffer[..count].copy_from_slice(&self.rest[..count]);
        self.rest = &self.rest[count..];
        self.first = self.others;
        Ok(count)
    }
}

/// Takes at most `most` bytes in a call, and stores them. The number of bytes taken determines how a call fails.
#[derive(Drop)]
struct Sips {
    taken: Vec<u8>,
    most: usize,
    faults: Faults,
}

impl io::Write for Sips {
    fn write(&mut self, bytes: &[u8]) -> io::Result<usize> {
        if let Some(kind) = self.faults.next(self.taken.len()) {
            return Err(io::Error::from(kind));
        }
        let count = bytes.len().min(self.most);
        if self.taken.extend_from_slice(&bytes[..count]).is_err() {
            return Err(io::Error::from(ErrorKind::OutOfMemory));
        }
        Ok(count)
    }

    fn flush(&mut self) -> io::Result<()> {
        Ok(())
    }
}

/// A conversation, and how it ends. The numbers are: the size of the first piece and of the others; how many reads succeed; how many
/// bytes a write takes, and how many writes succeed; how many signals interrupt each read, and how many each write; for how many
/// lines there is memory. Then come the result and the number of bytes of the lines that are written.
type Talk = ([usize; 8], Result<(), ServeError>, usize);

const ALL: usize = usize::MAX;

const WELL: Result<(), ServeError> = Ok(());

const READ: Result<(), ServeError> = Err(ServeError::ReadFault);

const WRITE: Result<(), ServeError> = Err(ServeError::WriteFault);

const WANT: Result<(), ServeError> = Err(ServeError::OutOfMemory);

const TALKS: [Talk; 42] = [
    // The size of pieces makes no difference.
    ([ALL, ALL, ALL, ALL, ALL, 0, 0, ALL], WELL, 44),
    ([1, 1, ALL, ALL, ALL, 0, 0, ALL], WELL, 44),
    ([1, ALL, ALL, ALL, ALL, 0, 0, ALL], WELL, 44),
    ([7, 7, ALL, ALL, ALL, 0, 0, ALL], WELL, 44),
    ([20, 1, ALL, ALL, ALL, 0, 0, ALL], WELL, 44),
    ([21, ALL, ALL, ALL, ALL, 0, 0, ALL], WELL, 44),
    ([43, 1, ALL, ALL, ALL, 0, 0, ALL], WELL, 44),
    // A read fails, also the one that would find the end.
    ([1, 1, 0, ALL, ALL, 0, 0, ALL], READ, 0),
    ([1, 1, 1, ALL, ALL, 0, 0, ALL], READ, 0),
    ([1, 1, 4, ALL, ALL, 0, 0, ALL], READ, 0),
    ([1, 1, 5, ALL, ALL, 0, 0, ALL], READ, 5),
    ([1, 1, 20, ALL, ALL, 0, 0, ALL], READ, 20),
    ([1, 1, 30, ALL, ALL, 0, 0, ALL], READ, 21),
    ([1, 1, 33, ALL, ALL, 0, 0, ALL], READ, 33),
    ([1, 1, 44, ALL, ALL, 0, 0, ALL], READ, 44),
    // A write fails.
    ([ALL, ALL, ALL, 1, 0, 0, 0, ALL], WRITE, 0),
    ([ALL, ALL, ALL, 1, 1, 0, 0, ALL], WRITE, 1),
    ([ALL, ALL, ALL, 1, 2, 0, 0, ALL], WRITE, 2),
    ([ALL, ALL, ALL, 1, 3, 0, 0, ALL], WRITE, 3),
    ([ALL, ALL, ALL, 1, 10, 0, 0, ALL], WRITE, 10),
    ([ALL, ALL, ALL, 1, 41, 0, 0, ALL], WRITE, 41),
    ([ALL, ALL, ALL, 1, 43, 0, 0, ALL], WRITE, 43),
    // A write takes one byte; one write is enough, because the answers to one read are written together; a write takes none; nothing
    // is to be written.
    ([ALL, ALL, ALL, 1, ALL, 0, 0, ALL], WELL, 44),
    ([ALL, ALL, ALL, ALL, 1, 0, 0, ALL], WELL, 44),
    ([ALL, ALL, ALL, 0, ALL, 0, 0, ALL], WRITE, 0),
    ([0, 0, ALL, 0, 0, 0, 0, ALL], WELL, 0),
    // Signals interrupt calls, which are repeated, also before a call that fails; but a write is repeated at most 2^20 times.
    ([ALL, ALL, ALL, ALL, ALL, 1, 3, ALL], WELL, 44),
    ([1, 1, ALL, 1, ALL, 7, 1, ALL], WELL, 44),
    ([21, ALL, 1, ALL, ALL, 1, 0, ALL], READ, 21),
    ([ALL, ALL, ALL, 8, 2, 0, 2, ALL], WRITE, 16),
    ([ALL, ALL, ALL, ALL, ALL, 0, 1_000, ALL], WELL, 44),
    ([ALL, ALL, ALL, ALL, ALL, 0, ALL, ALL], WRITE, 0),
    // Memory runs out for a line: the replies before it are written.
    ([ALL, ALL, ALL, ALL, ALL, 0, 0, 0], WANT, 0),
    ([1, 1, ALL, ALL, ALL, 0, 0, 0], WANT, 0),
    ([1, 1, ALL, ALL, ALL, 0, 0, 1], WANT, 5),
    ([ALL, ALL, ALL, ALL, ALL, 0, 0, 2], WANT, 20),
    ([7, 7, ALL, ALL, ALL, 0, 0, 2], WANT, 20),
    ([30, 30, ALL, ALL, ALL, 0, 0, 3], WANT, 21),
    ([2, 2, ALL, ALL, ALL, 0, 0, 4], WANT, 31),
    ([ALL, ALL, ALL, ALL, ALL, 0, 0, 4], WANT, 31),
    ([1, 1, ALL, ALL, ALL, 0, 0, 5], WANT, 33),
    ([ALL, ALL, ALL, ALL, ALL, 0, 0, 5], WANT, 33),
];

/// A text in pieces, which is repeated `laps` times after the first.
fn new_pieces(text: &'static [u8], laps: u64, sizes: [usize; 2], faults: [usize; 2]) -> Pieces {
    let [first, others] = sizes;
    let [good_calls, signals] = faults;
    Pieces {
        text,
        rest: text,
        laps,
        first,
        others,
        faults: Faults {
            signals,
            left: signals,
            good_calls,
        },
    }
}

/// How many bytes of the lines were taken; `ALL` if other bytes were taken.
fn taken_of_lines(taken: &[u8]) -> usize {
    if LINES.starts_with(taken) {
        taken.len()
    } else {
        ALL
    }
}

/// The result of a conversation, whether a read failed, whether a write failed, and how many bytes of the lines are written.
fn told(alloc: Global, numbers: &[usize; 8]) -> (Result<(), ServeError>, bool, bool, usize) {
    let [
        first,
        others,
        reads,
        most,
        good_calls,
        read_signals,
        signals,
        answered,
    ] = *numbers;
    let reader = new_pieces(LINES, 0, [first, others], [reads, read_signals]);
    let mut input = Input::new(reader);
    let mut output = Output::new(Sips {
        taken: Vec::new(alloc),
        most,
        faults: Faults {
            signals,
            left: signals,
            good_calls,
        },
    });
    let result = serve(alloc, Echo { answered }, &mut input, &mut output);
    let written = taken_of_lines(output.writer().taken.as_slice());
    (result, input.has_failed(), output.has_failed(), written)
}

/// The first conversation that ends otherwise than its row says.
fn wrong_talk(alloc: Global) -> Option<usize> {
    for (place, talk) in TALKS.iter().enumerate() {
        let result = talk.1;
        if told(alloc, &talk.0) != (result, result == READ, result == WRITE, talk.2) {
            return Some(place);
        }
    }
    None
}

/// The result of a conversation, whether a read failed, and how many bytes are written.
type Told = (Result<(), ServeError>, bool, usize);

/// The same for a reader all of whose lines are repeated.
fn told_of<R: io::Read>(alloc: Global, input: &mut Input<R>) -> Told
    requires { input.old.calls + 2 ^ 20 < 2 ^ 64 }
{
    let mut output = Output::new(Vec::new(alloc));
    let result = serve(alloc, Echo { answered: ALL }, input, &mut output);
    (result, input.has_failed(), output.writer().len())
}

/// Whether the conversation ends after the maximum number of reads, with `written` bytes written. A reader that ends there is read
/// again in a second conversation.
fn is_left(alloc: Global, reader: Pieces, written: usize, ends: bool) -> bool {
    let mut input = Input::new(reader);
    let left = told_of(alloc, &mut input);
    if input.calls() != READ_CALLS || left != (READ, false, written) {
        return false;
    }
    !ends || told_of(alloc, &mut input) == (WELL, false, 0) && input.calls() == READ_CALLS + 1
}

#[test]
fn an_endless_reader_is_left(rt: HostRuntime) {
    // One newline in each call, as many as a conversation reads; and calls that are all interrupted.
    let endless = new_pieces(b"\n", READ_CALLS - 1, [1, 1], [ALL, 0]);
    assert!(rt; is_left(rt.alloc(), endless, 1_048_576, true));
    let interrupted = new_pieces(LINES, 0, [1, 1], [ALL, ALL]);
    assert!(rt; is_left(rt.alloc(), interrupted, 0, false));
}

/// Whether `length` bytes are repeated of a text with these numbers of newlines, letters, and newlines again.
fn is_heard(
    alloc: Global,
    [before, letters, behind]: [usize; 3],
    length: usize,
) -> Result<bool, AllocError> {
    let end = before.saturating_add(letters);
    let mut bytes = vec![in alloc; b'\n'; end.saturating_add(behind)]?;
    if let Some(part) = bytes.as_mut_slice().get_mut(before..end) {
        part.fill(b'x');
    }
    Ok(told_of(alloc, &mut Input::new(bytes.as_slice())) == (WELL, false, length))
}

#[test]
fn conversations_go_as_is_told(rt: HostRuntime) {
    let alloc: Global = rt.alloc();
    let wrong = wrong_talk(alloc);
    assert!(rt; wrong == None, "{wrong:?}");
    let answers = [
        is_heard(alloc, [0, 0, 0], 0),
        is_heard(alloc, [1, 0, 0], 1),
        is_heard(alloc, [2, 0, 0], 2),
        is_heard(alloc, [7, 0, 0], 7),
        is_heard(alloc, [64, 0, 0], 64),
        is_heard(alloc, [1_000, 0, 0], 1_000),
        is_heard(alloc, [70_000, 0, 0], 70_000),
        // Of a long line, the first 1,025 bytes and a newline are repeated.
        is_heard(alloc, [0, 1, 0], 2),
        is_heard(alloc, [0, 2, 1], 3),
        is_heard(alloc, [0, 7, 0], 8),
        is_heard(alloc, [0, 64, 1], 65),
        is_heard(alloc, [0, 1_000, 0], 1_001),
        is_heard(alloc, [0, 1_024, 0], 1_025),
        is_heard(alloc, [0, 1_025, 0], 1_026),
        is_heard(alloc, [0, 70_000, 0], 1_026),
        // The second read ends a line that the first began, so the answers to it have more bytes than a read.
        is_heard(alloc, [64_536, 1_000, 65_536], 131_072),
    ];
    hold(&rt, &answers);
}
