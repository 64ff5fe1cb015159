//! Conversations in which a read or a write fails.
ghost use Rattle.std.specs.Prelude.{◌≤◌, length};

use iox_script::{HubConfig, Input, Output, ServeError, serve};
use std::alloc::Global;
use std::io;
use std::io::ErrorKind;

/// A reader that gives one line at a time. After this many calls, each call fails.
#[derive(Drop)]
struct LineByLine<'a> {
    rest: &'a [u8],
    good_calls: usize,
}

impl io::Read for LineByLine<'_> {
    fn read(&mut self, buffer: &mut [u8]) -> io::Result<usize> {
        if self.good_calls == 0 {
            return Err(io::Error::from(ErrorKind::ConnectionReset));
        }
        self.good_calls -= 1;
        let line = line_length(self.rest).min(buffer.len());
        buffer[..line].copy_from_slice(&self.rest[..line]);
        self.rest = &self.rest[line..];
        Ok(line)
    }
}

/// A writer that keeps what is written. After this many calls, each call fails.
#[derive(Drop)]
struct Kept {
    bytes: Vec<u8>,
    good_calls: usize,
}

impl io::Write for Kept {
    fn write(&mut self, bytes: &[u8]) -> io::Result<usize> {
        if self.good_calls == 0 {
            return Err(io::Error::from(ErrorKind::BrokenPipe));
        }
        self.good_calls -= 1;
        if self.bytes.extend_from_slice(bytes).is_err() {
            return Err(io::Error::from(ErrorKind::OutOfMemory));
        }
        Ok(bytes.len())
    }

    fn flush(&mut self) -> io::Result<()> {
        Ok(())
    }
}

/// How many bytes the first line has, with its newline.
fn line_length(bytes: &[u8]) -> usize
    ensures { result ≤ length bytes.now }
{
    let end = bytes.iter().position(|byte| *byte == b'\n');
    let line = end.unwrap_or(bytes.len()).saturating_add(1);
    line.min(bytes.len())
}

/// Whether a conversation on a new hub ends with this error and has written exactly these replies, if this many reads and this many writes
/// succeed.
fn ends_so(
    alloc: Global,
    config: HubConfig,
    script: &str,
    (reads, writes): (usize, usize),
    replies: &[u8],
    error: ServeError,
) -> bool {
    let mut input = Input::new(LineByLine {
        rest: script.as_bytes(),
        good_calls: reads,
    });
    let mut output = Output::new(Kept {
        bytes: Vec::new(alloc),
        good_calls: writes,
    });
    let ending = serve(alloc, config, &mut input, &mut output);
    ending == Err(error) && output.writer().bytes.as_slice() == replies
}

/// Runs a script once for each read that may fail (the one that would find its end, too) and once for each write, and counts the
/// runs that ended with the status of that fault and wrote exactly the replies to the lines before it.
pub fn left_by_faults(
    alloc: Global,
    config: HubConfig,
    script: &str,
    replies: &str,
) -> (usize, usize) {
    let replies = replies.as_bytes();
    let all = usize::MAX;
    let (mut reads, mut writes) = (0usize, 0usize);
    let mut written = 0usize;
    for place in 0..=script.lines().count() {
        let before = &replies[..written.min(replies.len())];
        let read = ends_so(
            alloc,
            config,
            script,
            (place, all),
            before,
            ServeError::ReadFault,
        );
        let wrote = ends_so(
            alloc,
            config,
            script,
            (all, place),
            before,
            ServeError::WriteFault,
        );
        reads = reads.saturating_add(usize::from(read));
        writes = writes.saturating_add(usize::from(wrote));
        written = written.saturating_add(line_length(&replies[before.len()..]));
    }
    (reads, writes)
}
