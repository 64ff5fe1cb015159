//! A reader, with what its calls have returned so far.
ghost use Rattle.std.specs.Prelude.{◌≡◌, ◌≢◌, ◌+◌, ◌||◌, ◌<◌, ◌≤◌, ◌^◌, true, false, not, Ok, Some, take, length, IfOk, IfErr, OnErr};
ghost use Rattle.std.specs.Prelude.{IfSome, IfNone, is_err};
ghost use Rattle.std.specs.Io.KnownBytes.{Consumes, IsAtEnd, Keeps};
ghost use Rattle.std.specs.IoError.{error_kind};
ghost use Rattle.iox_conversation.specs.Input.{InputState, is_end};

use std::io;
use std::io::{ErrorKind, Read};
use std::marker::Model;

/// A reader that counts its read calls and remembers whether one failed or returned no bytes.
#[derive(Drop)]
pub struct Input<R> {
    reader: R,
    calls: u64,
    failed: bool,
    ended: bool,
}

impl<R> Model for Input<R> {
    ghost use Rattle.iox_conversation.specs.Input.{InputState};

    ghost Value = { InputState R };

    ghost view = { λ i. record { reader = i.reader; calls = i.calls; failed = i.failed; ended = i.ended } };
}

impl<R> Input<R> {
    /// A reader from which nothing was read yet.
    pub fn new(reader: R) -> Self
        ensures { result ≡ record { reader = reader; calls = 0; failed = false; ended = false } }
    {
        Input {
            reader,
            calls: 0,
            failed: false,
            ended: false,
        }
    }

    /// The reader.
    pub fn reader(&self) -> &R
        ensures { result.now ≡ self.now.reader }
    {
        &self.reader
    }

    /// How many read calls were made.
    pub fn calls(&self) -> u64
        ensures { result ≡ self.now.calls }
    {
        self.calls
    }

    /// Whether a read call failed. A call that a signal interrupted hasn't failed.
    pub fn has_failed(&self) -> bool
        ensures { result ≡ self.now.failed }
    {
        self.failed
    }

    /// Whether the last read call returned no bytes.
    pub fn has_ended(&self) -> bool
        ensures { result ≡ self.now.ended }
    {
        self.ended
    }
}

impl<R: Read> Input<R> {
    /// Makes one read call: the answer is how many bytes it returned, or `None` if a signal interrupted it. A call that was interrupted or
    /// failed took no byte from the reader.
    pub(crate) fn read(&mut self, buffer: &mut [u8]) -> io::Result<Option<usize>>
        requires { self.old.calls + 1 < 2 ^ 64 }
        ensures bound { IfOk result (λ given. IfSome given (λ count. count ≤ length buffer.new)) }
        ensures bytes { IfOk result (λ given. IfSome given
            (λ count. Consumes (R.remaining self.old.reader) (R.remaining self.new.reader) (take count buffer.new))) }
        ensures interrupted { IfOk result (λ given. IfNone given (Keeps (R.remaining self.old.reader) (R.remaining self.new.reader))) }
        ensures kept { OnErr result (Keeps (R.remaining self.old.reader) (R.remaining self.new.reader)) }
        ensures retried { IfErr result (λ error. error_kind error ≢ ErrorKind.Interrupted) }
        ensures end { result ≡ Ok (Some 0) → 0 < length buffer.old → IsAtEnd (R.remaining self.new.reader) }
        ensures calls { self.new.calls ≡ self.old.calls + 1 }
        ensures failed { self.new.failed ≡ (self.old.failed || is_err result) }
        ensures ended { self.new.ended ≡ is_end result }
    {
        self.calls += 1;
        match self.reader.read(buffer) {
            Ok(count) => {
                self.ended = count == 0;
                Ok(Some(count))
            }
            Err(error) => {
                self.ended = false;
                if error.kind() == ErrorKind::Interrupted {
                    return Ok(None);
                }
                self.failed = true;
                Err(error)
            }
        }
    }
}
