//! A writer, with what its calls have returned so far.
ghost use Rattle.std.specs.Prelude.{◌≡◌, ◌≢◌, ◌||◌, ◌<◌, ◌≤◌, true, false, take, length, IfOk, IfErr, OnErr, IfSome, IfNone, is_none};
ghost use Rattle.std.specs.Prelude.{is_err};
ghost use Rattle.std.specs.Io.KnownBytes.{Appends, Keeps};
ghost use Rattle.std.specs.IoError.{error_kind};
ghost use Rattle.iox_conversation.specs.Output.{OutputState};

use std::io;
use std::io::{ErrorKind, Write};
use std::marker::Model;

/// The maximum number of times that one write call is repeated because signals interrupt it.
const WRITE_CALLS: u64 = 1 << 20;

/// A writer that remembers whether a write call failed or took no bytes.
#[derive(Drop)]
pub struct Output<W> {
    writer: W,
    failed: bool,
}

impl<W> Model for Output<W> {
    ghost use Rattle.iox_conversation.specs.Output.{OutputState};

    ghost Value = { OutputState W };

    ghost view = { λ o. record { writer = o.writer; failed = o.failed } };
}

impl<W> Output<W> {
    /// A writer to which nothing was written yet.
    pub fn new(writer: W) -> Self
        ensures { result ≡ record { writer = writer; failed = false } }
    {
        Output {
            writer,
            failed: false,
        }
    }

    /// The writer.
    pub fn writer(&self) -> &W
        ensures { result.now ≡ self.now.writer }
    {
        &self.writer
    }

    /// The writer, at the end.
    pub fn into_writer(self) -> W
        ensures { result ≡ self.writer }
    {
        let Output { writer, failed: _ } = self;
        writer
    }

    /// Whether a write call failed, or took none of the bytes that it was given. A call that a signal interrupted did neither.
    pub fn has_failed(&self) -> bool
        ensures { result ≡ self.now.failed }
    {
        self.failed
    }
}

impl<W: Write> Output<W> {
    /// Makes write calls until one isn't interrupted: the answer is how many bytes it took, or `None` if it failed or took none, and then
    /// the writer is as it was. After 2^20 interruptions in sequence it has failed.
    pub(crate) fn write(&mut self, bytes: &[u8]) -> Option<usize>
        ensures bound { IfSome result (λ count. (0 < count) × (count ≤ length bytes.now)) }
        ensures taken { IfSome result (λ count. Appends (W.contents self.old.writer) (W.contents self.new.writer) (take count bytes.now)) }
        ensures kept { IfNone result (Keeps (W.contents self.old.writer) (W.contents self.new.writer)) }
        ensures failed { self.new.failed ≡ (self.old.failed || is_none result) }
    {
        for _ in 0..WRITE_CALLS {
            let Ok(took) = self.write_once(bytes) else {
                return None;
            };
            if took.is_some() {
                return took;
            }
        }
        self.failed = true;
        None
    }

    /// Makes one write call: the answer is how many bytes it took, or `None` if a signal interrupted it. A call that took none has failed.
    fn write_once(&mut self, bytes: &[u8]) -> io::Result<Option<usize>>
        ensures bound { IfOk result (λ took. IfSome took (λ count. (0 < count) × (count ≤ length bytes.now))) }
        ensures taken { IfOk result (λ took. IfSome took
            (λ count. Appends (W.contents self.old.writer) (W.contents self.new.writer) (take count bytes.now))) }
        ensures interrupted { IfOk result (λ took. IfNone took (Keeps (W.contents self.old.writer) (W.contents self.new.writer))) }
        ensures kept { OnErr result (Keeps (W.contents self.old.writer) (W.contents self.new.writer)) }
        ensures retried { IfErr result (λ error. error_kind error ≢ ErrorKind.Interrupted) }
        ensures failed { self.new.failed ≡ (self.old.failed || is_err result) }
    {
        match self.writer.write(bytes) {
            Ok(count) => {
                if count == 0 {
                    self.failed = true;
                    return Err(io::Error::from(ErrorKind::WriteZero));
                }
                Ok(Some(count))
            }
            Err(error) => {
                if error.kind() == ErrorKind::Interrupted {
                    return Ok(None);
                }
                self.failed = true;
                Err(error)
            }
        }
    }
}
