//! Writing all of a text.
ghost use Rattle.std.specs.Prelude.{◌≡◌, ◌||◌, ◌++◌, ℕ, List, true, not};
ghost use Rattle.std.specs.Io.KnownBytes.{Appends};

use crate::output::Output;
use std::io::Write;

/// Writes all these bytes, in as many write calls as it takes. Returns false if one failed or took none; then a beginning of the bytes is
/// written.
pub(crate) fn write_all<W: Write>(output: &mut Output<W>, bytes: &[u8]) -> bool
    ensures written { result ≡ true → Appends (W.contents output.old.writer) (W.contents output.new.writer) bytes.now }
    ensures begun { (part : List ℕ) × (rest : List ℕ) × (bytes.now ≡ part ++ rest)
        × Appends (W.contents output.old.writer) (W.contents output.new.writer) part }
    ensures failed { output.new.failed ≡ (output.old.failed || not result) }
{
    let mut start = 0;
    while start < bytes.len() {
        let Some(count) = output.write(&bytes[start..]) else {
            return false;
        };
        start += count;
    }
    true
}
