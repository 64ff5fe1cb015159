//! Bytes in, bytes out.
ghost use Rattle.std.specs.Prelude.{◌≡◌, ◌==◌, ℕ, List, [], ◌⊎◌, ◌+◌, ◌<◌, ◌≤◌, ◌^◌, true, not, OnOk, OnErr, IfErr, IfSome, length};
ghost use Rattle.std.specs.List.{list_all};
ghost use Rattle.std.specs.Io.KnownBytes.{Appends};
ghost use Rattle.iox_conversation.specs.Conversation.{BreaksOff, IsConversation, Converses, WritesABeginning};

use crate::error::ServeError;
use crate::input::Input;
use crate::machine::AnswersLines;
use crate::output::Output;
use crate::session::Session;
use crate::write_all::write_all;
use std::alloc::Global;
use std::io::{Read, Write};

/// The maximum number of read calls of a conversation.
pub const READ_CALLS: u64 = 1 << 20;

/// How many bytes one read call asks for.
const PIECE: usize = 65536;

/// Answers each line of the input by one line of output, until a read returns no bytes.
///
/// Only the first 1,025 bytes of a longer line are heard. A last line without a newline counts if it isn't empty. The lines of one read are
/// answered before the next read, and their replies are written together.
///
/// After an error, what is written is a beginning of the replies, in order, to the lines that were read whole: after `ReadFault` all of
/// them; after `WriteFault` those to all that was read before the last read, and a beginning of the replies to the last read; after
/// `OutOfMemory` those to all lines before the one at which memory ran out.
///
/// A read or write that a signal interrupts is repeated. Each such read counts as a read call, and a write that is interrupted 2^20 times
/// in sequence has failed.
pub fn serve<M: AnswersLines, R: Read, W: Write>(
    alloc: Global,
    machine: M,
    input: &mut Input<R>,
    output: &mut Output<W>,
) -> Result<(), ServeError>
    requires calls { input.old.calls + 2 ^ 20 < 2 ^ 64 }
    requires used { M.used machine + 2 ^ 36 < 2 ^ 64 }
    // The premise is that the reader says which bytes it still has.
    ensures conversation { OnOk result (IfSome (R.remaining input.old.reader) (λ bytes.
        (text : List ℕ) × Appends (W.contents output.old.writer) (W.contents output.new.writer) text
        × IsConversation M.answers machine bytes text)) }
    // At most as many bytes are read as the maximum number of read calls returns.
    ensures few { OnOk result (IfSome (R.remaining input.old.reader) (λ bytes. length bytes ≤ 2 ^ 36)) }
    ensures broken { IfErr result (λ error. BreaksOff M.answers M.used error input.new.ended (record { machine = machine; line = [] })
        (R.remaining input.old.reader) (R.remaining input.new.reader) (W.contents output.old.writer) (W.contents output.new.writer)) }
    ensures beginning { OnErr result (WritesABeginning M.answers input.new.ended machine
        (R.remaining input.old.reader) (R.remaining input.new.reader) (W.contents output.old.writer) (W.contents output.new.writer)) }
    ensures ended { OnOk result (input.new.ended ≡ true) }
    ensures read_fault { result ≡ Err ServeError.ReadFault → (input.new.failed ≡ true) ⊎ (input.new.calls ≡ input.old.calls + 2 ^ 20) }
    ensures write_fault { result ≡ Err ServeError.WriteFault → output.new.failed ≡ true }
{
    let Ok(mut session) = Session::new(alloc, machine) else {
        return Err(ServeError::OutOfMemory);
    };
    let Ok(mut piece) = vec![in alloc; 0u8; PIECE] else {
        return Err(ServeError::OutOfMemory);
    };
    let mut out = Vec::new(alloc);
    converse(alloc, &mut session, &mut piece, &mut out, input, output)
}

fn converse<M: AnswersLines, R: Read, W: Write>(
    alloc: Global,
    session: &mut Session<M>,
    piece: &mut [u8],
    out: &mut Vec<u8>,
    input: &mut Input<R>,
    output: &mut Output<W>,
) -> Result<(), ServeError>
    requires empty { out.old.items ≡ [] }
    requires piece { length piece.old ≡ PIECE }
    requires fresh { M.used session.old.machine + 2 ^ 36 < 2 ^ 64 }
    requires whole { list_all (λ b. not (b == 10)) session.old.line ≡ true }
    requires calls { input.old.calls + 2 ^ 20 < 2 ^ 64 }
    ensures conversation { OnOk result (Converses M.answers M.used session.old (R.remaining input.old.reader) (R.remaining input.new.reader)
        (W.contents output.old.writer) (W.contents output.new.writer)) }
    ensures broken { IfErr result (λ error. BreaksOff M.answers M.used error input.new.ended session.old (R.remaining input.old.reader)
        (R.remaining input.new.reader)
        (W.contents output.old.writer) (W.contents output.new.writer)) }
    ensures ended { OnOk result (input.new.ended ≡ true) }
    ensures read_fault { result ≡ Err ServeError.ReadFault → (input.new.failed ≡ true) ⊎ (input.new.calls ≡ input.old.calls + 2 ^ 20) }
    ensures write_fault { result ≡ Err ServeError.WriteFault → output.new.failed ≡ true }
{
    for turn in 0..READ_CALLS {
        let Ok(given) = input.read(piece) else {
            return Err(ServeError::ReadFault);
        };
        let Some(count) = given else {
            continue;
        };
        if count == 0 {
            let Ok(()) = session.finish(alloc, out) else {
                return Err(ServeError::OutOfMemory);
            };
            if !write_all(output, out) {
                return Err(ServeError::WriteFault);
            }
            return Ok(());
        }
        let answered = session.take_bytes(alloc, &piece[..count], out);
        if !write_all(output, out) {
            return Err(ServeError::WriteFault);
        }
        if answered.is_err() {
            return Err(ServeError::OutOfMemory);
        }
        out.clear();
    }
    Err(ServeError::ReadFault)
}
