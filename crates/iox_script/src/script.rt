//! A hub that a script drives, one line at a time.
ghost use Rattle.std.specs.Prelude.{◌≡◌, ◌⊎◌, ◌+◌, ◌<◌, ◌≤◌, ◌^◌, ℕ, List, true, OnOk, OnErr, IfErr, IfSome, Ok, Err, ◌++◌, codes};
ghost use Rattle.std.specs.Io.{StartsWith};
ghost use Rattle.std.specs.Io.KnownBytes.{Appends};
ghost use Rattle.iox_conversation.specs.Conversation.{IsConversation};
ghost use Rattle.iox_conversation.specs.Lines.{heard_whole};
ghost use Rattle.iox_conversation.specs.declared.error.ServeError.TheVariants as failed;
ghost use Rattle.iox_hub_commands.specs.Numbers.{numbers_used};
ghost use Rattle.iox_command.specs.declared.reply.Reply.{Reply};
ghost use Rattle.iox_line.specs.LineFault.{fault_text};
ghost use Rattle.iox_line.specs.Outcome.{IsReadSoFar};
ghost use Rattle.iox_line.specs.ReplyText.{reply_text};
ghost use Rattle.iox_line.specs.declared.read.ReadLine.TheVariants as read;
ghost use Rattle.iox_script.specs.Answered.{AnswersAsNewMachine, BeginsAsNewMachine};
ghost use Rattle.iox_script.specs.Conversation.{AnswersLine, IsNewScript, BreaksOffAnew, WritesABeginningAnew};
ghost use Rattle.iox_script.specs.declared.script.Script.{Script};

use iox_command::Reply;
use iox_conversation::{AnswersLines, Input, Output, ServeError};
use iox_hub_commands::{FixedDegradation, FixedHandlers, HubConfig, NumberedHub};
use iox_hub_machine::runs::runs_answer;
use iox_line::{LineError, OtherLine, ReadLine, Scratch, print_reply, read_line};
use std::alloc::{AllocError, Global};
use std::io::{Read, Write};

/// A hub that a script drives: messages are slices of 64-bit numbers, each with a 64-bit number as user header, which is 0.
///
/// Not in `iceoryx2`.
#[derive(Drop)]
pub struct Script {
    hub: NumberedHub<u64, u64, FixedHandlers, FixedDegradation>,
    // The values of the line that is read.
    scratch: Scratch,
}

impl AnswersLines for Script {
    ghost answers = { AnswersLine };

    ghost used = { λ script. numbers_used script.hub };

    fn answer_line(
        &mut self,
        alloc: Global,
        line: &[u8],
        out: &mut Vec<u8>,
    ) -> Result<(), AllocError> {
        match read_line(line, &mut self.scratch) {
            ReadLine::OfPort(command) => {
                let answered = self.hub.step_port(alloc, command);
                print_answer(&answered, out)
            }
            ReadLine::Other(other) => self.answer_other(alloc, other, out),
            ReadLine::Fault(fault) => print_fault(fault, out),
        }
    }
}

impl Script {
    // Answers a line that begins with the verb of a command that isn't on an existing port. Such lines are seldom, and their commands
    // large.
    #[inline(never)]
    fn answer_other(
        &mut self,
        alloc: Global,
        other: OtherLine,
        out: &mut Vec<u8>,
    ) -> Result<(), AllocError>
        requires { numbers_used self.old.hub + 1 < 2 ^ 64 }
        ensures answers { (line : List ℕ) → IsReadSoFar line (read.Other other.entry) → OnOk result ((text : List ℕ)
            × (out.new.items ≡ out.old.items ++ text) × AnswersLine self.old line text self.new) }
        ensures kept { OnErr result (StartsWith out.new.items out.old.items) }
        ensures counts { numbers_used self.new.hub ≤ numbers_used self.old.hub + 1 }
    {
        match other.command(alloc)? {
            Some(command) => {
                let answered = self.hub.step(alloc, command);
                print_answer(&answered, out)
            }
            None => print_fault(LineError::Faulty, out),
        }
    }
}

// Appends the bytes of a reply, if there is one.
fn print_answer(
    answered: &Result<Reply<u64>, AllocError>,
    out: &mut Vec<u8>,
) -> Result<(), AllocError>
    ensures ok { OnOk result ((reply : Reply ℕ) × (answered.now ≡ Ok reply) × (out.new.items ≡ out.old.items ++ reply_text reply)) }
    ensures kept { OnErr result (out.new.items ≡ out.old.items) }
{
    match answered {
        Ok(reply) => print_reply(reply, out),
        Err(lacking) => Err(*lacking),
    }
}

// Appends why a line isn't a command. What was there before stays, even if memory runs out.
fn print_fault(fault: LineError, out: &mut Vec<u8>) -> Result<(), AllocError>
    ensures ok { OnOk result (out.new.items ≡ out.old.items ++ (codes "err " ++ fault_text fault)) }
    ensures kept { OnErr result (StartsWith out.new.items out.old.items) }
{
    out.extend_from_slice(b"err ")?;
    out.extend_from_slice(fault.text().as_bytes())
}

/// Answers each line of the input by one line of output, on a new hub, until a read returns no bytes.
///
/// A line that spells a command is answered by its reply, a line of more than 1,024 bytes by `err line too long`, and any other line by
/// `err faulty line`. A last line without a newline counts if it isn't empty. The lines of one read are answered before the next read, and
/// their replies are written together.
///
/// After an error, what is written is a beginning of the replies, in order, to the lines that were read whole: after `ReadFault` all of
/// them; after `WriteFault` those to all that was read before the last read, and a beginning of the others; after `OutOfMemory` those to
/// all lines before the one at which memory ran out.
///
/// What is written, whole or as a beginning after an error, is what a new machine (`docs/MACHINE.md`) may answer to the lines. The premises
/// are that the reader and the writer report truthfully how many bytes they moved, and that no two services of the names that the lines ask
/// for share a hash.
///
/// A read or write that a signal interrupts is repeated. Each such read counts as a read call, and a write that is interrupted 2^20 times
/// in sequence has failed.
pub fn serve<R: Read, W: Write>(
    alloc: Global,
    config: HubConfig,
    input: &mut Input<R>,
    output: &mut Output<W>,
) -> Result<(), ServeError>
    requires { input.old.calls + 2 ^ 20 < 2 ^ 64 }
    // The premise is that the reader says which bytes it still has.
    ensures conversation { OnOk result (IfSome (R.remaining input.old.reader) (λ bytes.
        (text : List ℕ) × (script : Script) × IsNewScript config script
        × Appends (W.contents output.old.writer) (W.contents output.new.writer) text
        × IsConversation AnswersLine script bytes text)) }
    // The same in terms of the machine, if no two services of the names that are asked for share a hash (`NewMachineMayReply`).
    ensures answered { OnOk result (IfSome (R.remaining input.old.reader) (λ bytes.
        (text : List ℕ) × Appends (W.contents output.old.writer) (W.contents output.new.writer) text
        × AnswersAsNewMachine config.expired_connection_buffer (heard_whole true bytes) text)) }
    ensures broken { IfErr result (λ error. BreaksOffAnew config error input.new.ended (R.remaining input.old.reader)
        (R.remaining input.new.reader) (W.contents output.old.writer) (W.contents output.new.writer)) }
    ensures beginning { OnErr result (WritesABeginningAnew config input.new.ended (R.remaining input.old.reader)
        (R.remaining input.new.reader) (W.contents output.old.writer) (W.contents output.new.writer)) }
    // What is written when the conversation breaks off, in terms of the machine, by the same premise.
    ensures begun { IfErr result (λ error. BeginsAsNewMachine config.expired_connection_buffer error input.new.ended
        (R.remaining input.old.reader) (R.remaining input.new.reader) (W.contents output.old.writer) (W.contents output.new.writer)) }
    ensures ended { OnOk result (input.new.ended ≡ true) }
    ensures read_fault { result ≡ Err failed.ReadFault → (input.new.failed ≡ true) ⊎ (input.new.calls ≡ input.old.calls + 2 ^ 20) }
    ensures write_fault { result ≡ Err failed.WriteFault → output.new.failed ≡ true }
{
    runs_answer::<u64, u64, FixedHandlers, FixedDegradation>();
    let hub = NumberedHub::new(alloc, config);
    let Ok(scratch) = Scratch::new(alloc) else {
        return Err(ServeError::OutOfMemory);
    };
    let script = Script { hub, scratch };
    iox_conversation::serve(alloc, script, input, output)
}
