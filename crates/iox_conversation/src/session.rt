//! A conversation in progress: the machine that answers, and what was heard of the line that isn't whole yet.
ghost use Rattle.std.specs.Prelude.{◌≡◌, ◌==◌, ℕ, List, ◌+◌, ◌++◌, ◌∷◌, [], ◌<◌, ◌≤◌, ◌^◌, true, not, length, take, OnOk, OnErr, IfOk};
ghost use Rattle.std.specs.Io.{StartsWith};
ghost use Rattle.std.specs.List.{list_all};
ghost use Rattle.iox_conversation.specs.Conversation.{Advances, Ends, StopsShort};

use crate::machine::AnswersLines;
use memchr::memchr;
use std::alloc::{AllocError, Global};
use std::marker::Model;

/// The maximum number of bytes of a line, without its newline.
const LINE_LIMIT: usize = 1024;

/// The machine that answers, and the bytes of the current line. Of a line that is too long, only enough
/// bytes are kept to show that.
#[derive(Drop)]
pub(crate) struct Session<M> {
    machine: M,
    line: Vec<u8>,
}

impl<M> Model for Session<M> {
    ghost use Rattle.std.specs.Prelude.{◌≡◌, ◌==◌, ◌≤◌, true, not, vec_len, vec_capacity};
    ghost use Rattle.std.specs.List.{list_all};
    ghost use Rattle.iox_conversation.specs.Conversation.{SessionState};

    ghost Value = { SessionState M };

    ghost view = { λ s. record { machine = s.machine; line = s.line.items } };

    ghost invariant = { λ s. (list_all (λ b. not (b == 10)) s.line.items ≡ true) × (vec_len s.line ≤ 1025)
        × (1025 ≤ vec_capacity s.line) };
}

impl<M: AnswersLines> Session<M> {
    /// A session that has heard nothing yet.
    pub fn new(alloc: Global, machine: M) -> Result<Self, AllocError>
        ensures { IfOk result (λ session. session ≡ record { machine = machine; line = [] }) }
    {
        Ok(Session {
            machine,
            line: Vec::with_capacity(alloc, LINE_LIMIT + 1)?,
        })
    }

    /// Hears more of the current line. After its first 1,025 bytes nothing is kept.
    fn hear(&mut self, part: &[u8])
        requires { list_all (λ b. not (b == 10)) part.now ≡ true }
        ensures line { self.new.line ≡ take 1025 (self.old.line ++ part.now) }
        ensures machine { self.new.machine ≡ self.old.machine }
        ensures whole { list_all (λ b. not (b == 10)) self.new.line ≡ true }
    {
        let room = LINE_LIMIT + 1 - self.line.len();
        let kept = &part[..part.len().min(room)];
        let Ok(()) = self.line.extend_from_slice(kept) else {
            unreachable!();
        };
    }

    /// Ends the current line with these bytes, and appends its reply line, or nothing if memory runs out for it. A line that is whole in
    /// these bytes isn't copied.
    fn end_line(&mut self, alloc: Global, part: &[u8], out: &mut Vec<u8>) -> Result<(), AllocError>
        requires unbroken { list_all (λ b. not (b == 10)) part.now ≡ true }
        requires used { M.used self.old.machine + 1 < 2 ^ 64 }
        ensures whole { list_all (λ b. not (b == 10)) self.new.line ≡ true }
        ensures answers { OnOk result ((text : List ℕ) × (out.new.items ≡ out.old.items ++ text)
            × Advances M.answers M.used self.old (part.now ++ 10 ∷ []) text self.new) }
        ensures kept { OnErr result (out.new.items ≡ out.old.items) }
    {
        if !self.line.is_empty() {
            self.hear(part);
            answer(alloc, &mut self.machine, &self.line, out)?;
            self.line.clear();
            return Ok(());
        }
        let heard = &part[..part.len().min(LINE_LIMIT + 1)];
        answer(alloc, &mut self.machine, heard, out)?;
        Ok(())
    }

    /// Takes the bytes of one read, and appends the reply line of each line that they end, up to the first at which memory runs out.
    pub fn take_bytes(
        &mut self,
        alloc: Global,
        bytes: &[u8],
        out: &mut Vec<u8>,
    ) -> Result<(), AllocError>
        requires { M.used self.old.machine + length bytes.now < 2 ^ 64 }
        ensures whole { list_all (λ b. not (b == 10)) self.new.line ≡ true }
        ensures answers { OnOk result ((text : List ℕ) × (out.new.items ≡ out.old.items ++ text)
            × Advances M.answers M.used self.old bytes.now text self.new) }
        ensures kept { OnErr result ((text : List ℕ) × (out.new.items ≡ out.old.items ++ text)
            × StopsShort M.answers M.used self.old bytes.now text) }
    {
        let _ = &self.line;
        let mut rest = bytes;
        while let Some(end) = memchr(b'\n', rest) {
            self.end_line(alloc, &rest[..end], out)?;
            rest = &rest[end + 1..];
        }
        self.hear(rest);
        Ok(())
    }

    /// Ends the input: a last line without a newline is answered if it isn't empty. Nothing is appended if memory runs out.
    pub fn finish(&mut self, alloc: Global, out: &mut Vec<u8>) -> Result<(), AllocError>
        requires { M.used self.old.machine + 1 < 2 ^ 64 }
        ensures answers { OnOk result ((text : List ℕ) × (out.new.items ≡ out.old.items ++ text) × Ends M.answers self.old [] text) }
        ensures kept { OnErr result ((out.new.items ≡ out.old.items) × (0 < length self.old.line)) }
    {
        if self.line.is_empty() {
            return Ok(());
        }
        answer(alloc, &mut self.machine, &self.line, out)?;
        Ok(())
    }
}

/// Answers one line, and appends the answer and a newline, or nothing if memory runs out for it.
fn answer<M: AnswersLines>(
    alloc: Global,
    machine: &mut M,
    line: &[u8],
    out: &mut Vec<u8>,
) -> Result<(), AllocError>
    requires { M.used machine.old + 1 < 2 ^ 64 }
    ensures answers { OnOk result ((text : List ℕ) × (out.new.items ≡ out.old.items ++ (text ++ 10 ∷ []))
        × M.answers machine.old line.now text machine.new) }
    ensures kept { OnErr result (out.new.items ≡ out.old.items) }
    ensures counts { M.used machine.new ≤ M.used machine.old + 1 }
{
    let start = out.len();
    let answered = append_answer(alloc, machine, line, out);
    if answered.is_err() {
        out.truncate(start);
    }
    answered
}

/// Answers one line, and appends the answer and a newline. If memory runs out, a part of the answer may have been appended.
fn append_answer<M: AnswersLines>(
    alloc: Global,
    machine: &mut M,
    line: &[u8],
    out: &mut Vec<u8>,
) -> Result<(), AllocError>
    requires { M.used machine.old + 1 < 2 ^ 64 }
    ensures answers { OnOk result ((text : List ℕ) × (out.new.items ≡ out.old.items ++ (text ++ 10 ∷ []))
        × M.answers machine.old line.now text machine.new) }
    ensures kept { OnErr result (StartsWith out.new.items out.old.items) }
    ensures counts { M.used machine.new ≤ M.used machine.old + 1 }
{
    machine.answer_line(alloc, line, out)?;
    out.push(b'\n')?;
    Ok(())
}
