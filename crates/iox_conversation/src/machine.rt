//! Machines that answer lines.
ghost use Rattle.std.specs.Prelude.{◌≡◌, ℕ, ◌+◌, ◌≤◌, ◌<◌, ◌^◌, ◌++◌, List, OnOk, OnErr};
ghost use Rattle.std.specs.Io.{StartsWith};

use std::alloc::{AllocError, Global};

/// A machine that answers lines, one after the other.
///
/// Not in `iceoryx2`.
pub trait AnswersLines: Drop {
    // the answer to a line, without a newline, and the machine afterwards
    ghost answers: { Self → List ℕ → List ℕ → Self → Type 0 };

    // how many of the numbers below 2^64 the machine has given
    ghost used: { Self → ℕ };

    /// Answers a line, of which at most the first 1,025 bytes are given, and appends the answer without a newline.
    ///
    /// Fails only if an allocation fails. Then what was there before stays; a part of the answer may follow it, which the caller removes.
    fn answer_line(
        &mut self,
        alloc: Global,
        line: &[u8],
        out: &mut Vec<u8>,
    ) -> Result<(), AllocError>
        requires { used self.old + 1 < 2 ^ 64 }
        ensures answers { OnOk result ((text : List ℕ) × (out.new.items ≡ out.old.items ++ text)
            × answers self.old line.now text self.new) }
        ensures kept { OnErr result (StartsWith out.new.items out.old.items) }
        ensures counts { used self.new ≤ used self.old + 1 };
}
