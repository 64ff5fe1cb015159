//! A conversation partner that repeats each line.
ghost use Rattle.std.specs.Prelude.{◌≡◌};

use iox_conversation::AnswersLines;
use std::alloc::{AllocError, Global};

/// Repeats `answered` lines, and runs out of memory after one byte of the next one.
#[derive(Drop)]
pub(crate) struct Echo {
    pub(crate) answered: usize,
}

impl AnswersLines for Echo {
    ghost answers = { λ old line text new. text ≡ line };

    ghost used = { λ echo. 0 };

    fn answer_line(
        &mut self,
        _alloc: Global,
        line: &[u8],
        out: &mut Vec<u8>,
    ) -> Result<(), AllocError> {
        if self.answered == 0 {
            out.push(b'?')?;
            return Err(AllocError);
        }
        self.answered -= 1;
        out.extend_from_slice(line)
    }
}
