//! Why a line isn't a command.
ghost use Rattle.std.specs.Prelude.{◌≡◌};
ghost use Rattle.iox_line.specs.LineFault.{fault_text};

use thiserror::Error;

/// Why a line isn't a command. Not in `iceoryx2`.
#[derive(Clone, Copy, Debug, PartialEq, Eq, Hash, Error)]
#[error("{}", self.text())]
pub enum LineError {
    /// The line spells no command.
    Faulty,
    /// The line has more than 1,024 bytes.
    TooLong,
}

impl LineError {
    /// The text that the error displays, which follows `err ` in the reply.
    pub fn text(&self) -> &'static str
        ensures { result.now ≡ fault_text self.now }
    {
        match self {
            LineError::Faulty => "faulty line",
            LineError::TooLong => "line too long",
        }
    }
}
