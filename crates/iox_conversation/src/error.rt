//! Why a conversation ended before its input did, and how a program reports it.
ghost use Rattle.std.specs.Prelude.{◌≡◌};
ghost use Rattle.iox_conversation.specs.Ending.{words_of_error, status_of_error, status_of};

use thiserror::Error;

/// Why a conversation ended before its input did.
#[derive(Clone, Copy, Debug, PartialEq, Eq, Hash, Error)]
#[error("{}", self.text())]
pub enum ServeError {
    /// A read call failed, or 2^20 read calls were made.
    ReadFault,
    /// A write call failed, took no bytes, or was interrupted 2^20 times.
    WriteFault,
    /// An allocation failed for a reply, or for the buffers of the conversation.
    OutOfMemory,
}

impl ServeError {
    /// The text that the error displays.
    pub fn text(&self) -> &'static str
        ensures { result.now ≡ words_of_error self.now }
    {
        match self {
            ServeError::ReadFault => "read fault",
            ServeError::WriteFault => "write fault",
            ServeError::OutOfMemory => "out of memory",
        }
    }

    /// The status with which a program ends after this error: 1 after a read or write fault, 2 if an allocation failed.
    pub fn status(&self) -> u8
        ensures { result ≡ status_of_error self.now }
    {
        match self {
            ServeError::ReadFault | ServeError::WriteFault => 1,
            ServeError::OutOfMemory => 2,
        }
    }
}

/// The status with which a program ends after a conversation: 0 at the end of its input, otherwise that of the error.
pub fn status(ending: Result<(), ServeError>) -> u8
    ensures { result ≡ status_of ending }
{
    match ending {
        Ok(()) => 0,
        Err(error) => error.status(),
    }
}
