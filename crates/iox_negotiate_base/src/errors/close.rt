//! The error of closing a factory.
ghost use Rattle.std.specs.Prelude.{◌≡◌, Some};
ghost use Rattle.iox_negotiate_base.specs.CloseText.{close_text};

use std::fmt;
use thiserror::Error;

/// Why a factory isn't closed, or why its closing left something behind.
#[derive(Clone, Copy, Debug, PartialEq, Eq, Error)]
pub enum CloseError {
    /// The service is in a storage with another id. The factory is returned to the caller.
    NotThisStorage,
    /// The description can't be removed. The factory is consumed, and the segment stays.
    UnableToRemoveDescription,
    /// The segment can't be removed. The factory is consumed.
    UnableToRemoveSegment,
    /// Ports of the factory still exist. Only callers that own ports return this error, never the factory itself.
    StillInUse,
}

impl CloseError {
    /// The text that `Display` prints.
    pub fn text(&self) -> &'static str
        ensures { result.now ≡ close_text self.now }
    {
        match self {
            CloseError::NotThisStorage => "CloseError::NotThisStorage",
            CloseError::UnableToRemoveDescription => "CloseError::UnableToRemoveDescription",
            CloseError::UnableToRemoveSegment => "CloseError::UnableToRemoveSegment",
            CloseError::StillInUse => "CloseError::StillInUse",
        }
    }
}

impl fmt::Display for CloseError {
    ghost output = { λ error. Some (close_text error) };

    fn fmt<W: fmt::Write>(&self, f: &mut fmt::Formatter<W>) -> fmt::Result {
        f.pad(self.text())
    }
}
