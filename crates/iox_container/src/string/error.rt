//! The error of a string.
ghost use Rattle.std.specs.Prelude.{◌≡◌};
ghost use Rattle.iox_container.specs.StringErrorTexts.{string_error_text};

use thiserror::Error;

/// Why a call that would write to a string was refused; the string then stays as it was.
///
/// Ported from `iceoryx2_bb_container::string::StringModificationError`.
#[derive(Clone, Copy, Debug, PartialEq, Eq, Error)]
#[error("{}", self.text())]
pub enum StringModificationError {
    /// The text would be longer than the capacity. This condition is tested first.
    InsertWouldExceedCapacity,

    /// One of the new bytes lies outside 1..=127.
    InvalidCharacter,
}

impl StringModificationError {
    /// The text that `Display` prints: the names of the type and of the variant.
    pub fn text(&self) -> &'static str
        ensures { result.now ≡ string_error_text self.now }
    {
        match self {
            StringModificationError::InsertWouldExceedCapacity => {
                "StringModificationError::InsertWouldExceedCapacity"
            }
            StringModificationError::InvalidCharacter => {
                "StringModificationError::InvalidCharacter"
            }
        }
    }
}
