//! The error of a semantic string.
ghost use Rattle.std.specs.Prelude.{◌≡◌};
ghost use Rattle.iox_container.specs.Refusals.{error_text, refusal_of};

use crate::string::StringModificationError;
use thiserror::Error;

/// Why a semantic string was not created or not changed. A string that existed before stays as it was.
///
/// Ported from `iceoryx2_bb_container::semantic_string::SemanticStringError`.
#[derive(Clone, Copy, Debug, PartialEq, Eq, Error)]
#[error("{}", self.text())]
pub enum SemanticStringError {
    /// The content has a byte outside 1..=127, or the rules refuse it.
    InvalidContent,

    /// The content would be longer than the capacity. This condition is tested first.
    ExceedsMaximumLength,
}

impl SemanticStringError {
    /// The text that `Display` prints: the names of the type and of the variant.
    pub fn text(&self) -> &'static str
        ensures { result.now ≡ error_text self.now }
    {
        match self {
            SemanticStringError::InvalidContent => "SemanticStringError::InvalidContent",
            SemanticStringError::ExceedsMaximumLength => {
                "SemanticStringError::ExceedsMaximumLength"
            }
        }
    }
}

impl From<StringModificationError> for SemanticStringError {
    ghost from_gives = { λ error made. made ≡ refusal_of error };

    fn from(error: StringModificationError) -> Self {
        match error {
            StringModificationError::InsertWouldExceedCapacity => {
                SemanticStringError::ExceedsMaximumLength
            }
            StringModificationError::InvalidCharacter => SemanticStringError::InvalidContent,
        }
    }
}
