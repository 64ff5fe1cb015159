//! The error of a vector.
ghost use Rattle.std.specs.Prelude.{◌≡◌};
ghost use Rattle.iox_container.specs.ErrorTexts.{vector_error_text};

use thiserror::Error;

/// Why a call that would change a vector was refused; the vector then stays as it was.
///
/// Ported from `iceoryx2_bb_container::vector::VectorModificationError`.
#[derive(Clone, Copy, Debug, PartialEq, Eq, Error)]
#[error("{}", self.text())]
pub enum VectorModificationError {
    /// The index lies past the end.
    OutOfBounds,

    /// There would be more items than the capacity. This condition is tested first.
    InsertWouldExceedCapacity,

    /// The clone of an item failed because memory ran out. New in this port.
    OutOfMemory,
}

impl VectorModificationError {
    /// The text that `Display` prints: the names of the type and of the variant.
    pub fn text(&self) -> &'static str
        ensures { result.now ≡ vector_error_text self.now }
    {
        match self {
            VectorModificationError::OutOfBounds => "VectorModificationError::OutOfBounds",
            VectorModificationError::InsertWouldExceedCapacity => {
                "VectorModificationError::InsertWouldExceedCapacity"
            }
            VectorModificationError::OutOfMemory => "VectorModificationError::OutOfMemory",
        }
    }
}
