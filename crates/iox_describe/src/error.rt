//! The error of reading and writing a description.
ghost use Rattle.std.specs.Prelude.{◌≡◌};
ghost use Rattle.iox_describe.specs.declared.error.DescriptionError.TheVariants.{OutOfMemory};

use iox_describe_base::AttributeError;
use serde_json::Error;
use std::alloc::AllocError;

/// Why bytes can't be read as a description, or a description can't be written in version 1.
#[derive(Clone, Copy, Debug, PartialEq, Eq, thiserror::Error)]
pub enum DescriptionError {
    /// The bytes aren't the encoding of any description within the limits.
    #[error("DescriptionError::Invalid")]
    Invalid,
    /// The service numbers its messages, which a line of version 1 can't state.
    #[error("DescriptionError::NotInVersion1")]
    NotInVersion1,
    /// Memory ran out.
    #[error("DescriptionError::OutOfMemory")]
    OutOfMemory,
}

impl From<AllocError> for DescriptionError {
    ghost from_gives = { λ _ e. e ≡ OutOfMemory };

    fn from(_error: AllocError) -> DescriptionError {
        DescriptionError::OutOfMemory
    }
}

impl From<AttributeError> for DescriptionError {
    ghost use Rattle.iox_describe.specs.Reading.{description_error};

    ghost from_gives = { λ refused error. error ≡ description_error refused };

    fn from(error: AttributeError) -> DescriptionError {
        match error {
            AttributeError::LimitError(_) => DescriptionError::Invalid,
            AttributeError::OutOfMemory => DescriptionError::OutOfMemory,
        }
    }
}

impl From<Error> for DescriptionError {
    ghost use Rattle.std.specs.Prelude.{◌⊎◌};
    ghost use Rattle.serde_json.specs.Errors.{IsMemory};
    ghost use Rattle.iox_describe.specs.declared.error.DescriptionError.TheVariants.{Invalid};

    ghost from_gives = { λ error e. (e ≡ OutOfMemory) ⊎ ((e ≡ Invalid) × (¬ IsMemory error)) };

    fn from(error: Error) -> DescriptionError {
        if error.is_memory() {
            DescriptionError::OutOfMemory
        } else {
            DescriptionError::Invalid
        }
    }
}
