//! The limits of texts and numbers, and the error of what exceeds them.
use thiserror::Error;

/// The maximum number of bytes in a service's name.
pub const MAX_SERVICE_NAME_LENGTH: usize = 255;

/// The maximum number of bytes in a type's name.
pub const MAX_TYPE_NAME_LENGTH: usize = 255;

/// The maximum number of bytes in an attribute's key.
pub const MAX_ATTRIBUTE_KEY_LENGTH: usize = 64;

/// The maximum number of bytes in an attribute's value.
pub const MAX_ATTRIBUTE_VALUE_LENGTH: usize = 256;

/// The maximum number of attributes of a service, and of the pairs and of the keys that an opener requires.
pub const MAX_ATTRIBUTES: usize = 8;

/// A text or a number is outside the limits of a description.
#[derive(Clone, Copy, Debug, PartialEq, Eq, Error)]
pub enum LimitError {
    /// The text is too long, or is empty where it may not be, or has a byte outside 1..=127; or the alignment is 0; or there are eight
    /// attributes already.
    #[error("LimitError::OutsideLimits")]
    OutsideLimits,
}

/// The numbers of nodes, publishers and subscribers of a service must be below this.
pub const NUMBER_OF_PORTS_END: u64 = 16_777_216;

/// The sizes of buffers, borrows and histories must be below this.
pub const NUMBER_OF_SAMPLES_END: u64 = 4_294_967_296;
