//! The error of a flat map.
ghost use Rattle.std.specs.Prelude.{◌≡◌};
ghost use Rattle.iox_container.specs.MapsErrorTexts.{flat_map_error_text};

use thiserror::Error;

/// Why a pair was not inserted; the map then stays as it was.
///
/// Ported from `iceoryx2_bb_container::flatmap::FlatMapError`.
#[derive(Clone, Copy, Debug, PartialEq, Eq, Error)]
#[error("{}", self.text())]
pub enum FlatMapError {
    /// The map has an equal key. This condition is tested first.
    KeyAlreadyExists,

    /// No further pair fits.
    IsFull,
}

impl FlatMapError {
    /// The text that `Display` prints: the names of the type and of the variant.
    pub fn text(&self) -> &'static str
        ensures { result.now ≡ flat_map_error_text self.now }
    {
        match self {
            FlatMapError::KeyAlreadyExists => "FlatMapError::KeyAlreadyExists",
            FlatMapError::IsFull => "FlatMapError::IsFull",
        }
    }
}
