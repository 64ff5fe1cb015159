//! The types that match any payload and any user header.
ghost use Rattle.std.specs.Prelude.{◌<◌, ◌^◌, [], ◌∷◌, slice_index, codes, refl};
ghost use Rattle.std.proofs.Common.{ap};
ghost use Rattle.iox_queues_base.specs.Coding.{narrowed, narrowed-same};

use iox_describe_base::{TypeDetail, TypeVariant, ZeroCopySend};
use iox_queues_base::Words;

/// A byte of a payload whose type only the description defines.
///
/// Ported from `iceoryx2::service::builder::CustomPayloadMarker`.
#[derive(Clone, Copy, Debug, PartialEq, Eq)]
pub struct CustomPayloadMarker {
    /// The byte.
    pub byte: u8,
}

/// A user header whose type only the description defines, and which can't be accessed.
///
/// Ported from `iceoryx2::service::builder::CustomHeaderMarker`.
#[derive(Clone, Copy, Debug, PartialEq, Eq)]
pub struct CustomHeaderMarker;

impl ZeroCopySend for CustomPayloadMarker {
    ghost name = { codes "CustomPayloadMarker" };

    ghost size = { 1 };

    ghost alignment = { 1 };

    fn type_detail(variant: TypeVariant) -> TypeDetail {
        TypeDetail::new(variant, b"CustomPayloadMarker", 1, 1).unwrap()
    }
}

impl ZeroCopySend for CustomHeaderMarker {
    ghost name = { codes "CustomHeaderMarker" };

    ghost size = { 0 };

    ghost alignment = { 1 };

    fn type_detail(variant: TypeVariant) -> TypeDetail {
        TypeDetail::new(variant, b"CustomHeaderMarker", 0, 1).unwrap()
    }
}

/// The type has one value.
impl Default for CustomHeaderMarker {
    ghost is_default = { λ made. Unit {0} };

    fn default() -> Self {
        CustomHeaderMarker
    }
}

impl Words for CustomPayloadMarker {
    ghost parts = { λ x. x.byte ∷ [] };

    ghost of_parts = { λ ws. record { byte = narrowed 8 (slice_index ws 0) } };

    ghost is_value = { λ x. x.byte < 2 ^ 8 };

    const WORDS: usize = 1;

    ghost WORDS = { 1 };

    fn word(&self, i: usize) -> u64 {
        self.byte.word(i)
    }

    fn of_words(words: &[u64]) -> CustomPayloadMarker {
        CustomPayloadMarker {
            byte: u8::of_words(words),
        }
    }

    fn shows(&self) {
        let _byte = self.byte;
    }

    ghost as_many = { λ x. refl };

    ghost given_back = { λ x h. ap (λ byte. record { byte = byte }) (narrowed-same 8 x.byte h) };
}

impl Words for CustomHeaderMarker {
    ghost parts = { λ x. [] };

    ghost of_parts = { λ ws. record {} };

    ghost is_value = { λ x. Unit {0} };

    const WORDS: usize = 0;

    ghost WORDS = { 0 };

    fn word(&self, _i: usize) -> u64 {
        0
    }

    fn of_words(_words: &[u64]) -> CustomHeaderMarker {
        CustomHeaderMarker
    }

    fn shows(&self) {}

    ghost as_many = { λ x. refl };

    ghost given_back = { λ x h. refl };
}
