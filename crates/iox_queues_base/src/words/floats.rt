//! Floats as their bits, and characters as their codes.
ghost use Rattle.std.specs.Prelude.{◌≡◌, ◌∷◌, [], slice_index, T, to_bits, from_bits, refl};
ghost use Rattle.std.specs.Float.{binary32, binary64};
ghost use Rattle.std.specs.Float.Ieee.{fits};
ghost use Rattle.iox_queues_base.specs.Coding.{narrowed, char_of};
ghost use Rattle.std.specs.Char.{IsScalar};
ghost use Rattle.iox_queues_base.specs.Scalars.{float-given_back, float-narrowed, char-given_back};

use super::Words;
use std::num::{
    f32_from_bits_with_nan, f32_to_bits_with_nan, f64_from_bits_with_nan, f64_to_bits_with_nan,
};

/// One word, the bits of the float. All NaNs are one value here, encoded as the quiet NaN with a clear sign.
impl Words for f32 {
    ghost parts = { λ x. to_bits binary32 x ∷ [] };

    ghost of_parts = { λ ws. from_bits binary32 (narrowed 32 (slice_index ws 0)) };

    ghost is_value = { λ x. T (fits binary32 x) };

    const WORDS: usize = 1;

    ghost WORDS = { 1 };

    fn word(&self, i: usize) -> u64 {
        f32_to_bits_with_nan(*self).word(i)
    }

    fn of_words(words: &[u64]) -> f32 {
        f32_from_bits_with_nan(u32::of_words(words))
    }

    fn shows(&self) {
        holds_f32(*self);
    }

    ghost as_many = { λ x. refl };

    ghost given_back = { float-narrowed };
}

/// One word, the bits of the float. All NaNs are one value here, encoded as the quiet NaN with a clear sign.
impl Words for f64 {
    ghost parts = { λ x. to_bits binary64 x ∷ [] };

    ghost of_parts = { λ ws. from_bits binary64 (slice_index ws 0) };

    ghost is_value = { λ x. T (fits binary64 x) };

    const WORDS: usize = 1;

    ghost WORDS = { 1 };

    fn word(&self, i: usize) -> u64 {
        f64_to_bits_with_nan(*self).word(i)
    }

    fn of_words(words: &[u64]) -> f64 {
        f64_from_bits_with_nan(words[0])
    }

    fn shows(&self) {
        holds_f64(*self);
    }

    ghost as_many = { λ x. refl };

    ghost given_back = { float-given_back };
}

/// Does nothing at run time. For the prover it recalls that the format holds the value.
fn holds_f32(value: f32)
    ensures { T (fits binary32 value) }
{}

/// Does nothing at run time. For the prover it recalls that the format holds the value.
fn holds_f64(value: f64)
    ensures { T (fits binary64 value) }
{}

/// One word, the code of the character.
impl Words for char {
    ghost parts = { λ x. x ∷ [] };

    ghost of_parts = { λ ws. char_of (narrowed 32 (slice_index ws 0)) };

    ghost is_value = { IsScalar };

    const WORDS: usize = 1;

    ghost WORDS = { 1 };

    fn word(&self, i: usize) -> u64 {
        u32::from(*self).word(i)
    }

    fn of_words(words: &[u64]) -> char {
        match char::from_u32(u32::of_words(words)) {
            Some(value) => value,
            None => '\0',
        }
    }

    fn shows(&self) {
        let _value = *self;
    }

    ghost as_many = { λ x. refl };

    ghost given_back = { char-given_back };
}
