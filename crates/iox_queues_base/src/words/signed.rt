//! Signed integers as the unsigned integers with the same bits, in two's complement.
ghost use Rattle.std.specs.Prelude.{◌≡◌, ◌∷◌, [], ◌+◌, ◌*◌, ◌/◌, ◌%◌, ◌^◌, slice_index, FitsSigned, refl};
ghost use Rattle.std.specs.Int.{cast_signed, cast_unsigned, w8, w16, w32, w64, w128};
ghost use Rattle.iox_queues_base.specs.Coding.{narrowed};
ghost use Rattle.iox_queues_base.specs.Scalars.{signed-narrowed, signed-wide};
ghost use Rattle.std.proofs.lemmas.Int.{to_z-of_z};

use super::Words;

impl Words for i8 {
    ghost parts = { λ x. cast_unsigned w8 x ∷ [] };

    ghost of_parts = { λ ws. cast_signed w8 (narrowed 8 (slice_index ws 0)) };

    ghost is_value = { FitsSigned w8 };

    const WORDS: usize = 1;

    ghost WORDS = { 1 };

    fn word(&self, i: usize) -> u64 {
        self.cast_unsigned().word(i)
    }

    fn of_words(words: &[u64]) -> i8 {
        u8::of_words(words).cast_signed()
    }

    fn shows(&self) {
        let _value = *self;
    }

    ghost as_many = { λ x. refl };

    ghost given_back = { signed-narrowed w8 };
}

impl Words for i16 {
    ghost parts = { λ x. cast_unsigned w16 x ∷ [] };

    ghost of_parts = { λ ws. cast_signed w16 (narrowed 16 (slice_index ws 0)) };

    ghost is_value = { FitsSigned w16 };

    const WORDS: usize = 1;

    ghost WORDS = { 1 };

    fn word(&self, i: usize) -> u64 {
        self.cast_unsigned().word(i)
    }

    fn of_words(words: &[u64]) -> i16 {
        u16::of_words(words).cast_signed()
    }

    fn shows(&self) {
        let _value = *self;
    }

    ghost as_many = { λ x. refl };

    ghost given_back = { signed-narrowed w16 };
}

impl Words for i32 {
    ghost parts = { λ x. cast_unsigned w32 x ∷ [] };

    ghost of_parts = { λ ws. cast_signed w32 (narrowed 32 (slice_index ws 0)) };

    ghost is_value = { FitsSigned w32 };

    const WORDS: usize = 1;

    ghost WORDS = { 1 };

    fn word(&self, i: usize) -> u64 {
        self.cast_unsigned().word(i)
    }

    fn of_words(words: &[u64]) -> i32 {
        u32::of_words(words).cast_signed()
    }

    fn shows(&self) {
        let _value = *self;
    }

    ghost as_many = { λ x. refl };

    ghost given_back = { signed-narrowed w32 };
}

impl Words for i64 {
    ghost parts = { λ x. cast_unsigned w64 x ∷ [] };

    ghost of_parts = { λ ws. cast_signed w64 (slice_index ws 0) };

    ghost is_value = { FitsSigned w64 };

    const WORDS: usize = 1;

    ghost WORDS = { 1 };

    fn word(&self, i: usize) -> u64 {
        self.cast_unsigned().word(i)
    }

    fn of_words(words: &[u64]) -> i64 {
        words[0].cast_signed()
    }

    fn shows(&self) {
        let _value = *self;
    }

    ghost as_many = { λ x. refl };

    ghost given_back = { to_z-of_z w64 };
}

impl Words for isize {
    ghost parts = { λ x. cast_unsigned w64 x ∷ [] };

    ghost of_parts = { λ ws. cast_signed w64 (slice_index ws 0) };

    ghost is_value = { FitsSigned w64 };

    const WORDS: usize = 1;

    ghost WORDS = { 1 };

    fn word(&self, i: usize) -> u64 {
        self.cast_unsigned().word(i)
    }

    fn of_words(words: &[u64]) -> isize {
        usize::of_words(words).cast_signed()
    }

    fn shows(&self) {
        let _value = *self;
    }

    ghost as_many = { λ x. refl };

    ghost given_back = { to_z-of_z w64 };
}

/// Two words, the low one first.
impl Words for i128 {
    ghost parts = { λ x. (cast_unsigned w128 x % 2 ^ 64) ∷ (cast_unsigned w128 x / 2 ^ 64) ∷ [] };

    ghost of_parts = { λ ws. cast_signed w128 (slice_index ws 0 + 2 ^ 64 * slice_index ws 1) };

    ghost is_value = { FitsSigned w128 };

    const WORDS: usize = 2;

    ghost WORDS = { 2 };

    fn word(&self, i: usize) -> u64 {
        self.cast_unsigned().word(i)
    }

    fn of_words(words: &[u64]) -> i128 {
        u128::of_words(words).cast_signed()
    }

    fn shows(&self) {
        let _value = *self;
    }

    ghost as_many = { λ x. refl };

    ghost given_back = { signed-wide };
}
