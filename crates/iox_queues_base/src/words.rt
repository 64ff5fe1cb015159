//! Values that are copied as 64-bit words.
//!
//! New in this port: iceoryx2 copies the bytes of any `Copy` type, and this port copies the value word by word.
ghost use Rattle.std.specs.Prelude.{◌≡◌, ℕ, ◌+◌, ◌*◌, ◌/◌, ◌%◌, ◌^◌, ◌<◌, ◌≤◌, List, [], ◌∷◌, length, slice_index, if◌then◌else◌, ◌==◌};
ghost use Rattle.std.specs.Prelude.{nat_lt, Bool, true, false, refl};
ghost use Rattle.std.proofs.Common.{arith, rules};
ghost use Rattle.iox_queues_base.specs.Coding.{narrowed, narrowed-same, word_of_bool, wide-back};

mod arrays;
mod floats;
mod signed;

pub use arrays::OneWord;

/// A value that is copied as a fixed number of 64-bit words, which may be none.
///
/// A value is determined by its words; so a type whose values have no words has only one value.
pub trait Words: Copy {
    // the words of a value
    ghost parts: { Self → List ℕ };

    // the value that has these words, or any value if no value has them
    ghost of_parts: { List ℕ → Self };

    // a condition that every value of this type meets, such as the bound of an integer
    ghost is_value: { Self → Type 0 };

    /// How many words a value has.
    const WORDS: usize;

    ghost WORDS: { ℕ };

    /// Word `i` of the value, or 0 if the value has no such word.
    fn word(&self, i: usize) -> u64
        ensures { result ≡ slice_index (parts self.now) i };

    /// The value that has these words, or any value if no value has them.
    fn of_words(words: &[u64]) -> Self
        requires { length words.now ≡ WORDS }
        ensures same { result ≡ of_parts words.now }
        ensures value { is_value result };

    /// Does nothing at run time. For the prover it recalls that the value meets the condition of its type (`is_value`), such as an
    /// integer's range. The body for an integer reads it, and the body for a struct calls `shows` for each field.
    fn shows(&self)
        ensures { is_value self.now };

    /// Does nothing at run time. For the prover it recalls that the words of a value, even if there are none, determine it.
    final fn gives_back(&self)
        ensures value { is_value self.now }
        ensures same { of_parts (parts self.now) ≡ self.now }
    {
        self.shows();
    }

    ghost as_many: { (x : Self) → length (parts x) ≡ WORDS };

    ghost given_back: { (x : Self) → is_value x → of_parts (parts x) ≡ x };
}

// The word itself if it is at most `most`, else 0.
fn word_or_zero(word: u64, most: u64) -> u64
    ensures value { result ≡ (if nat_lt word (most + 1) then word else 0) }
    ensures fits { result ≤ most }
{
    if word <= most { word } else { 0 }
}

impl Words for u8 {
    ghost parts = { λ x. x ∷ [] };

    ghost of_parts = { λ ws. narrowed 8 (slice_index ws 0) };

    ghost is_value = { λ x. x < 2 ^ 8 };

    const WORDS: usize = 1;

    ghost WORDS = { 1 };

    fn word(&self, i: usize) -> u64 {
        u64::from(*self).word(i)
    }

    fn of_words(words: &[u64]) -> u8 {
        word_or_zero(words[0], u64::from(u8::MAX)) as u8
    }

    fn shows(&self) {
        let _value = *self;
    }

    ghost as_many = { λ x. refl };

    ghost given_back = { narrowed-same 8 };
}

impl Words for u16 {
    ghost parts = { λ x. x ∷ [] };

    ghost of_parts = { λ ws. narrowed 16 (slice_index ws 0) };

    ghost is_value = { λ x. x < 2 ^ 16 };

    const WORDS: usize = 1;

    ghost WORDS = { 1 };

    fn word(&self, i: usize) -> u64 {
        u64::from(*self).word(i)
    }

    fn of_words(words: &[u64]) -> u16 {
        word_or_zero(words[0], u64::from(u16::MAX)) as u16
    }

    fn shows(&self) {
        let _value = *self;
    }

    ghost as_many = { λ x. refl };

    ghost given_back = { narrowed-same 16 };
}

impl Words for u32 {
    ghost parts = { λ x. x ∷ [] };

    ghost of_parts = { λ ws. narrowed 32 (slice_index ws 0) };

    ghost is_value = { λ x. x < 2 ^ 32 };

    const WORDS: usize = 1;

    ghost WORDS = { 1 };

    fn word(&self, i: usize) -> u64 {
        u64::from(*self).word(i)
    }

    fn of_words(words: &[u64]) -> u32 {
        word_or_zero(words[0], u64::from(u32::MAX)) as u32
    }

    fn shows(&self) {
        let _value = *self;
    }

    ghost as_many = { λ x. refl };

    ghost given_back = { narrowed-same 32 };
}

impl Words for u64 {
    ghost parts = { λ x. x ∷ [] };

    ghost of_parts = { λ ws. slice_index ws 0 };

    ghost is_value = { λ x. x < 2 ^ 64 };

    const WORDS: usize = 1;

    ghost WORDS = { 1 };

    fn word(&self, i: usize) -> u64 {
        let value = *self;
        if i == 0 { value } else { 0 }
    }

    fn of_words(words: &[u64]) -> u64 {
        words[0]
    }

    fn shows(&self) {
        let _value = *self;
    }

    ghost as_many = { λ x. refl };

    ghost given_back = { λ x h. refl };
}

impl Words for usize {
    ghost parts = { λ x. x ∷ [] };

    ghost of_parts = { λ ws. slice_index ws 0 };

    ghost is_value = { λ x. x < 2 ^ 64 };

    const WORDS: usize = 1;

    ghost WORDS = { 1 };

    fn word(&self, i: usize) -> u64 {
        (*self as u64).word(i)
    }

    fn of_words(words: &[u64]) -> usize {
        words[0] as usize
    }

    fn shows(&self) {
        let _value = *self;
    }

    ghost as_many = { λ x. refl };

    ghost given_back = { λ x h. refl };
}

/// Two words, the low one first.
impl Words for u128 {
    ghost parts = { λ x. (x % 2 ^ 64) ∷ (x / 2 ^ 64) ∷ [] };

    ghost of_parts = { λ ws. slice_index ws 0 + 2 ^ 64 * slice_index ws 1 };

    ghost is_value = { λ x. x < 2 ^ 128 };

    const WORDS: usize = 2;

    ghost WORDS = { 2 };

    fn word(&self, i: usize) -> u64 {
        let value = *self;
        match i {
            0 => (value % 0x1_0000_0000_0000_0000) as u64,
            1 => (value / 0x1_0000_0000_0000_0000) as u64,
            _ => 0,
        }
    }

    fn of_words(words: &[u64]) -> u128 {
        u128::from(words[0]) + 0x1_0000_0000_0000_0000 * u128::from(words[1])
    }

    fn shows(&self) {
        let _value = *self;
    }

    ghost as_many = { λ x. refl };

    ghost given_back = { λ x h. wide-back x };
}

impl Words for bool {
    ghost parts = { λ x. word_of_bool x ∷ [] };

    ghost of_parts = { λ ws. slice_index ws 0 == 1 };

    ghost is_value = { λ x. Unit {0} };

    const WORDS: usize = 1;

    ghost WORDS = { 1 };

    fn word(&self, i: usize) -> u64 {
        if i == 0 && *self { 1 } else { 0 }
    }

    fn of_words(words: &[u64]) -> bool {
        words[0] == 1
    }

    fn shows(&self) {}

    ghost as_many = { λ x. refl };

    ghost given_back = { elim [ true ↦ λ h. refl | false ↦ λ h. refl ] };
}

/// No words, since there is only one value.
impl Words for () {
    ghost parts = { λ x. [] };

    ghost of_parts = { λ ws. tt };

    ghost is_value = { λ x. Unit {0} };

    const WORDS: usize = 0;

    ghost WORDS = { 0 };

    fn word(&self, _i: usize) -> u64 {
        0
    }

    fn of_words(_words: &[u64]) {}

    fn shows(&self) {}

    ghost as_many = { λ x. refl };

    ghost given_back = { λ x h. refl };
}
