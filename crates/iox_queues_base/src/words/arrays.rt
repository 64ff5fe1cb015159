//! Arrays of values that are copied as one word each.
ghost use Rattle.std.specs.Prelude.{◌≡◌, length, All, refl};
ghost use Rattle.iox_queues_base.specs.Each.{first_words, each_of_words, many_first, each_given_back, one_each};

use super::Words;

/// A value that is copied as one word.
pub trait OneWord: Words {
    ghost one: { Self.WORDS ≡ 1 };
}

/// One word for each element, in order.
impl<T: OneWord, const N: usize> Words for [T; N] {
    ghost parts = { first_words T.parts N };

    ghost of_parts = { each_of_words T.of_parts };

    ghost is_value = { λ xs. (length xs ≡ N) × All T.is_value xs };

    const WORDS: usize = N;

    ghost WORDS = { N };

    fn word(&self, i: usize) -> u64 {
        match self.get(i) {
            Some(item) => item.word(0),
            None => 0,
        }
    }

    fn of_words(words: &[u64]) -> [T; N] {
        let mut items = [T::of_words(&[0]); N];
        for i in 0..N {
            items[i] = T::of_words(&words[i..i + 1]);
        }
        items
    }

    fn shows(&self) {
        for item in self.iter() {
            item.shows();
        }
    }

    ghost as_many = { many_first T.parts N };

    ghost given_back = { λ xs h. each_given_back T.parts T.of_parts T.is_value (one_each T.parts T.WORDS T.as_many T.one) T.given_back N
        xs h.0 h.1 };
}

impl OneWord for u8 {
    ghost one = { refl };
}

impl OneWord for u16 {
    ghost one = { refl };
}

impl OneWord for u32 {
    ghost one = { refl };
}

impl OneWord for u64 {
    ghost one = { refl };
}

impl OneWord for usize {
    ghost one = { refl };
}

impl OneWord for i8 {
    ghost one = { refl };
}

impl OneWord for i16 {
    ghost one = { refl };
}

impl OneWord for i32 {
    ghost one = { refl };
}

impl OneWord for i64 {
    ghost one = { refl };
}

impl OneWord for isize {
    ghost one = { refl };
}

impl OneWord for f32 {
    ghost one = { refl };
}

impl OneWord for f64 {
    ghost one = { refl };
}

impl OneWord for bool {
    ghost one = { refl };
}

impl OneWord for char {
    ghost one = { refl };
}
