//! Tables of values, from which step machines take a value by its number.
ghost use Rattle.std.specs.Prelude.{◌≡◌, slice_index};
ghost use Rattle.iox_queues.specs.Values.{table_value};

/// The words of the value with this number; an empty slice if the table has no such value.
pub fn value_of(values: &[Vec<u64>], number: usize) -> &[u64]
    ensures { result.now ≡ table_value values.now number }
{
    match values.get(number) {
        Some(words) => words.as_slice(),
        None => &[],
    }
}

/// Word `i` of the value with this number; 0 if there is none.
pub fn word_of(values: &[Vec<u64>], number: usize, i: usize) -> u64
    ensures { result ≡ slice_index (table_value values.now number) i }
{
    match value_of(values, number).get(i) {
        Some(word) => *word,
        None => 0,
    }
}
