//! Options of the form `key=value`, in any order.
ghost use Rattle.std.specs.Prelude.{◌≡◌, ◌≤◌, MatchOption, None, Some};
ghost use Rattle.std.specs.Option.{option_map};
ghost use Rattle.iox_line.specs.Options.{after, find, one};

use crate::text::words::Words;

/// The part of a word after the key with which it begins.
pub fn after<'a>(key: &[u8], word: &'a [u8]) -> Option<&'a [u8]>
    ensures { option_map (λ text. text.now) result ≡ after key.now word.now }
{
    word.strip_prefix(key)
}

/// The part after the key of the first word that begins with the key.
pub fn find<'a>(key: &[u8], words: &Words<'a>) -> Option<&'a [u8]>
    ensures { option_map (λ text. text.now) result ≡ find key.now words.now }
{
    let mut rest = words.again();
    while let Some(word) = rest.next() {
        if let Some(text) = after(key, word) {
            return Some(text);
        }
    }
    None
}

/// 1 if there is a value, 0 if there is none.
pub fn one<T: Copy>(option: Option<T>) -> usize
    ensures value { result ≡ one option }
    ensures few { result ≤ 1 }
{
    match option {
        Some(_) => 1,
        None => 0,
    }
}

/// The options that words name, each by its key; `None` if the text of an option is none of its values, or if the number of words isn't
/// that of the named options.
macro_rules! named_options {
    ($words:ident, $Options:ident { $first:ident: $read:ident($key:literal), $($more:ident: $reads:ident($keys:literal),)* }) => {{
        let $first = $read($key, $words)?;
        $(let $more = $reads($keys, $words)?;)*
        if !$words.are($crate::text::options::one($first) $(+ $crate::text::options::one($more))*) {
            return None;
        }
        Some($Options { $first, $($more),* })
    }};
}

pub(crate) use named_options;
