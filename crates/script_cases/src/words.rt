//! The words of a line.
use std::str::SplitWhitespace;

/// The next word, or an empty one.
pub(crate) fn word<'a>(words: &mut SplitWhitespace<'a>) -> &'a str {
    words.next().unwrap_or("")
}

/// The next word as a number, if it is one.
pub(crate) fn number_if(words: &mut SplitWhitespace<'_>) -> Option<u64> {
    words.next()?.parse::<u64>().ok()
}

/// The next word as a number; one that is no number is the largest of all, which no case asks for.
pub(crate) fn number(words: &mut SplitWhitespace<'_>) -> u64 {
    number_if(words).unwrap_or(u64::MAX)
}

// A name and its number, as `buffer=3` has them.
fn setting(word: &str) -> Option<(&str, u64)> {
    let (name, value) = word.split_once('=')?;
    Some((name, value.parse::<u64>().ok()?))
}

/// The size that a line gives under a name, or another where it gives none.
pub(crate) fn size(line: &str, name: &str, otherwise: u64) -> u64 {
    for word in line.split_whitespace() {
        if let Some((named, size)) = setting(word) {
            if named == name {
                return size;
            }
        }
    }
    otherwise
}
