//! How a line names a port.
use iox_lanes_parties::Party;

// The place after a letter.
fn place(word: &str, letter: char) -> Option<usize> {
    word.strip_prefix(letter)?.parse::<usize>().ok()
}

/// A port: `p0` is the first publisher, and `s1` the second subscriber.
pub(crate) fn party(word: &str) -> Option<Party> {
    match place(word, 'p') {
        Some(place) => Some(Party::Publisher(place)),
        None => Some(Party::Subscriber(place(word, 's')?)),
    }
}
