//! The numbers after the first word.
ghost use Rattle.std.specs.Prelude.{◌≡◌, ◌≤◌, length};
ghost use Rattle.iox_line.specs.Reading.{only, with_number, with_two, numbers, with_values, port_of};

use crate::scratch::Scratch;
use crate::text::Words;
use iox_command::{PortNumber, Values};

/// The number of a single word, after the letter of its kind.
#[inline(always)]
#[tactic(auto, using(crate::proofs::LeadingLemmas::only_read))]
pub(crate) fn only(letter: u8, words: Words) -> Option<u64>
    ensures { result ≡ only letter words.entry }
{
    let mut words = words;
    let number = words.next_numbered(letter)?;
    if !words.is_empty() {
        return None;
    }
    Some(number)
}

/// A number with the letter of its kind, and a second number.
#[inline(always)]
#[tactic(auto, using(crate::proofs::LeadingLemmas::with_number_read))]
pub(crate) fn with_number(letter: u8, words: Words) -> Option<(u64, u64)>
    ensures { result ≡ with_number letter words.entry }
{
    let mut words = words;
    let made = words.next_numbered(letter)?;
    let value = words.next_number()?;
    if !words.is_empty() {
        return None;
    }
    Some((made, value))
}

/// A number with the letter of its kind, and two more numbers.
#[inline(always)]
#[tactic(auto, using(crate::proofs::LeadingLemmas::with_two_read))]
pub(crate) fn with_two(letter: u8, words: Words) -> Option<(u64, u64, u64)>
    ensures { result ≡ with_two letter words.entry }
{
    let mut words = words;
    let made = words.next_numbered(letter)?;
    let first = words.next_number()?;
    let last = words.next_number()?;
    if !words.is_empty() {
        return None;
    }
    Some((made, first, last))
}

/// The numbers that words spell.
#[inline(always)]
#[tactic(auto, using(crate::proofs::LeadingLemmas::numbers_step, crate::proofs::LeadingLemmas::numbers_none, crate::proofs::LeadingLemmas::numbers_end, crate::proofs::LeadingLemmas::first_shorter))]
fn numbers<'a>(words: Words, scratch: &'a mut Scratch) -> Option<Values<'a, u64>>
    requires { length words ≤ 1025 }
    ensures { result ≡ numbers words.entry }
{
    let mut rest = words;
    scratch.clear();
    while !rest.is_empty() {
        let Some(value) = rest.next_number() else {
            return None;
        };
        scratch.push(value);
    }
    Some(Values {
        items: scratch.as_slice(),
    })
}

/// A number with the letter of its kind, and any number of numbers after it.
#[inline(always)]
#[tactic(auto, using(crate::proofs::LeadingLemmas::with_values_read, crate::proofs::LeadingLemmas::tagged_shorter))]
pub(crate) fn with_values<'a>(
    letter: u8,
    words: Words,
    scratch: &'a mut Scratch,
) -> Option<(u64, Values<'a, u64>)>
    requires { length words ≤ 1025 }
    ensures { result ≡ with_values letter words.entry }
{
    let mut words = words;
    let made = words.next_numbered(letter)?;
    let values = numbers(words, scratch)?;
    Some((made, values))
}

/// The port that a single word names.
#[inline(always)]
pub(crate) fn port(words: Words) -> Option<PortNumber>
    ensures { result ≡ port_of words.entry }
{
    if let Some(publisher) = only(b'p', words.again()) {
        return Some(PortNumber::Publisher(publisher));
    }
    match only(b's', words) {
        Some(subscriber) => Some(PortNumber::Subscriber(subscriber)),
        None => None,
    }
}
