//! The words of a line, one after the other, and other pieces of a text.
ghost use Rattle.std.specs.Prelude.{◌≡◌, ◌<◌, ◌==◌, [], ◌∷◌, None, length, IfSome};
ghost use Rattle.std.specs.Option.{option_map};
ghost use Rattle.iox_line.specs.Numbers.{number_first, tagged_first};
ghost use Rattle.iox_line.specs.Words.{words_of, pieces_of, pieces_left, before, beyond, begins, front, back, marked_from, no_words, same};

use crate::text::number::{leading_number, leading_numbered};
use std::marker::Model;

/// The words of a line that are still to be read, between its spaces; or the pieces of a text between other bytes. Contracts see the list
/// of these words.
///
/// Not in `iceoryx2`.
#[derive(Drop)]
pub struct Words<'a> {
    text: Option<&'a [u8]>,
    separator: u8,
}

impl<'a> Model for Words<'a> {
    ghost use Rattle.std.specs.Prelude.{ℕ, List};
    ghost use Rattle.std.specs.Option.{option_map};
    ghost use Rattle.iox_line.specs.Words.{pieces_left};

    ghost Value = { List (List ℕ) };

    ghost view = { λ words. pieces_left words.separator (option_map (λ text. text.now) words.text) };
}

impl<'a> Words<'a> {
    /// All words of a line.
    pub fn new(line: &'a [u8]) -> Self
        ensures { result ≡ words_of line.now }
    {
        Words {
            text: Some(line),
            separator: b' ',
        }
    }

    /// The pieces of a text between bytes of this kind; no pieces if there is no text.
    pub fn pieces(text: Option<&'a [u8]>, separator: u8) -> Self
        ensures { result ≡ pieces_left separator (option_map (λ text. text.now) text.entry) }
    {
        Words { text, separator }
    }

    /// The same words, to be read once more.
    pub fn again(&self) -> Self
        ensures { result ≡ self.now }
    {
        Words {
            text: self.text,
            separator: self.separator,
        }
    }

    /// Whether no word is left.
    #[tactic(auto, using(crate::proofs::SpacedLemmas::text_has_words))]
    pub fn is_empty(&self) -> bool
        ensures { result ≡ no_words self.now }
    {
        match self.text {
            None => true,
            Some(_) => false,
        }
    }

    /// Takes the next word, if one is left.
    pub fn next(&mut self) -> Option<&'a [u8]>
        ensures none { result ≡ None → (self.old ≡ []) × (self.new ≡ []) }
        ensures some { IfSome result (λ word. self.old ≡ word.now ∷ self.new) }
    {
        let Some(text) = self.text else {
            return None;
        };
        let (word, rest) = split(text, self.separator);
        self.text = rest;
        Some(word)
    }

    /// Takes the next word, if one is left and it spells a number. Each of its bytes is read once.
    #[inline(always)]
    pub fn next_number(&mut self) -> Option<u64>
        ensures { number_first self.old ≡ option_map (λ value. (value, self.new)) result }
    {
        let Some(text) = self.text else {
            return None;
        };
        let (value, rest) = leading_number(text, self.separator)?;
        self.text = rest;
        Some(value)
    }

    /// Takes the next word, if one is left and it spells a number after the letter of its kind. Each of its bytes is read once.
    #[inline(always)]
    pub fn next_numbered(&mut self, letter: u8) -> Option<u64>
        ensures { tagged_first letter self.old ≡ option_map (λ value. (value, self.new)) result }
    {
        let Some(text) = self.text else {
            return None;
        };
        let (value, rest) = leading_numbered(letter, text, self.separator)?;
        self.text = rest;
        Some(value)
    }

    /// The words before the first one that begins with this byte, and the others.
    pub fn cut(&self, mark: u8) -> (Words<'a>, Words<'a>)
        ensures front { result.0 ≡ front mark self.now }
        ensures back { result.1 ≡ back mark self.now }
    {
        let (before, after) = match self.text {
            Some(text) => cut_text(mark, self.separator, text),
            None => (None, None),
        };
        (
            Words::pieces(before, self.separator),
            Words::pieces(after, self.separator),
        )
    }

    /// Whether exactly this many words are left.
    pub fn are(&self, count: usize) -> bool
        ensures { result ≡ (length self.now == count) }
    {
        let mut rest = self.again();
        for _ in 0..count {
            if rest.next().is_none() {
                return false;
            }
        }
        rest.is_empty()
    }
}

/// The bytes before the first separator, and those after it, if there is one.
pub fn split(text: &[u8], separator: u8) -> (&[u8], Option<&[u8]>)
    ensures first { result.0.now ≡ before separator text.now }
    ensures rest { option_map (λ text. text.now) result.1 ≡ beyond separator text.now }
    ensures pieces { pieces_of separator text.now ≡ result.0.now ∷ pieces_left separator (option_map (λ text. text.now) result.1) }
{
    for end in 0..text.len() {
        if text[end] == separator {
            return (&text[..end], Some(&text[end + 1..]));
        }
    }
    (text, None)
}

/// Whether the first byte is this one.
pub fn begins(mark: u8, text: &[u8]) -> bool
    ensures { result ≡ begins mark text.now }
{
    match text {
        [first, ..] => *first == mark,
        [] => false,
    }
}

/// The text with the pieces before the first one that begins with the mark, and the text with the others.
fn cut_text(mark: u8, separator: u8, text: &[u8]) -> (Option<&[u8]>, Option<&[u8]>)
    ensures front { pieces_left separator (option_map (λ text. text.now) result.0) ≡ front mark (pieces_of separator text.now) }
    ensures back { pieces_left separator (option_map (λ text. text.now) result.1) ≡ back mark (pieces_of separator text.now) }
{
    if separator == mark {
        return (Some(text), None);
    }
    if begins(mark, text) {
        return (None, Some(text));
    }
    match marked_place(mark, separator, text) {
        Some(place) => (Some(&text[..place]), Some(&text[place + 1..])),
        None => (Some(text), None),
    }
}

/// The place of the first separator that has the mark after it.
fn marked_place(mark: u8, separator: u8, text: &[u8]) -> Option<usize>
    ensures place { result ≡ marked_from mark separator 0 text.now }
    ensures within { IfSome result (λ place. place < length text.now) }
{
    for place in 0..text.len() {
        if text[place] == separator && begins(mark, &text[place + 1..]) {
            return Some(place);
        }
    }
    None
}

/// Whether a word is this text, byte by byte.
pub fn is(word: &[u8], text: &[u8]) -> bool
    ensures { result ≡ same word.now text.now }
{
    word == text
}
