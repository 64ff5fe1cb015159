//! Switches, numbers that can be off, patterns and names.
ghost use Rattle.std.specs.Prelude.{◌≡◌};
ghost use Rattle.iox_line.specs.Words.{same};
ghost use Rattle.iox_line.specs.Options.{find, named};
ghost use Rattle.iox_line.specs.ServicesReading.{switch_of, number_or_off_of, pattern_named, name_of};

use crate::text::Words;
use crate::text::number::number;
use crate::text::options::find;
use crate::text::visible::is_visible_text;
use crate::text::words::is;
use iox_command::NumberOrOff;
use iox_describe_base::limits::MAX_SERVICE_NAME_LENGTH;
use iox_describe_base::{MessagingPattern, ServiceName};

/// The switch that a word spells: `0` or `1`.
pub fn switch(word: &[u8]) -> Option<bool>
    ensures { result ≡ switch_of word.now }
{
    if is(word, b"0") {
        Some(false)
    } else if is(word, b"1") {
        Some(true)
    } else {
        None
    }
}

/// The switch that an option is set to, if the option is named; `None` if its text isn't a switch.
pub fn named_switch(key: &[u8], words: &Words) -> Option<Option<bool>>
    ensures { result ≡ named switch_of (find key.now words.now) }
{
    match find(key, words) {
        None => Some(None),
        Some(text) => match switch(text) {
            Some(value) => Some(Some(value)),
            None => None,
        },
    }
}

/// The number that a word spells, or `Off` if the word is `off`.
pub fn number_or_off(word: &[u8]) -> Option<NumberOrOff>
    ensures { result ≡ number_or_off_of word.now }
{
    if is(word, b"off") {
        return Some(NumberOrOff::Off);
    }
    match number(word) {
        Some(value) => Some(NumberOrOff::Number(value)),
        None => None,
    }
}

/// The number or `Off` that an option is set to, if the option is named; `None` if its text is neither.
pub fn named_number_or_off(key: &[u8], words: &Words) -> Option<Option<NumberOrOff>>
    ensures { result ≡ named number_or_off_of (find key.now words.now) }
{
    match find(key, words) {
        None => Some(None),
        Some(text) => match number_or_off(text) {
            Some(value) => Some(Some(value)),
            None => None,
        },
    }
}

/// The pattern that a word spells: `ps`, `ev` or `rr`.
pub fn pattern(word: &[u8]) -> Option<MessagingPattern>
    ensures { result ≡ pattern_named word.now }
{
    if is(word, b"ps") {
        Some(MessagingPattern::PublishSubscribe)
    } else if is(word, b"ev") {
        Some(MessagingPattern::Event)
    } else if is(word, b"rr") {
        Some(MessagingPattern::RequestResponse)
    } else {
        None
    }
}

/// The name that a word spells; `None` if it has no bytes or more than 255, or a byte outside 0x21..=0x7E.
pub fn name(word: &[u8]) -> Option<ServiceName>
    ensures { result ≡ name_of word.now }
{
    if !is_visible_text(1, MAX_SERVICE_NAME_LENGTH, word) {
        return None;
    }
    match ServiceName::new(word) {
        Ok(name) => Some(name),
        Err(_) => None,
    }
}
