//! One word of attributes.
ghost use Rattle.std.specs.Prelude.{◌≡◌, ◌&&◌};
ghost use Rattle.iox_line.specs.Visible.{is_visible_text};
ghost use Rattle.iox_line.specs.AttributesReading.{pair_of, key_of};

use crate::text::options::after;
use crate::text::visible::is_visible_text;
use crate::text::words::split;
use iox_describe_base::limits::{MAX_ATTRIBUTE_KEY_LENGTH, MAX_ATTRIBUTE_VALUE_LENGTH};
use std::marker::Model;

/// A key and a value in a line. Contracts see it as an attribute.
///
/// Not in `iceoryx2`.
#[derive(Drop)]
pub struct WrittenPair<'a> {
    key: &'a [u8],
    value: &'a [u8],
}

impl<'a> Model for WrittenPair<'a> {
    ghost use Rattle.iox_describe_base.specs.declared.attribute.Attribute.{Attribute};
    ghost use Rattle.iox_describe_base.specs.Attributes.{attribute};

    ghost Value = { Attribute };

    ghost view = { λ pair. attribute pair.key.now pair.value.now };
}

/// A key in a line. Contracts see it as its bytes.
///
/// Not in `iceoryx2`.
#[derive(Drop)]
pub struct WrittenKey<'a> {
    bytes: &'a [u8],
}

impl<'a> Model for WrittenKey<'a> {
    ghost use Rattle.std.specs.Prelude.{ℕ, List};

    ghost Value = { List ℕ };

    ghost view = { λ key. key.bytes.now };
}

impl<'a> WrittenPair<'a> {
    /// The bytes of the key.
    pub fn key(&self) -> &'a [u8]
        ensures { result.now ≡ self.now.key }
    {
        self.key
    }

    /// The bytes of the value.
    pub fn value(&self) -> &'a [u8]
        ensures { result.now ≡ self.now.value }
    {
        self.value
    }
}

impl<'a> WrittenKey<'a> {
    /// The bytes of the key.
    pub fn as_bytes(&self) -> &'a [u8]
        ensures { result.now ≡ self.now }
    {
        self.bytes
    }
}

/// The pair that a word spells: `@`, a key of 1 to 64 bytes, the first `=`, and a value of at most 256 bytes; each byte is one of
/// 0x21..=0x7E.
pub fn pair<'a>(word: &'a [u8]) -> Option<WrittenPair<'a>>
    ensures { result ≡ pair_of word.now }
{
    let Some(text) = after(b"@", word) else {
        return None;
    };
    let (key, value) = split(text, b'=');
    let Some(value) = value else {
        return None;
    };
    if are_within(key, value) {
        Some(WrittenPair { key, value })
    } else {
        None
    }
}

/// The key that a word spells: `@`, and 1 to 64 bytes of 0x21..=0x7E without `=`.
pub fn key<'a>(word: &'a [u8]) -> Option<WrittenKey<'a>>
    ensures { result ≡ key_of word.now }
{
    let Some(text) = after(b"@", word) else {
        return None;
    };
    let (bytes, value) = split(text, b'=');
    if value.is_none() && is_visible_text(1, MAX_ATTRIBUTE_KEY_LENGTH, bytes) {
        Some(WrittenKey { bytes })
    } else {
        None
    }
}

fn are_within(key: &[u8], value: &[u8]) -> bool
    ensures { result ≡ (is_visible_text 1 64 key.now && is_visible_text 0 256 value.now) }
{
    is_visible_text(1, MAX_ATTRIBUTE_KEY_LENGTH, key)
        && is_visible_text(0, MAX_ATTRIBUTE_VALUE_LENGTH, value)
}
