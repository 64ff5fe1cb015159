//! The JSON of strings, vectors and options: what is read from it, as a text and as a tree, and that what is written is read back. It
//! also has the escape of each byte.
use crate::answers::{all, hold, is_shown};
use iox_container::string::{StaticString, String, as_escaped_string};
use iox_container::vector::Vector;
use iox_container::{RelocatableOption, StaticVec};
use serde::{Deserialize, DeserializeOwned};
use serde_json::{Error, Value};
use std::alloc::{AllocError, Global};
use std::fmt::Debug;

/// Whether the error has these words; `refused` means any reason except the length.
fn is_refused(alloc: Global, error: &Error, words: &str) -> Result<bool, AllocError> {
    let told = format!(in alloc; "refused: {error}")?;
    Ok(told.contains(words) && (words != "refused" || !told.contains("longer than capacity")))
}

/// Whether a value was read that `Debug` shows as `answer`, or the error has these words.
fn is_told<T: Debug + Drop>(
    alloc: Global,
    read: Result<T, Error>,
    answer: &str,
) -> Result<bool, AllocError> {
    match read {
        Ok(value) => is_shown(alloc, &value, answer),
        Err(error) => is_refused(alloc, &error, answer),
    }
}

fn from_tree<T: DeserializeOwned>(alloc: Global, json: &str) -> Result<T, Error> {
    serde_json::from_value(alloc, Value::from_str(alloc, json)?)
}

/// Whether the JSON has this answer, read as a text and read as a tree.
fn is_read<'de, T: Deserialize<'de> + DeserializeOwned + Debug>(
    alloc: Global,
    json: &'de str,
    answer: &str,
) -> Result<bool, AllocError> {
    all(&[
        is_told(alloc, serde_json::from_str::<T>(alloc, json), answer),
        is_told(alloc, from_tree::<T>(alloc, json), answer),
    ])
}

/// Whether each row holds: JSON, and its answer.
fn are_read<'de, T: Deserialize<'de> + DeserializeOwned + Debug>(
    alloc: Global,
    rows: &[(&'de str, &str)],
) -> Result<bool, AllocError> {
    for row in rows {
        if !is_read::<T>(alloc, row.0, row.1)? {
            return Ok(false);
        }
    }
    Ok(true)
}

const STRINGS: [(&str, &str); 7] = [
    ("\"\"", "\"\""),
    ("\"n\"", "\"n\""),
    ("\"name\"", "\"name\""),
    ("\"names\"", "text longer than capacity"),
    ("\"\\u0000\"", "text byte outside 1..=127"),
    ("\"\u{e9}\"", "text byte outside 1..=127"),
    ("17", "refused"),
];

const LISTS_OF_THREE: [(&str, &str); 13] = [
    ("[]", "[]"),
    ("[7]", "[7]"),
    ("[7, 8]", "[7, 8]"),
    ("[7, 8, 9]", "[7, 8, 9]"),
    ("[7, 8, 9, 1]", "list longer than capacity"),
    ("7", "refused"),
    ("null", "refused"),
    ("{}", "refused"),
    ("[300]", "refused"),
    ("[7, 300]", "refused"),
    ("[\"7\"]", "refused"),
    ("[7, 8", "refused"),
    ("[7] 8", "refused"),
];

const LISTS_OF_SEVEN: [(&str, &str); 5] = [
    ("[9, 8, 7, 1]", "[9, 8, 7, 1]"),
    ("[5, 1, 4, 2, 3]", "[5, 1, 4, 2, 3]"),
    ("[3, 1, 4, 1, 5, 9, 2]", "[3, 1, 4, 1, 5, 9, 2]"),
    ("[1, 2, 3, 4, 5, 6, 300]", "refused"),
    ("[1, 2, 3, 4, 5, 6, 7, 8]", "list longer than capacity"),
];

const LISTS_OF_NONE: [(&str, &str); 2] = [("[]", "[]"), ("[7]", "list longer than capacity")];

const OPTIONS: [(&str, &str); 8] = [
    ("null", "None"),
    ("7", "Some(7)"),
    ("\"x\"", "refused"),
    ("300", "refused"),
    ("[]", "refused"),
    ("nul", "refused"),
    ("7 7", "refused"),
    ("", "refused"),
];

const LISTS_OF_STRINGS: [(&str, &str); 3] = [
    ("[\"name\"]", "[\"name\"]"),
    (
        "[\"d\", \"c\", \"b\", \"a\"]",
        "[\"d\", \"c\", \"b\", \"a\"]",
    ),
    ("[\"names\"]", "text longer than capacity"),
];

/// Each byte as it is escaped, 16 of them in a row.
const ESCAPES: [&str; 16] = [
    "\\x00\\x01\\x02\\x03\\x04\\x05\\x06\\x07\\x08\\t\\n\\x0b\\x0c\\r\\x0e\\x0f",
    "\\x10\\x11\\x12\\x13\\x14\\x15\\x16\\x17\\x18\\x19\\x1a\\x1b\\x1c\\x1d\\x1e\\x1f",
    " !\\\"#$%&\\'()*+,-./",
    "0123456789:;<=>?",
    "@ABCDEFGHIJKLMNO",
    "PQRSTUVWXYZ[\\\\]^_",
    "`abcdefghijklmno",
    "pqrstuvwxyz{|}~\\x7f",
    "\\x80\\x81\\x82\\x83\\x84\\x85\\x86\\x87\\x88\\x89\\x8a\\x8b\\x8c\\x8d\\x8e\\x8f",
    "\\x90\\x91\\x92\\x93\\x94\\x95\\x96\\x97\\x98\\x99\\x9a\\x9b\\x9c\\x9d\\x9e\\x9f",
    "\\xa0\\xa1\\xa2\\xa3\\xa4\\xa5\\xa6\\xa7\\xa8\\xa9\\xaa\\xab\\xac\\xad\\xae\\xaf",
    "\\xb0\\xb1\\xb2\\xb3\\xb4\\xb5\\xb6\\xb7\\xb8\\xb9\\xba\\xbb\\xbc\\xbd\\xbe\\xbf",
    "\\xc0\\xc1\\xc2\\xc3\\xc4\\xc5\\xc6\\xc7\\xc8\\xc9\\xca\\xcb\\xcc\\xcd\\xce\\xcf",
    "\\xd0\\xd1\\xd2\\xd3\\xd4\\xd5\\xd6\\xd7\\xd8\\xd9\\xda\\xdb\\xdc\\xdd\\xde\\xdf",
    "\\xe0\\xe1\\xe2\\xe3\\xe4\\xe5\\xe6\\xe7\\xe8\\xe9\\xea\\xeb\\xec\\xed\\xee\\xef",
    "\\xf0\\xf1\\xf2\\xf3\\xf4\\xf5\\xf6\\xf7\\xf8\\xf9\\xfa\\xfb\\xfc\\xfd\\xfe\\xff",
];

/// Whether the 16 bytes of a row are escaped as this text.
fn are_escaped(alloc: Global, row: usize, text: &str) -> Result<bool, AllocError> {
    let mut bytes = [0u8; 16];
    for (place, byte) in bytes.iter_mut().enumerate() {
        *byte = (row.saturating_mul(16).saturating_add(place) % 256) as u8;
    }
    Ok(as_escaped_string(alloc, &bytes)?.as_str() == text)
}

/// Whether each byte is escaped as its row says.
fn escapes(alloc: Global) -> Result<bool, AllocError> {
    for (row, text) in ESCAPES.iter().enumerate() {
        if !are_escaped(alloc, row, text)? {
            return Ok(false);
        }
    }
    Ok(true)
}

/// A list and a text of the same length.
type Pair = (StaticVec<u8, 1_000>, StaticString<1_000>);

/// Whether a pair that is written is read back.
fn comes_back(alloc: Global, pair: &Pair) -> Result<bool, AllocError> {
    let literal = format!(in alloc; "{pair:?}")?;
    match serde_json::to_string(alloc, pair) {
        Ok(json) => is_read::<Pair>(alloc, json.as_str(), literal.as_str()),
        Err(_) => Err(AllocError),
    }
}

/// Whether a pair of `len` sevens and `len` letters is.
fn are_of(alloc: Global, len: usize) -> Result<bool, AllocError> {
    let mut pair = (StaticVec::new(alloc)?, StaticString::new());
    let _ = pair.0.resize(len, 7);
    for _ in 0..len {
        let _ = pair.1.push(b'x');
    }
    comes_back(alloc, &pair)
}

#[test]
fn strings_vectors_and_options_go_through_their_text_forms(rt: HostRuntime) {
    let alloc: Global = rt.alloc();
    let answers = [
        are_read::<StaticString<4>>(alloc, &STRINGS),
        are_read::<StaticVec<u8, 3>>(alloc, &LISTS_OF_THREE),
        are_read::<StaticVec<u8, 7>>(alloc, &LISTS_OF_SEVEN),
        are_read::<StaticVec<u8, 0>>(alloc, &LISTS_OF_NONE),
        are_read::<RelocatableOption<u8>>(alloc, &OPTIONS),
        are_read::<StaticVec<StaticString<4>, 4>>(alloc, &LISTS_OF_STRINGS),
        are_of(alloc, 0),
        are_of(alloc, 1),
        are_of(alloc, 2),
        are_of(alloc, 7),
        are_of(alloc, 64),
        are_of(alloc, 1_000),
        escapes(alloc),
    ];
    hold(&rt, &answers);
}
