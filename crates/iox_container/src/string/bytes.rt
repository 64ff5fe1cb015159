//! Functions on bytes that may not be a text.
ghost use Rattle.std.specs.Prelude.{◌≡◌, ◌<◌, ◌++◌, ◌↔◌, length, IsTrue, IsOk, IfOk, OnOk, string_bytes};
ghost use Rattle.std.specs.List.{flat_map};
ghost use Rattle.iox_container.specs.Bytes.{EndsAtZero, escape_of, hex_digit as digit_of};
ghost use Rattle.iox_container.specs.StringBytes.{IsStringBytes};

use std::alloc::{AllocError, Allocator};

/// Whether each byte is one that a string may hold, in 1..=127.
pub fn are_string_bytes(bytes: &[u8]) -> bool
    ensures { IsTrue result ↔ IsStringBytes bytes.now }
{
    bytes.iter().all(|&byte| 1 <= byte && byte <= 127)
}

/// How many bytes come before the first zero; the number of all bytes if there is no zero.
///
/// Ported from `iceoryx2_bb_container::string::strnlen`.
pub fn strnlen(bytes: &[u8]) -> usize
    ensures { EndsAtZero bytes.now result }
{
    bytes
        .iter()
        .position(|&byte| byte == 0)
        .unwrap_or(bytes.len())
}

/// The bytes as printable text: tab, line ends, quotes and the backslash are escaped with a backslash, printable bytes are kept, and every
/// other byte becomes `\x` and two lower-case hexadecimal digits. It fails only if an allocation fails, and never for no bytes.
///
/// Ported from `iceoryx2_bb_container::string::as_escaped_string`.
pub fn as_escaped_string<A: Allocator>(alloc: A, bytes: &[u8]) -> Result<String<A>, AllocError>
    ensures text { IfOk result (λ text. string_bytes text ≡ flat_map escape_of bytes.now) }
    ensures succeeds { length bytes.now ≡ 0 → IsOk result }
{
    let mut text = String::new(alloc);
    for &byte in bytes {
        push_escaped(&mut text, byte)?;
    }
    Ok(text)
}

fn push_escaped<A: Allocator>(text: &mut String<A>, byte: u8) -> Result<(), AllocError>
    ensures { OnOk result (string_bytes text.new ≡ string_bytes text.old ++ escape_of byte) }
{
    match byte {
        b'\t' => text.push_str("\\t"),
        b'\n' => text.push_str("\\n"),
        b'\r' => text.push_str("\\r"),
        b'"' => text.push_str("\\\""),
        b'\'' => text.push_str("\\'"),
        b'\\' => text.push_str("\\\\"),
        0x20..=0x7e => text.push(char::from(byte)),
        _ => {
            text.push_str("\\x")?;
            text.push(hex_digit(byte / 16))?;
            text.push(hex_digit(byte % 16))
        }
    }
}

fn hex_digit(digit: u8) -> char
    requires { digit < 16 }
    ensures value { result ≡ digit_of digit }
    ensures ascii { result < 128 }
{
    char::from(if digit < 10 {
        b'0' + digit
    } else {
        b'a' + (digit - 10)
    })
}
