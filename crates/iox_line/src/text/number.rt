//! Numbers, and numbers with the letter of their kind.
ghost use Rattle.std.specs.Prelude.{◌≡◌, ◌∷◌, ◌+◌, ◌-◌, ◌*◌, ◌≤◌, ◌↔◌, IsTrue, Some, None, if◌then◌else◌};
ghost use Rattle.std.specs.Option.{option_map};
ghost use Rattle.iox_line.specs.Numbers.{is_digit, below_limit, digits_from, number_of, tagged, number_and_rest};
ghost use Rattle.iox_line.specs.Words.{before, beyond};

/// The largest number that can take one more digit, whichever it is, is one less.
const TENTH: u64 = u64::MAX / 10;

/// The last digit of the largest number.
const LAST_DIGIT: u64 = u64::MAX % 10;

/// The number that a word spells: decimal, without leading zeros, below 2^64.
pub fn number(word: &[u8]) -> Option<u64>
    ensures { result ≡ number_of word.now }
{
    match word {
        [] => None,
        [b'0', _, ..] => None,
        _ => digits(word),
    }
}

/// The number that the bytes before the first separator spell, and the text after that separator, if there is one. Each byte is read once.
#[inline(always)]
pub fn leading_number(text: &[u8], separator: u8) -> Option<(u64, Option<&[u8]>)>
    ensures { option_map (λ read. (read.0, option_map (λ rest. rest.now) read.1)) result
        ≡ number_and_rest (number_of (before separator text.now)) (beyond separator text.now) }
{
    let [first, rest @ ..] = text else {
        return None;
    };
    if *first == separator {
        return None;
    }
    if *first == b'0' {
        return alone(rest, separator);
    }
    let front = with_digit(0, *first)?;
    leading_digits(front, rest, separator)
}

/// The number that the bytes before the first separator spell after the letter of its kind, and the text after that separator, if there is
/// one. Each byte is read once.
#[inline(always)]
pub fn leading_numbered(letter: u8, text: &[u8], separator: u8) -> Option<(u64, Option<&[u8]>)>
    ensures { option_map (λ read. (read.0, option_map (λ rest. rest.now) read.1)) result
        ≡ number_and_rest (tagged letter (before separator text.now)) (beyond separator text.now) }
{
    let [first, digits @ ..] = text else {
        return None;
    };
    if *first != letter || letter == separator {
        return None;
    }
    leading_number(digits, separator)
}

/// Zero, and the text after the separator, if the text begins with a separator or has no bytes.
#[inline(always)]
fn alone(text: &[u8], separator: u8) -> Option<(u64, Option<&[u8]>)>
    ensures { option_map (λ read. (read.0, option_map (λ rest. rest.now) read.1)) result
        ≡ number_and_rest (number_of (48 ∷ before separator text.now)) (beyond separator text.now) }
{
    let [next, rest @ ..] = text else {
        return Some((0, None));
    };
    if *next != separator {
        return None;
    }
    Some((0, Some(rest)))
}

/// The number of these digits and of those before the first separator, and the text after that separator, if there is one.
#[inline(always)]
fn leading_digits(front: u64, text: &[u8], separator: u8) -> Option<(u64, Option<&[u8]>)>
    ensures { option_map (λ read. (read.0, option_map (λ rest. rest.now) read.1)) result
        ≡ number_and_rest (below_limit (digits_from front (before separator text.now))) (beyond separator text.now) }
{
    let mut value = front;
    for end in 0..text.len() {
        let byte = text[end];
        if byte == separator {
            return Some((value, Some(&text[end + 1..])));
        }
        let Some(next) = with_digit(value, byte) else {
            return None;
        };
        value = next;
    }
    Some((value, None))
}

/// The number with one more digit, if the byte is a digit and the number stays below 2^64.
#[inline(always)]
fn with_digit(value: u64, byte: u8) -> Option<u64>
    ensures { result ≡ (if is_digit byte then below_limit (Some (value * 10 + (byte - 48))) else None) }
{
    if !is_digit(byte) {
        return None;
    }
    let digit = u64::from(byte - b'0');
    if value >= TENTH && (value > TENTH || digit > LAST_DIGIT) {
        return None;
    }
    Some(value * 10 + digit)
}

fn digits(word: &[u8]) -> Option<u64>
    ensures { result ≡ below_limit (digits_from 0 word.now) }
{
    let mut value: u64 = 0;
    for &digit in word {
        let Some(next) = with_digit(value, digit) else {
            return None;
        };
        value = next;
    }
    Some(value)
}

fn is_digit(byte: u8) -> bool
    ensures value { result ≡ is_digit byte }
    ensures range { IsTrue result ↔ ((48 ≤ byte) × (byte ≤ 57)) }
{
    48 <= byte && byte <= 57
}

/// The number that a word spells after the letter of its kind.
pub fn numbered(letter: u8, word: &[u8]) -> Option<u64>
    ensures { result ≡ tagged letter word.now }
{
    match word {
        [first, rest @ ..] => { if *first == letter { number(rest) } else { None } }
        [] => None,
    }
}
