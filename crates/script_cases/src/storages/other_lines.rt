//! What may be stored under the hash of a service instead of its line.
use super::{NAME, published_line};
use std::alloc::{AllocError, Global};

// No description has this many bytes.
const TOO_LONG: usize = 32_769;

// What stands before a line's hash.
const KEY: &str = "\"service_hash\":\"";

// What stands before the hash of a line, the hash, and what stands after it.
fn at_hash(line: &[u8]) -> Option<(&str, &str, &str)> {
    let (before, rest) = str::from_utf8(line).ok()?.split_once(KEY)?;
    let (hash, behind) = rest.split_once('"')?;
    Some((before, hash, behind))
}

// A line with the hash of another.
fn under_hash(alloc: Global, line: &[u8], other: &[u8]) -> Result<Vec<u8>, AllocError> {
    let Some(((before, _, behind), (_, hash, _))) = at_hash(line).zip(at_hash(other)) else {
        return Ok(Vec::new(alloc));
    };
    Ok(format!(in alloc; "{before}{KEY}{hash}\"{behind}")?.into_bytes())
}

// Another pattern.
fn pattern_beside(pattern: &str) -> &'static str {
    match pattern {
        "ps" => "ev",
        "ev" => "rr",
        _ => "ps",
    }
}

// The pattern with other types, as an answer says: of messages, of requests or of responses; or of messages with a larger alignment.
fn types_beside(pattern: &str, answers: &str) -> &'static str {
    match pattern {
        "ps16" => "ps",
        "ps" if answers.contains("FoundAligned") => "ps16",
        "ps" => "ps4",
        _ if answers.contains("FoundRequests") => "rq4",
        _ => "rs4",
    }
}

/// What a lookup finds, by the answer that a line names. `FoundOther` is the line of another service. All others have the hash of the
/// service: `FoundName` has another name, `FoundPattern` another pattern; `FoundTypes`, `FoundAligned`, `FoundRequests` and
/// `FoundResponses` have other types; and `FoundLong` has no description.
pub(crate) fn other_line(
    alloc: Global,
    pattern: &str,
    answers: &str,
    line: &[u8],
) -> Result<Vec<u8>, AllocError> {
    if answers.contains("FoundLong") {
        return vec![in alloc; b' '; TOO_LONG];
    }
    if answers.contains("FoundPattern") {
        let other = published_line(alloc, pattern_beside(pattern), NAME)?;
        return under_hash(alloc, other.as_slice(), line);
    }
    let other = published_line(alloc, pattern, "B")?;
    if answers.contains("FoundName") {
        return under_hash(alloc, other.as_slice(), line);
    }
    if answers.contains("FoundOther") {
        return Ok(other);
    }
    published_line(alloc, types_beside(pattern, answers), NAME)
}
