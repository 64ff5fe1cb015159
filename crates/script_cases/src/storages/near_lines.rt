//! Texts that are nearly the line of a service: its parts, and lines with one byte changed or a space inserted.
use super::answering::Answering;
use super::{NAME, called, published_line};
use iox_describe::{ServiceHash, decode, encode_v1};
use std::alloc::{AllocError, Global};

// Whether a service can't be opened where these bytes lie in place of its line, as they are corrupted.
fn is_corrupted(alloc: Global, pattern: &str, bytes: &[u8]) -> Result<bool, AllocError> {
    let mut storage = Answering::new(alloc, "Found Registered", bytes, &[]);
    let text = called(alloc, ("open", pattern, NAME), &mut storage)?;
    Ok(text.as_str() == "ServiceInCorruptedState")
}

// These bytes with others in place of some.
fn changed(
    alloc: Global,
    line: &[u8],
    (from, to): (usize, usize),
    others: &[u8],
) -> Result<Vec<u8>, AllocError> {
    let (from, to) = (from.min(line.len()), to.min(line.len()));
    [&line[..from], others, &line[to..]].concat(alloc)
}

// Whether a string has begun in these bytes, and not ended.
fn is_inside(bytes: &[u8]) -> bool {
    let mut is_inside = false;
    for byte in bytes {
        is_inside = is_inside != (*byte == b'"');
    }
    is_inside
}

// The service of which a line is a description.
fn hash_in(alloc: Global, line: &[u8]) -> Option<ServiceHash> {
    match decode(alloc, line) {
        Ok(description) => Some(*description.service_hash()),
        Err(_) => None,
    }
}

// One where a line with others in place of some of its bytes isn't corrupted. Where a byte was changed, one where it is corrupted though it
// describes the service, or isn't though it doesn't.
fn amiss(
    alloc: Global,
    (verb, pattern): (&str, &str),
    line: &[u8],
    place: (usize, usize),
    others: &[u8],
) -> Result<usize, AllocError> {
    let bytes = changed(alloc, line, place, others)?;
    let bytes = bytes.as_slice();
    let describes = verb == "bytes" && hash_in(alloc, bytes) == hash_in(alloc, line);
    Ok(usize::from(is_corrupted(alloc, pattern, bytes)? == describes))
}

// How many changes of a byte of a line, to one of a few others, are amiss.
fn amiss_bytes(
    alloc: Global,
    asked: (&str, &str),
    line: &[u8],
    place: usize,
) -> Result<usize, AllocError> {
    let changed = (place, place.saturating_add(1));
    let mut count = 0usize;
    for byte in b"0\"}" {
        count = count.saturating_add(amiss(alloc, asked, line, changed, &[*byte])?);
    }
    Ok(count)
}

// How many lines that differ from a line at a place are amiss: what stands before it and isn't all of the line; the line with a space
// more there, outside its strings; and the line with another byte there.
fn amiss_at(
    alloc: Global,
    asked: (&str, &str),
    line: &[u8],
    place: usize,
) -> Result<usize, AllocError> {
    let all = line.len();
    match asked.0 {
        "prefixes" if place < all => amiss(alloc, asked, line, (place, all), b""),
        "spaces" if !is_inside(&line[..place.min(all)]) => {
            amiss(alloc, asked, line, (place, place), b" ")
        }
        "bytes" => amiss_bytes(alloc, asked, line, place),
        _ => Ok(0),
    }
}

// How many lines near a line are amiss.
fn count_amiss(alloc: Global, asked: (&str, &str), line: &[u8]) -> Result<usize, AllocError> {
    let mut count = 0usize;
    for place in 0..=line.len() {
        count = count.saturating_add(amiss_at(alloc, asked, line, place)?);
    }
    Ok(count)
}

// The line that a service is published with, or that of version 1.
fn line_of(alloc: Global, pattern: &str, version: &str) -> Result<Vec<u8>, AllocError> {
    let line = published_line(alloc, pattern, NAME)?;
    if version != "1" {
        return Ok(line);
    }
    match decode(alloc, line.as_slice()) {
        Ok(description) => encode_v1(alloc, &description).or(Err(AllocError)),
        Err(_) => Err(AllocError),
    }
}

/// How often a service could be opened, or otherwise was amiss, with a part of its line or a line that is nearly it; `1` says
/// that it is the line of version 1.
pub(crate) fn amiss_lines(
    alloc: Global,
    verb: &str,
    pattern: &str,
    version: &str,
) -> Result<String, AllocError> {
    let line = line_of(alloc, pattern, version)?;
    let count = count_amiss(alloc, (verb, pattern), line.as_slice())?;
    format!(in alloc; "{count}")
}
