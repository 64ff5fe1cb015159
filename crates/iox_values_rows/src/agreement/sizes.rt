//! Descriptions, attributes and their copies of all sizes, with ample memory.
use crate::agreement::lines::is_read;
use crate::answers::all;
use iox_describe::{
    AttributeError, AttributeSpecifier, AttributeVerifier, Description, Header, LimitError,
    MessageTypeDetails, ServiceName, Settings, TypeDetail, TypeVariant, decode, encode, encode_v1,
    publish_subscribe,
};
use std::alloc::{AllocError, Global};
use std::test::Fail;

// The key of each attribute.
const KEY: [u8; 64] = [b'k'; 64];

// The longest value of an attribute; a line encodes each of its bytes as six.
const VALUE: [u8; 256] = [1; 256];

/// `count` attributes, each with a key of 64 bytes and a value of `value` bytes; a line encodes each byte of a value as six.
pub(crate) fn attributes(
    alloc: Global,
    count: usize,
    value: usize,
) -> Result<AttributeSpecifier, AttributeError> {
    let mut attributes = AttributeSpecifier::new();
    for _ in 0..count {
        attributes.define(alloc, &KEY, &VALUE[..value.min(256)])?;
    }
    Ok(attributes)
}

/// A requirement of the pairs and of the keys of these attributes, `count` of each.
pub(crate) fn requirements(
    alloc: Global,
    count: usize,
    value: usize,
) -> Result<AttributeVerifier, AttributeError> {
    let mut verifier = AttributeVerifier::new();
    for _ in 0..count {
        verifier.require(alloc, &KEY, &VALUE[..value.min(256)])?;
        verifier.require_key(alloc, &KEY)?;
    }
    Ok(verifier)
}

/// The number of bytes of the service's name and of the payload type's name, the number of attributes, the number of bytes of each
/// value, and the number of bytes of the line.
type Row = (usize, usize, usize, usize);

// A line without attributes has 553 bytes besides its two names. Each attribute has 71 bytes besides its value, and all but the last
// are followed by a comma.
const ROWS: [Row; 13] = [
    (1, 0, 0, 555),
    (2, 0, 0, 557),
    (7, 1, 0, 567 + 71),
    (33, 1, 0, 619 + 71),
    (64, 1, 1, 681 + 77),
    (255, 1, 256, 1_063 + 71 + 1_536),
    (1, 2, 0, 555 + 143),
    (1, 2, 2, 555 + 143 + 24),
    (1, 7, 7, 555 + 503 + 294),
    (255, 7, 256, 1_063 + 503 + 10_752),
    (1, 8, 0, 555 + 575),
    (1, 8, 64, 555 + 575 + 3_072),
    (255, 8, 256, 1_063 + 575 + 12_288),
];

// The longest name.
const NAME: [u8; 255] = [b'x'; 255];

/// The description that a row says.
fn described(alloc: Global, (name, count, value, _): Row) -> Result<Description, Fail> {
    let type_name = &NAME[..name.min(255)];
    let name = ServiceName::new(type_name)?;
    let attributes = attributes(alloc, count, value)?;
    let mut types = MessageTypeDetails::from::<Header, u64, u64>(TypeVariant::Dynamic);
    types.payload = TypeDetail::new(TypeVariant::Dynamic, type_name, 8, 8)?;
    let settings = Settings::PublishSubscribe(publish_subscribe::StaticConfig::new(types));
    Ok(Description::new(name, settings, attributes))
}

/// The length of the description's line. Before, the description is copied, and read from this line and from its version 1 line.
fn length(alloc: Global, description: &Description) -> Result<usize, Fail> {
    let _ = description.try_clone(alloc)?;
    let first = encode_v1(alloc, description)?;
    let _ = decode(alloc, first.as_slice())?;
    let line = encode(alloc, description)?;
    let _ = decode(alloc, line.as_slice())?;
    Ok(line.len())
}

/// The length of the line of a row.
fn length_of(alloc: Global, row: Row) -> Result<usize, Fail> {
    length(alloc, &described(alloc, row)?)
}

/// Whether `length` spaces are refused.
fn is_blank(alloc: Global, length: usize) -> Result<bool, AllocError> {
    let bytes = vec![in alloc; b' '; length]?;
    Ok(!is_read(alloc, bytes.as_slice())?)
}

/// Whether this is so for each length.
fn are_blank(alloc: Global) -> Result<bool, AllocError> {
    all(&[
        is_blank(alloc, 0),
        is_blank(alloc, 1),
        is_blank(alloc, 2),
        is_blank(alloc, 7),
        is_blank(alloc, 64),
        is_blank(alloc, 1_000),
        is_blank(alloc, 12_000),
        is_blank(alloc, 32_768),
        is_blank(alloc, 32_769),
        is_blank(alloc, 100_000),
    ])
}

#[test]
fn descriptions_of_all_sizes_are_read_back(rt: HostRuntime) -> Result<(), Fail> {
    assert!(rt; are_blank(rt.alloc())?);
    for row in &ROWS {
        let length = length_of(rt.alloc(), *row)?;
        assert!(rt; length == row.3, "{row:?} {length}");
    }
    Ok(())
}
