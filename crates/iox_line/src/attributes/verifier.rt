//! The attributes that words require.
ghost use Rattle.std.specs.Prelude.{◌≡◌, [], ◌∷◌, ◌++◌, false};
ghost use Rattle.iox_describe_base.specs.Attributes.{required};
ghost use Rattle.iox_line.specs.Memory.{MayLack};
ghost use Rattle.iox_line.specs.AttributesReading.{verifier_of, requires_some};

use crate::attributes::part::{WrittenKey, WrittenPair, key, pair};
use crate::text::Words;
use iox_describe_base::AttributeVerifier;
use iox_describe_base::limits::MAX_ATTRIBUTES;
use std::alloc::{AllocError, Global};

/// The attributes that these words require; `None` if a word is neither a pair nor a key, or there are more than 8 of either.
///
/// Fails if an allocation fails, and only if the words require at least one pair or key: an empty list takes no memory, and it takes no
/// memory to find that words aren't a requirement.
pub fn required_attributes(
    alloc: Global,
    words: Words,
) -> Result<Option<AttributeVerifier>, AllocError>
    ensures { MayLack requires_some (verifier_of words.entry) result }
{
    let mut words = words;
    let mut verifier = AttributeVerifier::new();
    let mut pairs: usize = 0;
    let mut keys: usize = 0;
    let mut lacking = false;
    while let Some(word) = words.next() {
        if let Some(pair) = pair(word) {
            if pairs >= MAX_ATTRIBUTES {
                return Ok(None);
            }
            pairs += 1;
            lacking = require(alloc, &pair, &mut verifier, lacking);
        } else {
            let Some(key) = key(word) else {
                return Ok(None);
            };
            if keys >= MAX_ATTRIBUTES {
                return Ok(None);
            }
            keys += 1;
            lacking = require_key(alloc, &key, &mut verifier, lacking);
        }
    }
    if lacking {
        return Err(AllocError);
    }
    Ok(Some(verifier))
}

/// Requires a pair, unless an allocation failed; returns whether one failed so far. After a failure the reading continues, so that a faulty
/// line is still found.
fn require(
    alloc: Global,
    pair: &WrittenPair,
    verifier: &mut AttributeVerifier,
    lacking: bool,
) -> bool
    ensures { result ≡ false → (lacking ≡ false) × (verifier.new ≡ required (verifier.old.pairs ++ pair.now ∷ []) verifier.old.keys) }
{
    lacking || verifier.require(alloc, pair.key(), pair.value()).is_err()
}

/// Requires a key, unless an allocation failed; returns whether one failed so far.
fn require_key(
    alloc: Global,
    key: &WrittenKey,
    verifier: &mut AttributeVerifier,
    lacking: bool,
) -> bool
    ensures { result ≡ false → (lacking ≡ false) × (verifier.new ≡ required verifier.old.pairs (verifier.old.keys ++ key.now ∷ [])) }
{
    lacking || verifier.require_key(alloc, key.as_bytes()).is_err()
}
