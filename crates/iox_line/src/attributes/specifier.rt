//! The attributes that words define.
ghost use Rattle.std.specs.Prelude.{◌≡◌, [], ◌∷◌, ◌++◌, false};
ghost use Rattle.iox_line.specs.Memory.{MayLack, some};
ghost use Rattle.iox_line.specs.AttributesReading.{specifier_of};

use crate::attributes::part::{WrittenPair, pair};
use crate::text::Words;
use iox_describe_base::AttributeSpecifier;
use iox_describe_base::limits::MAX_ATTRIBUTES;
use std::alloc::{AllocError, Global};

/// The attributes that these words define; `None` if a word isn't a pair, or there are more than 8.
///
/// Fails if an allocation fails, and only if the words define at least one attribute: an empty list takes no memory, and it takes no memory
/// to find that words don't define attributes.
pub fn defined_attributes(
    alloc: Global,
    words: Words,
) -> Result<Option<AttributeSpecifier>, AllocError>
    ensures { MayLack some (specifier_of words.entry) result }
{
    let mut words = words;
    let mut attributes = AttributeSpecifier::new();
    let mut count: usize = 0;
    let mut lacking = false;
    while let Some(word) = words.next() {
        let Some(pair) = pair(word) else {
            return Ok(None);
        };
        if count >= MAX_ATTRIBUTES {
            return Ok(None);
        }
        count += 1;
        lacking = define(alloc, &pair, &mut attributes, lacking);
    }
    if lacking {
        return Err(AllocError);
    }
    Ok(Some(attributes))
}

/// Appends a pair, unless an allocation failed; returns whether one failed so far. After a failure the reading continues, so that a faulty
/// line is still found.
fn define(
    alloc: Global,
    pair: &WrittenPair,
    attributes: &mut AttributeSpecifier,
    lacking: bool,
) -> bool
    ensures { result ≡ false → (lacking ≡ false) × (attributes.new ≡ attributes.old ++ pair.now ∷ []) }
{
    lacking || attributes.define(alloc, pair.key(), pair.value()).is_err()
}
