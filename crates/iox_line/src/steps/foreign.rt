//! The actions of a `foreign` line.
ghost use Rattle.std.specs.Prelude.{◌≡◌, [], ◌∷◌, ◌++◌, false};
ghost use Rattle.iox_line.specs.Memory.{MayLack, some};
ghost use Rattle.iox_line.specs.StepsReading.{steps_of};

use crate::steps::step::step;
use crate::text::Words;
use iox_command::{ForeignStep, Steps};
use iox_describe_base::MessagingPattern;
use std::alloc::{AllocError, Global};

/// The actions that these words spell; `None` if a word isn't an action, or there is no word.
///
/// Fails if an allocation fails, and only if the words are actions: it takes no memory to find that they aren't.
pub fn foreign_steps(
    alloc: Global,
    pattern: MessagingPattern,
    words: Words,
) -> Result<Option<Steps<ForeignStep>>, AllocError>
    ensures { MayLack some (steps_of pattern words.entry) result }
{
    if words.is_empty() {
        return Ok(None);
    }
    let mut words = words;
    let mut steps = Steps::new();
    let mut lacking = false;
    while let Some(word) = words.next() {
        let Some(step) = step(pattern, word) else {
            return Ok(None);
        };
        lacking = append(alloc, step, &mut steps, lacking);
    }
    if lacking {
        return Err(AllocError);
    }
    Ok(Some(steps))
}

/// Appends an action, unless an allocation failed; returns whether one failed so far. After a failure the reading continues, so that a
/// faulty line is still found.
pub(crate) fn append<T: Copy>(alloc: Global, step: T, steps: &mut Steps<T>, lacking: bool) -> bool
    ensures { result ≡ false → (lacking ≡ false) × (steps.new ≡ steps.old ++ step ∷ []) }
{
    lacking || steps.push(alloc, step).is_err()
}
