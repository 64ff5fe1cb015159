//! The lists of actions before the storage operations of a call.
ghost use Rattle.std.specs.Prelude.{◌≡◌};
ghost use Rattle.iox_line.specs.Memory.{MayLack, some};
ghost use Rattle.iox_line.specs.StepsReading.{next_access, listed_step, lists_of};

use crate::steps::foreign::append;
use crate::steps::step::step;
use crate::text::Words;
use crate::text::number::number;
use crate::text::options::after;
use iox_command::{StepBefore, Steps};
use iox_describe_base::MessagingPattern;
use std::alloc::{AllocError, Global};

/// The lists of actions that these words spell, each with `|` and the number of its storage operation before its actions; `None` if a word
/// is neither, a list has no number or no action, or its number isn't larger than that of the list before it.
///
/// Fails if an allocation fails, and only if the words are lists with at least one action: an empty list takes no memory, and it takes no
/// memory to find that words aren't lists.
pub fn listed_steps(
    alloc: Global,
    pattern: MessagingPattern,
    words: Words,
) -> Result<Option<Steps<StepBefore>>, AllocError>
    ensures { MayLack some (lists_of pattern words.entry) result }
{
    let mut words = words;
    let mut steps = Steps::new();
    let mut access: u64 = 0;
    let mut fresh = false;
    let mut lacking = false;
    while let Some(word) = words.next() {
        if let Some(text) = after(b"|", word) {
            let Some(next) = next_access(fresh, access, text) else {
                return Ok(None);
            };
            access = next;
            fresh = true;
        } else {
            let Some(step) = listed_step(pattern, access, word) else {
                return Ok(None);
            };
            lacking = append(alloc, step, &mut steps, lacking);
            fresh = false;
        }
    }
    if fresh {
        return Ok(None);
    }
    if lacking {
        return Err(AllocError);
    }
    Ok(Some(steps))
}

/// The storage operation of the list that begins with this text after the bar; `None` if the list before it has no action, or the number
/// isn't larger than that of the list before it.
fn next_access(fresh: bool, access: u64, text: &[u8]) -> Option<u64>
    ensures { result ≡ next_access fresh access text.now }
{
    if fresh {
        return None;
    }
    let next = number(text)?;
    if access < next { Some(next) } else { None }
}

/// The action that a word spells, before this storage operation; `None` if no list has begun.
fn listed_step(pattern: MessagingPattern, access: u64, word: &[u8]) -> Option<StepBefore>
    ensures { result ≡ listed_step pattern access word.now }
{
    if access == 0 {
        return None;
    }
    let step = step(pattern, word)?;
    Some(StepBefore { access, step })
}
