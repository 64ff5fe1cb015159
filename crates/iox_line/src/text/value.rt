//! The values of options.
ghost use Rattle.std.specs.Prelude.{◌≡◌};
ghost use Rattle.iox_line.specs.Words.{same};
ghost use Rattle.iox_line.specs.Numbers.{number_of};
ghost use Rattle.iox_line.specs.Options.{find, named};
ghost use Rattle.iox_line.specs.Values.{strategy_of, allocation_of, handler_of, degradation_of};

use crate::text::number::number;
use crate::text::options::find;
use crate::text::words::{Words, is};
use iox_domain_values::{
    AllocationStrategy, BackpressureAction, BackpressureStrategy, DegradationAction,
};

/// The number that an option is set to, if the option is named; `None` if its text isn't a number.
pub fn named_number(key: &[u8], words: &Words) -> Option<Option<u64>>
    ensures { result ≡ named number_of (find key.now words.now) }
{
    match find(key, words) {
        None => Some(None),
        Some(text) => match number(text) {
            Some(value) => Some(Some(value)),
            None => None,
        },
    }
}

/// The strategy that a word spells.
pub fn strategy(word: &[u8]) -> Option<BackpressureStrategy>
    ensures { result ≡ strategy_of word.now }
{
    if is(word, b"retry") {
        Some(BackpressureStrategy::RetryUntilDelivered)
    } else if is(word, b"discard") {
        Some(BackpressureStrategy::DiscardData)
    } else {
        None
    }
}

/// The strategy that an option is set to, if the option is named; `None` if its text isn't a strategy.
pub fn named_strategy(key: &[u8], words: &Words) -> Option<Option<BackpressureStrategy>>
    ensures { result ≡ named strategy_of (find key.now words.now) }
{
    match find(key, words) {
        None => Some(None),
        Some(text) => match strategy(text) {
            Some(value) => Some(Some(value)),
            None => None,
        },
    }
}

/// The allocation strategy that a word spells: `static`, `best` or `power`. `None` for any other word.
pub fn allocation(word: &[u8]) -> Option<AllocationStrategy>
    ensures { result ≡ allocation_of word.now }
{
    if is(word, b"static") {
        Some(AllocationStrategy::Static)
    } else if is(word, b"best") {
        Some(AllocationStrategy::BestFit)
    } else if is(word, b"power") {
        Some(AllocationStrategy::PowerOfTwo)
    } else {
        None
    }
}

/// The allocation strategy that an option is set to, if the option is named; `None` if its text isn't an allocation strategy.
pub fn named_allocation(key: &[u8], words: &Words) -> Option<Option<AllocationStrategy>>
    ensures { result ≡ named allocation_of (find key.now words.now) }
{
    match find(key, words) {
        None => Some(None),
        Some(text) => match allocation(text) {
            Some(value) => Some(Some(value)),
            None => None,
        },
    }
}

/// The action at a full mailbox that a word spells.
pub fn handler(word: &[u8]) -> Option<BackpressureAction>
    ensures { result ≡ handler_of word.now }
{
    if is(word, b"follow") {
        Some(BackpressureAction::FollowBackpressureyStrategy)
    } else if is(word, b"retry") {
        Some(BackpressureAction::Retry)
    } else if is(word, b"discard") {
        Some(BackpressureAction::DiscardData)
    } else if is(word, b"fail") {
        Some(BackpressureAction::DiscardDataAndFail)
    } else {
        None
    }
}

/// The action at a full mailbox that an option is set to, if the option is named; `None` if its text isn't one.
pub fn named_handler(key: &[u8], words: &Words) -> Option<Option<BackpressureAction>>
    ensures { result ≡ named handler_of (find key.now words.now) }
{
    match find(key, words) {
        None => Some(None),
        Some(text) => match handler(text) {
            Some(value) => Some(Some(value)),
            None => None,
        },
    }
}

/// The action at a failed connection that a word spells.
pub fn degradation(word: &[u8]) -> Option<DegradationAction>
    ensures { result ≡ degradation_of word.now }
{
    if is(word, b"ignore") {
        Some(DegradationAction::Ignore)
    } else if is(word, b"warn") {
        Some(DegradationAction::Warn)
    } else if is(word, b"fail") {
        Some(DegradationAction::DegradeAndFail)
    } else {
        None
    }
}

/// The action at a failed connection that an option is set to, if the option is named; `None` if its text isn't one.
pub fn named_degradation(key: &[u8], words: &Words) -> Option<Option<DegradationAction>>
    ensures { result ≡ named degradation_of (find key.now words.now) }
{
    match find(key, words) {
        None => Some(None),
        Some(text) => match degradation(text) {
            Some(value) => Some(Some(value)),
            None => None,
        },
    }
}
