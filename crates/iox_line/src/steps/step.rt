//! One action of another node.
ghost use Rattle.std.specs.Prelude.{◌≡◌};
ghost use Rattle.iox_line.specs.StepsReading.{published, step_verb_of, step_at, step_of};

use crate::services::service::service_options;
use crate::text::Words;
use crate::text::number::numbered;
use crate::text::words::{is, split};
use iox_command::{ForeignStep, ServiceOptions};
use iox_describe_base::MessagingPattern;

/// The verb of an action of another node. Not in `iceoryx2`.
#[derive(Clone, Copy)]
pub enum StepVerb {
    /// `lock`
    Lock,
    /// `giveup`
    GiveUp,
    /// `publish`
    Publish,
    /// `publish1`
    PublishV1,
    /// `register`
    Register,
    /// `leave`
    Leave,
    /// `remove`
    Remove,
}

/// The action that a word spells: its verb, `:x` and the number of the node; to publish, in either version, also `:` and options of the
/// pattern, with commas between them. `None` if the word isn't an action.
pub fn step(pattern: MessagingPattern, word: &[u8]) -> Option<ForeignStep>
    ensures { result ≡ step_of pattern word.now }
{
    let (verb, text) = split(word, b':');
    let Some(verb) = step_verb(verb) else {
        return None;
    };
    let Some(text) = text else {
        return None;
    };
    step_at(pattern, verb, text)
}

fn step_verb(text: &[u8]) -> Option<StepVerb>
    ensures { result ≡ step_verb_of text.now }
{
    if is(text, b"lock") {
        Some(StepVerb::Lock)
    } else if is(text, b"publish") {
        Some(StepVerb::Publish)
    } else if is(text, b"register") {
        Some(StepVerb::Register)
    } else if is(text, b"leave") {
        Some(StepVerb::Leave)
    } else if is(text, b"remove") {
        Some(StepVerb::Remove)
    } else if is(text, b"giveup") {
        Some(StepVerb::GiveUp)
    } else if is(text, b"publish1") {
        Some(StepVerb::PublishV1)
    } else {
        None
    }
}

fn step_at(pattern: MessagingPattern, verb: StepVerb, text: &[u8]) -> Option<ForeignStep>
    ensures { result ≡ step_at pattern verb text.now }
{
    match verb {
        StepVerb::Lock => {
            let node = numbered(b'x', text)?;
            Some(ForeignStep::Lock(node))
        }
        StepVerb::GiveUp => {
            let node = numbered(b'x', text)?;
            Some(ForeignStep::GiveUp(node))
        }
        StepVerb::Publish => {
            let (node, options) = published(pattern, text)?;
            Some(ForeignStep::Publish(node, options))
        }
        StepVerb::PublishV1 => {
            let (node, options) = published(pattern, text)?;
            Some(ForeignStep::PublishV1(node, options))
        }
        StepVerb::Register => {
            let node = numbered(b'x', text)?;
            Some(ForeignStep::Register(node))
        }
        StepVerb::Leave => {
            let node = numbered(b'x', text)?;
            Some(ForeignStep::Leave(node))
        }
        StepVerb::Remove => {
            let node = numbered(b'x', text)?;
            Some(ForeignStep::Remove(node))
        }
    }
}

/// The node that publishes, and the options after the next colon, if there is one.
fn published(pattern: MessagingPattern, text: &[u8]) -> Option<(u64, ServiceOptions)>
    ensures { result ≡ published pattern text.now }
{
    let (node, options) = split(text, b':');
    let node = numbered(b'x', node)?;
    let options = service_options(pattern, &Words::pieces(options, b','))?;
    Some((node, options))
}
