//! From the replies of one hub to the lines of another.
ghost use Rattle.std.specs.Prelude.{◌≡◌, ◌++◌, ◌∷◌, [], ℕ, List, Option, map, IfOk, OnOk};
ghost use Rattle.std.specs.List.{filter_map, flat_map};
ghost use Rattle.std.specs.Option.{option_map};
ghost use Rattle.example_tracer.specs.Gateway.{sample_of, line_for, CarriesOver};

use crate::exchange::{Exchange, is, word};
use iox_conversation::AnswersLines;
use std::alloc::{AllocError, Global};

/// The values of the sample that a reply gives.
fn sample(reply: &[u8]) -> Option<&[u8]>
    ensures { option_map (λ values. values.now) result ≡ sample_of reply.now }
{
    let (ok, rest) = word(reply);
    let (name, values) = word(rest);
    match name {
        [b'm', ..] if is(ok, b"ok") => Some(values),
        _ => None,
    }
}

/// Answers the replies of one hub by the lines of another.
#[derive(Drop)]
pub struct Gateway;

impl AnswersLines for Gateway {
    ghost use Rattle.std.specs.Prelude.{◌≡◌};
    ghost use Rattle.example_tracer.specs.Gateway.{line_for};

    ghost answers = { λ old reply line new. line ≡ line_for reply };

    ghost used = { λ gateway. 0 };

    fn answer_line(
        &mut self,
        _alloc: Global,
        reply: &[u8],
        line: &mut Vec<u8>,
    ) -> Result<(), AllocError> {
        match sample(reply) {
            Some(values) => {
                line.extend_from_slice(b"put p1")?;
                if !values.is_empty() {
                    line.push(b' ')?;
                    line.extend_from_slice(values)?;
                }
                Ok(())
            }
            None => Ok(()),
        }
    }
}

/// The replies of a conversation, as a hub writes them: each with a newline.
pub fn replies(alloc: Global, conversation: &[Exchange<'_>]) -> Result<Vec<u8>, AllocError>
    ensures { IfOk result (λ text. text.items ≡ flat_map (λ it. it.reply.now ++ 10 ∷ []) conversation.now) }
{
    let mut text = Vec::new(alloc);
    for it in conversation {
        text.extend_from_slice(it.reply)?;
        text.push(b'\n')?;
    }
    Ok(text)
}

/// Of the lines for the replies of a run, those that aren't empty put exactly the samples that the replies report, each once and in order.
pub fn carries_over()
    ensures { (replies : List (List ℕ)) → CarriesOver replies }
{}
