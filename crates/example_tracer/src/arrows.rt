//! Which line sent what a line received, as far as lines and replies say.
ghost use Rattle.std.specs.Prelude.{◌≡◌, ◌<◌, ◌≤◌, None, IfOk, length, count_by, All};
ghost use Rattle.std.specs.List.{AllPairs, list_any};
ghost use Rattle.std.specs.Option.{option_map};
ghost use Rattle.example_tracer.specs.Exchange.{seen};
ghost use Rattle.example_tracer.specs.Trace.{sent_at, received_at, fits, passes, may_be, IsOnly, IsArrow, Trace, Joins, KeepsOrder};
ghost use Rattle.example_tracer.specs.Trace.{LostForGood, gives_sample, is_lost, untold};

use crate::exchange::{Exchange, Message, is, received, sent};
use std::alloc::{AllocError, Global};

/// The arrow of a message: the line and the port that received it, and the line and the port that sent it, if these are known.
#[derive(Clone, Copy)]
pub struct Arrow<'a> {
    /// The line that received the message.
    pub receipt: usize,
    /// The subscriber that received it.
    pub subscriber: &'a [u8],
    /// The line that sent the message, if that is known.
    pub origin: Option<usize>,
    /// The publisher that sent it; empty if the origin isn't known.
    pub publisher: &'a [u8],
}

fn sent_at<'a>(conversation: &[Exchange<'a>], line: usize) -> Option<Message<'a>>
    requires { line < length conversation.now }
    ensures { option_map seen result ≡ sent_at conversation.now line }
{
    sent(&conversation[line])
}

fn received_at<'a>(conversation: &[Exchange<'a>], line: usize) -> Option<Message<'a>>
    requires { line < length conversation.now }
    ensures { option_map seen result ≡ received_at conversation.now line }
{
    received(&conversation[line])
}

/// Whether the values may be the same: those of a `send` aren't known.
fn fits(sent: &Message<'_>, received: &Message<'_>) -> bool
    ensures { result ≡ fits (seen sent.now) (seen received.now) }
{
    match (sent.values, received.values) {
        (Some(these), Some(those)) => is(these, those),
        _ => true,
    }
}

/// Whether an arrow shows that the subscriber got this line's message of the publisher, or a later one.
fn passes(arrow: &Arrow<'_>, subscriber: &[u8], publisher: &[u8], line: usize) -> bool
    ensures { result ≡ passes arrow.now subscriber.now publisher.now line }
{
    match arrow.origin {
        Some(origin) => {
            line <= origin && is(arrow.subscriber, subscriber) && is(arrow.publisher, publisher)
        }
        None => false,
    }
}

fn came(arrows: &[Arrow<'_>], subscriber: &[u8], publisher: &[u8], line: usize) -> bool
    ensures { result ≡ list_any (λ arrow. passes arrow subscriber.now publisher.now line) arrows.now }
{
    for arrow in arrows {
        if passes(arrow, subscriber, publisher, line) {
            return true;
        }
    }
    false
}

/// Whether a line may have sent what was received: its values fit, and the subscriber received neither its message nor a later one before.
fn may_be(
    conversation: &[Exchange<'_>],
    arrows: &[Arrow<'_>],
    received: &Message<'_>,
    line: usize,
) -> bool
    requires { line < length conversation.now }
    ensures { result ≡ may_be conversation.now arrows.now (seen received.now) line }
{
    match sent_at(conversation, line) {
        Some(sent) => fits(&sent, received) && !came(arrows, received.port, sent.port, line),
        None => false,
    }
}

/// The only line before this one that may have sent what was received; None where there is none or more than one.
fn origin(
    conversation: &[Exchange<'_>],
    arrows: &[Arrow<'_>],
    received: &Message<'_>,
    receipt: usize,
) -> Option<usize>
    requires { receipt ≤ length conversation.now }
    ensures { IsOnly (may_be conversation.now arrows.now (seen received.now)) receipt result }
{
    let mut only = None;
    for line in 0..receipt {
        if may_be(conversation, arrows, received, line) {
            if only.is_some() {
                return None;
            }
            only = Some(line);
        }
    }
    only
}

fn way<'a>(
    conversation: &[Exchange<'a>],
    arrows: &[Arrow<'a>],
    received: &Message<'a>,
    receipt: usize,
) -> Arrow<'a>
    requires { receipt ≤ length conversation.now }
    ensures { IsArrow conversation.now arrows.now receipt (seen received.now) result }
{
    let origin = origin(conversation, arrows, received, receipt);
    let publisher = match origin {
        Some(line) => match sent_at(conversation, line) {
            Some(sent) => sent.port,
            None => &[],
        },
        None => &[],
    };
    Arrow {
        receipt,
        subscriber: received.port,
        origin,
        publisher,
    }
}

/// Whether this arrow, after those before it, shows that its subscriber, which was created at line `since`, never gets the message of a
/// line: a later message of the publisher arrived, and neither this one nor one that may be it arrived before.
pub fn is_lost(
    conversation: &[Exchange<'_>],
    before: &[Arrow<'_>],
    arrow: &Arrow<'_>,
    line: usize,
    since: usize,
) -> bool
    requires { line < length conversation.now }
    ensures { result ≡ is_lost before.now arrow.now line since (sent_at conversation.now line) }
{
    match (sent_at(conversation, line), arrow.origin) {
        (Some(sent), Some(origin)) => {
            since < line
                && line < origin
                && is(sent.port, arrow.publisher)
                && !came(before, arrow.subscriber, arrow.publisher, line)
                && !is_untold(before, arrow.subscriber, line)
        }
        _ => false,
    }
}

/// Whether an arrow shows that the subscriber received, after this line, a message of unknown origin.
fn untold(arrow: &Arrow<'_>, subscriber: &[u8], line: usize) -> bool
    ensures { result ≡ untold arrow.now subscriber.now line }
{
    arrow.origin.is_none() && line < arrow.receipt && is(arrow.subscriber, subscriber)
}

fn is_untold(arrows: &[Arrow<'_>], subscriber: &[u8], line: usize) -> bool
    ensures { result ≡ list_any (λ arrow. untold arrow subscriber.now line) arrows.now }
{
    for arrow in arrows {
        if untold(arrow, subscriber, line) {
            return true;
        }
    }
    false
}

/// The ways of all messages that the conversation received, in the order in which they were received.
///
/// The origin is known exactly if only one earlier line is possible: its values fit, and the subscriber has neither received nor missed its
/// message before.
pub fn trace<'a>(alloc: Global, conversation: &[Exchange<'a>]) -> Result<Vec<Arrow<'a>>, AllocError>
    ensures trace { IfOk result (λ arrows. Trace conversation.now (length conversation.now) arrows.items) }
    // Each received sample has one arrow.
    ensures one_each { IfOk result (λ arrows. length arrows.items ≡ count_by gives_sample conversation.now) }
    // An arrow leads from a message that was sent to a later line that received a sample, and the values fit.
    ensures joins { IfOk result (λ arrows. All (Joins conversation.now) arrows.items) }
    // A subscriber gets the messages of one publisher in the order of sending, each at most once.
    ensures order { IfOk result (λ arrows. AllPairs KeepsOrder arrows.items) }
    // No arrow of a subscriber, earlier or later, begins at a message that an arrow shows as lost to this subscriber.
    ensures lost { IfOk result (λ arrows. LostForGood conversation.now arrows.items) }
{
    let mut arrows = Vec::new(alloc);
    for receipt in 0..conversation.len() {
        if let Some(received) = received_at(conversation, receipt) {
            let way = way(conversation, &arrows, &received, receipt);
            arrows.push(way)?;
        }
    }
    Ok(arrows)
}
