//! A line of a script with its reply, and what the two say: of a message, and of what was made and ended.
ghost use Rattle.std.specs.Prelude.{◌≡◌, ◌≤◌, IfOk, length};
ghost use Rattle.std.specs.List.{before_first, after_first, position_or_len};
ghost use Rattle.std.specs.Option.{option_map};
ghost use Rattle.example_tracer.specs.Exchange.{is_byte, first_word, behind, is_text, is_sent, sent_by, received_by, seen};
ghost use Rattle.example_tracer.specs.Things.{is_name, made_by, ended_by};
ghost use Rattle.example_tracer.specs.Conversation.{IsConversation};

use std::alloc::{AllocError, Global};

/// A line of a script, and the reply to it.
#[derive(Clone, Copy)]
pub struct Exchange<'a> {
    /// The line.
    pub line: &'a [u8],
    /// The reply.
    pub reply: &'a [u8],
}

/// What a line sent or received: by which port or loan, and the values, if line and reply have them.
#[derive(Clone, Copy)]
pub struct Message<'a> {
    /// The port or loan that the line names.
    pub port: &'a [u8],
    /// The values, if line and reply have them.
    pub values: Option<&'a [u8]>,
}

/// The place of the first of these bytes, or the length of the text.
fn place(byte: u8, text: &[u8]) -> usize
    ensures place { result ≡ position_or_len (is_byte byte) text.now }
    ensures within { result ≤ length text.now }
{
    for at in 0..text.len() {
        if text[at] == byte {
            return at;
        }
    }
    text.len()
}

/// The text before the first of these bytes, and the text after it.
fn cut(byte: u8, text: &[u8]) -> (&[u8], &[u8])
    ensures before { result.0.now ≡ before_first (is_byte byte) text.now }
    ensures after { result.1.now ≡ after_first (is_byte byte) text.now }
{
    let at = place(byte, text);
    if at < text.len() {
        (&text[..at], &text[at + 1..])
    } else {
        (text, &[])
    }
}

/// The first word of a text, and what follows the space after it.
pub fn word(text: &[u8]) -> (&[u8], &[u8])
    ensures word { result.0.now ≡ first_word text.now }
    ensures rest { result.1.now ≡ behind text.now }
{
    cut(b' ', text)
}

/// Cuts a row as `paste` writes it: a line, a tab, and its reply.
pub fn paired(row: &[u8]) -> Exchange<'_>
    ensures line { result.line.now ≡ before_first (is_byte 9) row.now }
    ensures reply { result.reply.now ≡ after_first (is_byte 9) row.now }
{
    let (line, reply) = cut(b'\t', row);
    Exchange { line, reply }
}

/// Whether a text is this one.
pub fn is(text: &[u8], wanted: &[u8]) -> bool
    ensures { result ≡ is_text text.now wanted.now }
{
    text == wanted
}

/// The message that a line sent: a `put`, with its values, or a `send` of a loan, whose values aren't known.
pub fn sent<'a>(exchange: &Exchange<'a>) -> Option<Message<'a>>
    ensures { option_map seen result ≡ sent_by exchange.now.line.now exchange.now.reply.now }
{
    let (verb, rest) = word(exchange.line);
    let (port, values) = word(rest);
    if !is_sent(exchange.reply) {
        None
    } else if is(verb, b"put") {
        Some(Message {
            port,
            values: Some(values),
        })
    } else if is(verb, b"send") {
        Some(Message { port, values: None })
    } else {
        None
    }
}

/// Whether a reply to a `put` or a `send` says that the message is on its way to somebody.
fn is_sent(reply: &[u8]) -> bool
    ensures { result ≡ is_sent reply.now }
{
    is(word(reply).0, b"ok")
        || is(reply, b"blocked")
        || is(reply, b"err SendError::UnableToDeliver")
}

/// The message that a line received.
pub fn received<'a>(exchange: &Exchange<'a>) -> Option<Message<'a>>
    ensures { option_map seen result ≡ received_by exchange.now.line.now exchange.now.reply.now }
{
    let (verb, port) = word(exchange.line);
    let (ok, rest) = word(exchange.reply);
    if is(verb, b"receive") && is(ok, b"ok") {
        Some(Message {
            port,
            values: Some(word(rest).1),
        })
    } else {
        None
    }
}

/// Whether a text is a name as a hub gives it to nodes, factories, ports, samples and loans.
fn is_name(text: &[u8]) -> bool
    ensures { result ≡ is_name text.now }
{
    match text {
        [kind, digit, ..] => {
            matches!(*kind, b'n' | b'f' | b'p' | b's' | b'l') && digit.is_ascii_digit()
        }
        _ => false,
    }
}

/// The name of the node, factory, port or loan that was made according to the reply.
pub fn made(reply: &[u8]) -> Option<&[u8]>
    ensures { option_map (λ name. name.now) result ≡ made_by reply.now }
{
    let (ok, name) = word(reply);
    (is(ok, b"ok") && is_name(name)).then_some(name)
}

/// Whether a line ended what has this name: it was closed, dropped, sent or released.
pub fn ends(exchange: &Exchange<'_>, name: &[u8]) -> bool
    ensures { result ≡ ended_by exchange.now.line.now exchange.now.reply.now name.now }
{
    let (verb, ended) = word(exchange.line);
    let closes = is(verb, b"close")
        || is(verb, b"leave")
        || is(verb, b"drop")
        || is(verb, b"release");
    is(ended, name)
        && (closes && is(exchange.reply, b"ok")
            || is(verb, b"send") && !is(exchange.reply, b"skip"))
}

/// The rows of a text, one after the other, each as a line and its reply. A last row without a newline counts if it isn't empty.
pub fn conversation(alloc: Global, text: &[u8]) -> Result<Vec<Exchange<'_>>, AllocError>
    ensures { IfOk result (λ rows. IsConversation text.now rows.items) }
{
    let mut rows = Vec::new(alloc);
    let mut rest = text;
    while !rest.is_empty() {
        let (row, others) = cut(b'\n', rest);
        rows.push(paired(row))?;
        rest = others;
    }
    Ok(rows)
}
