//! The record of a conversation, as CSV.
ghost use Rattle.std.specs.Prelude.{◌≡◌, ◌∷◌, ◌++◌, ◌+◌, IfOk, OnOk, length, map};
ghost use Rattle.csv.specs.Reading.{default_config, records_from};
ghost use Rattle.csv.specs.Writing.{default_writer, row_text};
ghost use Rattle.csv.specs.declared.parser.State.TheVariants as st;
ghost use Rattle.example_tracer.specs.Record.{header, fields_of, values_of, delivered_of, table_of};

use crate::exchange::{Exchange, is, received, sent, word};
use csv::{Error, WriterBuilder};
use std::alloc::Global;

/// The names of the columns.
const HEADER: [&[u8]; 6] = [b"line", b"reply", b"kind", b"port", b"value", b"delivered"];

/// The text of one row.
fn row_text(alloc: Global, fields: &[&[u8]]) -> Result<Vec<u8>, Error>
    ensures { IfOk result (λ text. text.items ≡ row_text default_writer (map (λ field. field.now) fields.now)) }
{
    let mut writer = WriterBuilder::new().from_writer(Vec::new(alloc));
    writer.write_fields(fields)?;
    match writer.into_inner() {
        Ok(text) => Ok(text),
        Err(error) => Err(error.into_error()),
    }
}

/// The values that were sent or received, if line and reply have them.
fn values<'a>(it: &Exchange<'a>) -> &'a [u8]
    ensures { result.now ≡ values_of it.now }
{
    let message = match sent(it) {
        Some(message) => Some(message),
        None => received(it),
    };
    match message {
        Some(message) => match message.values {
            Some(values) => values,
            None => &[],
        },
        None => &[],
    }
}

/// How many mailboxes took the message that was sent, if the reply says so.
fn delivered<'a>(it: &Exchange<'a>) -> &'a [u8]
    ensures { result.now ≡ delivered_of it.now }
{
    let (ok, count) = word(it.reply);
    if sent(it).is_some() && is(ok, b"ok") {
        count
    } else {
        &[]
    }
}

/// The row of a line and its reply.
fn row(alloc: Global, it: &Exchange<'_>) -> Result<Vec<u8>, Error>
    ensures { IfOk result (λ text. text.items ≡ row_text default_writer (fields_of it.now)) }
{
    let (kind, rest) = word(it.line);
    let port = word(rest).0;
    row_text(
        alloc,
        &[it.line, it.reply, kind, port, values(it), delivered(it)],
    )
}

/// Adds the row of a line and its reply to a table.
fn push_row(alloc: Global, table: &mut Vec<u8>, it: &Exchange<'_>) -> Result<(), Error>
    ensures { OnOk result (table.new.items ≡ table.old.items ++ row_text default_writer (fields_of it.now)) }
{
    let row = row(alloc, it)?;
    match table.extend_from_slice(&row) {
        Ok(()) => Ok(()),
        Err(_) => Err(Error::out_of_memory()),
    }
}

/// The record of a conversation.
pub fn record(alloc: Global, conversation: &[Exchange<'_>]) -> Result<Vec<u8>, Error>
    ensures table { IfOk result (λ text. text.items ≡ table_of conversation.now) }
    // Nothing is missing: a reader of the table finds the header and, for each line in order, that line and its reply.
    ensures read_back { IfOk result (λ text. records_from default_config (length conversation.now + 1) st.StartRecord text.items
        ≡ header ∷ map fields_of conversation.now) }
{
    let mut table = row_text(alloc, &HEADER)?;
    for it in conversation {
        push_row(alloc, &mut table, it)?;
    }
    Ok(table)
}
