//! From a reply to the bytes of its line.
ghost use Rattle.std.specs.Prelude.{◌≡◌, ◌++◌, ◌∷◌, ◌+◌, ◌≤◌, length, take, drop, flat_map, codes, decimal, OnOk, OnErr};
ghost use Rattle.iox_line.specs.RefusalText.{refusal_text};
ghost use Rattle.iox_line.specs.ReplyText.{reply_text};

use iox_command::{Refusal, Reply};
use itoa::write_digits;
use std::alloc::AllocError;

/// The most digits of a number, with the most bytes before them.
const ROOM: usize = 24;

/// Appends the bytes of a reply, without a newline. Changes nothing if an allocation fails.
pub fn print_reply(reply: &Reply<u64>, out: &mut Vec<u8>) -> Result<(), AllocError>
    ensures ok { OnOk result (out.new.items ≡ out.old.items ++ reply_text reply.now) }
    ensures err { OnErr result (out.new.items ≡ out.old.items) }
{
    match reply {
        Reply::NodeMade(number) => append_made(b'n', *number, out),
        Reply::FactoryMade(number) => append_made(b'f', *number, out),
        Reply::PublisherMade(number) => append_made(b'p', *number, out),
        Reply::SubscriberMade(number) => append_made(b's', *number, out),
        Reply::LoanMade(number) => append_made(b'l', *number, out),
        Reply::Done => out.extend_from_slice(b"ok"),
        Reply::Delivered(count) => append_count(*count, out),
        Reply::Blocked => out.extend_from_slice(b"blocked"),
        Reply::Received { sample, values } => append_sample(*sample, values.as_slice(), out),
        Reply::NothingWaits => out.extend_from_slice(b"none"),
        Reply::Values(values) => append_read(values.as_slice(), out),
        Reply::Sequence(None) => out.extend_from_slice(b"ok none"),
        Reply::Sequence(Some(number)) => append_count(*number, out),
        Reply::Has(true) => out.extend_from_slice(b"ok true"),
        Reply::Has(false) => out.extend_from_slice(b"ok false"),
        Reply::Skipped => out.extend_from_slice(b"skip"),
        Reply::Refused(refusal) => append_refusal(refusal, out),
    }
}

// What follows the digits is appended with them, and cut off again. So the length of what is copied is known.
#[inline(always)]
fn append_number(kind: &[u8], number: u64, out: &mut Vec<u8>) -> Result<(), AllocError>
    requires { length kind.now ≤ 4 }
    ensures ok { OnOk result (out.new.items ≡ out.old.items ++ (kind.now ++ decimal number)) }
    ensures err { OnErr result (out.new.items ≡ out.old.items) }
{
    let mut text = [0u8; 2 * ROOM];
    let start = write_number(kind, number, &mut text);
    out.extend_from_slice(&text[start..start + ROOM])?;
    out.truncate(out.len() - start);
    Ok(())
}

// Writes a text and the digits of a number so that they end at `ROOM`, and returns where they start.
#[inline(always)]
fn write_number(kind: &[u8], number: u64, text: &mut [u8]) -> usize
    requires kind { length kind.now ≤ 4 }
    requires text { length text.old ≡ 48 }
    ensures start { result + (length kind.now + length (decimal number)) ≡ 24 }
    ensures written { drop result text.new ≡ kind.now ++ (decimal number ++ drop 24 text.old) }
    ensures len { length text.new ≡ 48 }
{
    let digits = write_digits(number, text, ROOM);
    let start = digits - kind.len();
    put(text, start, kind);
    start
}

// Writes bytes from place `start` on.
#[inline(always)]
fn put(all: &mut [u8], start: usize, bytes: &[u8])
    requires { start + length bytes.now ≤ length all.old }
    ensures { all.new ≡ take start all.old ++ (bytes.now ++ drop (start + length bytes.now) all.old) }
{
    let end = start + bytes.len();
    all[start..end].copy_from_slice(bytes);
}

fn append_made(letter: u8, number: u64, out: &mut Vec<u8>) -> Result<(), AllocError>
    ensures ok { OnOk result (out.new.items ≡ out.old.items ++ (codes "ok " ++ letter ∷ decimal number)) }
    ensures err { OnErr result (out.new.items ≡ out.old.items) }
{
    append_number(&[b'o', b'k', b' ', letter], number, out)
}

fn append_count(count: u64, out: &mut Vec<u8>) -> Result<(), AllocError>
    ensures ok { OnOk result (out.new.items ≡ out.old.items ++ (codes "ok " ++ decimal count)) }
    ensures err { OnErr result (out.new.items ≡ out.old.items) }
{
    append_number(b"ok ", count, out)
}

fn append_values(values: &[u64], out: &mut Vec<u8>) -> Result<(), AllocError>
    ensures ok { OnOk result (out.new.items ≡ out.old.items ++ flat_map (λ value. codes " " ++ decimal value) values.now) }
    ensures err { OnErr result (take (length out.old.items) out.new.items ≡ out.old.items) }
{
    for &value in values {
        append_number(b" ", value, out)?;
    }
    Ok(())
}

#[inline(never)]
#[tactic(auto, using(crate::proofs::RefusalTextLemmas::written_as_displayed))]
fn append_refusal(refusal: &Refusal, out: &mut Vec<u8>) -> Result<(), AllocError>
    ensures ok { OnOk result (out.new.items ≡ out.old.items ++ (codes "err " ++ refusal_text refusal.now)) }
    ensures err { OnErr result (out.new.items ≡ out.old.items) }
{
    append_both(b"err ", refusal.text().as_bytes(), out)
}

fn append_both(first: &[u8], second: &[u8], out: &mut Vec<u8>) -> Result<(), AllocError>
    ensures ok { OnOk result (out.new.items ≡ out.old.items ++ (first.now ++ second.now)) }
    ensures err { OnErr result (out.new.items ≡ out.old.items) }
{
    out.reserve(first.len() + second.len())?;
    out.extend_from_slice(first)?;
    out.extend_from_slice(second)
}

#[inline(never)]
fn append_sample(sample: u64, values: &[u64], out: &mut Vec<u8>) -> Result<(), AllocError>
    ensures ok { OnOk result (out.new.items ≡ out.old.items ++ ((codes "ok m" ++ decimal sample)
        ++ flat_map (λ value. codes " " ++ decimal value) values.now)) }
    ensures err { OnErr result (out.new.items ≡ out.old.items) }
{
    let start = out.len();
    append_made(b'm', sample, out)?;
    let appended = append_values(values, out);
    if appended.is_err() {
        out.truncate(start);
    }
    appended
}

#[inline(never)]
fn append_read(values: &[u64], out: &mut Vec<u8>) -> Result<(), AllocError>
    ensures ok { OnOk result (out.new.items ≡ out.old.items ++ (codes "ok" ++ flat_map (λ value. codes " " ++ decimal value) values.now)) }
    ensures err { OnErr result (out.new.items ≡ out.old.items) }
{
    let start = out.len();
    out.extend_from_slice(b"ok")?;
    let appended = append_values(values, out);
    if appended.is_err() {
        out.truncate(start);
    }
    appended
}
