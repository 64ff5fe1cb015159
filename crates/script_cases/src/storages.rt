//! The results of builders over a storage that gives the answers of a line.
mod answering;
mod near_lines;
mod other_lines;

use answering::Answering;
use iox_describe::ServiceName;
use iox_negotiate::{Builder, Negotiated, PortFactory, ServiceBuilder};
use iox_negotiate_base::CloseError;
use near_lines::amiss_lines;
use other_lines::other_line;
use std::alloc::{AllocError, Global};
use std::fmt::Debug;

/// The name of the service that is asked for.
const NAME: &str = "A";

fn closed<P: Negotiated>(
    factory: PortFactory<P>,
    storage: &mut Answering<'_>,
) -> Result<(), CloseError> {
    match factory.close(storage) {
        Ok(()) => Ok(()),
        Err(refused) => Err(refused.error),
    }
}

// What the factory that a builder answered comes to, closed if `close` follows.
fn kept<P: Negotiated>(
    alloc: Global,
    factory: PortFactory<P>,
    storage: &mut Answering<'_>,
) -> Result<String, AllocError> {
    if !storage.closes() {
        return format!(in alloc; "ok");
    }
    match closed(factory, storage) {
        Ok(()) => format!(in alloc; "ok, closed"),
        Err(error) => format!(in alloc; "ok, {error:?}"),
    }
}

// What a builder's answer comes to.
fn ended<P: Negotiated, E: Debug + Copy>(
    alloc: Global,
    answer: Result<PortFactory<P>, E>,
    storage: &mut Answering<'_>,
) -> Result<String, AllocError> {
    match answer {
        Ok(factory) => kept(alloc, factory, storage),
        Err(error) => format!(in alloc; "{error:?}"),
    }
}

// What a builder's call comes to over such a storage, and then a close, if `close` follows its answers.
fn built<P: Negotiated>(
    alloc: Global,
    verb: &str,
    asked: ServiceBuilder<P>,
    storage: &mut Answering<'_>,
) -> Result<String, AllocError>
where
    P::CreateError: Debug,
    P::OpenError: Debug,
    P::OpenOrCreateError: Debug,
{
    match verb {
        "create" => ended(alloc, asked.create(alloc, storage), storage),
        "open" => ended(alloc, asked.open(alloc, storage), storage),
        _ => ended(alloc, asked.open_or_create(alloc, storage), storage),
    }
}

// The same for the service of a name and a pattern, asked for by node 5.
fn called(
    alloc: Global,
    (verb, pattern, name): (&str, &str, &str),
    storage: &mut Answering<'_>,
) -> Result<String, AllocError> {
    let Ok(name) = ServiceName::new(name.as_bytes()) else {
        return format!(in alloc; "no name");
    };
    let asked = Builder::new(5, name);
    match pattern {
        "ps" => built(alloc, verb, asked.publish_subscribe::<u64>(), storage),
        "ps4" => built(alloc, verb, asked.publish_subscribe::<u32>(), storage),
        "ps16" => built(
            alloc,
            verb,
            asked.publish_subscribe::<u64>().payload_alignment(16),
            storage,
        ),
        "ev" => built(alloc, verb, asked.event(), storage),
        "rq4" => built(alloc, verb, asked.request_response::<u32, u64>(), storage),
        "rs4" => built(alloc, verb, asked.request_response::<u64, u32>(), storage),
        _ => built(alloc, verb, asked.request_response::<u64, u64>(), storage),
    }
}

// The line that a service of a pattern, `ps`, `ev` or `rr`, is published with. Messages of `ps4` have four bytes, and those of `ps16` an
// alignment of 16; requests of `rq4` and responses of `rs4` have four bytes.
fn published_line(alloc: Global, pattern: &str, name: &str) -> Result<Vec<u8>, AllocError> {
    let mut storage = Answering::new(alloc, "Absent Taken Made Published", &[], &[]);
    let _ = called(alloc, ("create", pattern, name), &mut storage)?;
    Ok(storage.into_published())
}

// What a line's call comes to, in how many storage operations, and how many answers were amiss.
fn outcome(
    alloc: Global,
    verb: &str,
    pattern: &str,
    storage: &mut Answering<'_>,
) -> Result<String, AllocError> {
    let text = called(alloc, (verb, pattern, NAME), storage)?;
    let (accesses, amiss) = storage.counts();
    if amiss == 0 {
        format!(in alloc; "{text}, accesses {accesses}")
    } else {
        format!(in alloc; "{text}, accesses {accesses}, amiss {amiss}")
    }
}

// What a call comes to over a storage that gives these answers.
fn answered_by(
    alloc: Global,
    verb: &str,
    pattern: &str,
    answers: &str,
) -> Result<String, AllocError> {
    let line = published_line(alloc, pattern, NAME)?;
    let other = other_line(alloc, pattern, answers, line.as_slice())?;
    let mut storage = Answering::new(alloc, answers, line.as_slice(), other.as_slice());
    outcome(alloc, verb, pattern, &mut storage)
}

/// The result of the call that a line names: its verb, `create`, `open` or `open_or_create`; its pattern, `ps`, `ev` or `rr`; and the
/// storage's answer to each storage operation.
///
/// Instead of a call, a line may ask for a count. `prefixes`: how many proper prefixes of the service's line could be opened. `spaces`: at
/// how many places a space could be inserted. `bytes`: how many changed bytes gave neither a corrupted line nor the line of another
/// description of the service. A `1` after the pattern asks for the line of version 1.
pub fn answered(alloc: Global, line: &str) -> Result<String, AllocError> {
    let (verb, rest) = line.split_once(' ').unwrap_or((line, ""));
    let (pattern, answers) = rest.split_once(' ').unwrap_or((rest, ""));
    match verb {
        "prefixes" | "spaces" | "bytes" => amiss_lines(alloc, verb, pattern, answers),
        _ => answered_by(alloc, verb, pattern, answers),
    }
}
