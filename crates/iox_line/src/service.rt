//! Lines that name a service.
ghost use Rattle.std.specs.Prelude.{◌≡◌};
ghost use Rattle.iox_line.specs.Memory.{MayLack};
ghost use Rattle.iox_line.specs.Reading.{of_service, create_command, requiring_command, foreign_command, together};
ghost use Rattle.iox_line.specs.Outcome.{takes_memory};

use crate::attributes::{defined_attributes, required_attributes};
use crate::services::value::{name, pattern};
use crate::services::{NamedService, named_service};
use crate::steps::{foreign_steps, listed_steps};
use crate::text::Words;
use crate::verb::ServiceVerb;
use iox_command::Command;
use std::alloc::{AllocError, Global};

/// The command of a verb that names a service, and of the words after it.
#[inline(never)]
pub(crate) fn of_service<'a>(
    alloc: Global,
    verb: ServiceVerb,
    words: Words,
) -> Result<Option<Command<'a, u64>>, AllocError>
    ensures { MayLack takes_memory (of_service verb words.entry) result }
{
    match verb {
        ServiceVerb::Create => create_line(alloc, words),
        ServiceVerb::Open => requiring_line(alloc, words, false),
        ServiceVerb::OpenOrCreate => requiring_line(alloc, words, true),
        ServiceVerb::Foreign => foreign_line(alloc, words),
    }
}

fn create_line<'a>(alloc: Global, words: Words) -> Result<Option<Command<'a, u64>>, AllocError>
    ensures { MayLack takes_memory (create_command words.entry) result }
{
    let Some(service) = named_service(words) else {
        return Ok(None);
    };
    let attributes = defined_attributes(alloc, service.attributes);
    let steps = listed_steps(alloc, service.options.pattern(), service.lists);
    match together(attributes, steps) {
        Ok(Some((attributes, steps))) => Ok(Some(Command::Create {
            node: service.node,
            name: service.name,
            options: service.options,
            attributes,
            steps,
        })),
        Ok(None) => Ok(None),
        Err(lacking) => Err(lacking),
    }
}

/// The command of a line with requirements: a service is opened or, if it `creates`, opened or created.
fn requiring_line<'a>(
    alloc: Global,
    words: Words,
    creates: bool,
) -> Result<Option<Command<'a, u64>>, AllocError>
    ensures { MayLack takes_memory (requiring_command creates words.entry) result }
{
    let Some(service) = named_service(words) else {
        return Ok(None);
    };
    let NamedService {
        node,
        name,
        options,
        attributes,
        lists,
    } = service;
    let requirements = required_attributes(alloc, attributes);
    let steps = listed_steps(alloc, options.pattern(), lists);
    match together(requirements, steps) {
        Ok(Some((requirements, steps))) => Ok(Some(if creates {
            Command::OpenOrCreate {
                node,
                name,
                options,
                requirements,
                steps,
            }
        } else {
            Command::Open {
                node,
                name,
                options,
                requirements,
                steps,
            }
        })),
        Ok(None) => Ok(None),
        Err(lacking) => Err(lacking),
    }
}

fn foreign_line<'a>(alloc: Global, words: Words) -> Result<Option<Command<'a, u64>>, AllocError>
    ensures { MayLack takes_memory (foreign_command words.entry) result }
{
    let mut words = words;
    let Some(kind) = words.next() else {
        return Ok(None);
    };
    let Some(called) = words.next() else {
        return Ok(None);
    };
    let Some(kind) = pattern(kind) else {
        return Ok(None);
    };
    let Some(name) = name(called) else {
        return Ok(None);
    };
    match foreign_steps(alloc, kind, words) {
        Ok(Some(steps)) => Ok(Some(Command::Foreign {
            pattern: kind,
            name,
            steps,
        })),
        Ok(None) => Ok(None),
        Err(lacking) => Err(lacking),
    }
}

/// Both values, if both exist. None if one is None, even if an allocation failed for the other.
fn together<A: Drop, B: Drop>(
    first: Result<Option<A>, AllocError>,
    second: Result<Option<B>, AllocError>,
) -> Result<Option<(A, B)>, AllocError>
    ensures { result ≡ together first second }
{
    match first {
        Ok(None) => Ok(None),
        Ok(Some(first)) => match second {
            Ok(Some(second)) => Ok(Some((first, second))),
            Ok(None) => Ok(None),
            Err(lacking) => Err(lacking),
        },
        Err(lacking) => match second {
            Ok(None) => Ok(None),
            Ok(Some(_)) => Err(lacking),
            Err(_) => Err(lacking),
        },
    }
}
