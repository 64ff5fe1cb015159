//! From the bytes of a line to the command that they spell.
ghost use Rattle.std.specs.Prelude.{◌≡◌, ◌≤◌, Ok, length};
ghost use Rattle.std.specs.Option.{option_map};
ghost use Rattle.iox_command.specs.Ports.{command_of};
ghost use Rattle.iox_line.specs.Memory.{MayLack};
ghost use Rattle.iox_line.specs.Outcome.{Answers, AreReadAs, IsReadSoFar, takes_memory};
ghost use Rattle.iox_line.specs.Reading.{if_of_port, of_other, of_verb, of_words, publisher_command, subscriber_command};
ghost use Rattle.iox_line.specs.declared.read.ReadLine.TheVariants as read;
ghost use Rattle.iox_line.specs.declared.verb.Verb.TheVariants as verbs;

use crate::arguments::{only, port, with_number, with_two, with_values};
use crate::error::LineError;
use crate::port_options::{publisher_options, subscriber_options};
use crate::scratch::Scratch;
use crate::service::of_service;
use crate::text::Words;
use crate::text::number::numbered;
use crate::verb::{OtherVerb, Verb, first_verb, service_verb};
use iox_command::Command;
use iox_command::ports::PortCommand;
use std::alloc::{AllocError, Global};
use std::marker::Model;

/// What a line spells, as far as it is read without memory.
///
/// Not in `iceoryx2`.
#[derive(Drop)]
pub enum ReadLine<'a, 'b> {
    /// A command on an existing port.
    OfPort(PortCommand<'a, u64>),
    /// A line that begins with the verb of another command.
    Other(OtherLine<'b>),
    /// No command.
    Fault(LineError),
}

/// A line that begins with the verb of a command that isn't on an existing port. Contracts see the command that it spells, if it spells
/// one.
///
/// Not in `iceoryx2`.
#[derive(Drop)]
pub struct OtherLine<'b> {
    verb: OtherVerb,
    words: Words<'b>,
}

impl<'b> Model for OtherLine<'b> {
    ghost use Rattle.std.specs.Prelude.{ℕ, Option};
    ghost use Rattle.iox_command.specs.declared.command.Command.{Command};
    ghost use Rattle.iox_line.specs.Reading.{of_other};

    ghost Value = { Option (Command ℕ) };

    ghost view = { λ line. of_other line.verb line.words };
}

impl<'b> OtherLine<'b> {
    /// The command that the line spells; None if it spells none. Fails only if an allocation fails and the command has attributes or
    /// actions of other nodes.
    pub fn command<'a>(self, alloc: Global) -> Result<Option<Command<'a, u64>>, AllocError>
        ensures { MayLack takes_memory self.entry result }
    {
        let OtherLine { verb, words } = self;
        match verb {
            OtherVerb::Node => node_line(words),
            OtherVerb::Close => close_line(words),
            OtherVerb::Publisher => publisher_line(words),
            OtherVerb::Subscriber => subscriber_line(words),
            OtherVerb::Service(verb) => of_service(alloc, verb, words),
        }
    }
}

/// What a line spells; the line is given without its newline. The values of a message are put into the scratch. It takes no memory.
///
/// It is `Fault` of `LineError::TooLong` if the line has more than 1,024 bytes, and of `LineError::Faulty` if it spells no command and
/// doesn't begin with the verb of a command that isn't on an existing port.
pub fn read_line<'a, 'b>(line: &'b [u8], scratch: &'a mut Scratch) -> ReadLine<'a, 'b>
    ensures { IsReadSoFar line.now result }
{
    if line.len() > 1_024 {
        return ReadLine::Fault(LineError::TooLong);
    }
    of_words(Words::new(line), scratch)
}

/// The command that a line spells; the line is given without its newline. The values of a message are put into the scratch.
///
/// The answer is `LineError::TooLong` if the line has more than 1,024 bytes, and otherwise `LineError::Faulty` if it spells no command.
/// Fails only if an allocation fails and the line spells a command with attributes or with actions of other nodes: all other commands take
/// no memory, and neither does finding that a line isn't a command.
pub fn read_command<'a>(
    alloc: Global,
    line: &[u8],
    scratch: &'a mut Scratch,
) -> Result<Result<Command<'a, u64>, LineError>, AllocError>
    ensures { Answers line.now result }
{
    match read_line(line, scratch) {
        ReadLine::OfPort(command) => Ok(Ok(command.into_command())),
        ReadLine::Fault(fault) => Ok(Err(fault)),
        ReadLine::Other(other) => match other.command(alloc) {
            Ok(Some(command)) => Ok(Ok(command)),
            Ok(None) => Ok(Err(LineError::Faulty)),
            Err(lacking) => Err(lacking),
        },
    }
}

/// What all words of a line spell.
#[tactic(auto, using(crate::proofs::ReadLineLemmas::of_first_verb, crate::proofs::ReadLineLemmas::of_first_service, crate::proofs::ReadLineLemmas::of_no_verb))]
fn of_words<'a, 'b>(words: Words<'b>, scratch: &'a mut Scratch) -> ReadLine<'a, 'b>
    requires { length words ≤ 1025 }
    ensures { AreReadAs (of_words words.entry) result }
{
    let mut words = words;
    let Some(word) = words.next() else {
        return ReadLine::Fault(LineError::Faulty);
    };
    if let Some(verb) = first_verb(word) {
        return of_verb(verb, words, scratch);
    }
    match service_verb(word) {
        Some(verb) => other_line(OtherVerb::Service(verb), words),
        None => ReadLine::Fault(LineError::Faulty),
    }
}

/// What a verb and the words after it spell.
#[tactic(auto, using(crate::proofs::ReadLineLemmas::port_verb_none, crate::proofs::PortLemmas::stayed, crate::proofs::PortLemmas::no_port_verb))]
fn of_verb<'a, 'b>(verb: Verb, words: Words<'b>, scratch: &'a mut Scratch) -> ReadLine<'a, 'b>
    requires { length words ≤ 1025 }
    ensures { AreReadAs (of_verb verb words.entry) result }
{
    match verb {
        Verb::Node => other_line(OtherVerb::Node, words),
        Verb::Close => other_line(OtherVerb::Close, words),
        Verb::Publisher => other_line(OtherVerb::Publisher, words),
        Verb::Subscriber => other_line(OtherVerb::Subscriber, words),
        _ => match of_port_verb(verb, words, scratch) {
            Some(command) => ReadLine::OfPort(command),
            None => ReadLine::Fault(LineError::Faulty),
        },
    }
}

/// A line that begins with the verb of a command that isn't on an existing port.
fn other_line<'a, 'b>(verb: OtherVerb, words: Words<'b>) -> ReadLine<'a, 'b>
    ensures { result ≡ read.Other (of_other verb words.entry) }
{
    ReadLine::Other(OtherLine { verb, words })
}

/// The command of a verb, if it is the verb of a command on an existing port.
fn of_port_verb<'a>(
    verb: Verb,
    words: Words,
    scratch: &'a mut Scratch,
) -> Option<PortCommand<'a, u64>>
    requires { length words ≤ 1025 }
    ensures { option_map command_of result ≡ if_of_port (of_verb verb words.entry) }
{
    match verb {
        Verb::Node | Verb::Close | Verb::Publisher | Verb::Subscriber => None,
        Verb::Loan => {
            let (publisher, length) = with_number(b'p', words)?;
            Some(PortCommand::Loan { publisher, length })
        }
        Verb::LoanUninit => {
            let (publisher, length) = with_number(b'p', words)?;
            Some(PortCommand::LoanUninit { publisher, length })
        }
        Verb::Set => {
            let (loan, place, value) = with_two(b'l', words)?;
            Some(PortCommand::Set { loan, place, value })
        }
        Verb::Fill => {
            let (loan, values) = with_values(b'l', words, scratch)?;
            Some(PortCommand::Fill { loan, values })
        }
        Verb::Drop => {
            let loan = only(b'l', words)?;
            Some(PortCommand::Drop { loan })
        }
        Verb::Send => {
            let loan = only(b'l', words)?;
            Some(PortCommand::Send { loan })
        }
        Verb::Put => {
            let (publisher, values) = with_values(b'p', words, scratch)?;
            Some(PortCommand::Put { publisher, values })
        }
        Verb::Retry => {
            let (publisher, nanoseconds) = with_number(b'p', words)?;
            Some(PortCommand::Retry {
                publisher,
                nanoseconds,
            })
        }
        Verb::GiveUp => {
            let publisher = only(b'p', words)?;
            Some(PortCommand::GiveUp { publisher })
        }
        Verb::Receive => {
            let subscriber = only(b's', words)?;
            Some(PortCommand::Receive { subscriber })
        }
        Verb::Read => {
            let sample = only(b'm', words)?;
            Some(PortCommand::Read { sample })
        }
        Verb::Sequence => {
            let sample = only(b'm', words)?;
            Some(PortCommand::Sequence { sample })
        }
        Verb::Release => {
            let sample = only(b'm', words)?;
            Some(PortCommand::Release { sample })
        }
        Verb::Update => {
            let port = port(words)?;
            Some(PortCommand::Update { port })
        }
        Verb::Leave => {
            let port = port(words)?;
            Some(PortCommand::Leave { port })
        }
        Verb::Has => {
            let subscriber = only(b's', words)?;
            Some(PortCommand::Has { subscriber })
        }
    }
}

// These answer what `OtherLine::command` answers, though they take no memory: a command is large, and so it is made where it is returned.

fn node_line<'a>(words: Words) -> Result<Option<Command<'a, u64>>, AllocError>
    ensures { result ≡ Ok (of_verb verbs.Node words.entry) }
{
    if !words.is_empty() {
        return Ok(None);
    }
    Ok(Some(Command::Node))
}

fn close_line<'a>(words: Words) -> Result<Option<Command<'a, u64>>, AllocError>
    ensures { result ≡ Ok (of_verb verbs.Close words.entry) }
{
    match only(b'f', words) {
        Some(factory) => Ok(Some(Command::Close { factory })),
        None => Ok(None),
    }
}

#[inline(never)]
fn publisher_line<'a>(words: Words) -> Result<Option<Command<'a, u64>>, AllocError>
    ensures { result ≡ Ok (publisher_command words.entry) }
{
    let mut words = words;
    let Some(word) = words.next() else {
        return Ok(None);
    };
    let Some(factory) = numbered(b'f', word) else {
        return Ok(None);
    };
    let Some(options) = publisher_options(&words) else {
        return Ok(None);
    };
    Ok(Some(Command::Publisher { factory, options }))
}

#[inline(never)]
fn subscriber_line<'a>(words: Words) -> Result<Option<Command<'a, u64>>, AllocError>
    ensures { result ≡ Ok (subscriber_command words.entry) }
{
    let mut words = words;
    let Some(word) = words.next() else {
        return Ok(None);
    };
    let Some(factory) = numbered(b'f', word) else {
        return Ok(None);
    };
    let Some(options) = subscriber_options(&words) else {
        return Ok(None);
    };
    Ok(Some(Command::Subscriber { factory, options }))
}
