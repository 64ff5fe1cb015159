//! Draws, records, replays or forwards a conversation with a hub. The first argument says which; without one it is `draw`.
//!
//! | Argument | Standard input | Standard output |
//! |---|---|---|
//! | `draw` | a conversation | its picture, as SVG |
//! | `record` | a conversation | its record, as CSV |
//! | `replay` | a record | the script that it recorded |
//! | `serve` | the replies of a hub | for each a line for another hub |
//! | `all` | a conversation | its picture, its record, the script of that record, and the lines for its replies, each below its name |
//!
//! A conversation has one row for each line of the script: the line, a tab, and its reply, as `paste` writes them. With any other argument
//! the program ends with status 64.
//!
//! | Module | What it has |
//! |---|---|
//! | `exchange` | lines with their replies, as rows of a text |
//! | `arrows` | which line sent what a line received |
//! | `drawing` | strokes and texts in rows, as SVG |
//! | `lifelines` | what a picture shows beside arrows |
//! | `picture` | the picture of a conversation |
//! | `record` | the record of a conversation |
//! | `replay` | the script of a record |
//! | `gateway` | from the replies of one hub to the lines of another |
#![tactic(auto)]

mod arrows;
mod drawing;
mod exchange;
mod gateway;
mod lifelines;
mod picture;
mod record;
mod replay;

use exchange::{Exchange, conversation};
use gateway::{Gateway, replies};
use iox_conversation::{Input, Output, serve, status};
use picture::picture;
use record::record;
use replay::replay;
use std::env;
use std::io::{self, Read};
use std::process::ExitCode;

/// The exit status if nothing can be printed.
const FAILED: u8 = 1;

/// The status after an argument that isn't known.
const MISUSED: u8 = 64;

const NO_RECORD: &str = "the record wasn't written";

const NO_TABLE: &str = "the table can't be read";

fn main(rt: HostRuntime) -> io::Result<ExitCode> {
    let word = env::args(&rt)?.nth(1);
    give(&rt, word.as_deref().unwrap_or("draw"))
}

/// Prints what an argument asks for.
fn give(rt: &HostRuntime, word: &str) -> io::Result<ExitCode> {
    match word {
        "draw" | "record" | "replay" | "all" => answer(rt, word, &read(rt)?),
        "serve" => Ok(carry(rt, rt.stdin())),
        _ => end(
            rt,
            MISUSED,
            "the argument is draw, record, replay, serve or all",
        ),
    }
}

/// Says why nothing is printed, and ends with this status.
fn end(rt: &HostRuntime, status: u8, why: &str) -> io::Result<ExitCode> {
    rt.eprintln(why)?;
    Ok(ExitCode::from(status))
}

/// All of standard input.
fn read(rt: &HostRuntime) -> io::Result<Vec<u8>> {
    let mut text = Vec::new(rt.alloc());
    rt.stdin().read_to_end(&mut text)?;
    Ok(text)
}

/// Prints what an argument asks for, made of a text.
fn answer(rt: &HostRuntime, word: &str, text: &[u8]) -> io::Result<ExitCode> {
    if word == "replay" {
        return print_made(rt, replay(rt.alloc(), text), NO_TABLE);
    }
    let conversation = conversation(rt.alloc(), text)?;
    match word {
        "draw" => print_picture(rt, &conversation),
        "record" => print_made(rt, record(rt.alloc(), &conversation), NO_RECORD),
        _ => print_all(rt, &conversation),
    }
}

fn print(rt: &HostRuntime, text: &[u8]) -> io::Result<ExitCode> {
    rt.write_all(text)?;
    Ok(ExitCode::SUCCESS)
}

/// Prints a table or a script, or says why there is none.
fn print_made(rt: &HostRuntime, made: csv::Result<Vec<u8>>, why: &str) -> io::Result<ExitCode> {
    match made {
        Ok(text) => print(rt, &text),
        Err(_) => end(rt, FAILED, why),
    }
}

fn print_picture(rt: &HostRuntime, conversation: &[Exchange<'_>]) -> io::Result<ExitCode> {
    let picture = picture(rt.alloc(), conversation)?;
    print(rt, picture.as_bytes())
}

/// Answers replies of a hub, as they come, by the lines for another.
fn carry<R: Read + Drop>(rt: &HostRuntime, replies: R) -> ExitCode {
    let mut input = Input::new(replies);
    let mut output = Output::new(rt.stdout());
    ExitCode::from(status(serve(rt.alloc(), Gateway, &mut input, &mut output)))
}

/// Prints what all other arguments print of a conversation, each below its name.
fn print_all(rt: &HostRuntime, conversation: &[Exchange<'_>]) -> io::Result<ExitCode> {
    rt.println("picture:")?;
    let _ = print_picture(rt, conversation)?;
    match record(rt.alloc(), conversation) {
        Ok(table) => print_table(rt, conversation, &table),
        Err(_) => end(rt, FAILED, NO_RECORD),
    }
}

fn print_table(
    rt: &HostRuntime,
    conversation: &[Exchange<'_>],
    table: &[u8],
) -> io::Result<ExitCode> {
    rt.println("record:")?;
    rt.write_all(table)?;
    match replay(rt.alloc(), table) {
        Ok(script) => print_lines(rt, conversation, &script),
        Err(_) => end(rt, FAILED, NO_TABLE),
    }
}

fn print_lines(
    rt: &HostRuntime,
    conversation: &[Exchange<'_>],
    script: &[u8],
) -> io::Result<ExitCode> {
    rt.println("script of the record:")?;
    rt.write_all(script)?;
    rt.println("lines for another hub:")?;
    let replies = replies(rt.alloc(), conversation)?;
    Ok(carry(rt, &replies[..]))
}
