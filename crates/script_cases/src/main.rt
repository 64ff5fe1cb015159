//! Runs blocks of script lines, each block on a new hub, and prints each line with its reply beside it.
//!
//! Standard input has the blocks, with an empty line between two of them. The first line of a block is its title. With a title
//! `expired N: ..`, a subscriber keeps at most N connections of closed publishers; otherwise at most 128.
//!
//! `N times LINES` stands for these lines N times, where `; ` separates two lines. A `#` in them is the number of the repetition, counted
//! from one. The answers are the replies of the first repetition, and those of the last one if any of them differ.
//!
//! A last line `faults` repeats the lines before it in new conversations, once for each read that may fail and once for each write. Such a
//! conversation reads one line at a time, and writes its reply. The answer is how many of the failing reads, and how many of the failing
//! writes, ended the conversation with the status of that fault, and with exactly the replies to the lines before.
//!
//! A block whose title begins with `storage` has calls of builders instead of script lines: for example
//! `create ps Absent Taken Made Published`. The storage of the call gives the answers that the line names, one for each storage operation.
//! The reply has the result of the call, the number of storage operations, and after `close` also the result of a close; `amiss` counts the
//! answers that fitted no operation, were missing, or were left over.
//!
//! A block whose second line begins with `lanes` has lines about lanes of the sizes that it names. A block whose second line begins with
//! `steps` has lines about a machine whose parties make their calls one step at a time. A block whose second line is `hub` has script
//! lines, and others that take a domain out of the hub.
//!
//! The expected standard output is typed manually from the formats, and standard input has its lines without their replies.
#![tactic(auto)]

mod domains;
mod faults;
mod lanes;
mod said;
mod steps;
mod storages;
mod words;

use domains::answer_hub;
use faults::left_by_faults;
use iox_script::{HubConfig, Input, Output, serve};
use lanes::answer_lanes;
use std::alloc::{AllocError, Global};
use std::io;
use std::str::Lines;
use steps::answer_steps;
use storages::answered;

/// The maximum number of connections of closed publishers that a subscriber keeps, unless the title says another one.
const EXPIRED_CONNECTION_BUFFER: u32 = 128;

fn main(rt: HostRuntime) -> io::Result<()> {
    let text = io::read_to_string(rt.alloc(), rt.stdin())?;
    for block in text.split("\n\n") {
        answer_block(&rt, block)?;
    }
    Ok(())
}

// Prints a block with its answers, and the empty line after it.
fn answer_block(rt: &HostRuntime, block: &str) -> io::Result<()> {
    let (title, lines) = block.split_once('\n').unwrap_or((block, ""));
    println!(rt; "{title}")?;
    answer_lines(rt, title, lines)?;
    println!(rt; "")
}

fn answer_lines(rt: &HostRuntime, title: &str, lines: &str) -> io::Result<()> {
    if title.starts_with("storage") {
        answer_builders(rt, lines)
    } else if lines.starts_with("lanes ") {
        answer_lanes(rt, rt.alloc(), lines)
    } else if lines.starts_with("steps ") {
        answer_steps(rt, rt.alloc(), lines)
    } else if lines.starts_with("hub\n") {
        answer_hub(rt, rt.alloc(), config(title), lines)
    } else {
        answer(rt, config(title), lines)
    }
}

// Prints each call of a builder with what it comes to over a storage that gives these answers.
fn answer_builders(rt: &HostRuntime, lines: &str) -> io::Result<()> {
    for line in lines.lines() {
        answer_builder(rt, line)?;
    }
    Ok(())
}

fn answer_builder(rt: &HostRuntime, line: &str) -> io::Result<()> {
    let told = answered(rt.alloc(), line)?;
    println!(rt; "{line} -> {told}")
}

// How many connections of closed publishers a subscriber keeps.
fn expired(title: &str) -> Option<u32> {
    let (_, rest) = title.split_once("expired ")?;
    let (number, _) = rest.split_once(':')?;
    number.parse::<u32>().ok()
}

fn config(title: &str) -> HubConfig {
    HubConfig {
        expired_connection_buffer: expired(title).unwrap_or(EXPIRED_CONNECTION_BUFFER),
        id: 0,
    }
}

// Prints each line of a block with what a new hub replies.
fn answer(rt: &HostRuntime, config: HubConfig, lines: &str) -> io::Result<()> {
    let said = lines.strip_suffix("\nfaults").unwrap_or(lines);
    let script = spelled(rt.alloc(), said)?;
    let replies = replied(rt.alloc(), config, script.as_bytes());
    tell(rt, said, &mut replies.lines())?;
    if said == lines {
        Ok(())
    } else {
        tell_faults(rt, config, script.as_str(), replies.as_str())
    }
}

fn tell_faults(rt: &HostRuntime, config: HubConfig, script: &str, replies: &str) -> io::Result<()> {
    let (reads, writes) = left_by_faults(rt.alloc(), config, script, replies);
    println!(rt; "faults -> {reads} reads, {writes} writes")
}

// How often lines are said, and the lines.
pub(crate) fn counted(line: &str) -> (usize, &str) {
    let line = line.strip_prefix("measure ").unwrap_or(line);
    let Some((number, once)) = line.split_once(" times ") else {
        return (1, line);
    };
    match number.parse::<usize>() {
        Ok(times) => (times, once),
        Err(_) => (1, line),
    }
}

// The lines as they are said, one after the other.
fn spelled(alloc: Global, lines: &str) -> Result<String, AllocError> {
    let mut script = String::new(alloc);
    for line in lines.lines() {
        spell(alloc, &mut script, line)?;
    }
    Ok(script)
}

// Says lines as often as they ask for.
fn spell(alloc: Global, script: &mut String, line: &str) -> Result<(), AllocError> {
    let (times, once) = counted(line);
    let once = once.replace(alloc, "; ", "\n")?;
    for time in 0..times {
        say(alloc, script, once.as_str(), time)?;
    }
    Ok(())
}

// Says lines once more, after this many times.
fn say(alloc: Global, script: &mut String, once: &str, time: usize) -> Result<(), AllocError> {
    let number = format!(in alloc; "{}", time.saturating_add(1))?;
    let numbered = once.replace(alloc, "#", number.as_str())?;
    script.push_str(numbered.as_str())?;
    script.push('\n')
}

// What a new hub replies to a script.
fn replied(alloc: Global, config: HubConfig, script: &[u8]) -> String {
    let mut output = Output::new(Vec::new(alloc));
    let _ = serve(alloc, config, &mut Input::new(script), &mut output);
    String::from_utf8(output.into_writer()).unwrap_or(String::new(alloc))
}

// The next replies, as many as lines are said at once.
fn heard(alloc: Global, lines: usize, replies: &mut Lines<'_>) -> Result<String, AllocError> {
    let mut text = String::new(alloc);
    for place in 0..lines {
        push_reply(&mut text, place, replies.next().unwrap_or(""))?;
    }
    Ok(text)
}

fn push_reply(text: &mut String, place: usize, reply: &str) -> Result<(), AllocError> {
    if place > 0 {
        text.push_str("; ")?;
    }
    text.push_str(reply)
}

// The reply to lines that may be repeated: the first one's, and the last one's if any differs from it.
fn told(alloc: Global, line: &str, replies: &mut Lines<'_>) -> Result<String, AllocError> {
    let (times, once) = counted(line);
    let lines = once.split("; ").count();
    let first = heard(alloc, lines, replies)?;
    match last_if_other(alloc, first.as_str(), (times, lines), replies)? {
        Some(last) => format!(in alloc; "{first} .. {last}"),
        None => Ok(first),
    }
}

// The reply to the last repetition of these lines, if any repetition is answered otherwise than the first.
fn last_if_other(
    alloc: Global,
    first: &str,
    (times, lines): (usize, usize),
    replies: &mut Lines<'_>,
) -> Result<Option<String>, AllocError> {
    let mut last = String::new(alloc);
    let mut differs = false;
    for _ in 1..times {
        last = heard(alloc, lines, replies)?;
        differs = differs || last.as_str() != first;
    }
    Ok(if differs { Some(last) } else { None })
}

// Prints each line with its reply.
fn tell(rt: &HostRuntime, lines: &str, replies: &mut Lines<'_>) -> io::Result<()> {
    for line in lines.lines() {
        tell_line(rt, line, replies)?;
    }
    Ok(())
}

fn tell_line(rt: &HostRuntime, line: &str, replies: &mut Lines<'_>) -> io::Result<()> {
    let answer = told(rt.alloc(), line, replies)?;
    println!(rt; "{line} -> {answer}")
}
