//! Cases of lanes: the first line names the sizes of the lanes, and each further line is a question to these lanes, or a call.
//!
//! `N times LINES` prints the answers of the last repetition. A line `measure N times LINES` is answered like `N times LINES`, and a line
//! `measure LINE` like that line; a case of `./check` counts the instructions that it takes.
mod calling;
mod making;
mod parties;
mod viewing;

use crate::counted;
use crate::said::Said;
use crate::words::word;
use iox_lanes_machine::LaneMachine;
use std::alloc::{AllocError, Global};
use std::io;

// What a line about lanes answers.
fn answered<'a>(
    alloc: Global,
    lanes: &'a mut LaneMachine,
    line: &str,
) -> Result<Said<'a>, AllocError> {
    let mut words = line.split_whitespace();
    let first = word(&mut words);
    viewing::answer(alloc, lanes, first, &mut words)
}

// What lines answer this time, each answer after a space; a `#` in them is the number of the time.
fn heard(
    alloc: Global,
    lanes: &mut LaneMachine,
    lines: &str,
    time: usize,
) -> Result<String, AllocError> {
    let number = format!(in alloc; "{}", time.saturating_add(1))?;
    let said = lines.replace(alloc, "#", number.as_str())?;
    let mut told = String::new(alloc);
    for line in said.as_str().split("; ") {
        let answer = answered(alloc, lanes, line)?;
        told = format!(in alloc; "{told} {answer}")?;
    }
    Ok(told)
}

// What lines answer the last time that they are said.
fn heard_last(
    alloc: Global,
    lanes: &mut LaneMachine,
    (times, once): (usize, &str),
) -> Result<String, AllocError> {
    let mut last = String::new(alloc);
    for time in 0..times {
        last = heard(alloc, lanes, once, time)?;
    }
    Ok(last)
}

// Prints a line of lanes, and then its answers.
fn serve_line(
    rt: &HostRuntime,
    alloc: Global,
    lanes: &mut LaneMachine,
    line: &str,
) -> io::Result<()> {
    print!(rt; "{line} ->")?;
    let answers = heard_last(alloc, lanes, counted(line))?;
    println!(rt; "{answers}")
}

// Prints each line of lanes with its answer.
fn serve_lanes(
    rt: &HostRuntime,
    alloc: Global,
    lanes: &mut LaneMachine,
    lines: &str,
) -> io::Result<()> {
    for line in lines.lines() {
        serve_line(rt, alloc, lanes, line)?;
    }
    Ok(())
}

/// Prints the first line, which names the sizes of the lanes, and each line after it with its answer.
pub(crate) fn answer_lanes(rt: &HostRuntime, alloc: Global, lines: &str) -> io::Result<()> {
    let (head, rest) = lines.split_once('\n').unwrap_or((lines, ""));
    println!(rt; "{head}")?;
    match making::lanes(alloc, head)? {
        Some(mut lanes) => serve_lanes(rt, alloc, &mut lanes, rest),
        None => Ok(()),
    }
}
