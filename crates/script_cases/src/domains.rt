//! Cases of a domain that is taken out of its hub and put back there, with script lines before and behind.
//!
//! `take 1` takes the domain of the service of factory 1 out, and `put` puts it back; each is told whether it went. Any other line is a
//! script's. `N times LINES` is told the replies of the last time.
ghost use Rattle.std.specs.Prelude.{◌≡◌, ◌<◌, ◌^◌, true};
ghost use Rattle.iox_hub_commands.specs.Numbers.{numbers_used};

use crate::counted;
use iox_hub_base::Domain;
use iox_hub_commands::{FixedDegradation, FixedHandlers, HubConfig, NumberedHub};
use iox_script::{Scratch, print_reply, read_command};
use std::alloc::{AllocError, Global};
use std::io;

type Numbers = NumberedHub<u64, u64, FixedHandlers, FixedDegradation>;

type Out = Domain<u64, u64, FixedHandlers, FixedDegradation>;

// More numbers than a case uses.
const MANY: u64 = 1_000_000;

// No line is told more bytes.
const ROOM: usize = 1024;

// Whether fewer than many numbers of each kind were given out.
fn are_few(hub: &Numbers) -> bool
    ensures { result ≡ true → numbers_used hub.now < 2 ^ 32 }
{
    hub.factories.made.next_number() < MANY
        && hub.made.publishers.next_number() < MANY
        && hub.made.subscribers.next_number() < MANY
        && hub.made.loans.next_number() < MANY
        && hub.made.samples.next_number() < MANY
}

// A hub, the domain that is out of it, and what lines were told.
struct World {
    hub: Numbers,
    out: Option<Out>,
    scratch: Scratch,
    told: Vec<u8>,
}

impl Drop for World {
    fn drop(self) {
        let World {
            hub: _,
            out: _,
            scratch: _,
            told: _,
        } = self;
    }
}

// Appends the reply to a line of a script; a line that is none has none.
fn reply(
    alloc: Global,
    hub: &mut Numbers,
    scratch: &mut Scratch,
    line: &str,
    told: &mut Vec<u8>,
) -> Result<(), AllocError> {
    if !are_few(hub) {
        return Ok(());
    }
    match read_command(alloc, line.as_bytes(), scratch)? {
        Ok(command) => print_reply(&hub.step(alloc, command)?, told),
        Err(_) => Ok(()),
    }
}

// Puts a value in its place, if there is one; whether there is. Any type's goes so, so that no caller pays for how it is dropped.
fn keep<X: Drop>(place: &mut Option<X>, value: Option<X>) -> bool {
    match value {
        Some(value) => {
            drop(place.replace(value));
            true
        }
        None => false,
    }
}

// Whether there is no fault.
fn went<E: Drop>(came: Result<(), E>) -> bool {
    came.is_ok()
}

// The domain of the service of a factory, if it is there.
fn taken(hub: &mut Numbers, number: u64) -> Option<Out> {
    let service = hub.factories.publish_subscribe(number)?;
    if hub.hub.holds(service) {
        hub.hub.take_domain(service).ok()
    } else {
        None
    }
}

// Whether the domain that is out is put back.
fn puts(hub: &mut Numbers, out: &mut Option<Out>) -> bool {
    match out.take() {
        Some(domain) => went(hub.hub.put_domain(domain)),
        None => false,
    }
}

// Appends what a line is told.
fn answer(alloc: Global, world: &mut World, line: &str) -> Result<(), AllocError> {
    let went = if let Some(number) = line.strip_prefix("take ") {
        keep(
            &mut world.out,
            taken(&mut world.hub, number.parse::<u64>().unwrap_or(0)),
        )
    } else if line == "put" {
        puts(&mut world.hub, &mut world.out)
    } else {
        return reply(
            alloc,
            &mut world.hub,
            &mut world.scratch,
            line,
            &mut world.told,
        );
    };
    world
        .told
        .extend_from_slice(if went { b"true" } else { b"false" })
}

// What lines are told once.
fn answer_all(alloc: Global, world: &mut World, lines: &str) -> Result<(), AllocError> {
    world.told.clear();
    for line in lines.split("; ") {
        world.told.push(b' ')?;
        answer(alloc, world, line)?;
    }
    Ok(())
}

// The same of lines in which a `#` is the number of the time.
fn answer_again(
    alloc: Global,
    world: &mut World,
    lines: &str,
    time: usize,
) -> Result<(), AllocError> {
    let number = format!(in alloc; "{}", time.saturating_add(1))?;
    let said = lines.replace(alloc, "#", number.as_str())?;
    answer_all(alloc, world, said.as_str())
}

// What lines are told the last of so many times.
fn answer_times(
    alloc: Global,
    world: &mut World,
    (times, once): (usize, &str),
) -> Result<(), AllocError> {
    if times == 1 {
        return answer_all(alloc, world, once);
    }
    for time in 0..times {
        answer_again(alloc, world, once, time)?;
    }
    Ok(())
}

// Prints a line with what it is told.
fn tell_line(rt: &HostRuntime, alloc: Global, world: &mut World, line: &str) -> io::Result<()> {
    print!(rt; "{line} ->")?;
    answer_times(alloc, world, counted(line))?;
    println!(rt; "{}", str::from_utf8(world.told.as_slice()).unwrap_or(""))
}

// Prints each line with what it is told.
fn tell_lines(rt: &HostRuntime, alloc: Global, world: &mut World, lines: &str) -> io::Result<()> {
    for line in lines.lines() {
        tell_line(rt, alloc, world, line)?;
    }
    Ok(())
}

// A new hub, with room for what a line is told.
fn new_world(alloc: Global, config: HubConfig) -> Result<World, AllocError> {
    let scratch = Scratch::new(alloc)?;
    Ok(World {
        told: Vec::with_capacity(alloc, ROOM)?,
        scratch,
        out: None,
        hub: Numbers::new(alloc, config),
    })
}

/// Prints the line `hub`, and each line behind it with what it is told.
pub(crate) fn answer_hub(
    rt: &HostRuntime,
    alloc: Global,
    config: HubConfig,
    lines: &str,
) -> io::Result<()> {
    let (head, rest) = lines.split_once('\n').unwrap_or((lines, ""));
    println!(rt; "{head}")?;
    match new_world(alloc, config) {
        Ok(mut world) => tell_lines(rt, alloc, &mut world, rest),
        Err(AllocError) => Ok(()),
    }
}
