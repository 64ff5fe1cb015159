//! Tests of what no contract of lanes can say, and no line of `script_cases`.
//!
//! The crate has no items of its own, only tests. Lanes alone: `random` runs random schedules, and compares them with what is `known` of
//! the messages; `counted` runs a whole schedule by one call; `messages` reads the messages that lanes keep; `in_turn` sends messages by
//! calls that don't overlap. Lanes in threads: `service` makes services of two publishers and two subscribers; in `streams` the publishers
//! send numbers, and in `turns` two ports answer each other, once all threads run (`start`); `boards` calls the ports of three boards one
//! after the other. In `wide` values have three words, by lanes and by ports. `measured` has the calls whose cost `./check` counts.
//! `answers` has the checks of results, and `texts` checks how errors display.
//!
//! `stepping` hands on the calls of lanes without their contracts, so that these are read only once; `calls` has the calls that cases name.
//!
//! Domains become lanes, go on in threads, and become domains again:
//!
//! - `domain`: a domain, by the calls of its ports.
//! - `lanes`: what its lanes send and receive.
//! - `threads`: what its ports send and receive in threads.
//! - `typed`: the same of ports that know the types of their service.
//! - `ending`: a board doesn't end if a port is missing or belongs to another board.
//! - `changes`: a domain becomes lanes, lanes become ports in threads, and both become a domain again.
//! - `worlds`: the steps of a case.
//! - `refusals`: each reason why a domain can't become lanes.
//! - `returns`: what lanes find in a domain, and what lanes and threads leave in it.
//! - `sizes`: domains with up to 1,000 messages, and with up to 64 publishers and subscribers.
//!
//! `asked` has a publisher of a domain alone: what its handler is asked.
#![tactic(auto)]

#[cfg(test)]
mod answers;
#[cfg(test)]
mod asked;
#[cfg(test)]
mod boards;
#[cfg(test)]
mod calls;
#[cfg(test)]
mod changes;
#[cfg(test)]
mod counted;
#[cfg(test)]
mod domain;
#[cfg(test)]
mod ending;
#[cfg(test)]
mod in_turn;
#[cfg(test)]
mod known;
#[cfg(test)]
mod lanes;
#[cfg(test)]
mod measured;
#[cfg(test)]
mod messages;
#[cfg(test)]
mod random;
#[cfg(test)]
mod refusals;
#[cfg(test)]
mod returns;
#[cfg(test)]
mod service;
#[cfg(test)]
mod sizes;
#[cfg(test)]
mod start;
#[cfg(test)]
mod stepping;
#[cfg(test)]
mod streams;
#[cfg(test)]
mod texts;
#[cfg(test)]
mod threads;
#[cfg(test)]
mod turns;
#[cfg(test)]
mod typed;
#[cfg(test)]
mod wide;
#[cfg(test)]
mod worlds;
