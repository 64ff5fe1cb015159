//! Tests of what no contract says: of ports as values; of a hub that is driven by typed calls, by commands and as a recorded hub; and of a
//! service that is stepped by lanes.
//!
//! The contracts of the calls state their results. These tests check that each call that makes something succeeds with ample memory, at all
//! sizes. What commands can express is tested by lines of scripts, in `crates/script_cases`.
//!
//! - `services`: services of a hub.
//! - `conversations`: messages of single values from node to node, up to the last sequence number.
//! - `slices`: messages of slices in a domain.
//! - `asked`: what the handler of a port is asked about a connection for which no memory is found.
//! - `clones`: what ports report whose builders were cloned.
//! - `custom`: ports of a payload type that only the description defines.
//! - `ports`: the conditions that must hold before a call of a port.
//! - `making`: ports and domains are made, or report that memory ran out.
//! - `handled`: handlers that commands name by their places.
//! - `lanes`: a service of a hub is stepped by lanes, and then driven by commands again.
//! - `recorded`: a recorded hub, called as a program calls it.
//! - `texts`: how errors display and hash, and what handles show.
//! - `values`: the text form of values, and the objects that a caller hands in.
#![tactic(auto)]

#[cfg(test)]
mod asked;
#[cfg(test)]
mod clones;
#[cfg(test)]
mod conversations;
#[cfg(test)]
mod custom;
#[cfg(test)]
mod handled;
#[cfg(test)]
mod lanes;
#[cfg(test)]
mod making;
#[cfg(test)]
mod ports;
#[cfg(test)]
mod recorded;
#[cfg(test)]
mod services;
#[cfg(test)]
mod slices;
#[cfg(test)]
mod texts;
#[cfg(test)]
mod values;
