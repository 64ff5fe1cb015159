//! What nodes agree on, and what a conversation says about it, compared with rows that were written independently. The tests check
//! what no contract of descriptions, negotiation and conversations can say, for example that a call with ample memory succeeds.
//!
//! `lines` checks the one line of each of five services, hashes, and texts that are nearly such a line; `sizes` checks descriptions
//! and attributes of all sizes, and their copies; `services` checks a service in a table from its creation to its end; `setters`
//! checks what each setter of a builder asks for; `tables` checks texts of all sizes, and any number of actions of other nodes;
//! `streams` checks readers and writers that give or take little at a time, or fail. The scripts in `crates/iox/stdin` check what
//! nodes answer each other, which clause refuses which opener, and which line is faulty.
mod echo;
mod lines;
mod services;
mod setters;
mod sizes;
mod streams;
mod tables;
