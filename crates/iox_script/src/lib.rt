//! The hub over bytes: one command a line in, one reply a line out.
//!
//! The contract of `serve` says that, for any reader and writer that report truthfully how many bytes they moved, what was written are the
//! reply lines, in order, of the lines read, and that the replies to commands are a run of a new hub, by `Step`: `specs/Conversation.antt`.
//! `iox_conversation` has how lines are read and answered, `iox_line` which bytes spell a command and which bytes each reply has, and
//! `iox_hub_commands` what a command does. `specs/Answered.antt` says the same in terms of the machine (`docs/MACHINE.md`).
//!
//! | Module | What it has |
//! |---|---|
//! | `script` | a hub that a script drives |
//!
//! First calls. The program `iox` makes them.
//!
//! ```
//! let mut input = Input::new(rt.stdin());
//! let mut output = Output::new(rt.stdout());
//! let ending = serve(rt.alloc(), config, &mut input, &mut output);
//! ExitCode::from(status(ending))
//! ```
#![tactic(auto)]

pub mod script;

pub use iox_conversation::{Input, Output, READ_CALLS, ServeError, status};
pub use iox_hub_commands::HubConfig;
pub use iox_line::{LineError, Scratch, print_reply, read_command};
pub use script::{Script, serve};
