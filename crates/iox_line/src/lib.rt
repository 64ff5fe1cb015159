//! Script lines: from the bytes of a line to the command that it spells, and from a reply to the bytes of its line.
//!
//! `specs/Spelling.antt` says which bytes spell a command, `specs/ReplyText.antt` which bytes each reply has.
//!
//! | Module | What it has |
//! |---|---|
//! | `text` | words, numbers and options |
//! | `services` | how a line names a service |
//! | `attributes` | how a line names attributes |
//! | `steps` | how a line names actions of other nodes |
//! | `verb` | the first word of a line |
//! | `scratch` | memory for the values of a line |
//! | `arguments` | the numbers after the first word |
//! | `port_options` | the options of a publisher and of a subscriber |
//! | `service` | lines that name a service |
//! | `read` | from a line to its command |
//! | `laws` | a line spells at most one command, and each command has a line |
//! | `print` | from a reply to its line |
//! | `error` | why a line isn't a command |
//!
//! A first call:
//!
//! ```
//! /// `iox_line`: whether a line is taken for a command, which it then spells.
//! fn is_command(alloc: Global, line: &[u8], scratch: &mut Scratch) -> Result<bool, AllocError>
//!     ensures { IfOk result (λ is. is ≡ true → (command : Command ℕ) × Spells line.now command) }
//! {
//!     match read_command(alloc, line, scratch)? {
//!         Ok(_) => Ok(true),
//!         Err(_) => Ok(false),
//!     }
//! }
//! ```
#![tactic(auto)]

mod arguments;
pub mod attributes;
pub mod error;
pub mod laws;
mod port_options;
pub mod print;
pub mod read;
pub mod scratch;
mod service;
pub mod services;
pub mod steps;
pub mod text;
pub mod verb;

pub use error::LineError;
pub use print::print_reply;
pub use read::{OtherLine, ReadLine, read_command, read_line};
pub use scratch::Scratch;
