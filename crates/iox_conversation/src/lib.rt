//! Lines in, lines out: a conversation of any machine that answers lines, over any reader and writer.
//!
//! The contract of `serve` says that, for any reader and writer whose contracts say which bytes they moved, what was written are the
//! answers, in order, to the lines read: `specs/Conversation.antt`. The answer to a line is a member of the machine.
//!
//! | Module | What it has |
//! |---|---|
//! | `machine` | a machine that answers lines |
//! | `input` | a reader, with what its calls have returned |
//! | `output` | a writer, with what its calls have returned |
//! | `write_all` | all of a text, in as many write calls as it takes |
//! | `session` | the machine that answers, and the line that isn't whole yet |
//! | `conversation` | all lines of an input |
//! | `error` | why a conversation ended, and how a program reports it |
//!
//! A first call:
//!
//! ```
//! #[derive(Drop)]
//! struct Listener;
//!
//! impl AnswersLines for Listener {
//!     ghost answers = { λ old line text new. text ≡ codes "said " ++ line };
//!
//!     ghost used = { λ listener. 0 };
//!
//!     fn answer_line(
//!         &mut self,
//!         _alloc: Global,
//!         line: &[u8],
//!         out: &mut Vec<u8>,
//!     ) -> Result<(), AllocError> {
//!         out.extend_from_slice(b"said ")?;
//!         out.extend_from_slice(line)
//!     }
//! }
//!
//! fn main(rt: HostRuntime) -> ExitCode {
//!     let mut input = Input::new(rt.stdin());
//!     let mut output = Output::new(rt.stdout());
//!     ExitCode::from(status(serve(rt.alloc(), Listener, &mut input, &mut output)))
//! }
//! ```
#![tactic(auto)]

pub mod conversation;
pub mod error;
pub mod input;
pub mod machine;
pub mod output;
mod session;
mod write_all;

pub use conversation::{READ_CALLS, serve};
pub use error::{ServeError, status};
pub use input::Input;
pub use machine::AnswersLines;
pub use output::Output;
