//! The words of a script line: what single words spell, and options in any order.
//!
//! | Module | What it has |
//! |---|---|
//! | `words` | the words of a line, one after the other, and other pieces of a text |
//! | `number` | numbers, and numbers with the letter of their kind |
//! | `options` | options of the form `key=value`, in any order |
//! | `value` | the values of options |
//! | `visible` | texts of visible bytes |
//!
//! A first call. `read_command` makes it.
//!
//! ```
//! let words = Words::new(line);
//! ```

pub mod number;
pub mod options;
pub mod value;
pub mod visible;
pub mod words;

pub use words::Words;
