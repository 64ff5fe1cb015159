//! Semantic strings: texts of fixed capacity that always obey the rules of their type.
//!
//! | Module | What it has |
//! |---|---|
//! | `rules` | `Rules`: which texts a type refuses, and their normal form |
//! | `semantic` | `Semantic`: a text that its rules accept |
//! | `error` | why a semantic string wasn't created or changed |
//!
//! No call allocates, and a refused call changes nothing.
//!
//! A first call:
//!
//! ```
//! /// `iox_container`: a file's name with one more byte; None if that is not a file's name.
//! fn longer(name: &[u8], byte: u8) -> Option<Semantic<FileName, 32>>
//!     ensures { IfSome result (λ text. text ≡ name.now ++ byte ∷ []) }
//! {
//!     let mut text = Semantic::new(name).ok()?;
//!     text.push(byte).ok()?;
//!     Some(text)
//! }
//! ```

mod error;
mod rules;
mod semantic;

pub use error::SemanticStringError;
pub use rules::Rules;
pub use semantic::Semantic;
