//! Strings of fixed capacity over the bytes 1..=127.
//!
//! | Module | What it has |
//! |---|---|
//! | `string_trait` | `String`: the operations of every string, wherever its bytes are stored |
//! | `static_string` | `StaticString`: a string whose bytes are stored in the value itself |
//! | `polymorphic_string` | `PolymorphicString`: a string whose capacity is chosen when it is created |
//! | `bytes` | functions on bytes that may not be a text |
//! | `row` | how both strings store their text: the bytes, followed by zeros |
//! | `text_form` | a `StaticString` serialized as text, and deserialized from it |
//! | `error` | why a string wasn't changed |
//!
//! Each string allocates all its memory when it is created. A call that would exceed the capacity is refused as a whole, and a refused call
//! changes nothing.
//!
//! A first call:
//!
//! ```
//! /// `iox_container`: a greeting of at most 32 bytes; None if the name is too long, or has a byte that a string may not have.
//! fn greeting(name: &[u8]) -> Option<StaticString<32>>
//!     ensures { IfSome result (λ text. text ≡ codes "hello " ++ name.now) }
//! {
//!     let mut text = StaticString::<32>::from_bytes(b"hello ").ok()?;
//!     text.push_bytes(name).ok()?;
//!     Some(text)
//! }
//! ```

mod bytes;
mod error;
mod polymorphic_string;
mod row;
mod static_string;
mod string_trait;
mod text_form;

pub use bytes::{are_string_bytes, as_escaped_string, strnlen};
pub use error::StringModificationError;
pub use polymorphic_string::PolymorphicString;
pub use static_string::StaticString;
pub use string_trait::String;
