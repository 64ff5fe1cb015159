//! Which texts a type of semantic string accepts, and which texts it treats as equal.
ghost use Rattle.std.specs.Prelude.{◌≡◌, ℕ, ◌≤◌, List, length, Bool};
ghost use Rattle.iox_container.specs.StringBytes.{IsStringBytes};

use crate::string::StaticString;

/// The rules of a type of text, for example of file names or service names.
///
/// Contracts see which content and which characters the rules refuse, and the normal form of a text. Two texts with the same normal form
/// are equal. Normalising a text twice gives the same as normalising it once; each implementation proves this.
///
/// It replaces the callbacks of the macro `iceoryx2_bb_container::semantic_string!`.
pub trait Rules<const CAPACITY: usize> {
    ghost refuses_content: { List ℕ → Bool };

    ghost refuses_characters: { List ℕ → Bool };

    ghost normal: { List ℕ → List ℕ };

    /// Whether the text as a whole is refused.
    fn invalid_content(text: &StaticString<CAPACITY>) -> bool
        ensures { result ≡ refuses_content text.now };

    /// Whether the text has a character that is refused.
    fn invalid_characters(text: &StaticString<CAPACITY>) -> bool
        ensures { result ≡ refuses_characters text.now };

    /// The normal form of the text.
    fn normalise(text: &StaticString<CAPACITY>) -> StaticString<CAPACITY>
        ensures { result ≡ normal text.now };

    ghost normalised_once: { (text : List ℕ) → length text ≤ CAPACITY → IsStringBytes text → normal (normal text) ≡ normal text };
}
