//! Names with rules of their own: no name is empty or has a slash, and all names are equal.
ghost use Rattle.std.specs.Prelude.{[], ◌==◌, length, refl};
ghost use Rattle.std.specs.List.{list_any};

use crate::answers::is_shown;
use iox_container::semantic_strings::{Rules, Semantic};
use iox_container::string::{StaticString, String};
use std::alloc::{AllocError, Global};

struct Name;

impl<const CAPACITY: usize> Rules<CAPACITY> for Name {
    ghost refuses_content = { λ text. length text == 0 };

    ghost refuses_characters = { λ text. list_any (λ b. b == 47) text };

    ghost normal = { λ text. [] };

    fn invalid_content(text: &StaticString<CAPACITY>) -> bool {
        text.as_bytes().len() == 0
    }

    fn invalid_characters(text: &StaticString<CAPACITY>) -> bool {
        text.as_bytes().contains(&b'/')
    }

    fn normalise(_text: &StaticString<CAPACITY>) -> StaticString<CAPACITY> {
        StaticString::new()
    }

    ghost normalised_once = { λ text fits bytes. refl };
}

/// Whether `Debug` shows the copy of a name as its literal.
pub(crate) fn is_copied(alloc: Global) -> Result<bool, AllocError> {
    match Semantic::<Name, 8>::new(b"A\"b") {
        Ok(name) => is_shown(alloc, &name.clone()?, "\"A\\\"b\""),
        Err(_) => Ok(false),
    }
}
