//! A string serialized as text, and deserialized from it.
ghost use Rattle.std.specs.Prelude.{IfOk};
ghost use Rattle.serde.specs.Event.{Logs, text};
ghost use Rattle.serde.specs.Steps.{Gives};

use crate::string::{StaticString, String, StringModificationError};
use serde::{
    Described, Deserialize, DeserializeOwned, Deserializer, Format, Serialize, Serializer,
};
use std::alloc::Global;

/// The text is serialized, and nothing else.
impl<const CAPACITY: usize> Described for StaticString<CAPACITY> {
    ghost writes = { λ s old new. Logs old new (text s) };
}

impl<const CAPACITY: usize> Serialize for StaticString<CAPACITY> {
    fn serialize<S: Serializer>(&self, out: &mut S) -> Result<(), S::Error> {
        out.str(self.as_str())
    }
}

/// Refuses a value that isn't a text, a text longer than `CAPACITY`, and a text with a byte outside 1..=127.
impl<const CAPACITY: usize> DeserializeOwned for StaticString<CAPACITY> {
    fn deserialize_owned<F: Format>(
        alloc: Global,
        from: &mut Deserializer<'_, '_, F>,
    ) -> Result<Self, F::Error>
        ensures { IfOk result (λ s. Gives F.gives from.old (text s) from.new) }
    {
        let read = from.string(alloc)?;
        match StaticString::from_bytes(read.as_bytes()) {
            Ok(string) => Ok(string),
            Err(StringModificationError::InsertWouldExceedCapacity) => {
                Err(from.custom("text longer than capacity"))
            }
            Err(StringModificationError::InvalidCharacter) => {
                Err(from.custom("text byte outside 1..=127"))
            }
        }
    }
}

impl<'de, const CAPACITY: usize> Deserialize<'de> for StaticString<CAPACITY> {
    fn deserialize<F: Format>(
        alloc: Global,
        from: &mut Deserializer<'de, '_, F>,
    ) -> Result<Self, F::Error>
        ensures { IfOk result (λ s. Gives F.gives from.old (text s) from.new) }
    {
        DeserializeOwned::deserialize_owned(alloc, from)
    }
}
