//! A vector serialized as a list, and deserialized from it.
ghost use Rattle.serde.specs.Event.{WritesSeq};

use crate::vector::{StaticVec, Vector};
use serde::{
    Described, Deserialize, DeserializeOwned, Deserializer, Format, Serialize, Serializer,
};
use std::alloc::Global;

/// The items are serialized as a list, in their order.
impl<T: Described, const CAPACITY: usize> Described for StaticVec<T, CAPACITY> {
    ghost writes = { WritesSeq T.writes };
}

impl<T: Serialize + Drop, const CAPACITY: usize> Serialize for StaticVec<T, CAPACITY> {
    fn serialize<S: Serializer>(&self, out: &mut S) -> Result<(), S::Error> {
        self.as_slice().serialize(out)
    }
}

/// Refuses a value that isn't a list, a list with an item that is refused, and a list of more than `CAPACITY` items.
impl<'de, T: Deserialize<'de> + Drop, const CAPACITY: usize> Deserialize<'de>
    for StaticVec<T, CAPACITY> {
    fn deserialize<F: Format>(
        alloc: Global,
        from: &mut Deserializer<'de, '_, F>,
    ) -> Result<Self, F::Error> {
        let Ok(mut items) = StaticVec::new(alloc) else {
            return Err(from.no_memory());
        };
        from.begin_seq()?;
        for _ in 0..CAPACITY {
            if !from.next_item()? {
                return Ok(items);
            }
            let item = T::deserialize(alloc, from)?;
            let _ = items.push(item);
        }
        if from.next_item()? {
            return Err(from.custom("list longer than capacity"));
        }
        Ok(items)
    }
}

/// Refuses a value that isn't a list, a list with an item that is refused, and a list of more than `CAPACITY` items.
impl<T: DeserializeOwned, const CAPACITY: usize> DeserializeOwned for StaticVec<T, CAPACITY> {
    fn deserialize_owned<F: Format>(
        alloc: Global,
        from: &mut Deserializer<'_, '_, F>,
    ) -> Result<Self, F::Error> {
        let Ok(mut items) = StaticVec::new(alloc) else {
            return Err(from.no_memory());
        };
        from.begin_seq()?;
        for _ in 0..CAPACITY {
            if !from.next_item()? {
                return Ok(items);
            }
            let item = T::deserialize_owned(alloc, from)?;
            let _ = items.push(item);
        }
        if from.next_item()? {
            return Err(from.custom("list longer than capacity"));
        }
        Ok(items)
    }
}
