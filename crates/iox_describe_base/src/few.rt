//! A list of at most eight values that doesn't allocate while it is empty.
ghost use Rattle.std.specs.Prelude.{◌≡◌, ◌<◌, ◌≤◌, [], ◌∷◌, ◌++◌, length, IsOk, IfOk, OnOk, OnErr};

use crate::limits::MAX_ATTRIBUTES;
use std::alloc::{AllocError, Global};
use std::marker::Model;

/// A list of at most eight values. The first value allocates the memory for all of them. Contracts see it as the list of its values.
#[derive(Debug, Drop)]
pub(crate) struct Few<T: Copy> {
    room: Option<Vec<T>>,
}

impl<T: Copy> Model for Few<T> {
    ghost use Rattle.std.specs.Prelude.{List};
    ghost use Rattle.iox_describe_base.specs.Few.{held, HasRoom};

    ghost Value = { List T };

    ghost view = { λ few. held few.room };

    ghost invariant = { λ few. HasRoom few.room };
}

impl<T: Copy> Few<T> {
    /// An empty list, which has no memory yet.
    pub(crate) fn new() -> Self
        ensures { result ≡ [] }
    {
        Few { room: None }
    }

    /// The values, in their order.
    pub(crate) fn as_slice(&self) -> &[T]
        ensures value { result.now ≡ self.now }
        ensures within { length self.now ≤ 8 }
    {
        match &self.room {
            Some(room) => room.as_slice(),
            None => &[],
        }
    }

    /// Appends a value. It fails only if an allocation fails; only the first value allocates.
    pub(crate) fn push(&mut self, alloc: Global, value: T) -> Result<(), AllocError>
        requires { length self.old < 8 }
        ensures ok { OnOk result (self.new ≡ self.old ++ value ∷ []) }
        ensures err { OnErr result ((self.new ≡ self.old) × (self.old ≡ [])) }
    {
        if let Some(room) = &mut self.room {
            room.push_reserved(value);
            return Ok(());
        }
        let mut room = Vec::with_capacity(alloc, MAX_ATTRIBUTES)?;
        room.push_reserved(value);
        self.room = Some(room);
        Ok(())
    }

    /// A copy of the list in memory of its own. It fails only if an allocation fails, and never for an empty list.
    pub(crate) fn try_clone(&self, alloc: Global) -> Result<Self, AllocError>
        ensures same { IfOk result (λ copy. copy ≡ self.now) }
        ensures empty { self.now ≡ [] → IsOk result }
    {
        let values = self.as_slice();
        if values.is_empty() {
            return Ok(Few::new());
        }
        let mut room = Vec::with_capacity(alloc, MAX_ATTRIBUTES)?;
        room.extend_from_slice(values)?;
        Ok(Few { room: Some(room) })
    }
}
