//! A list of actions of other nodes.
ghost use Rattle.std.specs.Prelude.{◌≡◌, [], ◌∷◌, ◌++◌, OnOk, OnErr};

use std::alloc::{AllocError, Global};
use std::marker::Model;

/// Actions of other nodes, in their order; an empty list allocates nothing. Contracts see them as a list.
///
/// Not in `iceoryx2`.
#[derive(Drop)]
pub struct Steps<T: Copy> {
    room: Option<Vec<T>>,
}

impl<T: Copy> Model for Steps<T> {
    ghost use Rattle.std.specs.Prelude.{List};
    ghost use Rattle.iox_command.specs.Held.{held};

    ghost Value = { List T };

    ghost view = { λ steps. held steps.room };
}

impl<T: Copy> Steps<T> {
    /// No actions; nothing is allocated.
    pub fn new() -> Self
        ensures { result ≡ [] }
    {
        Steps { room: None }
    }

    /// Appends an action. The call fails only if an allocation fails; then nothing has changed.
    pub fn push(&mut self, alloc: Global, step: T) -> Result<(), AllocError>
        ensures ok { OnOk result (self.new ≡ self.old ++ step ∷ []) }
        ensures err { OnErr result (self.new ≡ self.old) }
    {
        if let Some(room) = &mut self.room {
            room.push(step)?;
            return Ok(());
        }
        let mut room = Vec::new(alloc);
        room.push(step)?;
        self.room = Some(room);
        Ok(())
    }

    /// The actions, in their order.
    pub fn as_slice(&self) -> &[T]
        ensures { result.now ≡ self.now }
    {
        match &self.room {
            Some(room) => room.as_slice(),
            None => &[],
        }
    }
}
