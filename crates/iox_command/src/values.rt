//! The values of a message.
use std::marker::Model;

/// The values of a message, in their order, in borrowed memory. Contracts see them as a list.
///
/// Not in `iceoryx2`.
#[derive(Drop)]
pub struct Values<'a, T> {
    /// The values, in their order.
    pub items: &'a [T],
}

impl<'a, T> Model for Values<'a, T> {
    ghost use Rattle.std.specs.Prelude.{List};

    ghost Value = { List T };

    ghost view = { λ values. values.items.now };
}
