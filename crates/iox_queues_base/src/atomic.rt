//! A single value that is stored and loaded whole.
//!
//! Ported from `UnrestrictedAtomic` of iceoryx2; this is its sequential form, for one thread.
ghost use Rattle.std.specs.Prelude.{◌≡◌};

use crate::words::Words;
use std::marker::Model;

/// A single value. Contracts see the value stored last.
#[derive(Drop)]
pub struct UnrestrictedAtomic<T: Words> {
    value: T,
}

impl<T: Words> Model for UnrestrictedAtomic<T> {
    ghost Value = { T };

    ghost view = { λ a. a.value };
}

impl<T: Words> UnrestrictedAtomic<T> {
    /// A cell that holds the value.
    pub fn new(value: T) -> UnrestrictedAtomic<T>
        ensures { result ≡ value }
    {
        UnrestrictedAtomic { value }
    }

    /// Replaces the value by another.
    pub fn store(&mut self, value: T)
        ensures { self.new ≡ value }
    {
        self.value = value;
    }

    /// The value stored last.
    pub fn load(&self) -> T
        ensures { result ≡ self.now }
    {
        self.value
    }
}
