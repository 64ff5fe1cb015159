//! Values that are stored for ports, by their numbers.
ghost use Rattle.std.specs.Prelude.{◌≡◌, option_copied, is_some, IfOk, OnOk, OnErr, OnSome, Some, [], true};
ghost use Rattle.iox_domain.specs.Kept.{kept_under, kept, forgotten, put_back};

use iox_container::ByNumber;
use std::alloc::{AllocError, Global};
use std::marker::Model;

/// Values that are stored for ports, by their numbers: at most one for each.
///
/// Contracts see each value with its number, by rising number.
#[derive(Drop)]
pub struct Kept<H> {
    values: ByNumber<H>,
}

impl<H> Model for Kept<H> {
    ghost use Rattle.std.specs.Prelude.{ℕ, List};

    ghost Value = { List (ℕ × H) };

    ghost view = { λ k. k.values };
}

impl<H: Drop> Kept<H> {
    /// No value is stored.
    pub fn new(alloc: Global) -> Self
        ensures { result ≡ [] }
    {
        Kept {
            values: ByNumber::new(alloc),
        }
    }

    /// The value stored under this number, if there is one.
    pub fn get(&self, number: u64) -> Option<&H>
        ensures { option_copied result ≡ kept_under number self.now }
    {
        self.values.get(number)
    }

    /// Stores a value under this number, and answers the value that was stored there before. The call fails only if an
    /// allocation fails; then nothing has changed.
    pub fn keep(&mut self, number: u64, value: H) -> Result<Option<H>, AllocError>
        ensures before { IfOk result (λ before. before ≡ kept_under number self.old) }
        ensures ok { OnOk result (self.new ≡ kept number value self.old) }
        ensures err { OnErr result (self.new ≡ self.old) }
        ensures undone { IfOk result (λ before. put_back number before self.new ≡ self.old) }
        ensures there { OnOk result (kept_under number self.new ≡ Some value) }
    {
        self.values.insert(number, value)
    }

    /// Undoes a `keep` of this number that answered `before`.
    pub fn put_back(&mut self, number: u64, before: Option<H>)
        requires { OnSome before (is_some (kept_under number self.old) ≡ true) }
        ensures { self.new ≡ put_back number before self.old }
    {
        match before {
            Some(value) => {
                // Replacing the value of a number that exists allocates nothing.
                let _ = self.values.insert(number, value);
            }
            None => self.forget(number),
        }
    }

    /// Removes the value under this number, if there is one.
    pub fn forget(&mut self, number: u64)
        ensures { self.new ≡ forgotten number self.old }
    {
        self.values.remove(number);
    }
}
