//! A string whose bytes are stored in the value itself.
ghost use Rattle.std.specs.Prelude.{◌≡◌, ℕ, ◌+◌, ◌-◌, ◌<◌, ◌≤◌, ◌↔◌, List, [], ◌∷◌, ◌++◌, length, take, drop, replicate, All, IsTrue};
ghost use Rattle.std.specs.Prelude.{IsOk, IfOk, Some, nat_eq, refl};
ghost use Rattle.std.specs.Ordering.{nat_cmp};
ghost use Rattle.std.specs.Hash as fed;
ghost use Rattle.std.specs.Cmp.Rules.{hashing};
ghost use Rattle.std.proofs.Common.{rules};
ghost use Rattle.std.specs.Cmp.{partial_equiv_from_equiv};
ghost use Rattle.std.specs.Cmp.Lexicographic.{pointwise, slice_cmp, nat_list_eq_equiv, nat_list_cmp_total, texts_po, texts_ties};
ghost use Rattle.iox_container.specs.StringBytes.{IsStringBytes};

use crate::string::row::replace_in_row;
use crate::string::{String, StringModificationError, are_string_bytes};
use std::cmp::Ordering;
use std::fmt;
use std::hash::{Hash, Hasher};
use std::marker::Model;

/// A string of at most `CAPACITY` bytes of 1..=127, which are stored in the value itself. Its calls don't allocate, except that
/// deserializing it by `serde` takes memory while the text is read.
///
/// Contracts see it as the list of its bytes.
///
/// Ported from `iceoryx2_bb_container::string::StaticString`.
#[derive(Clone, Copy)]
pub struct StaticString<const CAPACITY: usize> {
    cells: [u8; CAPACITY],
    len: usize,
}

impl<const CAPACITY: usize> Model for StaticString<CAPACITY> {
    ghost use Rattle.std.specs.Prelude.{ℕ, ◌-◌, ◌++◌, List, length, take, replicate};
    ghost use Rattle.iox_container.specs.TextRow.{IsTextRow, length-text, text_then_zeros};

    ghost Value = { List ℕ };

    ghost view = { λ s. take s.len s.cells };

    ghost invariant = { λ s. IsTextRow CAPACITY s.len s.cells };

    ghost inverse = { λ bytes. record { cells = bytes ++ replicate (CAPACITY - length bytes) 0; len = length bytes } };

    ghost inverse_ok = { λ s h i. record {
      cells = text_then_zeros CAPACITY s.len s.cells h i;
      len = length-text CAPACITY s.len s.cells h i;
    } };
}

impl<const CAPACITY: usize> StaticString<CAPACITY> {
    /// An empty string.
    pub fn new() -> Self
        ensures { result ≡ [] }
    {
        StaticString {
            cells: [0; CAPACITY],
            len: 0,
        }
    }

    /// A string of these bytes.
    ///
    /// Refused with `InsertWouldExceedCapacity` if there are more than `CAPACITY` bytes, else with `InvalidCharacter` if a byte lies
    /// outside 1..=127.
    pub fn from_bytes(bytes: &[u8]) -> Result<Self, StringModificationError>
        ensures accepted { IsOk result ↔ ((length bytes.now ≤ CAPACITY) × IsStringBytes bytes.now) }
        ensures value { IfOk result (λ text. text ≡ bytes.now) }
        ensures too_long { (result ≡ Err StringModificationError.InsertWouldExceedCapacity) ↔ (CAPACITY < length bytes.now) }
        ensures invalid { (result ≡ Err StringModificationError.InvalidCharacter)
            ↔ ((length bytes.now ≤ CAPACITY) × ¬ IsStringBytes bytes.now) }
    {
        if bytes.len() > CAPACITY {
            return Err(StringModificationError::InsertWouldExceedCapacity);
        }
        if !are_string_bytes(bytes) {
            return Err(StringModificationError::InvalidCharacter);
        }
        let mut cells = [0; CAPACITY];
        cells[..bytes.len()].copy_from_slice(bytes);
        Ok(StaticString {
            cells,
            len: bytes.len(),
        })
    }

    /// The bytes of the string.
    pub fn as_bytes(&self) -> &[u8]
        ensures value { result.now ≡ self.now }
        ensures fits { length self.now ≤ CAPACITY }
        ensures valid { IsStringBytes self.now }
    {
        &self.cells[..self.len]
    }
}

/// Like `from_bytes` with the bytes of the text.
impl<const CAPACITY: usize> TryFrom<&str> for StaticString<CAPACITY> {
    type Error = StringModificationError;

    ghost use Rattle.std.specs.Prelude.{Err};
    ghost use Rattle.iox_container.specs.declared.string.error.StringModificationError.TheVariants.{InsertWouldExceedCapacity};

    ghost try_from_gives = { λ text r. (IsOk r ↔ ((length text.now ≤ CAPACITY) × IsStringBytes text.now))
        × IfOk r (λ made. made ≡ text.now)
        × ((r ≡ Err InsertWouldExceedCapacity) ↔ (CAPACITY < length text.now)) };

    fn try_from(text: &str) -> Result<Self, StringModificationError> {
        StaticString::from_bytes(text.as_bytes())
    }
}

impl<const CAPACITY: usize> PartialEq for StaticString<CAPACITY> {
    ghost eq = { λ s t. pointwise nat_eq s t };

    ghost laws = { partial_equiv_from_equiv nat_list_eq_equiv };

    fn eq(&self, other: &Self) -> bool {
        self.as_bytes() == other.as_bytes()
    }
}

impl<const CAPACITY: usize> Eq for StaticString<CAPACITY> {
    ghost laws = { nat_list_eq_equiv };
}

impl<const CAPACITY: usize> PartialOrd for StaticString<CAPACITY> {
    ghost partial_cmp = { λ s t. Some (slice_cmp nat_cmp s t) };

    ghost laws = { texts_po };

    fn partial_cmp(&self, other: &Self) -> Option<Ordering> {
        Some(self.cmp(other))
    }
}

impl<const CAPACITY: usize> Ord for StaticString<CAPACITY> {
    ghost cmp = { λ s t. slice_cmp nat_cmp s t };

    ghost total = { nat_list_cmp_total };

    ghost matches_partial_cmp = { λ s t. refl };

    ghost matches_eq = { λ s t. texts_ties s t };

    fn cmp(&self, other: &Self) -> Ordering {
        self.as_bytes().cmp(other.as_bytes())
    }
}

impl<const CAPACITY: usize> Hash for StaticString<CAPACITY> {
    ghost hash_input = { λ s. fed.slice fed.u8 s };

    ghost respects_eq = { Prim.search (hashing, rules) };

    fn hash<H: Hasher>(&self, state: &mut H) {
        self.as_bytes().hash(state);
    }
}

impl<const CAPACITY: usize> String for StaticString<CAPACITY> {
    ghost text = { λ s. s };

    ghost room = { λ _. CAPACITY };

    fn as_bytes(&self) -> &[u8] {
        self.as_bytes()
    }

    fn capacity(&self) -> usize {
        CAPACITY
    }

    fn replace_range(&mut self, from: usize, to: usize, bytes: &[u8]) {
        self.len = replace_in_row(&mut self.cells, self.len, from, to, bytes);
    }

    fn set_byte(&mut self, idx: usize, byte: u8) {
        self.cells[idx] = byte;
    }

    ghost equality_of_bytes = { λ _ _. refl };

    ghost order_of_bytes = { λ _ _. refl };

    ghost hash_of_bytes = { λ _. refl };
}

impl<const CAPACITY: usize> fmt::Debug for StaticString<CAPACITY> {
    fn fmt<W: fmt::Write>(&self, f: &mut fmt::Formatter<W>) -> fmt::Result {
        fmt::Debug::fmt(&self.as_str(), f)
    }
}

/// Shows the text.
impl<const CAPACITY: usize> fmt::Display for StaticString<CAPACITY> {
    ghost output = { λ s. Some s };

    fn fmt<W: fmt::Write>(&self, f: &mut fmt::Formatter<W>) -> fmt::Result {
        f.pad(self.as_str())
    }
}
