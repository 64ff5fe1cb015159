//! The operations of every string, wherever its bytes are stored.
ghost use Rattle.std.specs.Prelude.{◌≡◌, ℕ, ◌+◌, ◌-◌, ◌<◌, ◌≤◌, ◌↔◌, List, [], ◌∷◌, ◌++◌, length, take, drop, remove, slice_get};
ghost use Rattle.std.specs.Prelude.{slice_set, IsTrue, IsSome, IfNone, OnOk, OnErr, Bool, nat_eq};
ghost use Rattle.std.specs.Bool.{OnTrue, OnFalse};
ghost use Rattle.std.specs.Option.{option_to_list};
ghost use Rattle.std.specs.List.Retain.{IsFiltered};
ghost use Rattle.std.specs.Ordering.{nat_cmp};
ghost use Rattle.std.specs.Hash as fed;
ghost use Rattle.std.specs.Cmp.Lexicographic.{pointwise, slice_cmp};
ghost use Rattle.iox_container.specs.Retained.{KeepsAsAnswered};
ghost use Rattle.iox_container.specs.StringBytes.{IsStringByte, IsStringBytes};
ghost use Rattle.iox_container.specs.Text.{AnswersInsertion, FindsFirst, FindsLast, bytes_inserted, range_replaced};

use crate::string::{StringModificationError, are_string_bytes};
use memchr::memmem;
use std::hash::Hash;
use std::str;

/// A text of at most `capacity` bytes of 1..=127.
///
/// Contracts see it as its bytes, `text`, and its capacity, `room`, which no call changes. Order, equality and hash
/// are those of the bytes.
///
/// Ported from `iceoryx2_bb_container::string::String`.
pub trait String: Ord + Hash {
    ghost text: { Self → List ℕ };

    ghost room: { Self → ℕ };

    /// The bytes of the text.
    fn as_bytes(&self) -> &[u8]
        ensures value { result.now ≡ text self.now }
        ensures fits { length (text self.now) ≤ room self.now }
        ensures valid { IsStringBytes (text self.now) };

    /// The maximum number of bytes.
    fn capacity(&self) -> usize
        ensures { result ≡ room self.now };

    /// Replaces the bytes from `from` up to `to` by `bytes`, which must fit.
    ///
    /// It exists for implementers: every edit below is built on it. Callers will mostly want those edits, which check its preconditions.
    fn replace_range(&mut self, from: usize, to: usize, bytes: &[u8])
        requires start_le_end { from ≤ to }
        requires in_bounds { to ≤ length (text self.old) }
        requires fits { length (text self.old) + length bytes.now ≤ room self.old + (to - from) }
        requires valid { IsStringBytes bytes.now }
        ensures replaced { text self.new ≡ range_replaced (text self.old) from to bytes.now }
        ensures capacity { room self.new ≡ room self.old };

    /// Overwrites the byte at `idx`.
    ///
    /// It exists for implementers, as `replace_range` does: `retain` is built on it.
    fn set_byte(&mut self, idx: usize, byte: u8)
        requires in_bounds { idx < length (text self.old) }
        requires valid { IsStringByte byte }
        ensures written { text self.new ≡ slice_set (text self.old) idx byte }
        ensures capacity { room self.new ≡ room self.old };

    ghost equality_of_bytes: { (s t : Self) → Self.eq s t ≡ pointwise nat_eq (text s) (text t) };

    ghost order_of_bytes: { (s t : Self) → Self.cmp s t ≡ slice_cmp nat_cmp (text s) (text t) };

    ghost hash_of_bytes: { (s : Self) → Self.hash_input s ≡ fed.slice fed.u8 (text s) };

    /// The text as a `str`; it is ASCII.
    final fn as_str(&self) -> &str
        ensures { result.now ≡ text self.now }
    {
        unsafe { str::from_utf8_unchecked(self.as_bytes()) }
    }

    /// How many bytes the text has.
    final fn len(&self) -> usize
        ensures value { result ≡ length (text self.now) }
        ensures fits { result ≤ room self.now }
    {
        self.as_bytes().len()
    }

    /// Whether the text has no byte.
    final fn is_empty(&self) -> bool
        ensures { IsTrue result ↔ (text self.now ≡ []) }
    {
        self.as_bytes().is_empty()
    }

    /// Whether no further byte fits.
    final fn is_full(&self) -> bool
        ensures { IsTrue result ↔ (length (text self.now) ≡ room self.now) }
    {
        self.len() == self.capacity()
    }

    /// Appends a byte.
    ///
    /// Refused with `InsertWouldExceedCapacity` if the text is full, else with `InvalidCharacter` if the byte lies
    /// outside 1..=127.
    final fn push(&mut self, byte: u8) -> Result<(), StringModificationError>
        ensures answer { AnswersInsertion (room self.old) (text self.old) (byte ∷ []) result }
        ensures ok { OnOk result (text self.new ≡ text self.old ++ byte ∷ []) }
        ensures err { OnErr result (self.new ≡ self.old) }
        ensures capacity { room self.new ≡ room self.old }
    {
        self.push_bytes(&[byte])
    }

    /// Appends bytes: all of them or none. Refused as `push` is.
    final fn push_bytes(&mut self, bytes: &[u8]) -> Result<(), StringModificationError>
        ensures answer { AnswersInsertion (room self.old) (text self.old) bytes.now result }
        ensures ok { OnOk result (text self.new ≡ text self.old ++ bytes.now) }
        ensures err { OnErr result (self.new ≡ self.old) }
        ensures capacity { room self.new ≡ room self.old }
    {
        let len = self.len();
        self.insert_bytes(len, bytes)
    }

    /// Inserts a byte before the byte at `idx`, or at the end. Refused as `push` is.
    final fn insert(&mut self, idx: usize, byte: u8) -> Result<(), StringModificationError>
        requires { idx ≤ length (text self.old) }
        ensures answer { AnswersInsertion (room self.old) (text self.old) (byte ∷ []) result }
        ensures ok { OnOk result (text self.new ≡ bytes_inserted (text self.old) idx (byte ∷ [])) }
        ensures err { OnErr result (self.new ≡ self.old) }
        ensures capacity { room self.new ≡ room self.old }
    {
        self.insert_bytes(idx, &[byte])
    }

    /// Inserts bytes before the byte at `idx`, or at the end: all of them or none. Refused as `push` is.
    final fn insert_bytes(
        &mut self,
        idx: usize,
        bytes: &[u8],
    ) -> Result<(), StringModificationError>
        requires { idx ≤ length (text self.old) }
        ensures answer { AnswersInsertion (room self.old) (text self.old) bytes.now result }
        ensures ok { OnOk result (text self.new ≡ bytes_inserted (text self.old) idx bytes.now) }
        ensures err { OnErr result (self.new ≡ self.old) }
        ensures capacity { room self.new ≡ room self.old }
    {
        if bytes.len() > self.capacity() - self.len() {
            return Err(StringModificationError::InsertWouldExceedCapacity);
        }
        if !are_string_bytes(bytes) {
            return Err(StringModificationError::InvalidCharacter);
        }
        self.replace_range(idx, idx, bytes);
        Ok(())
    }

    /// Removes the last byte and returns it, if there is one.
    final fn pop(&mut self) -> Option<u8>
        ensures last { text self.old ≡ text self.new ++ option_to_list result }
        ensures variant { IsSome result ↔ (0 < length (text self.old)) }
        ensures none { IfNone result (self.new ≡ self.old) }
        ensures capacity { room self.new ≡ room self.old }
    {
        let len = self.len();
        if len == 0 { None } else { self.remove(len - 1) }
    }

    /// Removes the byte at `idx` and returns it, if there is one.
    final fn remove(&mut self, idx: usize) -> Option<u8>
        ensures value { result ≡ slice_get (text self.old) idx }
        ensures rest { text self.new ≡ remove (text self.old) idx }
        ensures none { IfNone result (self.new ≡ self.old) }
        ensures capacity { room self.new ≡ room self.old }
    {
        let byte = *self.as_bytes().get(idx)?;
        self.replace_range(idx, idx + 1, b"");
        Some(byte)
    }

    /// Removes `len` bytes from `idx` on and returns true. If the text ends before them, it stays as it was, and the result is false.
    final fn remove_range(&mut self, idx: usize, len: usize) -> bool
        ensures answer { IsTrue result ↔ (idx + len ≤ length (text self.old)) }
        ensures removed { OnTrue result (text self.new ≡ range_replaced (text self.old) idx (idx + len) []) }
        ensures refused { OnFalse result (self.new ≡ self.old) }
        ensures capacity { room self.new ≡ room self.old }
    {
        let held = self.len();
        if held < len || held - len < idx {
            return false;
        }
        self.replace_range(idx, idx + len, b"");
        true
    }

    /// The first position at which `bytes` occurs in the text; empty `bytes` occur at 0.
    final fn find(&self, bytes: &[u8]) -> Option<usize>
        ensures { FindsFirst (text self.now) bytes.now result }
    {
        memmem::find(self.as_bytes(), bytes)
    }

    /// The last position at which `bytes` occurs in the text; empty `bytes` occur at the end.
    final fn rfind(&self, bytes: &[u8]) -> Option<usize>
        ensures { FindsLast (text self.now) bytes.now result }
    {
        memmem::rfind(self.as_bytes(), bytes)
    }

    /// Removes `bytes` from the start and returns true. If the text doesn't begin with `bytes`, it stays as it was, and the result is
    /// false.
    final fn strip_prefix(&mut self, bytes: &[u8]) -> bool
        ensures stripped { OnTrue result (text self.old ≡ bytes.now ++ text self.new) }
        ensures other { OnFalse result ((rest : List ℕ) → ¬ (text self.old ≡ bytes.now ++ rest)) }
        ensures refused { OnFalse result (self.new ≡ self.old) }
        ensures capacity { room self.new ≡ room self.old }
    {
        if !self.as_bytes().starts_with(bytes) {
            return false;
        }
        self.replace_range(0, bytes.len(), b"");
        true
    }

    /// Removes `bytes` from the end and returns true. If the text doesn't end with `bytes`, it stays as it was, and the result is false.
    final fn strip_suffix(&mut self, bytes: &[u8]) -> bool
        ensures stripped { OnTrue result (text self.old ≡ text self.new ++ bytes.now) }
        ensures other { OnFalse result ((rest : List ℕ) → ¬ (text self.old ≡ rest ++ bytes.now)) }
        ensures refused { OnFalse result (self.new ≡ self.old) }
        ensures capacity { room self.new ≡ room self.old }
    {
        if !self.as_bytes().ends_with(bytes) {
            return false;
        }
        let len = self.len();
        self.replace_range(len - bytes.len(), len, b"");
        true
    }

    /// Keeps the first `new_len` bytes.
    final fn truncate(&mut self, new_len: usize)
        ensures kept { text self.new ≡ take new_len (text self.old) }
        ensures capacity { room self.new ≡ room self.old }
    {
        let len = self.len();
        if new_len < len {
            self.replace_range(new_len, len, b"");
        }
    }

    /// Removes every byte.
    final fn clear(&mut self)
        ensures empty { text self.new ≡ [] }
        ensures capacity { room self.new ≡ room self.old }
    {
        self.truncate(0);
    }

    /// Keeps the bytes for which `keeps` returns true. It is called once for each byte, in order. The contract also says in which state
    /// this leaves `keeps`.
    final fn retain<F: FnMut(u8) -> bool>(&mut self, keeps: &mut F)
        requires { F.IsAlwaysCallable keeps.old }
        ensures asked { KeepsAsAnswered (λ p byte answer q. F.step p byte answer q) keeps.old (text self.old) (text self.new) keeps.new }
        ensures filtered { IsFiltered (λ p byte answer q. F.step p byte answer q) keeps.old (text self.old) (text self.new) }
        ensures callable { F.IsAlwaysCallable keeps.new }
        ensures capacity { room self.new ≡ room self.old }
    {
        let mut kept = 0;
        for at in 0..self.len() {
            let byte = self.as_bytes()[at];
            if keeps(byte) {
                self.set_byte(kept, byte);
                kept += 1;
            }
        }
        self.truncate(kept);
    }
}
