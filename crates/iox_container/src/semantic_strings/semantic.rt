//! A text that its rules accept.
ghost use Rattle.std.specs.Prelude.{◌≡◌, ℕ, ◌+◌, ◌-◌, ◌<◌, ◌≤◌, ◌↔◌, List, [], ◌∷◌, ◌++◌, length, take, remove, slice_get, IsTrue, IsOk};
ghost use Rattle.std.specs.Prelude.{IfOk, OnOk, OnErr, Ok, Some, false, nat_eq, refl};
ghost use Rattle.std.specs.Ordering.{nat_cmp};
ghost use Rattle.std.specs.Hash as fed;
ghost use Rattle.std.specs.Cmp.Rules.{hashing};
ghost use Rattle.std.proofs.Common.{rules};
ghost use Rattle.std.specs.Bool.{OnTrue, OnFalse};
ghost use Rattle.std.specs.Cmp.{on_equiv, on_per, on_po, on_total, partial_equiv_from_equiv};
ghost use Rattle.std.specs.Cmp.Lexicographic.{pointwise, slice_cmp, nat_list_eq_equiv, nat_list_cmp_total, texts_po, texts_ties};
ghost use Rattle.iox_container.specs.Retained.{KeepsAsAnswered};
ghost use Rattle.iox_container.specs.StringBytes.{IsStringBytes};
ghost use Rattle.iox_container.specs.Text.{bytes_inserted, range_replaced};
ghost use Rattle.iox_container.specs.Accepted.{AnswersContent, IsAccepted};

use crate::semantic_strings::{Rules, SemanticStringError};
use crate::string::{StaticString, String};
use std::cmp::Ordering;
use std::fmt;
use std::hash::{Hash, Hasher};
use std::marker::{Model, PhantomData};

/// A text of at most `CAPACITY` bytes of 1..=127 that the rules `R` accept. No call allocates.
///
/// Contracts see it as the list of its bytes. Equality, order and hash are those of the bytes of its normal form. A call that changes it
/// either leaves an accepted text or changes nothing.
///
/// Ported from the types of the macro `iceoryx2_bb_container::semantic_string!`.
#[derive(Drop)]
#[derive_where(Clone)]
pub struct Semantic<R: Rules<CAPACITY>, const CAPACITY: usize> {
    content: StaticString<CAPACITY>,
    rules: PhantomData<R>,
}

impl<R: Rules<CAPACITY>, const CAPACITY: usize> Model for Semantic<R, CAPACITY> {
    ghost use Rattle.std.specs.Prelude.{ℕ, List, ◌≤◌, length};
    ghost use Rattle.iox_container.specs.Accepted.{IsAccepted};

    ghost Value = { List ℕ };

    ghost view = { λ s. s.content };

    ghost invariant = { λ s. (length s.content ≤ CAPACITY) × IsAccepted R.refuses_content R.refuses_characters s.content };
}

impl<R: Rules<CAPACITY>, const CAPACITY: usize> Semantic<R, CAPACITY> {
    /// A text of these bytes.
    ///
    /// Refused with `ExceedsMaximumLength` if there are more than `CAPACITY` bytes, else with `InvalidContent` if a byte lies outside
    /// 1..=127 or the rules refuse the text.
    pub fn new(bytes: &[u8]) -> Result<Self, SemanticStringError>
        ensures answer { AnswersContent CAPACITY R.refuses_content R.refuses_characters bytes.now result }
        ensures value { IfOk result (λ s. s ≡ bytes.now) }
    {
        let content = StaticString::from_bytes(bytes)?;
        if is_refused::<R, CAPACITY>(&content) {
            return Err(SemanticStringError::InvalidContent);
        }
        Ok(Semantic {
            content,
            rules: PhantomData,
        })
    }

    /// The text as a `StaticString`, with the read operations of strings.
    pub fn as_string(&self) -> &StaticString<CAPACITY>
        ensures value { result.now ≡ self.now }
        ensures fits { length self.now ≤ CAPACITY }
        ensures accepted { IsAccepted R.refuses_content R.refuses_characters self.now }
    {
        &self.content
    }

    /// The bytes of the text.
    pub fn as_bytes(&self) -> &[u8]
        ensures { result.now ≡ self.now }
    {
        self.content.as_bytes()
    }

    /// The text as a `str`; it is ASCII.
    pub fn as_str(&self) -> &str
        ensures { result.now ≡ self.now }
    {
        self.content.as_str()
    }

    /// How many bytes the text has.
    pub fn len(&self) -> usize
        ensures value { result ≡ length self.now }
        ensures fits { result ≤ CAPACITY }
    {
        self.content.len()
    }

    /// Whether the text has no byte.
    pub fn is_empty(&self) -> bool
        ensures { IsTrue result ↔ (self.now ≡ []) }
    {
        self.content.is_empty()
    }

    /// The maximum number of bytes, which is `CAPACITY`.
    pub fn capacity(&self) -> usize
        ensures { result ≡ CAPACITY }
    {
        CAPACITY
    }

    /// The normal form of the text.
    pub fn normalised(&self) -> StaticString<CAPACITY>
        ensures form { result ≡ R.normal self.now }
        ensures once { R.normal (R.normal self.now) ≡ R.normal self.now }
    {
        R::normalise(&self.content)
    }

    // Replaces the content by another one, if the rules accept it.
    fn adopt(&mut self, content: StaticString<CAPACITY>) -> Result<(), SemanticStringError>
        ensures answer { AnswersContent CAPACITY R.refuses_content R.refuses_characters content.entry result }
        ensures ok { OnOk result (self.new ≡ content.entry) }
        ensures err { OnErr result (self.new ≡ self.old) }
    {
        if is_refused::<R, CAPACITY>(&content) {
            return Err(SemanticStringError::InvalidContent);
        }
        self.content = content;
        Ok(())
    }

    /// Inserts bytes before the byte at `idx`, or at the end: all of them or none.
    ///
    /// Refused with `ExceedsMaximumLength` if the bytes don't fit, else with `InvalidContent` if one lies outside 1..=127 or the rules
    /// refuse the resulting text.
    pub fn insert_bytes(&mut self, idx: usize, bytes: &[u8]) -> Result<(), SemanticStringError>
        requires { idx ≤ length self.old }
        ensures answer { AnswersContent CAPACITY R.refuses_content R.refuses_characters (bytes_inserted self.old idx bytes.now) result }
        ensures ok { OnOk result (self.new ≡ bytes_inserted self.old idx bytes.now) }
        ensures err { OnErr result (self.new ≡ self.old) }
    {
        let mut changed = self.content;
        changed.insert_bytes(idx, bytes)?;
        self.adopt(changed)
    }

    /// Inserts a byte before the byte at `idx`, or at the end. Refused as `insert_bytes` is.
    pub fn insert(&mut self, idx: usize, byte: u8) -> Result<(), SemanticStringError>
        requires { idx ≤ length self.old }
        ensures answer { AnswersContent CAPACITY R.refuses_content R.refuses_characters (bytes_inserted self.old idx (byte ∷ [])) result }
        ensures ok { OnOk result (self.new ≡ bytes_inserted self.old idx (byte ∷ [])) }
        ensures err { OnErr result (self.new ≡ self.old) }
    {
        self.insert_bytes(idx, &[byte])
    }

    /// Appends bytes: all of them or none. Refused as `insert_bytes` is.
    pub fn push_bytes(&mut self, bytes: &[u8]) -> Result<(), SemanticStringError>
        ensures answer { AnswersContent CAPACITY R.refuses_content R.refuses_characters (self.old ++ bytes.now) result }
        ensures ok { OnOk result (self.new ≡ self.old ++ bytes.now) }
        ensures err { OnErr result (self.new ≡ self.old) }
    {
        let len = self.content.len();
        self.insert_bytes(len, bytes)
    }

    /// Appends a byte. Refused as `insert_bytes` is.
    pub fn push(&mut self, byte: u8) -> Result<(), SemanticStringError>
        ensures answer { AnswersContent CAPACITY R.refuses_content R.refuses_characters (self.old ++ byte ∷ []) result }
        ensures ok { OnOk result (self.new ≡ self.old ++ byte ∷ []) }
        ensures err { OnErr result (self.new ≡ self.old) }
    {
        self.push_bytes(&[byte])
    }

    /// Removes the byte at `idx` and returns it, if there is one. Refused with `InvalidContent` if the rules refuse the resulting text.
    pub fn remove(&mut self, idx: usize) -> Result<Option<u8>, SemanticStringError>
        ensures answer { AnswersContent CAPACITY R.refuses_content R.refuses_characters (remove self.old idx) result }
        ensures value { IfOk result (λ byte. byte ≡ slice_get self.old idx) }
        ensures ok { OnOk result (self.new ≡ remove self.old idx) }
        ensures err { OnErr result (self.new ≡ self.old) }
    {
        let mut changed = self.content;
        let byte = changed.remove(idx);
        self.adopt(changed)?;
        Ok(byte)
    }

    /// Removes the last byte and returns it, if there is one. Refused as `remove` is.
    pub fn pop(&mut self) -> Result<Option<u8>, SemanticStringError>
        ensures answer { AnswersContent CAPACITY R.refuses_content R.refuses_characters (remove self.old (length self.old - 1)) result }
        ensures value { IfOk result (λ byte. byte ≡ slice_get self.old (length self.old - 1)) }
        ensures ok { OnOk result (self.new ≡ remove self.old (length self.old - 1)) }
        ensures err { OnErr result (self.new ≡ self.old) }
    {
        let last = self.content.len().saturating_sub(1);
        self.remove(last)
    }

    /// Removes `len` bytes from `idx` on and returns true, or returns false if the text ends before them. Refused with `InvalidContent` if
    /// the rules refuse the resulting text.
    pub fn remove_range(&mut self, idx: usize, len: usize) -> Result<bool, SemanticStringError>
        ensures within { idx + len ≤ length self.old
            → AnswersContent CAPACITY R.refuses_content R.refuses_characters (range_replaced self.old idx (idx + len) []) result }
        ensures past { length self.old < idx + len → result ≡ Ok false }
        ensures ok { IfOk result (λ removed. (IsTrue removed ↔ (idx + len ≤ length self.old))
            × OnTrue removed (self.new ≡ range_replaced self.old idx (idx + len) []) × OnFalse removed (self.new ≡ self.old)) }
        ensures err { OnErr result (self.new ≡ self.old) }
    {
        let mut changed = self.content;
        if !changed.remove_range(idx, len) {
            return Ok(false);
        }
        self.adopt(changed)?;
        Ok(true)
    }

    /// Keeps the first `new_len` bytes. Refused with `InvalidContent` if the rules refuse the resulting text.
    pub fn truncate(&mut self, new_len: usize) -> Result<(), SemanticStringError>
        ensures answer { AnswersContent CAPACITY R.refuses_content R.refuses_characters (take new_len self.old) result }
        ensures ok { OnOk result (self.new ≡ take new_len self.old) }
        ensures err { OnErr result (self.new ≡ self.old) }
    {
        let mut changed = self.content;
        changed.truncate(new_len);
        self.adopt(changed)
    }

    /// Removes every byte. Refused with `InvalidContent` if the rules refuse the empty text.
    pub fn clear(&mut self) -> Result<(), SemanticStringError>
        ensures answer { AnswersContent CAPACITY R.refuses_content R.refuses_characters [] result }
        ensures ok { OnOk result (self.new ≡ []) }
        ensures err { OnErr result (self.new ≡ self.old) }
    {
        self.truncate(0)
    }

    /// Keeps the bytes for which `keeps` returns true. It is called once for each byte, in order. The contract also says in which state
    /// this leaves `keeps`. Refused with `InvalidContent` if the rules refuse the resulting text.
    pub fn retain<F: FnMut(u8) -> bool>(&mut self, keeps: &mut F) -> Result<(), SemanticStringError>
        requires { F.IsAlwaysCallable keeps.old }
        ensures answer { (kept : List ℕ) × KeepsAsAnswered (λ p byte answer q. F.step p byte answer q) keeps.old self.old kept keeps.new
            × AnswersContent CAPACITY R.refuses_content R.refuses_characters kept result × OnOk result (self.new ≡ kept) }
        ensures callable { F.IsAlwaysCallable keeps.new }
        ensures err { OnErr result (self.new ≡ self.old) }
    {
        let mut changed = self.content;
        changed.retain(keeps);
        self.adopt(changed)
    }

    /// Removes `bytes` from the start and returns true, or returns false if the text doesn't begin with them. Refused with `InvalidContent`
    /// if the rules refuse the rest.
    pub fn strip_prefix(&mut self, bytes: &[u8]) -> Result<bool, SemanticStringError>
        ensures stripped { (rest : List ℕ) → self.old ≡ bytes.now ++ rest
            → AnswersContent CAPACITY R.refuses_content R.refuses_characters rest result }
        ensures other { ((rest : List ℕ) → ¬ (self.old ≡ bytes.now ++ rest)) → result ≡ Ok false }
        ensures ok { IfOk result (λ stripped. OnTrue stripped (self.old ≡ bytes.now ++ self.new)
            × OnFalse stripped ((self.new ≡ self.old) × ((rest : List ℕ) → ¬ (self.old ≡ bytes.now ++ rest)))) }
        ensures err { OnErr result (self.new ≡ self.old) }
    {
        let mut changed = self.content;
        if !changed.strip_prefix(bytes) {
            return Ok(false);
        }
        self.adopt(changed)?;
        Ok(true)
    }

    /// Removes `bytes` from the end and returns true, or returns false if the text doesn't end with them. Refused with `InvalidContent` if
    /// the rules refuse the rest.
    pub fn strip_suffix(&mut self, bytes: &[u8]) -> Result<bool, SemanticStringError>
        ensures stripped { (rest : List ℕ) → self.old ≡ rest ++ bytes.now
            → AnswersContent CAPACITY R.refuses_content R.refuses_characters rest result }
        ensures other { ((rest : List ℕ) → ¬ (self.old ≡ rest ++ bytes.now)) → result ≡ Ok false }
        ensures ok { IfOk result (λ stripped. OnTrue stripped (self.old ≡ self.new ++ bytes.now)
            × OnFalse stripped ((self.new ≡ self.old) × ((rest : List ℕ) → ¬ (self.old ≡ rest ++ bytes.now)))) }
        ensures err { OnErr result (self.new ≡ self.old) }
    {
        let mut changed = self.content;
        if !changed.strip_suffix(bytes) {
            return Ok(false);
        }
        self.adopt(changed)?;
        Ok(true)
    }
}

/// Like `new` with the bytes of the text.
impl<R: Rules<CAPACITY>, const CAPACITY: usize> TryFrom<&str> for Semantic<R, CAPACITY> {
    type Error = SemanticStringError;

    ghost try_from_gives = { λ text r. AnswersContent CAPACITY R.refuses_content R.refuses_characters text.now r
        × IfOk r (λ made. made ≡ text.now) };

    fn try_from(text: &str) -> Result<Self, SemanticStringError> {
        Semantic::new(text.as_bytes())
    }
}

fn is_refused<R: Rules<CAPACITY>, const CAPACITY: usize>(content: &StaticString<CAPACITY>) -> bool
    ensures accepted { OnFalse result (IsAccepted R.refuses_content R.refuses_characters content.now) }
    ensures refused { OnTrue result (¬ IsAccepted R.refuses_content R.refuses_characters content.now) }
    ensures fits { length content.now ≤ CAPACITY }
{
    let _ = content.as_bytes();
    R::invalid_content(content) || R::invalid_characters(content)
}

impl<R: Rules<CAPACITY>, const CAPACITY: usize> PartialEq for Semantic<R, CAPACITY> {
    ghost eq = { λ s t. pointwise nat_eq (R.normal s) (R.normal t) };

    ghost laws = { on_per (λ s. R.normal s) (partial_equiv_from_equiv nat_list_eq_equiv) };

    fn eq(&self, other: &Self) -> bool {
        self.normalised() == other.normalised()
    }
}

impl<R: Rules<CAPACITY>, const CAPACITY: usize> Eq for Semantic<R, CAPACITY> {
    ghost laws = { on_equiv (λ s. R.normal s) nat_list_eq_equiv };
}

impl<R: Rules<CAPACITY>, const CAPACITY: usize> PartialOrd for Semantic<R, CAPACITY> {
    ghost partial_cmp = { λ s t. Some (slice_cmp nat_cmp (R.normal s) (R.normal t)) };

    ghost laws = { on_po (λ s. R.normal s) texts_po };

    fn partial_cmp(&self, other: &Self) -> Option<Ordering> {
        Some(self.cmp(other))
    }
}

impl<R: Rules<CAPACITY>, const CAPACITY: usize> Ord for Semantic<R, CAPACITY> {
    ghost cmp = { λ s t. slice_cmp nat_cmp (R.normal s) (R.normal t) };

    ghost total = { on_total (λ s. R.normal s) nat_list_cmp_total };

    ghost matches_partial_cmp = { λ s t. refl };

    ghost matches_eq = { λ s t. texts_ties (R.normal s) (R.normal t) };

    fn cmp(&self, other: &Self) -> Ordering {
        self.normalised().cmp(&other.normalised())
    }
}

impl<R: Rules<CAPACITY>, const CAPACITY: usize> Hash for Semantic<R, CAPACITY> {
    ghost hash_input = { λ s. fed.slice fed.u8 (R.normal s) };

    ghost respects_eq = { Prim.search (hashing, rules) };

    fn hash<H: Hasher>(&self, state: &mut H) {
        self.normalised().hash(state);
    }
}

/// Shows the text as a literal, in quotes and with escapes.
impl<R: Rules<CAPACITY>, const CAPACITY: usize> fmt::Debug for Semantic<R, CAPACITY> {
    fn fmt<W: fmt::Write>(&self, f: &mut fmt::Formatter<W>) -> fmt::Result {
        fmt::Debug::fmt(&self.content, f)
    }
}

/// Shows the text.
impl<R: Rules<CAPACITY>, const CAPACITY: usize> fmt::Display for Semantic<R, CAPACITY> {
    ghost output = { λ s. Some s };

    fn fmt<W: fmt::Write>(&self, f: &mut fmt::Formatter<W>) -> fmt::Result {
        fmt::Display::fmt(&self.content, f)
    }
}
