//! What an opener requires of a service's attributes.
ghost use Rattle.std.specs.Prelude.{◌≡◌, ◌<◌, ◌↔◌, [], ◌∷◌, ◌++◌, length, IsOk, IfOk, OnOk, OnErr};
ghost use Rattle.iox_describe_base.specs.Limits.{IsText};
ghost use Rattle.iox_describe_base.specs.Attributes.{has_pair, has_key, unmet_pair, unmet_lone_key};

use crate::attribute::{Attribute, AttributeError, AttributeKey, AttributeSpecifier, key_of};
use crate::few::Few;
use crate::limits::{LimitError, MAX_ATTRIBUTES};
use std::alloc::{AllocError, Global};
use std::marker::Model;

/// The pairs that a service must have, and the keys for each of which it must have some pair; at most 8 of each. Contracts see it as the
/// record `Required` of the two lists.
///
/// Ported from `iceoryx2::service::attribute::AttributeVerifier`.
#[derive(Debug)]
pub struct AttributeVerifier {
    pairs: AttributeSpecifier,
    keys: Few<AttributeKey>,
}

/// Stated once here, so that crates above don't have to prove it again.
impl Drop for AttributeVerifier {
    fn drop(self) {
        let AttributeVerifier { pairs: _, keys: _ } = self;
    }
}

impl Model for AttributeVerifier {
    ghost use Rattle.iox_describe_base.specs.Attributes.{Required, required, AreKeys};

    ghost Value = { Required };

    ghost view = { λ v. required v.pairs v.keys };

    ghost invariant = { λ v. AreKeys v.keys };
}

impl AttributeVerifier {
    ghost use Rattle.iox_describe_base.specs.Attributes.{required, attribute, unmet_key, result_of, has_required, AnswersOneMore};

    /// Requires nothing. It doesn't allocate.
    pub fn new() -> Self
        ensures { result ≡ required [] [] }
    {
        AttributeVerifier {
            pairs: AttributeSpecifier::new(),
            keys: Few::new(),
        }
    }

    /// Requires a pair. The first pair allocates the memory for all eight.
    ///
    /// Refused, and nothing changes, with `LimitError::OutsideLimits` if 8 pairs are required already, if the key has no bytes or more than
    /// 64, if the value has more than 256, or if a byte of either lies outside 1..=127; else with `OutOfMemory` if it is the first pair and
    /// an allocation fails.
    pub fn require(&mut self, alloc: Global, key: &[u8], value: &[u8]) -> Result<(), AttributeError>
        ensures answer { AnswersOneMore ((length self.old.pairs < 8) × IsText 1 64 key.now
            × IsText 0 256 value.now) (self.old.pairs ≡ []) result }
        ensures ok { OnOk result (self.new ≡ required (self.old.pairs ++ attribute key.now value.now ∷ []) self.old.keys) }
        ensures err { OnErr result (self.new ≡ self.old) }
    {
        self.pairs.define(alloc, key, value)
    }

    /// Requires that some pair has this key. The first key allocates the memory for all eight.
    ///
    /// Refused, and nothing changes, with `LimitError::OutsideLimits` if 8 keys are required already, if the key has no bytes or more than
    /// 64, or if a byte lies outside 1..=127; else with `OutOfMemory` if it is the first key and an allocation fails.
    pub fn require_key(&mut self, alloc: Global, key: &[u8]) -> Result<(), AttributeError>
        ensures answer { AnswersOneMore ((length self.old.keys < 8) × IsText 1 64 key.now) (self.old.keys ≡ []) result }
        ensures ok { OnOk result (self.new ≡ required self.old.pairs (self.old.keys ++ key.now ∷ [])) }
        ensures err { OnErr result (self.new ≡ self.old) }
    {
        if self.keys.as_slice().len() >= MAX_ATTRIBUTES {
            return Err(AttributeError::LimitError(LimitError::OutsideLimits));
        }
        let key = key_of(key)?;
        self.keys.push(alloc, key)?;
        Ok(())
    }

    /// A copy of the requirements in memory of its own. It fails only if an allocation fails, and never if nothing is required.
    pub fn try_clone(&self, alloc: Global) -> Result<Self, AllocError>
        ensures same { IfOk result (λ verifier. verifier ≡ self.now) }
        ensures empty { self.now ≡ required [] [] → IsOk result }
    {
        Ok(AttributeVerifier {
            pairs: self.pairs.try_clone(alloc)?,
            keys: self.keys.try_clone(alloc)?,
        })
    }

    /// The required pairs.
    pub fn attributes(&self) -> &AttributeSpecifier
        ensures { result.now ≡ self.now.pairs }
    {
        &self.pairs
    }

    /// The required keys.
    pub fn keys(&self) -> &[AttributeKey]
        ensures { result.now ≡ self.now.keys }
    {
        self.keys.as_slice()
    }

    /// Whether a service with these attributes has what is required.
    ///
    /// The error is the first required key that isn't met: of the pairs in their order, then of the keys.
    pub fn verify_requirements(&self, attributes: &AttributeSpecifier) -> Result<(), AttributeKey>
        ensures { result ≡ result_of (unmet_key self.now attributes.now) }
    {
        let given = attributes.as_slice();
        let unmet = match unmet_pair(self.pairs.as_slice(), given) {
            Some(pair) => Some(pair.key),
            None => unmet_lone_key(self.keys.as_slice(), given),
        };
        match unmet {
            Some(key) => Err(key),
            None => Ok(()),
        }
    }

    /// Whether a service with these attributes has what is required.
    pub fn is_met_by(&self, attributes: &AttributeSpecifier) -> bool
        ensures { result ≡ has_required self.now attributes.now }
    {
        self.verify_requirements(attributes).is_ok()
    }
}

/// The first pair that is not one of the given pairs.
fn unmet_pair(pairs: &[Attribute], given: &[Attribute]) -> Option<Attribute>
    ensures { result ≡ unmet_pair pairs.now given.now }
{
    pairs.iter().copied().find(|pair| !has_pair(given, pair))
}

/// The first key that none of the given attributes has.
fn unmet_lone_key(keys: &[AttributeKey], given: &[Attribute]) -> Option<AttributeKey>
    ensures { result ≡ unmet_lone_key keys.now given.now }
{
    keys.iter().copied().find(|key| !has_key(given, key))
}

/// Whether the pair is one of these attributes.
fn has_pair(attributes: &[Attribute], pair: &Attribute) -> bool
    ensures { result ≡ has_pair attributes.now pair.now }
{
    attributes.iter().any(|attribute| *attribute == *pair)
}

/// Whether one of these attributes has the key.
fn has_key(attributes: &[Attribute], key: &AttributeKey) -> bool
    ensures { result ≡ has_key attributes.now key.now }
{
    attributes.iter().any(|attribute| attribute.key == *key)
}
