//! Attributes: pairs of a key and a value that distinguish services with the same name.
ghost use Rattle.std.specs.Prelude.{◌≡◌, ◌<◌, ◌↔◌, [], ◌∷◌, ◌++◌, length, IsOk, IfOk, OnOk, OnErr, IsTrue};
ghost use Rattle.iox_describe_base.specs.Limits.{IsText};
ghost use Rattle.iox_describe_base.specs.Attributes.{IsAttribute};

use crate::few::Few;
use crate::limits::{
    LimitError, MAX_ATTRIBUTE_KEY_LENGTH, MAX_ATTRIBUTE_VALUE_LENGTH, MAX_ATTRIBUTES,
};
use iox_container::string::StaticString;
use std::alloc::{AllocError, Global};
use std::marker::Model;
use thiserror::Error;

/// The key of an attribute: 1 to 64 bytes of 1..=127.
pub type AttributeKey = StaticString<MAX_ATTRIBUTE_KEY_LENGTH>;

/// The value of an attribute: 0 to 256 bytes of 1..=127.
pub type AttributeValue = StaticString<MAX_ATTRIBUTE_VALUE_LENGTH>;

/// A key and its value.
///
/// Ported from `iceoryx2::service::attribute::Attribute`.
#[derive(Clone, Copy, Debug, PartialEq, Eq)]
pub struct Attribute {
    /// The key.
    pub key: AttributeKey,
    /// The value.
    pub value: AttributeValue,
}

/// Why a pair or a key is refused when an attribute is defined or required.
#[derive(Clone, Copy, Debug, PartialEq, Eq, Error)]
pub enum AttributeError {
    /// The key or the value is outside the limits, or there are eight already.
    #[error("AttributeError::LimitError({0:?})")]
    LimitError(LimitError),
    /// Memory ran out.
    #[error("AttributeError::OutOfMemory")]
    OutOfMemory,
}

impl From<LimitError> for AttributeError {
    ghost use Rattle.iox_describe_base.specs.declared.attribute.AttributeError.TheVariants as refusal;

    ghost from_gives = { λ limit error. error ≡ refusal.LimitError limit };

    fn from(error: LimitError) -> AttributeError {
        AttributeError::LimitError(error)
    }
}

impl From<AllocError> for AttributeError {
    ghost use Rattle.iox_describe_base.specs.declared.attribute.AttributeError.TheVariants.{OutOfMemory};

    ghost from_gives = { λ _ error. error ≡ OutOfMemory };

    fn from(_error: AllocError) -> AttributeError {
        AttributeError::OutOfMemory
    }
}

/// The attributes that a service is created with, in the order in which they were defined; at most 8. The same key, and the same pair, may
/// occur several times. Contracts see it as the list of its pairs.
///
/// Ported from `iceoryx2::service::attribute::AttributeSpecifier`.
#[derive(Debug)]
pub struct AttributeSpecifier {
    pairs: Few<Attribute>,
}

/// Stated once here, so that crates above don't have to prove it again.
impl Drop for AttributeSpecifier {
    fn drop(self) {
        let AttributeSpecifier { pairs: _ } = self;
    }
}

impl Model for AttributeSpecifier {
    ghost use Rattle.std.specs.Prelude.{List};
    ghost use Rattle.iox_describe_base.specs.declared.attribute.Attribute.{Attribute};
    ghost use Rattle.iox_describe_base.specs.Attributes.{AreAttributes};

    ghost Value = { List Attribute };

    ghost view = { λ s. s.pairs };

    ghost invariant = { λ s. AreAttributes s.pairs };
}

impl AttributeSpecifier {
    ghost use Rattle.iox_describe_base.specs.Attributes.{AreAttributes, attribute, AnswersOneMore};

    /// No attributes. It doesn't allocate.
    pub fn new() -> Self
        ensures { result ≡ [] }
    {
        AttributeSpecifier { pairs: Few::new() }
    }

    /// Appends a pair. The first pair allocates the memory for all eight.
    ///
    /// Refused, and nothing changes, with `LimitError::OutsideLimits` if there are 8 pairs already, if the key has no bytes or more than
    /// 64, if the value has more than 256, or if a byte of either lies outside 1..=127; else with `OutOfMemory` if it is the first pair and
    /// an allocation fails.
    pub fn define(&mut self, alloc: Global, key: &[u8], value: &[u8]) -> Result<(), AttributeError>
        ensures answer { AnswersOneMore ((length self.old < 8) × IsText 1 64 key.now × IsText 0 256 value.now) (self.old ≡ []) result }
        ensures ok { OnOk result (self.new ≡ self.old ++ attribute key.now value.now ∷ []) }
        ensures err { OnErr result (self.new ≡ self.old) }
    {
        if self.pairs.as_slice().len() >= MAX_ATTRIBUTES {
            return Err(AttributeError::LimitError(LimitError::OutsideLimits));
        }
        let attribute = attribute_of(key, value)?;
        self.pairs.push(alloc, attribute)?;
        Ok(())
    }

    /// A copy of the attributes in memory of its own. It fails only if an allocation fails, and never for no attributes.
    pub fn try_clone(&self, alloc: Global) -> Result<Self, AllocError>
        ensures same { IfOk result (λ attributes. attributes ≡ self.now) }
        ensures empty { self.now ≡ [] → IsOk result }
    {
        Ok(AttributeSpecifier {
            pairs: self.pairs.try_clone(alloc)?,
        })
    }

    /// The pairs, in the order in which they were defined.
    pub fn as_slice(&self) -> &[Attribute]
        ensures value { result.now ≡ self.now }
        ensures within { AreAttributes self.now }
    {
        self.pairs.as_slice()
    }
}

/// Attributes are equal if they have the same pairs in the same order.
impl PartialEq for AttributeSpecifier {
    ghost use Rattle.iox_describe_base.specs.SameAttributes.{same_attributes, same_attributes_laws};

    ghost eq = { same_attributes };

    ghost laws = { same_attributes_laws };

    fn eq(&self, other: &Self) -> bool
        ensures same { result ≡ same_attributes self.now other.now }
        ensures exact { IsTrue result ↔ (self.now ≡ other.now) }
    {
        self.pairs.as_slice() == other.pairs.as_slice()
    }
}

/// The key with these bytes.
pub(crate) fn key_of(key: &[u8]) -> Result<AttributeKey, LimitError>
    ensures accepted { IsOk result ↔ IsText 1 64 key.now }
    ensures value { IfOk result (λ k. k ≡ key.now) }
{
    if key.is_empty() {
        return Err(LimitError::OutsideLimits);
    }
    StaticString::from_bytes(key).map_err(|_| LimitError::OutsideLimits)
}

/// The pair with these bytes.
fn attribute_of(key: &[u8], value: &[u8]) -> Result<Attribute, LimitError>
    ensures accepted { IsOk result ↔ (IsText 1 64 key.now × IsText 0 256 value.now) }
    ensures key { IfOk result (λ a. a.key ≡ key.now) }
    ensures value { IfOk result (λ a. a.value ≡ value.now) }
    ensures within { IfOk result (λ a. IsAttribute a) }
{
    let key = key_of(key)?;
    match StaticString::from_bytes(value) {
        Ok(value) => Ok(Attribute { key, value }),
        Err(_) => Err(LimitError::OutsideLimits),
    }
}
