//! The memory layout of a type, on which both ends of a connection must agree.
ghost use Rattle.std.specs.Prelude.{◌≡◌, ◌≤◌, ◌↔◌, IsOk, IfOk};
ghost use Rattle.iox_describe_base.specs.Limits.{IsText};

use crate::limits::{LimitError, MAX_TYPE_NAME_LENGTH};
use iox_container::string::{StaticString, String as _};
use std::marker::Model;

/// Whether a message holds a single value of a type or a slice.
///
/// Ported from `iceoryx2::service::static_config::message_type_details::TypeVariant`.
#[derive(Clone, Copy, Debug, PartialEq, Eq, Hash)]
pub enum TypeVariant {
    /// A single value.
    FixedSize,
    /// A slice, whose length can differ from message to message.
    Dynamic,
}

/// The name, size and alignment of a type, in bytes, and whether messages hold a single value or a slice. Contracts see it as the record
/// `Detail` of these four.
///
/// Ported from `iceoryx2::service::static_config::message_type_details::TypeDetail`.
#[derive(Clone, Copy, Debug, PartialEq, Eq)]
pub struct TypeDetail {
    variant: TypeVariant,
    name: StaticString<MAX_TYPE_NAME_LENGTH>,
    size: u64,
    alignment: u64,
}

impl Model for TypeDetail {
    ghost use Rattle.iox_describe_base.specs.Detail.{Detail, IsDetail, detail};

    ghost Value = { Detail };

    ghost view = { λ d. detail d.variant d.name d.size d.alignment };

    ghost invariant = { λ d. IsDetail (detail d.variant d.name d.size d.alignment) };

    ghost inverse = { λ d. record { variant = d.variant; name = d.name; size = d.size; alignment = d.alignment } };
}

impl TypeDetail {
    ghost use Rattle.iox_describe_base.specs.Detail.{detail, IsDetail};

    /// The detail of a type with this name, size and alignment.
    ///
    /// Refused with `OutsideLimits` if the name has no bytes, more than 255, or a byte outside 1..=127, or if the alignment is 0.
    pub fn new(
        variant: TypeVariant,
        name: &[u8],
        size: u64,
        alignment: u64,
    ) -> Result<Self, LimitError>
        ensures accepted { IsOk result ↔ (IsText 1 255 name.now × (1 ≤ alignment)) }
        ensures value { IfOk result (λ d. d ≡ detail variant name.now size alignment) }
    {
        if name.is_empty() || alignment == 0 {
            return Err(LimitError::OutsideLimits);
        }
        match StaticString::from_bytes(name) {
            Ok(name) => Ok(TypeDetail {
                variant,
                name,
                size,
                alignment,
            }),
            Err(_) => Err(LimitError::OutsideLimits),
        }
    }

    /// The detail of a type whose name is known to be within the limits, for example of a type that states its own detail.
    pub fn known(variant: TypeVariant, name: &[u8], size: u64, alignment: u64) -> Self
        requires name { IsText 1 255 name.now }
        requires alignment { 1 ≤ alignment }
        ensures { result ≡ detail variant name.now size alignment }
    {
        TypeDetail {
            variant,
            name: StaticString::from_bytes(name).unwrap(),
            size,
            alignment,
        }
    }

    /// Whether messages hold a single value of the type or a slice.
    pub fn variant(&self) -> TypeVariant
        ensures { result ≡ self.now.variant }
    {
        self.variant
    }

    /// The bytes of the type's name.
    pub fn type_name(&self) -> &[u8]
        ensures value { result.now ≡ self.now.name }
        ensures within { IsDetail self.now }
    {
        self.name.as_bytes()
    }

    /// The type's name as text.
    pub fn type_text(&self) -> &str
        ensures { result.now ≡ self.now.name }
    {
        self.name.as_str()
    }

    /// The size of one element, in bytes.
    pub fn size(&self) -> u64
        ensures { result ≡ self.now.size }
    {
        self.size
    }

    /// The alignment of one element, in bytes; at least 1.
    pub fn alignment(&self) -> u64
        ensures value { result ≡ self.now.alignment }
        ensures positive { 1 ≤ result }
    {
        self.alignment
    }
}
