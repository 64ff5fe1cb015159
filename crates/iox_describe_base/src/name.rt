//! The name of a service.
ghost use Rattle.std.specs.Prelude.{◌≡◌, ◌↔◌, IsOk, IfOk, Some};
ghost use Rattle.iox_describe_base.specs.Limits.{IsText};

use crate::limits::{LimitError, MAX_SERVICE_NAME_LENGTH};
use iox_container::string::{StaticString, String};
use std::fmt;
use std::marker::Model;

/// The name of a service: 1 to 255 bytes of 1..=127. Contracts see it as the list of its bytes.
///
/// Ported from `iceoryx2::service::service_name::ServiceName`.
#[derive(Clone, Copy, Debug, PartialEq, Eq)]
pub struct ServiceName {
    value: StaticString<MAX_SERVICE_NAME_LENGTH>,
}

impl Model for ServiceName {
    ghost use Rattle.std.specs.Prelude.{ℕ, List};
    ghost use Rattle.iox_describe_base.specs.Limits.{IsText};

    ghost Value = { List ℕ };

    ghost view = { λ n. n.value };

    ghost invariant = { λ n. IsText 1 255 n.value };

    ghost inverse = { λ bytes. record { value = bytes } };
}

impl ServiceName {
    /// The name with these bytes.
    ///
    /// Refused with `OutsideLimits` if there are no bytes or more than 255, or if a byte lies outside 1..=127.
    pub fn new(bytes: &[u8]) -> Result<Self, LimitError>
        ensures accepted { IsOk result ↔ IsText 1 255 bytes.now }
        ensures value { IfOk result (λ name. name ≡ bytes.now) }
    {
        if bytes.is_empty() {
            return Err(LimitError::OutsideLimits);
        }
        match StaticString::from_bytes(bytes) {
            Ok(value) => Ok(ServiceName { value }),
            Err(_) => Err(LimitError::OutsideLimits),
        }
    }

    /// The name as text.
    pub fn as_str(&self) -> &str
        ensures { result.now ≡ self.now }
    {
        self.value.as_str()
    }

    /// The bytes of the name.
    pub fn as_bytes(&self) -> &[u8]
        ensures value { result.now ≡ self.now }
        ensures within { IsText 1 255 self.now }
    {
        self.value.as_bytes()
    }
}

/// Like `new` with the bytes of the text.
impl TryFrom<&str> for ServiceName {
    type Error = LimitError;

    ghost try_from_gives = { λ text r. (IsOk r ↔ IsText 1 255 text.now) × IfOk r (λ name. name ≡ text.now) };

    fn try_from(text: &str) -> Result<ServiceName, LimitError> {
        ServiceName::new(text.as_bytes())
    }
}

/// Shows the name.
impl fmt::Display for ServiceName {
    ghost output = { λ n. Some n };

    fn fmt<W: fmt::Write>(&self, f: &mut fmt::Formatter<W>) -> fmt::Result {
        f.pad(self.as_str())
    }
}
