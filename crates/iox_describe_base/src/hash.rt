//! The hash that identifies a service.
ghost use Rattle.std.specs.Prelude.{◌≡◌};
ghost use Rattle.iox_describe_base.specs.Hash.{hash_text, service_hash_of, service_hash_text, digit_of};

use crate::name::ServiceName;
use crate::pattern::MessagingPattern;
use sha1::Sha1;

/// The SHA-1 digest of a messaging pattern and a name; its text is 40 digits in lower case.
///
/// Ported from `iceoryx2::service::service_hash::ServiceHash`.
#[derive(Clone, Copy, Debug, PartialEq, Eq, Hash)]
pub struct ServiceHash {
    /// The 20 bytes of the digest.
    pub digest: [u8; 20],
}

impl ServiceHash {
    /// The 40 hexadecimal digits of the hash, with letters in lower case.
    pub fn text(&self) -> [u8; 40]
        ensures { result ≡ hash_text self.now }
    {
        let mut text = [0; 40];
        let _ = hex::encode_to_slice(self.digest.as_slice(), &mut text);
        text
    }
}

/// The hash of the service of this pattern and name: SHA-1 over one ASCII digit and the bytes of the
/// name. The digit is 0 for request-response, 1 for publish-subscribe, 2 for event.
///
/// Ported from `iceoryx2::service::service_hash::ServiceHash::new`.
pub fn service_hash(pattern: MessagingPattern, name: &ServiceName) -> ServiceHash
    ensures value { result ≡ service_hash_of pattern name.now }
    ensures text { hash_text result ≡ service_hash_text pattern name.now }
{
    let mut hasher = Sha1::new();
    hasher.update(pattern_digit(pattern));
    hasher.update(name.as_bytes());
    ServiceHash {
        digest: hasher.finalize(),
    }
}

/// The ASCII digit of a pattern, which is hashed before the name.
fn pattern_digit(pattern: MessagingPattern) -> &'static [u8]
    ensures { result.now ≡ digit_of pattern }
{
    match pattern {
        MessagingPattern::RequestResponse => b"0",
        MessagingPattern::PublishSubscribe => b"1",
        MessagingPattern::Event => b"2",
    }
}
