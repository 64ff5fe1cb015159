//! The three types of a message.
ghost use Rattle.std.specs.Prelude.{◌≡◌};

use crate::type_detail::{TypeDetail, TypeVariant};
use crate::zero_copy_send::ZeroCopySend;

/// The types of a service's messages.
///
/// Ported from `iceoryx2::service::static_config::message_type_details::MessageTypeDetails`.
#[derive(Clone, Copy, Debug, PartialEq, Eq)]
pub struct MessageTypeDetails {
    /// The header that the service writes.
    pub header: TypeDetail,
    /// The header that the user writes.
    pub user_header: TypeDetail,
    /// The payload.
    pub payload: TypeDetail,
}

impl MessageTypeDetails {
    ghost use Rattle.iox_describe_base.specs.Compatible.{is_compatible};
    ghost use Rattle.iox_describe_base.specs.Detail.{detail};
    ghost use Rattle.iox_describe_base.specs.declared.type_detail.TypeVariant.TheVariants.{FixedSize};

    /// The types of messages with this header, user header and payload. The variant applies to the payload; both headers are single values.
    pub fn from<H: ZeroCopySend, U: ZeroCopySend, P: ZeroCopySend>(
        payload_variant: TypeVariant,
    ) -> Self
        ensures header { result.header ≡ detail FixedSize H.name H.size H.alignment }
        ensures user_header { result.user_header ≡ detail FixedSize U.name U.size U.alignment }
        ensures payload { result.payload ≡ detail payload_variant P.name P.size P.alignment }
    {
        MessageTypeDetails {
            header: H::type_detail(TypeVariant::FixedSize),
            user_header: U::type_detail(TypeVariant::FixedSize),
            payload: P::type_detail(payload_variant),
        }
    }

    /// Whether a port that asks for these types can use a service that has the types `given`: the headers and the user headers are equal,
    /// the payloads' variants, names and sizes are equal, and the alignment of this payload is at most the given one.
    pub fn is_compatible_to(&self, given: &Self) -> bool
        ensures { result ≡ is_compatible self.now given.now }
    {
        self.header == given.header
            && self.user_header == given.user_header
            && self.payload.variant() == given.payload.variant()
            && self.payload.type_name() == given.payload.type_name()
            && self.payload.size() == given.payload.size()
            && self.payload.alignment() <= given.payload.alignment()
    }
}
