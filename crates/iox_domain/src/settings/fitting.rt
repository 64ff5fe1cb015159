//! Whether the messages that a description defines can hold values of given types.
ghost use Rattle.std.specs.Prelude.{◌≡◌, ◌↔◌, IsTrue};
ghost use Rattle.iox_describe_settings.specs.DescribeBase.Detail.{detail};
ghost use Rattle.iox_describe_settings.specs.DescribeBase.declared.type_detail.TypeVariant.TheVariants.{FixedSize};
ghost use Rattle.iox_domain.specs.Fitting.{any_payload, any_user_header, stood_for, asked_types, FitTypes, Fits};

use crate::settings::custom::{CustomHeaderMarker, CustomPayloadMarker};
use iox_describe_base::{Header, MessageTypeDetails, TypeDetail, TypeVariant, ZeroCopySend};
use iox_describe_settings::{Description, Settings};

/// Whether ports over values of `T`, or slices of them, with user headers of `U` can be created from this description: it is
/// that of a publish-subscribe service within the limits of a description, and a builder over `T` or `Slice<T>` and `U` finds
/// its types compatible. `CustomPayloadMarker` matches any payload, `CustomHeaderMarker` any user header.
pub fn fits<T: ZeroCopySend, U: ZeroCopySend>(description: &Description) -> bool
    ensures { IsTrue result ↔ Fits (detail FixedSize T.name T.size T.alignment) (detail FixedSize U.name U.size U.alignment)
        description.now.settings }
{
    if !description.is_within_limits() {
        return false;
    }
    match description.settings() {
        Settings::PublishSubscribe(config) => fit_types(
            T::type_detail(TypeVariant::FixedSize),
            U::type_detail(TypeVariant::FixedSize),
            &config.types,
        ),
        _ => false,
    }
}

// Whether a builder for values or slices of a type with this user header finds the types compatible.
fn fit_types(payload: TypeDetail, user_header: TypeDetail, types: &MessageTypeDetails) -> bool
    ensures { IsTrue result ↔ FitTypes payload user_header types.now }
{
    let payload = stood_for(
        CustomPayloadMarker::type_detail(TypeVariant::FixedSize),
        payload,
        types.payload,
    );
    let user_header = stood_for(
        CustomHeaderMarker::type_detail(TypeVariant::FixedSize),
        user_header,
        types.user_header,
    );
    asked_types(TypeVariant::FixedSize, &payload, user_header).is_compatible_to(types)
        || asked_types(TypeVariant::Dynamic, &payload, user_header).is_compatible_to(types)
}

// The given type, if the type that matches any type is asked for; otherwise the type that is asked for.
fn stood_for(any: TypeDetail, asked: TypeDetail, given: TypeDetail) -> TypeDetail
    ensures { result ≡ stood_for any asked given }
{
    if asked == any { given } else { asked }
}

// The types that a builder asks for.
fn asked_types(
    variant: TypeVariant,
    payload: &TypeDetail,
    user_header: TypeDetail,
) -> MessageTypeDetails
    ensures { result ≡ asked_types variant payload.now user_header }
{
    MessageTypeDetails {
        header: Header::type_detail(TypeVariant::FixedSize),
        user_header,
        payload: TypeDetail::new(
            variant,
            payload.type_name(),
            payload.size(),
            payload.alignment(),
        )
        .unwrap(),
    }
}
