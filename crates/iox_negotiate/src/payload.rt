//! The payload of messages: a single value of a type, or a slice.
ghost use Rattle.std.specs.Prelude.{◌≡◌, ◌*◌, ◌-◌, ◌^◌, codes, min, take};
ghost use Rattle.iox_negotiate_base.specs.DescribeBase.Detail.{Detail, array_name, detail};
ghost use Rattle.iox_negotiate_base.specs.DescribeBase.declared.type_detail.TypeVariant.TheVariants.{FixedSize, Dynamic};
ghost use Rattle.iox_negotiate.specs.Types.{types_of, no_header, aligned};

use iox_describe::{Header, MessageTypeDetails, TypeDetail, TypeVariant, ZeroCopySend};
use std::marker::PhantomData;

/// The payload of a service's messages: a single value of a type, or, for a `Slice`, a slice of values.
pub trait Payload {
    // the memory layout of the payload
    ghost detail: { Detail };

    /// The memory layout of the payload.
    /// Example: `let detail = Slice::<u64>::type_detail();`
    fn type_detail() -> TypeDetail
        ensures { result ≡ detail };
}

/// A slice of values of a type, whose length can differ from message to message.
///
/// It represents `[T]` in the types of `iceoryx2`.
pub struct Slice<T> {
    of: PhantomData<T>,
}

impl<T: ZeroCopySend> Payload for Slice<T> {
    ghost detail = { detail Dynamic T.name T.size T.alignment };

    fn type_detail() -> TypeDetail {
        T::type_detail(TypeVariant::Dynamic)
    }
}

impl Payload for u8 {
    ghost detail = { detail FixedSize (codes "u8") 1 1 };

    fn type_detail() -> TypeDetail {
        <u8 as ZeroCopySend>::type_detail(TypeVariant::FixedSize)
    }
}

impl Payload for u16 {
    ghost detail = { detail FixedSize (codes "u16") 2 2 };

    fn type_detail() -> TypeDetail {
        <u16 as ZeroCopySend>::type_detail(TypeVariant::FixedSize)
    }
}

impl Payload for u32 {
    ghost detail = { detail FixedSize (codes "u32") 4 4 };

    fn type_detail() -> TypeDetail {
        <u32 as ZeroCopySend>::type_detail(TypeVariant::FixedSize)
    }
}

impl Payload for u64 {
    ghost detail = { detail FixedSize (codes "u64") 8 8 };

    fn type_detail() -> TypeDetail {
        <u64 as ZeroCopySend>::type_detail(TypeVariant::FixedSize)
    }
}

impl Payload for u128 {
    ghost detail = { detail FixedSize (codes "u128") 16 16 };

    fn type_detail() -> TypeDetail {
        <u128 as ZeroCopySend>::type_detail(TypeVariant::FixedSize)
    }
}

impl Payload for usize {
    ghost detail = { detail FixedSize (codes "usize") 8 8 };

    fn type_detail() -> TypeDetail {
        <usize as ZeroCopySend>::type_detail(TypeVariant::FixedSize)
    }
}

impl Payload for i8 {
    ghost detail = { detail FixedSize (codes "i8") 1 1 };

    fn type_detail() -> TypeDetail {
        <i8 as ZeroCopySend>::type_detail(TypeVariant::FixedSize)
    }
}

impl Payload for i16 {
    ghost detail = { detail FixedSize (codes "i16") 2 2 };

    fn type_detail() -> TypeDetail {
        <i16 as ZeroCopySend>::type_detail(TypeVariant::FixedSize)
    }
}

impl Payload for i32 {
    ghost detail = { detail FixedSize (codes "i32") 4 4 };

    fn type_detail() -> TypeDetail {
        <i32 as ZeroCopySend>::type_detail(TypeVariant::FixedSize)
    }
}

impl Payload for i64 {
    ghost detail = { detail FixedSize (codes "i64") 8 8 };

    fn type_detail() -> TypeDetail {
        <i64 as ZeroCopySend>::type_detail(TypeVariant::FixedSize)
    }
}

impl Payload for i128 {
    ghost detail = { detail FixedSize (codes "i128") 16 16 };

    fn type_detail() -> TypeDetail {
        <i128 as ZeroCopySend>::type_detail(TypeVariant::FixedSize)
    }
}

impl Payload for isize {
    ghost detail = { detail FixedSize (codes "isize") 8 8 };

    fn type_detail() -> TypeDetail {
        <isize as ZeroCopySend>::type_detail(TypeVariant::FixedSize)
    }
}

impl Payload for bool {
    ghost detail = { detail FixedSize (codes "bool") 1 1 };

    fn type_detail() -> TypeDetail {
        <bool as ZeroCopySend>::type_detail(TypeVariant::FixedSize)
    }
}

impl Payload for f32 {
    ghost detail = { detail FixedSize (codes "f32") 4 4 };

    fn type_detail() -> TypeDetail {
        <f32 as ZeroCopySend>::type_detail(TypeVariant::FixedSize)
    }
}

impl Payload for f64 {
    ghost detail = { detail FixedSize (codes "f64") 8 8 };

    fn type_detail() -> TypeDetail {
        <f64 as ZeroCopySend>::type_detail(TypeVariant::FixedSize)
    }
}

impl Payload for char {
    ghost detail = { detail FixedSize (codes "char") 4 4 };

    fn type_detail() -> TypeDetail {
        <char as ZeroCopySend>::type_detail(TypeVariant::FixedSize)
    }
}

/// An array as a single value: its name is the first 255 bytes of `[T; N]`, and its size is that of all elements, but at most 2^64 - 1.
impl<T: ZeroCopySend, const N: usize> Payload for [T; N] {
    ghost detail = { detail FixedSize (take 255 (array_name T.name N)) (min (T.size * N) (2 ^ 64 - 1)) T.alignment };

    fn type_detail() -> TypeDetail {
        <[T; N] as ZeroCopySend>::type_detail(TypeVariant::FixedSize)
    }
}

impl Payload for Header {
    ghost detail = { detail FixedSize (codes "Header") 24 8 };

    fn type_detail() -> TypeDetail {
        <Header as ZeroCopySend>::type_detail(TypeVariant::FixedSize)
    }
}

/// The types of messages with this payload and no user header.
pub(crate) fn types_of(payload: TypeDetail) -> MessageTypeDetails
    ensures { result ≡ types_of payload }
{
    MessageTypeDetails {
        header: <Header as ZeroCopySend>::type_detail(TypeVariant::FixedSize),
        user_header: no_header(),
        payload,
    }
}

fn no_header() -> TypeDetail
    ensures { result ≡ no_header }
{
    TypeDetail::new(TypeVariant::FixedSize, b"()", 0, 1).unwrap()
}

/// This payload with the larger of its alignment and the given one.
pub(crate) fn aligned(payload: &TypeDetail, alignment: u64) -> TypeDetail
    ensures { result ≡ aligned payload.now alignment }
{
    let alignment = payload.alignment().max(alignment);
    TypeDetail::new(
        payload.variant(),
        payload.type_name(),
        payload.size(),
        alignment,
    )
    .unwrap()
}
