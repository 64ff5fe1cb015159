//! Types whose values can be sent without a copy.
ghost use Rattle.std.specs.Prelude.{◌≡◌, ℕ, List, codes};
ghost use Rattle.iox_describe_base.specs.Detail.{detail};

mod arrays;

use crate::header::Header;
use crate::type_detail::{TypeDetail, TypeVariant};

/// A type whose values can be stored in the memory of a service, since its name, size and alignment are known to all that share the
/// service.
///
/// Ported from `iceoryx2_bb_elementary_traits::zero_copy_send::ZeroCopySend`.
pub trait ZeroCopySend {
    // the name of the type
    ghost name: { List ℕ };

    // the size of a value, in bytes
    ghost size: { ℕ };

    // the alignment of a value, in bytes
    ghost alignment: { ℕ };

    /// The detail of the type with this variant; the name, size and alignment are the same for both variants.
    fn type_detail(variant: TypeVariant) -> TypeDetail
        ensures { result ≡ detail variant name size alignment };
}

impl ZeroCopySend for u8 {
    ghost name = { codes "u8" };

    ghost size = { 1 };

    ghost alignment = { 1 };

    fn type_detail(variant: TypeVariant) -> TypeDetail {
        TypeDetail::known(variant, b"u8", 1, 1)
    }
}

impl ZeroCopySend for u16 {
    ghost name = { codes "u16" };

    ghost size = { 2 };

    ghost alignment = { 2 };

    fn type_detail(variant: TypeVariant) -> TypeDetail {
        TypeDetail::known(variant, b"u16", 2, 2)
    }
}

impl ZeroCopySend for u32 {
    ghost name = { codes "u32" };

    ghost size = { 4 };

    ghost alignment = { 4 };

    fn type_detail(variant: TypeVariant) -> TypeDetail {
        TypeDetail::known(variant, b"u32", 4, 4)
    }
}

impl ZeroCopySend for u64 {
    ghost name = { codes "u64" };

    ghost size = { 8 };

    ghost alignment = { 8 };

    fn type_detail(variant: TypeVariant) -> TypeDetail {
        TypeDetail::known(variant, b"u64", 8, 8)
    }
}

impl ZeroCopySend for u128 {
    ghost name = { codes "u128" };

    ghost size = { 16 };

    ghost alignment = { 16 };

    fn type_detail(variant: TypeVariant) -> TypeDetail {
        TypeDetail::known(variant, b"u128", 16, 16)
    }
}

impl ZeroCopySend for usize {
    ghost name = { codes "usize" };

    ghost size = { 8 };

    ghost alignment = { 8 };

    fn type_detail(variant: TypeVariant) -> TypeDetail {
        TypeDetail::known(variant, b"usize", 8, 8)
    }
}

impl ZeroCopySend for i8 {
    ghost name = { codes "i8" };

    ghost size = { 1 };

    ghost alignment = { 1 };

    fn type_detail(variant: TypeVariant) -> TypeDetail {
        TypeDetail::known(variant, b"i8", 1, 1)
    }
}

impl ZeroCopySend for i16 {
    ghost name = { codes "i16" };

    ghost size = { 2 };

    ghost alignment = { 2 };

    fn type_detail(variant: TypeVariant) -> TypeDetail {
        TypeDetail::known(variant, b"i16", 2, 2)
    }
}

impl ZeroCopySend for i32 {
    ghost name = { codes "i32" };

    ghost size = { 4 };

    ghost alignment = { 4 };

    fn type_detail(variant: TypeVariant) -> TypeDetail {
        TypeDetail::known(variant, b"i32", 4, 4)
    }
}

impl ZeroCopySend for i64 {
    ghost name = { codes "i64" };

    ghost size = { 8 };

    ghost alignment = { 8 };

    fn type_detail(variant: TypeVariant) -> TypeDetail {
        TypeDetail::known(variant, b"i64", 8, 8)
    }
}

impl ZeroCopySend for i128 {
    ghost name = { codes "i128" };

    ghost size = { 16 };

    ghost alignment = { 16 };

    fn type_detail(variant: TypeVariant) -> TypeDetail {
        TypeDetail::known(variant, b"i128", 16, 16)
    }
}

impl ZeroCopySend for isize {
    ghost name = { codes "isize" };

    ghost size = { 8 };

    ghost alignment = { 8 };

    fn type_detail(variant: TypeVariant) -> TypeDetail {
        TypeDetail::known(variant, b"isize", 8, 8)
    }
}

impl ZeroCopySend for f32 {
    ghost name = { codes "f32" };

    ghost size = { 4 };

    ghost alignment = { 4 };

    fn type_detail(variant: TypeVariant) -> TypeDetail {
        TypeDetail::known(variant, b"f32", 4, 4)
    }
}

impl ZeroCopySend for f64 {
    ghost name = { codes "f64" };

    ghost size = { 8 };

    ghost alignment = { 8 };

    fn type_detail(variant: TypeVariant) -> TypeDetail {
        TypeDetail::known(variant, b"f64", 8, 8)
    }
}

impl ZeroCopySend for char {
    ghost name = { codes "char" };

    ghost size = { 4 };

    ghost alignment = { 4 };

    fn type_detail(variant: TypeVariant) -> TypeDetail {
        TypeDetail::known(variant, b"char", 4, 4)
    }
}

impl ZeroCopySend for bool {
    ghost name = { codes "bool" };

    ghost size = { 1 };

    ghost alignment = { 1 };

    fn type_detail(variant: TypeVariant) -> TypeDetail {
        TypeDetail::known(variant, b"bool", 1, 1)
    }
}

impl ZeroCopySend for () {
    ghost name = { codes "()" };

    ghost size = { 0 };

    ghost alignment = { 1 };

    fn type_detail(variant: TypeVariant) -> TypeDetail {
        TypeDetail::known(variant, b"()", 0, 1)
    }
}

impl ZeroCopySend for Header {
    ghost name = { codes "Header" };

    ghost size = { 24 };

    ghost alignment = { 8 };

    fn type_detail(variant: TypeVariant) -> TypeDetail {
        TypeDetail::known(variant, b"Header", 24, 8)
    }
}
