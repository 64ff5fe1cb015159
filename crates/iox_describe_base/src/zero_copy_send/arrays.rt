//! Arrays of types whose values can be sent without a copy.
ghost use Rattle.std.specs.Prelude.{◌≡◌, ◌*◌, ◌-◌, ◌^◌, codes, min, take};
ghost use Rattle.iox_describe_base.specs.Detail.{array_name};
ghost use Rattle.iox_describe_base.specs.Limits.{IsText};

use super::ZeroCopySend;
use crate::type_detail::{TypeDetail, TypeVariant};
use iox_container::string::{StaticString, String as _};
use itoa::Buffer;

/// The name of the type is the first 255 bytes of `[T; N]`. Its size is that of all elements, but at most 2^64 - 1.
impl<T: ZeroCopySend, const N: usize> ZeroCopySend for [T; N] {
    ghost name = { take 255 (array_name T.name N) };

    ghost size = { min (T.size * N) (2 ^ 64 - 1) };

    ghost alignment = { T.alignment };

    fn type_detail(variant: TypeVariant) -> TypeDetail {
        let item = T::type_detail(variant);
        let name = array_name(item.type_name(), N as u64);
        let name = name.as_bytes();
        let length = name.len().min(255);
        let size = item.size().saturating_mul(N as u64);
        TypeDetail::known(variant, &name[..length], size, item.alignment())
    }
}

/// The name of an array of `count` elements of the type with this name.
fn array_name(name: &[u8], count: u64) -> StaticString<279>
    requires { IsText 1 255 name.now }
    ensures { result ≡ array_name name.now count }
{
    let mut text = StaticString::new();
    let mut digits = Buffer::new();
    text.push_bytes(b"[").unwrap();
    text.push_bytes(name).unwrap();
    text.push_bytes(b"; ").unwrap();
    text.push_bytes(digits.format(count).as_bytes()).unwrap();
    text.push_bytes(b"]").unwrap();
    text
}
