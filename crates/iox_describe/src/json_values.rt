//! JSON values that can be read back from their text, and access to their members by key.
//!
//! Contracts see a `Value` as `serde_json`'s `Data`. `proofs/ReadBack` has the theorems about plain values: they have no float, their text
//! is UTF-8, and reading the text gives the value back.
//!
//! First calls, as `decode` makes them:
//!
//! ```
//! let name = text_at(&value, "name");
//! let nodes = number_at(&value, "max_nodes");
//! ```

ghost use Rattle.std.specs.Prelude.{◌≡◌, option_map, option_and_then};
ghost use Rattle.serde_json.specs.Find.{as_number, as_str, as_u64, get};
ghost use Rattle.serde_json.specs.View.{view};

use serde_json::Value;

/// The text under a key of an object; `None` if there is no such text.
pub fn text_at<'a>(value: &'a Value, key: &str) -> Option<&'a str>
    ensures { option_map (λ text. text.now) result ≡ option_and_then as_str (get key.now (view value.now)) }
{
    value.get(key).and_then(Value::as_str)
}

/// The number under a key of an object; `None` if there is no such number, or if it isn't an unsigned 64-bit number.
pub fn number_at(value: &Value, key: &str) -> Option<u64>
    ensures { result ≡ option_and_then as_u64 (option_and_then as_number (get key.now (view value.now))) }
{
    value.get(key).and_then(Value::as_u64)
}
