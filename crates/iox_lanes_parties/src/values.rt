//! A program's own values as the words of a call: what is written, and what was read.
//!
//! ```
//! let write = Call::write(alloc, loan, &value, &user_header)?;
//! let values = values_in::<u64, u8>(lane.words_read());
//! ```
//!
//! If the service has sequence numbers, the user header is a [`WithSequence`](crate::WithSequence).
ghost use Rattle.std.specs.Prelude.{◌≡◌, ◌+◌, ◌++◌, ℕ, take, drop, length, true, false, IfOk, IfSome, OnOk};
ghost use Rattle.std.specs.Prelude.{None};
ghost use Rattle.iox_lanes_parties.specs.Values.{AreValues, HasWidths, IsWriteOf, is_as_wide};

use crate::call::Call;
use iox_queues_base::Words;
use std::alloc::{AllocError, Global};

impl Call {
    /// The write of a value and a user header into a loan. `AllocError` is returned only where an allocation fails.
    pub fn write<T: Words, U: Words>(
        alloc: Global,
        loan: u64,
        value: &T,
        user_header: &U,
    ) -> Result<Call, AllocError>
        ensures { IfOk result (λ made. IsWriteOf loan (T.parts value.now) (U.parts user_header.now) made) }
    {
        Ok(Call::Write {
            loan,
            payload: words_of(alloc, value)?,
            user_header: words_of(alloc, user_header)?,
        })
    }

    /// Makes this call the write of this value and this user header into a loan, and returns true, if it is a write with the same numbers
    /// of words. Otherwise it leaves the call as it is, and returns false. Nothing is allocated.
    pub fn write_anew<T: Words, U: Words>(&mut self, loan: u64, value: &T, user_header: &U) -> bool
        ensures answers { result ≡ is_as_wide T.WORDS U.WORDS self.old }
        ensures same { result ≡ false → self.new ≡ self.old }
        ensures writes { result ≡ true → IsWriteOf loan (T.parts value.now) (U.parts user_header.now) self.new }
        ensures widths { (payload_count header_count : ℕ) → HasWidths payload_count header_count self.old
            → HasWidths payload_count header_count self.new
            × (result ≡ false → T.WORDS ≡ payload_count → U.WORDS ≡ header_count → ⊥) }
    {
        match self {
            Call::Write {
                loan: slot,
                payload,
                user_header: header,
            } => {
                if payload.len() != T::WORDS || header.len() != U::WORDS {
                    return false;
                }
                *slot = loan;
                put_words(payload, value);
                put_words(header, user_header);
                true
            }
            _ => false,
        }
    }
}

// The words of a value.
fn words_of<T: Words>(alloc: Global, value: &T) -> Result<Vec<u64>, AllocError>
    ensures { IfOk result (λ words. words.items ≡ T.parts value.now) }
{
    let mut words = Vec::new(alloc);
    add_words(&mut words, value)?;
    Ok(words)
}

// Appends the words of a value to a list. Fails only where an allocation fails.
fn add_words<T: Words>(list: &mut Vec<u64>, value: &T) -> Result<(), AllocError>
    ensures { OnOk result (list.new.items ≡ list.old.items ++ T.parts value.now) }
{
    for at in 0..T::WORDS {
        list.push(value.word(at))?;
    }
    Ok(())
}

// Replaces words by those of a value, which has the same number of words.
fn put_words<T: Words>(list: &mut Vec<u64>, value: &T)
    requires { length list.old.items ≡ T.WORDS }
    ensures { list.new.items ≡ T.parts value.now }
{
    for at in 0..T::WORDS {
        list[at] = value.word(at);
    }
}

/// The user header and the value whose words follow the three of a header, as in a read or a message. None if the number of words is
/// another.
pub fn values_in<T: Words, U: Words>(words: &[u64]) -> Option<(U, T)>
    ensures some { IfSome result (AreValues T.of_parts U.of_parts T.WORDS U.WORDS words.now) }
    ensures none { result ≡ None → length words.now ≡ 3 + U.WORDS + T.WORDS → ⊥ }
{
    let behind = words.get(3..)?;
    let user_header = behind.get(..U::WORDS)?;
    let payload = behind.get(U::WORDS..)?;
    if payload.len() != T::WORDS {
        return None;
    }
    Some((U::of_words(user_header), T::of_words(payload)))
}
