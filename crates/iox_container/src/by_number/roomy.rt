//! Values by number, with capacity for one more.
ghost use Rattle.std.specs.Prelude.{◌≡◌, option_copied};
ghost use Rattle.std.specs.BTreeMap.{insert_entry, is_at};
ghost use Rattle.std.specs.Map.{lookup};
ghost use Rattle.std.specs.Ordering.{nat_cmp};

use crate::by_number::entries::{entry_of, put_in};
use crate::by_number::listed::ByNumber;
use std::marker::Model;

/// Values by number, with capacity for one more number.
///
/// Contracts see them as those of `ByNumber`.
#[derive(Drop)]
pub struct RoomyByNumber<X> {
    pub(crate) entries: Vec<(u64, Option<Box<X>>)>,
    pub(crate) live: usize,
}

impl<X> Model for RoomyByNumber<X> {
    ghost use Rattle.std.specs.Prelude.{◌≡◌, ◌<◌, ℕ, List, length};
    ghost use Rattle.std.specs.List.Sorted.{IsStrictlySortedBy};
    ghost use Rattle.std.specs.Map.{keys_of};
    ghost use Rattle.std.specs.Ordering.{nat_cmp};
    ghost use Rattle.std.specs.Vec.{vec_len, vec_capacity};
    ghost use Rattle.iox_container.specs.ByNumber.{values_in};

    ghost Value = { List (ℕ × X) };

    ghost view = { λ list. values_in list.entries.items };

    ghost invariant = { λ list. IsStrictlySortedBy nat_cmp (keys_of list.entries.items)
        × (list.live ≡ length (values_in list.entries.items))
        × (vec_len list.entries < vec_capacity list.entries) };
}

impl<X: Drop> RoomyByNumber<X> {
    /// The value of a number, if it has one.
    pub fn get(&self, number: u64) -> Option<&X>
        ensures { option_copied result ≡ lookup (is_at (nat_cmp number)) self.now }
    {
        let place = entry_of(&self.entries, number)?;
        match &self.entries[place].1 {
            Some(boxed) => Some(boxed),
            None => None,
        }
    }

    /// Gives a number the value in a box, and drops the value that the number had. It takes no memory, and can't fail.
    pub fn insert(self, number: u64, boxed: Box<X>) -> ByNumber<X>
        ensures { result ≡ insert_entry nat_cmp self number boxed.value }
    {
        let is_new = self.get(number).is_none();
        let mut entries = self.entries;
        let live = self.live;
        put_in(&mut entries, number, boxed);
        ByNumber {
            entries,
            live: live + usize::from(is_new),
        }
    }

    /// The values, without any change.
    pub fn into_values(self) -> ByNumber<X>
        ensures { result ≡ self }
    {
        ByNumber {
            entries: self.entries,
            live: self.live,
        }
    }
}
