//! Values under numbers: a table that gives out each number once, and a list by rising number.
//!
//! - [`numbered`]: the table.
//! - [`laws`]: theorems about sequences of calls of the table.
//! - [`listed`]: the list.
//! - [`roomy`]: the list with capacity for one more value.
//! - [`iter`]: the iterator over the list.
//!
//! First calls, of the table and of the list:
//!
//! ```
//! /// `iox_container`: puts a value under the next number, and finds it there.
//! fn numbered(table: &mut Numbered<u64>, value: u64) -> Option<u64>
//!     requires room { length table.old.entries < table.old.room }
//!     requires number { table.old.next + 1 < 2 ^ 64 }
//!     ensures { result ≡ Some value }
//! {
//!     found_and_gone::<u64>();
//!     let number = table.next_number();
//!     table.insert_next(value);
//!     table.get(number).copied()
//! }
//! ```
//!
//! ```
//! /// `iox_container`: gives a number a value, and finds it there.
//! fn listed(list: &mut ByNumber<u64>, number: u64, value: u64) -> Option<u64>
//!     ensures { IfSome result (λ found. found ≡ value) }
//! {
//!     list.insert(number, value).ok()?;
//!     list.get(number).copied()
//! }
//! ```

mod aged;
mod entries;
pub mod iter;
pub mod laws;
pub mod listed;
pub mod numbered;
mod ring;
pub mod roomy;

pub use listed::ByNumber;
pub use numbered::Numbered;
pub use roomy::RoomyByNumber;
