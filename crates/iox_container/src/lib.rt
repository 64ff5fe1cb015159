//! Data structures of fixed capacity: strings, vectors, queues, maps, index sets with owners, and containers.
//!
//! | Module | What it has |
//! |---|---|
//! | `vector` | vectors: the trait `Vector`, `StaticVec` and `PolymorphicVec` |
//! | `queue` | queues, which can drop their oldest item in favour of a new one |
//! | `relocatable_option` | an option with a memory layout of its own |
//! | `callback_progression` | what a callback returns to the loop that calls it |
//! | `string` | strings over the bytes 1..=127: the trait `String`, `StaticString` and `PolymorphicString` |
//! | `semantic_strings` | texts that always obey the rules of their type: `Semantic` over `Rules` |
//! | `slot_map` | slot maps, which generate the keys of their values: `SlotMap` and `FixedSizeSlotMap` |
//! | `flat_map` | flat maps, whose keys the caller provides: `FlatMap` and `FixedSizeFlatMap` |
//! | `by_number` | values under numbers: `Numbered`, which gives each number out once, and `ByNumber`, a list by rising number |
//! | `byte_cells` | values that are copied byte by byte: `FixedSizeByteAtomic`, `MaybeTorn`, `ByteMachine` |
//! | `unique` | index sets that hand out the index released last first: `UniqueIndexSet` |
//! | `robust` | index sets that know the owner of each held index, so that all indices of one owner can be recovered |
//! | `container` | members at indices, each with its owner: `Container` |
//! | `shared` | index sets that threads share |
//! | `head` | the word of a set that holds its next free index |
//! | `release` | the modes of a release, and whether the set is locked after it |
//! | `owner` | the id of an index's owner |
//! | `error` | the errors of index sets, of containers and of owner ids |
//!
//! Each structure allocates all its memory when it is created, and touches the memory only as it is used. A call that would exceed the
//! capacity is refused as a whole, and a refused call changes nothing.
//!
//! First calls, of a queue, a map and a container of members:
//!
//! ```
//! /// `iox_container`: keeps a number as the newest of three; if there are three already, the oldest is removed.
//! fn keep(latest: &mut FixedSizeQueue<u64, 3>, number: u64) -> Option<u64>
//!     ensures { latest.old ++ number ∷ [] ≡ option_to_list result ++ latest.new }
//! {
//!     latest.push_with_overflow(number)
//! }
//! ```
//!
//! ```
//! /// `iox_container`: puts a value into a slot map; answers the key under which it is found again, or None if the map is full.
//! fn filed(map: &mut SlotMap<u64>, value: u64) -> Option<u64>
//!     ensures found { IfSome result (λ found. found ≡ value) }
//!     ensures full { IfNone result (map.new ≡ map.old) }
//! {
//!     let key = map.insert(value)?;
//!     map.get(key).copied()
//! }
//! ```
//!
//! ```
//! /// `iox_container`: adds a member, and returns its index; None if the container is full or locked.
//! fn joined(container: &mut Container<u64>, value: u64, owner: OwnerId) -> Option<usize>
//!     requires { HasRoom container.old }
//!     ensures added { IfSome result (λ index. container.new
//!         ≡ with_member index (record { number = container.old.changes + 1; owner = owner; value = value }) container.old) }
//!     ensures none { IfNone result (container.new ≡ container.old) }
//! {
//!     let handle = container.add(value, owner).ok()?;
//!     Some(handle.index())
//! }
//! ```
#![tactic(auto)]

pub mod by_number;
pub mod byte_cells;
pub mod callback_progression;
pub mod container;
mod counted_places;
pub mod error;
pub mod flat_map;
mod free_keys;
pub mod head;
mod linked_keys;
pub mod owner;
mod owners;
mod places;
pub mod queue;
pub mod release;
pub mod relocatable_option;
pub mod robust;
pub mod semantic_strings;
pub mod shared;
pub mod slot_map;
pub mod string;
pub mod unique;
pub mod vector;

pub use by_number::{ByNumber, Numbered, RoomyByNumber};
pub use byte_cells::{ByteAnswer, ByteMachine, ByteStep, Coded, FixedSizeByteAtomic, MaybeTorn};
pub use callback_progression::CallbackProgression;
pub use container::{Container, ContainerHandle, ContainerState, Member};
pub use error::{
    ContainerAddFailure, ContainerRemoveError, OwnerIdNewError, UniqueIndexSetAcquireFailure,
};
pub use flat_map::{FixedSizeFlatMap, FlatMap, FlatMapError};
pub use head::HeadDetails;
pub use owner::OwnerId;
pub use queue::FixedSizeQueue;
pub use release::{ReleaseMode, ReleaseState};
pub use relocatable_option::RelocatableOption;
pub use robust::RobustUniqueIndexSet;
pub use semantic_strings::{Rules, Semantic, SemanticStringError};
pub use shared::{SharedIndexSet, UniqueIndex};
pub use slot_map::{FixedSizeSlotMap, SlotMap, SlotMapKey};
pub use string::{PolymorphicString, StaticString, StringModificationError};
pub use unique::UniqueIndexSet;
pub use vector::{PolymorphicVec, StaticVec, VectorModificationError};
