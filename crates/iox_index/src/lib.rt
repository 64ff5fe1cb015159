//! Index sets that know which indices are held, and containers of members, with a capacity that is chosen at run time or is part of the
//! type.
//!
//! | Module | What it has |
//! |---|---|
//! | `unique` | `FixedSizeUniqueIndexSet`, which hands out the index released last first |
//! | `robust` | `StaticRobustUniqueIndexSet`, which knows the owner of each held index |
//! | `container` | `FixedSizeContainer`, members at indices |
//!
//! Everything else is re-exported from `iox_container`.
//!
//! A first call:
//!
//! ```
//! /// `iox_index`: acquires an index; None if each index is held already, or the set is locked.
//! fn taken(set: &mut FixedSizeUniqueIndexSet<8>) -> Option<usize>
//!     ensures held { IfSome result (λ index. is_held index set.new ≡ true) }
//!     ensures more { IfSome result (λ index. borrowed set.new ≡ borrowed set.old + 1) }
//!     ensures none { IfNone result (set.new ≡ set.old) }
//! {
//!     set.acquire_raw_index().ok()
//! }
//! ```
#![tactic(auto)]

pub mod container;
pub mod robust;
pub mod unique;

pub use container::FixedSizeContainer;
pub use iox_container::{
    Container, ContainerAddFailure, ContainerHandle, ContainerRemoveError, ContainerState,
    HeadDetails, Member, OwnerId, OwnerIdNewError, ReleaseMode, ReleaseState, RobustUniqueIndexSet,
    SharedIndexSet, UniqueIndex, UniqueIndexSet, UniqueIndexSetAcquireFailure,
};
pub use robust::StaticRobustUniqueIndexSet;
pub use unique::FixedSizeUniqueIndexSet;
