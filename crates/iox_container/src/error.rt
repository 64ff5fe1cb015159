//! The errors of index sets, of containers and of owner ids.
ghost use Rattle.std.specs.Prelude.{◌≡◌};
ghost use Rattle.iox_container.specs.SetRefusals.{add_failure_of};

use thiserror::Error;

/// Why no index was acquired.
///
/// Ported from `iceoryx2_bb_lock_free::mpmc::unique_index_set_enums::UniqueIndexSetAcquireFailure`.
#[derive(Clone, Copy, Debug, PartialEq, Eq, Error)]
pub enum UniqueIndexSetAcquireFailure {
    /// Each index is held.
    #[error("UniqueIndexSetAcquireFailure::OutOfIndices")]
    OutOfIndices,

    /// The set is locked for good.
    #[error("UniqueIndexSetAcquireFailure::IsLocked")]
    IsLocked,
}

/// Why no member was added.
///
/// Ported from `iceoryx2_bb_lock_free::mpmc::container::ContainerAddFailure`.
#[derive(Clone, Copy, Debug, PartialEq, Eq, Error)]
pub enum ContainerAddFailure {
    /// Each place has a member.
    #[error("ContainerAddFailure::OutOfSpace")]
    OutOfSpace,

    /// The container is locked for good.
    #[error("ContainerAddFailure::IsLocked")]
    IsLocked,
}

impl From<UniqueIndexSetAcquireFailure> for ContainerAddFailure {
    ghost from_gives = { λ failure made. made ≡ add_failure_of failure };

    fn from(failure: UniqueIndexSetAcquireFailure) -> Self {
        match failure {
            UniqueIndexSetAcquireFailure::OutOfIndices => ContainerAddFailure::OutOfSpace,
            UniqueIndexSetAcquireFailure::IsLocked => ContainerAddFailure::IsLocked,
        }
    }
}

/// Why no member was removed.
///
/// Ported from `iceoryx2_bb_lock_free::mpmc::container::ContainerRemoveError`.
#[derive(Clone, Copy, Debug, PartialEq, Eq, Error)]
pub enum ContainerRemoveError {
    /// The handle is of another container, or its member was removed.
    #[error("ContainerRemoveError::ContainerHandleNotOwnedByContainer")]
    ContainerHandleNotOwnedByContainer,
}

/// Why a number isn't an owner id.
///
/// Ported from `iceoryx2_bb_lock_free::mpmc::robust_unique_index_set::OwnerIdNewError`.
#[derive(Clone, Copy, Debug, PartialEq, Eq, Error)]
pub enum OwnerIdNewError {
    /// The number is 0, or it is 2^63 or more; the cells of a set reserve these numbers.
    #[error("OwnerIdNewError::ValueReserved")]
    ValueReserved,
}
