//! Sets of indices, containers of members, queues and bit sets; most have a form that threads can share.
pub use iox_index::{
    Container, ContainerAddFailure, ContainerHandle, ContainerRemoveError, ContainerState,
    FixedSizeContainer, FixedSizeUniqueIndexSet, Member, OwnerId, OwnerIdNewError, ReleaseMode,
    ReleaseState, RobustUniqueIndexSet, SharedIndexSet, StaticRobustUniqueIndexSet, UniqueIndex,
    UniqueIndexSet, UniqueIndexSetAcquireFailure,
};
pub use iox_queues::{
    BitSet, Consumer, CountingBitSet, FixedSizeBitSet, FixedSizeCountingBitSet,
    FixedSizeIndexQueue, FixedSizeSafelyOverflowingIndexQueue, IndexQueue, Producer, Queue,
    SafelyOverflowingIndexQueue, Share, Shared, UnrestrictedAtomic,
};
