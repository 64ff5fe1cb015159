//! Containers of fixed capacity.
pub use iox_container::{
    CallbackProgression, FixedSizeByteAtomic, FixedSizeFlatMap, FixedSizeQueue, FixedSizeSlotMap,
    FlatMap, FlatMapError, MaybeTorn, PolymorphicString, PolymorphicVec, RelocatableOption, Rules,
    Semantic, SemanticStringError, SlotMap, SlotMapKey, StaticString, StaticVec,
    StringModificationError, VectorModificationError, queue, string, vector,
};
