//! The modes of a release, and whether the set is locked after it.

/// Whether the release of the last held index locks the set.
///
/// Ported from `iceoryx2_bb_lock_free::mpmc::unique_index_set_enums::ReleaseMode`.
#[derive(Clone, Copy, Debug, PartialEq, Eq)]
pub enum ReleaseMode {
    /// The set is locked for good if no index is held any longer.
    LockIfLastIndex,

    /// The release doesn't lock the set.
    Default,
}

/// Whether the set is locked after a release.
///
/// Ported from `iceoryx2_bb_lock_free::mpmc::unique_index_set_enums::ReleaseState`.
#[derive(Clone, Copy, Debug, PartialEq, Eq)]
pub enum ReleaseState {
    /// No index can be acquired any longer.
    Locked,

    /// Indices can be acquired.
    Unlocked,
}
