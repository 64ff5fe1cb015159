//! What a callback returns to the loop that calls it.

/// Whether a loop over items goes on after a callback.
///
/// Ported from `iceoryx2_bb_elementary::CallbackProgression`.
#[derive(Clone, Copy, Debug, PartialEq, Eq)]
pub enum CallbackProgression {
    /// Call again with the next item.
    Continue,

    /// Do not call again.
    Stop,
}
