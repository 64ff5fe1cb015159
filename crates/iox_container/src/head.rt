//! The word of a set that holds its next free index.
ghost use Rattle.std.specs.Prelude.{◌≡◌, ◌+◌, ◌*◌, ◌^◌, ◌%◌, ◌/◌, ◌<◌};
ghost use Rattle.iox_container.specs.Head.{word_of_head, head_of_word, head_after_acquire, head_after_release};

const INDICES: u64 = 1 << 24;

const CHANGES: u64 = 1 << 16;

/// The content of a set's head, which is one 64-bit word.
///
/// Ported from `iceoryx2_bb_lock_free::mpmc::unique_index_set::HeadDetails`.
#[derive(Clone, Copy, Debug, PartialEq, Eq)]
pub struct HeadDetails {
    /// The next free index; only its lowest 24 bits are stored.
    pub head: u32,
    /// How often the head was changed, modulo 2^16.
    pub aba: u16,
    /// How many indices are held; only its lowest 24 bits are stored.
    pub borrowed_indices: u32,
}

impl HeadDetails {
    /// The word that encodes this head. `HeadDetails::from` decodes it if `head` and `borrowed_indices` are below 2^24.
    pub fn value(&self) -> u64
        ensures word { result ≡ word_of_head self.now }
        ensures back { self.now.head < 2 ^ 24 → self.now.borrowed_indices < 2 ^ 24 → head_of_word result ≡ self.now }
    {
        let head = u64::from(self.head) % INDICES;
        let borrowed_indices = u64::from(self.borrowed_indices) % INDICES;
        (head * CHANGES + u64::from(self.aba)) * INDICES + borrowed_indices
    }

    /// The head after its next free index is taken and `next` becomes the next free index: one more change, one more held index.
    pub fn after_acquire(&self, next: u32) -> HeadDetails
        ensures { result ≡ head_after_acquire next self.now }
    {
        HeadDetails {
            head: next,
            aba: self.aba.wrapping_add(1),
            borrowed_indices: self.borrowed_indices.wrapping_add(1),
        }
    }

    /// The head after `index` is released: one more change, one held index fewer.
    pub fn after_release(&self, index: u32) -> HeadDetails
        ensures { result ≡ head_after_release index self.now }
    {
        HeadDetails {
            head: index,
            aba: self.aba.wrapping_add(1),
            borrowed_indices: self.borrowed_indices.wrapping_sub(1),
        }
    }
}

impl From<u64> for HeadDetails {
    ghost from_gives = { λ word head. head ≡ head_of_word word };

    fn from(word: u64) -> Self {
        HeadDetails {
            head: (word / INDICES / CHANGES) as u32,
            aba: (word / INDICES % CHANGES) as u16,
            borrowed_indices: (word % INDICES) as u32,
        }
    }
}
