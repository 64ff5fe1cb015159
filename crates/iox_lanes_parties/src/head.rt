//! The header and user header of a slot, as its send will store them.
ghost use Rattle.std.specs.Prelude.{◌≡◌, ◌+◌, ◌++◌, length, take, replicate, IfOk};
ghost use Rattle.iox_lanes_parties.specs.Parties.{with_origin};

use std::alloc::{AllocError, Global};
use std::marker::Model;

/// The words of a header, and after them those of a user header.
#[derive(Drop)]
pub struct Head {
    words: Vec<u64>,
}

impl Model for Head {
    ghost use Rattle.std.specs.Prelude.{ℕ, List};

    ghost Value = { List ℕ };

    ghost view = { λ h. h.words.items };
}

impl Head {
    /// This header, and `user_header_words` words of user header, all 0. `AllocError` is returned only where an allocation fails.
    pub fn new(alloc: Global, header: &[u64], user_header_words: usize) -> Result<Head, AllocError>
        ensures { IfOk result (λ made. made ≡ header.now ++ replicate user_header_words 0) }
    {
        let mut words = Vec::from_slice(alloc, header)?;
        let blank = vec![in alloc; 0; user_header_words]?;
        words.extend_from_slice(&blank)?;
        Ok(Head { words })
    }

    /// Replaces the words of the user header.
    pub fn keep(&mut self, user_header: &[u64])
        requires { 3 + length user_header.now ≡ length self.old }
        ensures { self.new ≡ take 3 self.old ++ user_header.now }
    {
        self.words[3..].copy_from_slice(user_header);
    }

    /// Makes the header name this node and this publisher.
    pub fn name(&mut self, node_id: u64, publisher_id: u64)
        ensures { self.new ≡ with_origin node_id publisher_id self.old }
    {
        if self.words.len() > 1 {
            self.words[0] = node_id;
            self.words[1] = publisher_id;
        }
    }

    /// The words of header and user header.
    pub fn words(&self) -> &[u64]
        ensures { result.now ≡ self.now }
    {
        &self.words
    }
}
