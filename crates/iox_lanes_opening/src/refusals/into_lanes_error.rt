//! Why a domain can't become lanes.
ghost use Rattle.std.specs.Prelude.{◌≡◌};
ghost use Rattle.iox_lanes_opening.specs.Texts.{into_lanes_text};

use std::fmt;
use thiserror::Error;

/// Why a domain can't become lanes. Not in `iceoryx2`.
#[derive(Clone, Copy, Debug, PartialEq, Eq, Hash, Error)]
pub enum IntoLanesError {
    /// A send of some publisher is blocked at a full mailbox.
    Blocked,
    /// A listed port hasn't followed the current list of the other side, a listed publisher and a listed subscriber aren't connected, or a
    /// listed publisher has a connection for a place where nobody is listed.
    ConnectionsNotUpToDate,
    /// The capacity of some publisher may grow: its allocation strategy isn't static.
    NotStatic,
    /// Some port has a handler that is an object of the caller.
    HasHandlers,
    /// Mailboxes don't overflow, and a send of some publisher would block at a full mailbox.
    Retrying,
    /// A loan or a sample exists, a connection of a closed publisher still exists, or a closed port still exists.
    Lingering,
    /// Some publisher has capacity for another number of values than one, or one of its messages has another number.
    HasSlices,
    /// The ports are in a state that no calls leave: one is listed at another place than its own, a publisher doesn't have what the service
    /// agreed on or has messages that don't keep to the agreement, or two connections of a subscriber come from one publisher.
    Unsound,
    /// The last sequence number of some publisher is 2^63 or more.
    SequenceTooLarge,
    /// An allocation failed.
    OutOfMemory,
}

impl IntoLanesError {
    /// The text that `Display` writes: `IntoLanesError::` and the name of the variant.
    pub fn text(&self) -> &'static str
        ensures { result.now ≡ into_lanes_text self.now }
    {
        match self {
            IntoLanesError::Blocked => "IntoLanesError::Blocked",
            IntoLanesError::ConnectionsNotUpToDate => "IntoLanesError::ConnectionsNotUpToDate",
            IntoLanesError::NotStatic => "IntoLanesError::NotStatic",
            IntoLanesError::HasHandlers => "IntoLanesError::HasHandlers",
            IntoLanesError::Retrying => "IntoLanesError::Retrying",
            IntoLanesError::Lingering => "IntoLanesError::Lingering",
            IntoLanesError::HasSlices => "IntoLanesError::HasSlices",
            IntoLanesError::Unsound => "IntoLanesError::Unsound",
            IntoLanesError::SequenceTooLarge => "IntoLanesError::SequenceTooLarge",
            IntoLanesError::OutOfMemory => "IntoLanesError::OutOfMemory",
        }
    }
}

impl fmt::Display for IntoLanesError {
    ghost use Rattle.std.specs.Prelude.{Some};

    ghost output = { λ error. Some (into_lanes_text error) };

    fn fmt<W: fmt::Write>(&self, f: &mut fmt::Formatter<W>) -> fmt::Result {
        f.pad(self.text())
    }
}
