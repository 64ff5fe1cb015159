//! The commands of existing ports.
ghost use Rattle.std.specs.Prelude.{◌≡◌};
ghost use Rattle.iox_command.specs.Ports.{command_of};

use crate::{Command, PortNumber, Values};

/// One command of an existing port, which needs no name and no settings. It is small, so passing it costs little.
///
/// Not in `iceoryx2`.
#[derive(Drop)]
pub enum PortCommand<'a, T> {
    /// Loans a slice of this length, filled with zeros.
    Loan {
        publisher: u64,
        length: u64,
    },
    /// Loans a slice of this length that isn't written.
    LoanUninit {
        publisher: u64,
        length: u64,
    },
    /// Writes one value into a written loan, at this place, counted from 0.
    Set {
        loan: u64,
        place: u64,
        value: T,
    },
    /// Writes all values of a loan.
    Fill {
        loan: u64,
        values: Values<'a, T>,
    },
    /// Drops a loan.
    Drop {
        loan: u64,
    },
    /// Sends a loan.
    Send {
        loan: u64,
    },
    /// Sends a message of these values.
    Put {
        publisher: u64,
        values: Values<'a, T>,
    },
    /// Tries a blocked send once more, this number of nanoseconds after its mailbox was first found full.
    Retry {
        publisher: u64,
        nanoseconds: u64,
    },
    /// Gives up a blocked send.
    GiveUp {
        publisher: u64,
    },
    /// Receives the next message, and holds it as a sample.
    Receive {
        subscriber: u64,
    },
    /// Reads a held sample.
    Read {
        sample: u64,
    },
    /// Asks for the sequence number of a sample's message.
    Sequence {
        sample: u64,
    },
    /// Releases a sample.
    Release {
        sample: u64,
    },
    /// Updates the connections of a port.
    Update {
        port: PortNumber,
    },
    /// Closes a port.
    Leave {
        port: PortNumber,
    },
    /// Asks whether messages wait for a subscriber.
    Has {
        subscriber: u64,
    },
}

impl<'a, T> PortCommand<'a, T> {
    /// This command as one of all commands.
    pub fn into_command(self) -> Command<'a, T>
        ensures { result ≡ command_of self.entry }
    {
        match self {
            PortCommand::Loan { publisher, length } => Command::Loan { publisher, length },
            PortCommand::LoanUninit { publisher, length } => {
                Command::LoanUninit { publisher, length }
            }
            PortCommand::Set { loan, place, value } => Command::Set { loan, place, value },
            PortCommand::Fill { loan, values } => Command::Fill { loan, values },
            PortCommand::Drop { loan } => Command::Drop { loan },
            PortCommand::Send { loan } => Command::Send { loan },
            PortCommand::Put { publisher, values } => Command::Put { publisher, values },
            PortCommand::Retry {
                publisher,
                nanoseconds,
            } => Command::Retry {
                publisher,
                nanoseconds,
            },
            PortCommand::GiveUp { publisher } => Command::GiveUp { publisher },
            PortCommand::Receive { subscriber } => Command::Receive { subscriber },
            PortCommand::Read { sample } => Command::Read { sample },
            PortCommand::Sequence { sample } => Command::Sequence { sample },
            PortCommand::Release { sample } => Command::Release { sample },
            PortCommand::Update { port } => Command::Update { port },
            PortCommand::Leave { port } => Command::Leave { port },
            PortCommand::Has { subscriber } => Command::Has { subscriber },
        }
    }
}
