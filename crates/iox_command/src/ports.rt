//! The commands of existing ports: all commands except those of nodes and services, and those that create ports. A `Command` is large
//! enough for names and settings. These commands are small, so a script with many messages copies little.
//!
//! | Module | What it has |
//! |---|---|
//! | `port_command` | the commands of ports |
//!
//! A first call. `iox_line` makes commands of this kind.
//!
//! ```
//! let command = PortCommand::Receive { subscriber };
//! ```

pub mod port_command;

pub use port_command::PortCommand;
