//! Theorems about the calls of a service's ports.
//!
//! Each theorem is the contract of a function that does nothing: it is proved of the definitions that the contracts of the
//! calls name.
//!
//! - [`messages`]: a held sample stays; a message comes into a mailbox at most once, also through all tries of its send, which
//!   counts the connections that took it; a connection gives messages in the order of sending; and a port whose connections
//!   exist needs no memory.
//! - [`living`]: how much is alive.
//! - [`numbering`]: each number is given to at most one port.
//! - [`service`]: the service to which ports belong, and what it allows.
//!
//! A proof cites a theorem by calling its function, which does nothing; what the theorem states is then among the facts of the
//! caller:
//!
//! ```
//! held_stays::<T, U, O, B>(overriding, handlers);
//! ```

pub mod living;
pub mod messages;
pub mod numbering;
pub mod service;
