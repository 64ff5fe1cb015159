//! How many more loans and samples the ports of a service may still have, and how each call of a port changes that. A caller that
//! reserves, whenever it creates a port, capacity for as many as the port may have never runs out of capacity for a loan or a sample.
//!
//! A proof cites a theorem by calling its function, which does nothing; what the theorem states is then among the facts of the
//! caller:
//!
//! ```
//! loans_left_by_calls::<T, U, O, B>(overriding, handlers);
//! ```

pub mod loans;
pub mod samples;
