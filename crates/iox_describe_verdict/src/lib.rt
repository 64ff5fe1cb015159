//! What an opener requires of a service, and the compatibility check of the description that it finds.
//!
//! | Module | What it has |
//! |---|---|
//! | `requirement` | what an opener requires of a service of each pattern, and the compatibility check of a description |
//! | `pattern` | a messaging pattern, with everything that creating and opening a service needs of it |
//! | `laws` | theorems about weaker requirements |
//!
//! A first call:
//!
//! ```
//! /// `iox_describe_verdict`: the first clause of an opener that a description doesn't meet; None if the service may be opened.
//! fn objection(requirement: &Requirement, description: &Description) -> Option<ClauseError>
//!     ensures first { IfSome result (λ clause. first_unmet (clauses requirement.now description.now) ≡ Err clause) }
//!     ensures none { IfNone result (IsOk (first_unmet (clauses requirement.now description.now))) }
//! {
//!     Event::verdict(requirement, description).err()
//! }
//! ```
#![tactic(auto)]

pub mod laws;
pub mod pattern;
pub mod requirement;
