//! Numbered ports, loans and samples: those that a run of commands made, and what later commands do with them.
//!
//! | Module | What it has |
//! |---|---|
//! | `made` | the tables: which port, loan or sample has a number |
//! | `making` | how ports are created, and get numbers |
//! | `publishing` | how publishers loan, put, retry, and are closed |
//! | `loans` | how loans are written, dropped and sent |
//! | `subscribing` | how subscribers update, receive, and are closed |
//! | `samples` | how samples are read and released |
//! | `growing` | loans that first make capacity for one more |
//! | `laws` | theorems about the calls |
//!
//! First calls, with nothing made yet. `arriving`, `lending`, `messages`, `receiving` and `following` make the others.
//!
//! ```
//! let made = Made::new(alloc);
//! let sent = made.put(alloc, home, publisher, &[7]);
//! ```

pub mod growing;
pub mod laws;
pub mod loans;
pub mod made;
pub mod making;
pub mod publishing;
pub mod samples;
pub mod subscribing;

pub use made::{Made, MadeLoan, MadePublisher, MadeSample};
pub use making::PublisherParts;
