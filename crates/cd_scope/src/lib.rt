//! The resource scope of a run, and how its calls on the outside are read.
#![tactic(auto)]

mod errors;
mod journal;
mod laws;
mod scope;
mod table;

pub use errors::{AcquireError, CloseFault};
pub use journal::{JournalLine, JournalList};
pub use laws::{cut_independence, openings_law, reading_law};
pub use scope::{Finished, Scope};
pub use table::{Held, Ticket};
