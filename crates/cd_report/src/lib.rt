//! What the command reports: why it ended, the line that tells it, what `check` says of a script, and the texts of values.
#![tactic(auto)]

mod cause;
mod check;
mod line;
mod value;

pub use cause::{Cause, Said};
pub use check::check_text;
pub use line::{cause_text, memory_text};
pub use value::value_text;
