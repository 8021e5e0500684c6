//! Which scripts have a type, with the type of each part, and which refusal is the first in the others.
//!
//! Definitions and laws alone; no code runs here.
#![tactic(auto)]

mod laws;
mod refusal;

pub use laws::{agreement, definitions, judging, numbering, parts_fit, typed_scripts};
pub use refusal::{Refusal, RefusalKind};
