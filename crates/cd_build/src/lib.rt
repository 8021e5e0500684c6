//! The node of a statement: what runs its pipe.
//!
//! Nothing is checked again here: what the typing says of a script meets every condition of those who make nodes.
#![tactic(auto)]

mod built;
mod pipes;
mod slices;
mod statements;
mod words;

pub use built::is_built;
pub use statements::build;
