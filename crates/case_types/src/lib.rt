//! Runs the cases of types: scripts that have a type or are refused.
#![tactic(auto)]

mod types;

pub use types::answer;
