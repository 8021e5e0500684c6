//! The splitters, each as a stage: words that cut elements into pieces, and words that join pieces to elements.
#![tactic(auto)]

mod cutter;
mod joiner;
mod open_piece;
mod rule;
mod stage;

pub use stage::{SplitStage, split_stage};
