//! Callers for the tests: what steps words, fusions, sequences and whole trees by hand and writes each move down, what runs
//! words as statements, and files in memory with sites on them.
#![tactic(auto)]

mod byte_trees;
mod drives;
mod given;
mod leaf_runs;
mod lines;
mod node_lines;
mod pairs;
mod reads;
mod sites;
mod tree_runs;
mod trees;

pub use drives::{Driven, drive};
pub use given::{Coming, Given};
pub use leaf_runs::{Leaf, LeafRun, LeafWord, run_leaf, use_of};
pub use lines::StepError;
pub use pairs::{Pair, Placed, moves_of};
pub use sites::{Member, file_of, lacks_memory, site_of};
pub use tree_runs::{Leaving, Pace, TreeRun, run_on_bytes, run_tree};
