//! Controllers of plain fusion and of sequences: which of two parts steps next, and what their moves are for the whole.
#![tactic(auto)]

mod follow;
mod fuse;
mod laws;

pub use follow::Follow;
pub use fuse::{Fuse, Upstream};
pub use laws::{fusion_sites, sequence_sites};
