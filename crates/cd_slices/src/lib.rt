//! A splitter of bytes with the words behind it as one stage, which looks at each piece where it lies in its chunk.
#![tactic(auto)]

mod cut;
mod sieve;
mod slicer;
mod stage;
mod tail;

pub use sieve::{Sieve, Verdict};
pub use stage::{SliceStage, slice_stage};
pub use tail::SliceEnd;
