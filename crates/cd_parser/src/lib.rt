//! The parser of scripts as a machine: what it remembers of the tokens before, and what one more token makes of that.
//!
//! Open brackets and the chains that they stand in lie on a stack on the heap, so nothing recurses, and each token costs a
//! constant number of moves.
#![tactic(auto)]

mod allocation;
mod brackets;
mod chains;
mod heads;
mod laws;
mod open_pipe;
mod stack;
mod state;
mod statements;
mod word_trees;

pub use laws::machine_law;
pub use stack::Stack;
pub use state::{
    Block, Chain, Exit, Expected, Extension, Frame, Head, Level, OpenPipe, Owner, ParserState,
    Position, Progress,
};
pub use statements::step;
