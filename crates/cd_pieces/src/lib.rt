//! The piece words and the literal sources, each as a stage.
#![tactic(auto)]

mod collected;
mod due;
mod first;
mod keep;
mod literal_pieces;
mod literals;
mod make;
mod piece;
mod read;
mod reply;
mod sift;
mod spelled;
mod stage;
mod state;

pub use literals::{LiteralStage, literal_stage};
pub use stage::{PieceStage, piece_stage, sink_null};
