// What a word does with a piece.
use crate::due::Due;
use cd_elem::{Chunk, Value};

/// What a word does with the piece that comes.
#[derive(Drop)]
pub enum PieceReply {
    /// It reads it, and gives nothing.
    Skip,
    /// It reads it, and gives this at once, and then what is due.
    Give(Chunk, Option<Due>),
    /// It reads it, and ends.
    End(Value),
    /// It ends, and gives the piece back.
    Back(Value, Chunk),
}
