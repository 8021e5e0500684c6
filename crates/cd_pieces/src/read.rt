// What each word does with a piece, and the value with which it ends.
ghost use Rattle.std.specs.Prelude.{◌≡◌, ◌≤◌, IfOk, OnErr, false, true};
ghost use Rattle.cd_elem.specs.Chunks.{is_cut};
ghost use Rattle.cd_elem.specs.declared.kind.Kind.{Kind};
ghost use Rattle.cd_meaning.specs.Values.{value_meaning};
ghost use Rattle.cd_pieces.specs.Carried.{state_value};
ghost use Rattle.cd_pieces.specs.Stages.{IsSameWord, KeptPieces, ReadsPiece, Replies, asks_of, carries};
ghost use Rattle.cd_step.specs.Parts.{IsChunk};

use crate::keep::{answer, keep, kept_value};
use crate::make::make;
use crate::reply::PieceReply;
use crate::sift::sift;
use crate::state::{Keeping, Sifting, WordState};
use cd_elem::{Chunk, NoMemory, Value};
use std::alloc::Global;

/// Whether a word asks for a further piece.
pub fn asks(state: &WordState) -> bool
    ensures { result ≡ asks_of state.now }
{
    match state {
        WordState::Sift(Sifting::Take(left) | Sifting::Drop(left)) => *left != 0,
        WordState::Keep(Keeping::Collect(collected)) => collected.left() != 0,
        _ => true,
    }
}

/// What a word does with a piece that it was to ask for.
pub fn read(alloc: Global, state: &mut WordState, piece: Chunk) -> Result<PieceReply, NoMemory>
    requires pieces { is_cut piece.0 ≡ false }
    requires asks { asks_of state.old ≡ true }
    requires reads { ReadsPiece piece state.old }
    ensures law { IfOk result (λ reply. (k : Kind) → IsChunk k piece → Replies k state.old piece reply state.new) }
    ensures err { OnErr result (state.new ≡ state.old) }
{
    match state {
        WordState::Sift(word) => Ok(sift(word, piece)),
        WordState::Answer(word) => answer(alloc, *word, piece),
        WordState::Keep(word) => keep(word, piece),
        WordState::Make(word) => make(alloc, word, piece),
    }
}

/// The value of a word that asks for nothing more, or was told the end.
pub fn final_value(alloc: Global, state: &mut WordState) -> Result<Value, NoMemory>
    requires { KeptPieces state.old }
    ensures law { IfOk result (λ value. value_meaning value ≡ state_value state.old) }
    ensures same { (k : Kind) → IsSameWord k state.old state.new }
    ensures less { carries state.new ≤ carries state.old }
{
    match state {
        WordState::Sift(Sifting::Length(count)) => Ok(Value::Num(*count)),
        WordState::Sift(Sifting::Null) => Ok(Value::Bool(true)),
        WordState::Answer(_) => Ok(Value::Maybe(None)),
        WordState::Keep(word) => kept_value(alloc, word),
        WordState::Sift(_) | WordState::Make(_) => Ok(Value::Unit),
    }
}
