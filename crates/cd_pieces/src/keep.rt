// The words that answer with a piece, and those that keep pieces.
ghost use Rattle.std.specs.Prelude.{◌≡◌, ◌≤◌, IfOk, OnErr, false, true};
ghost use Rattle.cd_elem.specs.Chunks.{is_cut};
ghost use Rattle.cd_elem.specs.declared.kind.Kind.{Kind};
ghost use Rattle.cd_meaning.specs.Stream.{present};
ghost use Rattle.cd_meaning.specs.Values.{value_meaning};
ghost use Rattle.cd_pieces.specs.Carried.{keep_value};
ghost use Rattle.cd_pieces.specs.Stages.{IsSameWord, KeepsPieces, Replies, ReadsKept, asks_of, keep_carries};
ghost use Rattle.cd_pieces.specs.Values.{piece_value};
ghost use Rattle.cd_pieces.specs.declared.state.WordState.TheVariants as state;
ghost use Rattle.cd_step.specs.Parts.{IsChunk};

use crate::piece::{copy_of, present_of};
use crate::reply::PieceReply;
use crate::state::{Answering, Keeping};
use cd_elem::{Chunk, NoMemory, Value};
use std::alloc::Global;

/// A copy of a piece as a result.
fn present_copy(alloc: Global, piece: &Chunk) -> Result<Value, NoMemory>
    requires { is_cut piece.now.0 ≡ false }
    ensures { IfOk result (λ value. value_meaning value ≡ present (piece_value piece.now)) }
{
    let copy = copy_of(alloc, piece)?;
    present_of(alloc, copy)
}

/// What a word does that answers with the first piece.
pub fn answer(alloc: Global, word: Answering, piece: Chunk) -> Result<PieceReply, NoMemory>
    requires { is_cut piece.0 ≡ false }
    ensures { IfOk result (λ reply. (k : Kind) → IsChunk k piece → Replies k (state.Answer word) piece reply (state.Answer word)) }
{
    match word {
        Answering::Head => {
            let value = present_of(alloc, piece)?;
            Ok(PieceReply::End(value))
        }
        Answering::Peek => match present_copy(alloc, &piece) {
            Ok(value) => Ok(PieceReply::Back(value, piece)),
            Err(refused) => {
                drop(piece);
                Err(refused)
            }
        },
    }
}

/// What a word does that keeps pieces, with one that it was to ask for.
pub fn keep(word: &mut Keeping, piece: Chunk) -> Result<PieceReply, NoMemory>
    requires pieces { is_cut piece.0 ≡ false }
    requires asks { asks_of (state.Keep word.old) ≡ true }
    requires within { ReadsKept piece word.old }
    ensures law { IfOk result (λ reply. (k : Kind) → IsChunk k piece → Replies k (state.Keep word.old) piece reply (state.Keep word.new)) }
    ensures err { OnErr result (word.new ≡ word.old) }
{
    match word {
        Keeping::Last(last) => {
            *last = Some(piece);
            Ok(PieceReply::Skip)
        }
        Keeping::Collect(collected) => {
            collected.push(piece)?;
            Ok(PieceReply::Skip)
        }
    }
}

/// What was kept as a result. It is kept no longer.
pub fn kept_value(alloc: Global, word: &mut Keeping) -> Result<Value, NoMemory>
    requires { KeepsPieces word.old }
    ensures law { IfOk result (λ value. value_meaning value ≡ keep_value word.old) }
    ensures same { (k : Kind) → IsSameWord k (state.Keep word.old) (state.Keep word.new) }
    ensures less { keep_carries word.new ≤ keep_carries word.old }
{
    match word {
        Keeping::Last(last) => match last.take() {
            Some(piece) => present_of(alloc, piece),
            None => Ok(Value::Maybe(None)),
        },
        Keeping::Collect(collected) => Ok(collected.take(alloc)),
    }
}
