// The words that pass a piece on, drop it or give it back.
ghost use Rattle.std.specs.Prelude.{◌≡◌, IsTrue, false, true};
ghost use Rattle.cd_elem.specs.Chunks.{is_cut};
ghost use Rattle.cd_elem.specs.declared.kind.Kind.{Kind};
ghost use Rattle.cd_pieces.specs.Spelling.{answers, passes as passes_spec, QuestionFits, IsSpelledFor, spelled};
ghost use Rattle.cd_pieces.specs.Stages.{Replies, SiftFits, asks_of};
ghost use Rattle.cd_pieces.specs.declared.state.Sifting.TheVariants as sifting;
ghost use Rattle.cd_pieces.specs.declared.state.WordState.TheVariants as state;
ghost use Rattle.cd_meaning.specs.Classes.{begins_with, ends_with};
ghost use Rattle.cd_step.specs.Parts.{IsChunk};

use crate::reply::PieceReply;
use crate::spelled::Spelled;
use crate::state::{Question, Sifting, Test};
use cd_elem::{Chunk, Value};

// ---- tests

fn begins(literal: &Spelled, piece: &Chunk) -> bool
    requires { IsSpelledFor piece.now.0 literal.now }
    ensures { result ≡ begins_with (spelled literal.now) piece.now.1 }
{
    match literal {
        Spelled::Bytes(front) => match piece.as_bytes() {
            Some(bytes) => bytes.starts_with(front.as_slice()),
            None => unreachable!(),
        },
        Spelled::Chars(front) => match piece.as_chars() {
            Some(chars) => chars.starts_with(front.as_slice()),
            None => unreachable!(),
        },
    }
}

fn ends(literal: &Spelled, piece: &Chunk) -> bool
    requires { IsSpelledFor piece.now.0 literal.now }
    ensures { result ≡ ends_with (spelled literal.now) piece.now.1 }
{
    match literal {
        Spelled::Bytes(end) => match piece.as_bytes() {
            Some(bytes) => bytes.ends_with(end.as_slice()),
            None => unreachable!(),
        },
        Spelled::Chars(end) => match piece.as_chars() {
            Some(chars) => chars.ends_with(end.as_slice()),
            None => unreachable!(),
        },
    }
}

fn asked(what: &Question, piece: &Chunk) -> bool
    requires { QuestionFits piece.now.0 what.now }
    ensures { result ≡ answers what.now piece.now.1 }
{
    match what {
        Question::Empty => piece.len() == 0,
        Question::Begins(literal) => begins(literal, piece),
        Question::Ends(literal) => ends(literal, piece),
        Question::Shorter(count) => (piece.len() as u64) < *count,
    }
}

fn passes(test: &Test, piece: &Chunk) -> bool
    requires { QuestionFits piece.now.0 test.now.what }
    ensures { result ≡ passes_spec test.now piece.now.1 }
{
    asked(&test.what, piece) != test.negated
}

// ---- words

fn take_while(test: &Test, piece: Chunk) -> PieceReply
    requires { QuestionFits piece.0 test.now.what }
    ensures { (k : Kind) → IsChunk k piece → Replies k (state.Sift (sifting.TakeWhile test.now)) piece result (state.Sift (sifting.TakeWhile test.now)) }
{
    if passes(test, &piece) {
        PieceReply::Give(piece, None)
    } else {
        PieceReply::Back(Value::Unit, piece)
    }
}

fn filter(test: &Test, piece: Chunk) -> PieceReply
    requires { QuestionFits piece.0 test.now.what }
    ensures { (k : Kind) → IsChunk k piece → Replies k (state.Sift (sifting.Filter test.now)) piece result (state.Sift (sifting.Filter test.now)) }
{
    if passes(test, &piece) {
        PieceReply::Give(piece, None)
    } else {
        drop(piece);
        PieceReply::Skip
    }
}

fn drop_while(test: &Test, piece: Chunk) -> PieceReply
    requires { QuestionFits piece.0 test.now.what }
    ensures { (k : Kind) → IsChunk k piece → Replies k (state.Sift (sifting.DropWhile test.now)) piece result (state.Sift (sifting.DropWhile test.now)) }
{
    if passes(test, &piece) {
        drop(piece);
        PieceReply::Skip
    } else {
        PieceReply::Back(Value::Unit, piece)
    }
}

/// What a word does with a piece that it was to ask for.
pub fn sift(word: &mut Sifting, piece: Chunk) -> PieceReply
    requires fits { SiftFits piece.0 word.old }
    requires asks { asks_of (state.Sift word.old) ≡ true }
    ensures { (k : Kind) → IsChunk k piece → Replies k (state.Sift word.old) piece result (state.Sift word.new) }
{
    match word {
        Sifting::Pass => PieceReply::Give(piece, None),
        Sifting::Take(left) => {
            *left -= 1;
            PieceReply::Give(piece, None)
        }
        Sifting::TakeWhile(test) => take_while(test, piece),
        Sifting::Filter(test) => filter(test, piece),
        Sifting::Drop(left) => {
            drop(piece);
            *left -= 1;
            PieceReply::Skip
        }
        Sifting::DropWhile(test) => drop_while(test, piece),
        Sifting::Length(count) => {
            drop(piece);
            *count = count.saturating_add(1);
            PieceReply::Skip
        }
        Sifting::Null => PieceReply::Back(Value::Bool(false), piece),
        Sifting::SinkNull => {
            drop(piece);
            PieceReply::Skip
        }
    }
}
