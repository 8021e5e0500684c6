// The words that make pieces.
ghost use Rattle.std.specs.Prelude.{◌≡◌, ◌+◌, ◌<◌, ◌≤◌, ◌++◌, ◌^◌, IfOk, OnErr, length, reverse, false, true};
ghost use Rattle.cd_elem.specs.Chunks.{is_cut};
ghost use Rattle.cd_elem.specs.Limits.{piece_limit};
ghost use Rattle.cd_elem.specs.declared.kind.Kind.{Kind};
ghost use Rattle.cd_pieces.specs.Spelling.{ChangeFits, IsSpelledFor, changed as changed_spec, longer_by, spelled};
ghost use Rattle.cd_pieces.specs.Stages.{Replies, ReadsMade};
ghost use Rattle.cd_pieces.specs.declared.state.Making.TheVariants as making;
ghost use Rattle.cd_pieces.specs.declared.state.WordState.TheVariants as state;
ghost use Rattle.cd_step.specs.Parts.{IsChunk};

use crate::due::Due;
use crate::reply::PieceReply;
use crate::spelled::Spelled;
use crate::state::{Change, Making};
use cd_elem::{Chunk, Items, NoMemory};
use std::alloc::Global;

// ---- maps

/// Both as one list of the final length.
fn joined<T: Copy>(alloc: Global, front: &[T], back: &[T]) -> Result<Items<T>, NoMemory>
    requires { length front.now + length back.now ≤ piece_limit }
    ensures { IfOk result (λ list. list ≡ front.now ++ back.now) }
{
    let mut list = Vec::with_capacity(alloc, front.len() + back.len())?;
    list.extend_from_slice(front)?;
    list.extend_from_slice(back)?;
    Ok(Items::from_vec(list))
}

/// The list from its end to its start, in the memory that it has.
fn reversed<T>(list: Items<T>) -> Items<T>
    ensures { result ≡ reverse list }
{
    let mut list = list.into_vec();
    list.reverse();
    Items::from_vec(list)
}

fn prefixed(alloc: Global, literal: &Spelled, piece: &Chunk) -> Result<Chunk, NoMemory>
    requires fits { IsSpelledFor piece.now.0 literal.now }
    requires pieces { is_cut piece.now.0 ≡ false }
    requires most { length (spelled literal.now) + length piece.now.1 ≤ piece_limit }
    ensures { IfOk result (λ made. made ≡ (piece.now.0, spelled literal.now ++ piece.now.1)) }
{
    match literal {
        Spelled::Bytes(front) => match piece.as_bytes() {
            Some(bytes) => {
                let list = joined(alloc, front.as_slice(), bytes)?;
                Ok(Chunk::block_of(list))
            }
            None => unreachable!(),
        },
        Spelled::Chars(front) => match piece.as_chars() {
            Some(chars) => {
                let list = joined(alloc, front.as_slice(), chars)?;
                Ok(Chunk::text_of(list))
            }
            None => unreachable!(),
        },
    }
}

fn suffixed(literal: &Spelled, piece: Chunk) -> Result<Chunk, NoMemory>
    requires fits { IsSpelledFor piece.0 literal.now }
    requires pieces { is_cut piece.0 ≡ false }
    requires most { length piece.1 + length (spelled literal.now) ≤ piece_limit }
    ensures { IfOk result (λ made. made ≡ (piece.0, piece.1 ++ spelled literal.now)) }
{
    match literal {
        Spelled::Bytes(end) => match piece.into_bytes() {
            Ok(mut list) => {
                list.extend_from_slice(end.as_slice())?;
                Ok(Chunk::block_of(list))
            }
            Err(_) => unreachable!(),
        },
        Spelled::Chars(end) => match piece.into_chars() {
            Ok(mut list) => {
                list.extend_from_slice(end.as_slice())?;
                Ok(Chunk::text_of(list))
            }
            Err(_) => unreachable!(),
        },
    }
}

/// It takes no memory.
fn turned(piece: Chunk) -> Chunk
    requires { is_cut piece.0 ≡ false }
    ensures { result ≡ (piece.0, reverse piece.1) }
{
    let _len = piece.len();
    match piece.into_bytes() {
        Ok(bytes) => Chunk::block_of(reversed(bytes)),
        Err(piece) => match piece.into_chars() {
            Ok(chars) => Chunk::text_of(reversed(chars)),
            Err(_) => unreachable!(),
        },
    }
}

fn changed(alloc: Global, by: &Change, piece: Chunk) -> Result<Chunk, NoMemory>
    requires fits { ChangeFits piece.0 by.now }
    requires pieces { is_cut piece.0 ≡ false }
    requires most { length piece.1 + longer_by by.now ≤ piece_limit }
    ensures { IfOk result (λ made. made ≡ (piece.0, changed_spec by.now piece.1)) }
{
    match by {
        Change::Prefix(literal) => prefixed(alloc, literal, &piece),
        Change::Suffix(literal) => suffixed(literal, piece),
        Change::Reverse => Ok(turned(piece)),
    }
}

// ---- words

/// The piece so many times.
fn repeat(alloc: Global, times: u64, piece: Chunk) -> Result<PieceReply, NoMemory>
    requires { is_cut piece.0 ≡ false }
    ensures { IfOk result (λ reply. (k : Kind) → IsChunk k piece → Replies k (state.Make (making.Repeat times)) piece reply (state.Make (making.Repeat times))) }
{
    if times == 0 {
        drop(piece);
        return Ok(PieceReply::Skip);
    }
    let (first, due) = Due { piece, times }.next(alloc)?;
    Ok(PieceReply::Give(first, due))
}

/// The literal and the piece, which is due behind it; at first the piece alone.
fn intersperse(
    alloc: Global,
    literal: &Spelled,
    first: &mut bool,
    piece: Chunk,
) -> Result<PieceReply, NoMemory>
    requires fits { IsSpelledFor piece.0 literal.now }
    requires pieces { is_cut piece.0 ≡ false }
    requires most { length (spelled literal.now) ≤ piece_limit }
    ensures law { IfOk result (λ reply. (k : Kind) → IsChunk k piece → Replies k (state.Make (making.Intersperse literal.now first.old)) piece reply (state.Make (making.Intersperse literal.now first.new))) }
    ensures err { OnErr result (first.new ≡ first.old) }
{
    if *first {
        *first = false;
        return Ok(PieceReply::Give(piece, None));
    }
    match literal.piece(alloc) {
        Ok(between) => Ok(PieceReply::Give(between, Some(Due { piece, times: 1 }))),
        Err(refused) => {
            drop(piece);
            Err(refused)
        }
    }
}

/// What a word does that makes pieces.
pub fn make(alloc: Global, word: &mut Making, piece: Chunk) -> Result<PieceReply, NoMemory>
    requires pieces { is_cut piece.0 ≡ false }
    requires fits { ReadsMade piece word.old }
    ensures law { IfOk result (λ reply. (k : Kind) → IsChunk k piece → Replies k (state.Make word.old) piece reply (state.Make word.new)) }
    ensures err { OnErr result (word.new ≡ word.old) }
{
    match word {
        Making::Change(by) => {
            let made = changed(alloc, by, piece)?;
            Ok(PieceReply::Give(made, None))
        }
        Making::Repeat(times) => repeat(alloc, *times, piece),
        Making::Intersperse(literal, first) => intersperse(alloc, literal, first, piece),
    }
}
