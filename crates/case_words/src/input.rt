// The chunks and pieces that a case gives.
ghost use Rattle.std.specs.Prelude.{◌≡◌, IfOk, length};
ghost use Rattle.cd_step.specs.CutChunks.{kind_of};
ghost use Rattle.cd_step.specs.Parts.{IsChunk};

use case_notation::CaseError;
use cd_elem::{ByteList, CHUNK_LIMIT, CharList, Chunk, Items, Kind, NumberList, Sort};
use std::alloc::Global;

/// Elements in a piece, as the language has them at most.
const PIECE_LIMIT: u32 = 1_048_576;

/// More elements than a piece of a case has, and few enough that each word of a case may make the piece longer.
const PIECE_MOST: u32 = 1_000;

/// What a stage is given: chunks or pieces, and whether the input ends behind them.
#[derive(Clone, Copy)]
pub struct Given<'a> {
    pub chunks: &'a [NumberList],
    pub ends: bool,
}

/// The widest kind of this sort, which a word on elements takes.
pub fn widest_kind(sort: Sort) -> Kind
    ensures { result ≡ kind_of sort }
{
    match sort {
        Sort::Bytes => Kind::Bytes,
        Sort::Chars => Kind::Chars,
        Sort::Block => Kind::Blocks(PIECE_LIMIT),
        Sort::Text => Kind::Texts(PIECE_LIMIT),
    }
}

/// The kind of what a case gives.
pub fn case_kind(sort: Sort) -> Kind {
    match sort {
        Sort::Bytes => Kind::Bytes,
        Sort::Chars => Kind::Chars,
        Sort::Block => Kind::Blocks(PIECE_MOST),
        Sort::Text => Kind::Texts(PIECE_MOST),
    }
}

fn byte_list(alloc: Global, numbers: &[u32]) -> Result<ByteList, CaseError>
    ensures { IfOk result (λ list. length list ≡ length numbers.now) }
{
    let mut list = Items::new(alloc);
    for number in numbers {
        list.push((*number % 256) as u8)
            .map_err(|_| CaseError::NoMemory)?;
    }
    Ok(list)
}

fn char_list(alloc: Global, numbers: &[u32]) -> Result<CharList, CaseError>
    ensures { IfOk result (λ list. length list ≡ length numbers.now) }
{
    let mut list = Items::new(alloc);
    for number in numbers {
        let Some(character) = char::from_u32(*number) else {
            return Err(CaseError::Malformed("a character"));
        };
        list.push(character).map_err(|_| CaseError::NoMemory)?;
    }
    Ok(list)
}

/// A chunk of elements, or a piece.
pub fn chunk_of(alloc: Global, kind: Kind, numbers: &[u32]) -> Result<Chunk, CaseError>
    ensures { IfOk result (λ chunk. IsChunk kind chunk) }
{
    if numbers.len() > PIECE_LIMIT as usize {
        return Err(CaseError::Malformed("at most 1,048,576 elements"));
    }
    match kind {
        Kind::Blocks(most) if numbers.len() <= most as usize => {
            Ok(Chunk::block_of(byte_list(alloc, numbers)?))
        }
        Kind::Texts(most) if numbers.len() <= most as usize => {
            Ok(Chunk::text_of(char_list(alloc, numbers)?))
        }
        Kind::Blocks(_) | Kind::Texts(_) => Err(CaseError::Malformed("pieces that are shorter")),
        _ if numbers.is_empty() || numbers.len() > CHUNK_LIMIT => {
            Err(CaseError::Malformed("a chunk of 1 to 65,536 elements"))
        }
        Kind::Bytes => Ok(Chunk::bytes_of(byte_list(alloc, numbers)?)),
        Kind::Chars => Ok(Chunk::chars_of(char_list(alloc, numbers)?)),
    }
}
