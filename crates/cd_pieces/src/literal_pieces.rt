// What stands in a script, as chunks.
ghost use Rattle.std.specs.Prelude.{◌≡◌, ◌≤◌, length, map, IfOk, string_bytes, decimal};
ghost use Rattle.std.specs.List.{flat_map};
ghost use Rattle.std.specs.Str.{chars};
ghost use Rattle.cd_elem.specs.Limits.{chunk_limit, piece_limit};
ghost use Rattle.cd_elem.specs.declared.kind.Kind.TheVariants as kind;
ghost use Rattle.cd_elem.specs.declared.kind.Sort.TheVariants as sort;
ghost use Rattle.cd_meaning.specs.Stream.{Elem};
ghost use Rattle.cd_step.specs.Parts.{items};
ghost use Rattle.cd_pieces.specs.Literals.{AreChunks, block_of, digit_limit, greatest, text_of};

use cd_elem::{CHUNK_LIMIT, CharList, Chunk, Items, Literal, NoMemory};
use std::alloc::Global;

/// The characters of a text.
fn chars_of(alloc: Global, text: &str) -> Result<Vec<char>, NoMemory>
    ensures { IfOk result (λ list. list.items ≡ chars text.now) }
{
    Ok(text.chars().collect(alloc)?)
}

/// The bytes of a text in chunks, as few as serve.
pub fn byte_chunks(alloc: Global, text: &str) -> Result<Vec<Chunk>, NoMemory>
    ensures items { IfOk result (λ chunks. flat_map items chunks.items ≡ map Elem text.now) }
    ensures chunks { IfOk result (λ chunks. AreChunks kind.Bytes chunks.items) }
{
    let mut chunks = Vec::new(alloc);
    let mut rest = text.as_bytes();
    while !rest.is_empty() {
        let (front, behind) = rest.split_at(rest.len().min(CHUNK_LIMIT));
        chunks.push(Chunk::bytes(alloc, front)?)?;
        rest = behind;
    }
    Ok(chunks)
}

/// Characters in chunks, as few as serve.
fn chunks_of(alloc: Global, list: &[char]) -> Result<Vec<Chunk>, NoMemory>
    ensures items { IfOk result (λ chunks. flat_map items chunks.items ≡ map Elem list.now) }
    ensures chunks { IfOk result (λ chunks. AreChunks kind.Chars chunks.items) }
{
    let mut chunks = Vec::new(alloc);
    let mut rest = list;
    while !rest.is_empty() {
        let (front, behind) = rest.split_at(rest.len().min(CHUNK_LIMIT));
        chunks.push(Chunk::chars(alloc, front)?)?;
        rest = behind;
    }
    Ok(chunks)
}

/// The characters of a text in chunks, as few as serve.
pub fn char_chunks(alloc: Global, text: &str) -> Result<Vec<Chunk>, NoMemory>
    ensures items { IfOk result (λ chunks. flat_map items chunks.items ≡ map Elem (chars text.now)) }
    ensures chunks { IfOk result (λ chunks. AreChunks kind.Chars chunks.items) }
{
    let list = chars_of(alloc, text)?;
    chunks_of(alloc, list.as_slice())
}

/// These literals as pieces of bytes.
pub fn block_pieces(alloc: Global, literals: &[Literal]) -> Result<Vec<Chunk>, NoMemory>
    requires { greatest (map length literals.now) ≤ piece_limit }
    ensures { IfOk result (λ pieces. pieces.items ≡ map block_of literals.now) }
{
    let mut pieces = Vec::new(alloc);
    for literal in literals {
        pieces.push(Chunk::block(alloc, literal.as_str().as_bytes())?)?;
    }
    Ok(pieces)
}

/// These literals as pieces of characters.
pub fn text_pieces(alloc: Global, literals: &[Literal]) -> Result<Vec<Chunk>, NoMemory>
    requires { greatest (map (λ l. length (chars l)) literals.now) ≤ piece_limit }
    ensures { IfOk result (λ pieces. pieces.items ≡ map text_of literals.now) }
{
    let mut pieces = Vec::new(alloc);
    for literal in literals {
        let list = chars_of(alloc, literal.as_str())?;
        pieces.push(Chunk::text_of(Items::from_vec(list)))?;
    }
    Ok(pieces)
}

/// The greatest length of these pieces.
pub fn longest(pieces: &[Chunk]) -> usize
    ensures { result ≡ greatest (map (λ c. length c.1) pieces.now) }
{
    let mut most = 0;
    for piece in pieces {
        let length = piece.len();
        if most < length {
            most = length;
        }
    }
    most
}

/// The decimal text of a number as a piece.
pub fn decimal_piece(alloc: Global, number: u64) -> Result<Chunk, NoMemory>
    ensures text { IfOk result (λ piece. piece ≡ block_of (decimal number)) }
    ensures length { length (decimal number) ≤ digit_limit }
{
    let text = number.to_string(alloc)?;
    Ok(Chunk::block_of(Items::from_vec(text.into_bytes())))
}
