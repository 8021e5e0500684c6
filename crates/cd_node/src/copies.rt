// A copy of a chunk, and one chunk of two.
ghost use Rattle.std.specs.Prelude.{◌≡◌, ◌++◌, ◌+◌, IfOk, length, true, false};
ghost use Rattle.cd_elem.specs.Chunks.{HasSize, has_chars};
ghost use Rattle.cd_step.specs.Flows.{IsCopied, IsGlued};

use cd_elem::{ByteList, CharList, Chunk, Items, NoMemory, Sort};
use cd_step::Input;
use std::alloc::Global;

fn copy(alloc: Global, chunk: &Chunk) -> Result<Chunk, NoMemory>
    ensures { IfOk result (λ copy. copy ≡ chunk.now) }
{
    let _len = chunk.len();
    match chunk.sort() {
        Sort::Bytes => match chunk.as_bytes() {
            Some(bytes) => Chunk::bytes(alloc, bytes),
            None => unreachable!(),
        },
        Sort::Chars => match chunk.as_chars() {
            Some(chars) => Chunk::chars(alloc, chars),
            None => unreachable!(),
        },
        Sort::Block => match chunk.as_bytes() {
            Some(bytes) => Chunk::block(alloc, bytes),
            None => unreachable!(),
        },
        Sort::Text => match chunk.as_chars() {
            Some(chars) => Chunk::text(alloc, chars),
            None => unreachable!(),
        },
    }
}

/// A copy of the chunk that is given, where one is wanted.
pub fn copied(alloc: Global, wanted: bool, input: &Input) -> Result<Option<Chunk>, NoMemory>
    ensures { IfOk result (λ copy. IsCopied wanted input.now copy) }
{
    if !wanted {
        return Ok(None);
    }
    match input {
        Input::Chunk(chunk) => Ok(Some(copy(alloc, chunk)?)),
        Input::Start | Input::End | Input::Next => Ok(None),
    }
}

fn joined_bytes(alloc: Global, first: &Chunk, second: &Chunk) -> Result<ByteList, NoMemory>
    requires first { has_chars first.now.0 ≡ false }
    requires second { has_chars second.now.0 ≡ false }
    ensures { IfOk result (λ items. items ≡ first.now.1 ++ second.now.1) }
{
    match (first.as_bytes(), second.as_bytes()) {
        (Some(front), Some(back)) => {
            let mut items = Items::from_slice(alloc, front)?;
            items.extend_from_slice(back)?;
            Ok(items)
        }
        _ => unreachable!(),
    }
}

fn joined_chars(alloc: Global, first: &Chunk, second: &Chunk) -> Result<CharList, NoMemory>
    requires first { has_chars first.now.0 ≡ true }
    requires second { has_chars second.now.0 ≡ true }
    ensures { IfOk result (λ items. items ≡ first.now.1 ++ second.now.1) }
{
    match (first.as_chars(), second.as_chars()) {
        (Some(front), Some(back)) => {
            let mut items = Items::from_slice(alloc, front)?;
            items.extend_from_slice(back)?;
            Ok(items)
        }
        _ => unreachable!(),
    }
}

/// The elements of both as one chunk.
pub fn glued(alloc: Global, first: &Chunk, second: &Chunk) -> Result<Chunk, NoMemory>
    requires sort { second.now.0 ≡ first.now.0 }
    requires size { HasSize first.now.0 (length first.now.1 + length second.now.1) }
    ensures { IfOk result (λ chunk. IsGlued first.now second.now chunk) }
{
    match first.sort() {
        Sort::Bytes => Ok(Chunk::bytes_of(joined_bytes(alloc, first, second)?)),
        Sort::Chars => Ok(Chunk::chars_of(joined_chars(alloc, first, second)?)),
        Sort::Block => Ok(Chunk::block_of(joined_bytes(alloc, first, second)?)),
        Sort::Text => Ok(Chunk::text_of(joined_chars(alloc, first, second)?)),
    }
}
