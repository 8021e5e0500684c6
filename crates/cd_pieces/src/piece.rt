// A piece as a copy, as a result, and as its list.
ghost use Rattle.std.specs.Prelude.{◌≡◌, IfOk, false};
ghost use Rattle.cd_elem.specs.Chunks.{is_cut};
ghost use Rattle.cd_meaning.specs.Stream.{present};
ghost use Rattle.cd_meaning.specs.Values.{value_meaning};
ghost use Rattle.cd_pieces.specs.Values.{piece_value, result_at};

use cd_elem::{Boxed, Chunk, NoMemory, Value};
use std::alloc::Global;

/// A copy of a piece.
pub fn copy_of(alloc: Global, piece: &Chunk) -> Result<Chunk, NoMemory>
    requires { is_cut piece.now.0 ≡ false }
    ensures { IfOk result (λ copy. copy ≡ piece.now) }
{
    let _len = piece.len();
    match piece.as_bytes() {
        Some(bytes) => Chunk::block(alloc, bytes),
        None => match piece.as_chars() {
            Some(chars) => Chunk::text(alloc, chars),
            None => unreachable!(),
        },
    }
}

/// A piece as a result. It takes no memory.
pub fn value_of(piece: Chunk) -> Value
    ensures { result ≡ result_at piece.0 piece.1 }
{
    match piece.into_bytes() {
        Ok(bytes) => Value::BytesV(bytes),
        Err(piece) => match piece.into_chars() {
            Ok(chars) => Value::TextV(chars),
            Err(_) => unreachable!(),
        },
    }
}

/// A piece as a result that may be missing.
pub fn present_of(alloc: Global, piece: Chunk) -> Result<Value, NoMemory>
    requires { is_cut piece.0 ≡ false }
    ensures { IfOk result (λ value. value_meaning value ≡ present (piece_value piece)) }
{
    match Boxed::new(alloc, value_of(piece)) {
        Ok(boxed) => Ok(Value::Maybe(Some(boxed))),
        Err(_) => Err(NoMemory),
    }
}
