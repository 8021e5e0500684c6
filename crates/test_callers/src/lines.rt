// How inputs and moves of parts are written down.
ghost use Rattle.std.specs.Prelude.{IfOk};
ghost use Rattle.cd_elem.specs.declared.kind.Kind.TheVariants as kind;
ghost use Rattle.cd_step.specs.Parts.{IsChunk};

use cd_elem::{CHUNK_LIMIT, Chunk, NoMemory, Value};
use cd_step::{Input, Move};
use std::alloc::{AllocError, Global};
use thiserror::Error;

/// Why a part or a whole was not stepped to its end.
#[derive(Clone, Copy, Debug, PartialEq, Eq, Error)]
pub enum StepError {
    #[error("out of memory")]
    NoMemory,
    /// A part was to be given what does not answer its last move.
    #[error("a step out of turn")]
    OutOfTurn,
    #[error("a refused call")]
    Refused,
    #[error("too many steps")]
    Unending,
    /// A text is no script that runs a tree of these words.
    #[error("no such tree")]
    NoTree,
}

impl From<NoMemory> for StepError {
    fn from(_: NoMemory) -> StepError {
        StepError::NoMemory
    }
}

impl From<AllocError> for StepError {
    fn from(_: AllocError) -> StepError {
        StepError::NoMemory
    }
}

/// The characters of a chunk.
pub fn push_chunk(text: &mut String, chunk: &Chunk) -> Result<(), StepError> {
    for place in 0..chunk.len() {
        if let Some(character) = chunk.get(place).and_then(char::from_u32) {
            text.push(character)?;
        }
    }
    Ok(())
}

pub fn push_input(text: &mut String, input: &Input) -> Result<(), StepError> {
    match input {
        Input::Start => text.push_str("start")?,
        Input::Chunk(chunk) => push_chunk(text, chunk)?,
        Input::End => text.push_str("end")?,
        Input::Next => text.push_str("next")?,
    }
    Ok(())
}

pub fn push_value(text: &mut String, value: &Value) -> Result<(), StepError> {
    match value {
        Value::Unit => text.push_str("unit")?,
        Value::Num(number) => {
            write!(text, "{number}").map_err(|_| StepError::NoMemory)?;
        }
        Value::Maybe(None) => text.push_str("none")?,
        Value::Maybe(Some(inner)) => {
            if let Value::Byte(byte) = inner.get() {
                text.push(char::from(*byte))?;
            }
        }
        _ => text.push_str("other")?,
    }
    Ok(())
}

/// A line of what a part gives back.
pub fn push_back(text: &mut String, rest: &Option<Chunk>) -> Result<(), StepError> {
    text.push_str("back ")?;
    match rest {
        Some(chunk) => push_chunk(text, chunk)?,
        None => text.push_str("nothing")?,
    }
    text.push_str("\n")?;
    Ok(())
}

/// A line of a move.
pub fn push_move(text: &mut String, made: &Move) -> Result<(), StepError> {
    match made {
        Move::Emit(chunk) => {
            text.push_str("emit ")?;
            push_chunk(text, chunk)?;
        }
        Move::Need => text.push_str("need")?,
        Move::Done { value, rest } => {
            text.push_str("done ")?;
            push_value(text, value)?;
            text.push_str(", ")?;
            return push_back(text, rest);
        }
        Move::Fault(_) => text.push_str("fault")?,
    }
    text.push_str("\n")?;
    Ok(())
}

/// These bytes as a chunk.
pub fn chunk_of(alloc: Global, bytes: &[u8]) -> Result<Chunk, StepError>
    ensures { IfOk result (IsChunk kind.Bytes) }
{
    if bytes.is_empty() || bytes.len() > CHUNK_LIMIT {
        return Err(StepError::OutOfTurn);
    }
    let chunk = Chunk::bytes(alloc, bytes)?;
    Ok(chunk)
}
