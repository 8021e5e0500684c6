// The work that is timed.
ghost use Rattle.std.specs.Prelude.{◌≡◌, ◌<◌, ◌≤◌, ◌+◌, ◌*◌, ◌%◌, ◌^◌, IfOk, MatchOption, Some, length, sum};
ghost use Rattle.cd_elem.specs.Limits.{chunk_limit};
ghost use Rattle.cd_elem.specs.declared.kind.Sort.TheVariants as sort;
ghost use Rattle.cd_step.specs.Parts.{Answers, Wait};
ghost use Rattle.cd_elemwise.specs.Carried.{HasType, kind_of};
ghost use Rattle.cd_elemwise.specs.Stages.{seen_stage, stage_fits};

use cd_elem::{ByteList, Chunk, ElemWord, Items, NoMemory, Sort};
use cd_elemwise::{ElemStage, elem_stage};
use cd_step::{Input, Move, Stage};
use std::alloc::Global;

/// So many bytes, the numbers from 0 to 250 again and again.
pub fn sample(alloc: Global, len: usize) -> Result<ByteList, NoMemory>
    ensures { IfOk result (λ bytes. length bytes ≡ len) }
{
    let mut bytes = Items::new(alloc);
    for place in 0..len {
        if bytes.push((place % 251) as u8).is_err() {
            return Err(NoMemory);
        }
    }
    Ok(bytes)
}

/// The sum of the bytes and of what was before, which wraps.
fn sum_on(before: u64, bytes: &[u8]) -> u64
    ensures { result ≡ (before + sum bytes.now) % 2 ^ 64 }
{
    let mut total = before;
    for byte in bytes {
        total = total.wrapping_add(u64::from(*byte));
    }
    total
}

/// A plain pass over the bytes, so many times: their sum, which wraps.
pub fn summed(bytes: &[u8], rounds: u32) -> u64
    ensures { result ≡ rounds * sum bytes.now % 2 ^ 64 }
{
    let mut total = 0;
    for _ in 0..rounds {
        total = sum_on(total, bytes);
    }
    total
}

/// The bytes copied into a chunk, so many times: how many were copied.
pub fn copied(alloc: Global, bytes: &[u8], rounds: u32) -> Result<u64, NoMemory>
    requires some { 0 < length bytes.now }
    requires most { length bytes.now ≤ chunk_limit }
    ensures { IfOk result (λ count. count ≡ rounds * length bytes.now) }
{
    let mut count = 0_u64;
    for _ in 0..rounds {
        let chunk = Chunk::bytes(alloc, bytes)?;
        count += chunk.len() as u64;
    }
    Ok(count)
}

/// Steps until the stage asks or ends, and counts the bytes that it gives. The stage, where it asks.
fn settle(
    alloc: Global,
    mut stage: ElemStage,
    first: Input,
    given: &mut u64,
) -> Result<Option<ElemStage>, NoMemory>
    requires fit { stage_fits stage }
    requires answers { Answers (seen_stage stage) first }
    ensures fit { IfOk result (λ asks. MatchOption asks (Unit {0}) stage_fits) }
    ensures waits { IfOk result (λ asks. MatchOption asks (Unit {0}) (λ e. (seen_stage e).at ≡ Wait)) }
    ensures takes { IfOk result (λ asks. MatchOption asks (Unit {0}) (λ e. (seen_stage e).takes ≡ (seen_stage stage).takes)) }
{
    let mut input = first;
    for _ in 0..u64::MAX {
        match stage.step(alloc, input)? {
            Move::Emit(chunk) => {
                *given = given.saturating_add(chunk.len() as u64);
                input = Input::Next;
            }
            Move::Need => return Ok(Some(stage)),
            Move::Done { .. } | Move::Fault(_) => return Ok(None),
        }
    }
    Ok(None)
}

/// A stage of the word that asks, where it does.
fn started(alloc: Global, word: ElemWord, given: &mut u64) -> Result<Option<ElemStage>, NoMemory>
    requires { HasType word sort.Bytes }
    ensures fit { IfOk result (λ asks. MatchOption asks (Unit {0}) stage_fits) }
    ensures waits { IfOk result (λ asks. MatchOption asks (Unit {0}) (λ e. (seen_stage e).at ≡ Wait)) }
    ensures takes { IfOk result (λ asks. MatchOption asks (Unit {0}) (λ e. (seen_stage e).takes ≡ Some (kind_of sort.Bytes))) }
{
    let stage = elem_stage(alloc, &word, Sort::Bytes)?;
    settle(alloc, stage, Input::Start, given)
}

/// The bytes fed to the word's stage as one chunk, so many times, to a new stage after each that ended: how many
/// bytes it gave.
pub fn fed(alloc: Global, word: ElemWord, bytes: &[u8], rounds: u32) -> Result<u64, NoMemory>
    requires typed { HasType word sort.Bytes }
    requires some { 0 < length bytes.now }
    requires most { length bytes.now ≤ chunk_limit }
{
    let mut given = 0;
    let mut waiting = None;
    for _ in 0..rounds {
        let asks = match waiting {
            Some(stage) => Some(stage),
            None => started(alloc, word, &mut given)?,
        };
        waiting = match asks {
            Some(stage) => {
                let chunk = Chunk::bytes(alloc, bytes)?;
                settle(alloc, stage, Input::Chunk(chunk), &mut given)?
            }
            None => None,
        };
    }
    Ok(given)
}
