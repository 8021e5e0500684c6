// What a word does with the chunk that it has.
ghost use Rattle.std.specs.Prelude.{◌≡◌, ◌+◌, ◌<◌, ◌≤◌, ◌/◌, min, ℕ, List, IfOk, OnErr, IsTrue, length, sum};
ghost use Rattle.cd_elem.specs.Chunks.{is_cut};
ghost use Rattle.cd_elem.specs.Limits.{chunk_limit, repeat_limit};
ghost use Rattle.cd_elem.specs.declared.kind.Sort.TheVariants as sort;
ghost use Rattle.cd_elemwise.specs.Carried.{Doing};
ghost use Rattle.cd_elemwise.specs.Plans.{IsPlan};
ghost use Rattle.cd_elemwise.specs.Stages.{IsPlain, StateFits, IsSameWord};
ghost use Rattle.cd_elemwise.specs.declared.state.WordState.TheVariants as state;

use crate::chunks::{front_of, last_of, repeated_of, single_at, sum_of};
use crate::class_table::ClassTable;
use crate::state::{WordState, present_of};
use cd_elem::{CHUNK_LIMIT, Chunk, NoMemory, Value};
use std::alloc::Global;

/// What a word does next with the elements of its chunk.
#[derive(Drop)]
pub enum ChunkPlan {
    /// It reads them all, and needs more.
    Need,
    /// The first so many pass on as they are.
    Pass(usize),
    /// It gives this for the first so many.
    Give(Chunk, usize),
    /// It ends behind the first so many.
    End(Value, usize),
}

// ---- words that give elements

fn take(left: u64, chunk: &Chunk) -> (u64, ChunkPlan)
    requires { IsTrue (is_cut chunk.now.0) }
    ensures { (l : List ℕ) → IsPlan chunk.now.0 (Doing (state.Take left) l) chunk.now.1 result.1 (Doing (state.Take result.0) l) }
{
    let len = chunk.len();
    if left == 0 {
        return (0, ChunkPlan::End(Value::Unit, 0));
    }
    if len as u64 <= left {
        (left - len as u64, ChunkPlan::Pass(len))
    } else {
        (0, ChunkPlan::Pass(left as usize))
    }
}

#[inline(never)]
fn take_while(table: &ClassTable, chunk: &Chunk) -> ChunkPlan
    requires { IsTrue (is_cut chunk.now.0) }
    ensures { (l : List ℕ) → IsPlan chunk.now.0 (Doing (state.TakeWhile table.now) l) chunk.now.1 result (Doing (state.TakeWhile table.now) l) }
{
    let count = front_of(table, chunk);
    let len = chunk.len();
    if count == 0 {
        ChunkPlan::End(Value::Unit, 0)
    } else {
        ChunkPlan::Pass(count)
    }
}

/// How many of these elements make a chunk, each so many times.
fn fitting(times: u64, len: usize) -> usize
    requires some { 0 < times }
    ensures { result ≡ min len (chunk_limit / times) }
{
    len.min(CHUNK_LIMIT / times as usize)
}

#[inline(never)]
fn repeat(alloc: Global, times: u64, chunk: &Chunk) -> Result<ChunkPlan, NoMemory>
    requires cut { IsTrue (is_cut chunk.now.0) }
    requires most { times ≤ repeat_limit }
    ensures { IfOk result (λ plan. (l : List ℕ) → IsPlan chunk.now.0 (Doing (state.Repeat times) l) chunk.now.1 plan (Doing (state.Repeat times) l)) }
{
    if times == 0 {
        return Ok(ChunkPlan::Need);
    }
    let count = fitting(times, chunk.len());
    let made = repeated_of(alloc, times as usize, count, chunk)?;
    Ok(ChunkPlan::Give(made, count))
}

// ---- words that skip elements

fn drop(left: u64, chunk: &Chunk) -> (u64, ChunkPlan)
    requires { IsTrue (is_cut chunk.now.0) }
    ensures { (l : List ℕ) → IsPlan chunk.now.0 (Doing (state.Drop left) l) chunk.now.1 result.1 (Doing (state.Drop result.0) l) }
{
    let len = chunk.len();
    if (len as u64) < left {
        (left - len as u64, ChunkPlan::Need)
    } else {
        (0, ChunkPlan::End(Value::Unit, left as usize))
    }
}

#[inline(never)]
fn drop_while(table: &ClassTable, chunk: &Chunk) -> ChunkPlan
    requires { IsTrue (is_cut chunk.now.0) }
    ensures { (l : List ℕ) → IsPlan chunk.now.0 (Doing (state.DropWhile table.now) l) chunk.now.1 result (Doing (state.DropWhile table.now) l) }
{
    let count = front_of(table, chunk);
    if count == chunk.len() {
        ChunkPlan::Need
    } else {
        ChunkPlan::End(Value::Unit, count)
    }
}

#[inline(never)]
fn all(table: &ClassTable, answer: bool, chunk: &Chunk) -> ChunkPlan
    requires { IsTrue (is_cut chunk.now.0) }
    ensures { (l : List ℕ) → IsPlan chunk.now.0 (Doing (state.All table.now answer) l) chunk.now.1 result (Doing (state.All table.now answer) l) }
{
    let count = front_of(table, chunk);
    if count == chunk.len() {
        ChunkPlan::Need
    } else {
        ChunkPlan::End(Value::Bool(answer), count + 1)
    }
}

// ---- words of the first element

#[inline(never)]
fn head(alloc: Global, chunk: &Chunk) -> Result<ChunkPlan, NoMemory>
    requires cut { IsTrue (is_cut chunk.now.0) }
    requires some { 0 < length chunk.now.1 }
    ensures { IfOk result (λ plan. (l : List ℕ) → IsPlan chunk.now.0 (Doing state.Head l) chunk.now.1 plan (Doing state.Head l)) }
{
    let value = present_of(alloc, single_at(chunk, 0))?;
    Ok(ChunkPlan::End(value, 1))
}

#[inline(never)]
fn peek(alloc: Global, chunk: &Chunk) -> Result<ChunkPlan, NoMemory>
    requires cut { IsTrue (is_cut chunk.now.0) }
    requires some { 0 < length chunk.now.1 }
    ensures { IfOk result (λ plan. (l : List ℕ) → IsPlan chunk.now.0 (Doing state.Peek l) chunk.now.1 plan (Doing state.Peek l)) }
{
    let value = present_of(alloc, single_at(chunk, 0))?;
    Ok(ChunkPlan::End(value, 0))
}

/// What a word does with a chunk of a cut stream that stays as it is, and what it then carries. The word keeps no list.
#[inline(never)]
pub fn planned(alloc: Global, state: &mut WordState, chunk: &Chunk) -> Result<ChunkPlan, NoMemory>
    requires plain { IsPlain state.old }
    requires fits { StateFits state.old chunk.now.0 chunk.now.0 }
    ensures law { IfOk result (λ plan. (l : List ℕ) → IsPlan chunk.now.0 (Doing state.old l) chunk.now.1 plan (Doing state.new l)) }
    ensures same { IsSameWord state.old state.new }
    ensures err { OnErr result (state.new ≡ state.old) }
{
    let len = chunk.len();
    match state {
        WordState::Pass => Ok(ChunkPlan::Pass(len)),
        WordState::Take(left) => {
            let (rest, plan) = take(*left, chunk);
            *left = rest;
            Ok(plan)
        }
        WordState::TakeWhile(table) => Ok(take_while(table, chunk)),
        WordState::Repeat(times) => {
            let plan = repeat(alloc, *times, chunk)?;
            Ok(plan)
        }
        WordState::Drop(left) => {
            let (rest, plan) = drop(*left, chunk);
            *left = rest;
            Ok(plan)
        }
        WordState::DropWhile(table) => Ok(drop_while(table, chunk)),
        WordState::Head => {
            let plan = head(alloc, chunk)?;
            Ok(plan)
        }
        WordState::Peek => {
            let plan = peek(alloc, chunk)?;
            Ok(plan)
        }
        WordState::Last(last) => {
            *last = Some(last_of(chunk));
            Ok(ChunkPlan::Need)
        }
        WordState::Length(count) => {
            *count = count.saturating_add(len as u64);
            Ok(ChunkPlan::Need)
        }
        WordState::Sum(total) => {
            *total = sum_of(*total, chunk);
            Ok(ChunkPlan::Need)
        }
        WordState::All(table, answer) => Ok(all(table, *answer, chunk)),
        WordState::Null => Ok(ChunkPlan::End(Value::Bool(false), 0)),
        WordState::Filter(_) | WordState::Map(_) | WordState::Collect(_) | WordState::SinkNull =>
            unreachable!(),
    }
}
