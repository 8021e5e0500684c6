// Trees of element words on bytes. They are made by hand, since what a statement runs takes nothing.
ghost use Rattle.std.specs.Prelude.{◌≡◌, IfOk, true};
ghost use Rattle.test_callers.specs.Trees.{IsByteNode};

use crate::lines::StepError;
use crate::pairs::reads_bytes;
use crate::trees::script_of;
use cd_elem::{ElemWord, Join, Pipe, Script, Sort, Stmt, Word};
use cd_node::Node;
use std::alloc::Global;

/// A tree on bytes, and whether it may stand before another one in a sequence.
pub struct OnBytes {
    pub node: Node,
    pub exact: bool,
}

/// What holds pipes together.
#[derive(Clone, Copy)]
enum Row {
    Chain,
    Sequence,
}

impl OnBytes {
    fn give_up(self)
        requires { IsByteNode self }
    {
        let OnBytes { node, exact: _ } = self;
        node.give_up();
    }
}

fn word_on_bytes(alloc: Global, word: ElemWord) -> Result<OnBytes, StepError>
    ensures { IfOk result IsByteNode }
{
    if !reads_bytes(word) {
        return Err(StepError::NoTree);
    }
    let node = Node::elem(alloc, &word, Sort::Bytes)?;
    Ok(OnBytes { node, exact: true })
}

fn fused(alloc: Global, upper: OnBytes, lower: OnBytes) -> Result<OnBytes, StepError>
    requires upper { IsByteNode upper }
    requires lower { IsByteNode lower }
    ensures { IfOk result IsByteNode }
{
    let OnBytes { node: a, exact: _ } = upper;
    let OnBytes { node: b, exact: _ } = lower;
    let node = Node::fused(alloc, a, b)?;
    Ok(OnBytes { node, exact: false })
}

fn followed(alloc: Global, earlier: OnBytes, later: OnBytes) -> Result<OnBytes, StepError>
    requires earlier { IsByteNode earlier }
    requires later { IsByteNode later }
    requires exact { earlier.exact ≡ true }
    ensures { IfOk result IsByteNode }
{
    let OnBytes { node: a, exact: _ } = earlier;
    let OnBytes { node: b, exact } = later;
    let node = Node::followed(alloc, a, b)?;
    Ok(OnBytes { node, exact })
}

fn joined(alloc: Global, row: Row, first: OnBytes, second: OnBytes) -> Result<OnBytes, StepError>
    requires first { IsByteNode first }
    requires second { IsByteNode second }
    ensures { IfOk result IsByteNode }
{
    match row {
        Row::Chain => fused(alloc, first, second),
        Row::Sequence => {
            if first.exact {
                followed(alloc, first, second)
            } else {
                first.give_up();
                second.give_up();
                Err(StepError::NoTree)
            }
        }
    }
}

#[cycle(on_bytes)]
fn pipe_on_bytes(alloc: Global, pipe: &Pipe) -> Result<OnBytes, StepError>
    ensures { IfOk result IsByteNode }
{
    match pipe {
        Pipe::Word(Word::Elem(word)) => word_on_bytes(alloc, *word),
        Pipe::Chain(Join::Plain, members) => row_on_bytes(alloc, Row::Chain, members.as_slice()),
        Pipe::Sequence(parts) => row_on_bytes(alloc, Row::Sequence, parts.as_slice()),
        _ => Err(StepError::NoTree),
    }
}

#[cycle(on_bytes)]
fn row_on_bytes(alloc: Global, row: Row, pipes: &[Pipe]) -> Result<OnBytes, StepError>
    ensures { IfOk result IsByteNode }
{
    if pipes.is_empty() {
        return Err(StepError::NoTree);
    }
    let mut whole = pipe_on_bytes(alloc, &pipes[0])?;
    for pipe in &pipes[1..] {
        match pipe_on_bytes(alloc, pipe) {
            Ok(next) => match joined(alloc, row, whole, next) {
                Ok(more) => whole = more,
                Err(error) => return Err(error),
            },
            Err(error) => {
                whole.give_up();
                return Err(error);
            }
        }
    }
    Ok(whole)
}

fn first_on_bytes(alloc: Global, script: &Script) -> Result<OnBytes, StepError>
    ensures { IfOk result IsByteNode }
{
    match script.statements().get(0) {
        Some(Stmt::Run(pipe)) => pipe_on_bytes(alloc, pipe),
        _ => Err(StepError::NoTree),
    }
}

/// The tree of what the first statement of a script runs, on bytes, where it has one.
pub fn tree_on_bytes(alloc: Global, text: &str) -> Result<OnBytes, StepError>
    ensures { IfOk result IsByteNode }
{
    let script = script_of(alloc, text)?;
    let made = first_on_bytes(alloc, &script);
    drop(script);
    made
}
