// The trees whose steps are timed. Members of a chain are halved, as `build` of cd_build halves them.
ghost use Rattle.std.specs.Prelude.{◌<◌, IfOk};
ghost use Rattle.bench.specs.TimedTrees.{IsBack, IsFront, IsPassing, IsReady};

use crate::elements::MANY;
use cd_elem::{ElemWord, NoMemory, Site, Sort};
use cd_node::Node;
use std::alloc::Global;

/// `passE`, or a chain of so many.
pub fn passes(alloc: Global, members: u32) -> Result<Node, NoMemory>
    requires { 0 < members }
    ensures { IfOk result IsPassing }
{
    if members == 1 {
        let node = Node::elem(alloc, &ElemWord::PassE, Sort::Bytes)?;
        return Ok(node);
    }
    let half = members / 2;
    let upper = passes(alloc, half)?;
    match passes(alloc, members - half) {
        Ok(lower) => {
            let node = Node::fused(alloc, upper, lower)?;
            Ok(node)
        }
        Err(NoMemory) => {
            upper.give_up();
            Err(NoMemory)
        }
    }
}

/// `stdin | passE`, at site 1.
fn front(alloc: Global) -> Result<Node, NoMemory>
    ensures { IfOk result IsFront }
{
    let pass = passes(alloc, 1)?;
    let node = Node::fused(alloc, Node::stdin(Site(1)), pass)?;
    Ok(node)
}

/// `takeE 1099511627776 | stdout`, at site 2.
fn back(alloc: Global) -> Result<Node, NoMemory>
    ensures { IfOk result IsBack }
{
    let take = Node::elem(alloc, &ElemWord::TakeE(MANY), Sort::Bytes)?;
    let node = Node::fused(alloc, take, Node::stdout(Site(2)))?;
    Ok(node)
}

/// `stdin | passE | takeE 1099511627776 | stdout`.
pub fn pipeline(alloc: Global) -> Result<Node, NoMemory>
    ensures { IfOk result IsReady }
{
    let upper = front(alloc)?;
    match back(alloc) {
        Ok(lower) => {
            let node = Node::fused(alloc, upper, lower)?;
            Ok(node)
        }
        Err(NoMemory) => {
            upper.give_up();
            Err(NoMemory)
        }
    }
}

/// A chain of so many `passE`.
pub fn chain(alloc: Global, members: u32) -> Result<Node, NoMemory>
    requires { 0 < members }
    ensures { IfOk result IsReady }
{
    let node = passes(alloc, members)?;
    Ok(node)
}
