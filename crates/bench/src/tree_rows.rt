// Rows of trees. Making a tree and giving it up are not timed.
ghost use Rattle.std.specs.Prelude.{◌<◌, ◌≤◌, length};
ghost use Rattle.cd_elem.specs.Limits.{chunk_limit};
ghost use Rattle.cd_node.specs.Nodes.{HasNoTicket};
ghost use Rattle.cd_node.specs.Trees.{seen};
ghost use Rattle.bench.specs.TimedTrees.{IsReady};

use crate::row::{ROUNDS, print_row, rate};
use crate::steps::stepped;
use crate::trees::{chain, pipeline};
use cd_node::Node;
use std::alloc::Global;
use std::rt::Clock;
use std::time::{Duration, Instant};

/// How often a chunk comes to a member of a chain, all members together.
const VISITS: u32 = 4_000_000;

/// What the steps of a tree took, and how many bytes it gave or wrote.
#[derive(Drop)]
struct Timing {
    taken: Duration,
    count: u64,
}

fn time_steps<R: Clock>(
    rt: &R,
    alloc: Global,
    tree: &mut Node,
    bytes: &[u8],
    rounds: u32,
) -> anyhow::Result<Timing>
    requires some { 0 < length bytes.now }
    requires most { length bytes.now ≤ chunk_limit }
    requires ready { IsReady tree.old }
    ensures no_ticket { HasNoTicket (seen tree.new) }
{
    let start = Instant::now(rt)?;
    let count = stepped(alloc, tree, bytes, rounds)?;
    let taken = start.elapsed(rt)?;
    Ok(Timing { taken, count })
}

/// Times so many rounds through a tree, and gives it up.
fn timed<R: Clock>(
    rt: &R,
    alloc: Global,
    tree: Node,
    bytes: &[u8],
    rounds: u32,
) -> anyhow::Result<Timing>
    requires some { 0 < length bytes.now }
    requires most { length bytes.now ≤ chunk_limit }
    requires ready { IsReady tree }
{
    let mut tree = tree;
    let timing = time_steps(rt, alloc, &mut tree, bytes, rounds);
    tree.give_up();
    timing
}

/// The row of the pipeline: the bytes a second.
pub fn pipeline_row<R: Print + Clock>(rt: &R, alloc: Global, bytes: &[u8]) -> anyhow::Result<()>
    requires some { 0 < length bytes.now }
    requires most { length bytes.now ≤ chunk_limit }
{
    let tree = pipeline(alloc)?;
    let timing = timed(rt, alloc, tree, bytes, ROUNDS)?;
    print_row(rt, "pipeline", bytes.len(), timing.taken, timing.count)
}

/// The row of a chain: the steps a second, those of all members together. In a round each member makes two.
fn chain_row<R: Print + Clock>(
    rt: &R,
    alloc: Global,
    bytes: &[u8],
    members: u32,
) -> anyhow::Result<()>
    requires some { 0 < length bytes.now }
    requires most { length bytes.now ≤ chunk_limit }
    requires members { 0 < members }
{
    let tree = chain(alloc, members)?;
    let rounds = VISITS / members;
    let timing = timed(rt, alloc, tree, bytes, rounds)?;
    let steps = 2 * u64::from(rounds) * u64::from(members);
    println!(rt;
        "chain {members} {} {} {}",
        bytes.len(),
        rate(steps, timing.taken),
        timing.count
    )?;
    Ok(())
}

/// The rows of chains of `passE`, through which a chunk of these bytes goes.
pub fn chain_rows<R: Print + Clock>(rt: &R, alloc: Global, bytes: &[u8]) -> anyhow::Result<()>
    requires some { 0 < length bytes.now }
    requires most { length bytes.now ≤ chunk_limit }
{
    chain_row(rt, alloc, bytes, 10)?;
    chain_row(rt, alloc, bytes, 100)?;
    chain_row(rt, alloc, bytes, 1_000)?;
    chain_row(rt, alloc, bytes, 4_000)
}
