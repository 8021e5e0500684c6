// What the work that is timed answers for a few bytes, so that one sees it done.
ghost use Rattle.cd_elem.specs.declared.kind.Sort.TheVariants as sort;
ghost use Rattle.cd_elemwise.specs.Carried.{HasType};
ghost use Rattle.bench.specs.TimedTrees.{IsReady};

use crate::feed::{copied, fed, sample, summed};
use crate::steps::stepped;
use crate::trees::{chain, pipeline};
use cd_elem::{ElemWord, NoMemory};
use cd_node::Node;
use std::alloc::Global;

/// The last three of 253 bytes.
fn sampled(alloc: Global) -> Result<[u8; 3], NoMemory> {
    let bytes = sample(alloc, 253)?;
    let last = bytes.as_slice();
    Ok([last[250], last[251], last[252]])
}

/// The bytes that a word gives for `abc`, four times.
fn print_given<R: Print>(rt: &R, alloc: Global, name: &str, word: ElemWord) -> anyhow::Result<()>
    requires { HasType word sort.Bytes }
{
    let given = fed(alloc, word, b"abc", 4)?;
    println!(rt; "{name} {given}")?;
    Ok(())
}

/// The bytes that a tree gives or writes for `abc`, four times.
fn print_stepped<R: Print>(rt: &R, alloc: Global, name: &str, tree: Node) -> anyhow::Result<()>
    requires { IsReady tree }
{
    let mut tree = tree;
    let stepped = stepped(alloc, &mut tree, b"abc", 4);
    tree.give_up();
    let count = stepped?;
    println!(rt; "{name} {count}")?;
    Ok(())
}

/// A line for each kind of work.
pub fn print_answers<R: Print>(rt: &R, alloc: Global) -> anyhow::Result<()> {
    let [first, second, third] = sampled(alloc)?;
    println!(rt; "sample {first} {second} {third}")?;
    println!(rt; "plain {}", summed(b"\x01\x02\xff", 2))?;
    let count = copied(alloc, b"abc", 4)?;
    println!(rt; "chunk {count}")?;
    print_given(rt, alloc, "passE", ElemWord::PassE)?;
    print_given(rt, alloc, "repeatE 2", ElemWord::RepeatE(2))?;
    print_given(rt, alloc, "takeE 2", ElemWord::TakeE(2))?;
    print_given(rt, alloc, "takeE 0", ElemWord::TakeE(0))?;
    print_given(rt, alloc, "headE", ElemWord::HeadE)?;
    print_stepped(rt, alloc, "pipeline", pipeline(alloc)?)?;
    print_stepped(rt, alloc, "chain 1", chain(alloc, 1)?)?;
    print_stepped(rt, alloc, "chain 5", chain(alloc, 5)?)
}
