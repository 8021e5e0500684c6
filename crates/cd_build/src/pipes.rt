// The nodes of pipes.
ghost use Rattle.std.specs.Prelude.{◌≡◌, ◌+◌, ◌<◌, ◌^◌, ℕ, List, IfOk, IsTrue, length, map};
ghost use Rattle.cd_meaning.specs.Meaning.{mark_form};
ghost use Rattle.cd_meaning.specs.Pipes.{pipe_meaning};
ghost use Rattle.cd_types.specs.Fitting.{FitInChain, FitInSequence, Fits};
ghost use Rattle.cd_types.specs.Flows.{Sort};
ghost use Rattle.cd_types.specs.Forms.{mark_part};
ghost use Rattle.cd_types.specs.Trees.{part};
ghost use Rattle.cd_build.specs.Built.{IsBuilt};
ghost use Rattle.cd_build.specs.Builds.{AreBuilt, chain_meaning, chain_of, sequence_meaning, sequence_of};
ghost use Rattle.cd_build.specs.BuiltNodes.{IsBuiltPart};

use crate::slices::{build_sliced, halving_place};
use crate::words::build_word;
use cd_elem::{Kind, NoMemory, Pipe, Site};
use cd_node::Node;
use cd_part_types::join;
use cd_types::parts_fit;
use std::alloc::Global;

/// A node that is built, what it gives, and the number of the first site behind it.
pub struct Built {
    pub node: Node,
    pub gives: Option<Kind>,
    pub next: u32,
}

/// The node of a pipe, for what comes to it, where its first site has this number.
#[cycle(build)]
pub fn build_pipe(
    alloc: Global,
    pipe: &Pipe,
    takes: Option<Kind>,
    site: u32,
) -> Result<Built, NoMemory>
    requires built { IsBuilt pipe.now }
    requires typed { Fits takes (part pipe.now) }
    requires room { site + length (pipe_meaning pipe.now).places < 2 ^ 32 }
    ensures { IfOk result (IsBuiltPart (part pipe.now) (pipe_meaning pipe.now) takes site) }
{
    parts_fit();
    match pipe {
        Pipe::Word(word) => build_word(alloc, word, takes, site),
        Pipe::Chain(_, members) => build_chain(alloc, members.as_slice(), takes, site),
        Pipe::Sequence(parts) => build_sequence(alloc, parts.as_slice(), takes, site),
        Pipe::Mark(_, body) => build_mark(alloc, body.get(), takes, site),
        _ => unreachable!(),
    }
}

/// The node of `mark`, whose site is the first, round this body.
#[cycle(build)]
fn build_mark(alloc: Global, body: &Pipe, takes: Option<Kind>, site: u32) -> Result<Built, NoMemory>
    requires built { IsBuilt body.now }
    requires typed { Fits takes (part body.now) }
    requires room { site + 1 + length (pipe_meaning body.now).places < 2 ^ 32 }
    ensures { (name : List ℕ) → IfOk result (IsBuiltPart (mark_part name (part body.now)) (mark_form name (pipe_meaning body.now)) takes site) }
{
    let Built { node, gives, next } = build_pipe(alloc, body, takes, site + 1)?;
    let node = Node::marked(alloc, Site(site), node)?;
    Ok(Built { node, gives, next })
}

/// The node of members of a chain: one leaf where they are such a chain, and else they are cut in two, so that the tree of
/// nodes is low.
#[cycle(build)]
fn build_chain(
    alloc: Global,
    members: &[Pipe],
    takes: Option<Kind>,
    site: u32,
) -> Result<Built, NoMemory>
    requires some { 0 < length members.now }
    requires built { AreBuilt members.now }
    requires typed { FitInChain takes (map part members.now) }
    requires room { site + length (chain_meaning members.now).places < 2 ^ 32 }
    ensures { IfOk result (IsBuiltPart (chain_of members.now) (chain_meaning members.now) takes site) }
{
    if members.len() == 1 {
        return build_pipe(alloc, &members[0], takes, site);
    }
    if let Some(built) = build_sliced(alloc, members, takes, site)? {
        return Ok(built);
    }
    let (first, second) = members.split_at(halving_place(members));
    let Built {
        node: upper,
        gives: between,
        next: middle,
    } = build_chain(alloc, first, takes, site)?;
    match build_chain(alloc, second, between, middle) {
        Ok(
            Built {
                node: lower,
                gives,
                next,
            },
        ) => {
            let node = Node::fused(alloc, upper, lower)?;
            Ok(Built { node, gives, next })
        }
        Err(NoMemory) => {
            upper.give_up();
            Err(NoMemory)
        }
    }
}

/// The node of parts of a sequence, which are halved too.
#[cycle(build)]
fn build_sequence(
    alloc: Global,
    parts: &[Pipe],
    takes: Option<Kind>,
    site: u32,
) -> Result<Built, NoMemory>
    requires some { 0 < length parts.now }
    requires built { AreBuilt parts.now }
    requires typed { (k : Sort) × FitInSequence k takes (map part parts.now) }
    requires room { site + length (sequence_meaning parts.now).places < 2 ^ 32 }
    ensures { IfOk result (IsBuiltPart (sequence_of parts.now) (sequence_meaning parts.now) takes site) }
{
    if parts.len() == 1 {
        return build_pipe(alloc, &parts[0], takes, site);
    }
    let (first, second) = parts.split_at(parts.len() / 2);
    let Built {
        node: earlier,
        gives: before,
        next: middle,
    } = build_sequence(alloc, first, takes, site)?;
    match build_sequence(alloc, second, takes, middle) {
        Ok(
            Built {
                node: later,
                gives: behind,
                next,
            },
        ) => {
            let node = Node::followed(alloc, earlier, later)?;
            let gives = join(before, behind);
            Ok(Built { node, gives, next })
        }
        Err(NoMemory) => {
            earlier.give_up();
            Err(NoMemory)
        }
    }
}
