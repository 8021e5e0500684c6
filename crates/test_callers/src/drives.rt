// A word with a site as a statement, driven over a world in memory.
use crate::leaf_runs::{Leaf, LeafWord, use_of};
use crate::lines::StepError;
use crate::sites::{Member, site_of, world_of};
use cd_elem::CHUNK_LIMIT;
use cd_node::sound_leaves;
use cd_run::{Buffers, Ended, finish, run_node};
use cd_scope::Scope;
use cd_world::{Event, Fail, MemoryWorld};
use std::alloc::Global;

/// How a run ended, and a line for each call on the outside.
#[derive(Drop)]
pub struct Driven {
    pub ended: Ended,
    pub calls: String,
}

fn push_event(text: &mut String, event: &Event) -> Result<(), StepError> {
    match event {
        Event::OpenedRead(_, _) | Event::Created(_, _) | Event::Marked(_, _) => {
            text.push_str("opened\n")?
        }
        Event::Gave(_, bytes) => {
            text.push_str("gave ")?;
            for byte in bytes.as_slice() {
                text.push(char::from(*byte))?;
            }
            text.push_str("\n")?;
        }
        Event::GaveEnd(_) => text.push_str("gave the end\n")?,
        Event::Wrote(_, _) => text.push_str("wrote\n")?,
        Event::Closed(_) => text.push_str("closed\n")?,
        Event::OpenFailed(_)
        | Event::ReadFailed(_)
        | Event::WriteFailed(_)
        | Event::CloseFailed(_) => text.push_str("failed\n")?,
    }
    Ok(())
}

/// A line for each call so far.
pub fn calls_of(alloc: Global, world: &MemoryWorld) -> Result<String, StepError> {
    let mut text = String::from_str(alloc, "\n")?;
    for event in world.log().as_slice() {
        push_event(&mut text, event)?;
    }
    Ok(text)
}

/// Runs a word at site 1 as a statement, on the file `f` or a standard stream, with reads of at most so many bytes and a
/// limit on what is read.
pub fn drive(
    alloc: Global,
    word: LeafWord,
    held: &str,
    failing: Option<Fail>,
    size: usize,
    limit: u64,
) -> Result<Driven, StepError> {
    if size == 0 || size > CHUNK_LIMIT || limit == u64::MAX {
        return Err(StepError::OutOfTurn);
    }
    let member = Member {
        name: "f",
        bytes: held,
        cuts: &[],
        failing,
    };
    let mut world = world_of(alloc, &[member])?;
    let sites = [site_of(alloc, use_of(word), "f")?];
    let mut left = [limit + 1, limit + 1];
    let mut buffers = Buffers::new(alloc)?;
    let mut scope = Scope::new(alloc, 1)?;
    sound_leaves();
    let leaf = Leaf::new(word, &sites[0]);
    let answer = run_node(
        alloc,
        leaf,
        &mut world,
        &sites,
        &mut scope,
        &mut buffers,
        &mut left,
        size,
    );
    let ended = finish(&mut world, scope, answer.map(drop));
    match calls_of(alloc, &world) {
        Ok(calls) => Ok(Driven { ended, calls }),
        Err(error) => {
            drop(ended);
            Err(error)
        }
    }
}
