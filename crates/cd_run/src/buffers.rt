// Memory that goes round in a run.
ghost use Rattle.std.specs.Prelude.{◌≡◌, ◌⊎◌, ◌≤◌, ◌++◌, ℕ, List, map, take, length, Contains, IsTrue, IfOk};
ghost use Rattle.cd_meaning.specs.Places.{Place};
ghost use Rattle.cd_meaning.specs.Stream.{Put, Sort};
ghost use Rattle.cd_world.specs.declared.event.Use.TheVariants.{Writing};
ghost use Rattle.cd_world.specs.Live.{Open, IsLive};
ghost use Rattle.cd_scope.specs.declared.table.Held.{Held};
ghost use Rattle.cd_scope.specs.Calls.{held_at};
ghost use Rattle.cd_scope.specs.Due.{Setting};
ghost use Rattle.cd_scope.specs.Table.{IsOpen};
ghost use Rattle.cd_scope.specs.Uses.{WritesAt};
ghost use Rattle.cd_run.specs.Ends.{HasFault};
ghost use Rattle.cd_run.specs.Gathers.{IsFor, MayWrite, MovesTo, waiting};
ghost use Rattle.cd_run.specs.Going.{outside};

use crate::fault::RunFault;
use crate::gathered::Gathered;
use cd_elem::{Chunk, Site};
use cd_world::{Descriptor, World};
use std::alloc::{AllocError, Global};
use std::mem;

/// Lists of chunks that were written, for the next reads.
#[derive(Drop)]
pub struct Lists {
    // what the next read fills, where it has the length
    long: Vec<u8>,
    // what a read gives that was short
    short: Vec<u8>,
}

impl Lists {
    pub fn new(alloc: Global) -> Lists {
        Lists {
            long: Vec::new(alloc),
            short: Vec::new(alloc),
        }
    }

    /// A list of this length to read into.
    pub fn to_fill(&mut self, alloc: Global, len: usize) -> Result<Vec<u8>, AllocError>
        ensures { IfOk result (λ list. length list.items ≡ len) }
    {
        let kept = mem::replace(&mut self.long, Vec::new(alloc));
        if kept.len() == len {
            return Ok(kept);
        }
        drop(kept);
        vec![in alloc; 0u8; len]
    }

    /// What a read gave: the first `count` bytes of the list that it filled. Where these are not all, they are copied, and
    /// the list is kept for the next read.
    pub fn given(&mut self, alloc: Global, filled: Vec<u8>, count: usize) -> Vec<u8>
        requires { count ≤ length filled.items }
        ensures { result.items ≡ take count filled.items }
    {
        if count == filled.len() {
            return filled;
        }
        let mut list = mem::replace(&mut self.short, Vec::new(alloc));
        list.clear();
        match list.extend_from_slice(&filled[..count]) {
            Ok(()) => {
                self.long = filled;
                list
            }
            Err(_) => {
                let mut filled = filled;
                filled.truncate(count);
                filled
            }
        }
    }

    /// Keeps a list.
    pub fn keep(&mut self, list: Vec<u8>) {
        if list.len() > self.long.len() {
            self.long = list;
        } else {
            self.short = list;
        }
    }

    /// Keeps the list of a chunk of bytes.
    fn keep_chunk(&mut self, chunk: Chunk) {
        match chunk.into_bytes() {
            Ok(bytes) => self.keep(bytes.into_vec()),
            Err(chunk) => drop(chunk),
        }
    }
}

/// What the statements of a run share: the bytes that wait to be written, and the lists for reads.
#[derive(Drop)]
pub struct Buffers {
    pub(crate) gathered: Gathered,
    pub(crate) lists: Lists,
}

impl Buffers {
    pub fn new(alloc: Global) -> Result<Buffers, AllocError> {
        Ok(Buffers {
            gathered: Gathered::new(alloc)?,
            lists: Lists::new(alloc),
        })
    }

    /// Takes a chunk that is due behind the bytes that wait: to wait too, or to be written.
    pub(crate) fn put<W: World>(
        &mut self,
        world: &mut W,
        site: Site,
        to: Descriptor,
        chunk: Chunk,
    ) -> Result<(), RunFault>
        requires bytes { chunk.0 ≡ Sort.Bytes }
        requires waits { MayWrite (W.live world.old) self.old.gathered }
        requires writable { (to.0 ≡ 1) ⊎ IsLive Writing to (W.live world.old) }
        ensures stays { (place : ℕ → Place) (t : List Held) → IsFor place t self.old.gathered → WritesAt (place site.0) to.0 (Contains t (held_at site.0 to)) → IsFor place t self.new.gathered }
        ensures live { W.live world.new ≡ W.live world.old }
        ensures cause { HasFault (W.faults world.old) (W.faults world.new) result }
        ensures told { IsTrue W.tells_log → (g : Setting) (base : List Open) (t : List Held) → g.tells ≡ W.tells_files → IsOpen g.place base t (W.live world.old) → IsFor g.place t self.old.gathered
            → WritesAt (g.place site.0) to.0 (Contains t (held_at site.0 to))
            → MovesTo g t result (waiting self.old.gathered ++ map (Put site.0) chunk.1) (waiting self.new.gathered) (outside (W.log world.old) (W.files world.old)) (outside (W.log world.new) (W.files world.new)) }
    {
        let answer = match chunk.as_bytes() {
            Some(bytes) => self.gathered.put(world, site, to, bytes),
            None => unreachable!(),
        };
        self.lists.keep_chunk(chunk);
        answer
    }
}
