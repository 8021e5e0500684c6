// How the sites of a tree are read, and what comes to it.
ghost use Rattle.std.specs.Prelude.{◌≡◌, ◌⊎◌, Option, IfOk, IfSome};
ghost use Rattle.cd_world.specs.declared.event.Use.TheVariants.{Reading};
ghost use Rattle.cd_world.specs.Live.{IsLive};
ghost use Rattle.cd_world.specs.Memory.{live_in};
ghost use Rattle.cd_node.specs.declared.protocol.NodeInput.{NodeInput as Input};
ghost use Rattle.cd_run.specs.Paused.{IsTelling};

use crate::given::Given;
use cd_elem::{CHUNK_LIMIT, Site};
use cd_node::NodeInput;
use cd_run::{Lists, RunFault, read_site};
use cd_world::{Descriptor, MemoryWorld};
use std::alloc::Global;

/// More sites than any row has.
const SITES: usize = 8;

/// How many bytes a read asks for at most, how many may still be read of each site, and one more, and what comes to the
/// tree.
#[derive(Drop)]
pub struct Reads<'a> {
    size: usize,
    left: [u64; SITES],
    pub coming: Given<'a>,
}

impl<'a> Reads<'a> {
    pub fn new(size: usize, limit: u64, coming: Given<'a>) -> Reads<'a> {
        Reads {
            size,
            left: [limit.saturating_add(1); SITES],
            coming,
        }
    }

    /// Reads a site; None where there is nothing more to be read.
    pub fn read(
        &mut self,
        alloc: Global,
        world: &mut MemoryWorld,
        site: Site,
        from: Descriptor,
    ) -> Result<Option<NodeInput>, RunFault>
        requires readable { (from.0 ≡ 0) ⊎ IsLive Reading from (live_in world.old) }
        ensures live { live_in world.new ≡ live_in world.old }
        ensures telling { IfOk result (λ (told : Option Input). IfSome told IsTelling) }
    {
        if self.size == 0 || self.size > CHUNK_LIMIT {
            return Ok(None);
        }
        match self.left.get(site.0 as usize) {
            Some(more) if *more > 0 => {}
            _ => return Ok(None),
        }
        let mut lists = Lists::new(alloc);
        let told = read_site(
            alloc,
            world,
            &mut lists,
            &mut self.left,
            site,
            from,
            self.size,
        )?;
        Ok(Some(told))
    }
}
