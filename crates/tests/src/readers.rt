// Many sites that read one file, in a scope over a world in memory.
use cd_elem::{Items, NoMemory, Site};
use cd_scope::{Finished, Scope};
use cd_typed::SiteUse;
use cd_world::{MemoryFiles, MemoryWorld};
use std::alloc::Global;
use test_callers::{file_of, lacks_memory, site_of};

/// The empty file `r`.
fn world_of(alloc: Global) -> Result<MemoryWorld, NoMemory> {
    let mut files: MemoryFiles = Items::new(alloc);
    let file = file_of(alloc, "r", None)?;
    files.push(file).map_err(|_| NoMemory)?;
    MemoryWorld::new(alloc, files)
}

/// Opens `r` for the sites from 1 to a count, leaves each to the end, and ends the scope.
pub fn many_readers(alloc: Global, count: u32) -> Result<Finished, NoMemory> {
    let mut world = world_of(alloc)?;
    let info = site_of(alloc, SiteUse::Reading, "r")?;
    let mut scope = Scope::new(alloc, count)?;
    let mut short = false;
    for number in 0..count {
        let answer = scope.acquire(&mut world, Site(number + 1), &info);
        short = short || lacks_memory(&answer);
        if let Ok(ticket) = answer {
            scope.leave(ticket);
        }
    }
    let finished = scope.finish(&mut world);
    if short {
        drop(finished);
        return Err(NoMemory);
    }
    Ok(finished)
}
