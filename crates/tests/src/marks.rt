// Two marks in a scope over a world in memory.
ghost use Rattle.std.specs.Prelude.{◌≡◌, ℕ, List};
ghost use Rattle.cd_meaning.specs.Places.{Place};
ghost use Rattle.cd_world.specs.Live.{Open};
ghost use Rattle.cd_world.specs.Memory.{live_in};
ghost use Rattle.cd_scope.specs.State.{held_in};
ghost use Rattle.cd_scope.specs.Table.{IsHeldBy, IsOpen};

use cd_elem::{Items, NoMemory, Site};
use cd_scope::{Finished, Scope, Ticket};
use cd_typed::SiteUse;
use cd_world::{Fail, MemoryFiles, MemoryWorld};
use std::alloc::Global;
use test_callers::{file_of, lacks_memory, site_of};

/// How a resource is closed before its scope ends, if at all.
#[derive(Clone, Copy)]
pub enum Release {
    Never,
    /// By its ticket.
    Ticket,
    /// By its site, after its ticket was left.
    Site,
}

/// The files `m` and `n`, and a call of one of them that fails.
fn world_of(alloc: Global, failing: Option<(&str, Fail)>) -> Result<MemoryWorld, NoMemory> {
    let mut files: MemoryFiles = Items::new(alloc);
    for name in ["m", "n"] {
        let fail = match failing {
            Some((member, fail)) if member == name => Some(fail),
            _ => None,
        };
        let file = file_of(alloc, name, fail)?;
        files.push(file).map_err(|_| NoMemory)?;
    }
    MemoryWorld::new(alloc, files)
}

/// Closes a resource of the scope, or leaves it to the end.
fn give_back(scope: &mut Scope, world: &mut MemoryWorld, ticket: Ticket, release: Release)
    requires there { IsHeldBy ticket (held_in scope.old) }
    requires open { (place : ℕ → Place) × (base : List Open) × IsOpen place base (held_in scope.old) (live_in world.old) }
    ensures { (place : ℕ → Place) (base : List Open) → IsOpen place base (held_in scope.old) (live_in world.old) → IsOpen place base (held_in scope.new) (live_in world.new) }
{
    match release {
        Release::Never => scope.leave(ticket),
        Release::Ticket => {
            let _closed = scope.release(world, ticket);
        }
        Release::Site => {
            let site = ticket.site();
            scope.leave(ticket);
            let _closed = scope.release_site(world, site);
        }
    }
}

/// Makes the marks `m` and `n`, closes the first as asked, and ends the scope.
pub fn two_marks(
    alloc: Global,
    failing: Option<(&str, Fail)>,
    release: Release,
) -> Result<Finished, NoMemory> {
    let mut world = world_of(alloc, failing)?;
    let first = site_of(alloc, SiteUse::Marking, "m")?;
    let second = site_of(alloc, SiteUse::Marking, "n")?;
    let mut scope = Scope::new(alloc, 2)?;
    let one = scope.acquire(&mut world, Site(1), &first);
    let two = scope.acquire(&mut world, Site(2), &second);
    let short = lacks_memory(&one) || lacks_memory(&two);
    if let Ok(ticket) = two {
        scope.leave(ticket);
    }
    if let Ok(ticket) = one {
        give_back(&mut scope, &mut world, ticket, release);
    }
    let finished = scope.finish(&mut world);
    if short {
        drop(finished);
        return Err(NoMemory);
    }
    Ok(finished)
}
