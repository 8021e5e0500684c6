// Writes of a site.
ghost use Rattle.std.specs.Prelude.{◌≡◌, ◌⊎◌, ℕ, List, map, Contains, IsTrue};
ghost use Rattle.cd_meaning.specs.Stream.{Put};
ghost use Rattle.cd_world.specs.declared.event.Use.TheVariants.{Writing};
ghost use Rattle.cd_world.specs.Live.{Open, IsLive};
ghost use Rattle.cd_scope.specs.declared.table.Held.{Held};
ghost use Rattle.cd_scope.specs.Calls.{held_at};
ghost use Rattle.cd_scope.specs.Due.{Setting};
ghost use Rattle.cd_scope.specs.Table.{IsOpen};
ghost use Rattle.cd_scope.specs.Uses.{WritesAt};
ghost use Rattle.cd_run.specs.Ends.{HasFault, Moves};
ghost use Rattle.cd_run.specs.Going.{outside};

use crate::fault::RunFault;
use cd_elem::Site;
use cd_world::{Descriptor, World, WorldError};

/// Writes all of these bytes of a site.
pub fn write_all<W: World>(
    world: &mut W,
    site: Site,
    to: Descriptor,
    bytes: &[u8],
) -> Result<(), RunFault>
    requires writable { (to.0 ≡ 1) ⊎ IsLive Writing to (W.live world.old) }
    ensures live { W.live world.new ≡ W.live world.old }
    ensures cause { HasFault (W.faults world.old) (W.faults world.new) result }
    ensures told { IsTrue W.tells_log → (g : Setting) (base : List Open) (t : List Held) → g.tells ≡ W.tells_files → IsOpen g.place base t (W.live world.old) → WritesAt (g.place site.0) to.0 (Contains t (held_at site.0 to))
        → Moves g t t result (map (Put site.0) bytes.now) (outside (W.log world.old) (W.files world.old)) (outside (W.log world.new) (W.files world.new)) }
{
    let mut done = 0;
    while done < bytes.len() {
        match world.write(to, &bytes[done..]) {
            Ok(count) => done += count,
            Err(WorldError::Failed) => return Err(RunFault::WriteFault { site }),
            Err(WorldError::NoMemory) => return Err(RunFault::NoMemory),
        }
    }
    Ok(())
}
