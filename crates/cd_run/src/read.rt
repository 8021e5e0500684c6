// Reads of a site.
ghost use Rattle.std.specs.Prelude.{◌≡◌, ◌⊎◌, ◌<◌, ◌≤◌, ℕ, List, Contains, IsTrue, IfOk, length, get_or};
ghost use Rattle.cd_elem.specs.Limits.{chunk_limit};
ghost use Rattle.cd_meaning.specs.Run.{Run};
ghost use Rattle.cd_meaning.specs.RunShapes.{Seen};
ghost use Rattle.cd_meaning.specs.Stream.{Value as Answer};
ghost use Rattle.cd_world.specs.declared.event.Use.TheVariants.{Reading};
ghost use Rattle.cd_world.specs.Live.{Open, IsLive};
ghost use Rattle.cd_step.specs.Parts.{Part, Reads};
ghost use Rattle.cd_scope.specs.declared.table.Held.{Held};
ghost use Rattle.cd_scope.specs.Calls.{held_at};
ghost use Rattle.cd_scope.specs.Due.{Setting};
ghost use Rattle.cd_scope.specs.Table.{IsOpen};
ghost use Rattle.cd_scope.specs.Uses.{ReadsAt};
ghost use Rattle.cd_node.specs.Nodes.{StopsWith};
ghost use Rattle.cd_run.specs.Ends.{HasFault};
ghost use Rattle.cd_run.specs.Going.{Outside, Going, outside};
ghost use Rattle.cd_run.specs.Paused.{AnyFalls, IsTelling, ReadOn};
ghost use Rattle.cd_run.specs.Statements.{within, left_run};

use crate::buffers::Lists;
use crate::fault::RunFault;
use cd_elem::{Chunk, Items, Site};
use cd_node::NodeInput;
use cd_world::{Descriptor, World, WorldError};
use std::alloc::Global;

/// How many bytes to ask for, where so many may still be read and one more: at the limit one, to learn whether there is
/// one past it.
fn room(more: u64, size: usize) -> usize
    requires { (0 < more) × (0 < size) }
    ensures some { (0 < result) × (result ≤ size) }
    ensures within { (1 < more) → result < more }
    ensures last { more ≡ 1 → result ≡ 1 }
{
    if more == 1 {
        1
    } else if (size as u64) < more {
        size
    } else {
        (more - 1) as usize
    }
}

/// Reads a site that a node waits for. `left` has for each site how many bytes may still be read of it, and one more; 0
/// once its end was told.
pub fn read_site<W: World>(
    alloc: Global,
    world: &mut W,
    lists: &mut Lists,
    left: &mut [u64],
    site: Site,
    from: Descriptor,
    size: usize,
) -> Result<NodeInput, RunFault>
    requires within { site.0 < length left.old }
    requires more { 0 < get_or left.old site.0 0 }
    requires size { (0 < size) × (size ≤ chunk_limit) }
    requires readable { (from.0 ≡ 0) ⊎ IsLive Reading from (W.live world.old) }
    ensures live { W.live world.new ≡ W.live world.old }
    ensures cause { HasFault (W.faults world.old) (W.faults world.new) result }
    ensures left { AnyFalls site.0 result left.old left.new }
    ensures telling { IfOk result IsTelling }
    ensures told { IsTrue W.tells_log → (g : Setting) (base : List Open) (t : List Held) (q : Part) → g.tells ≡ W.tells_files → g.size ≡ size → IsOpen g.place base t (W.live world.old)
        → ReadsAt (g.place site.0) from.0 (Contains t (held_at site.0 from)) → q.at ≡ Reads site.0 → StopsWith site.0 q
        → (m : Seen → Run) (k : Seen → Answer → Run) (w0 : Outside) → Going g m t left.old (within (left_run q) k) w0 (outside (W.log world.old) (W.files world.old))
        → ReadOn g m result t left.new q k w0 (outside (W.log world.new) (W.files world.new)) }
{
    let more = left[site.0 as usize];
    let Ok(mut list) = lists.to_fill(alloc, room(more, size)) else {
        return Err(RunFault::NoMemory);
    };
    match world.read(from, &mut list) {
        Ok(count) => {
            if count == 0 {
                left[site.0 as usize] = 0;
                lists.keep(list);
                return Ok(NodeInput::GaveEnd);
            }
            if more == 1 {
                return Err(RunFault::TooLong { site });
            }
            left[site.0 as usize] = more - count as u64;
            let items = lists.given(alloc, list, count);
            Ok(NodeInput::Gave(Chunk::bytes_of(Items::from_vec(items))))
        }
        Err(WorldError::Failed) => Err(RunFault::ReadFault { site }),
        Err(WorldError::NoMemory) => Err(RunFault::NoMemory),
    }
}
