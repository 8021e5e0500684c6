// A statement that runs a pipe.
ghost use Rattle.std.specs.Prelude.{◌≡◌, ◌<◌, ◌≤◌, ◌+◌, ℕ, List, Contains, IsTrue, get_or};
ghost use Rattle.cd_elem.specs.Limits.{chunk_limit};
ghost use Rattle.cd_elem.specs.declared.script.Stmt.{Stmt};
ghost use Rattle.cd_meaning.specs.Opens.{files_in};
ghost use Rattle.cd_meaning.specs.Pipes.{pipe_meaning};
ghost use Rattle.cd_meaning.specs.Places.{place_in};
ghost use Rattle.cd_meaning.specs.Run.{Run};
ghost use Rattle.cd_meaning.specs.RunShapes.{Seen};
ghost use Rattle.cd_meaning.specs.Scripts.{ScriptState, passed_sites, script_places, statement_meaning};
ghost use Rattle.cd_types.specs.Numbering.{first_site};
ghost use Rattle.cd_typed.specs.TypedScripts.{IsTyped};
ghost use Rattle.cd_world.specs.Live.{Open};
ghost use Rattle.cd_scope.specs.declared.table.Held.{Held as HeldItem};
ghost use Rattle.cd_scope.specs.Due.{Setting};
ghost use Rattle.cd_scope.specs.State.{held_in, room_in};
ghost use Rattle.cd_scope.specs.Table.{IsOpen};
ghost use Rattle.cd_build.specs.BuiltNodes.{OfRun};
ghost use Rattle.cd_run.specs.Ends.{HasFault, MovedOn};
ghost use Rattle.cd_run.specs.Going.{Outside, Going, outside};
ghost use Rattle.cd_run.specs.Statements.{IsSiteOf, RunsWithin, behind};

use crate::buffers::Buffers;
use crate::drive::run_node;
use crate::fault::RunFault;
use crate::print::print_value;
use cd_build::build;
use cd_node::sound_nodes;
use cd_scope::Scope;
use cd_typed::Typed;
use cd_world::World;
use std::alloc::Global;

/// Runs the pipe of a statement, which is counted from 1, and prints its value. `left` and `size` are those of `run_node`.
pub fn run_pipe<W: World>(
    alloc: Global,
    world: &mut W,
    typed: &Typed,
    scope: &mut Scope,
    buffers: &mut Buffers,
    left: &mut [u64],
    size: usize,
    statement: u32,
) -> Result<(), RunFault>
    requires runs { RunsWithin typed.now statement left.old (room_in scope.old) }
    requires size { (0 < size) × (size ≤ chunk_limit) }
    requires open { (script : List Stmt) × IsTyped script typed.now × ((base : List Open) × IsOpen (place_in (script_places script)) base (held_in scope.old) (W.live world.old)) }
    ensures stays { OfRun typed.now statement (λ script p. (h : HeldItem) → (IsSiteOf p (first_site script statement) h.site.0 → ⊥) → Contains (held_in scope.old) h → Contains (held_in scope.new) h) }
    ensures spent { OfRun typed.now statement (λ script p. room_in scope.old ≤ room_in scope.new + files_in (pipe_meaning p).places) }
    ensures open { OfRun typed.now statement (λ script p. (base : List Open) → IsOpen (place_in (script_places script)) base (held_in scope.old) (W.live world.old) → IsOpen (place_in (script_places script)) base (held_in scope.new) (W.live world.new)) }
    ensures cause { HasFault (W.faults world.old) (W.faults world.new) result }
    ensures others { OfRun typed.now statement (λ script p. (s : ℕ) → (IsSiteOf p (first_site script statement) s → ⊥) → get_or left.new s 0 ≡ get_or left.old s 0) }
    ensures told { OfRun typed.now statement (λ script p. IsTrue W.tells_log → (g : Setting) (base : List Open) → g.place ≡ place_in (script_places script) → g.tells ≡ W.tells_files → g.size ≡ size → IsOpen (place_in (script_places script)) base (held_in scope.old) (W.live world.old)
        → (m : Seen → Run) (st : ScriptState) (next : Seen → ScriptState → Run) (w0 : Outside) → st.site ≡ first_site script statement → ((s : ℕ) → IsSiteOf p (first_site script statement) s → get_or left.old s 0 ≡ g.limit + 1)
        → Going g m (held_in scope.old) left.old (behind (λ all. statement_meaning (Stmt.Run p) all st (next all))) w0 (outside (W.log world.old) (W.files world.old))
        → MovedOn g m result (held_in scope.new) left.new (λ x. behind (λ all. next all (passed_sites st (pipe_meaning p)))) w0 (outside (W.log world.new) (W.files world.new))) }
{
    sound_nodes();
    let Ok(node) = build(alloc, typed, statement) else {
        return Err(RunFault::NoMemory);
    };
    let sites = typed.sites().as_slice();
    let value = match run_node(alloc, node, world, sites, scope, buffers, left, size) {
        Ok(value) => value,
        Err(fault) => return Err(fault),
    };
    print_value(alloc, world, &value)
}
