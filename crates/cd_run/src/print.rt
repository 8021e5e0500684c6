// The lines of results.
ghost use Rattle.std.specs.Prelude.{◌≡◌, ℕ, List, IsTrue, IfOk, string_bytes};
ghost use Rattle.cd_meaning.specs.Places.{WritesOutput};
ghost use Rattle.cd_meaning.specs.Run.{Run, start, acts_at};
ghost use Rattle.cd_meaning.specs.RunShapes.{Seen};
ghost use Rattle.cd_meaning.specs.Scripts.{value_puts};
ghost use Rattle.cd_meaning.specs.Values.{value_meaning};
ghost use Rattle.cd_world.specs.Live.{Open};
ghost use Rattle.cd_scope.specs.declared.table.Held.{Held};
ghost use Rattle.cd_scope.specs.Due.{Setting};
ghost use Rattle.cd_scope.specs.Table.{IsOpen};
ghost use Rattle.cd_run.specs.Ends.{HasFault, MovedOn};
ghost use Rattle.cd_run.specs.Going.{Outside, Going, outside};
ghost use Rattle.cd_run.specs.Statements.{behind, value_line};

use crate::fault::RunFault;
use crate::write::write_all;
use cd_elem::{NoMemory, Site, Value};
use cd_report::value_text;
use cd_world::{Descriptor, World};
use std::alloc::Global;

/// The line of a result, which is empty for unit.
fn line_of(alloc: Global, value: &Value) -> Result<String, NoMemory>
    ensures { IfOk result (λ line. string_bytes line ≡ value_line (value_meaning value.now)) }
{
    let mut line = String::new(alloc);
    match value {
        Value::Unit => {}
        _ => {
            line.push_str("= ")?;
            line.push_str(value_text(alloc, value)?.as_str())?;
            line.push_str("\n")?;
        }
    }
    Ok(line)
}

/// Prints the line of a result to standard output, where results are printed: at site 0.
pub fn print_value<W: World>(alloc: Global, world: &mut W, value: &Value) -> Result<(), RunFault>
    ensures live { W.live world.new ≡ W.live world.old }
    ensures cause { HasFault (W.faults world.old) (W.faults world.new) result }
    ensures told { IsTrue W.tells_log → (g : Setting) (base : List Open) (t : List Held) → g.place 0 ≡ WritesOutput → g.tells ≡ W.tells_files → IsOpen g.place base t (W.live world.old)
        → (m : Seen → Run) (left : List ℕ) (next : Seen → Run) (w0 : Outside) → Going g m t left (behind (λ all. acts_at start (value_puts (value_meaning value.now)) (next all))) w0 (outside (W.log world.old) (W.files world.old))
        → MovedOn g m result t left (λ x. behind next) w0 (outside (W.log world.new) (W.files world.new)) }
{
    let Ok(line) = line_of(alloc, value) else {
        return Err(RunFault::NoMemory);
    };
    write_all(world, Site(0), Descriptor::STDOUT, line.as_bytes())
}
