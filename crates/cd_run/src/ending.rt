// The end of a run.
ghost use Rattle.std.specs.Prelude.{◌≡◌, ℕ, List, IsTrue};
ghost use Rattle.cd_meaning.specs.Places.{Place};
ghost use Rattle.cd_meaning.specs.Run.{Run};
ghost use Rattle.cd_meaning.specs.RunShapes.{Seen};
ghost use Rattle.cd_world.specs.Live.{Open};
ghost use Rattle.cd_scope.specs.Due.{Setting};
ghost use Rattle.cd_scope.specs.State.{held_in};
ghost use Rattle.cd_scope.specs.Table.{IsOpen};
ghost use Rattle.cd_run.specs.Ends.{MovedOn};
ghost use Rattle.cd_run.specs.Going.{Outside, outside};
ghost use Rattle.cd_run.specs.Ran.{IsJoined, Ran, RoseAtEnd, done};
ghost use Rattle.cd_run.specs.Statements.{behind};

use crate::fault::RunFault;
use cd_elem::Site;
use cd_scope::{JournalList, Scope};
use cd_world::World;

/// How a run ended, with its journal.
#[derive(Drop)]
pub struct Ended {
    pub answer: Result<(), RunFault>,
    pub journal: JournalList,
}

/// The answer of a run, after all was closed: a close that failed is told where nothing else was.
fn with_closing(answer: Result<(), RunFault>, failed: Option<Site>) -> Result<(), RunFault>
    ensures { IsJoined answer failed result }
{
    match (answer, failed) {
        (Ok(()), None) => Ok(()),
        (Ok(()), Some(site)) => Err(RunFault::CloseFault { site }),
        (Err(fault), _) => Err(fault),
    }
}

/// Closes all that a run left open, the last opened first.
pub fn finish<W: World>(world: &mut W, scope: Scope, answer: Result<(), RunFault>) -> Ended
    requires open { (place : ℕ → Place) × (base : List Open) × IsOpen place base (held_in scope) (W.live world.old) }
    ensures live { (place : ℕ → Place) (base : List Open) → IsOpen place base (held_in scope) (W.live world.old) → W.live world.new ≡ base }
    ensures rose { RoseAtEnd answer result.answer (W.faults world.old) (W.faults world.new) }
    ensures told { IsTrue W.tells_log → (g : Setting) (m : Seen → Run) (left : List ℕ) (w0 : Outside) → MovedOn g m answer (held_in scope) left (λ x. behind (λ all. done)) w0 (outside (W.log world.old) (W.files world.old))
        → Ran g m result.answer w0 (outside (W.log world.new) (W.files world.new)) }
{
    let finished = scope.finish(world);
    Ended {
        answer: with_closing(answer, finished.first_fault),
        journal: finished.journal,
    }
}
