// Running a script.
ghost use Rattle.std.specs.Prelude.{◌≡◌, List, IsTrue};
ghost use Rattle.cd_elem.specs.declared.script.Stmt.{Stmt as Statement};
ghost use Rattle.cd_typed.specs.TypedScripts.{IsTyped};
ghost use Rattle.cd_run.specs.Runners.{AreOptions};
ghost use Rattle.cd_run.specs.Scripts.{IsBuiltScript};
ghost use Rattle.cd_cli.specs.Cause.{HasOrigin};
ghost use Rattle.cd_cli.specs.Command.{Judges, Logs, RunsScript, RunsTree, HasTaken, IsTakenRun, EndsUnlessFailed};

use crate::cause::run_cause;
use crate::judge::{find_types, judge};
use cd_elem::Script;
use cd_report::Cause;
use cd_run::{Options, is_built_script, run_script};
use cd_scope::JournalList;
use cd_typed::Typed;
use cd_world::World;
use std::alloc::Global;

/// How a script ended that was to be run, with its journal, which is empty where it was not run.
#[derive(Drop)]
pub struct TextOutcome {
    pub cause: Cause,
    pub journal: JournalList,
}

/// Runs the text of a script of at most 65,536 bytes, with these options. Each site is opened, read, written and closed as
/// the script means it, and all that was opened in the call is closed again, whatever comes. Nothing is written to standard
/// error.
pub fn run_text<W: World>(alloc: Global, text: &str, options: Options, world: &mut W) -> TextOutcome
    requires options { AreOptions options }
    ensures origin { HasOrigin (W.faults world.old) (W.faults world.new) result.cause }
    ensures live { W.live world.new ≡ W.live world.old }
    ensures complete { IsTrue W.tells_files → HasTaken (IsTakenRun W.tells_log (W.files world.old) options) text.now
        → EndsUnlessFailed (W.faults world.old) (W.faults world.new) result.cause }
    ensures log { IsTrue W.tells_log
        → Logs (Judges (RunsScript options W.tells_files (W.files world.old)) text.now) result.cause (W.log world.old) (W.log world.new) }
{
    match judge(alloc, text.as_bytes()) {
        Ok(script) => run_tree(alloc, world, script, options),
        Err(cause) => not_run(alloc, cause),
    }
}

/// Finds the types of a script, and runs it.
pub fn run_tree<W: World>(
    alloc: Global,
    world: &mut W,
    script: Script,
    options: Options,
) -> TextOutcome
    requires options { AreOptions options }
    ensures origin { HasOrigin (W.faults world.old) (W.faults world.new) result.cause }
    ensures live { W.live world.new ≡ W.live world.old }
    ensures complete { IsTrue W.tells_files → IsTakenRun W.tells_log (W.files world.old) options script
        → EndsUnlessFailed (W.faults world.old) (W.faults world.new) result.cause }
    ensures log { IsTrue W.tells_log → Logs (RunsScript options W.tells_files (W.files world.old) script) result.cause (W.log world.old) (W.log world.new) }
{
    match find_types(alloc, script) {
        Ok(typed) => run_typed(alloc, world, &typed, options),
        Err(cause) => not_run(alloc, cause),
    }
}

/// Runs a script that has these types, where all of it is built.
fn run_typed<W: World>(alloc: Global, world: &mut W, typed: &Typed, options: Options) -> TextOutcome
    requires typed { (script : List Statement) × IsTyped script typed.now }
    requires options { AreOptions options }
    ensures origin { HasOrigin (W.faults world.old) (W.faults world.new) result.cause }
    ensures live { W.live world.new ≡ W.live world.old }
    ensures complete { IsTrue W.tells_files → (script : List Statement) → IsTyped script typed.now → IsTakenRun W.tells_log (W.files world.old) options script
        → EndsUnlessFailed (W.faults world.old) (W.faults world.new) result.cause }
    ensures log { IsTrue W.tells_log → (script : List Statement) → IsTyped script typed.now
        → Logs (RunsTree options W.tells_files (W.files world.old) script) result.cause (W.log world.old) (W.log world.new) }
{
    if !is_built_script(typed.script()) {
        return not_run(alloc, Cause::NotBuilt);
    }
    let ended = run_script(alloc, world, typed, options);
    TextOutcome {
        cause: run_cause(ended.answer),
        journal: ended.journal,
    }
}

/// The outcome of a script that was not run.
fn not_run(alloc: Global, cause: Cause) -> TextOutcome
    ensures { result.cause ≡ cause }
{
    TextOutcome {
        cause,
        journal: JournalList::new(alloc),
    }
}
