// The statements of a script in their order, within one scope.
ghost use Rattle.std.specs.Prelude.{◌≡◌, ℕ, suc, Bool, false, List, IfOk, IsTrue};
ghost use Rattle.cd_elem.specs.declared.script.Stmt.{Stmt as Statement};
ghost use Rattle.cd_meaning.specs.Places.{place_in};
ghost use Rattle.cd_meaning.specs.Run.{Run};
ghost use Rattle.cd_meaning.specs.RunShapes.{Seen};
ghost use Rattle.cd_meaning.specs.Scripts.{ScriptState, first_state, script_places, script_run};
ghost use Rattle.cd_typed.specs.TypedScripts.{IsTyped};
ghost use Rattle.cd_world.specs.Live.{Open};
ghost use Rattle.cd_scope.specs.Due.{Setting};
ghost use Rattle.cd_run.specs.Ends.{HasFault, MovedOn};
ghost use Rattle.cd_run.specs.Going.{Outside, Going, outside};
ghost use Rattle.cd_run.specs.Ran.{Ran, done};
ghost use Rattle.cd_run.specs.Runners.{AreOptions, IsOpenBy, IsReady, left_of, limit_of, options_of, size_of, table_of};
ghost use Rattle.cd_run.specs.Scripts.{HasRun, IsBuiltScript, IsCaused, IsNextStatement, after, held_after, rest_of};
ghost use Rattle.cd_run.specs.Statements.{behind};

use crate::ending::Ended;
use crate::fault::RunFault;
use crate::options::Options;
use crate::runner::Runner;
use cd_elem::{NoMemory, Roomy, Stmt};
use cd_typed::{Typed, typed_laws};
use cd_types::numbering;
use cd_world::World;
use std::alloc::Global;

/// Runs the next statement of a script, which has this number.
fn run_statement<W: World>(
    alloc: Global,
    world: &mut W,
    typed: &Typed,
    runner: &mut Runner<'_>,
    statement: &Stmt,
    number: u32,
) -> Result<(), RunFault>
    requires next { (script : List Statement) × (i : ℕ) × (st : ScriptState) × (held : List ℕ → Bool) × IsTyped script typed.now × HasRun script i st held runner.old × IsNextStatement script i statement.now number }
    requires open { (script : List Statement) × IsReady script runner.old × ((base : List Open) × IsOpenBy script base runner.old (W.live world.old)) }
    ensures next { (script : List Statement) (i : ℕ) (st : ScriptState) (held : List ℕ → Bool) → HasRun script i st held runner.old → IsNextStatement script i statement.now number → IfOk result (λ x. HasRun script (suc i) (after statement.now st) (held_after statement.now held) runner.new) }
    ensures options { options_of runner.new ≡ options_of runner.old }
    ensures open { (script : List Statement) → IsReady script runner.old → (base : List Open) → IsOpenBy script base runner.old (W.live world.old) → IsOpenBy script base runner.new (W.live world.new) }
    ensures cause { HasFault (W.faults world.old) (W.faults world.new) result }
    ensures told { (script : List Statement) (i : ℕ) (st : ScriptState) (held : List ℕ → Bool) → HasRun script i st held runner.old → IsNextStatement script i statement.now number → IsTrue W.tells_log → (g : Setting) (base : List Open) → g.place ≡ place_in (script_places script) → g.tells ≡ W.tells_files → g.size ≡ size_of runner.old → g.limit ≡ limit_of runner.old → IsOpenBy script base runner.old (W.live world.old)
        → (m : Seen → Run) (w0 : Outside) → Going g m (table_of runner.old) (left_of runner.old) (behind (rest_of script i st)) w0 (outside (W.log world.old) (W.files world.old))
        → MovedOn g m result (table_of runner.new) (left_of runner.new) (λ x. behind (rest_of script (suc i) (after statement.now st))) w0 (outside (W.log world.new) (W.files world.new)) }
{
    numbering();
    match statement {
        Stmt::Run(_) => runner.run_pipe(alloc, world, number),
        Stmt::Hold(_, _) => match typed.key_of(number) {
            Some(key) => runner.hold(world, key, typed.first_site(number)),
            None => unreachable!(),
        },
        Stmt::Release(_) => match typed.key_of(number) {
            Some(key) => runner.release_key(world, key),
            None => unreachable!(),
        },
        Stmt::Seal(_, _) | Stmt::Feed(_, _) | Stmt::CloseSeal(_, _) => unreachable!(),
    }
}

/// Runs the statements in their order, up to the first fault.
fn run_statements<W: World>(
    alloc: Global,
    world: &mut W,
    typed: &Typed,
    runner: &mut Runner<'_>,
    statements: &[Stmt],
) -> Result<(), RunFault>
    requires typed { IsTyped statements.now typed.now }
    requires built { IsBuiltScript statements.now }
    requires first { HasRun statements.now 0 first_state (λ name. false) runner.old }
    requires open { (base : List Open) × IsOpenBy statements.now base runner.old (W.live world.old) }
    ensures open { (base : List Open) → IsOpenBy statements.now base runner.old (W.live world.old) → IsOpenBy statements.now base runner.new (W.live world.new) }
    ensures cause { HasFault (W.faults world.old) (W.faults world.new) result }
    ensures told { IsTrue W.tells_log → (g : Setting) (base : List Open) → g.place ≡ place_in (script_places statements.now) → g.tells ≡ W.tells_files → g.size ≡ size_of runner.old → g.limit ≡ limit_of runner.old → IsOpenBy statements.now base runner.old (W.live world.old)
        → (m : Seen → Run) (w0 : Outside) → Going g m (table_of runner.old) (left_of runner.old) (behind (script_run statements.now)) w0 (outside (W.log world.old) (W.files world.old))
        → MovedOn g m result (table_of runner.new) (left_of runner.new) (λ x. behind (λ all. done)) w0 (outside (W.log world.new) (W.files world.new)) }
{
    typed_laws();
    for place in 0..statements.len() {
        let statement = &statements[place];
        match run_statement(alloc, world, typed, runner, statement, place as u32 + 1) {
            Ok(()) => {}
            Err(fault) => return Err(fault),
        }
    }
    Ok(())
}

/// Runs a script, and closes what it left open.
pub fn run_script<W: World>(alloc: Global, world: &mut W, typed: &Typed, options: Options) -> Ended
    requires script { (script : List Statement) × IsTyped script typed.now × IsBuiltScript script }
    requires options { AreOptions options }
    ensures live { W.live world.new ≡ W.live world.old }
    ensures cause { IsCaused (W.faults world.old) (W.faults world.new) result.answer }
    ensures told { (script : List Statement) → IsTyped script typed.now → IsTrue W.tells_log → (g : Setting) → g.place ≡ place_in (script_places script) → g.tells ≡ W.tells_files → g.size ≡ options.chunk → g.limit ≡ options.limit
        → Ran g (script_run script) result.answer (outside (W.log world.old) (W.files world.old)) (outside (W.log world.new) (W.files world.new)) }
{
    typed_laws();
    match Runner::new(alloc, typed, options) {
        Ok(mut runner) => {
            let statements = typed.script().statements().as_slice();
            let answer = run_statements(alloc, world, typed, &mut runner, statements);
            runner.finish(world, answer)
        }
        Err(NoMemory) => Ended {
            answer: Err(RunFault::NoMemory),
            journal: Roomy::new(alloc),
        },
    }
}
