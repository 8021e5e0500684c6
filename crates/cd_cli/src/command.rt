// The command, from its words on.
ghost use Rattle.std.specs.Prelude.{◌≡◌, ℕ, List, IsTrue, IfOk, map};
ghost use Rattle.std.specs.String.{string_bytes};
ghost use Rattle.cd_grammar.specs.Canonical.{IsTreeWithin};
ghost use Rattle.cd_grammar.specs.CanonicalText.{canonical_text};
ghost use Rattle.cd_report.specs.Cause.{status_of};
ghost use Rattle.cd_report.specs.CauseText.{cause_text};
ghost use Rattle.cd_report.specs.CheckText as line;
ghost use Rattle.cd_cli.specs.Cause.{HasOrigin};
ghost use Rattle.cd_cli.specs.Arguments.{HasOptions, script_of};
ghost use Rattle.cd_cli.specs.Command.{Does, FindsTypes, WritesText, IsNoRun, RunNothing, SendsFor, SendsText, Judges, Logs, ReadsAndJudges, Calls, Called, Sends, SendsScript, AnswersCommand, Sent, IsTaken, IsTakenTree, EndsUnlessFailed, Completes};
ghost use Rattle.cd_cli.specs.Report.{HasCount, SentAndTold, CalledAndTold, CompletesBefore};

use crate::arguments::{Command, read_words};
use crate::cause::{Outcome, script_cause, text_cause};
use crate::judge::{find_types, judge};
use crate::report::report;
use crate::run::run_tree;
use crate::script::read_script;
use crate::streams::{Stream, write_all};
use cd_elem::{NoMemory, Script};
use cd_report::{Cause, check_text};
use cd_script::print;
use cd_world::World;
use std::alloc::Global;

/// Runs the command with these words, which are those of the command line without the program's name.
///
/// `run SCRIPT`, `check SCRIPT` and `show SCRIPT` read the script file to its end, or to 65,537 bytes, close it and judge
/// it. `show` then writes its canonical text to standard output. The others find its types. `check` says in a line on
/// standard output how many statements and sites it has and how many elements it may hold, and `run` runs it, where all
/// of it is built. Everything that was opened in the call is closed again, whatever comes. The line of the cause is
/// written to standard error after that, as the last thing of all.
pub fn conduit_main<W: World>(alloc: Global, words: &[String], world: &mut W) -> Outcome
    ensures status { result.status ≡ status_of result.cause }
    ensures origin { HasCount (W.faults world.old) (W.faults world.new) result.cause result.said }
    ensures live { W.live world.new ≡ W.live world.old }
    ensures files { IsTrue W.tells_files → RunNothing (map string_bytes words.now)
        → SentAndTold (AnswersCommand (map string_bytes words.now) (W.files world.old).contents result.cause) (cause_text result.cause) result.said (W.files world.old) (W.files world.new) }
    ensures complete { IsTrue W.tells_files
        → CompletesBefore W.tells_log (W.files world.old) (map string_bytes words.now) (W.faults world.old) (W.faults world.new) result.cause result.said }
    ensures log { IsTrue W.tells_log
        → CalledAndTold (Calls W.tells_files (W.files world.old) (map string_bytes words.now) result.cause) (cause_text result.cause) result.said (W.log world.old) (W.log world.new) }
{
    let cause = answer_words(alloc, words, world);
    let said = report(alloc, world, cause);
    Outcome {
        status: cause.status(),
        cause,
        said,
    }
}

/// Does what the words say, up to the line of the cause.
fn answer_words<W: World>(alloc: Global, words: &[String], world: &mut W) -> Cause
    ensures origin { HasOrigin (W.faults world.old) (W.faults world.new) result }
    ensures live { W.live world.new ≡ W.live world.old }
    ensures files { IsTrue W.tells_files → RunNothing (map string_bytes words.now)
        → Sent (AnswersCommand (map string_bytes words.now) (W.files world.old).contents result) (W.files world.old) (W.files world.new) }
    ensures complete { IsTrue W.tells_files
        → Completes W.tells_log (W.files world.old) (map string_bytes words.now) (W.faults world.old) (W.faults world.new) result }
    ensures log { IsTrue W.tells_log
        → Called (Calls W.tells_files (W.files world.old) (map string_bytes words.now) result) (W.log world.old) (W.log world.new) }
{
    match read_words(alloc, words) {
        Ok(command) => run_command(alloc, world, &command),
        Err(refusal) => Cause::from(refusal),
    }
}

/// Reads the script of a command, and does with it what the command says.
fn run_command<W: World>(alloc: Global, world: &mut W, command: &Command) -> Cause
    requires options { HasOptions command.now }
    ensures origin { HasOrigin (W.faults world.old) (W.faults world.new) result }
    ensures live { W.live world.new ≡ W.live world.old }
    ensures files { IsTrue W.tells_files → IsNoRun command.now
        → Sent (SendsScript (SendsFor command.now) (W.files world.old).contents (script_of command.now) result) (W.files world.old) (W.files world.new) }
    ensures complete { IsTrue W.tells_files → IsTaken W.tells_log (W.files world.old) command.now ((W.files world.old).contents (script_of command.now))
        → EndsUnlessFailed (W.faults world.old) (W.faults world.new) result }
    ensures log { IsTrue W.tells_log
        → Called (ReadsAndJudges (Does command.now W.tells_files (W.files world.old)) (script_of command.now) result) (W.log world.old) (W.log world.new) }
{
    match read_script(alloc, world, command.script()) {
        Ok(text) => do_with_text(alloc, world, command, &text),
        Err(error) => script_cause(error),
    }
}

/// Judges the bytes of a script, and does with it what the command says.
fn do_with_text<W: World>(alloc: Global, world: &mut W, command: &Command, text: &[u8]) -> Cause
    requires options { HasOptions command.now }
    ensures origin { HasOrigin (W.faults world.old) (W.faults world.new) result }
    ensures live { W.live world.new ≡ W.live world.old }
    ensures files { IsTrue W.tells_files → IsNoRun command.now → Sent (Sends (SendsFor command.now) text.now result) (W.files world.old) (W.files world.new) }
    ensures complete { IsTrue W.tells_files → IsTaken W.tells_log (W.files world.old) command.now text.now
        → EndsUnlessFailed (W.faults world.old) (W.faults world.new) result }
    ensures log { IsTrue W.tells_log
        → Logs (Judges (Does command.now W.tells_files (W.files world.old)) text.now) result (W.log world.old) (W.log world.new) }
{
    match judge(alloc, text) {
        Ok(script) => do_with_tree(alloc, world, command, script),
        Err(cause) => cause,
    }
}

/// Does with a script what the command says.
fn do_with_tree<W: World>(alloc: Global, world: &mut W, command: &Command, script: Script) -> Cause
    requires within { IsTreeWithin script }
    requires options { HasOptions command.now }
    ensures origin { HasOrigin (W.faults world.old) (W.faults world.new) result }
    ensures live { W.live world.new ≡ W.live world.old }
    ensures files { IsTrue W.tells_files → IsNoRun command.now → Sent (SendsFor command.now script result) (W.files world.old) (W.files world.new) }
    ensures complete { IsTrue W.tells_files → IsTakenTree W.tells_log (W.files world.old) command.now script
        → EndsUnlessFailed (W.faults world.old) (W.faults world.new) result }
    ensures log { IsTrue W.tells_log → Logs (Does command.now W.tells_files (W.files world.old) script) result (W.log world.old) (W.log world.new) }
{
    match command {
        Command::Run { options, .. } => run_tree(alloc, world, script, *options).cause,
        Command::Check { .. } => check_tree(alloc, world, script),
        Command::Show { .. } => show_tree(alloc, world, script),
    }
}

/// Finds the types of a script, and says in a line on standard output what they come to.
fn check_tree<W: World>(alloc: Global, world: &mut W, script: Script) -> Cause
    ensures origin { HasOrigin (W.faults world.old) (W.faults world.new) result }
    ensures live { W.live world.new ≡ W.live world.old }
    ensures files { IsTrue W.tells_files → Sent (FindsTypes (SendsText (line.check_text script)) script result) (W.files world.old) (W.files world.new) }
    ensures log { IsTrue W.tells_log → Logs (FindsTypes (WritesText (line.check_text script)) script) result (W.log world.old) (W.log world.new) }
{
    match find_types(alloc, script) {
        Ok(typed) => write_answer(world, check_text(alloc, &typed)),
        Err(cause) => cause,
    }
}

/// Writes the canonical text of a script to standard output.
fn show_tree<W: World>(alloc: Global, world: &mut W, script: Script) -> Cause
    requires { IsTreeWithin script }
    ensures origin { HasOrigin (W.faults world.old) (W.faults world.new) result }
    ensures live { W.live world.new ≡ W.live world.old }
    ensures files { IsTrue W.tells_files → Sent (SendsText (canonical_text script) result) (W.files world.old) (W.files world.new) }
    ensures log { IsTrue W.tells_log → Logs (WritesText (canonical_text script)) result (W.log world.old) (W.log world.new) }
{
    write_answer(world, print(alloc, &script))
}

/// Writes the text that a command answers to standard output, unless there was no memory for it.
fn write_answer<W: World>(world: &mut W, answer: Result<String, NoMemory>) -> Cause
    ensures origin { HasOrigin (W.faults world.old) (W.faults world.new) result }
    ensures live { W.live world.new ≡ W.live world.old }
    ensures files { (text : List ℕ) → IfOk answer (λ made. string_bytes made ≡ text) → IsTrue W.tells_files
        → Sent (SendsText text result) (W.files world.old) (W.files world.new) }
    ensures log { (text : List ℕ) → IfOk answer (λ made. string_bytes made ≡ text) → IsTrue W.tells_log
        → Logs (WritesText text) result (W.log world.old) (W.log world.new) }
{
    let Ok(text) = answer else {
        return Cause::NoMemory;
    };
    match write_all(world, Stream::Output, text.as_bytes()) {
        Ok(()) => Cause::Success,
        Err(error) => text_cause(error),
    }
}
