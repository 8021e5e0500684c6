// Whole runs of scripts over a world in memory: how the command ended, what files hold afterwards, and the journal.
//
// A case is that of a command, with a line `shows NAME` for each file that is told.
ghost use Rattle.std.specs.Prelude.{IfOk};
ghost use Rattle.cd_run.specs.Runners.{AreOptions};

use crate::commands::{ESCAPED, write_outcome};
use crate::given::{cut_of, words_of, world_of};
use case_notation::{CaseError, field, text_within};
use cd_cli::{Command, conduit_main, read_words, run_text};
use cd_elem::Literal;
use cd_run::Options;
use cd_scope::{JournalLine, JournalList};
use cd_script::TEXT_LIMIT;
use cd_world::MemoryWorld;
use percent_encoding::percent_encode;
use std::alloc::Global;

/// The file that has the script.
const SCRIPT: &str = "s";

fn write_file(lines: &mut String, world: &MemoryWorld, name: &str) -> Result<(), CaseError> {
    match world.file(name) {
        Some(bytes) => {
            write!(lines, "= {name} holds ")?;
            percent_encode(bytes, ESCAPED).append_to(lines)?;
            lines.push_str("\n")?;
        }
        None => writeln!(lines, "= no {name}")?,
    }
    Ok(())
}

/// Adds what each file holds that the case shows.
fn write_files(lines: &mut String, world: &MemoryWorld, head: &str) -> Result<(), CaseError> {
    for line in head.lines() {
        let (key, name) = field(line);
        if key == "shows" {
            write_file(lines, world, name)?;
        }
    }
    Ok(())
}

fn failed_text(failed: bool) -> &'static str {
    if failed { " failed" } else { "" }
}

fn write_line(lines: &mut String, line: JournalLine) -> Result<(), CaseError> {
    match line {
        JournalLine::Acquired(site) => writeln!(lines, "= open {}", site.0)?,
        JournalLine::ClosedEarly { site, failed } => {
            writeln!(lines, "= close {} early{}", site.0, failed_text(failed))?;
        }
        JournalLine::ClosedAtEnd { site, failed } => {
            writeln!(lines, "= close {} end{}", site.0, failed_text(failed))?;
        }
    }
    Ok(())
}

fn write_journal(lines: &mut String, journal: &JournalList) -> Result<(), CaseError> {
    for line in journal.as_slice() {
        write_line(lines, *line)?;
    }
    Ok(())
}

/// Runs the command, and adds how it ended and what the files hold.
fn write_run(
    lines: &mut String,
    alloc: Global,
    words: &[String],
    case: &str,
    head: &str,
) -> Result<(), CaseError> {
    let mut world = world_of(alloc, case, cut_of(head)?)?;
    let outcome = conduit_main(alloc, words, &mut world);
    let written = write_outcome(lines, alloc, outcome).and(write_files(lines, &world, head));
    drop(world);
    written
}

/// The options that the words of a run give.
fn options_of(alloc: Global, words: &[String]) -> Result<Options, CaseError>
    ensures { IfOk result (λ options. AreOptions options) }
{
    match read_words(alloc, words) {
        Ok(Command::Run { options, .. }) => Ok(options),
        _ => Err(CaseError::Malformed("the words of a run")),
    }
}

/// The text of the script.
fn script_of(alloc: Global, world: &MemoryWorld) -> Result<Literal, CaseError> {
    let bytes = world.file(SCRIPT).unwrap_or(b"");
    Ok(Literal::new(alloc, text_within(bytes, TEXT_LIMIT)?)?)
}

/// Runs the text of the script over another world of the case, and adds its journal.
fn write_text_run(
    lines: &mut String,
    alloc: Global,
    options: Options,
    world: &mut MemoryWorld,
) -> Result<(), CaseError>
    requires { AreOptions options }
{
    let text = script_of(alloc, world)?;
    let outcome = run_text(alloc, text.as_str(), options, world);
    write_journal(lines, &outcome.journal)
}

fn write_run_of_text(
    lines: &mut String,
    alloc: Global,
    words: &[String],
    case: &str,
    head: &str,
) -> Result<(), CaseError> {
    let options = options_of(alloc, words)?;
    let mut world = world_of(alloc, case, cut_of(head)?)?;
    let written = write_text_run(lines, alloc, options, &mut world);
    drop(world);
    written
}

/// Adds the status and the cause of the command, what the files hold that are shown, and the journal.
pub fn answer(alloc: Global, case: &str, lines: &mut String) -> Result<(), CaseError> {
    let (head, _) = case.split_once("\nfile ").unwrap_or((case, ""));
    let words = words_of(alloc, head)?;
    let written = write_run(lines, alloc, words.as_slice(), case, head).and(write_run_of_text(
        lines,
        alloc,
        words.as_slice(),
        case,
        head,
    ));
    drop(words);
    written
}
