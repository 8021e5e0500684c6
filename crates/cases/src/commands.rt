// Whole runs of the command over a world in memory: how it ended, and each call that it made.
use crate::given::{cut_of, words_of, world_of};
use case_notation::CaseError;
use cd_cli::{Outcome, conduit_main};
use cd_report::cause_text;
use cd_world::{Event, MemoryWorld};
use percent_encoding::{AsciiSet, CONTROLS, ascii_set, percent_encode};
use std::alloc::Global;

/// The name of standard output among the files.
const STDOUT: &str = "<stdout>";

/// The name of standard error.
const STDERR: &str = "<stderr>";

/// What is written as `%` and two digits.
pub const ESCAPED: AsciiSet = ascii_set!(CONTROLS.add(b'%'));

/// What an event is told as, but for the name of what was opened; of reads and writes of some bytes nothing is told.
fn event_text(event: &Event) -> &'static str {
    match event {
        Event::OpenedRead(_, _) => " open",
        Event::Created(_, _) => " create",
        Event::Marked(_, _) => " mark",
        Event::GaveEnd(_) => " end",
        Event::Closed(_) => " close",
        Event::OpenFailed(_) => " open failed",
        Event::ReadFailed(_) => " read failed",
        Event::WriteFailed(_) => " write failed",
        Event::CloseFailed(_) => " close failed",
        Event::Gave(_, _) | Event::Wrote(_, _) => "",
    }
}

fn write_event(text: &mut String, event: &Event) -> Result<(), CaseError> {
    text.push_str(event_text(event))?;
    match event {
        Event::OpenedRead(name, _) | Event::Created(name, _) | Event::Marked(name, _) => {
            write!(text, " {},", name.as_str())?;
        }
        Event::Gave(_, _) | Event::Wrote(_, _) => {}
        _ => text.push_str(",")?,
    }
    Ok(())
}

/// Adds what became of the world: how many calls failed, which were made, and what standard output and error got.
fn write_world(lines: &mut String, world: &MemoryWorld) -> Result<(), CaseError> {
    write!(lines, "= failed {}\n= calls", world.faults())?;
    for event in world.log().as_slice() {
        write_event(lines, event)?;
    }
    lines.push_str("\n= out ")?;
    percent_encode(world.file(STDOUT).unwrap_or(b""), ESCAPED).append_to(lines)?;
    lines.push_str("\n= errors ")?;
    percent_encode(world.file(STDERR).unwrap_or(b""), ESCAPED).append_to(lines)?;
    lines.push_str("\n")?;
    Ok(())
}

/// Adds the status, how much of the cause's line was told, and that line.
pub fn write_outcome(lines: &mut String, alloc: Global, outcome: Outcome) -> Result<(), CaseError> {
    writeln!(
        lines,
        "= status {}, said {:?}",
        outcome.status, outcome.said
    )?;
    let line = cause_text(alloc, outcome.cause)?;
    Ok(writeln!(lines, "= cause {}", line.as_str().trim_end())?)
}

/// Runs the command with these words, and adds the answer.
fn write_run(
    lines: &mut String,
    alloc: Global,
    words: &[String],
    case: &str,
    cut: u32,
) -> Result<(), CaseError> {
    let mut world = world_of(alloc, case, cut)?;
    let outcome = conduit_main(alloc, words, &mut world);
    let written = write_outcome(lines, alloc, outcome).and(write_world(lines, &world));
    drop(world);
    written
}

/// Adds the cause and the status of the command, how much of its line was told, and what became of the world.
pub fn answer(alloc: Global, case: &str, lines: &mut String) -> Result<(), CaseError> {
    let (head, _) = case.split_once("\nfile ").unwrap_or((case, ""));
    let cut = cut_of(head)?;
    let words = words_of(alloc, head)?;
    let written = write_run(lines, alloc, words.as_slice(), case, cut);
    drop(words);
    written
}
