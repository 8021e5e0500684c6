// Telling a cause on standard error.
ghost use Rattle.std.specs.Prelude.{◌≡◌, IsTrue, []};
ghost use Rattle.cd_report.specs.declared.cause.Cause.TheVariants.{Success as Silent};
ghost use Rattle.cd_report.specs.declared.cause.Said.TheVariants.{Whole as Told};
ghost use Rattle.cd_report.specs.CauseText as line;
ghost use Rattle.cd_cli.specs.Report.{IsReported, LogsReport, Tells, said_of};

use crate::streams::{Stream, write_all};
use cd_elem::NoMemory;
use cd_report::{Cause, Said, cause_text, memory_text};
use cd_world::{World, WorldError};
use std::alloc::Global;

/// Writes the line of a cause to standard error, and says how much of it was written.
pub fn report<W: World>(alloc: Global, world: &mut W, cause: Cause) -> Said
    ensures count { IsReported (W.faults world.old) (W.faults world.new) result }
    ensures silent { cause ≡ Silent → result ≡ Told }
    ensures live { W.live world.new ≡ W.live world.old }
    ensures files { IsTrue W.tells_files → Tells (line.cause_text cause) result (W.files world.old) (W.files world.new) }
    ensures log { IsTrue W.tells_log → LogsReport (line.cause_text cause) result (W.log world.old) (W.log world.new) }
{
    if cause == Cause::NoMemory {
        return write_line(world, memory_text());
    }
    match cause_text(alloc, cause) {
        Ok(text) => write_line(world, &text),
        Err(NoMemory) => Said::NoMemory,
    }
}

/// Writes a line to standard error, and says how much of it was written.
fn write_line<W: World>(world: &mut W, text: &str) -> Said
    ensures count { IsReported (W.faults world.old) (W.faults world.new) result }
    ensures empty { text.now ≡ [] → result ≡ Told }
    ensures live { W.live world.new ≡ W.live world.old }
    ensures files { IsTrue W.tells_files → Tells text.now result (W.files world.old) (W.files world.new) }
    ensures log { IsTrue W.tells_log → LogsReport text.now result (W.log world.old) (W.log world.new) }
{
    let answer = write_all(world, Stream::Errors, text.as_bytes());
    said_of(answer)
}

fn said_of(answer: Result<(), WorldError>) -> Said
    ensures { result ≡ said_of answer }
{
    match answer {
        Ok(()) => Said::Whole,
        Err(WorldError::Failed) => Said::WriteFailed,
        Err(WorldError::NoMemory) => Said::NoMemory,
    }
}
