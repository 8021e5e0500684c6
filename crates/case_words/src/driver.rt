// A stage that is given an input in chunks, and what is seen of it.
ghost use Rattle.std.specs.Prelude.{◌≡◌, IfOk, Some, false};
ghost use Rattle.cd_step.specs.Parts.{Answers, Wait};

use crate::input::{Given, chunk_of};
use crate::run::Run;
use case_notation::CaseError;
use cd_elem::Kind;
use cd_step::{Input, Move, Stage};
use std::alloc::Global;

/// More moves than any case has between two chunks.
const MOVES_MAX: u32 = 100_000;

/// Steps with this input and goes on until the stage asks or ends. Whether it has ended.
fn settle<S: Stage>(
    alloc: Global,
    stage: &mut S,
    first: Input,
    run: &mut Run,
) -> Result<bool, CaseError>
    requires fit { S.fits stage.old }
    requires answers { Answers (S.seen stage.old) first }
    ensures fit { IfOk result (λ ended. ended ≡ false → S.fits stage.new) }
    ensures waits { IfOk result (λ ended. ended ≡ false → (S.seen stage.new).at ≡ Wait) }
    ensures takes { (S.seen stage.new).takes ≡ (S.seen stage.old).takes }
{
    let mut input = first;
    for _ in 0..MOVES_MAX {
        match stage.step(alloc, input)? {
            Move::Emit(chunk) => {
                let noted = run.note_emit(&chunk);
                drop(chunk);
                noted?;
                input = Input::Next;
            }
            Move::Need => {
                run.note_need()?;
                return Ok(false);
            }
            Move::Done { value, rest } => {
                let noted = run.note_end(alloc, &value, &rest);
                drop((value, rest));
                noted?;
                return Ok(true);
            }
            Move::Fault(_) => return Err(CaseError::Malformed("a word that raises no fault")),
        }
    }
    Err(CaseError::Malformed("a word that gives less"))
}

/// Gives the chunks or pieces one by one, and then tells the end where the input ends.
fn drive<S: Stage>(
    alloc: Global,
    stage: &mut S,
    kind: Kind,
    given: Given<'_>,
    run: &mut Run,
) -> Result<(), CaseError>
    requires fit { S.fits stage.old }
    requires waits { (S.seen stage.old).at ≡ Wait }
    requires takes { (S.seen stage.old).takes ≡ Some kind }
{
    for numbers in given.chunks {
        let chunk = chunk_of(alloc, kind, numbers.as_slice())?;
        let ended = match run.note_fed(alloc, &chunk) {
            Ok(()) => settle(alloc, stage, Input::Chunk(chunk), run)?,
            Err(error) => {
                drop(chunk);
                return Err(error);
            }
        };
        if ended {
            return Ok(());
        }
    }
    if given.ends {
        settle(alloc, stage, Input::End, run)?;
    }
    Ok(())
}

/// Starts a stage, and gives it the input.
fn start<S: Stage>(
    alloc: Global,
    stage: &mut S,
    kind: Kind,
    given: Given<'_>,
    run: &mut Run,
) -> Result<(), CaseError>
    requires fit { S.fits stage.old }
    requires answers { Answers (S.seen stage.old) Input.Start }
    requires takes { (S.seen stage.old).takes ≡ Some kind }
{
    if settle(alloc, stage, Input::Start, run)? {
        return Ok(());
    }
    drive(alloc, stage, kind, given, run)
}

/// The run of a stage that has not started.
pub fn run_stage<S: Stage>(
    alloc: Global,
    stage: &mut S,
    kind: Kind,
    given: Given<'_>,
) -> Result<Run, CaseError>
    requires fit { S.fits stage.old }
    requires answers { Answers (S.seen stage.old) Input.Start }
    requires takes { (S.seen stage.old).takes ≡ Some kind }
{
    let mut run = Run::new(alloc);
    start(alloc, stage, kind, given, &mut run).and(Ok(run))
}
