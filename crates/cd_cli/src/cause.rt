// How a run of the command ended.
ghost use Rattle.std.specs.Prelude.{◌≡◌};
ghost use Rattle.cd_cli.specs.Cause.{cause_of_check, cause_of_fault, cause_of_refusal, cause_of_run, script_cause, text_cause, words_cause};

use crate::arguments::WordsRefusal;
use cd_elem::Site;
use cd_report::{Cause, Said};
use cd_run::RunFault;
use cd_script::ScriptRefusal;
use cd_typing::CheckRefusal;
use cd_world::WorldError;

impl From<WordsRefusal> for Cause {
    ghost from_gives = { λ refusal cause. cause ≡ words_cause refusal };

    fn from(refusal: WordsRefusal) -> Cause {
        match refusal {
            WordsRefusal::Usage => Cause::Usage,
            WordsRefusal::NoMemory => Cause::NoMemory,
        }
    }
}

/// The cause where a script could not be read.
pub fn script_cause(error: WorldError) -> Cause
    ensures { result ≡ script_cause error }
{
    match error {
        WorldError::Failed => Cause::ScriptFault,
        WorldError::NoMemory => Cause::NoMemory,
    }
}

/// The cause where the bytes of a script have no tree.
pub fn refusal_cause(refusal: ScriptRefusal) -> Cause
    ensures { result ≡ cause_of_refusal refusal }
{
    match refusal {
        ScriptRefusal::Syntax { at } => Cause::Syntax { at },
        ScriptRefusal::Limit { which, at } => Cause::Limit { which, at },
        ScriptRefusal::NoMemory => Cause::NoMemory,
    }
}

/// The cause where a script has no type.
pub fn check_cause(refusal: CheckRefusal) -> Cause
    ensures { result ≡ cause_of_check refusal }
{
    match refusal {
        CheckRefusal::Refused(first) => Cause::Refused(first),
        CheckRefusal::NoMemory => Cause::NoMemory,
    }
}

/// The cause where a text of `show` or `check` could not be written. It stands where results are printed.
pub fn text_cause(error: WorldError) -> Cause
    ensures { result ≡ text_cause error }
{
    match error {
        WorldError::Failed => Cause::WriteFault { site: Site(0) },
        WorldError::NoMemory => Cause::NoMemory,
    }
}

/// The cause with which a script ended that was run.
pub fn run_cause(answer: Result<(), RunFault>) -> Cause
    ensures { result ≡ cause_of_run answer }
{
    match answer {
        Ok(()) => Cause::Success,
        Err(fault) => fault_cause(fault),
    }
}

fn fault_cause(fault: RunFault) -> Cause
    ensures { result ≡ cause_of_fault fault }
{
    match fault {
        RunFault::Decode(fault) => Cause::Decode(fault),
        RunFault::AcquireFault { site } => Cause::AcquireFault { site },
        RunFault::ReadFault { site } => Cause::ReadFault { site },
        RunFault::WriteFault { site } => Cause::WriteFault { site },
        RunFault::CloseFault { site } => Cause::CloseFault { site },
        RunFault::TooLong { site } => Cause::TooLong { site },
        RunFault::NoMemory => Cause::NoMemory,
    }
}

/// How the command ended.
#[derive(Clone, Copy, PartialEq, Eq)]
pub struct Outcome {
    /// The status with which the program ends, which the cause determines.
    pub status: u8,
    pub cause: Cause,
    /// How much of the cause's line was written to standard error, which changes neither of the others.
    pub said: Said,
}
