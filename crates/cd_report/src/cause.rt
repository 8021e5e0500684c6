// How a run of the command ended.
ghost use Rattle.std.specs.Prelude.{◌≡◌};
ghost use Rattle.cd_report.specs.Cause.{status_of};

use cd_elem::{Fault, LimitKind, Site};
use cd_types::Refusal;

/// Why the command ended.
#[derive(Clone, Copy, PartialEq, Eq)]
pub enum Cause {
    /// The script ran to its end, and no call on the outside failed.
    Success,
    /// The words are none that the command takes.
    Usage,
    /// The script could not be opened, read or closed.
    ScriptFault,
    /// The script has more than 65,536 bytes.
    ScriptLimit,
    /// The script is not UTF-8. `at` is the length of its longest front that is.
    ScriptText { at: u32 },
    /// No token begins at this byte of the script, or no script goes on with the token there.
    Syntax { at: u32 },
    /// The token at this byte of the script passes a limit.
    Limit { which: LimitKind, at: u32 },
    /// The script has no type, and this is refused first in it.
    Refused(Refusal),
    /// The script is of a form that does not run yet.
    NotBuilt,
    /// A decoder refused its input.
    Decode(Fault),
    /// The file of a site could not be opened.
    AcquireFault { site: Site },
    /// A read of a site failed.
    ReadFault { site: Site },
    /// A write of a site failed. Site 0 is where results, and the texts of `show` and `check`, are printed.
    WriteFault { site: Site },
    /// A close of a site's file failed. The file is closed all the same.
    CloseFault { site: Site },
    /// A source has more bytes than the limit.
    TooLong { site: Site },
    /// There was no memory for some step.
    NoMemory,
}

impl Cause {
    /// The status with which the program ends.
    pub fn status(self) -> u8
        ensures { result ≡ status_of self }
    {
        match self {
            Cause::Success => 0,
            Cause::Usage => 2,
            Cause::ScriptFault => 3,
            Cause::ScriptLimit
            | Cause::ScriptText { .. }
            | Cause::Syntax { .. }
            | Cause::Limit { .. } => 4,
            Cause::Refused(_) => 5,
            Cause::Decode(_) => 6,
            Cause::AcquireFault { .. }
            | Cause::ReadFault { .. }
            | Cause::WriteFault { .. }
            | Cause::CloseFault { .. } => 7,
            Cause::TooLong { .. } => 8,
            Cause::NoMemory => 9,
            Cause::NotBuilt => 10,
        }
    }
}

/// Whether the line of a cause was written to standard error.
#[derive(Clone, Copy, Debug, PartialEq, Eq)]
pub enum Said {
    /// All of it was, which may be nothing.
    Whole,
    /// A write failed, and a front of it stands there.
    WriteFailed,
    /// There was no memory for it or for a write, and a front of it stands there.
    NoMemory,
}
