// Why a script is not typed.
ghost use Rattle.std.specs.Prelude.{◌≡◌};

use cd_elem::NoMemory;
use cd_types::{Refusal, RefusalKind};
use thiserror::Error;

/// Why a script is not typed.
#[derive(Clone, Copy, Debug, Error)]
pub enum CheckRefusal {
    /// It has no type, and this is refused first.
    #[error("refused at statement {}, part {}", .0.statement, .0.part)]
    Refused(Refusal),
    #[error("out of memory")]
    NoMemory,
}

impl From<NoMemory> for CheckRefusal {
    ghost use Rattle.cd_typing.specs.declared.refusal.CheckRefusal.TheVariants as refusal;

    ghost from_gives = { λ _ x. x ≡ refusal.NoMemory };

    fn from(_: NoMemory) -> CheckRefusal {
        CheckRefusal::NoMemory
    }
}

/// A refusal at a part.
pub fn refused(kind: RefusalKind, statement: u32, part: u32) -> CheckRefusal
    ensures { result ≡ CheckRefusal.Refused (record { kind = kind; statement = statement; part = part }) }
{
    CheckRefusal::Refused(Refusal {
        kind,
        statement,
        part,
    })
}
