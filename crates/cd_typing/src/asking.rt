// What is asked at a part.
ghost use Rattle.std.specs.Prelude.{◌≡◌, [], ◌∷◌, List, None, OnOk, Some};
ghost use Rattle.cd_types.specs.Conditions.{Fails, lowest};
ghost use Rattle.cd_types.specs.Moments as moments;
ghost use Rattle.cd_types.specs.Moments.{Moment};
ghost use Rattle.cd_typing.specs.Spots.{Spot, Stops};
ghost use Rattle.cd_typing.specs.Walking.{Moves};

use crate::refusal::{CheckRefusal, refused};
use cd_types::RefusalKind;

/// Refuses a part at which a condition fails: this one, if any.
#[tactic(auto, using(crate::proofs::Steps::asks))]
pub fn ask(condition: Option<RefusalKind>, statement: u32, part: u32) -> Result<(), CheckRefusal>
    ensures none { OnOk result (condition ≡ None) }
    ensures moves { (fails : Fails) (at : Spot) → condition ≡ lowest fails → Moves at (moments.ask statement part fails ∷ []) at result }
{
    match condition {
        None => Ok(()),
        Some(kind) => Err(refused(kind, statement, part)),
    }
}

/// The refusal at a place where a condition fails, or at a part asked before it.
#[tactic(auto, using(crate::proofs::Steps::asks))]
pub fn refused_by(
    condition: Option<RefusalKind>,
    statement: u32,
    number: u32,
    kind: RefusalKind,
    part: u32,
) -> CheckRefusal
    ensures { (first second : Fails) (at : Spot) (more : List Moment) → condition ≡ lowest first → lowest second ≡ Some kind
        → Stops at (moments.ask statement number first ∷ moments.ask statement part second ∷ more) result }
{
    match condition {
        None => refused(kind, statement, part),
        Some(earlier) => refused(earlier, statement, number),
    }
}
