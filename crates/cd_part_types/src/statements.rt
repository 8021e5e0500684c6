// What is asked behind the pipe of a statement.
ghost use Rattle.std.specs.Prelude.{◌≡◌};
ghost use Rattle.cd_types.specs.Conditions.{lowest};
ghost use Rattle.cd_types.specs.Statements as spec;
ghost use Rattle.cd_part_types.specs.Types.{type_of};

use crate::flows::{is_cut, is_nothing};
use crate::part_type::PartType;
use cd_types::RefusalKind;

/// Behind the pipe of `run` or `close`.
pub fn refused_behind_run(typed: &PartType) -> Option<RefusalKind>
    ensures { result ≡ lowest (spec.run_fails (type_of typed.now)) }
{
    if is_nothing(typed.to) {
        None
    } else {
        Some(RefusalKind::OpenEnd)
    }
}

/// Behind the pipe of `let`.
pub fn refused_behind_let(typed: &PartType) -> Option<RefusalKind>
    ensures { result ≡ lowest (spec.let_fails (type_of typed.now)) }
{
    if typed.result.is_unit() {
        None
    } else {
        Some(RefusalKind::ResultLost)
    }
}

/// Behind the pipe of `feed`.
pub fn refused_behind_feed(typed: &PartType) -> Option<RefusalKind>
    ensures { result ≡ lowest (spec.feed_fails (type_of typed.now)) }
{
    if is_cut(typed.from) && !typed.exact {
        Some(RefusalKind::DropsRest)
    } else if !is_nothing(typed.to) {
        Some(RefusalKind::OpenEnd)
    } else {
        None
    }
}
