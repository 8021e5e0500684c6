// Sequences: what is asked of a part, and the type of a sequence of what its parts have.
ghost use Rattle.std.specs.Prelude.{◌≡◌, ◌&&◌, List, None, true};
ghost use Rattle.cd_types.specs.Conditions.{lowest};
ghost use Rattle.cd_types.specs.Flows as flows;
ghost use Rattle.cd_types.specs.Parts.{Part, is_last as is_last_spec};
ghost use Rattle.cd_types.specs.Sequences as spec;
ghost use Rattle.cd_part_types.specs.Results.{result_of};
ghost use Rattle.cd_part_types.specs.Types.{type_of};

use crate::flows::{Flow, agree, is_cut, join};
use crate::part_type::{PartType, ResultKind};
use cd_types::RefusalKind;

/// What the parts of a sequence have so far.
#[derive(Drop)]
pub struct JoinedParts {
    /// What they give together.
    pub to: Flow,
    /// The last one's result.
    pub result: ResultKind,
    /// All of them are exact.
    pub exact: bool,
    /// All of them are idle.
    pub idle: bool,
}

fn both(first: bool, second: bool) -> bool
    ensures { result ≡ (first && second) }
{
    first && second
}

impl JoinedParts {
    ghost use Rattle.cd_part_types.specs.Sequences.{IsJoined};

    /// No part yet.
    pub fn new() -> JoinedParts
        ensures to { result.to ≡ None }
        ensures unit { result_of result.result ≡ flows.Unit }
        ensures exact { result.exact ≡ true }
        ensures idle { result.idle ≡ true }
    {
        JoinedParts {
            to: None,
            result: ResultKind::Unit,
            exact: true,
            idle: true,
        }
    }

    /// These and one part more.
    pub fn with(self, typed: PartType) -> JoinedParts
        ensures to { result.to ≡ flows.join self.to typed.to }
        ensures result { result.result ≡ typed.result }
        ensures exact { result.exact ≡ (self.exact && typed.exact) }
        ensures idle { result.idle ≡ (self.idle && typed.idle) }
    {
        JoinedParts {
            to: join(self.to, typed.to),
            result: typed.result,
            exact: both(self.exact, typed.exact),
            idle: both(self.idle, typed.idle),
        }
    }

    /// The type of the sequence of these parts, for what comes to it.
    pub fn sequence_type(self, flow: Flow, is_empty: bool) -> PartType
        ensures { (parts : List Part) → IsJoined flow parts self → is_empty ≡ is_last_spec parts → type_of result ≡ spec.sequence_type parts flow }
    {
        PartType {
            from: flow,
            to: if is_empty { flow } else { self.to },
            result: self.result,
            exact: self.exact,
            idle: self.idle,
            bound: 0,
        }
    }
}

/// Behind a part of a sequence, where those before it give this.
pub fn refused_in_sequence(
    before: Flow,
    flow: Flow,
    typed: &PartType,
    is_last: bool,
) -> Option<RefusalKind>
    ensures { result ≡ lowest (spec.sequence_fails before flow (type_of typed.now) is_last) }
{
    if !agree(before, typed.to) {
        Some(RefusalKind::KindMismatch)
    } else if !is_last && is_cut(flow) && !typed.exact {
        Some(RefusalKind::DropsRest)
    } else {
        None
    }
}
