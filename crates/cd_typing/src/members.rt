// Parts of sequences and members of chains: what is asked behind each, and the ends of both.
ghost use Rattle.std.specs.Prelude.{◌≡◌, [], ◌∷◌, ◌++◌, List, map, IfOk, OnOk};
ghost use Rattle.cd_part_types.specs.Sequences.{IsJoined};
ghost use Rattle.cd_part_types.specs.Types.{type_of};
ghost use Rattle.cd_types.specs.Chains as chains;
ghost use Rattle.cd_types.specs.Conditions.{Fails, lowest};
ghost use Rattle.cd_types.specs.Moments as moments;
ghost use Rattle.cd_types.specs.Parts.{Part, is_last as is_last_spec};
ghost use Rattle.cd_types.specs.Sequences as sequences;
ghost use Rattle.cd_typing.specs.Spots.{Spot};
ghost use Rattle.cd_typing.specs.Walking.{EndAnswers, Moves};
ghost use Rattle.cd_typing.specs.Members.{JoinsOn};

use crate::asking::ask;
use crate::refusal::CheckRefusal;
use crate::walk::Walk;
use cd_elem::{Items, Join, Kind, Pipe};
use cd_part_types::{
    JoinedParts, PartType, chain_bound, chain_type, put_type, refused_in_sequence,
};
use cd_types::RefusalKind;
use std::alloc::Global;

/// Asks what a sequence asks of a part, which has this number, and joins it to those before.
pub fn join_part(
    statement: u32,
    number: u32,
    flow: Option<Kind>,
    joined: JoinedParts,
    inside: PartType,
    is_last: bool,
) -> Result<JoinedParts, CheckRefusal>
    ensures moves { (at : Spot) → Moves at (moments.ask statement number (sequences.sequence_fails joined.to flow (type_of inside) is_last) ∷ []) at result }
    ensures joins { IfOk result (JoinsOn joined (type_of inside)) }
{
    match ask(
        refused_in_sequence(joined.to, flow, &inside, is_last),
        statement,
        number,
    ) {
        Ok(()) => Ok(joined.with(inside)),
        Err(refusal) => {
            drop(joined);
            drop(inside);
            Err(refusal)
        }
    }
}

/// Asks what a chain asks of a member, which has this number, and puts it behind those before.
pub fn put_member(
    statement: u32,
    number: u32,
    condition: Option<RefusalKind>,
    members: &mut Items<PartType>,
    inside: PartType,
) -> Result<(), CheckRefusal>
    ensures moves { (fails : Fails) (at : Spot) → condition ≡ lowest fails → Moves at (moments.ask statement number fails ∷ []) at result }
    ensures put { OnOk result (members.new ≡ members.old ++ inside ∷ []) }
{
    match ask(condition, statement, number) {
        Ok(()) => Ok(put_type(members, inside)?),
        Err(refusal) => {
            drop(inside);
            Err(refusal)
        }
    }
}

impl Walk {
    /// Ends a sequence of these parts.
    pub fn end_sequence(
        &mut self,
        statement: u32,
        part: u32,
        flow: Option<Kind>,
        joined: JoinedParts,
        is_empty: bool,
    ) -> Result<PartType, CheckRefusal>
        ensures { (parts : List Part) → IsJoined flow parts joined → is_empty ≡ is_last_spec parts
            → EndAnswers (sequences.sequence_type parts flow) (moments.end_part statement part 0 ∷ []) self.old self.new result }
    {
        match self.finish(statement, part, 0) {
            Ok(_) => Ok(joined.sequence_type(flow, is_empty)),
            Err(refusal) => {
                drop(joined);
                Err(refusal)
            }
        }
    }

    /// Ends a chain of these members.
    pub fn end_chain(
        &mut self,
        alloc: Global,
        statement: u32,
        part: u32,
        operator: Join,
        flow: Option<Kind>,
        members: Items<PartType>,
    ) -> Result<PartType, CheckRefusal>
        ensures { EndAnswers (chains.chain_type_of operator flow (map type_of members)) (moments.end_part statement part (chains.chain_bound operator (map type_of members)) ∷ []) self.old self.new result }
    {
        match self.finish(statement, part, chain_bound(operator, members.as_slice())) {
            Ok(bound) => Ok(chain_type(alloc, operator, flow, members, bound)?),
            Err(refusal) => {
                drop(members);
                Err(refusal)
            }
        }
    }
}
